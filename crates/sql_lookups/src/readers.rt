//! Look-ups of readers.
ghost use Rattle.std.specs.Prelude.{◌≡◌, ◌&&◌, true};
ghost use Rattle.std.specs.Str.{bytes_eq};
ghost use Rattle.sqlite.specs.Held.{state};
ghost use Rattle.hub_rows.specs.Keyed.{found};
ghost use Rattle.hub_rows.specs.Readers.{chosen, reader_in, readers_in};
ghost use Rattle.sql_rows.specs.Kept.{IsServing, Shows};
ghost use Rattle.sql_rows.specs.Kept.{Asks};
ghost use Rattle.sql_rows.specs.TypedTables.{readers};

use crate::bounds::ABOVE_ALL;
use hub_rows::{Reader, ReaderRow, StoreFault};
use ocpp_types::Listed;
use sql_rows::{first_row, listed};
use sqlite::{Alter, Connection, Error, Row, params};

fn find_one<S: Alter>(conn: &mut Connection<S>, op: &str, station: &str) -> Result<Vec<Row>, Error>
    ensures shows { IsServing (state S.Store conn.old) → Shows (λ v. v.items) readers (λ r. bytes_eq r.op op.now && bytes_eq r.station station.now) (state S.Store conn.old) (state S.Store conn.new) result }
{
    conn.query_all(sql_tables::readers::FIND, params![op, station, station])
}

fn find_all<S: Alter>(conn: &mut Connection<S>, op: &str) -> Result<Vec<Row>, Error>
    ensures shows { IsServing (state S.Store conn.old) → Shows (λ v. v.items) readers (λ r. bytes_eq r.op op.now && true) (state S.Store conn.old) (state S.Store conn.new) result }
{
    conn.query_all(sql_tables::readers::FIND, params![op, "", ABOVE_ALL])
}

/// The reader that was chosen for a station.
fn find_reader<S: Alter>(
    conn: &mut Connection<S>,
    op: &str,
    station: &str,
) -> Result<Option<ReaderRow>, StoreFault>
    ensures asks { Asks (state S.Store conn.old) (state S.Store conn.new) result (λ rows r. r ≡ found (λ r. r.op) op.now (λ r. bytes_eq r.station station.now) rows.readers) }
{
    first_row(find_one(conn, op, station))
}

/// The reader of a row, strict where there is none.
fn reader_of(row: Option<ReaderRow>) -> Reader
    ensures { result ≡ chosen row }
{
    match row {
        Some(row) => row.reader,
        None => Reader::Strict,
    }
}

/// How the requests of a station are read.
pub fn reader<S: Alter>(
    conn: &mut Connection<S>,
    op: &str,
    station: &str,
) -> Result<Reader, StoreFault>
    ensures asks { Asks (state S.Store conn.old) (state S.Store conn.new) result (λ rows r. r ≡ reader_in op.now station.now rows.readers) }
{
    Ok(reader_of(find_reader(conn, op, station)?))
}

/// The readers that an operator chose.
pub fn readers<S: Alter>(
    conn: &mut Connection<S>,
    op: &str,
) -> Result<Listed<ReaderRow>, StoreFault>
    ensures asks { Asks (state S.Store conn.old) (state S.Store conn.new) result (λ rows list. list ≡ readers_in op.now rows.readers) }
{
    listed(find_all(conn, op))
}

//! Look-ups of local lists, whose versions and entries have a table each.
ghost use Rattle.std.specs.Prelude.{◌≡◌, ◌&&◌, filter, find, map, IfOk};
ghost use Rattle.std.specs.Str.{bytes_eq};
ghost use Rattle.sqlite.specs.Held.{state};
ghost use Rattle.hub_rows.specs.Lookups.{local_list_in};
ghost use Rattle.sql_rows.specs.Kept.{IsServing, Shows};
ghost use Rattle.sql_rows.specs.Kept.{Asks, AsksIn};
ghost use Rattle.sql_rows.specs.TypedTable.{rows_in};
ghost use Rattle.sql_rows.specs.TypedTables.{entries, lists};

use hub_rows::{LocalList, LocalTag, StoreFault};
use ocpp_types::Listed;
use sql_rows::{EntryRow, ListHead, first_row, listed};
use sqlite::{Alter, Connection, Error, Row, params};
use std::alloc::Global;

fn find_one<S: Alter>(conn: &mut Connection<S>, op: &str, station: &str) -> Result<Vec<Row>, Error>
    ensures shows { IsServing (state S.Store conn.old) → Shows (λ v. v.items) lists (λ l. bytes_eq l.op op.now && bytes_eq l.station station.now) (state S.Store conn.old) (state S.Store conn.new) result }
{
    conn.query_all(sql_tables::lists::FIND, params![op, station])
}

fn find_entries<S: Alter>(
    conn: &mut Connection<S>,
    op: &str,
    station: &str,
) -> Result<Vec<Row>, Error>
    ensures shows { IsServing (state S.Store conn.old) → Shows (λ v. v.items) entries (λ e. bytes_eq e.op op.now && bytes_eq e.station station.now) (state S.Store conn.old) (state S.Store conn.new) result }
{
    conn.query_all(sql_tables::list_entries::LIST, params![op, station])
}

/// The list of a station, without its entries.
fn head<S: Alter>(
    conn: &mut Connection<S>,
    op: &str,
    station: &str,
) -> Result<Option<ListHead>, StoreFault>
    ensures asks { AsksIn (state S.Store conn.old) (state S.Store conn.new) result (λ db head. head ≡ find (λ l. bytes_eq l.op op.now && bytes_eq l.station station.now) (rows_in lists db)) }
{
    first_row(find_one(conn, op, station))
}

/// The rows of the entries of a station's list.
fn entry_rows<S: Alter>(
    conn: &mut Connection<S>,
    op: &str,
    station: &str,
) -> Result<Listed<EntryRow>, StoreFault>
    ensures asks { AsksIn (state S.Store conn.old) (state S.Store conn.new) result (λ db rows. rows ≡ filter (λ e. bytes_eq e.op op.now && bytes_eq e.station station.now) (rows_in entries db)) }
{
    listed(find_entries(conn, op, station))
}

/// The entries in some rows.
fn entries_of(alloc: Global, rows: Listed<EntryRow>) -> Result<Listed<LocalTag>, StoreFault>
    ensures { IfOk result (λ list. list ≡ map (λ e. e.entry) rows) }
{
    let entries: Vec<LocalTag> = rows
        .into_vec()
        .into_iter()
        .map(|row| row.entry)
        .collect(alloc)?;
    Ok(Listed::from(entries))
}

/// The local list of a station.
pub fn local_list<S: Alter>(
    conn: &mut Connection<S>,
    alloc: Global,
    op: &str,
    station: &str,
) -> Result<Option<LocalList>, StoreFault>
    ensures asks { Asks (state S.Store conn.old) (state S.Store conn.new) result (λ rows list. list ≡ local_list_in op.now station.now rows.local_lists) }
{
    match head(conn, op, station)? {
        None => Ok(None),
        Some(head) => {
            let rows = entry_rows(conn, op, station)?;
            Ok(Some(LocalList {
                version: head.version,
                entries: entries_of(alloc, rows)?,
            }))
        }
    }
}

//! Edits of settled uses, and of the owners of the id tags with which transactions began.
ghost use Rattle.std.specs.Prelude.{◌≡◌, ◌&&◌, true, Some};
ghost use Rattle.std.specs.Str.{bytes_eq};
ghost use Rattle.hub_rows.specs.Keyed.{by_key, found, put};
ghost use Rattle.hub_rows.specs.Rows.{tx_owner_key, use_key};
ghost use Rattle.hub_rows.specs.Uses.{energy_of, is_owner_of, last_use_in, next_use, owner_in, use_by, use_row, with_owner, with_use};
ghost use Rattle.sqlite.specs.Held.{state};
ghost use Rattle.sql_rows.specs.Kept.{Asks, Edits, IsServing, Shows, ShowsLast};
ghost use Rattle.sql_rows.specs.TypedTables.{tx_owners, uses};

use crate::binds::{done, seconds};
use hub_rows::{LAST_NUMBER, Stop, StoreFault, TxOwnerRow, TxRow};
use ocpp_types::Text;
use sql_rows::{first_row, only_number};
use sqlite::{Alter, Connection, Error, Row, params};

/// Adds the row of an owner.
fn add_owner<S: Alter>(
    conn: &mut Connection<S>,
    op: &str,
    station: &str,
    number: u32,
    owner: &str,
) -> Result<(), StoreFault>
    ensures edits { Edits (λ rows. record rows { tx_owners = put (by_key tx_owner_key) (record { op = op.now; station = station.now; number = number; owner = owner.now }) rows.tx_owners }) (state S.Store conn.old) (state S.Store conn.new) result }
{
    done(conn.execute(
        sql_tables::tx_owners::ADD,
        params![op, station, number, owner],
    ))
}

/// Puts the owner of the tag with which a transaction begins, where another operator granted it.
pub(crate) fn put_owner<S: Alter>(
    conn: &mut Connection<S>,
    op: &str,
    station: &str,
    number: u32,
    owner: &Option<Text>,
) -> Result<(), StoreFault>
    ensures edits { Edits (λ rows. record rows { tx_owners = with_owner op.now station.now number owner.now rows.tx_owners }) (state S.Store conn.old) (state S.Store conn.new) result }
{
    match owner {
        Some(owner) => add_owner(conn, op, station, number, owner.as_str()),
        None => Ok(()),
    }
}

fn find_owner<S: Alter>(
    conn: &mut Connection<S>,
    op: &str,
    station: &str,
    number: u32,
) -> Result<Vec<Row>, Error>
    ensures shows { IsServing (state S.Store conn.old) → Shows (λ v. v.items) tx_owners (λ r. bytes_eq r.op op.now && is_owner_of station.now number r) (state S.Store conn.old) (state S.Store conn.new) result }
{
    conn.query_all(sql_tables::tx_owners::FIND, params![op, station, number])
}

/// The row of the owner of the tag with which a transaction began.
fn owner_row<S: Alter>(
    conn: &mut Connection<S>,
    op: &str,
    station: &str,
    number: u32,
) -> Result<Option<TxOwnerRow>, StoreFault>
    ensures asks { Asks (state S.Store conn.old) (state S.Store conn.new) result (λ rows r. r ≡ found (λ r. r.op) op.now (is_owner_of station.now number) rows.tx_owners) }
{
    first_row(find_owner(conn, op, station, number))
}

fn find_last<S: Alter>(conn: &mut Connection<S>, owner: &str) -> Result<Vec<Row>, Error>
    ensures shows { IsServing (state S.Store conn.old) → ShowsLast (λ v. v.items) 1 uses (λ r. r.number) (λ r. bytes_eq r.op owner.now && true) (state S.Store conn.old) (state S.Store conn.new) result }
{
    conn.query_all(sql_tables::uses::FIND_LAST, params![owner])
}

/// The last number of an owner's uses, 0 where there is none.
fn last_number<S: Alter>(conn: &mut Connection<S>, owner: &str) -> Result<u32, StoreFault>
    ensures asks { Asks (state S.Store conn.old) (state S.Store conn.new) result (λ rows n. n ≡ last_use_in owner.now rows.uses) }
{
    only_number(find_last(conn, owner), 1)
}

/// The Wh between the start and the stop, held at the ends of 64 bits.
fn energy_of(row: &TxRow, stop: &Stop) -> i64
    ensures { result ≡ energy_of row.now stop.now }
{
    stop.meter_stop.saturating_sub(row.start.id.meter_start)
}

/// Adds a use.
fn add_use<S: Alter>(
    conn: &mut Connection<S>,
    owner: &str,
    number: u32,
    row: &TxRow,
    stop: &Stop,
) -> Result<(), StoreFault>
    ensures edits { Edits (λ rows. record rows { uses = put (by_key use_key) (use_row owner.now number row.now.op row.now stop.now) rows.uses }) (state S.Store conn.old) (state S.Store conn.new) result }
{
    done(conn.execute(
        sql_tables::uses::ADD,
        params![
            owner,
            number,
            row.op.as_str(),
            row.start.id.key.as_str(),
            seconds(stop.moment),
            energy_of(row, stop)
        ],
    ))
}

/// Adds the use that follows the owner's last one, unless that has the last number of all.
fn add_next<S: Alter>(
    conn: &mut Connection<S>,
    owner: &str,
    row: &TxRow,
    stop: &Stop,
) -> Result<(), StoreFault>
    ensures edits { Edits (λ rows. record rows { uses = with_use (next_use owner.now (last_use_in owner.now rows.uses) row.now.op row.now stop.now) rows.uses }) (state S.Store conn.old) (state S.Store conn.new) result }
{
    let last = last_number(conn, owner)?;
    if last >= LAST_NUMBER {
        return Ok(());
    }
    add_use(conn, owner, last + 1, row, stop)
}

/// Settles the use of a transaction that is stopped, where another operator granted its tag.
pub(crate) fn settle<S: Alter>(
    conn: &mut Connection<S>,
    row: &TxRow,
    stop: &Stop,
) -> Result<(), StoreFault>
    ensures edits { Edits (λ rows. record rows { uses = with_use (use_by row.now.op stop.now rows.uses (owner_in row.now.op row.now.station row.now.number rows.tx_owners) (Some row.now)) rows.uses }) (state S.Store conn.old) (state S.Store conn.new) result }
{
    let op = row.op.as_str();
    let station = row.station.as_str();
    match owner_row(conn, op, station, row.number)? {
        Some(found) => add_next(conn, found.owner.as_str(), row, stop),
        None => Ok(()),
    }
}

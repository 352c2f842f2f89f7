//! Look-ups of transactions.
ghost use Rattle.std.specs.Prelude.{◌≡◌, ◌&&◌, nat_le, not, filter, None, Some};
ghost use Rattle.std.specs.List.{list_any};
ghost use Rattle.std.specs.Str.{bytes_eq};
ghost use Rattle.sqlite.specs.Held.{state};
ghost use Rattle.hub_rows.specs.Keyed.{found};
ghost use Rattle.hub_rows.specs.Transactions.{counts, has_open_in, is_left_out, is_open, is_started, is_tx, is_used_in, last_tx_in, open_txs_in, same_start_in, tx_in, txs_from_in, txs_in};
ghost use Rattle.sql_rows.specs.Kept.{IsServing, Shows, ShowsLast, ShowsPage};
ghost use Rattle.sql_rows.specs.Kept.{Asks};
ghost use Rattle.sql_tables.specs.declared.pages.TheConstants.{PAGE_ROWS};
ghost use Rattle.sql_lookups.specs.Pages.{page_from};
ghost use Rattle.sql_rows.specs.TypedTables.{txs};

use crate::bounds::ABOVE_ALL;
use hub_rows::{StartKey, StoreFault, TxKey, TxRow, TxState};
use ocpp_types::Listed;
use sql_rows::{first_row, is_found, listed, only_number};
use sqlite::{Alter, Connection, Error, Row, params};

fn find_one<S: Alter>(
    conn: &mut Connection<S>,
    op: &str,
    station: &str,
    number: u32,
) -> Result<Vec<Row>, Error>
    ensures shows { IsServing (state S.Store conn.old) → Shows (λ v. v.items) txs (λ r. bytes_eq r.op op.now && is_tx station.now number r) (state S.Store conn.old) (state S.Store conn.new) result }
{
    conn.query_all(sql_tables::txs::FIND, params![op, station, number, number])
}

fn find_from<S: Alter>(
    conn: &mut Connection<S>,
    op: &str,
    station: &str,
    first: u32,
) -> Result<Vec<Row>, Error>
    ensures shows { IsServing (state S.Store conn.old) → Shows (λ v. v.items) txs (λ r. bytes_eq r.op op.now && (bytes_eq r.station station.now && nat_le first r.number)) (state S.Store conn.old) (state S.Store conn.new) result }
{
    conn.query_all(
        sql_tables::txs::FIND,
        params![op, station, first, ABOVE_ALL],
    )
}

fn find_last<S: Alter>(conn: &mut Connection<S>, op: &str, station: &str) -> Result<Vec<Row>, Error>
    ensures shows { IsServing (state S.Store conn.old) → ShowsLast (λ v. v.items) 0 txs (λ r. r.number) (λ r. bytes_eq r.op op.now && bytes_eq r.station station.now) (state S.Store conn.old) (state S.Store conn.new) result }
{
    conn.query_all(sql_tables::txs::LAST_NUMBER, params![op, station])
}

fn list_in_use<S: Alter>(conn: &mut Connection<S>, op: &str, key: &str) -> Result<Vec<Row>, Error>
    ensures shows { IsServing (state S.Store conn.old) → Shows (λ v. v.items) txs (λ r. bytes_eq r.op op.now && (bytes_eq r.start.id.key key.now && counts r)) (state S.Store conn.old) (state S.Store conn.new) result }
{
    conn.query_all(sql_tables::txs::LIST_IN_USE, params![op, key, true])
}

fn list_open<S: Alter>(conn: &mut Connection<S>, op: &str, station: &str) -> Result<Vec<Row>, Error>
    ensures shows { IsServing (state S.Store conn.old) → Shows (λ v. v.items) txs (λ r. bytes_eq r.op op.now && (bytes_eq r.station station.now && is_open r)) (state S.Store conn.old) (state S.Store conn.new) result }
{
    conn.query_all(sql_tables::txs::LIST_OPEN, params![op, station, true])
}

fn list_all_open<S: Alter>(conn: &mut Connection<S>, op: &str) -> Result<Vec<Row>, Error>
    ensures shows { IsServing (state S.Store conn.old) → Shows (λ v. v.items) txs (λ r. bytes_eq r.op op.now && is_open r) (state S.Store conn.old) (state S.Store conn.new) result }
{
    conn.query_all(sql_tables::txs::LIST_ALL_OPEN, params![op, true])
}

fn list_same<S: Alter>(
    conn: &mut Connection<S>,
    op: &str,
    station: &str,
    start: &StartKey,
) -> Result<Vec<Row>, Error>
    ensures shows { IsServing (state S.Store conn.old) → Shows (λ v. v.items) txs (λ r. bytes_eq r.op op.now && is_started station.now start.now r) (state S.Store conn.old) (state S.Store conn.new) result }
{
    conn.query_all(
        sql_tables::txs::LIST_SAME_STARTS,
        params![
            op,
            station,
            u32::from(start.connector),
            start.key.as_str(),
            start.meter_start,
            start.at
        ],
    )
}

fn find_page<S: Alter>(
    conn: &mut Connection<S>,
    op: &str,
    station: &str,
    first: u32,
) -> Result<Vec<Row>, Error>
    ensures shows { IsServing (state S.Store conn.old) → ShowsPage PAGE_ROWS (λ v. v.items) txs (λ t. bytes_eq t.op op.now && (bytes_eq t.station station.now && nat_le first t.number)) (state S.Store conn.old) (state S.Store conn.new) result }
{
    conn.query_all(sql_tables::txs::PAGE, params![op, station, first])
}

/// The first transactions of a station from a number on.
pub(crate) fn txs_page<S: Alter>(
    conn: &mut Connection<S>,
    op: &str,
    station: &str,
    first: u32,
) -> Result<Listed<TxRow>, StoreFault>
    ensures asks { Asks (state S.Store conn.old) (state S.Store conn.new) result (λ rows page. page ≡ page_from PAGE_ROWS (λ t. t.number) first (txs_in op.now station.now rows.transactions)) }
{
    listed(find_page(conn, op, station, first))
}

/// A transaction of a station.
pub(crate) fn find_tx<S: Alter>(
    conn: &mut Connection<S>,
    op: &str,
    station: &str,
    number: u32,
) -> Result<Option<TxRow>, StoreFault>
    ensures asks { Asks (state S.Store conn.old) (state S.Store conn.new) result (λ rows r. r ≡ found (λ r. r.op) op.now (is_tx station.now number) rows.transactions) }
{
    first_row(find_one(conn, op, station, number))
}

/// What rules ask of a transaction of a station.
pub fn tx<S: Alter>(
    conn: &mut Connection<S>,
    op: &str,
    station: &str,
    number: u32,
) -> Result<Option<TxState>, StoreFault>
    ensures asks { Asks (state S.Store conn.old) (state S.Store conn.new) result (λ rows r. r ≡ tx_in op.now station.now number rows.transactions) }
{
    Ok(find_tx(conn, op, station, number)?.map(|row| row.state()))
}

/// The transactions of a station from that number on.
pub fn txs<S: Alter>(
    conn: &mut Connection<S>,
    op: &str,
    station: &str,
    first: u32,
) -> Result<Listed<TxRow>, StoreFault>
    ensures asks { Asks (state S.Store conn.old) (state S.Store conn.new) result (λ rows list. list ≡ txs_from_in op.now station.now first rows.transactions) }
{
    listed(find_from(conn, op, station, first))
}

/// The open transactions of an operator.
pub fn open_txs<S: Alter>(conn: &mut Connection<S>, op: &str) -> Result<Listed<TxRow>, StoreFault>
    ensures asks { Asks (state S.Store conn.old) (state S.Store conn.new) result (λ rows list. list ≡ open_txs_in op.now rows.transactions) }
{
    listed(list_all_open(conn, op))
}

/// The transactions by which a tag is in use.
fn txs_in_use<S: Alter>(
    conn: &mut Connection<S>,
    op: &str,
    key: &str,
) -> Result<Listed<TxRow>, StoreFault>
    ensures asks { Asks (state S.Store conn.old) (state S.Store conn.new) result (λ rows list. list ≡ filter (λ r. bytes_eq r.op op.now && (bytes_eq r.start.id.key key.now && counts r)) rows.transactions) }
{
    listed(list_in_use(conn, op, key))
}

fn is_left_out(except: &Option<TxKey>, row: &TxRow) -> bool
    ensures { result ≡ is_left_out except.now row.now }
{
    match except {
        None => false,
        Some(key) => row.station.as_str() == key.station.as_str() && row.number == key.number,
    }
}

/// Whether there is one that isn't left out.
fn has_other(rows: &[TxRow], except: &Option<TxKey>) -> bool
    ensures { result ≡ list_any (λ r. not (is_left_out except.now r)) rows.now }
{
    rows.iter().any(|row| !is_left_out(except, row))
}

/// Whether the tag of a key is in use by another transaction than the one left out.
pub fn is_used<S: Alter>(
    conn: &mut Connection<S>,
    op: &str,
    key: &str,
    except: &Option<TxKey>,
) -> Result<bool, StoreFault>
    ensures asks { Asks (state S.Store conn.old) (state S.Store conn.new) result (λ rows used. used ≡ is_used_in op.now key.now except.now rows.transactions) }
{
    let rows = txs_in_use(conn, op, key)?;
    Ok(has_other(rows.as_slice(), except))
}

/// An open transaction of a station.
fn open_tx<S: Alter>(
    conn: &mut Connection<S>,
    op: &str,
    station: &str,
) -> Result<Option<TxRow>, StoreFault>
    ensures asks { Asks (state S.Store conn.old) (state S.Store conn.new) result (λ rows r. r ≡ found (λ r. r.op) op.now (λ r. bytes_eq r.station station.now && is_open r) rows.transactions) }
{
    first_row(list_open(conn, op, station))
}

/// Whether a transaction of a station is open.
pub fn has_open<S: Alter>(
    conn: &mut Connection<S>,
    op: &str,
    station: &str,
) -> Result<bool, StoreFault>
    ensures asks { Asks (state S.Store conn.old) (state S.Store conn.new) result (λ rows has. has ≡ has_open_in op.now station.now rows.transactions) }
{
    is_found(open_tx(conn, op, station))
}

/// The first transaction of a station with that start.
fn tx_of_start<S: Alter>(
    conn: &mut Connection<S>,
    op: &str,
    station: &str,
    start: &StartKey,
) -> Result<Option<TxRow>, StoreFault>
    ensures asks { Asks (state S.Store conn.old) (state S.Store conn.new) result (λ rows r. r ≡ found (λ r. r.op) op.now (is_started station.now start.now) rows.transactions) }
{
    first_row(list_same(conn, op, station, start))
}

/// The number of the first transaction of a station with that start.
pub fn same_start<S: Alter>(
    conn: &mut Connection<S>,
    op: &str,
    station: &str,
    start: &StartKey,
) -> Result<Option<u32>, StoreFault>
    ensures asks { Asks (state S.Store conn.old) (state S.Store conn.new) result (λ rows number. number ≡ same_start_in op.now station.now start.now rows.transactions) }
{
    Ok(tx_of_start(conn, op, station, start)?.map(|row| row.number))
}

/// The number of a station's last transaction, 0 where it has none.
pub fn last_tx<S: Alter>(
    conn: &mut Connection<S>,
    op: &str,
    station: &str,
) -> Result<u32, StoreFault>
    ensures asks { Asks (state S.Store conn.old) (state S.Store conn.new) result (λ rows n. n ≡ last_tx_in op.now station.now rows.transactions) }
{
    only_number(find_last(conn, op, station), 0)
}

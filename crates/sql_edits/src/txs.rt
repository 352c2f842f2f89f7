//! Edits of transactions.
ghost use Rattle.std.specs.Prelude.{◌≡◌, ◌&&◌, None};
ghost use Rattle.std.specs.Str.{bytes_eq};
ghost use Rattle.hub_rows.specs.Keyed.{found, by_key, changed, put};
ghost use Rattle.hub_rows.specs.Transactions.{is_tx, is_accepted};
ghost use Rattle.sqlite.specs.Held.{state};
ghost use Rattle.sql_rows.specs.Kept.{Asks, Edits, IsServing, Ran, Shows};
ghost use Rattle.sql_rows.specs.TypedTables.{txs};
ghost use Rattle.hub_rows.specs.Changes.{edit, tx_row, with_stop};
ghost use Rattle.hub_rows.specs.declared.change.Edit.TheVariants.{Transactions};
ghost use Rattle.hub_rows.specs.declared.change.TransactionEdit.TheVariants.{TxStarted};
ghost use Rattle.hub_rows.specs.Rows.{tx_key};
ghost use Rattle.hub_rows.specs.Uses.{settled_use, with_use};

use crate::binds::{changed_any, done, lent, seconds};
use crate::reservations::drop_named;
use crate::uses::settle;
use hub_rows::{Start, Stop, StoreFault, TxRow};
use ocpp_types::{AuthorizationStatus, Named};
use sql_rows::first_row;
use sqlite::{Alter, Connection, Error, Row, params};

fn is_accepted(status: AuthorizationStatus) -> bool
    ensures { result ≡ is_accepted status }
{
    matches!(status, AuthorizationStatus::Accepted)
}

/// Puts a transaction that has begun.
fn put_started<S: Alter>(
    conn: &mut Connection<S>,
    op: &str,
    station: &str,
    number: u32,
    start: &Start,
) -> Result<(), StoreFault>
    ensures edits { Edits (λ rows. record rows { transactions = put (by_key tx_key) (tx_row op.now station.now number start.now) rows.transactions }) (state S.Store conn.old) (state S.Store conn.new) result }
{
    let null: Option<i64> = None;
    done(conn.execute(
        sql_tables::txs::ADD,
        params![
            op,
            station,
            number,
            u32::from(start.id.connector),
            start.id.key.as_str(),
            start.id.meter_start,
            start.id.at,
            start.tag.as_str(),
            start.reservation,
            start.status.name(),
            seconds(start.begun),
            true,
            is_accepted(start.status),
            null,
            null,
            null,
            null,
            null
        ],
    ))
}

/// Runs a statement on a transaction that has ended.
fn run_ended<S: Alter>(
    conn: &mut Connection<S>,
    sql: &str,
    row: &TxRow,
    stop: &Stop,
) -> Result<usize, Error>
    ensures ran { Ran sql.now (txs.row (with_stop stop.now row.now)) (state S.Store conn.old) (state S.Store conn.new) result }
{
    let start = &row.start;
    conn.execute(
        sql,
        params![
            row.op.as_str(),
            row.station.as_str(),
            row.number,
            u32::from(start.id.connector),
            start.id.key.as_str(),
            start.id.meter_start,
            start.id.at,
            start.tag.as_str(),
            start.reservation,
            start.status.name(),
            seconds(start.begun),
            false,
            false,
            stop.meter_stop,
            stop.at,
            stop.reason.name(),
            lent(&stop.tag),
            seconds(stop.moment)
        ],
    )
}

/// Puts a transaction that has ended, most often in place of one that is there.
fn put_ended<S: Alter>(conn: &mut Connection<S>, row: &TxRow, stop: &Stop) -> Result<(), StoreFault>
    ensures edits { Edits (λ rows. record rows { transactions = put (by_key tx_key) (with_stop stop.now row.now) rows.transactions }) (state S.Store conn.old) (state S.Store conn.new) result }
{
    if changed_any(run_ended(conn, sql_tables::txs::UPDATE, row, stop))? {
        Ok(())
    } else {
        done(run_ended(conn, sql_tables::txs::PUT, row, stop))
    }
}

fn find_inside<S: Alter>(
    conn: &mut Connection<S>,
    op: &str,
    station: &str,
    number: u32,
) -> Result<Vec<Row>, Error>
    ensures shows { IsServing (state S.Store conn.old) → Shows (λ v. v.items) txs (λ r. bytes_eq r.op op.now && is_tx station.now number r) (state S.Store conn.old) (state S.Store conn.new) result }
{
    conn.query_all(sql_tables::txs::FIND, params![op, station, number, number])
}

/// A transaction of a station, inside a transaction of the database.
fn tx_inside<S: Alter>(
    conn: &mut Connection<S>,
    op: &str,
    station: &str,
    number: u32,
) -> Result<Option<TxRow>, StoreFault>
    ensures asks { Asks (state S.Store conn.old) (state S.Store conn.new) result (λ rows r. r ≡ found (λ r. r.op) op.now (is_tx station.now number) rows.transactions) }
{
    first_row(find_inside(conn, op, station, number))
}

/// Puts a new transaction, and drops the reservation that it names.
pub(crate) fn start_tx<S: Alter>(
    conn: &mut Connection<S>,
    op: &str,
    station: &str,
    number: u32,
    start: &Start,
) -> Result<(), StoreFault>
    ensures edits { Edits (edit op.now (Transactions (TxStarted station.now number start.now None))) (state S.Store conn.old) (state S.Store conn.new) result }
{
    put_started(conn, op, station, number, start)?;
    drop_named(conn, op, station, start.reservation)
}

/// Keeps the stop of a transaction, and settles its use. The transaction is on record, or else this answers Failed.
pub(crate) fn stop_tx<S: Alter>(
    conn: &mut Connection<S>,
    op: &str,
    station: &str,
    number: u32,
    stop: &Stop,
) -> Result<(), StoreFault>
    ensures edits { Edits (λ rows. record rows { transactions = changed (λ r. r.op) op.now (is_tx station.now number) (with_stop stop.now) rows.transactions; uses = with_use (settled_use op.now station.now number stop.now rows) rows.uses }) (state S.Store conn.old) (state S.Store conn.new) result }
{
    match tx_inside(conn, op, station, number)? {
        Some(row) => {
            put_ended(conn, &row, stop)?;
            settle(conn, &row, stop)
        }
        None => Err(StoreFault::Failed),
    }
}

//! What of a station's history may go, by the first of its meter values or of its transactions.
ghost use Rattle.std.specs.Prelude.{◌≡◌, ◌++◌, [], ◌∷◌, None, cond, filter, OnOk};
ghost use Rattle.sqlite.specs.Held.{state};
ghost use Rattle.hub_rows.specs.Forgetting.{goes_with, may_go, named_tx, old_meter_values, old_txs, oldest, tx_goes};
ghost use Rattle.hub_rows.specs.Lookups.{forgettable_in};
ghost use Rattle.hub_rows.specs.MeterValues.{meter_values_in};
ghost use Rattle.hub_rows.specs.Transactions.{txs_in};
ghost use Rattle.sql_rows.specs.Kept.{Asks};
ghost use Rattle.sql_lookups.specs.Forgotten.{IsNamed};

use crate::first_values::{first_values, oldest_values_of};
use crate::txs::{find_tx, txs_page};
use crate::values::is_named;
use hub_rows::{History, MeterValueRow, StoreFault, TxRow, goes_with, oldest};
use ocpp_types::{Listed, Mem, Moment};
use sqlite::{Alter, Connection};
use std::alloc::Global;

/// What a meter value names: the transaction, if it is on record.
#[derive(Drop)]
struct Named {
    transaction: Option<i32>,
    tx: Option<TxRow>,
}

/// The transaction that a meter value names, by its key. A number below zero names none.
fn tx_named<S: Alter>(
    conn: &mut Connection<S>,
    op: &str,
    station: &str,
    transaction: Option<i32>,
) -> Result<Option<TxRow>, StoreFault>
    ensures asks { Asks (state S.Store conn.old) (state S.Store conn.new) result (λ rows tx. tx ≡ named_tx transaction (txs_in op.now station.now rows.transactions)) }
{
    match transaction {
        Some(id) if id.is_negative() => Ok(None),
        Some(id) => find_tx(conn, op, station, id.unsigned_abs()),
        None => Ok(None),
    }
}

/// The same, which is looked up only where it isn't what was named last.
fn named_now<S: Alter>(
    conn: &mut Connection<S>,
    op: &str,
    station: &str,
    last: Named,
    transaction: Option<i32>,
) -> Result<Named, StoreFault>
    ensures asks { Asks (state S.Store conn.old) (state S.Store conn.new) result (λ rows now. IsNamed (txs_in op.now station.now rows.transactions) last → IsNamed (txs_in op.now station.now rows.transactions) now × (now.transaction ≡ transaction)) }
{
    if last.transaction == transaction {
        return Ok(last);
    }
    let tx = tx_named(conn, op, station, transaction)?;
    Ok(Named { transaction, tx })
}

/// Whether a meter value goes with what it names.
fn goes(until: Moment, row: &MeterValueRow, named: &Named) -> bool
    ensures { result ≡ goes_with until row.now.value.at named.now.tx }
{
    goes_with(until, row.value.at, named.tx.as_ref())
}

/// The first of some rows that may be forgotten, but the last of all.
#[tactic(auto, using(crate::proofs::ForgetLaws::oldest_front))]
fn oldest_of<R: Drop>(rows: Listed<R>) -> Listed<R>
    ensures { result ≡ oldest rows }
{
    let count = oldest(rows.as_slice()).len();
    let mut rows = rows.into_vec();
    rows.truncate(count);
    Listed::from(rows)
}

/// Adds a row, if it goes.
fn add_if<R: Drop>(rows: &mut Listed<R>, goes: bool, row: R) -> Mem<()>
    ensures { OnOk result (rows.new ≡ rows.old ++ cond goes (row ∷ []) []) }
{
    if goes { rows.push(row) } else { Ok(()) }
}

// ---- meter values

/// Those of some meter values that may go.
fn old_of<S: Alter>(
    conn: &mut Connection<S>,
    alloc: Global,
    op: &str,
    station: &str,
    until: Moment,
    rows: Listed<MeterValueRow>,
) -> Result<Listed<MeterValueRow>, StoreFault>
    ensures asks { Asks (state S.Store conn.old) (state S.Store conn.new) result (λ all gone. gone ≡ filter (may_go until (txs_in op.now station.now all.transactions)) rows) }
{
    let mut last = Named {
        transaction: None,
        tx: None,
    };
    let mut gone = Listed::new(alloc);
    'rows: for row in rows.into_vec() {
        last = named_now(conn, op, station, last, row.value.transaction)?;
        let is_old = goes(until, &row, &last);
        add_if(&mut gone, is_old, row)?;
    }
    Ok(gone)
}

/// The oldest meter values of a station that may go.
fn old_meter_values<S: Alter>(
    conn: &mut Connection<S>,
    alloc: Global,
    op: &str,
    station: &str,
    until: Moment,
) -> Result<Listed<MeterValueRow>, StoreFault>
    ensures asks { Asks (state S.Store conn.old) (state S.Store conn.new) result (λ rows gone. gone ≡ old_meter_values until (txs_in op.now station.now rows.transactions) (meter_values_in op.now station.now None rows.meter_values)) }
{
    let values = first_values(conn, alloc, op, station)?;
    old_of(conn, alloc, op, station, until, oldest_values_of(values))
}

// ---- transactions

/// Whether a transaction may go: it is over, and no meter value names it.
fn tx_goes<S: Alter>(
    conn: &mut Connection<S>,
    op: &str,
    station: &str,
    until: Moment,
    tx: &TxRow,
) -> Result<bool, StoreFault>
    ensures asks { Asks (state S.Store conn.old) (state S.Store conn.new) result (λ rows goes. goes ≡ tx_goes until (meter_values_in op.now station.now None rows.meter_values) tx.now) }
{
    if !tx.is_over(until) {
        return Ok(false);
    }
    let named = is_named(conn, op, station, tx.number)?;
    Ok(!named)
}

/// Those of some transactions that may go.
fn over_of<S: Alter>(
    conn: &mut Connection<S>,
    alloc: Global,
    op: &str,
    station: &str,
    until: Moment,
    txs: Listed<TxRow>,
) -> Result<Listed<TxRow>, StoreFault>
    ensures asks { Asks (state S.Store conn.old) (state S.Store conn.new) result (λ rows gone. gone ≡ filter (tx_goes until (meter_values_in op.now station.now None rows.meter_values)) txs) }
{
    let mut gone = Listed::new(alloc);
    'txs: for tx in txs.into_vec() {
        let goes = tx_goes(conn, op, station, until, &tx)?;
        add_if(&mut gone, goes, tx)?;
    }
    Ok(gone)
}

/// The oldest transactions of a station that may go.
fn old_txs<S: Alter>(
    conn: &mut Connection<S>,
    alloc: Global,
    op: &str,
    station: &str,
    until: Moment,
) -> Result<Listed<TxRow>, StoreFault>
    ensures asks { Asks (state S.Store conn.old) (state S.Store conn.new) result (λ rows gone. gone ≡ old_txs until (txs_in op.now station.now rows.transactions) (meter_values_in op.now station.now None rows.meter_values)) }
{
    let page = txs_page(conn, op, station, 0)?;
    over_of(conn, alloc, op, station, until, oldest_of(page))
}

/// What of a station's history may go before a moment: meter values, or else transactions.
pub fn forgettable<S: Alter>(
    conn: &mut Connection<S>,
    alloc: Global,
    op: &str,
    station: &str,
    until: Moment,
) -> Result<History, StoreFault>
    ensures asks { Asks (state S.Store conn.old) (state S.Store conn.new) result (λ rows f. f ≡ forgettable_in op.now station.now until rows) }
{
    let meter_values = old_meter_values(conn, alloc, op, station, until)?;
    if !meter_values.as_slice().is_empty() {
        return Ok(History {
            meter_values,
            transactions: Listed::new(alloc),
        });
    }
    let transactions = old_txs(conn, alloc, op, station, until)?;
    Ok(History {
        meter_values,
        transactions,
    })
}

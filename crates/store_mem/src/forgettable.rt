//! What may go of a station's history, by its rows in the order of their numbers.
ghost use Rattle.std.specs.Prelude.{◌≡◌, ◌&&◌, ℕ, pos, Some, filter, not, option_map, IfOk};
ghost use Rattle.std.specs.BTreeSet.{contains};
ghost use Rattle.std.specs.List.{list_any};
ghost use Rattle.std.specs.List.Sorted.{IsStrictlySortedBy};
ghost use Rattle.std.specs.Ordering.{int_cmp};
ghost use Rattle.hub_rows.specs.Forgetting.{forgettable, is_over, may_go, named_tx, tx_goes};
ghost use Rattle.hub_rows.specs.Keyed.{by_key, number_key};
ghost use Rattle.hub_rows.specs.MeterValues.{is_sent_with};

use crate::copies::copy;
use crate::station_copies::copy_of_row;
use crate::station_rows::row_in;
use hub_rows::{History, MeterValueRow, TxRow, goes_with, oldest, oldest_values};
use ocpp_types::{Listed, Mem, Moment};
use std::alloc::Global;
use std::collections::BTreeSet;

/// What may go before a moment: of the oldest meter values those that may, or else of the oldest transactions.
pub fn forgettable(
    alloc: Global,
    until: Moment,
    txs: &[TxRow],
    values: &[MeterValueRow],
) -> Mem<History>
    requires { IsStrictlySortedBy (by_key (number_key (λ t. t.number))) txs.now }
    ensures { IfOk result (λ f. f ≡ forgettable until txs.now values.now) }
{
    let meter_values = old_meter_values(alloc, until, txs, oldest_values(values))?;
    if !meter_values.as_slice().is_empty() {
        return Ok(History {
            meter_values,
            transactions: Listed::new(alloc),
        });
    }
    let transactions = old_txs(alloc, until, oldest(txs), values)?;
    Ok(History {
        meter_values,
        transactions,
    })
}

/// Copies of those meter values that may go.
#[tactic(auto, using(hub_rows::proofs::Steps::drop_here))]
fn old_meter_values(
    alloc: Global,
    until: Moment,
    txs: &[TxRow],
    values: &[MeterValueRow],
) -> Mem<Listed<MeterValueRow>>
    requires { IsStrictlySortedBy (by_key (number_key (λ t. t.number))) txs.now }
    ensures { IfOk result (λ l. l ≡ filter (may_go until txs.now) values.now) }
{
    let mut gone = Listed::new(alloc);
    for row in values {
        if may_go(until, txs, row) {
            gone.push(copy_of_row(alloc, row)?)?;
        }
    }
    Ok(gone)
}

fn may_go(until: Moment, txs: &[TxRow], row: &MeterValueRow) -> bool
    requires { IsStrictlySortedBy (by_key (number_key (λ t. t.number))) txs.now }
    ensures { result ≡ may_go until txs.now row.now }
{
    goes_with(until, row.value.at, named_tx(txs, row.value.transaction))
}

/// The transaction that a meter value names, by a binary search.
fn named_tx<'a>(txs: &'a [TxRow], transaction: Option<i32>) -> Option<&'a TxRow>
    requires { IsStrictlySortedBy (by_key (number_key (λ t. t.number))) txs.now }
    ensures { option_map (λ t. t.now) result ≡ named_tx transaction txs.now }
{
    match transaction {
        Some(id) if id.is_negative() => None,
        Some(id) => row_in(txs, id.unsigned_abs()),
        None => None,
    }
}

/// Copies of those transactions that may go.
#[tactic(auto, using(hub_rows::proofs::Steps::drop_here))]
fn old_txs(
    alloc: Global,
    until: Moment,
    txs: &[TxRow],
    values: &[MeterValueRow],
) -> Mem<Listed<TxRow>>
    ensures { IfOk result (λ l. l ≡ filter (tx_goes until values.now) txs.now) }
{
    let named = named_txs(alloc, values)?;
    let mut gone = Listed::new(alloc);
    for tx in txs {
        if goes(until, &named, tx) {
            gone.push(copy(tx)?)?;
        }
    }
    Ok(gone)
}

/// Whether a transaction is over, and its number none of those that meter values name.
fn goes(until: Moment, named: &BTreeSet<i64>, tx: &TxRow) -> bool
    ensures { result ≡ is_over until tx.now && not (contains int_cmp named.now (pos tx.now.number)) }
{
    tx.is_over(until) && !named.contains(&(tx.number as i64))
}

/// The numbers of transactions that meter values name.
fn named_txs(alloc: Global, values: &[MeterValueRow]) -> Mem<BTreeSet<i64>>
    ensures { IfOk result (λ named. (n : ℕ) → contains int_cmp named (pos n) ≡ list_any (λ r. is_sent_with (Some n) r.value.transaction) values.now) }
{
    let mut named = BTreeSet::new(alloc);
    for row in values {
        if let Some(id) = row.value.transaction {
            named.insert(id as i64)?;
        }
    }
    Ok(named)
}

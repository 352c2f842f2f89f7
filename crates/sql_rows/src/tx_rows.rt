//! Transactions, the owners of their tags and uses, read from their columns.
ghost use Rattle.std.specs.Prelude.{◌≡◌, IfOk, None, Some, ◌<◌};
ghost use Rattle.sql_rows.specs.TypedTables.{stop_in, txs};

use crate::columns::{
    connector, count, key, moment, moment_if_any, named, number, number_if_any, text, text_if_any,
};
use crate::stored::Stored;
use hub_rows::{Start, StartKey, Stop, StoreFault, TxOwnerRow, TxRow, UseRow};
use sqlite::Row;
use std::alloc::Global;

impl Stored for TxRow {
    ghost use Rattle.sql_rows.specs.TypedTables.{txs};

    ghost read = { txs.read };

    fn read(alloc: Global, row: &Row) -> Result<TxRow, StoreFault> {
        Ok(TxRow {
            op: text(row, 0)?,
            station: text(row, 1)?,
            number: count(row, 2)?,
            start: start(alloc, row)?,
            stop: stop(row)?,
        })
    }
}

fn start(alloc: Global, row: &Row) -> Result<Start, StoreFault>
    ensures { IfOk result (λ s. s ≡ (txs.read row.now).start) }
{
    Ok(Start {
        id: StartKey {
            connector: connector(row, 3)?,
            key: key(alloc, row, 4)?,
            meter_start: number(row, 5)?,
            at: number(row, 6)?,
        },
        tag: text(row, 7)?,
        reservation: number_if_any(row, 8)?,
        status: named(row, 9)?,
        begun: moment(row, 10)?,
    })
}

/// The stop, if the transaction has ended.
fn stop(row: &Row) -> Result<Option<Stop>, StoreFault>
    ensures { IfOk result (λ s. s ≡ stop_in row.now) }
{
    let moment = match moment_if_any(row, 17)? {
        Some(moment) => moment,
        None => return Ok(None),
    };
    Ok(Some(Stop {
        meter_stop: number(row, 13)?,
        at: number(row, 14)?,
        reason: named(row, 15)?,
        tag: text_if_any(row, 16)?,
        moment,
    }))
}

impl Stored for TxOwnerRow {
    ghost use Rattle.sql_rows.specs.TypedTables.{tx_owners};

    ghost read = { tx_owners.read };

    fn read(alloc: Global, row: &Row) -> Result<TxOwnerRow, StoreFault> {
        Ok(TxOwnerRow {
            op: text(row, 0)?,
            station: text(row, 1)?,
            number: count(row, 2)?,
            owner: text(row, 3)?,
        })
    }
}

impl Stored for UseRow {
    ghost use Rattle.sql_rows.specs.TypedTables.{uses};

    ghost read = { uses.read };

    fn read(alloc: Global, row: &Row) -> Result<UseRow, StoreFault> {
        Ok(UseRow {
            op: text(row, 0)?,
            number: count(row, 1)?,
            host: text(row, 2)?,
            key: key(alloc, row, 3)?,
            moment: moment(row, 4)?,
            wh: number(row, 5)?,
        })
    }
}

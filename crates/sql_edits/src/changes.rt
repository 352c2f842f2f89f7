//! Changes of the records.
ghost use Rattle.std.specs.Prelude.{◌<◌, ◌^◌, OnOk};
ghost use Rattle.sqlite.specs.Held.{state};
ghost use Rattle.hub_rows.specs.Changes.{edit};
ghost use Rattle.sql_rows.specs.Kept.{Edits, IsMade};
ghost use Rattle.hub_rows.specs.declared.change.Edit.TheVariants.{Stations, Tags, Transactions, Holdings};
ghost use Rattle.sql_edits.specs.Batches.{Adds, AddsMore, CommitsIf, IsCounted, TakesBack};
ghost use Rattle.sql_edits.specs.Ready.{EditsFitting, IsReady, MayEdit};

use crate::batches::{NotMade, begin, flush, go_back, mark, release};
use crate::connectors::put_connector;
use crate::dropping::drop_station;
use crate::forget::forget;
use crate::grants::{drop_grant, put_grant};
use crate::local_lists::set_list;
use crate::readers::put_reader;
use crate::reports::put_report;
use crate::reservations::{drop_reservation, put_reservation};
use crate::stations::{add_station, see_boot, set_policy};
use crate::tags::{drop_tag, put_tag};
use crate::txs::{start_tx, stop_tx};
use crate::uses::put_owner;
use crate::values::put_values;
use hub_rows::{Change, Edit, HoldingEdit, StationEdit, StoreFault, TagEdit, TransactionEdit};
use sqlite::{Alter, Connection};
use std::alloc::Global;

/// Makes an edit of a station, its reader, a connector or a report.
fn edit_stations<S: Alter>(
    conn: &mut Connection<S>,
    op: &str,
    change: &StationEdit,
) -> Result<(), StoreFault>
    ensures edits { Edits (edit op.now (Stations change.now)) (state S.Store conn.old) (state S.Store conn.new) result }
{
    match change {
        StationEdit::StationAdded {
            station,
            policy,
            interval,
        } => add_station(conn, op, station.as_str(), *policy, *interval),
        StationEdit::BootSeen {
            station,
            boot,
            state,
        } => see_boot(conn, op, station.as_str(), boot, *state),
        StationEdit::PolicySet {
            station,
            policy,
            interval,
        } => set_policy(conn, op, station.as_str(), *policy, *interval),
        StationEdit::ReaderSet { station, reader } => {
            put_reader(conn, op, station.as_str(), *reader)
        }
        StationEdit::StationDropped { station } => drop_station(conn, op, station.as_str()),
        StationEdit::ConnectorSeen {
            station,
            connector,
            report,
        } => put_connector(conn, op, station.as_str(), *connector, report),
        StationEdit::ReportSeen {
            station,
            status,
            moment,
        } => put_report(conn, op, station.as_str(), *status, *moment),
    }
}

/// Makes an edit of a tag or a grant.
fn edit_tags<S: Alter>(
    conn: &mut Connection<S>,
    alloc: Global,
    op: &str,
    change: &TagEdit,
) -> Result<(), StoreFault>
    ensures edits { Edits (edit op.now (Tags change.now)) (state S.Store conn.old) (state S.Store conn.new) result }
{
    match change {
        TagEdit::TagPut { key, tag } => put_tag(conn, alloc, op, key.as_str(), tag),
        TagEdit::TagDropped { key } => drop_tag(conn, op, key.as_str()),
        TagEdit::GrantPut { key, to, until } => put_grant(
            conn,
            op,
            key.as_str(),
            to.as_str(),
            until,
        ),
        TagEdit::GrantDropped { key, to } => drop_grant(conn, op, key.as_str(), to.as_str()),
    }
}

/// Makes an edit of transactions or of meter values.
fn edit_transactions<S: Alter>(
    conn: &mut Connection<S>,
    alloc: Global,
    op: &str,
    change: &TransactionEdit,
) -> Result<(), StoreFault>
    ensures edits { Edits (edit op.now (Transactions change.now)) (state S.Store conn.old) (state S.Store conn.new) result }
{
    match change {
        TransactionEdit::TxStarted {
            station,
            number,
            start,
            owner,
        } => {
            let station = station.as_str();
            start_tx(conn, op, station, *number, start)?;
            put_owner(conn, op, station, *number, owner)
        }
        TransactionEdit::TxStopped {
            station,
            number,
            stop,
            first,
            values,
        } => {
            let station = station.as_str();
            stop_tx(conn, op, station, *number, stop)?;
            put_values(conn, alloc, op, station, *first, values.as_slice())
        }
        TransactionEdit::MeterValuesAdded {
            station,
            first,
            values,
        } => put_values(conn, alloc, op, station.as_str(), *first, values.as_slice()),
        TransactionEdit::Forgotten { station, rows } => forget(conn, op, station.as_str(), rows),
    }
}

/// Makes an edit of what a station holds, that fits: of a reservation or the local list.
fn edit_holdings<S: Alter>(
    conn: &mut Connection<S>,
    alloc: Global,
    op: &str,
    change: &HoldingEdit,
) -> Result<(), StoreFault>
    ensures edits { EditsFitting op.now (Holdings change.now) (state S.Store conn.old) (state S.Store conn.new) result }
{
    match change {
        HoldingEdit::ReservationPut {
            station,
            id,
            reservation,
        } => put_reservation(conn, op, station.as_str(), *id, reservation),
        HoldingEdit::ReservationDropped { station, id } => {
            drop_reservation(conn, op, station.as_str(), *id)
        }
        HoldingEdit::ListSet { station, list } => set_list(conn, alloc, op, station.as_str(), list),
    }
}

/// Makes an edit that fits, in a batch.
fn make<S: Alter>(
    conn: &mut Connection<S>,
    alloc: Global,
    op: &str,
    change: &Edit,
) -> Result<(), StoreFault>
    ensures edits { EditsFitting op.now change.now (state S.Store conn.old) (state S.Store conn.new) result }
{
    match change {
        Edit::Stations(change) => edit_stations(conn, op, change),
        Edit::Tags(change) => edit_tags(conn, alloc, op, change),
        Edit::Transactions(change) => edit_transactions(conn, alloc, op, change),
        Edit::Holdings(change) => edit_holdings(conn, alloc, op, change),
    }
}

/// Begins a batch with a change. Where that fails, some of it may be made: the batch has to be undone.
pub fn apply<S: Alter>(
    conn: &mut Connection<S>,
    alloc: Global,
    change: &Change<'_>,
) -> Result<(), StoreFault>
    ensures adds { IsReady change.now.op.now change.now.edit.now (state S.Store conn.old) → Adds (IsMade (edit change.now.op.now change.now.edit.now)) (state S.Store conn.old) (state S.Store conn.new) result }
{
    begin(conn)?;
    make(conn, alloc, change.op.as_str(), change.edit)
}

/// Makes a change, with which so many are on record, and commits it. Where that fails, the batch may be open still: it has to
/// be undone.
pub fn apply_now<S: Alter>(
    conn: &mut Connection<S>,
    alloc: Global,
    change: &Change<'_>,
    changes: u64,
) -> Result<(), StoreFault>
    ensures commits { CommitsIf (IsReady change.now.op.now change.now.edit.now) (IsCounted (edit change.now.op.now change.now.edit.now) changes) (state S.Store conn.old) (state S.Store conn.new) result }
    ensures small { OnOk result (changes < 2 ^ 63) }
{
    apply(conn, alloc, change)?;
    flush(conn, changes)
}

/// Adds a change to a batch that is open.
pub fn apply_more<S: Alter>(
    conn: &mut Connection<S>,
    alloc: Global,
    change: &Change<'_>,
) -> Result<(), NotMade>
    ensures adds { MayEdit change.now.op.now change.now.edit.now (state S.Store conn.old) → AddsMore (IsMade (edit change.now.op.now change.now.edit.now)) (state S.Store conn.old) (state S.Store conn.new) result }
{
    match mark(conn) {
        Ok(()) => {}
        Err(fault) => return Err(NotMade::WithBatch(fault)),
    }
    match make(conn, alloc, change.op.as_str(), change.edit) {
        Ok(()) => match release(conn) {
            Ok(()) => Ok(()),
            Err(fault) => Err(NotMade::WithBatch(fault)),
        },
        Err(fault) => {
            if conn.is_autocommit() {
                return Err(NotMade::WithBatch(fault));
            }
            match take_back(conn) {
                Ok(()) => Err(NotMade::Alone(fault)),
                Err(_) => Err(NotMade::WithBatch(fault)),
            }
        }
    }
}

/// Undoes a change of a batch, and ends it.
fn take_back<S: Alter>(conn: &mut Connection<S>) -> Result<(), StoreFault>
    ensures takes_back { TakesBack (state S.Store conn.old) (state S.Store conn.new) result }
{
    go_back(conn)?;
    release(conn)
}

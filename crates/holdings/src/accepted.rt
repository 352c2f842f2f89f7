//! What a command that a station accepts changes on record (docs/RULES.md, Reservations and Local lists).
ghost use Rattle.std.specs.Prelude.{◌≡◌, IfOk};
ghost use Rattle.hub_rows.specs.Reads.{OnlyReads};
ghost use Rattle.hub_rows.specs.Lookups.{lookups_at};
ghost use Rattle.holdings.specs.LocalList.{kept_for};
ghost use Rattle.holdings.specs.Accepted.{accepted_edit, edit_when_accepted, is_held};

use crate::local_list::list_answer;
use crate::reservation::{cancelled, reserved};
use hub_rows::{Edit, LocalList, Store, StoreFault};
use ocpp_types::{Boxed, Mem, Text};
use operator_cmds::{Command, UpdateType};
use std::alloc::Global;

/// The edit of a command that a station has answered with Accepted: a ReserveNow keeps the
/// reservation, a CancelReservation removes it, a SendLocalList sets the list. Any other command,
/// and one to a station that isn't on record, edits nothing.
pub fn edit_when_accepted<S: Store>(
    alloc: Global,
    store: &mut S,
    op: &Text,
    station: &Text,
    command: &Command,
) -> Result<Option<Boxed<Edit>>, StoreFault>
    ensures reads { OnlyReads S.view store.old store.new result }
    ensures edit { (S.view store.new).clean → IfOk result (λ e. e
        ≡ edit_when_accepted station.now command.now (lookups_at op.now (S.view store.old).rows)) }
{
    if !is_held(command) {
        return Ok(None);
    }
    if store.station(op.as_str(), station.as_str())?.is_none() {
        return Ok(None);
    }
    let edit = accepted_edit(alloc, store, op, station, command)?;
    Ok(boxed(alloc, edit)?)
}

fn boxed(alloc: Global, edit: Option<Edit>) -> Mem<Option<Boxed<Edit>>>
    ensures { IfOk result (λ e. e ≡ edit) }
{
    match edit {
        Some(edit) => Ok(Some(Boxed::new(alloc, edit)?)),
        None => Ok(None),
    }
}

/// Whether a command is about what a station holds.
fn is_held(command: &Command) -> bool
    ensures { result ≡ is_held command.now }
{
    matches!(
        command,
        Command::ReserveNow(_) | Command::CancelReservation(_) | Command::SendLocalList(_)
    )
}

/// The edit of a command that the station has accepted.
fn accepted_edit<S: Store>(
    alloc: Global,
    store: &mut S,
    op: &Text,
    station: &Text,
    command: &Command,
) -> Result<Option<Edit>, StoreFault>
    ensures reads { OnlyReads S.view store.old store.new result }
    ensures edit { (S.view store.new).clean → IfOk result (λ e. e
        ≡ accepted_edit station.now command.now (lookups_at op.now (S.view store.old).rows)) }
{
    match command {
        Command::ReserveNow(fields) => Ok(reserved(station, fields)?),
        Command::CancelReservation(fields) => Ok(cancelled(station, fields)?),
        Command::SendLocalList(fields) => {
            let kept = kept_list(store, op, station, fields.update_type())?;
            Ok(list_answer(alloc, station, kept, fields)?)
        }
        _ => Ok(None),
    }
}

/// The list that a command builds on; a Full update needs none.
fn kept_list<S: Store>(
    store: &mut S,
    op: &Text,
    station: &Text,
    update: UpdateType,
) -> Result<Option<LocalList>, StoreFault>
    ensures reads { OnlyReads S.view store.old store.new result }
    ensures kept { (S.view store.new).clean → IfOk result (λ k. kept_for update k
        ≡ kept_for update ((lookups_at op.now (S.view store.old).rows).local_list station.now)) }
{
    match update {
        UpdateType::Differential => store.local_list(op.as_str(), station.as_str()),
        UpdateType::Full => Ok(None),
    }
}

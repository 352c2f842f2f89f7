//! The connected stations of an operator (docs/RULES.md, Requests of operators).
ghost use Rattle.std.specs.Prelude.{◌≡◌, ◌++◌, map, Ok, IfOk, OnOk};
ghost use Rattle.pending_calls.specs.OwnSlots.{own_slots};
ghost use Rattle.pending_calls.specs.Slots.{all_slots};
ghost use Rattle.listing_plans.specs.Listing.{connection, connections};
ghost use Rattle.plans.specs.Plans.{list_plan};

use hub_events::{Row, Said};
use ocpp_types::{Boxed, Listed, Mem};
use operator_cmds::Command;
use pending_calls::{Slot, Slots};
use plans::{Effect, Plan};
use std::alloc::Global;

/// The plan that shows which stations are connected, in the order of their names, and how many calls
/// are in flight and waiting at each.
#[inline(never)]
pub fn plan_connections(alloc: Global, slots: &Slots<Boxed<Command>>, op: &str) -> Mem<Plan>
    ensures { IfOk result (λ p. p ≡ list_plan (Ok (connections (own_slots op.now (all_slots slots.now))))) }
{
    let mut said = Listed::new(alloc);
    add_connections(alloc, &mut said, slots.of_operator(op))?;
    said.push(Said::Accepted { number: None })?;
    Ok(Plan {
        said,
        effect: Effect::Nothing,
    })
}

#[tactic(auto, using(hub_rows::proofs::Steps::drop_here))]
fn add_connections(
    alloc: Global,
    said: &mut Listed<Said>,
    slots: &[Boxed<Slot<Boxed<Command>>>],
) -> Mem<()>
    ensures { OnOk result (said.new ≡ said.old ++ map Said.Row (connections slots.now)) }
{
    for slot in slots {
        let slot = slot.as_ref();
        if slot.is_connected() {
            let row = connection(slot)?;
            said.push(Said::Row(Boxed::new(alloc, row)?))?;
        }
    }
    Ok(())
}

/// The row of a connected station.
fn connection(slot: &Slot<Boxed<Command>>) -> Mem<Row>
    ensures { IfOk result (λ row. row ≡ connection slot.now) }
{
    let station = slot.station().clone()?;
    let calls = slot.call_count();
    Ok(Row::Connection { station, calls })
}

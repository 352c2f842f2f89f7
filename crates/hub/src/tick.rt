//! A tick: calls that were sent too long ago end.
ghost use Rattle.std.specs.Prelude.{◌≡◌, ◌++◌, OnOk, OnErr};
ghost use Rattle.pending_calls.specs.Slots.{all_slots, first_number};
ghost use Rattle.pending_calls.specs.Tick.{tick};
ghost use Rattle.hub.specs.Effects.{tick_outputs};

use crate::call_outputs::push_moved;
use hub_events::{Out, Outcome};
use ocpp_types::{Boxed, Mem, Moment, NoMemory};
use operator_cmds::Command;
use pending_calls::Slots;

/// At each station the call in flight ends if it was sent too long ago, and the next one goes out.
/// What is said of them comes at the end of `outs`, in the order of operators and stations. Room
/// for all of it is made before anything changes.
pub fn expire_all(slots: &mut Slots<Boxed<Command>>, moment: Moment, outs: &mut Vec<Out>) -> Mem<()>
    ensures slots { OnOk result (all_slots slots.new ≡ tick moment (all_slots slots.old)) }
    ensures outs { OnOk result (outs.new.items ≡ outs.old.items ++ tick_outputs moment (all_slots slots.old)) }
    ensures err_slots { OnErr result (all_slots slots.new ≡ all_slots slots.old) }
    ensures err_outs { OnErr result (outs.new.items ≡ outs.old.items) }
    ensures number { first_number slots.new ≡ first_number slots.old }
{
    let Some(room) = slots.due(moment).checked_mul(2) else {
        return Err(NoMemory);
    };
    outs.reserve(room)?;
    while let Some(moved) = slots.expire_next(moment) {
        push_moved(outs, moved, Outcome::Timeout);
    }
    Ok(())
}

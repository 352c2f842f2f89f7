//! What is in flight.
ghost use Rattle.std.specs.Prelude.{◌≡◌, count_by};
ghost use Rattle.pending_calls.specs.OwnSlots.{own_slots};
ghost use Rattle.hub.specs.InFlight.{has_calls};

use crate::hub::Hub;
use hub_rows::Store;
use ocpp_types::Boxed;
use operator_cmds::Command;
use pending_calls::Slot;
use station_calls::VendorHandler;

impl<S: Store + Drop, V: VendorHandler> Hub<S, V> {
    ghost use Rattle.hub.specs.Hub.{world};

    /// At how many stations of an operator a call is in flight. It takes no memory.
    pub fn count_in_flight(&self, op: &str) -> usize
        ensures { result ≡ count_by has_calls (own_slots op.now (world S.view self.now).slots) }
    {
        let mut count = 0;
        for slot in self.slots.of_operator(op) {
            if has_calls(slot.as_ref()) {
                count += 1;
            }
        }
        count
    }
}

/// Whether a call of a station is in flight: where one waits, one is.
fn has_calls(slot: &Slot<Boxed<Command>>) -> bool
    ensures { result ≡ has_calls slot.now }
{
    slot.call_count() > 0
}

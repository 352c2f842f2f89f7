//! Events over a store, a stop of the work, and the store opened again.
ghost use Rattle.std.specs.Prelude.{◌≡◌, ◌⊎◌, ◌+◌, take, IsSome, IfOk};
ghost use Rattle.hub_rows.specs.Stops.{IsKept};
ghost use Rattle.hub.specs.Hub.{hub_view, world, setting};
ghost use Rattle.hub.specs.World.{world_run};

use crate::hub::Hub;
use hub_events::{Event, Fault};
use hub_rows::Reopens;
use station_calls::VendorHandler;
use std::alloc::Global;

/// Hands events to a hub until the first fault, lets the work stop there, and opens the store again: how many events were
/// taken, the fault, if there was one, and the store that is found, or why none is.
///
/// A store that fails from some call on stands for a stop at that call. The clause is the promise on stops: where the hub
/// was kept, the records found are those of the written table after the events taken, or, where a fault ended them, after
/// one more.
pub fn run_and_stop<S: Reopens + Drop, V: VendorHandler>(
    alloc: Global,
    hub: Hub<S, V>,
    events: &[Event],
) -> (usize, Option<Fault>, Result<S, S::Refused>)
    ensures { IsKept (hub_view S.view hub) → IfOk result.2 (λ s. S.is_open s
        → ((S.view s).rows ≡ (world_run (setting V.view hub) (world S.view hub) (take result.0 events.now)).rows)
        ⊎ (IsSome result.1 × ((S.view s).rows ≡ (world_run (setting V.view hub) (world S.view hub) (take (result.0 + 1) events.now)).rows))) }
{
    let mut hub = hub;
    let (_, taken, fault) = hub.run(events);
    (taken, fault, hub.into_store().stop_and_reopen(alloc))
}

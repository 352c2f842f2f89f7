//! The events of a journal that are taken together.
ghost use Rattle.std.specs.Prelude.{◌≡◌, OnOk, OnErr};
ghost use Rattle.hub.specs.World.{world_run};
ghost use Rattle.standby.specs.Follows.{IsReached};
ghost use Rattle.turn_hub.specs.TurnHub.{world, setting, is_clean};

use crate::fault::FollowFault;
use hub_events::Event;
use hub_rows::Store;
use journal::JournalFile;
use station_calls::VendorHandler;
use turn_hub::TurnHub;

/// Hands events to the hub, as those of a turn. Nobody is told what they say.
pub fn take_all<S: Store + Drop, V: VendorHandler, W: JournalFile + Drop>(
    hub: &mut TurnHub<S, V, W>,
    events: &[Event],
) -> Result<(), FollowFault>
    ensures setting { setting V.view hub.new ≡ setting V.view hub.old }
    ensures was_clean { is_clean S.view hub.new → is_clean S.view hub.old }
    ensures world { is_clean S.view hub.new → OnOk result (world S.view hub.new
        ≡ world_run (setting V.view hub.old) (world S.view hub.old) events.now) }
    ensures fault { is_clean S.view hub.new → OnErr result (IsReached (setting V.view hub.old) (world S.view hub.old)
        events.now (world S.view hub.new)) }
{
    for event in events {
        let _outs = hub.handle(event, "")?;
    }
    hub.end_turn()?;
    Ok(())
}

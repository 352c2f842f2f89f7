//! Events that change nothing.
ghost use Rattle.std.specs.Prelude.{◌≡◌, true};
ghost use Rattle.hub.specs.World.{Setting, World, is_idle, world_outputs, world_step};

use hub_events::{Event, Out};

/// Whether an event with those outputs is a tick at which no call has ended. It has changed nothing.
#[tactic(auto, using(crate::proofs::IdleLaws::idle_event))]
pub fn is_idle(event: &Event, outs: &[Out]) -> bool
    ensures says { result ≡ is_idle event.now outs.now }
    ensures same { result ≡ true → (setting : Setting) → (w : World) → outs.now ≡ world_outputs setting w event.now → world_step setting w event.now ≡ w }
{
    match event {
        Event::Tick { .. } => outs.is_empty(),
        Event::At { .. } => false,
    }
}

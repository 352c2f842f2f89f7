//! What the turns of a server go by.
ghost use Rattle.std.specs.Prelude.{◌≡◌};
ghost use Rattle.ws_server.specs.declared.reactor.Written.{Written};
ghost use Rattle.ws_server.specs.declared.reactor.Written.TheVariants.{Held, Dropped};
ghost use Rattle.ws_server.specs.Reactors.{given};

use crate::gateway::Gateway;
use crate::turn_server::State;
use hub::Fault;

/// What becomes of what is written to the streams of peers in a turn.
#[derive(Clone, Copy, Debug, PartialEq, Eq, Drop)]
pub enum Written {
    /// The streams hold it. Peers may read nothing of it.
    Held,
    /// It is given to the system.
    Given,
    /// What was written before the drop is never given to the system.
    Dropped,
}

/// What the turns of a server go by: its clock, the choice of whom it serves, and its streams. `R` gives what it reads clocks
/// by.
pub trait Reactor<T, R> {
    /// What becomes of what is written in this turn.
    ghost written: { Self → Written };

    /// A turn begins: what is written from now on is held.
    fn begin(&mut self)
        ensures { written self.new ≡ Held };

    /// The service of the turn begins, of the peers that have something to read.
    fn begin_service(&mut self, rt: &R, gateway: &Gateway<T>)
        ensures { written self.new ≡ written self.old };

    /// The place of the peer that is served next. `None` ends the service of the turn.
    fn next(&mut self, rt: &R, gateway: &Gateway<T>) -> Option<usize>
        ensures { written self.new ≡ written self.old };

    /// Ends the service of the peer that `next` gave. `events` counts the events that the hub took from it.
    fn served(&mut self, rt: &R, gateway: &Gateway<T>, events: u64)
        ensures { written self.new ≡ written self.old };

    /// Changes that waited are committed.
    fn committed(&mut self, rt: &R)
        ensures { written self.new ≡ written self.old };

    /// An event ended in a fault, or the commit of a turn did.
    fn failed(&mut self, fault: &Fault, state: State)
        ensures { written self.new ≡ written self.old };

    /// What is held is given to the system.
    fn give(&mut self)
        ensures { written self.new ≡ given (written self.old) };

    /// What is held is dropped.
    fn drop_turn(&mut self)
        ensures { written self.new ≡ Dropped };
}

//! The stages of a connection.
ghost use Rattle.std.specs.Prelude.{◌≡◌};
ghost use Rattle.ws_peers.specs.Stages.{is_open, is_held, ended, stage_after};

use crate::cause::Cause;
use tungstenite::Error;

/// How far a connection has come.
#[derive(Clone, Copy, Debug, PartialEq, Eq, Drop)]
pub enum Stage {
    /// It is served.
    Open,
    /// It has ended for that cause, and `leave` has not been called since.
    Ended(Cause),
    /// It has ended, and the disconnect of its station is to be handed to the hub.
    Leaving,
    /// It is gone, and the next sweep drops it.
    Gone,
}

impl Stage {
    /// Whether it is served.
    pub fn is_open(self) -> bool
        ensures { result ≡ is_open self }
    {
        matches!(self, Stage::Open)
    }

    /// An open connection ends, for that cause; one that has ended is unchanged.
    pub fn ended(self, cause: Cause) -> Stage
        ensures { result ≡ ended cause self }
    {
        match self {
            Stage::Open => Stage::Ended(cause),
            other => other,
        }
    }

    /// The stage after a send, whose error ends the connection.
    pub(crate) fn after_send(self, gave: Result<(), Error>) -> Stage
        ensures { result ≡ stage_after gave self }
    {
        match gave {
            Ok(()) => self,
            Err(error) => self.ended(Cause::of_send(&error)),
        }
    }

    /// Whether it isn't gone.
    pub fn is_held(self) -> bool
        ensures { result ≡ is_held self }
    {
        !matches!(self, Stage::Gone)
    }
}

//! The stages of a script.
ghost use Rattle.std.specs.Prelude.{◌≡◌};
ghost use Rattle.station_sim.specs.Remote.{is_idle};
ghost use Rattle.station_sim.specs.Session.{is_end};

/// What a station does next: the call that it makes or has in flight, or that it waits.
#[derive(Clone, Copy, Debug, PartialEq, Eq, Drop)]
pub enum Stage {
    Boot,
    Status,
    Authorize,
    Start,
    /// A transaction is open and so many readings were sent: the next reading, and after the last
    /// the stop, or in a session that a command began the wait for the command that stops it.
    Charging { transaction: i32, sent: usize },
    /// A command stops a transaction: its stop.
    Stopping { transaction: i32 },
    /// A transaction was refused: its stop.
    Refused { transaction: i32 },
    /// No session runs, and the station waits for commands.
    Idle,
    /// No call any more.
    Ended,
}

impl Stage {
    /// Whether it has no call any more.
    pub fn is_end(self) -> bool
        ensures { result ≡ is_end self }
    {
        matches!(self, Stage::Ended)
    }

    /// Whether no session runs and the station waits for commands.
    pub fn is_idle(self) -> bool
        ensures { result ≡ is_idle self }
    {
        matches!(self, Stage::Idle)
    }
}

//! Peers that send nothing.

use std::cell::Cell;

/// Since when a peer has sent nothing. Seconds are those that `Streams::set_second` tells.
#[derive(Drop)]
pub struct Silence {
    /// The second in which its last bytes were read, or else that in which its stream was accepted.
    heard_in: Cell<u64>,
    /// The second in which a ping was due to it, if no bytes were read since.
    pinged_in: Cell<Option<u64>>,
}

/// What is due to a silent peer.
#[derive(Clone, Copy, Debug, PartialEq, Eq, Drop)]
pub enum Due {
    /// A ping.
    Ping,
    /// Its end: it hasn't answered the ping.
    End,
}

impl Silence {
    /// That of a stream that is accepted in that second.
    pub fn new(second: u64) -> Silence {
        Silence {
            heard_in: Cell::new(second),
            pinged_in: Cell::new(None),
        }
    }

    /// Bytes were read in that second.
    pub fn hear(&self, second: u64) {
        self.heard_in.set(second);
        self.pinged_in.set(None);
    }

    /// What is due in that second, if anything: a ping once after `ping_after` seconds of silence, and the end in each
    /// second from `answer_within` seconds after the ping on.
    pub fn due(&self, second: u64, ping_after: u64, answer_within: u64) -> Option<Due> {
        match self.pinged_in.get() {
            Some(pinged_in) => {
                (second.saturating_sub(pinged_in) >= answer_within).then_some(Due::End)
            }
            None if second.saturating_sub(self.heard_in.get()) < ping_after => None,
            None => {
                self.pinged_in.set(Some(second));
                Some(Due::Ping)
            }
        }
    }
}

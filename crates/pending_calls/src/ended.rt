//! Calls that ended all at once.
ghost use Rattle.std.specs.Prelude.{◌≡◌, [], ◌++◌, IfNone, option_to_list};
ghost use Rattle.pending_calls.specs.Shown.{all_calls};

use crate::call::{Call, InFlight, Waiting};
use std::alloc::Global;
use std::marker::Model;

/// Calls that ended all at once, in their order: first the one in flight, then those that waited.
/// They are handed out as they were kept, which takes no memory.
#[derive(Drop)]
pub struct Ended<C> {
    in_flight: Option<InFlight<C>>,
    waiting: Vec<Waiting<C>>,
}

impl<C> Model for Ended<C> {
    ghost use Rattle.std.specs.Prelude.{List};
    ghost use Rattle.pending_calls.specs.declared.call.Call.{Call};

    ghost Value = { List (Call C) };

    ghost use Rattle.pending_calls.specs.Shown.{all_calls};

    ghost view = { λ e. all_calls e.in_flight e.waiting.items };
}

impl<C: Drop> Ended<C> {
    /// No call. It takes no memory.
    pub(crate) fn none(alloc: Global) -> Ended<C>
        ensures { result ≡ [] }
    {
        Ended {
            in_flight: None,
            waiting: Vec::new(alloc),
        }
    }

    /// The call in flight, and those that waited.
    pub(crate) fn of(in_flight: Option<InFlight<C>>, waiting: Vec<Waiting<C>>) -> Ended<C>
        ensures { result ≡ all_calls in_flight waiting.items }
    {
        Ended { in_flight, waiting }
    }

    /// Takes the first call out. It is `None` where no call is left.
    pub fn pop(&mut self) -> Option<Call<C>>
        ensures calls { self.old ≡ option_to_list result ++ self.new }
        ensures end { IfNone result (self.old ≡ []) }
    {
        match self.in_flight.take() {
            Some(first) => Some(first.call),
            None => {
                if self.waiting.is_empty() {
                    None
                } else {
                    Some(self.waiting.remove(0).call)
                }
            }
        }
    }
}

//! What an event of an operator says and changes, before anything is changed.
ghost use Rattle.std.specs.Prelude.{◌≡◌, [], ◌∷◌, IfOk};
ghost use Rattle.plans.specs.Effects.{edit_effect};
ghost use Rattle.plans.specs.Plans.{nothing, only, changing};

use hub_events::{Outcome, Said};
use hub_rows::Edit;
use ocpp_types::{Boxed, Listed, Mem, Text};
use operator_cmds::Command;
use std::alloc::Global;

/// What an event says to its operator, and what it changes. What is said of calls that its effect
/// ends or sends comes after it.
#[derive(Drop)]
pub struct Plan {
    /// In the order in which it is said.
    pub said: Listed<Said>,
    /// One change, or none.
    pub effect: Effect,
}

/// What an event changes.
#[derive(Drop)]
pub enum Effect {
    /// Nothing changes.
    Nothing,
    /// The records of the operator change.
    Edit(Boxed<Edit>),
    /// A station is connected, and the calls of its last connection end.
    Connect {
        station: Text,
    },
    /// A station's connection has ended, and its calls end.
    Disconnect {
        station: Text,
    },
    /// A command becomes a call of a station, with that text.
    Submit {
        station: Text,
        command: Boxed<Command>,
        text: Text,
    },
    /// A station answers its call in flight, by its id. The records of the operator change as the
    /// command asked for, if they do, in the same step.
    Answer {
        station: Text,
        id: Text,
        outcome: Boxed<Outcome>,
        edit: Option<Boxed<Edit>>,
    },
}

impl From<Option<Boxed<Edit>>> for Effect {
    ghost from_gives = { λ edit e. e ≡ edit_effect edit };

    fn from(edit: Option<Boxed<Edit>>) -> Effect {
        match edit {
            Some(edit) => Effect::Edit(edit),
            None => Effect::Nothing,
        }
    }
}

impl Plan {
    /// Nothing is said and nothing changes.
    pub fn nothing(alloc: Global) -> Plan
        ensures { result ≡ nothing }
    {
        Plan::changing(alloc, Effect::Nothing)
    }

    /// One thing is said.
    pub fn only(alloc: Global, said: Said) -> Mem<Plan>
        ensures { IfOk result (λ p. p ≡ only said) }
    {
        Ok(Plan {
            said: one(alloc, said)?,
            effect: Effect::Nothing,
        })
    }

    /// An effect, which says what is to be said.
    pub fn changing(alloc: Global, effect: Effect) -> Plan
        ensures { result ≡ changing effect }
    {
        Plan {
            said: Listed::new(alloc),
            effect,
        }
    }
}

/// One thing that is said.
pub fn one(alloc: Global, said: Said) -> Mem<Listed<Said>>
    ensures { IfOk result (λ list. list ≡ said ∷ []) }
{
    Listed::one(alloc, said)
}

//! What is said of calls that end or go out, at the end of a list that has room for it.
ghost use Rattle.std.specs.Prelude.{◌≡◌, ◌+◌, ◌≤◌, ◌++◌, length, map, Some, vec_len, vec_capacity};
ghost use Rattle.hub.specs.Effects.{done, sent, moved_outputs};
ghost use Rattle.hub_events.specs.declared.out.Outcome.TheVariants.{Disconnected};

use hub_events::{Out, Outcome, Said};
use ocpp_types::Boxed;
use operator_cmds::Command;
use pending_calls::{Call, Ended, Message, Moved};

/// A call has ended.
fn done(call: Call<Boxed<Command>>, outcome: Outcome) -> Out
    ensures { result ≡ done outcome call }
{
    Out {
        op: call.op,
        said: Said::Done {
            station: call.station,
            number: call.number,
            outcome,
        },
    }
}

/// Adds the ends of calls whose connection has ended.
pub fn push_ended(outs: &mut Vec<Out>, mut ended: Ended<Boxed<Command>>)
    requires { vec_len outs.old + length ended ≤ vec_capacity outs.old }
    ensures items { outs.new.items ≡ outs.old.items ++ map (done Disconnected) ended }
    ensures len { vec_len outs.new ≡ vec_len outs.old + length ended }
{
    while let Some(call) = ended.pop() {
        outs.push_reserved(done(call, Outcome::Disconnected));
    }
}

/// Adds a text that goes out, if there is one.
pub fn push_message(outs: &mut Vec<Out>, message: Option<Message>)
    requires { vec_len outs.old + 1 ≤ vec_capacity outs.old }
    ensures items { outs.new.items ≡ outs.old.items ++ sent message }
    ensures len { vec_len outs.new ≤ vec_len outs.old + 1 }
    ensures capacity { vec_capacity outs.old ≤ vec_capacity outs.new }
{
    if let Some(message) = message {
        outs.push_reserved(Out {
            op: message.op,
            said: Said::Send {
                station: message.station,
                text: message.text,
            },
        });
    }
}

/// Adds the end of a call, and the text that goes out next, if there is one.
pub fn push_moved(outs: &mut Vec<Out>, moved: Moved<Boxed<Command>>, outcome: Outcome)
    requires { vec_len outs.old + 2 ≤ vec_capacity outs.old }
    ensures items { outs.new.items ≡ outs.old.items ++ moved_outputs outcome (Some moved) }
    ensures len { vec_len outs.new ≤ vec_len outs.old + 2 }
    ensures capacity { vec_capacity outs.old ≤ vec_capacity outs.new }
{
    outs.push_reserved(done(moved.ended, outcome));
    push_message(outs, moved.next);
}

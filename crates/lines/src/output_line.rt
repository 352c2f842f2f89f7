//! Lines of output (docs/RULES.md, Lines).
ghost use Rattle.std.specs.Prelude.{◌≡◌, IfOk, option_map, string_bytes};
ghost use Rattle.lines.specs.OutputLines.{line_of, outcome_text, refused_line, refusal_detail};

use crate::rows::print_row;
use hub_events::{Out, Outcome, Said};
use ocpp_types::{Mem, Named, Refusal, Text};
use serde_json::json;
use std::alloc::Global;

/// The line of an output, without a line feed (docs/RULES.md, Lines).
#[tactic(auto, unfolding(crate::specs::OutputLines::line_of))]
pub fn print_out(alloc: Global, out: &Out) -> Mem<String>
    ensures { IfOk result (λ s. string_bytes s ≡ line_of out.now) }
{
    let op = &out.op;
    let line = match &out.said {
        Said::Send { station, text } => format!(in alloc; "{op} {station} send {text}")?,
        Said::Done {
            station,
            number,
            outcome,
        } => {
            let outcome = print_outcome(alloc, outcome)?;
            format!(in alloc; "{op} {station} done {number} {outcome}")?
        }
        Said::Turned { station } => format!(in alloc; "{op} {station} turned")?,
        Said::Repaired {
            station,
            action,
            fault,
        } => {
            let (action, code) = (action.name(), fault.code.name());
            let field = fault.field.as_str();
            format!(in alloc; "{op} {station} repaired {action} {code} {field}")?
        }
        Said::Refused(refusal) => print_refused(alloc, op, refusal)?,
        Said::Row(row) => print_row(alloc, op, row.as_ref())?,
        Said::Accepted {
            number: Some(number),
        } => format!(in alloc; "{op} ok {number}")?,
        Said::Accepted { number: None } => format!(in alloc; "{op} ok")?,
    };
    Ok(line)
}

fn print_outcome(alloc: Global, outcome: &Outcome) -> Mem<String>
    ensures { IfOk result (λ s. string_bytes s ≡ outcome_text outcome.now) }
{
    let text = match outcome {
        Outcome::Answer { json } => format!(in alloc; "Answer {json}")?,
        Outcome::BadAnswer { code, field } => {
            let code = code.name();
            let field = field.as_str();
            format!(in alloc; "BadAnswer {code} {field}")?
        }
        Outcome::Error { code, description } => {
            let error = json!(in alloc; [code.as_str(), description.as_str()])?;
            let error = error.to_string(alloc)?;
            format!(in alloc; "Error {error}")?
        }
        Outcome::Timeout => String::from_str(alloc, "Timeout")?,
        Outcome::Disconnected => String::from_str(alloc, "Disconnected")?,
    };
    Ok(text)
}

fn print_refused(alloc: Global, op: &Text, refusal: &Refusal) -> Mem<String>
    ensures { IfOk result (λ s. string_bytes s
        ≡ refused_line op.now refusal.now (refusal_detail refusal.now)) }
{
    let number = refusal.number();
    let name = refusal.name();
    match detail(refusal) {
        Some(detail) => Ok(format!(in alloc; "{op} refused {number} {name} {detail}")?),
        None => Ok(format!(in alloc; "{op} refused {number} {name}")?),
    }
}

fn detail(refusal: &Refusal) -> Option<&'static str>
    ensures { option_map (λ d. d.now) result ≡ refusal_detail refusal.now }
{
    match refusal {
        Refusal::BadField(field) => Some(field.as_str()),
        Refusal::TagRefused(status) => Some(status.name()),
        Refusal::NoSuchStation
        | Refusal::StationExists
        | Refusal::NoSuchTag
        | Refusal::NoSuchOperator
        | Refusal::SelfGrant
        | Refusal::NoSuchGrant
        | Refusal::NotConnected
        | Refusal::QueueFull
        | Refusal::NotAllowedNow
        | Refusal::NoSuchTransaction
        | Refusal::HasOpenTransactions
        | Refusal::NoSuchReservation
        | Refusal::NumberSpent => None,
    }
}

//! Plans from facts: one small function for each kind of event (docs/RULES.md).
ghost use Rattle.std.specs.Prelude.{◌≡◌, IfOk};
ghost use Rattle.plans.specs.Plans.{turned_plan, connect_plan, disconnect_plan, sent_plan, error_plan, error_text, conf_text, reply_text, decided_plan, repaired_plan, edit_plan, forget_plan, forgetting, forgotten_plan, up_to_ends};

use crate::message_at::CallAt;
use crate::plan::{Effect, Plan, one};
use answer_texts::answer_text;
use hub_events::{HistoryEnds, Row, Said};
use hub_rows::{Edit, History, Registration, TransactionEdit};
use ocpp_frame::write_error;
use ocpp_payload::{Action, Conf, FieldFault};
use ocpp_types::{Boxed, ErrorCode, Mem, Named, Refusal, Text};
use registry::{Decision, Reply};
use std::alloc::Global;

/// A station is turned away.
pub fn turned_plan(alloc: Global, station: &Text) -> Mem<Plan>
    ensures { IfOk result (λ p. p ≡ turned_plan station.now) }
{
    Plan::only(
        alloc,
        Said::Turned {
            station: station.clone()?,
        },
    )
}

/// A station connects: it is turned away where it isn't registered.
pub fn connect_plan(alloc: Global, station: &Text, registration: Option<Registration>) -> Mem<Plan>
    ensures { IfOk result (λ p. p ≡ connect_plan station.now registration) }
{
    match registration {
        Some(_) => {
            let station = station.clone()?;
            Ok(Plan::changing(alloc, Effect::Connect { station }))
        }
        None => turned_plan(alloc, station),
    }
}

/// A station's connection ends, and its calls end.
pub fn disconnect_plan(alloc: Global, station: &Text) -> Mem<Plan>
    ensures { IfOk result (λ p. p ≡ disconnect_plan station.now) }
{
    let station = station.clone()?;
    Ok(Plan::changing(alloc, Effect::Disconnect { station }))
}

fn sent_plan(alloc: Global, station: &Text, text: Text) -> Mem<Plan>
    ensures { IfOk result (λ p. p ≡ sent_plan station.now text) }
{
    Plan::only(
        alloc,
        Said::Send {
            station: station.clone()?,
            text,
        },
    )
}

fn error_text(alloc: Global, id: &Text, code: ErrorCode, description: &str) -> Mem<Text>
    ensures { IfOk result (λ t. t ≡ error_text id.now code description.now) }
{
    let text = write_error(alloc, id.as_str(), code.name(), description)?;
    Ok(Text::from(text))
}

#[tactic(auto, unfolding(crate::specs::Plans::conf_text))]
fn conf_text(alloc: Global, id: &Text, conf: &Conf) -> Mem<Text>
    ensures { IfOk result (λ t. t ≡ conf_text id.now conf.now) }
{
    Ok(Text::from(answer_text(alloc, id.as_str(), conf)?))
}

fn reply_text(alloc: Global, id: &Text, reply: &Reply) -> Mem<Text>
    ensures { IfOk result (λ t. t ≡ reply_text id.now reply.now) }
{
    match reply {
        Reply::Conf(conf) => conf_text(alloc, id, conf),
        Reply::Error(code) => error_text(alloc, id, *code, ""),
    }
}

/// A call is answered with an error.
pub fn error_plan(
    alloc: Global,
    station: &Text,
    id: &Text,
    code: ErrorCode,
    description: &str,
) -> Mem<Plan>
    ensures { IfOk result (λ p. p ≡ error_plan station.now id.now code description.now) }
{
    let text = error_text(alloc, id, code, description)?;
    sent_plan(alloc, station, text)
}

/// A call is answered as a rule decided.
pub fn decided_plan(alloc: Global, station: &Text, id: &Text, decision: Decision) -> Mem<Plan>
    ensures { IfOk result (λ p. p ≡ decided_plan station.now id.now decision) }
{
    let text = reply_text(alloc, id, &decision.reply)?;
    let station = station.clone()?;
    Ok(Plan {
        said: one(alloc, Said::Send { station, text })?,
        effect: Effect::from(decision.edit),
    })
}

/// A call that is read with repairs is answered as a rule decided. That it is, and the fault, is told before.
#[cold]
#[inline(never)]
pub fn repaired_plan(
    alloc: Global,
    call: &CallAt<'_>,
    action: Action,
    fault: FieldFault,
    decision: Decision,
) -> Mem<Plan>
    ensures { IfOk result (λ p. p ≡ repaired_plan call.now.at.now.station.now call.now.id.now action fault decision) }
{
    let text = reply_text(alloc, call.id, &decision.reply)?;
    let told = Said::Repaired {
        station: call.at.station.clone()?,
        action,
        fault,
    };
    let mut said = one(alloc, told)?;
    said.push(Said::Send {
        station: call.at.station.clone()?,
        text,
    })?;
    Ok(Plan {
        said,
        effect: Effect::from(decision.edit),
    })
}

/// A request of the operator is taken, with its edit, or refused.
pub fn edit_plan(alloc: Global, answer: Result<Edit, Refusal>) -> Mem<Plan>
    ensures { IfOk result (λ p. p ≡ edit_plan answer) }
{
    match answer {
        Ok(edit) => {
            let said = one(alloc, Said::Accepted { number: None })?;
            Ok(Plan {
                said,
                effect: Effect::Edit(Boxed::new(alloc, edit)?),
            })
        }
        Err(refusal) => Plan::only(alloc, Said::Refused(refusal)),
    }
}

/// Rows of a station are forgotten, with ends up to these, which is told, or the request is refused.
pub fn forget_plan(
    alloc: Global,
    station: &Text,
    ends: Option<HistoryEnds>,
    answer: Result<History, Refusal>,
) -> Mem<Plan>
    ensures { IfOk result (λ p. p ≡ forget_plan station.now ends answer) }
{
    match answer {
        Ok(history) => forgotten_plan(alloc, station, &up_to_ends(history, ends)),
        Err(refusal) => Plan::only(alloc, Said::Refused(refusal)),
    }
}

/// What goes of a history: all, or up to ends.
fn up_to_ends(history: History, ends: Option<HistoryEnds>) -> History
    ensures { result ≡ up_to_ends ends history }
{
    match ends {
        Some(ends) => history.up_to(ends.reading, ends.transaction),
        None => history,
    }
}

/// These rows of a station are forgotten.
fn forgotten_plan(alloc: Global, station: &Text, gone: &History) -> Mem<Plan>
    ensures { IfOk result (λ p. p ≡ forgotten_plan station.now gone.now) }
{
    let row = Row::Forgotten {
        station: station.clone()?,
        transactions: gone.transactions.as_slice().len(),
        readings: gone.count_readings(),
    };
    let mut said = one(alloc, Said::Row(Boxed::new(alloc, row)?))?;
    said.push(Said::Accepted { number: None })?;
    Ok(Plan {
        said,
        effect: forgetting(alloc, station, gone)?,
    })
}

/// The effect that rows of a station go, if there are any.
fn forgetting(alloc: Global, station: &Text, gone: &History) -> Mem<Effect>
    ensures { IfOk result (λ e. e ≡ forgetting station.now gone.now) }
{
    if gone.is_empty() {
        return Ok(Effect::Nothing);
    }
    let edit = Edit::Transactions(TransactionEdit::Forgotten {
        station: station.clone()?,
        rows: gone.numbers(alloc)?,
    });
    Ok(Effect::Edit(Boxed::new(alloc, edit)?))
}

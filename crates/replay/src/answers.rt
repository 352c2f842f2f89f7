//! The answers to lines.
ghost use Rattle.std.specs.Prelude.{◌≡◌, ◌⊎◌, ◌+◌, ◌++◌, ◌<◌, ◌-◌, ◌^◌, List, ℕ, true, Err, OnOk, OnErr, IfOk};
ghost use Rattle.hub_rows.specs.Operators.{is_hosted};
ghost use Rattle.hub_rows.specs.Reads.{IsCounted};
ghost use Rattle.hub_rows.specs.Stops.{IsKept, Records, StaysOnRecord};
ghost use Rattle.hub_rows.specs.declared.store.Flush.TheVariants as when_flushed;
ghost use Rattle.hub.specs.Hub.{hub_view, world, setting, is_taken, is_clean};
ghost use Rattle.hub.specs.World.{world_outputs, world_step};
ghost use Rattle.lines.specs.declared.input_line.Line.TheVariants as line;
ghost use Rattle.lines.specs.InputLines.{spelled};
ghost use Rattle.replay.specs.Held.{IsLine};
ghost use Rattle.replay.specs.Run.{Begins, IsOfHosted, IsStep, answer, after, told_lines, bad_line};
ghost use Rattle.replay.specs.declared.fault.LineFault.TheVariants as line_fault;

use crate::fault::LineFault;
use hub::{Event, Hub, Out};
use hub_rows::{Flush, Store};
use lines::{Line, add_line, read_line};
use ocpp_types::{Mem, Text};
use station_calls::VendorHandler;
use std::alloc::{AllocError, Global};

/// The number of the next line, and the text that is still to be written.
#[derive(Drop)]
pub struct Answers {
    pub alloc: Global,
    pub number: u64,
    pub text: Vec<u8>,
}

#[tactic(auto, using(crate::proofs::Facts::begins))]
impl Answers {
    /// Answers the next line, of which none is held where it is too long. Its change is flushed at once, or waits.
    pub fn line<S: Store + Drop, V: VendorHandler>(
        &mut self,
        hub: &mut Hub<S, V>,
        held: Option<&[u8]>,
        when: Flush,
    ) -> Result<(), LineFault>
        requires { self.old.number < 2 ^ 64 - 1 }
        ensures number { OnOk result (self.new.number ≡ self.old.number + 1) }
        ensures setting { setting V.view hub.new ≡ setting V.view hub.old }
        ensures world { is_clean S.view hub.new → OnOk result ((line : List ℕ) → IsLine held.entry line
            → world S.view hub.new ≡ after (setting V.view hub.old) (world S.view hub.old) (spelled (setting V.view hub.old).is_hosted line)) }
        ensures text { is_clean S.view hub.new → OnOk result ((line : List ℕ) → IsLine held.entry line
            → self.new.text.items ≡ self.old.text.items ++ answer (setting V.view hub.old) (world S.view hub.old) self.old.number (spelled (setting V.view hub.old).is_hosted line)) }
        ensures fault_world { is_clean S.view hub.new → OnErr result ((line : List ℕ) → IsLine held.entry line
            → IsStep (setting V.view hub.old) (world S.view hub.old) (spelled (setting V.view hub.old).is_hosted line) (world S.view hub.new)) }
        ensures fault_text { is_clean S.view hub.new → OnErr result ((line : List ℕ) → IsLine held.entry line
            → Begins self.new.text.items (self.old.text.items ++ answer (setting V.view hub.old) (world S.view hub.old) self.old.number (spelled (setting V.view hub.old).is_hosted line))) }
        ensures counted { IsCounted (hub_view S.view) hub.old hub.new (result ≡ Err line_fault.Store) }
        ensures kept { when ≡ when_flushed.AtOnce → IsKept (hub_view S.view hub.old) → OnOk result (IsKept (hub_view S.view hub.new)) }
        ensures waits { when ≡ when_flushed.Later → OnOk result (StaysOnRecord (hub_view S.view hub.old) (hub_view S.view hub.new)) }
        ensures told { when ≡ when_flushed.AtOnce → OnErr result ((self.new.text.items ≡ self.old.text.items) ⊎ ((IsKept (hub_view S.view hub.old) → IsKept (hub_view S.view hub.new))
            × (is_clean S.view hub.new → (line : List ℕ) → IsLine held.entry line → world S.view hub.new ≡ after (setting V.view hub.old) (world S.view hub.old) (spelled (setting V.view hub.old).is_hosted line)))) }
        ensures records { (line : List ℕ) → IsLine held.entry line
            → Records when (after (setting V.view hub.old) (world S.view hub.old) (spelled (setting V.view hub.old).is_hosted line)).rows (hub_view S.view hub.old) (hub_view S.view hub.new) result }
    {
        let said = read_held(self.alloc, hub.hosted(), held)?;
        self.said(hub, &said, when)?;
        self.number += 1;
        Ok(())
    }

    /// Answers what a line says.
    fn said<S: Store + Drop, V: VendorHandler>(
        &mut self,
        hub: &mut Hub<S, V>,
        said: &Line,
        when: Flush,
    ) -> Result<(), LineFault>
        ensures number { self.new.number ≡ self.old.number }
        ensures setting { setting V.view hub.new ≡ setting V.view hub.old }
        ensures world { is_clean S.view hub.new → OnOk result (world S.view hub.new
            ≡ after (setting V.view hub.old) (world S.view hub.old) said.now) }
        ensures text { is_clean S.view hub.new → OnOk result (self.new.text.items
            ≡ self.old.text.items ++ answer (setting V.view hub.old) (world S.view hub.old) self.old.number said.now) }
        ensures fault_world { is_clean S.view hub.new → OnErr result (IsStep (setting V.view hub.old) (world S.view hub.old)
            said.now (world S.view hub.new)) }
        ensures fault_text { is_clean S.view hub.new → OnErr result (Begins self.new.text.items
            (self.old.text.items ++ answer (setting V.view hub.old) (world S.view hub.old) self.old.number said.now)) }
        ensures counted { IsCounted (hub_view S.view) hub.old hub.new (IsOfHosted (setting V.view hub.old).is_hosted said.now × (result ≡ Err line_fault.Store)) }
        ensures told { when ≡ when_flushed.AtOnce → OnErr result ((self.new.text.items ≡ self.old.text.items) ⊎ ((IsKept (hub_view S.view hub.old) → IsKept (hub_view S.view hub.new))
            × (is_clean S.view hub.new → world S.view hub.new ≡ after (setting V.view hub.old) (world S.view hub.old) said.now))) }
        ensures records { Records when (after (setting V.view hub.old) (world S.view hub.old) said.now).rows (hub_view S.view hub.old) (hub_view S.view hub.new) result }
    {
        match said {
            Line::Nothing => {}
            Line::Event(event) => self.event(hub, event, when)?,
            Line::Bad => push_bad(&mut self.text, self.alloc, self.number)?,
        }
        Ok(())
    }

    /// Answers an event.
    fn event<S: Store + Drop, V: VendorHandler>(
        &mut self,
        hub: &mut Hub<S, V>,
        event: &Event,
        when: Flush,
    ) -> Result<(), LineFault>
        ensures number { self.new.number ≡ self.old.number }
        ensures setting { setting V.view hub.new ≡ setting V.view hub.old }
        ensures world { is_clean S.view hub.new → OnOk result (world S.view hub.new
            ≡ world_step (setting V.view hub.old) (world S.view hub.old) event.now) }
        ensures text { is_clean S.view hub.new → OnOk result (self.new.text.items ≡ self.old.text.items
            ++ told_lines (world_outputs (setting V.view hub.old) (world S.view hub.old) event.now)) }
        ensures fault_world { is_clean S.view hub.new → OnErr result (IsStep (setting V.view hub.old) (world S.view hub.old)
            (line.Event event.now) (world S.view hub.new)) }
        ensures fault_text { is_clean S.view hub.new → OnErr result (Begins self.new.text.items (self.old.text.items
            ++ told_lines (world_outputs (setting V.view hub.old) (world S.view hub.old) event.now))) }
        ensures counted { IsCounted (hub_view S.view) hub.old hub.new ((is_taken (setting V.view hub.old) event.now ≡ true) × (result ≡ Err line_fault.Store)) }
        ensures told { when ≡ when_flushed.AtOnce → OnErr result ((self.new.text.items ≡ self.old.text.items) ⊎ ((IsKept (hub_view S.view hub.old) → IsKept (hub_view S.view hub.new))
            × (is_clean S.view hub.new → world S.view hub.new ≡ world_step (setting V.view hub.old) (world S.view hub.old) event.now))) }
        ensures records { Records when (world_step (setting V.view hub.old) (world S.view hub.old) event.now).rows (hub_view S.view hub.old) (hub_view S.view hub.new) result }
    {
        let outs = hub.handle_by(event, when)?;
        push_all(&mut self.text, self.alloc, outs.as_slice())?;
        Ok(())
    }
}

/// What a line says, where one that isn't held is too long.
#[tactic(auto, using(crate::proofs::Hosted::long_bad, crate::proofs::Hosted::spelled_of_hosted))]
fn read_held(alloc: Global, hosted: &[Text], held: Option<&[u8]>) -> Mem<Line>
    ensures hosted { IfOk result (λ said. IsOfHosted (is_hosted hosted.now) said) }
    ensures said { IfOk result (λ said. (line : List ℕ) → IsLine held.entry line → said ≡ spelled (is_hosted hosted.now) line) }
{
    match held {
        Some(line) => read_line(alloc, hosted, line),
        None => Ok(Line::Bad),
    }
}

/// Adds a bad line's answer.
fn push_bad(text: &mut Vec<u8>, alloc: Global, number: u64) -> Result<(), AllocError>
    ensures ok { OnOk result (text.new.items ≡ text.old.items ++ bad_line number) }
    ensures err { OnErr result (text.new.items ≡ text.old.items) }
{
    let line = format!(in alloc; "bad line {number}\n")?;
    text.extend_from_slice(line.as_bytes())?;
    Ok(())
}

/// Adds the lines of outputs.
#[tactic(auto, using(crate::proofs::Facts::front_of))]
fn push_all(text: &mut Vec<u8>, alloc: Global, outs: &[Out]) -> Mem<()>
    ensures ok { OnOk result (text.new.items ≡ text.old.items ++ told_lines outs.now) }
    ensures err { OnErr result (Begins text.new.items (text.old.items ++ told_lines outs.now)) }
{
    for out in outs {
        add_line(text, alloc, out)?;
    }
    Ok(())
}

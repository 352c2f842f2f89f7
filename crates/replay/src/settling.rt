//! Putting on record what waits, and writing the answers that wait with it.
ghost use Rattle.std.specs.Prelude.{◌≡◌, ◌⊎◌, ◌++◌, ◌≤◌, List, [], ℕ, Option, Err, OnOk, OnErr, vec_len};
ghost use Rattle.hub_rows.specs.Reads.{IsCounted};
ghost use Rattle.hub_rows.specs.Stops.{FindsOldOr, PutsOnRecord};
ghost use Rattle.hub_rows.specs.declared.store.Flush.TheVariants as when_flushed;
ghost use Rattle.hub.specs.Hub.{hub_view, world, setting, is_clean};
ghost use Rattle.replay.specs.Run.{Stands, Falls};
ghost use Rattle.replay.specs.Turns.{SettlesBeforeWriting};
ghost use Rattle.replay.specs.declared.fault.LineFault.TheVariants as line_fault;

use crate::answers::Answers;
use crate::fault::LineFault;
use crate::input_lines::Lines;
use crate::written::{is_long, write_out};
use hub::Hub;
use hub_rows::{Flush, Store};
use station_calls::VendorHandler;
use std::io::Write;

/// The most lines whose changes are put on record together.
const TURN_LINES: u64 = 1000;

/// Writes the answers where it is time. Changes that wait are put on record before, at the latest after 1,000 lines and before
/// the next part of the input is waited for.
pub fn settle_if_due<S: Store + Drop, V: VendorHandler, W: Write>(
    lines: &Lines,
    answers: &mut Answers,
    hub: &mut Hub<S, V>,
    writer: &mut W,
    when: Flush,
) -> Result<(), LineFault>
    requires within { lines.now.start ≤ vec_len lines.now.buffer }
    ensures number { answers.new.number ≡ answers.old.number }
    ensures setting { setting V.view hub.new ≡ setting V.view hub.old }
    ensures world { is_clean S.view hub.new → world S.view hub.new ≡ world S.view hub.old }
    ensures counted { IsCounted (hub_view S.view) hub.old hub.new (result ≡ Err line_fault.Store) }
    ensures same { when ≡ when_flushed.AtOnce → hub.new ≡ hub.old }
    ensures stopped { FindsOldOr (world S.view hub.old).rows (hub_view S.view hub.old) (hub_view S.view hub.new) }
    ensures stays { when ≡ when_flushed.Later → OnOk result (SettlesBeforeWriting (W.contents writer.new ≡ W.contents writer.old) (hub_view S.view hub.old) (hub_view S.view hub.new)) }
    ensures first { when ≡ when_flushed.Later → OnErr result ((W.contents writer.new ≡ W.contents writer.old) ⊎ PutsOnRecord (hub_view S.view hub.old) (hub_view S.view hub.new)) }
    ensures ok { OnOk result ((start : Option (List ℕ)) (ahead whole : List ℕ) →
        Stands start (W.contents writer.old) (answers.old.text.items ++ ahead) whole →
        Stands start (W.contents writer.new) (answers.new.text.items ++ ahead) whole) }
    ensures fault { OnErr result ((start : Option (List ℕ)) (ahead whole : List ℕ) →
        Stands start (W.contents writer.old) (answers.old.text.items ++ ahead) whole →
        Falls start (W.contents writer.new) answers.new.text.items whole) }
{
    if !is_due(lines, answers, when) {
        return Ok(());
    }
    settle(answers, hub, writer, when)
}

/// Whether it is time to write the answers.
fn is_due(lines: &Lines, answers: &Answers, when: Flush) -> bool
    requires within { lines.now.start ≤ vec_len lines.now.buffer }
{
    let ends_turn = when == Flush::Later
        && (answers.number % TURN_LINES == 0 || !lines.has_whole_line());
    ends_turn || is_long(answers.text.as_slice())
}

/// Puts the changes that wait on record, and then writes the answers.
pub fn settle<S: Store + Drop, V: VendorHandler, W: Write>(
    answers: &mut Answers,
    hub: &mut Hub<S, V>,
    writer: &mut W,
    when: Flush,
) -> Result<(), LineFault>
    ensures number { answers.new.number ≡ answers.old.number }
    ensures empty { OnOk result (answers.new.text.items ≡ []) }
    ensures setting { setting V.view hub.new ≡ setting V.view hub.old }
    ensures world { is_clean S.view hub.new → world S.view hub.new ≡ world S.view hub.old }
    ensures counted { IsCounted (hub_view S.view) hub.old hub.new (result ≡ Err line_fault.Store) }
    ensures same { when ≡ when_flushed.AtOnce → hub.new ≡ hub.old }
    ensures stopped { FindsOldOr (world S.view hub.old).rows (hub_view S.view hub.old) (hub_view S.view hub.new) }
    ensures kept { when ≡ when_flushed.Later → OnOk result (PutsOnRecord (hub_view S.view hub.old) (hub_view S.view hub.new)) }
    ensures first { when ≡ when_flushed.Later → OnErr result ((W.contents writer.new ≡ W.contents writer.old) ⊎ PutsOnRecord (hub_view S.view hub.old) (hub_view S.view hub.new)) }
    ensures ok { OnOk result ((start : Option (List ℕ)) (ahead whole : List ℕ) →
        Stands start (W.contents writer.old) (answers.old.text.items ++ ahead) whole →
        Stands start (W.contents writer.new) ahead whole) }
    ensures fault { OnErr result ((start : Option (List ℕ)) (ahead whole : List ℕ) →
        Stands start (W.contents writer.old) (answers.old.text.items ++ ahead) whole →
        Falls start (W.contents writer.new) answers.new.text.items whole) }
{
    put_on_record(hub, when)?;
    write_out(&mut answers.text, writer)
}

/// Puts the changes that wait on record, where changes wait.
fn put_on_record<S: Store + Drop, V: VendorHandler>(
    hub: &mut Hub<S, V>,
    when: Flush,
) -> Result<(), LineFault>
    ensures setting { setting V.view hub.new ≡ setting V.view hub.old }
    ensures world { is_clean S.view hub.new → world S.view hub.new ≡ world S.view hub.old }
    ensures counted { IsCounted (hub_view S.view) hub.old hub.new (result ≡ Err line_fault.Store) }
    ensures same { when ≡ when_flushed.AtOnce → hub.new ≡ hub.old }
    ensures stopped { FindsOldOr (world S.view hub.old).rows (hub_view S.view hub.old) (hub_view S.view hub.new) }
    ensures kept { when ≡ when_flushed.Later → OnOk result (PutsOnRecord (hub_view S.view hub.old) (hub_view S.view hub.new)) }
{
    match when {
        Flush::AtOnce => {}
        Flush::Later => hub.flush()?,
    }
    Ok(())
}

//! A replay: each line of an input is handed to the hub and answered.
ghost use Rattle.std.specs.Prelude.{◌≡◌, ◌≢◌, ◌+◌, ◌++◌, ◌<◌, ◌≤◌, ◌-◌, ◌^◌, List, [], ℕ, length, min, false, Option, Err, OnOk, OnErr, IfErr, IfSome, vec_len};
ghost use Rattle.std.specs.Io.KnownBytes.{Appends};
ghost use Rattle.hub_rows.specs.Reads.{IsCounted};
ghost use Rattle.hub_rows.specs.Rows.{Rows};
ghost use Rattle.hub_rows.specs.Stops.{IsKept};
ghost use Rattle.hub.specs.Hub.{hub_view, world, setting, is_clean};
ghost use Rattle.replay.specs.Held.{lines_of};
ghost use Rattle.replay.specs.Lines.{to_come, most_turns};
ghost use Rattle.replay.specs.Run.{Stands, Falls, AppendsFront, IsReached, AreReached, answers_to, world_after, output_of, world_of};
ghost use Rattle.replay.specs.Told.{AreTold, Tells, pending};
ghost use Rattle.replay.specs.declared.fault.ReplayFault.TheVariants as replay_fault;

use crate::answers::Answers;
use crate::fault::ReplayFault;
use crate::input_lines::Lines;
use crate::settling::{settle, settle_if_due};
use crate::written::write_last;
use hub::Hub;
use hub_rows::{Flush, Store};
use station_calls::VendorHandler;
use std::alloc::Global;
use std::io::{Read, Write};

/// The most bytes of an input; one that doesn't end before is TooLong.
pub const MAX_INPUT: u64 = 1_073_741_824;

/// Answers the lines that are to come.
fn pass<S: Store + Drop, V: VendorHandler, R: Read, W: Write>(
    lines: &mut Lines,
    answers: &mut Answers,
    hub: &mut Hub<S, V>,
    reader: &mut R,
    writer: &mut W,
    when: Flush,
) -> Result<(), ReplayFault>
    requires within { lines.old.start ≤ vec_len lines.old.buffer }
    requires unended { lines.old.ended ≡ false }
    requires room { answers.old.number + most_turns lines.old < 2 ^ 63 }
    ensures setting { setting V.view hub.new ≡ setting V.view hub.old }
    ensures world { is_clean S.view hub.new → OnOk result (IfSome (to_come lines.old (R.remaining reader.old)) (λ all.
        world S.view hub.new ≡ world_after (setting V.view hub.old) (world S.view hub.old) all)) }
    ensures text { is_clean S.view hub.new → OnOk result (IfSome (to_come lines.old (R.remaining reader.old)) (λ all. (start : Option (List ℕ)) (whole : List ℕ) →
        Stands start (W.contents writer.old) (answers.old.text.items ++ answers_to (setting V.view hub.old) (world S.view hub.old) answers.old.number all) whole →
        Stands start (W.contents writer.new) [] whole)) }
    ensures fault_world { is_clean S.view hub.new → OnErr result (IfSome (to_come lines.old (R.remaining reader.old)) (λ all.
        IsReached (setting V.view hub.old) (world S.view hub.old) all (world S.view hub.new))) }
    ensures fault_text { is_clean S.view hub.new → OnErr result (IfSome (to_come lines.old (R.remaining reader.old)) (λ all. (start : Option (List ℕ)) (whole : List ℕ) →
        Stands start (W.contents writer.old) (answers.old.text.items ++ answers_to (setting V.view hub.old) (world S.view hub.old) answers.old.number all) whole →
        Falls start (W.contents writer.new) answers.new.text.items whole)) }
    ensures short { OnOk result (IfSome (R.remaining reader.old) (λ input. length input < lines.old.left)) }
    ensures long { IfErr result (λ e. e ≡ replay_fault.TooLong → IfSome (R.remaining reader.old) (λ input. lines.old.left ≤ length input)) }
    ensures operators { IfErr result (λ e. e ≢ replay_fault.BadOperators) }
    ensures counted { IsCounted (hub_view S.view) hub.old hub.new (result ≡ Err replay_fault.Store) }
    ensures stopped { IsKept (hub_view S.view hub.old) → (r : Rows) → (hub_view S.view hub.new).may_find r → IfSome (to_come lines.old (R.remaining reader.old)) (λ all.
        AreReached (setting V.view hub.old) (world S.view hub.old) all r) }
    ensures kept { IsKept (hub_view S.view hub.old) → OnOk result (IsKept (hub_view S.view hub.new)) }
    ensures recorded { IsKept (hub_view S.view hub.old) → (r : Rows) → (hub_view S.view hub.new).may_find r → IfSome (to_come lines.old (R.remaining reader.old)) (λ all.
        Tells (setting V.view hub.old) (world S.view hub.old) answers.old.number (W.contents writer.old) (W.contents writer.new) answers.old.text.items (pending when answers.new.text.items) all r) }
{
    while lines.next(reader)? {
        answers.line(hub, lines.held(), when)?;
        settle_if_due(lines, answers, hub, writer, when)?;
    }
    settle(answers, hub, writer, when)?;
    match writer.flush() {
        Ok(()) => Ok(()),
        Err(_) => Err(ReplayFault::Write),
    }
}

/// Hands each line of the reader to the hub and writes what it is answered. Lines are counted
/// from 1; a bad one is answered `bad line K` and the replay goes on.
///
/// Where it is Ok, what was written is what the written table machine gives for the input, and the
/// hub is left as the machine leaves it. After a fault what was written is a prefix of that, and
/// the hub is left as after a number of whole lines. A line whose event ended in a fault has
/// changed nothing. An event whose output found no memory, or was not written, has happened.
///
/// A change is flushed at once, or later together with others: then answers are written after the flush that puts the changes
/// of their lines on record. A change waits for at most 1,000 lines, and for no read. After a fault no flush follows, and the
/// answers that wait are dropped.
///
/// Where the work stops during the call and the store of a kept hub is opened again, its records are those after a
/// number of whole lines (`stopped`); once the call is Ok, those of the hub (`kept`). Of no line more was an answer written
/// (`recorded`): what is written is on record.
///
/// An input of `most` bytes or more is the fault TooLong, and so is one of 1,073,741,824.
pub fn replay_within<S: Store + Drop, V: VendorHandler, R: Read, W: Write>(
    alloc: Global,
    hub: &mut Hub<S, V>,
    reader: &mut R,
    writer: &mut W,
    when: Flush,
    most: u64,
) -> Result<(), ReplayFault>
    ensures setting { setting V.view hub.new ≡ setting V.view hub.old }
    ensures ok { is_clean S.view hub.new → OnOk result (IfSome (R.remaining reader.old) (λ input.
        Appends (W.contents writer.old) (W.contents writer.new) (output_of (setting V.view hub.old) (world S.view hub.old) input))) }
    ensures world { is_clean S.view hub.new → OnOk result (IfSome (R.remaining reader.old) (λ input.
        world S.view hub.new ≡ world_of (setting V.view hub.old) (world S.view hub.old) input)) }
    ensures fault { is_clean S.view hub.new → OnErr result (IfSome (R.remaining reader.old) (λ input.
        AppendsFront (W.contents writer.old) (W.contents writer.new) (output_of (setting V.view hub.old) (world S.view hub.old) input))) }
    ensures fault_world { is_clean S.view hub.new → OnErr result (IfSome (R.remaining reader.old) (λ input.
        IsReached (setting V.view hub.old) (world S.view hub.old) (lines_of input) (world S.view hub.new))) }
    ensures short { OnOk result (IfSome (R.remaining reader.old) (λ input. length input < min most 1073741824)) }
    ensures long { IfErr result (λ e. e ≡ replay_fault.TooLong → IfSome (R.remaining reader.old) (λ input. min most 1073741824 ≤ length input)) }
    ensures operators { IfErr result (λ e. e ≢ replay_fault.BadOperators) }
    ensures counted { IsCounted (hub_view S.view) hub.old hub.new (result ≡ Err replay_fault.Store) }
    ensures stopped { IsKept (hub_view S.view hub.old) → (r : Rows) → (hub_view S.view hub.new).may_find r → IfSome (R.remaining reader.old) (λ input.
        AreReached (setting V.view hub.old) (world S.view hub.old) (lines_of input) r) }
    ensures kept { IsKept (hub_view S.view hub.old) → OnOk result (IsKept (hub_view S.view hub.new)) }
    ensures recorded { IsKept (hub_view S.view hub.old) → (r : Rows) → (hub_view S.view hub.new).may_find r → IfSome (R.remaining reader.old) (λ input.
        AreTold (setting V.view hub.old) (world S.view hub.old) (lines_of input) r (W.contents writer.old) (W.contents writer.new)) }
{
    let mut lines = Lines::new(alloc, bound(most));
    let mut answers = Answers {
        alloc,
        number: 1,
        text: Vec::new(alloc),
    };
    match pass(&mut lines, &mut answers, hub, reader, writer, when) {
        Ok(()) => Ok(()),
        Err(fault) => {
            write_last(&mut answers.text, writer, when);
            Err(fault)
        }
    }
}

/// The lesser of a bound and that of all inputs.
fn bound(most: u64) -> u64
    ensures { result ≡ min most 1073741824 }
{
    if most < MAX_INPUT { most } else { MAX_INPUT }
}

/// `replay_within` 1,073,741,824 bytes.
pub fn replay<S: Store + Drop, V: VendorHandler, R: Read, W: Write>(
    alloc: Global,
    hub: &mut Hub<S, V>,
    reader: &mut R,
    writer: &mut W,
    when: Flush,
) -> Result<(), ReplayFault>
    ensures setting { setting V.view hub.new ≡ setting V.view hub.old }
    ensures ok { is_clean S.view hub.new → OnOk result (IfSome (R.remaining reader.old) (λ input.
        Appends (W.contents writer.old) (W.contents writer.new) (output_of (setting V.view hub.old) (world S.view hub.old) input))) }
    ensures world { is_clean S.view hub.new → OnOk result (IfSome (R.remaining reader.old) (λ input.
        world S.view hub.new ≡ world_of (setting V.view hub.old) (world S.view hub.old) input)) }
    ensures fault { is_clean S.view hub.new → OnErr result (IfSome (R.remaining reader.old) (λ input.
        AppendsFront (W.contents writer.old) (W.contents writer.new) (output_of (setting V.view hub.old) (world S.view hub.old) input))) }
    ensures fault_world { is_clean S.view hub.new → OnErr result (IfSome (R.remaining reader.old) (λ input.
        IsReached (setting V.view hub.old) (world S.view hub.old) (lines_of input) (world S.view hub.new))) }
    ensures short { OnOk result (IfSome (R.remaining reader.old) (λ input. length input < 1073741824)) }
    ensures long { IfErr result (λ e. e ≡ replay_fault.TooLong → IfSome (R.remaining reader.old) (λ input. 1073741824 ≤ length input)) }
    ensures operators { IfErr result (λ e. e ≢ replay_fault.BadOperators) }
    ensures counted { IsCounted (hub_view S.view) hub.old hub.new (result ≡ Err replay_fault.Store) }
    ensures stopped { IsKept (hub_view S.view hub.old) → (r : Rows) → (hub_view S.view hub.new).may_find r → IfSome (R.remaining reader.old) (λ input.
        AreReached (setting V.view hub.old) (world S.view hub.old) (lines_of input) r) }
    ensures kept { IsKept (hub_view S.view hub.old) → OnOk result (IsKept (hub_view S.view hub.new)) }
    ensures recorded { IsKept (hub_view S.view hub.old) → (r : Rows) → (hub_view S.view hub.new).may_find r → IfSome (R.remaining reader.old) (λ input.
        AreTold (setting V.view hub.old) (world S.view hub.old) (lines_of input) r (W.contents writer.old) (W.contents writer.new)) }
{
    replay_within(alloc, hub, reader, writer, when, MAX_INPUT)
}

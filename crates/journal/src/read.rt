//! Reading the lines of a journal (docs/RULES.md, The journal).
ghost use Rattle.std.specs.Prelude.{◌≡◌, IfOk};
ghost use Rattle.hub_rows.specs.Operators.{is_hosted};
ghost use Rattle.journal.specs.Entries.{begins_form, continues_form, turn_form, taken_form, mark_in, entry_in, entry_of, count_of};

use crate::entry::Entry;
use lines::{first_word, read_event};
use ocpp_types::{Mem, Text, number_of_digits};
use std::alloc::Global;

/// The most digits of a count.
const MAX_DIGITS: usize = 19;

/// What a line of a journal says, by its bytes without the line feed. An event of an operator that isn't in `hosted` makes
/// it Bad.
#[tactic(auto, using(lines::proofs::Utf8Lines::valid_text), unfolding(crate::specs::Entries::entry_of))]
pub fn read_entry(alloc: Global, hosted: &[Text], line: &[u8]) -> Mem<Entry>
    ensures { IfOk result (λ e. e ≡ entry_of (is_hosted hosted.now) line.now) }
{
    let Ok(text) = str::from_utf8(line) else {
        return Ok(Entry::Bad);
    };
    entry_in(alloc, hosted, text)
}

fn entry_in(alloc: Global, hosted: &[Text], text: &str) -> Mem<Entry>
    ensures { IfOk result (λ e. e ≡ entry_in (is_hosted hosted.now) text.now) }
{
    if let Some(event) = read_event(alloc, hosted, text)? {
        return Ok(Entry::Event(event));
    }
    match mark_in(alloc, text)? {
        Some(mark) => Ok(mark),
        None => Ok(Entry::Bad),
    }
}

fn mark_in(alloc: Global, text: &str) -> Mem<Option<Entry>>
    ensures { IfOk result (λ e. e ≡ mark_in text.now) }
{
    let Some((word, rest)) = first_word(text) else {
        return Ok(None);
    };
    match word {
        "begins" => begins(alloc, rest),
        "continues" => continues(alloc, rest),
        "turn" => turn(alloc, rest),
        "taken" => Ok(taken(rest)),
        _ => Ok(None),
    }
}

fn begins(alloc: Global, rest: &str) -> Mem<Option<Entry>>
    ensures { IfOk result (λ e. e ≡ begins_form rest.now) }
{
    let Some((changes, operators)) = first_word(rest) else {
        return Ok(None);
    };
    let Some(changes) = count_of(changes) else {
        return Ok(None);
    };
    let operators = Text::copy_of(alloc, operators)?;
    Ok(Some(Entry::Begins { changes, operators }))
}

fn continues(alloc: Global, rest: &str) -> Mem<Option<Entry>>
    ensures { IfOk result (λ e. e ≡ continues_form rest.now) }
{
    let Some((file, rest)) = first_word(rest) else {
        return Ok(None);
    };
    let Some((changes, operators)) = first_word(rest) else {
        return Ok(None);
    };
    let (Some(file), Some(changes)) = (count_of(file), count_of(changes)) else {
        return Ok(None);
    };
    let operators = Text::copy_of(alloc, operators)?;
    Ok(Some(Entry::Continues {
        file,
        changes,
        operators,
    }))
}

fn turn(alloc: Global, rest: &str) -> Mem<Option<Entry>>
    ensures { IfOk result (λ e. e ≡ turn_form rest.now) }
{
    let Some((events, rest)) = first_word(rest) else {
        return Ok(None);
    };
    let Some((before, rest)) = first_word(rest) else {
        return Ok(None);
    };
    let Some((after, digest)) = first_word(rest) else {
        return Ok(None);
    };
    let (Some(events), Some(before), Some(after)) = (
        count_of(events),
        count_of(before),
        count_of(after),
    ) else {
        return Ok(None);
    };
    let digest = Text::copy_of(alloc, digest)?;
    Ok(Some(Entry::Turn {
        events,
        before,
        after,
        digest,
    }))
}

fn taken(rest: &str) -> Option<Entry>
    ensures { result ≡ taken_form rest.now }
{
    let (taken, rest) = first_word(rest)?;
    let (events, changes) = first_word(rest)?;
    let taken = count_of(taken)?;
    let events = count_of(events)?;
    let changes = count_of(changes)?;
    Some(Entry::Taken {
        taken,
        events,
        changes,
    })
}

fn count_of(text: &str) -> Option<u64>
    ensures { result ≡ count_of text.now }
{
    number_of_digits(text, MAX_DIGITS)
}

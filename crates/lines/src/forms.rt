//! The forms of the lines of an operator (docs/RULES.md, Lines).
ghost use Rattle.std.specs.Prelude.{◌≡◌, IfOk, option_map};
ghost use Rattle.lines.specs.Words.{only_word, parent_of};
ghost use Rattle.lines.specs.Forms.{what_of, connect_form, disconnect_form, frame_form, quoted_form, call_form, station_form, station_add_form, station_policy_form, station_reader_form, station_drop_form, policy_words, tag_form, tag_put_form, tag_drop_form, transaction_form, transaction_close_form, forget_form, ended_forget_form, history_ends, grant_form, revoke_form, mark_of};

use crate::json_texts::{command_in, string_in};
use crate::list_forms::list;
use crate::words::{
    end_number, expiry_of, first_word, is_expiry, meter_of, moment_at, name_of, number_of,
    only_word, transaction_number,
};
use hub_events::{Admin, HistoryEnds, What};
use hub_rows::{Reader, Tag};
use id_tags::Grant;
use ocpp_types::{Boxed, Mem, Named, Policy, Text};
use std::alloc::Global;

/// What happens at an operator by the text after `MOMENT OP`, `None` where it has none of the
/// forms.
#[tactic(auto, unfolding(crate::specs::Forms::what_of))]
pub fn read_what(alloc: Global, text: &str) -> Mem<Option<What>>
    ensures { IfOk result (λ w. w ≡ what_of text.now) }
{
    let Some((word, rest)) = first_word(text) else {
        return Ok(None);
    };
    match word {
        "connect" => connect(alloc, rest),
        "disconnect" => disconnect(alloc, rest),
        "frame" => frame(alloc, rest),
        "quoted" => quoted(alloc, rest),
        "call" => call(alloc, rest),
        "station" => station(alloc, rest),
        "tag" => tag(alloc, rest),
        "transaction" => transaction(alloc, rest),
        "forget" => forget(alloc, rest),
        "grant" => grant(alloc, rest),
        "revoke" => revoke(alloc, rest),
        "list" => list(alloc, rest),
        _ => Ok(None),
    }
}

fn connect(alloc: Global, rest: &str) -> Mem<Option<What>>
    ensures { IfOk result (λ w. w ≡ connect_form rest.now) }
{
    let Some(station) = name_of(alloc, rest)? else {
        return Ok(None);
    };
    Ok(Some(What::Connect { station }))
}

fn disconnect(alloc: Global, rest: &str) -> Mem<Option<What>>
    ensures { IfOk result (λ w. w ≡ disconnect_form rest.now) }
{
    let Some(station) = name_of(alloc, rest)? else {
        return Ok(None);
    };
    Ok(Some(What::Disconnect { station }))
}

fn frame(alloc: Global, rest: &str) -> Mem<Option<What>>
    ensures { IfOk result (λ w. w ≡ frame_form rest.now) }
{
    let Some((station, text)) = first_word(rest) else {
        return Ok(None);
    };
    Ok(Some(What::Frame {
        station: Text::copy_of(alloc, station)?,
        text: Text::copy_of(alloc, text)?,
    }))
}

/// A frame whose text is quoted.
fn quoted(alloc: Global, rest: &str) -> Mem<Option<What>>
    ensures { IfOk result (λ w. w ≡ quoted_form rest.now) }
{
    let Some((station, json)) = first_word(rest) else {
        return Ok(None);
    };
    let Some(text) = string_in(alloc, json)? else {
        return Ok(None);
    };
    let station = Text::copy_of(alloc, station)?;
    Ok(Some(What::Frame { station, text }))
}

fn call(alloc: Global, rest: &str) -> Mem<Option<What>>
    ensures { IfOk result (λ w. w ≡ call_form rest.now) }
{
    let Some((station, rest)) = first_word(rest) else {
        return Ok(None);
    };
    let Some((action, json)) = first_word(rest) else {
        return Ok(None);
    };
    let Some(command) = command_in(alloc, action, json)? else {
        return Ok(None);
    };
    let station = Text::copy_of(alloc, station)?;
    let command = Boxed::new(alloc, command)?;
    Ok(Some(What::Do { station, command }))
}

fn station(alloc: Global, rest: &str) -> Mem<Option<What>>
    ensures { IfOk result (λ w. w ≡ station_form rest.now) }
{
    let Some((word, rest)) = first_word(rest) else {
        return Ok(None);
    };
    match word {
        "add" => station_add(alloc, rest),
        "policy" => station_policy(alloc, rest),
        "reader" => station_reader(alloc, rest),
        "drop" => station_drop(alloc, rest),
        _ => Ok(None),
    }
}

fn station_add(alloc: Global, rest: &str) -> Mem<Option<What>>
    ensures { IfOk result (λ w. w ≡ station_add_form rest.now) }
{
    let Some((station, policy, interval)) = policy_words(rest) else {
        return Ok(None);
    };
    Ok(Some(What::Admin(Admin::StationAdd {
        station: Text::copy_of(alloc, station)?,
        policy,
        interval,
    })))
}

fn station_policy(alloc: Global, rest: &str) -> Mem<Option<What>>
    ensures { IfOk result (λ w. w ≡ station_policy_form rest.now) }
{
    let Some((station, policy, interval)) = policy_words(rest) else {
        return Ok(None);
    };
    Ok(Some(What::Admin(Admin::StationPolicy {
        station: Text::copy_of(alloc, station)?,
        policy,
        interval,
    })))
}

fn station_reader(alloc: Global, rest: &str) -> Mem<Option<What>>
    ensures { IfOk result (λ w. w ≡ station_reader_form rest.now) }
{
    let Some((station, rest)) = first_word(rest) else {
        return Ok(None);
    };
    let Some(reader) = Reader::of(rest) else {
        return Ok(None);
    };
    let station = Text::copy_of(alloc, station)?;
    Ok(Some(What::Admin(Admin::StationReader { station, reader })))
}

fn station_drop(alloc: Global, rest: &str) -> Mem<Option<What>>
    ensures { IfOk result (λ w. w ≡ station_drop_form rest.now) }
{
    let Some(station) = name_of(alloc, rest)? else {
        return Ok(None);
    };
    Ok(Some(What::DropStation { station }))
}

/// `ST POLICY INTERVAL`
fn policy_words(rest: &str) -> Option<(&str, Policy, u64)>
    ensures { option_map (λ p. (p.0.now, (p.1, p.2))) result ≡ policy_words rest.now }
{
    let (station, rest) = first_word(rest)?;
    let (policy, rest) = first_word(rest)?;
    let policy = Policy::of(policy)?;
    let interval = number_of(rest)?;
    Some((station, policy, interval))
}

fn tag(alloc: Global, rest: &str) -> Mem<Option<What>>
    ensures { IfOk result (λ w. w ≡ tag_form rest.now) }
{
    let Some((word, rest)) = first_word(rest) else {
        return Ok(None);
    };
    match word {
        "put" => tag_put(alloc, rest),
        "drop" => tag_drop(alloc, rest),
        _ => Ok(None),
    }
}

fn tag_put(alloc: Global, rest: &str) -> Mem<Option<What>>
    ensures { IfOk result (λ w. w ≡ tag_put_form rest.now) }
{
    let Some((tag, rest)) = first_word(rest) else {
        return Ok(None);
    };
    let Some((parent, rest)) = first_word(rest) else {
        return Ok(None);
    };
    let Some((mark, rest)) = first_word(rest) else {
        return Ok(None);
    };
    let Some(blocked) = mark_of(mark) else {
        return Ok(None);
    };
    if !is_expiry(rest) {
        return Ok(None);
    }
    let tag = Tag {
        text: Text::copy_of(alloc, tag)?,
        parent: parent_of(alloc, parent)?,
        blocked,
        expiry: expiry_of(rest),
    };
    let tag = Boxed::new(alloc, tag)?;
    Ok(Some(What::Admin(Admin::TagPut { tag })))
}

/// A parent, or none for `-`.
fn parent_of(alloc: Global, word: &str) -> Mem<Option<Text>>
    ensures { IfOk result (λ p. p ≡ parent_of word.now) }
{
    if word == "-" {
        return Ok(None);
    }
    Ok(Some(Text::copy_of(alloc, word)?))
}

fn tag_drop(alloc: Global, rest: &str) -> Mem<Option<What>>
    ensures { IfOk result (λ w. w ≡ tag_drop_form rest.now) }
{
    let Some(tag) = name_of(alloc, rest)? else {
        return Ok(None);
    };
    Ok(Some(What::Admin(Admin::TagDrop { tag })))
}

fn transaction(alloc: Global, rest: &str) -> Mem<Option<What>>
    ensures { IfOk result (λ w. w ≡ transaction_form rest.now) }
{
    let Some((word, rest)) = first_word(rest) else {
        return Ok(None);
    };
    match word {
        "close" => transaction_close(alloc, rest),
        _ => Ok(None),
    }
}

fn transaction_close(alloc: Global, rest: &str) -> Mem<Option<What>>
    ensures { IfOk result (λ w. w ≡ transaction_close_form rest.now) }
{
    let Some((station, rest)) = first_word(rest) else {
        return Ok(None);
    };
    let Some((number, meter)) = first_word(rest) else {
        return Ok(None);
    };
    let Some(number) = transaction_number(number) else {
        return Ok(None);
    };
    let Some(meter_stop) = meter_of(meter) else {
        return Ok(None);
    };
    Ok(Some(What::Admin(Admin::TransactionClose {
        station: Text::copy_of(alloc, station)?,
        number,
        meter_stop,
    })))
}

fn forget(alloc: Global, rest: &str) -> Mem<Option<What>>
    ensures { IfOk result (λ w. w ≡ forget_form rest.now) }
{
    let Some((station, rest)) = first_word(rest) else {
        return Ok(None);
    };
    let Some(until) = moment_at(rest) else {
        return ended_forget(alloc, station, rest);
    };
    Ok(Some(What::Forget {
        station: Text::copy_of(alloc, station)?,
        until,
        ends: None,
    }))
}

/// `UNTIL READING TRANSACTION`
fn ended_forget(alloc: Global, station: &str, rest: &str) -> Mem<Option<What>>
    ensures { IfOk result (λ w. w ≡ ended_forget_form station.now rest.now) }
{
    let Some((until, rest)) = first_word(rest) else {
        return Ok(None);
    };
    let Some(until) = moment_at(until) else {
        return Ok(None);
    };
    let Some(ends) = history_ends(rest) else {
        return Ok(None);
    };
    Ok(Some(What::Forget {
        station: Text::copy_of(alloc, station)?,
        until,
        ends: Some(ends),
    }))
}

/// `READING TRANSACTION`
fn history_ends(rest: &str) -> Option<HistoryEnds>
    ensures { result ≡ history_ends rest.now }
{
    let (reading, transaction) = first_word(rest)?;
    Some(HistoryEnds {
        reading: end_number(reading)?,
        transaction: end_number(transaction)?,
    })
}

fn grant(alloc: Global, rest: &str) -> Mem<Option<What>>
    ensures { IfOk result (λ w. w ≡ grant_form rest.now) }
{
    let Some((tag, rest)) = first_word(rest) else {
        return Ok(None);
    };
    let Some((to, until)) = first_word(rest) else {
        return Ok(None);
    };
    if !is_expiry(until) {
        return Ok(None);
    }
    let grant = Grant {
        tag: Text::copy_of(alloc, tag)?,
        to: Text::copy_of(alloc, to)?,
        until: expiry_of(until),
    };
    Ok(Some(What::Admin(Admin::Grant(grant))))
}

fn revoke(alloc: Global, rest: &str) -> Mem<Option<What>>
    ensures { IfOk result (λ w. w ≡ revoke_form rest.now) }
{
    let Some((tag, rest)) = first_word(rest) else {
        return Ok(None);
    };
    let Some(to) = name_of(alloc, rest)? else {
        return Ok(None);
    };
    let tag = Text::copy_of(alloc, tag)?;
    Ok(Some(What::Admin(Admin::Revoke { tag, to })))
}

/// Whether a tag is blocked, `0` or `1`.
fn mark_of(word: &str) -> Option<bool>
    ensures { result ≡ mark_of word.now }
{
    match word {
        "0" => Some(false),
        "1" => Some(true),
        _ => None,
    }
}

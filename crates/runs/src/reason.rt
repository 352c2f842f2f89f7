//! Why a line of a replay is bad (docs/TABLES.md, Lines).

use clients::replay_hint_of;
use hub_rows::is_hosted;
use ocpp_types::{Mem, Text};
use std::alloc::Global;
use std::str;

/// The most bytes of a line.
const MAX_LINE: usize = 1_048_576;

/// Of a line so many characters are looked into.
const MOST_SHOWN: usize = 1_000;

/// Why a line is bad where those operators are hosted.
pub fn reason_of(alloc: Global, line: &[u8], operators: &[Text]) -> Mem<String> {
    if line.len() > MAX_LINE {
        return Ok(String::from_str(alloc, "it has more than 1,048,576 bytes")?);
    }
    match str::from_utf8(line) {
        Ok(text) => {
            let line = shown(alloc, text.strip_suffix('\r').unwrap_or(text))?;
            reason(alloc, line.as_str(), operators)
        }
        Err(_) => Ok(String::from_str(alloc, "it isn't UTF-8")?),
    }
}

/// The first characters of a line, with `?` in place of control characters, which a terminal would obey.
fn shown(alloc: Global, text: &str) -> Mem<String> {
    let mut shown = String::new(alloc);
    for character in text.chars().take(MOST_SHOWN) {
        shown.push(if character.is_control() {
            '?'
        } else {
            character
        })?;
    }
    Ok(shown)
}

fn reason(alloc: Global, line: &str, operators: &[Text]) -> Mem<String> {
    let (moment, rest) = parts_of(line);
    if moment.is_empty() || !moment.bytes().all(|byte| byte.is_ascii_digit()) {
        return Ok(format!(in alloc;
            "'{moment}' is no MOMENT, which is a number of seconds since 1970; expected: MOMENT OP .."
        )?);
    }
    let (operator, order) = parts_of(rest);
    if operator == "*" {
        return Ok(String::from_str(alloc, "after * the line has tick alone")?);
    }
    if !is_hosted(operators, operator) {
        return not_hosted(alloc, operator);
    }
    replay_hint_of(alloc, order)
}

fn not_hosted(alloc: Global, operator: &str) -> Mem<String> {
    Ok(format!(in alloc; "'{operator}' is no operator of --operators")?)
}

/// The first word of a text, and what follows it.
fn parts_of(text: &str) -> (&str, &str) {
    match text.split_once(' ') {
        Some((word, rest)) => (word, rest),
        None => (text, ""),
    }
}

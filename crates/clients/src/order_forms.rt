//! The forms of an operator's lines, and why a line has none of them (docs/TABLES.md, Lines). A word of a form in small
//! letters stands for itself, any other for a value.

use ocpp_types::Mem;
use std::alloc::Global;

/// The forms, a line each.
pub const FORMS: &str = "\
station add ST POLICY INTERVAL
station policy ST POLICY INTERVAL
station reader ST strict|tolerant
station drop ST
tag put TAG PARENT 0|1 EXPIRY
tag drop TAG
grant TAG OPERATOR UNTIL
revoke TAG OPERATOR
call ST ACTION JSON
transaction close ST N METERSTOP
forget ST BEFORE
forget ST BEFORE READING TRANSACTION
list stations
list connections
list tags
list grants
list granted
list uses
list open
list readers
list connectors ST
list transactions ST
list transactions ST N
list readings ST
list readings ST N
list reservations ST
list locallist ST
list reports ST
list forgettable ST BEFORE";

/// The forms that a script of a replay has beside them, for what stations do.
const STATION_FORMS: &str = "\
connect ST
disconnect ST
frame ST TEXT
quoted ST STRING";

/// What lists all forms.
const ALL: &str = "`central ask help` lists the lines";

/// The actions of a call.
const ACTIONS: [&str; 14] = [
    "CancelReservation",
    "ChangeAvailability",
    "ChangeConfiguration",
    "ClearCache",
    "DataTransfer",
    "GetConfiguration",
    "GetLocalListVersion",
    "RemoteStartTransaction",
    "RemoteStopTransaction",
    "ReserveNow",
    "Reset",
    "SendLocalList",
    "TriggerMessage",
    "UnlockConnector",
];

/// A line against a form.
#[derive(Clone, Copy, Drop)]
struct Fit<'a> {
    form: &'a str,
    /// How many words of the form stand for themselves and are in the line.
    plain: usize,
    /// How many words of the form are in the line.
    words: usize,
    /// The next word of the form, and what stands there in the line; none where the line has the whole form.
    missed: Option<(&'a str, &'a str)>,
    /// It has that, and nothing follows.
    ends: bool,
}

/// Why a line has no form: the word that isn't understood, and the form that was expected.
pub fn hint_of(alloc: Global, line: &str) -> Mem<String> {
    told(alloc, nearest(FORMS, line, None), line)
}

/// The same of a line of a replay, by what follows `MOMENT OP`.
pub fn replay_hint_of(alloc: Global, line: &str) -> Mem<String> {
    let best = nearest(FORMS, line, None);
    told(alloc, nearest(STATION_FORMS, line, best), line)
}

/// The form that is nearest to a line, of these and the one that was nearest before.
fn nearest<'a>(forms: &'a str, line: &'a str, before: Option<Fit<'a>>) -> Option<Fit<'a>> {
    let mut best = before;
    for form in forms.split('\n') {
        let fit = fit_of(form, line);
        if best.is_none_or(|other| is_nearer(&fit, &other)) {
            best = Some(fit);
        }
    }
    best
}

/// What is told of the form that is nearest to a line.
fn told(alloc: Global, best: Option<Fit<'_>>, line: &str) -> Mem<String> {
    match best {
        Some(fit) if fit.plain > 0 => hint(alloc, &fit, line),
        _ => {
            let word = first_of(line);
            Ok(format!(in alloc; "'{word}' begins no line; {ALL}")?)
        }
    }
}

impl Fit<'_> {
    /// Which of two forms is nearer that have as many words in the line: the one that it has whole, then the one that has a
    /// word more.
    fn rank(&self) -> u8 {
        match self.missed {
            None if self.ends => 2,
            Some(_) => 1,
            None => 0,
        }
    }
}

/// Whether a form is nearer to a line than another.
fn is_nearer(fit: &Fit<'_>, other: &Fit<'_>) -> bool {
    if fit.plain != other.plain {
        return fit.plain > other.plain;
    }
    if fit.words != other.words {
        return fit.words > other.words;
    }
    fit.rank() > other.rank()
}

/// What is told of the form that is nearest.
fn hint(alloc: Global, fit: &Fit<'_>, line: &str) -> Mem<String> {
    let form = fit.form;
    Ok(match fit.missed {
        Some((wanted, "")) if is_plain(wanted) => {
            format!(in alloc; "a word is missing after '{line}'; {ALL}")?
        }
        Some((wanted, word)) if is_plain(wanted) => {
            let front = before(line, word);
            format!(in alloc; "'{word}' doesn't follow '{front}'; {ALL}")?
        }
        Some((wanted, "")) => format!(in alloc; "{wanted} is missing; expected: {form}")?,
        Some((wanted, word)) => {
            let what = meaning(wanted);
            format!(in alloc; "'{word}' is no {wanted}, which is {what}; expected: {form}")?
        }
        None if fit.ends => format!(in alloc; "{}; expected: {form}", of_values(form))?,
        None => format!(in alloc; "the line goes on after its end; expected: {form}")?,
    })
}

/// What is told of a line whose words have the form.
fn of_values(form: &str) -> &'static str {
    if form.ends_with("JSON") {
        "the JSON is none, or lacks a member of that command or has one of another type (docs/TABLES.md, Commands)"
    } else {
        "a value is out of its bounds (docs/TABLES.md, Lines)"
    }
}

/// A line against a form, word by word.
fn fit_of<'a>(form: &'a str, line: &'a str) -> Fit<'a> {
    let mut fit = Fit {
        form,
        plain: 0,
        words: 0,
        missed: None,
        ends: false,
    };
    let mut rest = Some(line);
    for wanted in form.split(' ') {
        let (word, after) = next_of(wanted, rest);
        if !is_value(wanted, word) {
            fit.missed = Some((wanted, word));
            return fit;
        }
        fit.plain = fit.plain.saturating_add(usize::from(is_plain(wanted)));
        fit.words = fit.words.saturating_add(1);
        rest = after;
    }
    fit.ends = rest.is_none();
    fit
}

/// The next word of what is left of a line, and what follows it. JSON and TEXT are all that is left.
fn next_of<'a>(wanted: &str, rest: Option<&'a str>) -> (&'a str, Option<&'a str>) {
    let Some(rest) = rest else {
        return ("", None);
    };
    if matches!(wanted, "JSON" | "TEXT") {
        return (rest, None);
    }
    match rest.split_once(' ') {
        Some((word, after)) => (word, Some(after)),
        None => (rest, None),
    }
}

/// Whether a word of a form stands for itself.
fn is_plain(wanted: &str) -> bool {
    wanted.bytes().all(|byte| byte.is_ascii_lowercase())
}

/// Whether a word may stand where a form has that one.
fn is_value(wanted: &str, word: &str) -> bool {
    match wanted {
        "POLICY" => matches!(word, "Accepted" | "Pending" | "Rejected"),
        "ACTION" => ACTIONS.contains(&word),
        "0|1" => matches!(word, "0" | "1"),
        "strict|tolerant" => matches!(word, "strict" | "tolerant"),
        "INTERVAL" | "BEFORE" | "N" | "READING" | "TRANSACTION" => is_number(word),
        "EXPIRY" | "UNTIL" => word == "-" || is_number(word),
        "METERSTOP" => is_number(word.strip_prefix('-').unwrap_or(word)) || word == "-",
        "JSON" => word.starts_with('{'),
        _ if is_plain(wanted) => word == wanted,
        _ => !word.is_empty(),
    }
}

fn is_number(word: &str) -> bool {
    !word.is_empty() && word.bytes().all(|byte| byte.is_ascii_digit())
}

/// What a word of a form stands for.
fn meaning(wanted: &str) -> &'static str {
    match wanted {
        "POLICY" => "Accepted, Pending or Rejected",
        "ACTION" => "a command of the central system, as ClearCache or Reset",
        "0|1" => "0, or 1 for a tag that is blocked",
        "strict|tolerant" => "strict, or tolerant for a station whose faulty requests are repaired",
        "INTERVAL" => "a number of seconds",
        "BEFORE" => "a number of seconds since 1970",
        "EXPIRY" | "UNTIL" => "a number of seconds since 1970, or - for none",
        "METERSTOP" => "a number of Wh, or - for that of the readings",
        "N" | "TRANSACTION" => "the number of a transaction",
        "READING" => "the number of a reading",
        "JSON" => "an object as {}",
        "TEXT" => "what the station sends",
        _ => "a word",
    }
}

/// The first word of a line.
fn first_of(line: &str) -> &str {
    match line.split_once(' ') {
        Some((word, _rest)) => word,
        None => line,
    }
}

/// What stands before a word of a line, without the space between.
fn before<'a>(line: &'a str, word: &str) -> &'a str {
    let front = match line.split_once(word) {
        Some((front, _rest)) => front,
        None => line,
    };
    front.strip_suffix(' ').unwrap_or(front)
}

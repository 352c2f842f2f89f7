//! What a text says that an operator is sent.
ghost use Rattle.std.specs.Prelude.{◌≡◌, option_map};
ghost use Rattle.clients.specs.Replies.{at_space, after_word, after_sign, number_of, leading_number, call_reply, refused_reply, told_reply, reply_of, ended_call, marked, begun, ended, row_of, row_of_station, station_of, forgotten_of};

use ocpp_types::number_of_digits;

/// The most digits of a number.
const MAX_DIGITS: usize = 19;

/// What a text says of the operator's line.
#[derive(Clone, Copy, Debug, PartialEq, Eq, Drop)]
pub enum Reply {
    /// It is taken.
    Taken,
    /// It is a command, which is taken; its call has the number.
    Call(u64),
    /// It is refused.
    Refused,
    /// It has no form.
    Bad,
    /// It isn't answered with this: a row, or something else that the operator is told.
    Other,
}

/// How many rows of a station went.
#[derive(Clone, Copy, Debug, Default, PartialEq, Eq, Drop)]
pub struct Forgotten {
    pub transactions: u64,
    pub readings: u64,
}

impl Forgotten {
    /// Both together.
    pub fn with(self, more: Forgotten) -> Forgotten {
        Forgotten {
            transactions: self.transactions.saturating_add(more.transactions),
            readings: self.readings.saturating_add(more.readings),
        }
    }
}

/// The number of the line whose answer follows, by the text `#N begin`.
pub fn begun(text: &str) -> Option<u64>
    ensures { result ≡ begun text.now }
{
    marked(text, "begin")
}

/// The number of the line whose answer has come, by the text `#N end`.
pub fn ended(text: &str) -> Option<u64>
    ensures { result ≡ ended text.now }
{
    marked(text, "end")
}

fn marked(text: &str, mark: &str) -> Option<u64>
    ensures { result ≡ marked text.now mark.now }
{
    let (word, rest) = at_space(after_sign(text)?)?;
    if rest == mark { number_of(word) } else { None }
}

/// What a text says of the operator's line: `OP ok`, `OP ok N`, `OP refused NUMBER ..` and `bad line` answer it.
pub fn reply_of(operator: &str, text: &str) -> Reply
    ensures { result ≡ reply_of operator.now text.now }
{
    if text == "bad line" {
        return Reply::Bad;
    }
    match after_word(operator, text) {
        Some(told) => told_reply(told),
        None => Reply::Other,
    }
}

/// What is told to the operator says so.
fn told_reply(told: &str) -> Reply
    ensures { result ≡ told_reply told.now }
{
    if told == "ok" {
        return Reply::Taken;
    }
    match after_word("ok", told) {
        Some(rest) => call_reply(number_of(rest)),
        None => refused_reply(after_word("refused", told)),
    }
}

fn call_reply(number: Option<u64>) -> Reply
    ensures { result ≡ call_reply number }
{
    match number {
        Some(call) => Reply::Call(call),
        None => Reply::Other,
    }
}

fn refused_reply(why: Option<&str>) -> Reply
    ensures { result ≡ refused_reply (option_map (λ t. t.now) why.entry) }
{
    match why {
        Some(why) if leading_number(why).is_some() => Reply::Refused,
        _ => Reply::Other,
    }
}

/// The number of the call to that station that has ended, by a text `OP ST done N ..`.
pub fn ended_call(operator: &str, station: &str, text: &str) -> Option<u64>
    ensures { result ≡ ended_call operator.now station.now text.now }
{
    let told = after_word(operator, text)?;
    let said = after_word(station, told)?;
    leading_number(after_word("done", said)?)
}

/// What follows `OP row KIND `.
fn row_of<'a>(operator: &str, kind: &str, text: &'a str) -> Option<&'a str>
    ensures { option_map (λ t. t.now) result ≡ row_of operator.now kind.now text.now }
{
    let told = after_word(operator, text)?;
    let row = after_word("row", told)?;
    after_word(kind, row)
}

/// The station of a text `OP row station ST ..`.
pub fn station_of<'a>(operator: &str, text: &'a str) -> Option<&'a str>
    ensures { option_map (λ t. t.now) result ≡ station_of operator.now text.now }
{
    let row = row_of(operator, "station", text)?;
    let (station, _rest) = at_space(row)?;
    Some(station)
}

/// What follows `OP row KIND ST `.
pub fn row_of_station<'a>(
    operator: &str,
    kind: &str,
    station: &str,
    text: &'a str,
) -> Option<&'a str>
    ensures { option_map (λ t. t.now) result ≡ row_of_station operator.now kind.now station.now text.now }
{
    let row = row_of(operator, kind, text)?;
    after_word(station, row)
}

/// What went of that station, by a text `OP row forgotten ST TRANSACTIONS READINGS`.
pub fn forgotten_of(operator: &str, station: &str, text: &str) -> Option<Forgotten>
    ensures { result ≡ forgotten_of operator.now station.now text.now }
{
    let counts = row_of_station(operator, "forgotten", station, text)?;
    let (transactions, readings) = at_space(counts)?;
    Some(Forgotten {
        transactions: number_of(transactions)?,
        readings: number_of(readings)?,
    })
}

/// What follows the first word of a text, if that is `word`.
fn after_word<'a>(word: &str, text: &'a str) -> Option<&'a str>
    ensures { option_map (λ t. t.now) result ≡ after_word word.now text.now }
{
    let (first, rest) = at_space(text)?;
    if first == word { Some(rest) } else { None }
}

/// The number before the first space.
pub fn leading_number(text: &str) -> Option<u64>
    ensures { result ≡ leading_number text.now }
{
    let (word, _rest) = at_space(text)?;
    number_of(word)
}

/// What is before and what is after the first space.
fn at_space(text: &str) -> Option<(&str, &str)>
    ensures { option_map (λ p. (p.0.now, p.1.now)) result ≡ at_space text.now }
{
    text.split_once(' ')
}

/// What follows the `#` with which a text begins.
fn after_sign(text: &str) -> Option<&str>
    ensures { option_map (λ r. r.now) result ≡ after_sign text.now }
{
    text.strip_prefix('#')
}

fn number_of(word: &str) -> Option<u64>
    ensures { result ≡ number_of word.now }
{
    number_of_digits(word, MAX_DIGITS)
}

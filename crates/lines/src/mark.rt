//! Orders with a word, and the lines round their answers (docs/RULES.md, Connections).
ghost use Rattle.std.specs.Prelude.{◌≡◌, IfOk, option_map, string_bytes};
ghost use Rattle.lines.specs.Marks.{mark_of, after_sign, begin_line, end_line};

use crate::words::first_word;
use hub_rows::is_operator_name;
use ocpp_types::Mem;
use std::alloc::Global;

/// The lines round the answer to an order with a word, each without a line feed.
#[derive(Drop)]
pub struct Bounds {
    /// The line before the answer.
    pub begin: String,
    /// The line after it.
    pub end: String,
}

/// The word and the order of a text `#WORD ORDER`. The word has the form of an operator's name, 1 to 32 ASCII letters,
/// digits, `-` and `_`, and the order is all that follows the space after it. `None` is a text of any other form.
pub fn mark_of(text: &str) -> Option<(&str, &str)>
    ensures { option_map (λ p. (p.0.now, p.1.now)) result ≡ mark_of text.now }
{
    let (word, order) = first_word(after_sign(text)?)?;
    if !is_operator_name(word) {
        return None;
    }
    Some((word, order))
}

/// What follows the `#` with which a text begins.
fn after_sign(text: &str) -> Option<&str>
    ensures { option_map (λ r. r.now) result ≡ after_sign text.now }
{
    text.strip_prefix('#')
}

/// The lines round the answer to an order with that word.
pub fn bounds_of(alloc: Global, word: &str) -> Mem<Bounds>
    ensures { IfOk result (λ b. (string_bytes b.begin ≡ begin_line word.now) × (string_bytes b.end ≡ end_line word.now)) }
{
    Ok(Bounds {
        begin: format!(in alloc; "#{word} begin")?,
        end: format!(in alloc; "#{word} end")?,
    })
}

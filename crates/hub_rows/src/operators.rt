//! The names of the hosted operators.
ghost use Rattle.std.specs.Prelude.{◌≡◌};
ghost use Rattle.std.specs.List.{list_all};
ghost use Rattle.hub_rows.specs.Operators.{is_hosted, is_name_byte, is_operator_name, are_distinct_names, are_operators};

use ocpp_types::Text;

/// The greatest length of an operator's name.
pub const MAX_OPERATOR: usize = 32;

/// Whether these operators can be hosted: at least one, none twice, and each name of 1 to 32
/// ASCII letters, digits, `-` and `_`.
pub fn are_operators(names: &[Text]) -> bool
    ensures { result ≡ are_operators names.now }
{
    !names.is_empty() && are_distinct_names(names)
}

#[tactic(auto, using(crate::proofs::Steps::drop_here))]
fn are_distinct_names(names: &[Text]) -> bool
    ensures { result ≡ are_distinct_names names.now }
{
    for (place, name) in names.iter().enumerate() {
        if !is_operator_name(name.as_str()) || is_hosted(&names[place + 1..], name.as_str()) {
            return false;
        }
    }
    true
}

/// Whether an operator is among those.
pub fn is_hosted(hosted: &[Text], op: &str) -> bool
    ensures { result ≡ is_hosted hosted.now op.now }
{
    hosted.iter().any(|name| name.as_str() == op)
}

/// Whether it is a name of 1 to 32 ASCII letters, digits, `-` and `_`.
pub fn is_operator_name(name: &str) -> bool
    ensures { result ≡ is_operator_name name.now }
{
    let bytes = name.as_bytes();
    if bytes.len() < 1 || MAX_OPERATOR < bytes.len() {
        return false;
    }
    are_name_bytes(bytes)
}

fn are_name_bytes(bytes: &[u8]) -> bool
    ensures { result ≡ list_all is_name_byte bytes.now }
{
    bytes.iter().all(|byte| is_name_byte(*byte))
}

fn is_name_byte(byte: u8) -> bool
    ensures { result ≡ is_name_byte byte }
{
    matches!(byte, b'a'..=b'z' | b'A'..=b'Z' | b'0'..=b'9' | b'-' | b'_')
}

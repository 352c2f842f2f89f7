//! The causes for which connections aren't admitted, as the metrics name them.

use connection_notes::Refusal;

/// How many causes there are.
pub const REFUSALS: usize = 11;

/// Each cause by its name, in order.
pub const NAMES: [&str; REFUSALS] = [
    "lost",
    "late",
    "no_request",
    "too_large",
    "crowded",
    "unknown",
    "foreign_origin",
    "too_many",
    "no_handshake",
    "no_subprotocol",
    "gone",
];

/// The place of a cause among these.
pub fn place_of(refusal: Refusal) -> usize {
    match refusal {
        Refusal::Lost => 0,
        Refusal::Late => 1,
        Refusal::NoRequest => 2,
        Refusal::TooLarge => 3,
        Refusal::Crowded => 4,
        Refusal::Unknown => 5,
        Refusal::Foreign => 6,
        Refusal::TooMany => 7,
        Refusal::NoHandshake => 8,
        Refusal::NoSubprotocol => 9,
        Refusal::Gone => 10,
    }
}

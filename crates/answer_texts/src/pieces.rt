//! Pieces of JSON, each added at the end of a text.
ghost use Rattle.std.specs.Prelude.{◌≡◌, ◌++◌, [], decimal, IfOk, IsUtf8, string_bytes};
ghost use Rattle.json.specs.Print.{quoted};
ghost use Rattle.ocpp_types.specs.TimeText.{time_text};

use json::Writer;
use ocpp_types::{Mem, Moment, print_time};
use std::alloc::Global;

/// How many bytes there is room for at first: most answers take fewer.
const ROOM: usize = 128;

/// A text that is being written: the bytes of a `String`, which are tested once, at the end.
#[derive(Drop)]
pub(crate) struct Draft {
    bytes: Vec<u8>,
    ghost utf8: { ∥ IsUtf8 bytes.items ∥₁ },
}

impl Draft {
    /// Nothing yet.
    pub(crate) fn new(alloc: Global) -> Mem<Draft>
        ensures { IfOk result (λ t. t.bytes.items ≡ []) }
    {
        let bytes = Vec::with_capacity(alloc, ROOM)?;
        Ok(Draft { bytes })
    }

    /// The text that was written.
    pub(crate) fn into_string(self) -> String
        ensures { string_bytes result ≡ self.bytes.items }
    {
        let Draft { bytes } = self;
        String::from_utf8(bytes).unwrap()
    }
}

/// With a piece as it stands.
#[tactic(auto, using(crate::proofs::Utf8::added))]
pub(crate) fn with_text(text: Draft, piece: &str) -> Mem<Draft>
    ensures { IfOk result (λ t. t.bytes.items ≡ text.bytes.items ++ piece.now) }
{
    let Draft { mut bytes } = text;
    bytes.extend_from_slice(piece.as_bytes())?;
    Ok(Draft { bytes })
}

/// With a string.
#[tactic(auto, using(crate::proofs::Utf8::added))]
pub(crate) fn with_quoted(text: Draft, string: &str) -> Mem<Draft>
    ensures { IfOk result (λ t. t.bytes.items ≡ text.bytes.items ++ quoted string.now) }
{
    let Draft { bytes } = text;
    let mut writer = Writer::new(bytes);
    writer.string(string)?;
    let bytes = writer.into_inner();
    Ok(Draft { bytes })
}

/// With a number.
#[tactic(auto, using(crate::proofs::Utf8::added))]
pub(crate) fn with_number(text: Draft, number: u32) -> Mem<Draft>
    ensures { IfOk result (λ t. t.bytes.items ≡ text.bytes.items ++ decimal number) }
{
    let Draft { bytes } = text;
    let mut writer = Writer::new(bytes);
    writer.u64(number as u64)?;
    let bytes = writer.into_inner();
    Ok(Draft { bytes })
}

/// With a moment, as a string.
pub(crate) fn with_time(text: Draft, alloc: Global, moment: Moment) -> Mem<Draft>
    ensures { IfOk result (λ t. t.bytes.items ≡ text.bytes.items ++ quoted (time_text moment)) }
{
    let time = print_time(alloc, moment)?;
    with_quoted(text, time.as_str())
}

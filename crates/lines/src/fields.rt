//! The fields of a listing's line (docs/TABLES.md, Listing lines).
ghost use Rattle.std.specs.Prelude.{◌≡◌, IfOk, Some, codes, string_bytes};
ghost use Rattle.serde_json.specs.Data.{string};
ghost use Rattle.serde_json.specs.Read.{read};
ghost use Rattle.lines.specs.RowLines.{quoted, text_field, signed_field, moment_field, boot_field, mark};

use hub_rows::Boot;
use ocpp_payload::write_boot;
use ocpp_types::{Mem, Moment, Text};
use serde_json::Value;
use std::alloc::Global;
use std::fmt;

/// A text of a peer, as JSON.
pub fn quoted(alloc: Global, text: &str) -> Mem<String>
    ensures text { IfOk result (λ s. string_bytes s ≡ quoted text.now) }
    ensures read { IfOk result (λ s. read (string_bytes s) ≡ Some (string text.now)) }
{
    let value = Value::String(String::from_str(alloc, text)?);
    Ok(value.to_string(alloc)?)
}

fn dash(alloc: Global) -> Mem<String>
    ensures { IfOk result (λ s. string_bytes s ≡ codes "-") }
{
    Ok(String::from_str(alloc, "-")?)
}

/// A text that may be missing.
pub fn text_field(alloc: Global, text: &Option<Text>) -> Mem<String>
    ensures { IfOk result (λ s. string_bytes s ≡ text_field text.now) }
{
    match text {
        Some(text) => quoted(alloc, text.as_str()),
        None => dash(alloc),
    }
}

/// A number that may be missing.
pub fn signed_field(alloc: Global, number: Option<i128>) -> Mem<String>
    ensures { IfOk result (λ s. string_bytes s ≡ signed_field number) }
{
    match number {
        Some(number) => Ok(format!(in alloc; "{number}")?),
        None => dash(alloc),
    }
}

/// A number that may be missing, as it is printed.
#[derive(Drop)]
pub struct Signed(pub Option<i128>);

impl fmt::Display for Signed {
    ghost output = { λ number. Some (signed_field number.0) };

    fn fmt<W: fmt::Write>(&self, f: &mut fmt::Formatter<W>) -> fmt::Result {
        match self.0 {
            Some(number) => write!(f, "{number}"),
            None => f.write_str("-"),
        }
    }
}

/// A moment that may be missing.
pub fn moment_field(alloc: Global, moment: Option<Moment>) -> Mem<String>
    ensures { IfOk result (λ s. string_bytes s ≡ moment_field moment) }
{
    match moment {
        Some(moment) => {
            let seconds = moment.seconds();
            Ok(format!(in alloc; "{seconds}")?)
        }
        None => dash(alloc),
    }
}

/// The texts of a station's last boot.
pub fn boot_field(alloc: Global, boot: &Option<Boot>) -> Mem<String>
    ensures { IfOk result (λ s. string_bytes s ≡ boot_field boot.now) }
{
    match boot {
        Some(boot) => Ok(write_boot(alloc, boot.texts.as_ref())?.to_string(alloc)?),
        None => dash(alloc),
    }
}

/// Whether a tag is blocked.
pub fn mark(blocked: bool) -> &'static str
    ensures { result.now ≡ mark blocked }
{
    if blocked { "1" } else { "0" }
}

/// A number of 32 bits, as `signed_field` takes it.
pub fn widened(number: Option<i32>) -> Option<i128>
    ensures { result ≡ number }
{
    match number {
        Some(number) => Some(number as i128),
        None => None,
    }
}

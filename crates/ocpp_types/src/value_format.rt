//! Forms of a reading.

use crate::named::Named;

/// How a reading is written (OCPP 1.6, type ValueFormat).
#[derive(Clone, Copy, Debug, PartialEq, Eq)]
pub enum ValueFormat {
    /// A decimal number.
    Raw,
    /// Signed binary data, in hexadecimal.
    SignedData,
}

impl Named for ValueFormat {
    ghost use Rattle.ocpp_types.specs.ValueFormat.{value_format_name, value_formats};

    ghost name_of = { value_format_name };

    ghost names = { value_formats };

    fn table() -> &'static [(&'static str, Self)] {
        &[("Raw", Self::Raw), ("SignedData", Self::SignedData)]
    }

    fn index(&self) -> usize {
        *self as usize
    }
}

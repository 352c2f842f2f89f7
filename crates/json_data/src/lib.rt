//! JSON values as they are read: their texts are borrowed, and contracts see them as `serde_json`'s data.
#![tactic(auto)]

mod numbers;
mod parts;
mod value_reader;

pub use parts::{
    integer_of, is_null, is_object, items_of, member_of, signed_of, text_of, truth_of, unsigned_of,
};
pub use value_reader::{MAX_DEPTH, Refused, read, read_value};

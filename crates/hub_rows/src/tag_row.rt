//! The record of an id tag.

use crate::named_row::NamedRow;
use crate::ordered::Keyed;
use ocpp_types::{Moment, TagKey, Text};
use std::cmp::Ordering;

/// An id tag of an operator. Its key is `op` and `key`.
#[derive(Clone, Drop)]
pub struct TagRow {
    /// The operator that owns it.
    pub op: Text,
    pub key: TagKey,
    pub tag: Tag,
}

/// What is known of an id tag.
#[derive(Clone, Drop)]
pub struct Tag {
    /// Its text as it was put.
    pub text: Text,
    /// The tag of the group that it belongs to, as it was put with it.
    pub parent: Option<Text>,
    pub blocked: bool,
    pub expiry: Option<Moment>,
}

impl Keyed for TagRow {
    ghost use Rattle.hub_rows.specs.Rows.{tag_key};

    ghost key = { tag_key };

    fn compare(&self, other: &TagRow) -> Ordering {
        self.op
            .cmp(&other.op)
            .then(self.key.as_str().cmp(other.key.as_str()))
    }
}

impl NamedRow for TagRow {
    ghost op = { λ r. r.op };

    ghost name = { λ r. r.key };

    fn op(&self) -> &str {
        self.op.as_str()
    }

    fn name(&self) -> &str {
        self.key.as_str()
    }
}

//! The record of a grant.

use crate::ordered::Keyed;
use ocpp_types::{Moment, TagKey, Text};
use std::cmp::Ordering;

/// An id tag that its owner granted to another operator. Its key is `op`, `key` and `to`.
#[derive(Clone, Drop)]
pub struct GrantRow {
    /// The operator that owns the tag.
    pub op: Text,
    /// The key of the tag.
    pub key: TagKey,
    /// The operator that the tag is granted to.
    pub to: Text,
    /// The grant counts before this moment, or for good.
    pub until: Option<Moment>,
}

impl Keyed for GrantRow {
    ghost use Rattle.hub_rows.specs.Rows.{grant_key};

    ghost key = { grant_key };

    fn compare(&self, other: &GrantRow) -> Ordering {
        self.op
            .cmp(&other.op)
            .then(self.key.as_str().cmp(other.key.as_str()))
            .then(self.to.cmp(&other.to))
    }
}

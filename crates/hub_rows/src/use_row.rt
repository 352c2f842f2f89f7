//! The record of what a driver used at another operator's station by a granted id tag.

use crate::ordered::Keyed;
use ocpp_types::{Moment, TagKey, Text};
use std::cmp::Ordering;

/// A settled use of an id tag, which its owner sees. Its key is `op` and `number`. It names no station and no
/// transaction.
#[derive(Clone, Drop)]
pub struct UseRow {
    /// The operator that owns the tag.
    pub op: Text,
    /// 1 to 2147483647, counted by owner.
    pub number: u32,
    /// The operator at whose station it was used.
    pub host: Text,
    /// The key of the tag.
    pub key: TagKey,
    /// When the stop came.
    pub moment: Moment,
    /// The meter at the stop less the meter at the start, in Wh.
    pub wh: i64,
}

impl Keyed for UseRow {
    ghost use Rattle.hub_rows.specs.Rows.{use_key};

    ghost key = { use_key };

    fn compare(&self, other: &UseRow) -> Ordering {
        self.op.cmp(&other.op).then(self.number.cmp(&other.number))
    }
}

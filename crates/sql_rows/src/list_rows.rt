//! The rows in which a local list is kept.

use hub_rows::{Keyed, LocalTag};
use ocpp_types::Text;
use std::cmp::Ordering;

/// A local list, without its entries. Its key is `op` and `station`.
#[derive(Drop)]
pub struct ListHead {
    /// The operator that hosts the station.
    pub op: Text,
    pub station: Text,
    /// 1 to 2147483647.
    pub version: u32,
}

/// An entry of a local list. Its key is `op`, `station` and `key`.
#[derive(Drop)]
pub struct EntryRow {
    /// The operator that hosts the station.
    pub op: Text,
    pub station: Text,
    /// The key of the tag.
    pub key: Text,
    pub entry: LocalTag,
}

impl Keyed for ListHead {
    ghost use Rattle.sql_rows.specs.TypedTables.{lists};

    ghost key = { lists.key };

    fn compare(&self, other: &ListHead) -> Ordering {
        self.op
            .cmp(&other.op)
            .then(self.station.cmp(&other.station))
    }
}

impl Keyed for EntryRow {
    ghost use Rattle.sql_rows.specs.TypedTables.{entries};

    ghost key = { entries.key };

    fn compare(&self, other: &EntryRow) -> Ordering {
        self.op
            .cmp(&other.op)
            .then(self.station.cmp(&other.station))
            .then(self.key.cmp(&other.key))
    }
}

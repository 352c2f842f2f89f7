//! The record of a station's local list.
ghost use Rattle.std.specs.Prelude.{◌≡◌};

use crate::named_row::NamedRow;
use crate::ordered::Keyed;
use ocpp_types::{IdTagInfo, Listed, Text, copied};
use std::alloc::AllocError;
use std::cmp::Ordering;

/// The local list that a station accepted last. Its key is `op` and `station`.
#[derive(Drop)]
pub struct ListRow {
    /// The operator that hosts the station.
    pub op: Text,
    pub station: Text,
    pub list: LocalList,
}

/// The tags that a station may accept on its own (OCPP 1.6, section 3.5.2).
#[derive(Drop)]
pub struct LocalList {
    /// 1 to 2147483647.
    pub version: u32,
    /// In the order of the tags' keys, each key once.
    pub entries: Listed<LocalTag>,
}

/// An entry of a local list (OCPP 1.6, type AuthorizationData).
#[derive(Drop)]
pub struct LocalTag {
    /// The tag as the operator gave it.
    pub tag: Text,
    pub info: IdTagInfo,
}

impl Clone for LocalTag {
    ghost is_clone = { λ entry copy. copy ≡ entry };

    fn clone(&self) -> Result<LocalTag, AllocError> {
        Ok(LocalTag {
            tag: self.tag.clone()?,
            info: IdTagInfo {
                expiry_date: self.info.expiry_date,
                parent_id_tag: copied(&self.info.parent_id_tag)?,
                status: self.info.status,
            },
        })
    }
}

impl Keyed for ListRow {
    ghost use Rattle.hub_rows.specs.Rows.{list_key};

    ghost key = { list_key };

    fn compare(&self, other: &ListRow) -> Ordering {
        self.op
            .cmp(&other.op)
            .then(self.station.cmp(&other.station))
    }
}

impl NamedRow for ListRow {
    ghost op = { λ r. r.op };

    ghost name = { λ r. r.station };

    fn op(&self) -> &str {
        self.op.as_str()
    }

    fn name(&self) -> &str {
        self.station.as_str()
    }
}

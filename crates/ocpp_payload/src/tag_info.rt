//! What is said of a tag, as an object that is read and written.
ghost use Rattle.ocpp_payload.specs.Table.{read_by};
ghost use Rattle.ocpp_payload.specs.TagInfo.{id_tag_info};

use crate::fault::ReadResult;
use crate::fields::{optional, required};
use crate::kind::{NameOf, WholeSecond};
use crate::lists::Readable;
use crate::written::{Checked, ObjectWriter, Tabled, bad_may};
use crate::written_kinds::TextWithin;
use ocpp_types::{FieldName, IdTagInfo, Mem};
use std::alloc::Global;

/// Its time is floored to the second; its parent tag has at most 20 characters.
impl Readable for IdTagInfo {
    ghost reads_as = { read_by id_tag_info };

    fn read_from(alloc: Global, object: &json::Value<'_>) -> ReadResult<IdTagInfo> {
        Ok(IdTagInfo {
            expiry_date: optional(alloc, object, "expiryDate", WholeSecond)?,
            parent_id_tag: optional(alloc, object, "parentIdTag", TextWithin(20))?,
            status: required(alloc, object, "status", NameOf::new())?,
        })
    }
}

impl Tabled for IdTagInfo {
    ghost form = { id_tag_info };

    fn write_members(&self, object: ObjectWriter) -> Mem<ObjectWriter> {
        object
            .may("expiryDate", WholeSecond, &self.expiry_date)?
            .may("parentIdTag", TextWithin(20), &self.parent_id_tag)?
            .must("status", NameOf::new(), &self.status)
    }
}

impl Checked for IdTagInfo {
    fn bad(&self) -> Option<FieldName> {
        bad_may("parentIdTag", TextWithin(20), &self.parent_id_tag)
    }
}

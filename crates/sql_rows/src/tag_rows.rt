//! Id tags and grants, read from their columns.

use crate::columns::{flag, key, moment_if_any, text, text_if_any};
use crate::stored::Stored;
use hub_rows::{GrantRow, StoreFault, Tag, TagRow};
use sqlite::Row;
use std::alloc::Global;

impl Stored for TagRow {
    ghost use Rattle.sql_rows.specs.TypedTables.{tags};

    ghost read = { tags.read };

    fn read(alloc: Global, row: &Row) -> Result<TagRow, StoreFault> {
        Ok(TagRow {
            op: text(row, 0)?,
            key: key(alloc, row, 1)?,
            tag: Tag {
                text: text(row, 2)?,
                parent: text_if_any(row, 3)?,
                blocked: flag(row, 5)?,
                expiry: moment_if_any(row, 6)?,
            },
        })
    }
}

impl Stored for GrantRow {
    ghost use Rattle.sql_rows.specs.TypedTables.{grants};

    ghost read = { grants.read };

    fn read(alloc: Global, row: &Row) -> Result<GrantRow, StoreFault> {
        Ok(GrantRow {
            op: text(row, 0)?,
            key: key(alloc, row, 1)?,
            to: text(row, 2)?,
            until: moment_if_any(row, 3)?,
        })
    }
}

//! The rows of hub_meta.

use crate::columns::{text, whole};
use crate::stored::Stored;
use hub_rows::{Keyed, StoreFault};
use ocpp_types::Text;
use sqlite::Row;
use std::alloc::Global;
use std::cmp::Ordering;

/// A number that is kept of the database. Its key is `name`.
#[derive(Drop)]
pub struct MetaRow {
    pub name: Text,
    pub number: u64,
}

impl Keyed for MetaRow {
    ghost use Rattle.sql_rows.specs.TypedTables.{metas};

    ghost key = { metas.key };

    fn compare(&self, other: &MetaRow) -> Ordering {
        self.name.cmp(&other.name)
    }
}

impl Stored for MetaRow {
    ghost use Rattle.sql_rows.specs.TypedTables.{metas};

    ghost read = { metas.read };

    fn read(alloc: Global, row: &Row) -> Result<MetaRow, StoreFault> {
        Ok(MetaRow {
            name: text(row, 0)?,
            number: whole(row, 1)?,
        })
    }
}

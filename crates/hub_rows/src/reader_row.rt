//! The record of how a station's requests are read.

use crate::named_row::NamedRow;
use crate::ordered::Keyed;
use ocpp_types::{Named, Text};
use std::cmp::Ordering;

/// How the requests of a station are read, as its operator chose. Its key is `op` and `station`.
#[derive(Clone, Drop)]
pub struct ReaderRow {
    /// The operator that hosts the station.
    pub op: Text,
    pub station: Text,
    pub reader: Reader,
}

/// How requests are read. A station for which nothing was chosen is read strictly.
#[derive(Clone, Copy, Debug, PartialEq, Eq)]
pub enum Reader {
    /// As OCPP 1.6 has them. A request with a faulty member is refused.
    Strict,
    /// A request that is refused is read once more, with its faulty members repaired.
    Tolerant,
}

impl Named for Reader {
    ghost use Rattle.hub_rows.specs.Readers.{reader_name, readers};

    ghost name_of = { reader_name };

    ghost names = { readers };

    fn table() -> &'static [(&'static str, Self)] {
        &[("strict", Self::Strict), ("tolerant", Self::Tolerant)]
    }

    fn index(&self) -> usize {
        *self as usize
    }
}

impl Keyed for ReaderRow {
    ghost use Rattle.hub_rows.specs.Rows.{reader_key};

    ghost key = { reader_key };

    fn compare(&self, other: &ReaderRow) -> Ordering {
        self.op
            .cmp(&other.op)
            .then(self.station.cmp(&other.station))
    }
}

impl NamedRow for ReaderRow {
    ghost op = { λ r. r.op };

    ghost name = { λ r. r.station };

    fn op(&self) -> &str {
        self.op.as_str()
    }

    fn name(&self) -> &str {
        self.station.as_str()
    }
}

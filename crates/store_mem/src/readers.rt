//! How the requests of stations are read.
ghost use Rattle.std.specs.Prelude.{◌≡◌};
ghost use Rattle.std.specs.List.Sorted.{IsStrictlySortedBy};
ghost use Rattle.hub_rows.specs.Keyed.{by_key};
ghost use Rattle.hub_rows.specs.Readers.{reader_in};
ghost use Rattle.hub_rows.specs.Rows.{reader_key};

use hub_rows::{Reader, ReaderRow, row_of};

/// How the requests of a station are read.
pub fn reader_of(rows: &[ReaderRow], op: &str, station: &str) -> Reader
    requires { IsStrictlySortedBy (by_key reader_key) rows.now }
    ensures { result ≡ reader_in op.now station.now rows.now }
{
    match row_of(rows, op, station) {
        Some(row) => row.reader,
        None => Reader::Strict,
    }
}

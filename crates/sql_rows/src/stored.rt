//! Rows of an answer, read as typed rows.
ghost use Rattle.std.specs.Prelude.{◌≡◌, [], map, option_map, IfOk, IsOk, OnOk, is_some};
ghost use Rattle.hub_rows.specs.Keyed.{by_key, first, put_all, found, greatest};
ghost use Rattle.sqlite_value.specs.Order.{column};
ghost use Rattle.sql_rows.specs.Values.{count_in, first_text, numbers_in};

use crate::columns::{count, text, told};
use hub_rows::{Keyed, StoreFault, put_row};
use ocpp_types::{Listed, Text};
use sqlite::{Error, Row};
use std::alloc::Global;

/// A row that is kept in a table.
pub trait Stored: Keyed {
    ghost use Rattle.sqlite_value.specs.Order.{Row as SqlRow};

    /// How it is read from its columns.
    ghost read: { SqlRow → Self };

    fn read(alloc: Global, row: &Row) -> Result<Self, StoreFault>
        ensures { IfOk result (λ t. t ≡ read row.now) };
}

/// The rows of an answer, in the order of their keys. An answer that is in this order takes a
/// binary search a row and moves none.
pub fn rows_of<R: Stored>(alloc: Global, rows: &[Row]) -> Result<Vec<R>, StoreFault>
    ensures { IfOk result (λ v. v.items ≡ put_all (by_key R.Keyed.key) (map R.read rows.now) []) }
{
    let mut read = Vec::new(alloc);
    'rows: for row in rows {
        put_row(&mut read, R::read(alloc, row)?)?;
    }
    Ok(read)
}

/// The rows of an answer, or its fault.
pub fn listed<R: Stored>(answer: Result<Vec<Row>, Error>) -> Result<Listed<R>, StoreFault>
    ensures ok { OnOk result (IsOk answer) }
    ensures rows { IfOk answer (λ rows. IfOk result (λ list. list ≡ put_all (by_key R.Keyed.key) (map R.read rows.items) [])) }
{
    let rows = answer.map_err(told)?;
    Ok(Listed::from(rows_of(*rows.allocator(), &rows)?))
}

/// The first row of an answer, or its fault.
pub fn first_row<R: Stored>(answer: Result<Vec<Row>, Error>) -> Result<Option<R>, StoreFault>
    ensures ok { OnOk result (IsOk answer) }
    ensures row { IfOk answer (λ rows. IfOk result (λ row. row ≡ first (put_all (by_key R.Keyed.key) (map R.read rows.items) []))) }
{
    let rows = answer.map_err(told)?;
    Ok(rows_of(*rows.allocator(), &rows)?.into_iter().next())
}

/// Whether a row was found.
pub fn is_found<R: Drop>(found: Result<Option<R>, StoreFault>) -> Result<bool, StoreFault>
    ensures ok { OnOk result (IsOk found) }
    ensures found { IfOk found (λ row. IfOk result (λ is. is ≡ is_some row)) }
{
    found.map(|row| row.is_some())
}

/// The number in a column of the row of an answer of one row at most, 0 where there is none.
pub fn only_number(answer: Result<Vec<Row>, Error>, at: usize) -> Result<u32, StoreFault>
    ensures ok { OnOk result (IsOk answer) }
    ensures number { IfOk answer (λ rows. IfOk result (λ n. n ≡ greatest (map (λ r. count_in (column r at)) rows.items))) }
{
    match answer {
        Ok(rows) => number_of(&rows, at),
        Err(error) => Err(told(error)),
    }
}

fn number_of(rows: &[Row], at: usize) -> Result<u32, StoreFault>
    ensures { IfOk result (λ n. n ≡ greatest (map (λ r. count_in (column r at)) rows.now)) }
{
    match rows {
        [] => Ok(0),
        [row] => count(row, at),
        _ => Err(StoreFault::Failed),
    }
}

/// The numbers in the first two columns of the row of an answer of one row at most.
pub fn only_pair(answer: Result<Vec<Row>, Error>) -> Result<Option<(u32, u32)>, StoreFault>
    ensures ok { OnOk result (IsOk answer) }
    ensures pair { IfOk answer (λ rows. IfOk result (λ pair. pair ≡ option_map numbers_in (first rows.items))) }
{
    match answer {
        Ok(rows) => pair_of(&rows),
        Err(error) => Err(told(error)),
    }
}

fn pair_of(rows: &[Row]) -> Result<Option<(u32, u32)>, StoreFault>
    ensures { IfOk result (λ pair. pair ≡ option_map numbers_in (first rows.now)) }
{
    match rows {
        [] => Ok(None),
        [row] => Ok(Some((count(row, 0)?, count(row, 1)?))),
        _ => Err(StoreFault::Failed),
    }
}

/// The text in the first column of the row of an answer of one row at most.
pub fn only_text(answer: Result<Vec<Row>, Error>) -> Result<Option<Text>, StoreFault>
    ensures ok { OnOk result (IsOk answer) }
    ensures text { IfOk answer (λ rows. IfOk result (λ text. text ≡ option_map first_text (first rows.items))) }
{
    match answer {
        Ok(rows) => text_of(&rows),
        Err(error) => Err(told(error)),
    }
}

fn text_of(rows: &[Row]) -> Result<Option<Text>, StoreFault>
    ensures { IfOk result (λ text. text ≡ option_map first_text (first rows.now)) }
{
    match rows {
        [] => Ok(None),
        [row] => Ok(Some(text(row, 0)?)),
        _ => Err(StoreFault::Failed),
    }
}

//! All meter values of a station, which are looked up page by page.
ghost use Rattle.std.specs.Prelude.{◌≡◌, ◌&&◌, ◌++◌, ◌<◌, ◌^◌, nat_le, None, Some, IfOk, IfSome, OnOk, filter};
ghost use Rattle.std.specs.Str.{bytes_eq};
ghost use Rattle.sqlite.specs.Held.{state};
ghost use Rattle.hub_rows.specs.MeterValues.{is_sent_with, meter_values_in};
ghost use Rattle.sql_rows.specs.Kept.{IsServing, ShowsPage};
ghost use Rattle.sql_rows.specs.TypedTables.{meter_values};
ghost use Rattle.sql_rows.specs.Kept.{Asks};
ghost use Rattle.sql_tables.specs.declared.pages.TheConstants.{PAGE_ROWS};
ghost use Rattle.sql_lookups.specs.Pages.{page_from, IsAfter};

use crate::values::values_page;
use hub_rows::{MeterValueRow, StoreFault, is_sent_with};
use ocpp_types::Listed;
use sql_rows::listed;
use sql_tables::PAGE_ROWS;
use sqlite::{Alter, Connection, Error, Row, params};
use std::alloc::Global;

/// As how many rows a reading counts, for its line is longer than that of other rows.
const WEIGHT: usize = 2;

/// So many bytes of a reading's text count as a row more.
const LONG_TEXT: usize = 64;

fn find_tx_page<S: Alter>(
    conn: &mut Connection<S>,
    op: &str,
    station: &str,
    transaction: u64,
    first: u32,
) -> Result<Vec<Row>, Error>
    requires { transaction < 2 ^ 63 }
    ensures shows { IsServing (state S.Store conn.old) → ShowsPage PAGE_ROWS (λ v. v.items) meter_values (λ m. bytes_eq m.op op.now && (bytes_eq m.station station.now && (is_sent_with (Some transaction) m.value.transaction && nat_le first m.first))) (state S.Store conn.old) (state S.Store conn.new) result }
{
    conn.query_all(
        sql_tables::meter_values::PAGE_OF_TX,
        params![op, station, transaction as i64, first],
    )
}

/// The first meter values of a station from a number on that were sent with the number of a transaction.
fn tx_page<S: Alter>(
    conn: &mut Connection<S>,
    op: &str,
    station: &str,
    transaction: u64,
    first: u32,
) -> Result<Listed<MeterValueRow>, StoreFault>
    requires { transaction < 2 ^ 63 }
    ensures asks { Asks (state S.Store conn.old) (state S.Store conn.new) result (λ rows page. page ≡ page_from PAGE_ROWS (λ m. m.first) first (meter_values_in op.now station.now (Some transaction) rows.meter_values)) }
{
    listed(find_tx_page(conn, op, station, transaction, first))
}

/// The same of all meter values, or of those that were sent with that number.
fn chosen_page<S: Alter>(
    conn: &mut Connection<S>,
    op: &str,
    station: &str,
    transaction: Option<u64>,
    first: u32,
) -> Result<Listed<MeterValueRow>, StoreFault>
    requires { IfSome transaction (λ n. n < 2 ^ 63) }
    ensures asks { Asks (state S.Store conn.old) (state S.Store conn.new) result (λ rows page. page ≡ page_from PAGE_ROWS (λ m. m.first) first (meter_values_in op.now station.now transaction rows.meter_values)) }
{
    match transaction {
        Some(number) => tx_page(conn, op, station, number, first),
        None => values_page(conn, op, station, first),
    }
}

/// Where the next page begins: after the last row of this one. `None` where this page has fewer than `size` rows.
pub(crate) fn after_page(
    size: usize,
    first: u32,
    page: &[MeterValueRow],
) -> Result<Option<u32>, StoreFault>
    requires { 0 < size }
    ensures forward { IfOk result (λ next. IfSome next (λ n. first < n)) }
    ensures after { IfOk result (IsAfter size first page.now) }
{
    match page.last() {
        Some(row) if page.len() >= size => match row.first.max(first).checked_add(1) {
            Some(next) => Ok(Some(next)),
            None => Err(StoreFault::Failed),
        },
        _ => Ok(None),
    }
}

/// As how many rows a meter value counts.
fn weight_of(row: &MeterValueRow) -> usize {
    let mut weight = 0_usize;
    for sampled in row.value.sampled.as_slice() {
        let long = sampled.value.as_str().len() / LONG_TEXT;
        weight = weight.saturating_add(WEIGHT).saturating_add(long);
    }
    weight.max(1)
}

/// Adds some meter values, where they count as no more rows than are left.
fn add_page(
    values: &mut Vec<MeterValueRow>,
    page: Listed<MeterValueRow>,
    left: &mut usize,
) -> Result<(), StoreFault>
    ensures { OnOk result (values.new.items ≡ values.old.items ++ page) }
{
    for row in page.into_vec() {
        *left = left
            .checked_sub(weight_of(&row))
            .ok_or(StoreFault::TooLong)?;
        values.push(row)?;
    }
    Ok(())
}

/// The meter values of a station, all or those that were sent with the number of a transaction, where they count as so many
/// rows at most.
fn all_values<S: Alter>(
    conn: &mut Connection<S>,
    alloc: Global,
    op: &str,
    station: &str,
    transaction: Option<u64>,
    most: usize,
) -> Result<Listed<MeterValueRow>, StoreFault>
    requires { IfSome transaction (λ n. n < 2 ^ 63) }
    ensures asks { Asks (state S.Store conn.old) (state S.Store conn.new) result (λ rows list. list ≡ meter_values_in op.now station.now transaction rows.meter_values) }
{
    let mut values = Vec::new(alloc);
    let mut left = most;
    let mut next = Some(0);
    'pages: while let Some(first) = next {
        let page = chosen_page(conn, op, station, transaction, first)?;
        next = after_page(PAGE_ROWS, first, page.as_slice())?;
        add_page(&mut values, page, &mut left)?;
    }
    Ok(Listed::from(values))
}

/// Those of some meter values that were sent with that number.
fn sent_with(rows: Listed<MeterValueRow>, wanted: u64) -> Listed<MeterValueRow>
    ensures { result ≡ filter (λ m. is_sent_with (Some wanted) m.value.transaction) rows }
{
    let mut rows = rows.into_vec();
    rows.retain(|row| is_sent_with(Some(wanted), row.value.transaction));
    Listed::from(rows)
}

/// The meter values of a station: all, or those that were sent with the number of a transaction. No number past 64 bits with
/// a sign is in the table. Where they count as more rows than `most`, this answers TooLong: each reading as two, and as one
/// more for each 64 bytes of its text.
pub fn meter_values<S: Alter>(
    conn: &mut Connection<S>,
    alloc: Global,
    op: &str,
    station: &str,
    transaction: Option<u64>,
    most: usize,
) -> Result<Listed<MeterValueRow>, StoreFault>
    ensures asks { Asks (state S.Store conn.old) (state S.Store conn.new) result (λ rows list. list ≡ meter_values_in op.now station.now transaction rows.meter_values) }
{
    let wanted = match transaction {
        None => return all_values(conn, alloc, op, station, None, most),
        Some(wanted) => wanted,
    };
    if wanted <= i64::MAX as u64 {
        return all_values(conn, alloc, op, station, Some(wanted), most);
    }
    let all = all_values(conn, alloc, op, station, None, most)?;
    Ok(sent_with(all, wanted))
}

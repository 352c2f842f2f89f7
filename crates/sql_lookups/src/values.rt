//! Look-ups of meter values.
ghost use Rattle.std.specs.Prelude.{◌≡◌, ◌&&◌, nat_le, None, Some, IfOk};
ghost use Rattle.std.specs.List.{list_any};
ghost use Rattle.std.specs.Str.{bytes_eq};
ghost use Rattle.sqlite.specs.Held.{state};
ghost use Rattle.hub_rows.specs.MeterValues.{is_meter_value, is_sent_with, last_reading_in, meter_values_in};
ghost use Rattle.sql_rows.specs.Kept.{IsServing, ShowsPage, ShowsTopCells};
ghost use Rattle.sql_rows.specs.TypedTable.{rows_in};
ghost use Rattle.sql_rows.specs.TypedTables.{first_and_count_cells, meter_values};
ghost use Rattle.sql_rows.specs.Kept.{Asks, AsksIn};
ghost use Rattle.sql_lookups.specs.Asks.{AreLastNumbers};
ghost use Rattle.sql_tables.specs.declared.pages.TheConstants.{PAGE_ROWS};
ghost use Rattle.sql_lookups.specs.Pages.{last_in, page_from};

use hub_rows::{MeterValueRow, StoreFault};
use ocpp_types::Listed;
use sql_rows::{is_found, listed, only_pair};
use sqlite::{Alter, Connection, Error, Row, params};

fn find_page<S: Alter>(
    conn: &mut Connection<S>,
    op: &str,
    station: &str,
    first: u32,
) -> Result<Vec<Row>, Error>
    ensures shows { IsServing (state S.Store conn.old) → ShowsPage PAGE_ROWS (λ v. v.items) meter_values (λ m. bytes_eq m.op op.now && (bytes_eq m.station station.now && nat_le first m.first)) (state S.Store conn.old) (state S.Store conn.new) result }
{
    conn.query_all(sql_tables::meter_values::PAGE, params![op, station, first])
}

/// The first meter values of a station from a number on.
pub(crate) fn values_page<S: Alter>(
    conn: &mut Connection<S>,
    op: &str,
    station: &str,
    first: u32,
) -> Result<Listed<MeterValueRow>, StoreFault>
    ensures asks { Asks (state S.Store conn.old) (state S.Store conn.new) result (λ rows page. page ≡ page_from PAGE_ROWS (λ m. m.first) first (meter_values_in op.now station.now None rows.meter_values)) }
{
    listed(find_page(conn, op, station, first))
}

fn find_next<S: Alter>(
    conn: &mut Connection<S>,
    op: &str,
    station: &str,
    first: u32,
) -> Result<Vec<Row>, Error>
    ensures shows { IsServing (state S.Store conn.old) → ShowsPage 1 (λ v. v.items) meter_values (λ m. bytes_eq m.op op.now && (bytes_eq m.station station.now && nat_le first m.first)) (state S.Store conn.old) (state S.Store conn.new) result }
{
    conn.query_all(sql_tables::meter_values::NEXT, params![op, station, first])
}

/// The first meter value of a station from a number on, as a page of one row.
pub(crate) fn next_value<S: Alter>(
    conn: &mut Connection<S>,
    op: &str,
    station: &str,
    first: u32,
) -> Result<Listed<MeterValueRow>, StoreFault>
    ensures asks { Asks (state S.Store conn.old) (state S.Store conn.new) result (λ rows page. page ≡ page_from 1 (λ m. m.first) first (meter_values_in op.now station.now None rows.meter_values)) }
{
    listed(find_next(conn, op, station, first))
}

fn find_last<S: Alter>(conn: &mut Connection<S>, op: &str, station: &str) -> Result<Vec<Row>, Error>
    ensures shows { IsServing (state S.Store conn.old) → ShowsTopCells (λ v. v.items) meter_values first_and_count_cells (λ m. m.first) (λ m. bytes_eq m.op op.now && is_meter_value station.now None m) (state S.Store conn.old) (state S.Store conn.new) result }
{
    conn.query_all(sql_tables::meter_values::LAST_NUMBERS, params![op, station])
}

/// The first number of a station's last meter value, and how many readings it is.
fn last_numbers<S: Alter>(
    conn: &mut Connection<S>,
    op: &str,
    station: &str,
) -> Result<Option<(u32, u32)>, StoreFault>
    ensures asks { AsksIn (state S.Store conn.old) (state S.Store conn.new) result (λ db numbers. AreLastNumbers (meter_values_in op.now station.now None (rows_in meter_values db)) numbers) }
{
    only_pair(find_last(conn, op, station))
}

/// The last of so many numbers from the first on, 0 where there are none.
fn last_in(numbers: Option<(u32, u32)>) -> Result<u32, StoreFault>
    ensures { IfOk result (λ n. n ≡ last_in numbers) }
{
    match numbers {
        Some((first, count)) => first
            .checked_add(count.saturating_sub(1))
            .ok_or(StoreFault::Failed),
        None => Ok(0),
    }
}

/// The number of a station's last reading, 0 where it has none.
pub fn last_reading<S: Alter>(
    conn: &mut Connection<S>,
    op: &str,
    station: &str,
) -> Result<u32, StoreFault>
    ensures asks { Asks (state S.Store conn.old) (state S.Store conn.new) result (λ rows n. n ≡ last_reading_in op.now station.now rows.meter_values) }
{
    let numbers = last_numbers(conn, op, station)?;
    last_in(numbers)
}

fn find_last_of_tx<S: Alter>(
    conn: &mut Connection<S>,
    op: &str,
    station: &str,
    transaction: u32,
) -> Result<Vec<Row>, Error>
    ensures shows { IsServing (state S.Store conn.old) → ShowsTopCells (λ v. v.items) meter_values first_and_count_cells (λ m. m.first) (λ m. bytes_eq m.op op.now && is_meter_value station.now (Some transaction) m) (state S.Store conn.old) (state S.Store conn.new) result }
{
    conn.query_all(
        sql_tables::meter_values::LAST_NUMBERS_OF_TX,
        params![op, station, transaction],
    )
}

/// The same numbers of the last meter value that was sent with the number of a transaction.
fn last_numbers_of_tx<S: Alter>(
    conn: &mut Connection<S>,
    op: &str,
    station: &str,
    transaction: u32,
) -> Result<Option<(u32, u32)>, StoreFault>
    ensures asks { AsksIn (state S.Store conn.old) (state S.Store conn.new) result (λ db numbers. AreLastNumbers (meter_values_in op.now station.now (Some transaction) (rows_in meter_values db)) numbers) }
{
    only_pair(find_last_of_tx(conn, op, station, transaction))
}

/// Whether a meter value of a station names the transaction of a number.
pub(crate) fn is_named<S: Alter>(
    conn: &mut Connection<S>,
    op: &str,
    station: &str,
    transaction: u32,
) -> Result<bool, StoreFault>
    ensures asks { Asks (state S.Store conn.old) (state S.Store conn.new) result (λ rows named. named ≡ list_any (λ m. is_sent_with (Some transaction) m.value.transaction) (meter_values_in op.now station.now None rows.meter_values)) }
{
    is_found(last_numbers_of_tx(conn, op, station, transaction))
}

//! Listings of an operator's records (docs/RULES.md, Requests of operators).
ghost use Rattle.std.specs.Prelude.{◌≡◌, ◌++◌, map, Ok, Err, IfOk, OnOk};
ghost use Rattle.charging.specs.Forget.{forget_rule};
ghost use Rattle.holdings.specs.Reservation.{is_current};
ghost use Rattle.listing_plans.specs.Listing.{current, history_rows, list_rows, of_station, reading_rows, readings_of, rows_rule, Lists};
ghost use Rattle.plans.specs.Plans.{list_plan};
ghost use Rattle.hub_events.specs.declared.listing.Row.TheVariants as row;

use charging::plan_forget;
use holdings::is_current;
use hub_events::{Listing, ReadingRow, Row, Said, Shown};
use hub_rows::{History, LocalList, LocalTag, MeterValueRow, ReservationRow, Store, StoreFault};
use ocpp_types::{Boxed, Listed, Mem, Moment, Refusal, Text};
use plans::{Effect, Plan};
use registry::StationAt;
use std::alloc::Global;

/// The plan for a listing: its rows, in the order of their keys, and then that it is taken.
#[inline(never)]
pub fn plan_list<S: Store>(
    alloc: Global,
    store: &mut S,
    op: &Text,
    listing: &Listing,
    moment: Moment,
) -> Result<Plan, StoreFault>
    ensures { Lists S.view op.now (rows_rule listing.now moment) store.old store.new result }
{
    match listing {
        Listing::Stations => stations(alloc, store, op),
        Listing::Tags => tags(alloc, store, op),
        Listing::Grants => grants(alloc, store, op),
        Listing::Granted => granted(alloc, store, op),
        Listing::Uses => uses(alloc, store, op),
        Listing::Readers => readers(alloc, store, op),
        Listing::Connectors { station } => connectors(alloc, store, op, station),
        Listing::OpenTransactions => open_transactions(alloc, store, op),
        Listing::Transactions { station, first } => {
            transactions(alloc, store, op, station, *first)
        }
        Listing::Readings {
            station,
            transaction,
        } => readings(alloc, store, op, station, *transaction),
        Listing::Reservations { station } => reservations(alloc, store, op, station, moment),
        Listing::LocalList { station } => local_list(alloc, store, op, station),
        Listing::Reports { station } => reports(alloc, store, op, station),
        Listing::Forgettable { station, until } => {
            let at = StationAt {
                op,
                station,
                moment,
            };
            forgettable(alloc, store, &at, *until)
        }
    }
}

fn stations<S: Store>(alloc: Global, store: &mut S, op: &Text) -> Result<Plan, StoreFault>
    ensures { Lists S.view op.now (λ l. Ok (map row.Station l.stations)) store.old store.new result }
{
    let rows = store.stations(op.as_str())?;
    Ok(show(alloc, rows)?)
}

fn tags<S: Store>(alloc: Global, store: &mut S, op: &Text) -> Result<Plan, StoreFault>
    ensures { Lists S.view op.now (λ l. Ok (map row.Tag l.tags)) store.old store.new result }
{
    let rows = store.tags(op.as_str())?;
    Ok(show(alloc, rows)?)
}

fn grants<S: Store>(alloc: Global, store: &mut S, op: &Text) -> Result<Plan, StoreFault>
    ensures { Lists S.view op.now (λ l. Ok (map row.Grant l.grants)) store.old store.new result }
{
    let rows = store.grants_out(op.as_str())?;
    Ok(show(alloc, rows)?)
}

fn granted<S: Store>(alloc: Global, store: &mut S, op: &Text) -> Result<Plan, StoreFault>
    ensures { Lists S.view op.now (λ l. Ok (map row.Granted l.granted)) store.old store.new result }
{
    let rows = store.granted(op.as_str())?;
    Ok(show(alloc, rows)?)
}

fn uses<S: Store>(alloc: Global, store: &mut S, op: &Text) -> Result<Plan, StoreFault>
    ensures { Lists S.view op.now (λ l. Ok (map row.Use l.uses)) store.old store.new result }
{
    let rows = store.uses(op.as_str())?;
    Ok(show(alloc, rows)?)
}

fn readers<S: Store>(alloc: Global, store: &mut S, op: &Text) -> Result<Plan, StoreFault>
    ensures { Lists S.view op.now (λ l. Ok (map row.Reader l.readers)) store.old store.new result }
{
    let rows = store.readers(op.as_str())?;
    Ok(show(alloc, rows)?)
}

fn connectors<S: Store>(
    alloc: Global,
    store: &mut S,
    op: &Text,
    station: &Text,
) -> Result<Plan, StoreFault>
    ensures { Lists S.view op.now (λ l. of_station (l.registration station.now) (map row.Connector (l.connectors station.now))) store.old store.new result }
{
    if store.station(op.as_str(), station.as_str())?.is_none() {
        return Ok(no_station(alloc)?);
    }
    let rows = store.connectors(op.as_str(), station.as_str())?;
    Ok(show(alloc, rows)?)
}

fn open_transactions<S: Store>(alloc: Global, store: &mut S, op: &Text) -> Result<Plan, StoreFault>
    ensures { Lists S.view op.now (λ l. Ok (map row.Transaction l.open_txs)) store.old store.new result }
{
    let rows = store.open_txs(op.as_str())?;
    Ok(show(alloc, rows)?)
}

fn transactions<S: Store>(
    alloc: Global,
    store: &mut S,
    op: &Text,
    station: &Text,
    first: u32,
) -> Result<Plan, StoreFault>
    ensures { Lists S.view op.now (λ l. of_station (l.registration station.now) (map row.Transaction (l.txs station.now first))) store.old store.new result }
{
    if store.station(op.as_str(), station.as_str())?.is_none() {
        return Ok(no_station(alloc)?);
    }
    let rows = store.txs(op.as_str(), station.as_str(), first)?;
    Ok(show(alloc, rows)?)
}

fn readings<S: Store>(
    alloc: Global,
    store: &mut S,
    op: &Text,
    station: &Text,
    transaction: Option<u64>,
) -> Result<Plan, StoreFault>
    ensures { Lists S.view op.now (λ l. of_station (l.registration station.now) (reading_rows (l.meter_values station.now transaction))) store.old store.new result }
{
    if store.station(op.as_str(), station.as_str())?.is_none() {
        return Ok(no_station(alloc)?);
    }
    let rows = store.meter_values(op.as_str(), station.as_str(), transaction)?;
    Ok(show_readings(alloc, rows)?)
}

/// The plan that shows the readings of meter values.
fn show_readings(alloc: Global, rows: Listed<MeterValueRow>) -> Mem<Plan>
    ensures { IfOk result (λ p. p ≡ list_plan (Ok (reading_rows rows))) }
{
    let mut said = Listed::new(alloc);
    add_readings(alloc, &mut said, rows)?;
    said.push(Said::Accepted { number: None })?;
    Ok(Plan {
        said,
        effect: Effect::Nothing,
    })
}

fn add_readings(alloc: Global, said: &mut Listed<Said>, rows: Listed<MeterValueRow>) -> Mem<()>
    ensures { OnOk result (said.new ≡ said.old ++ map Said.Row (reading_rows rows)) }
{
    for row in rows.into_vec() {
        add_rows(alloc, said, readings_of(alloc, row)?)?;
    }
    Ok(())
}

/// The readings of a meter value, in the order of their numbers.
#[tactic(auto, using(crate::proofs::ReadingLaws::one_more))]
fn readings_of(alloc: Global, meter_value: MeterValueRow) -> Mem<Listed<ReadingRow>>
    ensures { IfOk result (λ list. list ≡ readings_of meter_value) }
{
    let station = meter_value.station;
    let value = meter_value.value;
    let mut list = Listed::new(alloc);
    let mut number = u64::from(meter_value.first);
    for sampled in value.sampled.into_vec() {
        list.push(ReadingRow {
            station: station.clone()?,
            number,
            connector: value.connector,
            transaction: value.transaction,
            at: value.at,
            sampled,
        })?;
        number += 1;
    }
    Ok(list)
}

fn reservations<S: Store>(
    alloc: Global,
    store: &mut S,
    op: &Text,
    station: &Text,
    moment: Moment,
) -> Result<Plan, StoreFault>
    ensures { Lists S.view op.now (λ l. of_station (l.registration station.now) (map row.Reservation (current moment (l.reservations station.now)))) store.old store.new result }
{
    if store.station(op.as_str(), station.as_str())?.is_none() {
        return Ok(no_station(alloc)?);
    }
    let rows = store.reservations(op.as_str(), station.as_str())?;
    Ok(show(alloc, current(alloc, moment, rows)?)?)
}

/// The reservations that count at a moment.
fn current(
    alloc: Global,
    moment: Moment,
    rows: Listed<ReservationRow>,
) -> Mem<Listed<ReservationRow>>
    ensures { IfOk result (λ l. l ≡ current moment rows) }
{
    let mut list = Listed::new(alloc);
    for row in rows.into_vec() {
        if is_shown(moment, &row) {
            list.push(row)?;
        }
    }
    Ok(list)
}

fn is_shown(moment: Moment, row: &ReservationRow) -> bool
    ensures { result ≡ is_current moment row.now.reservation.expiry }
{
    is_current(moment, row.reservation.expiry)
}

fn local_list<S: Store>(
    alloc: Global,
    store: &mut S,
    op: &Text,
    station: &Text,
) -> Result<Plan, StoreFault>
    ensures { Lists S.view op.now (λ l. of_station (l.registration station.now) (list_rows station.now (l.local_list station.now))) store.old store.new result }
{
    if store.station(op.as_str(), station.as_str())?.is_none() {
        return Ok(no_station(alloc)?);
    }
    let list = store.local_list(op.as_str(), station.as_str())?;
    Ok(show_list(alloc, station, list)?)
}

/// The plan that shows a local list: its version, 0 where there is none, and its entries.
fn show_list(alloc: Global, station: &Text, list: Option<LocalList>) -> Mem<Plan>
    ensures { IfOk result (λ p. p ≡ list_plan (Ok (list_rows station.now list))) }
{
    let (version, entries) = match list {
        Some(list) => (list.version, list.entries),
        None => (0, Listed::new(alloc)),
    };
    let mut said = Listed::new(alloc);
    let row = Row::LocalList {
        station: station.clone()?,
        version,
    };
    said.push(Said::Row(Boxed::new(alloc, row)?))?;
    add_entries(alloc, &mut said, station, entries)?;
    said.push(Said::Accepted { number: None })?;
    Ok(Plan {
        said,
        effect: Effect::Nothing,
    })
}

fn add_entries(
    alloc: Global,
    said: &mut Listed<Said>,
    station: &Text,
    entries: Listed<LocalTag>,
) -> Mem<()>
    ensures { OnOk result (said.new ≡ said.old ++ map Said.Row (map (row.LocalTag station.now) entries)) }
{
    for entry in entries.into_vec() {
        let station = station.clone()?;
        let row = Boxed::new(alloc, Row::LocalTag { station, entry })?;
        said.push(Said::Row(row))?;
    }
    Ok(())
}

fn reports<S: Store>(
    alloc: Global,
    store: &mut S,
    op: &Text,
    station: &Text,
) -> Result<Plan, StoreFault>
    ensures { Lists S.view op.now (λ l. of_station (l.registration station.now) (map row.Report (l.reports station.now))) store.old store.new result }
{
    if store.station(op.as_str(), station.as_str())?.is_none() {
        return Ok(no_station(alloc)?);
    }
    let rows = store.reports(op.as_str(), station.as_str())?;
    Ok(show(alloc, rows)?)
}

fn forgettable<S: Store>(
    alloc: Global,
    store: &mut S,
    at: &StationAt<'_>,
    until: Moment,
) -> Result<Plan, StoreFault>
    ensures { Lists S.view at.now.op.now (λ l. history_rows (forget_rule at.now.station.now until at.now.moment l)) store.old store.new result }
{
    match plan_forget(store, at, until)? {
        Ok(history) => Ok(show_history(alloc, history)?),
        Err(refusal) => Ok(Plan::only(alloc, Said::Refused(refusal))?),
    }
}

/// The plan that shows a station's history: its readings, then its transactions.
fn show_history(alloc: Global, history: History) -> Mem<Plan>
    ensures { IfOk result (λ p. p ≡ list_plan (history_rows (Ok history))) }
{
    let mut said = Listed::new(alloc);
    add_readings(alloc, &mut said, history.meter_values)?;
    add_rows(alloc, &mut said, history.transactions)?;
    said.push(Said::Accepted { number: None })?;
    Ok(Plan {
        said,
        effect: Effect::Nothing,
    })
}

fn no_station(alloc: Global) -> Mem<Plan>
    ensures { IfOk result (λ p. p ≡ list_plan (Err Refusal.NoSuchStation)) }
{
    Plan::only(alloc, Said::Refused(Refusal::NoSuchStation))
}

/// The plan that shows rows.
fn show<R: Shown>(alloc: Global, rows: Listed<R>) -> Mem<Plan>
    ensures { IfOk result (λ p. p ≡ list_plan (Ok (map R.as_row rows))) }
{
    let mut said = Listed::new(alloc);
    add_rows(alloc, &mut said, rows)?;
    said.push(Said::Accepted { number: None })?;
    Ok(Plan {
        said,
        effect: Effect::Nothing,
    })
}

fn add_rows<R: Shown>(alloc: Global, said: &mut Listed<Said>, rows: Listed<R>) -> Mem<()>
    ensures { OnOk result (said.new ≡ said.old ++ map Said.Row (map R.as_row rows)) }
{
    for row in rows.into_vec() {
        let row = Boxed::new(alloc, row.into_row())?;
        said.push(Said::Row(row))?;
    }
    Ok(())
}

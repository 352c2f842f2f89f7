//! The forms of listings (docs/RULES.md, Lines).
ghost use Rattle.std.specs.Prelude.{◌≡◌, IfOk};
ghost use Rattle.lines.specs.Forms.{list_form, plain_list, station_list_form, connectors_form, transactions_form, later_transactions_form, readings_form, numbered_readings_form, reservations_form, local_list_form, reports_form, forgettable_form};

use crate::words::{first_word, moment_at, name_of, number_of, transaction_number};
use hub_events::{Listing, What};
use ocpp_types::{Mem, Text};
use std::alloc::Global;

/// What follows `list`.
pub fn list(alloc: Global, rest: &str) -> Mem<Option<What>>
    ensures { IfOk result (λ w. w ≡ list_form rest.now) }
{
    match plain_list(rest) {
        Some(what) => Ok(Some(what)),
        None => station_list_form(alloc, rest),
    }
}

/// A listing of the operator, which names no station.
fn plain_list(rest: &str) -> Option<What>
    ensures { result ≡ plain_list rest.now }
{
    match rest {
        "stations" => Some(What::List(Listing::Stations)),
        "connections" => Some(What::Connections),
        "tags" => Some(What::List(Listing::Tags)),
        "grants" => Some(What::List(Listing::Grants)),
        "granted" => Some(What::List(Listing::Granted)),
        "uses" => Some(What::List(Listing::Uses)),
        "open" => Some(What::List(Listing::OpenTransactions)),
        "readers" => Some(What::List(Listing::Readers)),
        _ => None,
    }
}

fn station_list_form(alloc: Global, rest: &str) -> Mem<Option<What>>
    ensures { IfOk result (λ w. w ≡ station_list_form rest.now) }
{
    let Some((word, rest)) = first_word(rest) else {
        return Ok(None);
    };
    match word {
        "connectors" => connectors(alloc, rest),
        "transactions" => transactions(alloc, rest),
        "readings" => readings(alloc, rest),
        "reservations" => reservations(alloc, rest),
        "locallist" => local_list(alloc, rest),
        "reports" => reports(alloc, rest),
        "forgettable" => forgettable(alloc, rest),
        _ => Ok(None),
    }
}

fn connectors(alloc: Global, rest: &str) -> Mem<Option<What>>
    ensures { IfOk result (λ w. w ≡ connectors_form rest.now) }
{
    let Some(station) = name_of(alloc, rest)? else {
        return Ok(None);
    };
    Ok(Some(What::List(Listing::Connectors { station })))
}

fn transactions(alloc: Global, rest: &str) -> Mem<Option<What>>
    ensures { IfOk result (λ w. w ≡ transactions_form rest.now) }
{
    let Some(station) = name_of(alloc, rest)? else {
        return later_transactions_form(alloc, rest);
    };
    Ok(Some(What::List(Listing::Transactions { station, first: 0 })))
}

/// The transactions from a number on.
fn later_transactions_form(alloc: Global, rest: &str) -> Mem<Option<What>>
    ensures { IfOk result (λ w. w ≡ later_transactions_form rest.now) }
{
    let Some((station, rest)) = first_word(rest) else {
        return Ok(None);
    };
    let Some(first) = transaction_number(rest) else {
        return Ok(None);
    };
    Ok(Some(What::List(Listing::Transactions {
        station: Text::copy_of(alloc, station)?,
        first,
    })))
}

fn readings(alloc: Global, rest: &str) -> Mem<Option<What>>
    ensures { IfOk result (λ w. w ≡ readings_form rest.now) }
{
    let Some(station) = name_of(alloc, rest)? else {
        return numbered_readings_form(alloc, rest);
    };
    Ok(Some(What::List(Listing::Readings {
        station,
        transaction: None,
    })))
}

/// The readings sent with the number of a transaction.
fn numbered_readings_form(alloc: Global, rest: &str) -> Mem<Option<What>>
    ensures { IfOk result (λ w. w ≡ numbered_readings_form rest.now) }
{
    let Some((station, rest)) = first_word(rest) else {
        return Ok(None);
    };
    let Some(number) = number_of(rest) else {
        return Ok(None);
    };
    Ok(Some(What::List(Listing::Readings {
        station: Text::copy_of(alloc, station)?,
        transaction: Some(number),
    })))
}

fn reservations(alloc: Global, rest: &str) -> Mem<Option<What>>
    ensures { IfOk result (λ w. w ≡ reservations_form rest.now) }
{
    let Some(station) = name_of(alloc, rest)? else {
        return Ok(None);
    };
    Ok(Some(What::List(Listing::Reservations { station })))
}

fn local_list(alloc: Global, rest: &str) -> Mem<Option<What>>
    ensures { IfOk result (λ w. w ≡ local_list_form rest.now) }
{
    let Some(station) = name_of(alloc, rest)? else {
        return Ok(None);
    };
    Ok(Some(What::List(Listing::LocalList { station })))
}

fn reports(alloc: Global, rest: &str) -> Mem<Option<What>>
    ensures { IfOk result (λ w. w ≡ reports_form rest.now) }
{
    let Some(station) = name_of(alloc, rest)? else {
        return Ok(None);
    };
    Ok(Some(What::List(Listing::Reports { station })))
}

fn forgettable(alloc: Global, rest: &str) -> Mem<Option<What>>
    ensures { IfOk result (λ w. w ≡ forgettable_form rest.now) }
{
    let Some((station, until)) = first_word(rest) else {
        return Ok(None);
    };
    let Some(until) = moment_at(until) else {
        return Ok(None);
    };
    let station = Text::copy_of(alloc, station)?;
    Ok(Some(What::List(Listing::Forgettable { station, until })))
}

//! Lines of listings (docs/TABLES.md, Listing lines).
ghost use Rattle.std.specs.Prelude.{◌≡◌, IfOk, Some, false, option_map, string_bytes};
ghost use Rattle.std.specs.Fmt.{signed_decimal};
ghost use Rattle.serde_json.specs.View.{view};
ghost use Rattle.serde_json.specs.Written.{has_float};
ghost use Rattle.ocpp_types.specs.Phase.{phase_name};
ghost use Rattle.ocpp_types.specs.UnitOfMeasure.{unit_of_measure_name};
ghost use Rattle.hub_rows.specs.Reservations.{unshifted};
ghost use Rattle.lines.specs.RowLines.{row_line, station_line, tag_line, grant_line, granted_line, use_line, connector_line, tx_line, reading_line, reservation_line, local_tag_line, report_line, reader_line, entry_data, report_fields, reservation_fields, start_fields, stop_fields, taken_fields, sampled_fields, meaning_fields, name_field, micro_of};

use crate::fields::{
    Signed, boot_field, mark, moment_field, quoted, signed_field, text_field, widened,
};
use hub_events::{ReadingRow, Row};
use hub_rows::{
    ConnectorReport, ConnectorRow, GrantRow, GrantedTag, LocalTag, ReaderRow, ReportRow,
    Reservation, ReservationId, ReservationRow, Start, StationRow, Stop, TagRow, TxRow, UseRow,
};
use ocpp_payload::Tabled;
use ocpp_types::{Mem, Named, Phase, SampledValue, Text, UnitOfMeasure, ValueFormat, read_micro};
use serde_json::{Map, Value, put};
use std::alloc::Global;
use std::fmt;

/// The line of a row, without a line feed.
pub fn print_row(alloc: Global, op: &Text, row: &Row) -> Mem<String>
    ensures { IfOk result (λ s. string_bytes s ≡ row_line op.now row.now) }
{
    match row {
        Row::Station(row) => print_station(alloc, op, row),
        Row::Tag(row) => print_tag(alloc, op, row),
        Row::Grant(row) => print_grant(alloc, op, row),
        Row::Granted(tag) => print_granted(alloc, op, tag),
        Row::Use(row) => print_use(alloc, op, row),
        Row::Connector(row) => print_connector(alloc, op, row),
        Row::Transaction(row) => print_transaction(alloc, op, row),
        Row::Reading(row) => print_reading(alloc, op, row),
        Row::Reservation(row) => print_reservation(alloc, op, row),
        Row::LocalList { station, version } => {
            Ok(format!(in alloc; "{op} row locallist {station} {version}")?)
        }
        Row::LocalTag { station, entry } => print_local_tag(alloc, op, station, entry),
        Row::Report(row) => print_report(alloc, op, row),
        Row::Reader(row) => print_reader(alloc, op, row),
        Row::Connection { station, calls } => {
            Ok(format!(in alloc; "{op} row connection {station} {calls}")?)
        }
        Row::Forgotten {
            station,
            transactions,
            readings,
        } => Ok(format!(in alloc; "{op} row forgotten {station} {transactions} {readings}")?),
    }
}

fn print_station(alloc: Global, op: &Text, row: &StationRow) -> Mem<String>
    ensures { IfOk result (λ s. string_bytes s ≡ station_line op.now row.now) }
{
    let station = row.station.as_str();
    let state = row.state.name();
    let policy = row.policy.name();
    let interval = row.interval;
    let boot = boot_field(alloc, &row.boot)?;
    Ok(format!(in alloc; "{op} row station {station} {state} {policy} {interval} {boot}")?)
}

fn print_tag(alloc: Global, op: &Text, row: &TagRow) -> Mem<String>
    ensures { IfOk result (λ s. string_bytes s ≡ tag_line op.now row.now) }
{
    let text = quoted(alloc, row.tag.text.as_str())?;
    let parent = text_field(alloc, &row.tag.parent)?;
    let blocked = mark(row.tag.blocked);
    let expiry = moment_field(alloc, row.tag.expiry)?;
    Ok(format!(in alloc; "{op} row tag {text} {parent} {blocked} {expiry}")?)
}

fn print_grant(alloc: Global, op: &Text, row: &GrantRow) -> Mem<String>
    ensures { IfOk result (λ s. string_bytes s ≡ grant_line op.now row.now) }
{
    let key = quoted(alloc, row.key.as_str())?;
    let to = row.to.as_str();
    let until = moment_field(alloc, row.until)?;
    Ok(format!(in alloc; "{op} row grant {key} {to} {until}")?)
}

fn print_granted(alloc: Global, op: &Text, tag: &GrantedTag) -> Mem<String>
    ensures { IfOk result (λ s. string_bytes s ≡ granted_line op.now tag.now) }
{
    let owner = tag.owner.as_str();
    let text = quoted(alloc, tag.info.text.as_str())?;
    let parent = text_field(alloc, &tag.info.parent)?;
    let blocked = mark(tag.info.blocked);
    let expiry = moment_field(alloc, tag.info.expiry)?;
    Ok(format!(in alloc; "{op} row granted {owner} {text} {parent} {blocked} {expiry}")?)
}

fn print_use(alloc: Global, op: &Text, row: &UseRow) -> Mem<String>
    ensures { IfOk result (λ s. string_bytes s ≡ use_line op.now row.now) }
{
    let number = row.number;
    let host = row.host.as_str();
    let key = quoted(alloc, row.key.as_str())?;
    let moment = row.moment.seconds();
    let wh = row.wh;
    Ok(format!(in alloc; "{op} row use {number} {host} {key} {moment} {wh}")?)
}

fn print_connector(alloc: Global, op: &Text, row: &ConnectorRow) -> Mem<String>
    ensures { IfOk result (λ s. string_bytes s ≡ connector_line op.now row.now) }
{
    let station = row.station.as_str();
    let connector = row.connector;
    let report = print_reported(alloc, &row.report)?;
    Ok(format!(in alloc; "{op} row connector {station} {connector} {report}")?)
}

fn print_reported(alloc: Global, report: &ConnectorReport) -> Mem<String>
    ensures { IfOk result (λ s. string_bytes s ≡ report_fields report.now) }
{
    let status = report.status.name();
    let error = report.error_code.name();
    let at = report.at;
    let info = text_field(alloc, &report.info)?;
    let vendor = text_field(alloc, &report.vendor_id)?;
    let code = text_field(alloc, &report.vendor_error_code)?;
    Ok(format!(in alloc; "{status} {error} {at} {info} {vendor} {code}")?)
}

fn print_transaction(alloc: Global, op: &Text, row: &TxRow) -> Mem<String>
    ensures { IfOk result (λ s. string_bytes s ≡ tx_line op.now row.now) }
{
    let station = row.station.as_str();
    let number = row.number;
    let start = print_start(alloc, &row.start)?;
    let stop = print_stop(alloc, &row.stop)?;
    Ok(format!(in alloc; "{op} row transaction {station} {number} {start} {stop}")?)
}

fn print_start(alloc: Global, start: &Start) -> Mem<String>
    ensures { IfOk result (λ s. string_bytes s ≡ start_fields start.now) }
{
    let connector = start.id.connector;
    let tag = quoted(alloc, start.tag.as_str())?;
    let status = start.status.name();
    let meter = start.id.meter_start;
    let at = start.id.at;
    let reservation = signed_field(alloc, widened(start.reservation))?;
    Ok(format!(in alloc; "{connector} {tag} {status} {meter} {at} {reservation}")?)
}

fn print_stop(alloc: Global, stop: &Option<Stop>) -> Mem<String>
    ensures { IfOk result (λ s. string_bytes s ≡ stop_fields stop.now) }
{
    let Some(stop) = stop else {
        return Ok(String::from_str(alloc, "- - - -")?);
    };
    let meter = stop.meter_stop;
    let at = stop.at;
    let reason = stop.reason.name();
    let tag = text_field(alloc, &stop.tag)?;
    Ok(format!(in alloc; "{meter} {at} {reason} {tag}")?)
}

fn print_reading(alloc: Global, op: &Text, row: &ReadingRow) -> Mem<String>
    ensures { IfOk result (λ s. string_bytes s ≡ reading_line op.now row.now) }
{
    let station = row.station.as_str();
    let number = row.number;
    let taken = Taken(row);
    let sampled = print_sampled(alloc, &row.sampled)?;
    Ok(format!(in alloc; "{op} row reading {station} {number} {taken} {sampled}")?)
}

/// Of what a reading was taken, and when.
#[derive(Drop)]
struct Taken<'a>(&'a ReadingRow);

impl fmt::Display for Taken<'_> {
    ghost output = { λ taken. Some (taken_fields taken.0.now) };

    fn fmt<W: fmt::Write>(&self, f: &mut fmt::Formatter<W>) -> fmt::Result {
        let connector = self.0.connector;
        let transaction = Signed(widened(self.0.transaction));
        let at = self.0.at;
        write!(f, "{connector} {transaction} {at}")
    }
}

#[tactic(auto, unfolding(crate::specs::RowLines::sampled_fields))]
fn print_sampled(alloc: Global, sampled: &SampledValue) -> Mem<String>
    ensures { IfOk result (λ s. string_bytes s ≡ sampled_fields sampled.now) }
{
    let meaning = Meaning(sampled);
    let micro = Signed(micro_of(sampled));
    let text = quoted(alloc, sampled.value.as_str())?;
    Ok(format!(in alloc; "{meaning} {micro} {text}")?)
}

/// What the number of a reading means.
#[derive(Drop)]
struct Meaning<'a>(&'a SampledValue);

impl fmt::Display for Meaning<'_> {
    ghost output = { λ meaning. Some (meaning_fields meaning.0.now) };

    fn fmt<W: fmt::Write>(&self, f: &mut fmt::Formatter<W>) -> fmt::Result {
        let context = self.0.context.name();
        let format = self.0.format.name();
        let measurand = self.0.measurand.name();
        let phase = phase_field(self.0.phase);
        let location = self.0.location.name();
        let unit = unit_field(self.0.unit);
        write!(
            f,
            "{context} {format} {measurand} {phase} {location} {unit}"
        )
    }
}

fn phase_field(phase: Option<Phase>) -> &'static str
    ensures { result.now ≡ name_field (option_map phase_name phase) }
{
    match phase {
        Some(phase) => phase.name(),
        None => "-",
    }
}

fn unit_field(unit: Option<UnitOfMeasure>) -> &'static str
    ensures { result.now ≡ name_field (option_map unit_of_measure_name unit) }
{
    match unit {
        Some(unit) => unit.name(),
        None => "-",
    }
}

/// The number of a reading, which signed data has none of.
fn micro_of(sampled: &SampledValue) -> Option<i128>
    ensures { result ≡ micro_of sampled.now.format sampled.now.value sampled.now.unit }
{
    match sampled.format {
        ValueFormat::Raw => read_micro(sampled.value.as_str(), sampled.unit),
        ValueFormat::SignedData => None,
    }
}

fn print_reservation(alloc: Global, op: &Text, row: &ReservationRow) -> Mem<String>
    ensures { IfOk result (λ s. string_bytes s ≡ reservation_line op.now row.now) }
{
    let station = row.station.as_str();
    let id = id_text(alloc, row.id)?;
    let fields = print_reserved(alloc, &row.reservation)?;
    Ok(format!(in alloc; "{op} row reservation {station} {id} {fields}")?)
}

fn id_text(alloc: Global, id: ReservationId) -> Mem<String>
    ensures { IfOk result (λ s. string_bytes s ≡ signed_decimal (unshifted id)) }
{
    let number = widened(Some(id.get()));
    let text = signed_field(alloc, number)?;
    Ok(text)
}

fn print_reserved(alloc: Global, reservation: &Reservation) -> Mem<String>
    ensures { IfOk result (λ s. string_bytes s ≡ reservation_fields reservation.now) }
{
    let connector = reservation.connector;
    let tag = quoted(alloc, reservation.tag.as_str())?;
    let parent = text_field(alloc, &reservation.parent)?;
    let expiry = reservation.expiry.seconds();
    Ok(format!(in alloc; "{connector} {tag} {parent} {expiry}")?)
}

fn print_local_tag(alloc: Global, op: &Text, station: &Text, entry: &LocalTag) -> Mem<String>
    ensures { IfOk result (λ s. string_bytes s ≡ local_tag_line op.now station.now entry.now) }
{
    let entry = entry_value(alloc, entry)?.to_string(alloc)?;
    Ok(format!(in alloc; "{op} row localtag {station} {entry}")?)
}

fn entry_value(alloc: Global, entry: &LocalTag) -> Mem<Value>
    ensures data { IfOk result (λ v. view v ≡ entry_data entry.now) }
    ensures no_float { IfOk result (λ v. has_float (view v) ≡ false) }
{
    let value = entry_object(alloc, entry)?;
    Ok(value)
}

fn entry_object(alloc: Global, entry: &LocalTag) -> Mem<Value>
    ensures { IfOk result (λ v. view v ≡ entry_data entry.now) }
{
    let mut members = Map::new(alloc);
    let tag = String::from_str(alloc, entry.tag.as_str())?;
    put(&mut members, alloc, "idTag", Value::String(tag))?;
    let info = entry.info.write(alloc)?;
    put(&mut members, alloc, "idTagInfo", info)?;
    Ok(Value::Object(members))
}

fn print_reader(alloc: Global, op: &Text, row: &ReaderRow) -> Mem<String>
    ensures { IfOk result (λ s. string_bytes s ≡ reader_line op.now row.now) }
{
    let station = row.station.as_str();
    let reader = row.reader.name();
    Ok(format!(in alloc; "{op} row reader {station} {reader}")?)
}

fn print_report(alloc: Global, op: &Text, row: &ReportRow) -> Mem<String>
    ensures { IfOk result (λ s. string_bytes s ≡ report_line op.now row.now) }
{
    let station = row.station.as_str();
    let kind = row.status.kind();
    let status = row.status.name();
    let moment = row.moment.seconds();
    Ok(format!(in alloc; "{op} row report {station} {kind} {status} {moment}")?)
}

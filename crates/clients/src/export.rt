//! Rows of a station's history, written as CSV before they go (RFC 4180).

use crate::fault::ClientFault;
use crate::reply::{leading_number, row_of_station};
use csv::{Error, ErrorKind, Terminator, Writer, WriterBuilder};
use serde_json::Value;
use std::alloc::Global;
use std::fs;
use std::fs::{File, OpenOptions};

/// The columns of transactions: the words of `list transactions` (docs/TABLES.md, Listing lines).
const TRANSACTIONS: &[&str] = &[
    "station",
    "number",
    "connector",
    "tag",
    "status",
    "meter start",
    "start at",
    "reservation",
    "meter stop",
    "stop at",
    "reason",
    "stop tag",
];

/// The columns of readings: the words of `list readings`.
const READINGS: &[&str] = &[
    "station",
    "number",
    "connector",
    "transaction",
    "at",
    "context",
    "format",
    "measurand",
    "phase",
    "location",
    "unit",
    "micro",
    "text",
];

/// The numbers of the last reading and the last transaction that were written of a station, 0 where there is none.
#[derive(Clone, Copy, Debug, Default, PartialEq, Eq, Drop)]
pub struct Written {
    pub reading: u64,
    pub transaction: u64,
}

/// Two files, one of transactions and one of readings.
#[derive(Drop)]
pub struct Export {
    transactions: Writer<File>,
    readings: Writer<File>,
}

impl Export {
    /// Opens NAME-transactions.csv and NAME-readings.csv, to write after what is there. A new one begins with the names
    /// of its columns. Errors: a file can't be opened or written.
    pub fn to(rt: &HostRuntime, name: &str) -> Result<Export, ClientFault> {
        let transactions = format!(in rt.alloc(); "{name}-transactions.csv")?;
        let readings = format!(in rt.alloc(); "{name}-readings.csv")?;
        Ok(Export {
            transactions: writer_to(rt, transactions.as_str(), TRANSACTIONS)?,
            readings: writer_to(rt, readings.as_str(), READINGS)?,
        })
    }

    /// Writes the row of a text `OP row transaction ST ..` or `OP row reading ST ..`, and notes its number. Other texts
    /// are passed over.
    pub fn add(
        &mut self,
        alloc: Global,
        operator: &str,
        station: &str,
        text: &str,
        written: &mut Written,
    ) -> Result<(), ClientFault> {
        if let Some(row) = row_of_station(operator, "transaction", station, text) {
            write_row(alloc, &mut self.transactions, station, row)?;
            written.transaction = leading_number(row).unwrap_or(0);
        } else if let Some(row) = row_of_station(operator, "reading", station, text) {
            write_row(alloc, &mut self.readings, station, row)?;
            written.reading = leading_number(row).unwrap_or(0);
        }
        Ok(())
    }

    /// Ends once what was written is on the disk.
    pub fn sync(&mut self) -> Result<(), ClientFault> {
        self.transactions.flush()?;
        self.readings.flush()?;
        self.transactions.get_ref().sync_all()?;
        self.readings.get_ref().sync_all()?;
        Ok(())
    }
}

fn writer_to(rt: &HostRuntime, path: &str, columns: &[&str]) -> Result<Writer<File>, ClientFault> {
    let file = OpenOptions::new().append(true).create(true).open(rt, path)?;
    let is_new = fs::metadata(rt, path)?.len() == 0;
    let mut writer = WriterBuilder::new()
        .flexible(true)
        .terminator(Terminator::CRLF)
        .from_writer(file);
    if is_new {
        write_names(&mut writer, columns)?;
    }
    Ok(writer)
}

fn write_names(writer: &mut Writer<File>, columns: &[&str]) -> Result<(), Error> {
    for column in columns {
        writer.write_field(column.as_bytes())?;
    }
    writer.end_record()
}

/// Writes a record: the station, and the words of a row that follow it.
fn write_row(
    alloc: Global,
    writer: &mut Writer<File>,
    station: &str,
    row: &str,
) -> Result<(), ClientFault> {
    writer.write_field(station.as_bytes())?;
    let mut left = row;
    for _ in 0..=row.len() {
        let end = word_end(left);
        write_word(alloc, writer, left.get(..end).unwrap_or(left))?;
        match left.get(end.saturating_add(1)..) {
            Some(rest) => left = rest,
            None => break,
        }
    }
    Ok(writer.end_record()?)
}

/// Where the first word of a row ends: at a space, or if it begins with a quote, after the JSON text that it is.
fn word_end(row: &str) -> usize {
    let is_text = row.as_bytes().first() == Some(&b'"');
    let mut is_escaped = false;
    for (place, byte) in row.bytes().enumerate() {
        if byte == b' ' && !is_text {
            return place;
        }
        if byte == b'"' && is_text && !is_escaped && place > 0 {
            return place + 1;
        }
        is_escaped = byte == b'\\' && !is_escaped;
    }
    row.len()
}

/// Writes a word as a field: none for `-`, and of a JSON text what it says.
fn write_word(alloc: Global, writer: &mut Writer<File>, word: &str) -> Result<(), ClientFault> {
    if word == "-" {
        return Ok(writer.write_field(b"")?);
    }
    match Value::from_str(alloc, word) {
        Ok(Value::String(text)) => write_text(alloc, writer, text.as_str()),
        _ => Ok(writer.write_field(word.as_bytes())?),
    }
}

/// Writes a text of a station or of an operator. One that a spreadsheet would take for a formula has an apostrophe
/// before it.
fn write_text(alloc: Global, writer: &mut Writer<File>, text: &str) -> Result<(), ClientFault> {
    match text.as_bytes().first() {
        Some(b'=' | b'+' | b'-' | b'@' | b'\t' | b'\r' | b'\n') => {
            let guarded = format!(in alloc; "'{text}")?;
            Ok(writer.write_field(guarded.as_bytes())?)
        }
        _ => Ok(writer.write_field(text.as_bytes())?),
    }
}

impl From<Error> for ClientFault {
    fn from(fault: Error) -> ClientFault {
        match fault.into_kind() {
            ErrorKind::Io(error) => ClientFault::Export(error),
            _ => ClientFault::NoMemory,
        }
    }
}

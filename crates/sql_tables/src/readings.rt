//! hub_reading: meter readings, up to schema 3. Since schema 4 it is empty.

/// A text with the names of all columns, in their order, between the two parts.
macro_rules! with_columns {
    ($before:literal, $after:literal) => {
        concat!($before, "op, station, number, connector, transaction_id, at, context, format, measurand, phase, location, unit, value", $after)
    };
}

pub const CREATE: &str =
    "CREATE TABLE hub_reading (op TEXT NOT NULL, station TEXT NOT NULL, number INTEGER NOT NULL, connector INTEGER NOT NULL, transaction_id INTEGER, at INTEGER NOT NULL, context TEXT NOT NULL, format TEXT NOT NULL, measurand TEXT NOT NULL, phase TEXT, location TEXT NOT NULL, unit TEXT, value TEXT NOT NULL, PRIMARY KEY (op, station, number)) STRICT";

/// The index by the transaction.
pub const CREATE_TRANSACTION: &str =
    "CREATE INDEX hub_reading_transaction ON hub_reading (op, station, transaction_id, number)";

pub const DROP_TRANSACTION: &str = "DROP INDEX hub_reading_transaction";

/// One of all readings.
pub const ANY: &str = with_columns!("SELECT ", " FROM hub_reading LIMIT 1");

/// Drops the readings of a station whose numbers lie in a range.
pub const DROP: &str =
    "DELETE FROM hub_reading WHERE op = ?1 AND station = ?2 AND number BETWEEN ?3 AND ?4";

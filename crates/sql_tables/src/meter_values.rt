//! hub_meter_value: meter values.

/// A text with the names of all columns, in their order, between the two parts.
macro_rules! with_columns {
    ($before:literal, $after:literal) => {
        concat!($before, "op, station, first, connector, transaction_id, at, count, sampled", $after)
    };
}

pub const CREATE: &str =
    "CREATE TABLE hub_meter_value (op TEXT NOT NULL, station TEXT NOT NULL, first INTEGER NOT NULL, connector INTEGER NOT NULL, transaction_id INTEGER, at INTEGER NOT NULL, count INTEGER NOT NULL, sampled TEXT NOT NULL, PRIMARY KEY (op, station, first)) STRICT";

/// The index by the transaction.
pub const CREATE_TRANSACTION: &str =
    "CREATE INDEX hub_meter_value_transaction ON hub_meter_value (op, station, transaction_id, first)";

pub const DROP_TRANSACTION: &str = "DROP INDEX hub_meter_value_transaction";

/// The numbers of the last meter value of a station: its first number, and how many readings it is.
pub const LAST_NUMBERS: &str =
    "SELECT first, count FROM hub_meter_value WHERE op = ?1 AND station = ?2 ORDER BY first DESC LIMIT 1";

/// The same of the last one that was sent with the number of a transaction.
pub const LAST_NUMBERS_OF_TX: &str =
    "SELECT first, count FROM hub_meter_value WHERE op = ?1 AND station = ?2 AND transaction_id = ?3 ORDER BY first DESC LIMIT 1";

/// The first meter values of a station, from a number on.
pub const PAGE: &str = with_columns!(
    "SELECT ",
    " FROM hub_meter_value WHERE op = ?1 AND station = ?2 AND first >= ?3 ORDER BY first LIMIT 256"
);

/// The first meter value of a station, from a number on.
pub const NEXT: &str = with_columns!(
    "SELECT ",
    " FROM hub_meter_value WHERE op = ?1 AND station = ?2 AND first >= ?3 ORDER BY first LIMIT 1"
);

/// A page of those that were sent with the number of a transaction.
pub const PAGE_OF_TX: &str = with_columns!(
    "SELECT ",
    " FROM hub_meter_value WHERE op = ?1 AND station = ?2 AND transaction_id = ?3 AND first >= ?4 ORDER BY first LIMIT 256"
);

/// Adds a meter value.
pub const ADD: &str = with_columns!(
    "INSERT INTO hub_meter_value (",
    ") VALUES (?1, ?2, ?3, ?4, ?5, ?6, ?7, ?8)"
);

/// Drops the meter values of a station whose first numbers lie in a range.
pub const DROP: &str =
    "DELETE FROM hub_meter_value WHERE op = ?1 AND station = ?2 AND first BETWEEN ?3 AND ?4";

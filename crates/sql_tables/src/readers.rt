//! hub_reader: how the requests of stations are read.

/// A text with the names of all columns, in their order, between the two parts.
macro_rules! with_columns {
    ($before:literal, $after:literal) => {
        concat!($before, "op, station, reader", $after)
    };
}

pub const CREATE: &str =
    "CREATE TABLE hub_reader (op TEXT NOT NULL, station TEXT NOT NULL, reader TEXT NOT NULL, PRIMARY KEY (op, station)) STRICT";

/// The reader of one station, or those of all stations of an operator.
pub const FIND: &str = with_columns!(
    "SELECT ",
    " FROM hub_reader WHERE op = ?1 AND station BETWEEN ?2 AND ?3 ORDER BY station"
);

/// Puts a reader in place of the one of that station.
pub const PUT: &str = with_columns!(
    "INSERT INTO hub_reader (",
    ") VALUES (?1, ?2, ?3) ON CONFLICT (op, station) DO UPDATE SET reader = excluded.reader"
);

/// Drops the reader of a station.
pub const DROP: &str = "DELETE FROM hub_reader WHERE op = ?1 AND station = ?2";

//! hub_list: the versions of local lists.

/// A text with the names of all columns, in their order, between the two parts.
macro_rules! with_columns {
    ($before:literal, $after:literal) => {
        concat!($before, "op, station, version", $after)
    };
}

pub const CREATE: &str =
    "CREATE TABLE hub_list (op TEXT NOT NULL, station TEXT NOT NULL, version INTEGER NOT NULL, PRIMARY KEY (op, station)) STRICT";

/// The version of a station's local list.
pub const FIND: &str = with_columns!("SELECT ", " FROM hub_list WHERE op = ?1 AND station = ?2");

/// Puts a version in place of the one of that station.
pub const PUT: &str = with_columns!(
    "INSERT INTO hub_list (",
    ") VALUES (?1, ?2, ?3) ON CONFLICT (op, station) DO UPDATE SET version = excluded.version"
);

/// Drops the version of a station's local list, with the entries of that list.
pub const DROP: &str = "DELETE FROM hub_list WHERE op = ?1 AND station = ?2";

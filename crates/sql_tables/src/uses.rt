//! hub_use: settled uses of id tags.

/// A text with the names of all columns, in their order, between the two parts.
macro_rules! with_columns {
    ($before:literal, $after:literal) => {
        concat!($before, "op, number, host, tag_key, moment, wh", $after)
    };
}

pub const CREATE: &str =
    "CREATE TABLE hub_use (op TEXT NOT NULL, number INTEGER NOT NULL, host TEXT NOT NULL, tag_key TEXT NOT NULL, moment INTEGER NOT NULL, wh INTEGER NOT NULL, PRIMARY KEY (op, number)) STRICT";

/// The uses of an owner.
pub const LIST: &str = with_columns!("SELECT ", " FROM hub_use WHERE op = ?1 ORDER BY number");

/// The use of an owner with the last number.
pub const FIND_LAST: &str = with_columns!(
    "SELECT ",
    " FROM hub_use WHERE op = ?1 ORDER BY number DESC LIMIT 1"
);

/// Adds a use.
pub const ADD: &str = with_columns!("INSERT INTO hub_use (", ") VALUES (?1, ?2, ?3, ?4, ?5, ?6)");

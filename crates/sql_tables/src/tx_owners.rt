//! hub_tx_owner: the owners of granted tags with which transactions began.

/// A text with the names of all columns, in their order, between the two parts.
macro_rules! with_columns {
    ($before:literal, $after:literal) => {
        concat!($before, "op, station, number, owner", $after)
    };
}

pub const CREATE: &str =
    "CREATE TABLE hub_tx_owner (op TEXT NOT NULL, station TEXT NOT NULL, number INTEGER NOT NULL, owner TEXT NOT NULL, PRIMARY KEY (op, station, number)) STRICT";

/// The owner of the tag of one transaction.
pub const FIND: &str = with_columns!(
    "SELECT ",
    " FROM hub_tx_owner WHERE op = ?1 AND station = ?2 AND number = ?3"
);

/// Adds an owner.
pub const ADD: &str = with_columns!("INSERT INTO hub_tx_owner (", ") VALUES (?1, ?2, ?3, ?4)");

/// Drops the owners of the tags of a station's transactions whose numbers lie in a range.
pub const DROP: &str =
    "DELETE FROM hub_tx_owner WHERE op = ?1 AND station = ?2 AND number BETWEEN ?3 AND ?4";

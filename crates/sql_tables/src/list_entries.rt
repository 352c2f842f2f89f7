//! hub_list_entry: the entries of local lists.

/// A text with the names of all columns, in their order, between the two parts.
macro_rules! with_columns {
    ($before:literal, $after:literal) => {
        concat!($before, "op, station, tag_key, id_tag, expiry_date, parent_id_tag, status", $after)
    };
}

pub const CREATE: &str =
    "CREATE TABLE hub_list_entry (op TEXT NOT NULL, station TEXT NOT NULL, tag_key TEXT NOT NULL, id_tag TEXT NOT NULL, expiry_date INTEGER, parent_id_tag TEXT, status TEXT NOT NULL, PRIMARY KEY (op, station, tag_key), FOREIGN KEY (op, station) REFERENCES hub_list (op, station) ON DELETE CASCADE) STRICT";

/// The entries of a station's local list.
pub const LIST: &str = with_columns!(
    "SELECT ",
    " FROM hub_list_entry WHERE op = ?1 AND station = ?2 ORDER BY tag_key"
);

/// Adds an entry.
pub const ADD: &str = with_columns!(
    "INSERT INTO hub_list_entry (",
    ") VALUES (?1, ?2, ?3, ?4, ?5, ?6, ?7)"
);

/// Drops the entries of a station's local list.
pub const DROP: &str = "DELETE FROM hub_list_entry WHERE op = ?1 AND station = ?2";

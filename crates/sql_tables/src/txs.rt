//! hub_tx: transactions.

/// A text with the names of all columns, in their order, between the two parts.
macro_rules! with_columns {
    ($before:literal, $after:literal) => {
        concat!($before, "op, station, number, connector, tag_key, meter_start, start_at, id_tag, reservation_id, status, begun, is_open, in_use, meter_stop, stop_at, stop_reason, stop_id_tag, ended", $after)
    };
}

pub const CREATE: &str =
    "CREATE TABLE hub_tx (op TEXT NOT NULL, station TEXT NOT NULL, number INTEGER NOT NULL, connector INTEGER NOT NULL, tag_key TEXT NOT NULL, meter_start INTEGER NOT NULL, start_at INTEGER NOT NULL, id_tag TEXT NOT NULL, reservation_id INTEGER, status TEXT NOT NULL, begun INTEGER NOT NULL, is_open INTEGER NOT NULL, in_use INTEGER NOT NULL, meter_stop INTEGER, stop_at INTEGER, stop_reason TEXT, stop_id_tag TEXT, ended INTEGER, PRIMARY KEY (op, station, number)) STRICT";

/// The index by the tag in use.
pub const CREATE_IN_USE: &str = "CREATE INDEX hub_tx_in_use ON hub_tx (op, tag_key, in_use)";

/// The index by what is open.
pub const CREATE_IS_OPEN: &str = "CREATE INDEX hub_tx_is_open ON hub_tx (op, is_open, station)";

/// The same index up to the earlier form of schema 3.
pub const CREATE_EARLIER_IS_OPEN: &str =
    "CREATE INDEX hub_tx_is_open ON hub_tx (op, station, is_open)";

/// The index by the moment of the start.
pub const CREATE_START_AT: &str =
    "CREATE INDEX hub_tx_start_at ON hub_tx (op, station, start_at, connector, meter_start, tag_key)";

/// The same index up to schema 3.
pub const CREATE_EARLIER_START_AT: &str =
    "CREATE INDEX hub_tx_start_at ON hub_tx (op, station, start_at)";

pub const DROP_IN_USE: &str = "DROP INDEX hub_tx_in_use";

pub const DROP_IS_OPEN: &str = "DROP INDEX hub_tx_is_open";

pub const DROP_START_AT: &str = "DROP INDEX hub_tx_start_at";

/// The transactions of a station whose numbers lie in a range.
pub const FIND: &str = with_columns!(
    "SELECT ",
    " FROM hub_tx WHERE op = ?1 AND station = ?2 AND number BETWEEN ?3 AND ?4 ORDER BY number"
);

/// The last number of a station's transactions.
pub const LAST_NUMBER: &str =
    "SELECT number FROM hub_tx WHERE op = ?1 AND station = ?2 ORDER BY number DESC LIMIT 1";

/// The first transactions of a station, from a number on.
pub const PAGE: &str = with_columns!(
    "SELECT ",
    " FROM hub_tx WHERE op = ?1 AND station = ?2 AND number >= ?3 ORDER BY number LIMIT 256"
);

/// The transactions by which a tag is in use.
pub const LIST_IN_USE: &str = with_columns!(
    "SELECT ",
    " FROM hub_tx WHERE op = ?1 AND tag_key = ?2 AND in_use = ?3"
);

/// The open transactions of a station.
pub const LIST_OPEN: &str = with_columns!(
    "SELECT ",
    " FROM hub_tx WHERE op = ?1 AND station = ?2 AND is_open = ?3"
);

/// The open transactions of an operator.
pub const LIST_ALL_OPEN: &str = with_columns!(
    "SELECT ",
    " FROM hub_tx WHERE op = ?1 AND is_open = ?2 ORDER BY station, number"
);

/// The transactions of a station with one start.
pub const LIST_SAME_STARTS: &str = with_columns!(
    "SELECT ",
    " FROM hub_tx WHERE op = ?1 AND station = ?2 AND connector = ?3 AND tag_key = ?4 AND meter_start = ?5 AND start_at = ?6 ORDER BY number"
);

/// Adds a transaction.
pub const ADD: &str = with_columns!(
    "INSERT INTO hub_tx (",
    ") VALUES (?1, ?2, ?3, ?4, ?5, ?6, ?7, ?8, ?9, ?10, ?11, ?12, ?13, ?14, ?15, ?16, ?17, ?18)"
);

/// Puts a transaction in place of the one with its key.
pub const PUT: &str = with_columns!(
    "INSERT INTO hub_tx (",
    ") VALUES (?1, ?2, ?3, ?4, ?5, ?6, ?7, ?8, ?9, ?10, ?11, ?12, ?13, ?14, ?15, ?16, ?17, ?18) ON CONFLICT (op, station, number) DO UPDATE SET connector = excluded.connector, tag_key = excluded.tag_key, meter_start = excluded.meter_start, start_at = excluded.start_at, id_tag = excluded.id_tag, reservation_id = excluded.reservation_id, status = excluded.status, begun = excluded.begun, is_open = excluded.is_open, in_use = excluded.in_use, meter_stop = excluded.meter_stop, stop_at = excluded.stop_at, stop_reason = excluded.stop_reason, stop_id_tag = excluded.stop_id_tag, ended = excluded.ended"
);

/// Sets all columns of the transaction with its key, if there is one.
pub const UPDATE: &str =
    "UPDATE hub_tx SET connector = ?4, tag_key = ?5, meter_start = ?6, start_at = ?7, id_tag = ?8, reservation_id = ?9, status = ?10, begun = ?11, is_open = ?12, in_use = ?13, meter_stop = ?14, stop_at = ?15, stop_reason = ?16, stop_id_tag = ?17, ended = ?18 WHERE op = ?1 AND station = ?2 AND number = ?3";

/// Drops the transactions of a station whose numbers lie in a range.
pub const DROP: &str =
    "DELETE FROM hub_tx WHERE op = ?1 AND station = ?2 AND number BETWEEN ?3 AND ?4";

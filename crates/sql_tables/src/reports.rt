//! hub_report: the last report of each kind of each station.

/// A text with the names of all columns, in their order, between the two parts.
macro_rules! with_columns {
    ($before:literal, $after:literal) => {
        concat!($before, "op, station, kind, status, moment", $after)
    };
}

pub const CREATE: &str =
    "CREATE TABLE hub_report (op TEXT NOT NULL, station TEXT NOT NULL, kind TEXT NOT NULL, status TEXT NOT NULL, moment INTEGER NOT NULL, PRIMARY KEY (op, station, kind)) STRICT";

/// The reports of a station.
pub const LIST: &str = with_columns!(
    "SELECT ",
    " FROM hub_report WHERE op = ?1 AND station = ?2 ORDER BY kind"
);

/// Puts a report in place of the one with its key.
pub const PUT: &str = with_columns!(
    "INSERT INTO hub_report (",
    ") VALUES (?1, ?2, ?3, ?4, ?5) ON CONFLICT (op, station, kind) DO UPDATE SET status = excluded.status, moment = excluded.moment"
);

/// Drops the reports of a station.
pub const DROP: &str = "DELETE FROM hub_report WHERE op = ?1 AND station = ?2";

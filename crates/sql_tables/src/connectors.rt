//! hub_connector: connectors as they were reported last.

/// A text with the names of all columns, in their order, between the two parts.
macro_rules! with_columns {
    ($before:literal, $after:literal) => {
        concat!($before, "op, station, connector, status, error_code, at, info, vendor_id, vendor_error_code", $after)
    };
}

pub const CREATE: &str =
    "CREATE TABLE hub_connector (op TEXT NOT NULL, station TEXT NOT NULL, connector INTEGER NOT NULL, status TEXT NOT NULL, error_code TEXT NOT NULL, at INTEGER NOT NULL, info TEXT, vendor_id TEXT, vendor_error_code TEXT, PRIMARY KEY (op, station, connector)) STRICT";

/// The connectors of a station.
pub const LIST: &str = with_columns!(
    "SELECT ",
    " FROM hub_connector WHERE op = ?1 AND station = ?2 ORDER BY connector"
);

/// Puts a connector in place of the one with its key.
pub const PUT: &str = with_columns!(
    "INSERT INTO hub_connector (",
    ") VALUES (?1, ?2, ?3, ?4, ?5, ?6, ?7, ?8, ?9) ON CONFLICT (op, station, connector) DO UPDATE SET status = excluded.status, error_code = excluded.error_code, at = excluded.at, info = excluded.info, vendor_id = excluded.vendor_id, vendor_error_code = excluded.vendor_error_code"
);

/// Drops the connectors of a station.
pub const DROP: &str = "DELETE FROM hub_connector WHERE op = ?1 AND station = ?2";

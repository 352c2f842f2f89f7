//! hub_reservation: reservations.

/// A text with the names of all columns, in their order, between the two parts.
macro_rules! with_columns {
    ($before:literal, $after:literal) => {
        concat!($before, "op, station, reservation_id, connector, id_tag, parent_id_tag, expiry_date", $after)
    };
}

pub const CREATE: &str =
    "CREATE TABLE hub_reservation (op TEXT NOT NULL, station TEXT NOT NULL, reservation_id INTEGER NOT NULL, connector INTEGER NOT NULL, id_tag TEXT NOT NULL, parent_id_tag TEXT, expiry_date INTEGER NOT NULL, PRIMARY KEY (op, station, reservation_id)) STRICT";

/// One reservation, or all at a station.
pub const FIND: &str = with_columns!(
    "SELECT ",
    " FROM hub_reservation WHERE op = ?1 AND station = ?2 AND reservation_id BETWEEN ?3 AND ?4 ORDER BY reservation_id"
);

/// Puts a reservation in place of the one with its key.
pub const PUT: &str = with_columns!(
    "INSERT INTO hub_reservation (",
    ") VALUES (?1, ?2, ?3, ?4, ?5, ?6, ?7) ON CONFLICT (op, station, reservation_id) DO UPDATE SET connector = excluded.connector, id_tag = excluded.id_tag, parent_id_tag = excluded.parent_id_tag, expiry_date = excluded.expiry_date"
);

pub const DROP: &str =
    "DELETE FROM hub_reservation WHERE op = ?1 AND station = ?2 AND reservation_id = ?3";

/// Drops all reservations at a station.
pub const DROP_ALL: &str = "DELETE FROM hub_reservation WHERE op = ?1 AND station = ?2";

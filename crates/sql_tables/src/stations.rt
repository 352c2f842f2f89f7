//! hub_station: stations and their last boots.

/// A text with the names of all columns, in their order, between the two parts.
macro_rules! with_columns {
    ($before:literal, $after:literal) => {
        concat!($before, "op, station, policy, interval, state, booted, charge_point_model, charge_point_vendor, charge_box_serial_number, charge_point_serial_number, firmware_version, iccid, imsi, meter_serial_number, meter_type", $after)
    };
}

pub const CREATE: &str =
    "CREATE TABLE hub_station (op TEXT NOT NULL, station TEXT NOT NULL, policy TEXT NOT NULL, interval INTEGER NOT NULL, state TEXT NOT NULL, booted INTEGER, charge_point_model TEXT, charge_point_vendor TEXT, charge_box_serial_number TEXT, charge_point_serial_number TEXT, firmware_version TEXT, iccid TEXT, imsi TEXT, meter_serial_number TEXT, meter_type TEXT, PRIMARY KEY (op, station)) STRICT";

/// One station, or all of an operator.
pub const FIND: &str = with_columns!(
    "SELECT ",
    " FROM hub_station WHERE op = ?1 AND station BETWEEN ?2 AND ?3 ORDER BY station"
);

/// The first of the operators with stations that come after a name.
pub const NEXT_OPERATOR: &str = "SELECT op FROM hub_station WHERE op > ?1 ORDER BY op LIMIT 1";

/// Puts a station in place of the one with its key.
pub const PUT: &str = with_columns!(
    "INSERT INTO hub_station (",
    ") VALUES (?1, ?2, ?3, ?4, ?5, ?6, ?7, ?8, ?9, ?10, ?11, ?12, ?13, ?14, ?15) ON CONFLICT (op, station) DO UPDATE SET policy = excluded.policy, interval = excluded.interval, state = excluded.state, booted = excluded.booted, charge_point_model = excluded.charge_point_model, charge_point_vendor = excluded.charge_point_vendor, charge_box_serial_number = excluded.charge_box_serial_number, charge_point_serial_number = excluded.charge_point_serial_number, firmware_version = excluded.firmware_version, iccid = excluded.iccid, imsi = excluded.imsi, meter_serial_number = excluded.meter_serial_number, meter_type = excluded.meter_type"
);

pub const DROP: &str = "DELETE FROM hub_station WHERE op = ?1 AND station = ?2";

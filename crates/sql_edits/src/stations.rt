//! Edits of stations.
ghost use Rattle.std.specs.Prelude.{◌≡◌, ◌&&◌, None, Some};
ghost use Rattle.std.specs.Str.{bytes_eq};
ghost use Rattle.hub_rows.specs.Rows.{station_in, station_key};
ghost use Rattle.sqlite.specs.Held.{state};
ghost use Rattle.sql_rows.specs.Kept.{Asks, Edits, IsServing, Shows};
ghost use Rattle.sql_rows.specs.TypedTables.{stations};
ghost use Rattle.hub_rows.specs.Changes.{edit};
ghost use Rattle.hub_rows.specs.declared.change.Edit.TheVariants.{Stations};
ghost use Rattle.hub_rows.specs.declared.change.StationEdit.TheVariants.{StationAdded, BootSeen, PolicySet};
ghost use Rattle.hub_rows.specs.Keyed.{by_key, put};

use crate::binds::{done, lent, seconds};
use hub_rows::{Boot, Registration, StationRow, StoreFault};
use ocpp_types::{Named, Policy, State};
use sql_rows::first_row;
use sqlite::{Alter, Connection, Error, Row, params};

/// Puts the row of a station that hasn't booted.
fn put_unbooted<S: Alter>(
    conn: &mut Connection<S>,
    op: &str,
    station: &str,
    registered: Registration,
) -> Result<(), StoreFault>
    ensures edits { Edits (λ rows. record rows { stations = put (by_key station_key) (record { op = op.now; station = station.now; policy = registered.policy; interval = registered.interval; state = registered.state; boot = None }) rows.stations }) (state S.Store conn.old) (state S.Store conn.new) result }
{
    let null: Option<i64> = None;
    done(conn.execute(
        sql_tables::stations::PUT,
        params![
            op,
            station,
            registered.policy.name(),
            registered.interval,
            registered.state.name(),
            null,
            null,
            null,
            null,
            null,
            null,
            null,
            null,
            null,
            null
        ],
    ))
}

/// Puts the row of a station that has booted.
fn put_booted<S: Alter>(
    conn: &mut Connection<S>,
    op: &str,
    station: &str,
    registered: Registration,
    boot: &Boot,
) -> Result<(), StoreFault>
    ensures edits { Edits (λ rows. record rows { stations = put (by_key station_key) (record { op = op.now; station = station.now; policy = registered.policy; interval = registered.interval; state = registered.state; boot = Some boot.now }) rows.stations }) (state S.Store conn.old) (state S.Store conn.new) result }
{
    let texts = boot.texts.as_ref();
    done(conn.execute(
        sql_tables::stations::PUT,
        params![
            op,
            station,
            registered.policy.name(),
            registered.interval,
            registered.state.name(),
            seconds(boot.moment),
            texts.charge_point_model.as_str(),
            texts.charge_point_vendor.as_str(),
            lent(&texts.charge_box_serial_number),
            lent(&texts.charge_point_serial_number),
            lent(&texts.firmware_version),
            lent(&texts.iccid),
            lent(&texts.imsi),
            lent(&texts.meter_serial_number),
            lent(&texts.meter_type)
        ],
    ))
}

fn find_inside<S: Alter>(
    conn: &mut Connection<S>,
    op: &str,
    station: &str,
) -> Result<Vec<Row>, Error>
    ensures shows { IsServing (state S.Store conn.old) → Shows (λ v. v.items) stations (λ r. bytes_eq r.op op.now && bytes_eq r.station station.now) (state S.Store conn.old) (state S.Store conn.new) result }
{
    conn.query_all(sql_tables::stations::FIND, params![op, station, station])
}

/// A station of an operator, inside a transaction.
fn station_inside<S: Alter>(
    conn: &mut Connection<S>,
    op: &str,
    station: &str,
) -> Result<Option<StationRow>, StoreFault>
    ensures asks { Asks (state S.Store conn.old) (state S.Store conn.new) result (λ rows r. r ≡ station_in op.now station.now rows.stations) }
{
    first_row(find_inside(conn, op, station))
}

/// Puts a station, which is Fresh.
pub(crate) fn add_station<S: Alter>(
    conn: &mut Connection<S>,
    op: &str,
    station: &str,
    policy: Policy,
    interval: u32,
) -> Result<(), StoreFault>
    ensures edits { Edits (edit op.now (Stations (StationAdded station.now policy interval))) (state S.Store conn.old) (state S.Store conn.new) result }
{
    let registered = Registration {
        policy,
        interval,
        state: State::Fresh,
    };
    put_unbooted(conn, op, station, registered)
}

/// Puts a station.
fn put_station<S: Alter>(conn: &mut Connection<S>, row: &StationRow) -> Result<(), StoreFault>
    ensures edits { Edits (λ rows. record rows { stations = put (by_key station_key) (row.now) rows.stations }) (state S.Store conn.old) (state S.Store conn.new) result }
{
    let op = row.op.as_str();
    let station = row.station.as_str();
    let registered = row.registration();
    match &row.boot {
        None => put_unbooted(conn, op, station, registered),
        Some(boot) => put_booted(conn, op, station, registered, boot),
    }
}

/// Keeps a boot of a station in place of the one before, and the state that it leads to. The station
/// is on record, or else this answers Failed.
pub(crate) fn see_boot<S: Alter>(
    conn: &mut Connection<S>,
    op: &str,
    station: &str,
    boot: &Boot,
    answered: State,
) -> Result<(), StoreFault>
    ensures edits { Edits (edit op.now (Stations (BootSeen station.now boot.now answered))) (state S.Store conn.old) (state S.Store conn.new) result }
{
    match station_inside(conn, op, station)? {
        Some(row) => {
            let op = row.op.as_str();
            let station = row.station.as_str();
            let registered = Registration {
                policy: row.policy,
                interval: row.interval,
                state: answered,
            };
            put_booted(conn, op, station, registered, boot)
        }
        None => Err(StoreFault::Failed),
    }
}

/// Sets what a station's next boot is answered. The station is on record, or else this answers
/// Failed.
pub(crate) fn set_policy<S: Alter>(
    conn: &mut Connection<S>,
    op: &str,
    station: &str,
    policy: Policy,
    interval: u32,
) -> Result<(), StoreFault>
    ensures edits { Edits (edit op.now (Stations (PolicySet station.now policy interval))) (state S.Store conn.old) (state S.Store conn.new) result }
{
    match station_inside(conn, op, station)? {
        Some(row) => put_station(
            conn,
            &StationRow {
                policy,
                interval,
                ..row
            },
        ),
        None => Err(StoreFault::Failed),
    }
}

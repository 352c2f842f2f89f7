//! The simulated station.

use crate::clock::now;
use crate::connection::Connection;
use crate::fault::{ClientFault, Lost};
use crate::fleet::run_fleet;
use crate::tally::Tally;
use ocpp_types::{Mem, Text};
use station_sim::{Drove, Script, Sim, SimFault, drive};
use std::alloc::Global;

/// The most drives for each session of a station that doesn't stay.
const MAX_DRIVES: u64 = 10_000;

/// What a simulated station is to do.
#[derive(Drop)]
pub struct SimOptions {
    pub port: u16,
    pub path: Text,
    /// The id tag of its own sessions, of up to 20 characters. In a fleet it ends in the number of the station.
    pub tag: Text,
    /// How many sessions of its own it runs.
    pub sessions: u32,
    /// It stays after these, and takes the remote starts and stops of the server.
    pub stays: bool,
    /// So many stations, whose names end in their numbers. Without it one, named as the path says.
    pub stations: Option<u32>,
}

/// Runs the sessions of a station over a new connection, and prints each message: a call as `> CALL`, a text of the server as
/// `< TEXT`, and what it is answered as `> REPLY`. Of more than one station it prints how far they are. Whether all came to
/// their end, which they don't where the boot or the id tag isn't Accepted. A station that stays does so until its connection
/// ends. Errors: a path that is no station's, no connection, one that ends.
pub fn simulate(rt: &HostRuntime, options: &SimOptions) -> Result<bool, ClientFault> {
    let path = options.path.as_str();
    if path.starts_with('/') && !path.starts_with("/ocpp/") {
        return Err(ClientFault::no_station(options.port));
    }
    match options.stations {
        None => run(rt, options, path, options.tag.as_str()),
        Some(1) => {
            let alloc = rt.alloc();
            let path = numbered(alloc, path, 1)?;
            let tag = numbered(alloc, options.tag.as_str(), 1)?;
            run(rt, options, path.as_str(), tag.as_str())
        }
        Some(stations) => run_fleet(rt, options, stations),
    }
}

/// The path or the tag of the station of that number in a fleet.
pub fn numbered(alloc: Global, name: &str, number: u64) -> Mem<String> {
    Ok(format!(in alloc; "{name}{number}")?)
}

/// A station that is to do that, with that tag.
pub fn station_of(alloc: Global, options: &SimOptions, tag: &str) -> Result<Sim, ClientFault> {
    match Sim::new(alloc, script(alloc, options, tag)?) {
        Ok(station) => Ok(station),
        Err(_) => Err(ClientFault::Script),
    }
}

fn run(rt: &HostRuntime, options: &SimOptions, path: &str, tag: &str) -> Result<bool, ClientFault> {
    let mut connection = Connection::to(rt, options.port, path)?;
    let mut station = station_of(rt.alloc(), options, tag)?;
    let ended = drive_all(rt, &mut station, options, &mut connection)?;
    let _closed = connection.socket.close(None);
    Ok(ended)
}

/// Drives a station until it has ended. Whether its sessions were carried out.
fn drive_all(
    rt: &HostRuntime,
    station: &mut Sim,
    options: &SimOptions,
    connection: &mut Connection<'_>,
) -> Result<bool, ClientFault> {
    let mut tally = Tally::new();
    for _ in 0..most_drives(options) {
        if station.done() {
            break;
        }
        let moment = now(rt).ok_or(ClientFault::Clock)?;
        match drive(station, &mut connection.socket, moment) {
            Ok(drove) => {
                print(rt, &drove)?;
                tally.take(&drove, station);
            }
            Err(SimFault::NoMemory) => return Err(ClientFault::NoMemory),
            Err(SimFault::Stream) => {
                return Err(ClientFault::Stream(connection.address, Lost::Ended));
            }
        }
    }
    Ok(station.done() && tally.has_stopped(options.sessions))
}

fn most_drives(options: &SimOptions) -> u64 {
    if options.stays {
        u64::MAX
    } else {
        MAX_DRIVES.saturating_mul(u64::from(options.sessions.max(1)))
    }
}

/// The script of the program.
fn script(alloc: Global, options: &SimOptions, tag: &str) -> Mem<Script> {
    let mut readings = Vec::new(alloc);
    readings.extend_from_slice(&[500, 1000])?;
    Ok(Script {
        vendor: Text::copy_of(alloc, "SimVendor")?,
        model: Text::copy_of(alloc, "SimModel")?,
        tag: Text::copy_of(alloc, tag)?,
        connector: 1,
        meter_start: 0,
        readings,
        energy: 1000,
        sessions: options.sessions,
        stays: options.stays,
    })
}

fn print(rt: &HostRuntime, drove: &Drove) -> Result<(), ClientFault> {
    if let Some(call) = &drove.call {
        println!(rt; "> {call}")?;
    }
    if let Some(read) = &drove.read {
        println!(rt; "< {read}")?;
    }
    if let Some(reply) = &drove.reply {
        println!(rt; "> {reply}")?;
    }
    Ok(())
}

//! Simulated stations side by side.

use crate::clock::now;
use crate::fault::ClientFault;
use crate::member::Member;
use crate::opening::Opening;
use crate::simulation::{SimOptions, numbered, station_of};
use ocpp_types::Moment;
use std::thread::sleep;
use std::time::Duration;

/// The milliseconds that are waited after a round in which no station had anything to do.
const PAUSE: u64 = 5;

/// How far the stations are.
#[derive(Clone, Copy, Debug, PartialEq, Eq)]
struct Counts {
    /// Connections that were made, without those that were lost.
    connected: u32,
    /// Sessions whose stop was answered.
    sessions: u32,
    /// Stations whose boot wasn't accepted, or a session of their own not carried out.
    refused: u32,
    /// Connections that weren't made, or ended before their station.
    lost: u32,
}

/// The stations of one run.
#[derive(Drop)]
struct Fleet<'a> {
    members: Vec<Member<'a>>,
    /// Connections that weren't made.
    missed: u32,
    /// The counts of the last line.
    told: Counts,
    /// When that was printed, or the run began.
    told_at: Moment,
    /// Why the first connection was lost.
    fault: Option<ClientFault>,
}

/// Runs so many stations in turn, and prints how far they are: at most once a second where that has changed, and at the end.
/// Whether all their sessions were carried out. Errors: a connection isn't made or ends, once the others have ended.
pub fn run_fleet(
    rt: &HostRuntime,
    options: &SimOptions,
    stations: u32,
) -> Result<bool, ClientFault> {
    let mut fleet = Fleet::new(rt, now(rt).ok_or(ClientFault::Clock)?);
    for round in 1..u64::MAX {
        let moment = now(rt).ok_or(ClientFault::Clock)?;
        let begins = round <= u64::from(stations);
        if begins {
            fleet.connect(rt, options, round, moment)?;
        }
        let is_busy = fleet.drive_all(options, moment)?;
        if !begins && fleet.has_ended() {
            break;
        }
        fleet.tell(rt, stations, moment)?;
        if !begins && !is_busy {
            sleep(rt, Duration::from_millis(PAUSE));
        }
    }
    let counts = fleet.counts();
    print(rt, stations, counts)?;
    match fleet.fault {
        Some(fault) => Err(fault),
        None => Ok(counts.refused == 0),
    }
}

impl<'a> Fleet<'a> {
    fn new(rt: &'a HostRuntime, began: Moment) -> Fleet<'a> {
        Fleet {
            members: Vec::new(rt.alloc()),
            missed: 0,
            told: Counts {
                connected: 0,
                sessions: 0,
                refused: 0,
                lost: 0,
            },
            told_at: began,
            fault: None,
        }
    }

    /// Begins the connection of the station of that number.
    fn connect(
        &mut self,
        rt: &'a HostRuntime,
        options: &SimOptions,
        number: u64,
        moment: Moment,
    ) -> Result<(), ClientFault> {
        let alloc = rt.alloc();
        let path = numbered(alloc, options.path.as_str(), number)?;
        let tag = numbered(alloc, options.tag.as_str(), number)?;
        match Opening::begin(rt, options.port, path.as_str()) {
            Ok(opened) => {
                let station = station_of(alloc, options, tag.as_str())?;
                self.members.push(Member::new(opened, station, moment))?;
            }
            Err(fault) => {
                self.lose(fault)?;
                self.missed = self.missed.saturating_add(1);
            }
        }
        Ok(())
    }

    /// Keeps the first fault. One of memory ends the run.
    fn lose(&mut self, fault: ClientFault) -> Result<(), ClientFault> {
        match fault {
            ClientFault::NoMemory => Err(ClientFault::NoMemory),
            fault => {
                if self.fault.is_none() {
                    self.fault = Some(fault);
                }
                Ok(())
            }
        }
    }

    /// Drives each station once. Whether one called or read something.
    fn drive_all(&mut self, options: &SimOptions, moment: Moment) -> Result<bool, ClientFault> {
        let mut is_busy = false;
        for place in 0..self.members.len() {
            let Some(member) = self.members.get_mut(place) else {
                break;
            };
            match member.drive(options.sessions, moment) {
                Ok(had_something) => is_busy = is_busy || had_something,
                Err(fault) => self.lose(fault)?,
            }
        }
        Ok(is_busy)
    }

    /// Whether each station has ended.
    fn has_ended(&self) -> bool {
        self.members.iter().all(|member| member.has_ended())
    }

    fn counts(&self) -> Counts {
        let mut counts = Counts {
            connected: 0,
            sessions: 0,
            refused: 0,
            lost: self.missed,
        };
        for member in &self.members {
            counts.sessions = counts.sessions.saturating_add(member.sessions());
            counts.refused = counts.refused.saturating_add(u32::from(member.is_refused));
            counts.lost = counts.lost.saturating_add(u32::from(member.is_lost));
            let is_there = member.is_connected && !member.is_lost;
            counts.connected = counts.connected.saturating_add(u32::from(is_there));
        }
        counts
    }

    /// Prints how far they are, if that has changed and the last line is of another second.
    fn tell(&mut self, rt: &HostRuntime, stations: u32, moment: Moment) -> Result<(), ClientFault> {
        if moment == self.told_at {
            return Ok(());
        }
        let counts = self.counts();
        if counts != self.told {
            print(rt, stations, counts)?;
            self.told = counts;
            self.told_at = moment;
        }
        Ok(())
    }
}

fn print(rt: &HostRuntime, stations: u32, counts: Counts) -> Result<(), ClientFault> {
    let Counts {
        connected,
        sessions,
        refused,
        lost,
    } = counts;
    println!(rt;
        "{stations} stations: {connected} connected, {sessions} sessions done, {refused} refused, {lost} lost"
    )?;
    Ok(())
}

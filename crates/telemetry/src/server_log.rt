//! The log of a server, on standard error: a line for what became of each connection.

use crate::causes::place_of;
use crate::repair_log::Repairs;
use crate::stderr::takes_line;
use connection_notes::{Happened, Note, Refusal, Repair};
use log::sink::Console;
use log::{Level, LevelFilter, Log, Logged, info, warn};
use ocpp_types::{Moment, print_time};
use std::fmt;
use std::fmt::{Display, Formatter, Write};
use tungstenite::CloseCode;
use ws_peers::{Cause, Route};

/// The most lines of a cause in a second: of refusals of a kind, of faults, of ends of a kind that isn't usual.
const MOST_UNUSUAL: u32 = 20;

/// The most lines in a second that tell that stations come and go.
const MOST_USUAL: u32 = 1000;

/// What each line of the log names as its part of the program.
const TARGET: &str = "central::journal";

/// How many causes of lines there are.
const CAUSES: usize = 32;

/// The log of a server. It never waits: a line that standard error doesn't take at once is left out, as are those of one
/// cause that are too many in a second. The next second tells how many were left out.
#[derive(Drop)]
pub struct ServerLog {
    rt: HostRuntime,
    log: Logged<HostRuntime, Console<HostRuntime>>,
    /// By cause: how many lines there were in this second.
    counts: [u32; CAUSES],
    /// How many lines were left out, in all.
    left_out: u64,
    /// How many of them were told.
    told: u64,
    /// What was told of repairs in this hour.
    repairs: Repairs,
}

impl ServerLog {
    /// A log that has lines of that level.
    pub fn new(rt: &HostRuntime, level: LevelFilter) -> ServerLog {
        ServerLog {
            rt: *rt,
            log: Logged::new(*rt, level, Console(*rt)),
            counts: [0; CAUSES],
            left_out: 0,
            told: 0,
            repairs: Repairs::new(rt.alloc()),
        }
    }

    /// How many lines were left out.
    pub fn left_out(&self) -> u64 {
        self.left_out
    }

    /// A new second begins. Lines that were left out are told.
    pub fn begin_second(&mut self, moment: Moment) {
        self.counts = [0; CAUSES];
        let untold = self.left_out.saturating_sub(self.told);
        if untold == 0 || !takes_line(0) {
            return;
        }
        if let Ok(time) = print_time(self.rt.alloc(), moment) {
            warn!(&self.log; target: TARGET, "{time} {untold} lines left out");
            self.told = self.left_out;
        }
    }

    /// Writes a line by itself, as that of the start.
    pub fn write_line(&mut self, moment: Moment, text: &str) {
        let time = print_time(self.rt.alloc(), moment);
        match time {
            Ok(time) if takes_line(0) => info!(&self.log; target: TARGET, "{time} {text}"),
            Ok(_) | Err(_) => self.leave_out(),
        }
    }

    /// Writes a fault to standard error. It gives whether that was written.
    pub fn write_fault<F: Display>(&mut self, fault: &F) -> bool {
        if !self.has_room(0, MOST_UNUSUAL) {
            return false;
        }
        let _lost = eprintln!(&self.rt; "fault {fault}");
        true
    }

    /// Writes notes of that moment. Where there is no memory for the time, they are left out.
    pub fn write_notes(&mut self, moment: Moment, notes: &[Note]) {
        if notes.is_empty() {
            return;
        }
        let Ok(time) = print_time(self.rt.alloc(), moment) else {
            return;
        };
        for note in notes {
            if self.repairs.is_news(moment, note) {
                self.write_note(time.as_str(), note);
            }
        }
    }

    fn write_note(&mut self, time: &str, note: &Note) {
        let most = if is_usual(note.happened) {
            MOST_USUAL
        } else {
            MOST_UNUSUAL
        };
        if self.has_room(cause_of(note.happened), most) {
            write_note(&self.log, time, note);
        }
    }

    /// Whether a line of that cause is written. One that isn't is left out.
    fn has_room(&mut self, cause: usize, most: u32) -> bool {
        let Some(count) = self.counts.get_mut(cause) else {
            return false;
        };
        *count = count.saturating_add(1);
        let has_room = *count <= most && takes_line(0);
        if !has_room {
            self.leave_out();
        }
        has_room
    }

    fn leave_out(&mut self) {
        self.left_out = self.left_out.saturating_add(1);
    }
}

/// The number of a cause of lines. 0 is that of faults of turns.
fn cause_of(happened: Happened) -> usize {
    match happened {
        Happened::Connected => 1,
        Happened::Replaced => 2,
        Happened::Failed(_) => 3,
        Happened::Ended(cause) if is_usual_end(cause) => 4,
        Happened::Ended(_) => 5,
        Happened::Repaired(_) => 6,
        Happened::Refused(refusal) => place_of(refusal).saturating_add(7),
    }
}

/// Whether that happens in the ordinary course.
fn is_usual(happened: Happened) -> bool {
    match happened {
        Happened::Connected | Happened::Replaced => true,
        Happened::Ended(cause) => is_usual_end(cause),
        Happened::Failed(_) | Happened::Refused(_) | Happened::Repaired(_) => false,
    }
}

fn write_note<L: Log>(log: &L, time: &str, note: &Note) {
    let who = Who { note };
    let shown = Shown(note.happened);
    log::log!(log; target: TARGET, level_of_note(note.happened), "{time} {who} {shown}");
}

/// The level of the line about that.
fn level_of_note(happened: Happened) -> Level {
    match happened {
        Happened::Failed(_) => Level::Error,
        _ if is_usual(happened) => Level::Info,
        _ => Level::Warn,
    }
}

/// What became of a connection, as the log tells it.
#[derive(Clone, Copy, Drop)]
struct Shown(Happened);

impl Display for Shown {
    fn fmt<W: Write>(&self, f: &mut Formatter<W>) -> fmt::Result {
        match self.0 {
            Happened::Failed(fault) => write!(f, "fault {fault}"),
            Happened::Refused(refusal) => write!(f, "refused: {}", reason(refusal)),
            Happened::Repaired(repair) => {
                let Repair {
                    action,
                    code,
                    field,
                } = repair;
                write!(f, "repaired: {action} {code} {field}")
            }
            Happened::Connected => f.write_str("connected"),
            Happened::Replaced => f.write_str("replaced by another connection"),
            Happened::Ended(cause) => write!(f, "ended: {}", end(cause)),
        }
    }
}

/// Whose connection a note is of, and from where it came if that is known.
#[derive(Drop)]
struct Who<'a> {
    note: &'a Note,
}

impl Display for Who<'_> {
    fn fmt<W: Write>(&self, f: &mut Formatter<W>) -> fmt::Result {
        match &self.note.route {
            Some(Route::Station(op, station)) => {
                let op = op.as_str().escape_debug();
                let station = station.as_str().escape_debug();
                write!(f, "station {op}/{station}")?;
            }
            Some(Route::Operator(op)) => write!(f, "operator {}", op.as_str().escape_debug())?,
            None => write!(f, "connection")?,
        }
        match &self.note.address {
            Some(address) => write!(f, " from {address}"),
            None => Ok(()),
        }
    }
}

/// Whether a connection ends so in the ordinary course.
fn is_usual_end(cause: Cause) -> bool {
    matches!(cause, Cause::Closed | Cause::Lost)
}

fn end(cause: Cause) -> &'static str {
    match cause {
        Cause::Closed => "closed by the peer",
        Cause::Lost => "the stream ended",
        Cause::Breach(CloseCode::Size) => "too big (1009)",
        Cause::Breach(CloseCode::Invalid) => "not UTF-8 (1007)",
        Cause::Breach(_) => "protocol error (1002)",
        Cause::Full => "stream full",
        Cause::NoMemory => "no memory",
        Cause::Fault => "fault",
        Cause::Silent => "silent for too long",
        Cause::Stopped => "the server stops (1001)",
    }
}

fn reason(refusal: Refusal) -> &'static str {
    match refusal {
        Refusal::Lost => "the stream ended before the handshake",
        Refusal::Late => "no request in time",
        Refusal::NoRequest => "no request (400)",
        Refusal::TooLarge => "head too large (431)",
        Refusal::Crowded => "too many wait",
        Refusal::Unknown => "unknown (404)",
        Refusal::Foreign => "a page of another origin (403)",
        Refusal::TooMany => "too many of this operator (503)",
        Refusal::NoHandshake => "no handshake (405 or 426)",
        Refusal::NoSubprotocol => "no subprotocol ocpp1.6",
        Refusal::Gone => "no longer on record",
    }
}

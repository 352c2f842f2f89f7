//! Following the journal of another server.

use crate::fault::RunFault;
use crate::hosted::{copies_of, hub_of};
use crate::journal_fault::{JournalFileFault, JournalProblem};
use crate::journal_file::list_of;
use hub_rows::Store;
use ocpp_types::Text;
use standby::{Ended, FollowFault, Progress, find_begin, follow};
use station_calls::Echo;
use std::alloc::Global;
use std::cell::Cell;
use std::fs::File;
use std::io::{BufRead, BufReader};
use std::time::Instant;
use telemetry::takes_line;
use turn_hub::{Commits, TurnHub};

/// The path that stands for standard input.
const STANDARD_INPUT: &str = "-";

/// The seconds between two lines that say how far a journal is followed.
const TELLS: u64 = 10;

/// When it was told last how far a journal is followed.
#[derive(Drop)]
struct Told<'a> {
    rt: &'a HostRuntime,
    begun: Instant,
    /// In which second.
    second: Cell<u64>,
}

impl Progress for Told<'_> {
    /// Tells it at most once in some seconds.
    fn tell(&self, changes: u64) {
        let second = self.begun.elapsed(self.rt).map_or(0, |time| time.as_secs());
        if second < self.second.get().saturating_add(TELLS) {
            return;
        }
        self.second.set(second);
        tell(self.rt, changes);
    }
}

/// Writes to standard error up to which change a journal is followed. If it can't be written it is lost.
fn tell(rt: &HostRuntime, changes: u64) {
    if takes_line(0) {
        let _ = eprintln!(rt; "follows: {changes} changes on record");
    }
}

/// Follows the journal at a path to its end, over the records of a store. `changes` counts the changes that the store has on
/// record. It gives the store back, and the count of changes on record then.
pub fn follow_journal<S: Store + Drop>(
    rt: &HostRuntime,
    store: S,
    changes: u64,
    path: &str,
    operators: &[Text],
) -> Result<(S, u64), RunFault> {
    if path == STANDARD_INPUT {
        let mut reader = BufReader::new(rt.alloc(), rt.reader())?;
        return follow_all(rt, store, changes, &mut reader, operators);
    }
    let Ok(file) = File::open(rt, path) else {
        let why = JournalProblem::CannotOpen;
        return Err(RunFault::from(JournalFileFault::at(rt.alloc(), why, path)));
    };
    let mut reader = BufReader::new(rt.alloc(), file)?;
    follow_all(rt, store, changes, &mut reader, operators)
}

/// Follows one server of a journal after the other.
fn follow_all<S: Store + Drop, R: BufRead>(
    rt: &HostRuntime,
    mut store: S,
    mut changes: u64,
    reader: &mut R,
    operators: &[Text],
) -> Result<(S, u64), RunFault> {
    let told = Told {
        rt,
        begun: Instant::now(rt)?,
        second: Cell::new(0),
    };
    let mut ended = find_begin(rt.alloc(), operators, reader)?;
    for _ in 0..u64::MAX {
        match &ended {
            Ended::End { waiting, is_cut } => {
                tell(rt, changes);
                warn_of(rt, *waiting, *is_cut);
                break;
            }
            Ended::Begins {
                changes: on_record,
                operators: names,
            } => check_begin(rt.alloc(), changes, *on_record, names, operators)?,
        }
        let (hub, end) = follow_server(rt.alloc(), store, changes, reader, &told, operators)?;
        changes = hub.changes();
        store = hub.into_hub().into_store();
        ended = end;
    }
    Ok((store, changes))
}

/// Follows one server of a journal, behind the line with which it begins: the hub then, and where the server ends.
fn follow_server<S: Store + Drop, R: BufRead>(
    alloc: Global,
    store: S,
    changes: u64,
    reader: &mut R,
    told: &Told<'_>,
    operators: &[Text],
) -> Result<(TurnHub<S, Echo, File>, Ended), RunFault> {
    let mut vendors = Vec::new(alloc);
    vendors.push(Echo { alloc })?;
    let hub = hub_of(alloc, store, copies_of(alloc, operators)?, vendors)?;
    let mut hub = TurnHub::new(alloc, hub, changes, Commits::Turns);
    let ended = follow(alloc, &mut hub, reader, told)?;
    Ok((hub, ended))
}

/// Whether a server that begins has the records and the operators that are here, by the count of changes on record.
fn check_begin(
    alloc: Global,
    changes: u64,
    on_record: u64,
    names: &Text,
    operators: &[Text],
) -> Result<(), RunFault> {
    if list_of(alloc, operators)?.as_str() != names.as_str() {
        return Err(RunFault::OtherOperators(names.clone()?));
    }
    if changes != on_record {
        return Err(RunFault::Follow(FollowFault::Changes));
    }
    Ok(())
}

/// Warns on standard error of what the end of a journal has that wasn't followed. If it can't be written it is lost.
fn warn_of(rt: &HostRuntime, waiting: usize, is_cut: bool) {
    if waiting > 0 && takes_line(0) {
        let _ = eprintln!(rt;
            "warning: {waiting} events at the end of the journal have no mark, and were told to nobody"
        );
    }
    if is_cut && takes_line(0) {
        let _ = eprintln!(rt; "warning: the last line of the journal is cut");
    }
}

//! The journal that a server keeps.

use crate::journal_fault::{JournalFileFault, JournalProblem};
use crate::journal_file::{list_of, open_file};
use command_line::JournalOptions;
use hub_rows::Store;
use ocpp_types::{Mem, Moment, Text, print_time};
use station_calls::VendorHandler;
use std::alloc::Global;
use std::fs;
use std::fs::File;
use telemetry::{size_of, takes_line};
use turn_hub::TurnHub;

/// The nanoseconds between two looks at the size of the file.
const LOOKS: u64 = 100_000_000;

/// The journal that a server keeps, if it keeps one.
#[derive(Drop)]
pub struct KeptJournal {
    kept: Option<Kept>,
    /// It can't be written. What was taken in this turn is told to nobody.
    pub is_lost: bool,
}

/// A journal that is kept in a file.
#[derive(Drop)]
struct Kept {
    /// The path of the file.
    path: Text,
    /// The operators of the server, with commas between them.
    operators: String,
    /// With how many bytes the next file is begun. Without them none is.
    size: Option<u64>,
    /// The nanoseconds since the start from which on the size is looked at again.
    next_look: u64,
    /// It was told that the next file can't be begun.
    has_warned: bool,
}

/// What became of a new file.
#[derive(Drop)]
enum Placed {
    /// It is at the path.
    There(File),
    /// A file ended in this second.
    Later,
    /// It can't be made. The file at the path is the one that was there.
    Not,
    /// No file is at the path.
    Lost,
}

impl KeptJournal {
    /// None is kept.
    pub fn none() -> KeptJournal {
        KeptJournal {
            kept: None,
            is_lost: false,
        }
    }

    /// A journal is kept, as the options have it, in which a server with those operators has begun.
    pub fn keep(&mut self, alloc: Global, options: &JournalOptions, operators: &[Text]) -> Mem<()> {
        self.kept = Some(Kept {
            path: options.path.clone()?,
            operators: list_of(alloc, operators)?,
            size: options.size,
            next_look: 0,
            has_warned: false,
        });
        Ok(())
    }

    /// The operators of the server, with commas between them, if a journal is kept.
    pub fn operators(&self) -> &str {
        self.kept
            .as_ref()
            .map_or("", |kept| kept.operators.as_str())
    }

    /// Begins the next file, after a turn, where the one of now has as many bytes as it may have. Error: the journal can't be
    /// written.
    pub fn go_on<S: Store + Drop, V: VendorHandler>(
        &mut self,
        rt: &HostRuntime,
        hub: &mut TurnHub<S, V, File>,
        now: u64,
        moment: Moment,
    ) -> Result<(), JournalFileFault> {
        let Some(kept) = &mut self.kept else {
            return Ok(());
        };
        if self.is_lost || (kept.is_full(rt, now) && !kept.begin_file(rt, hub, moment)) {
            let path = kept.path.as_str();
            return Err(JournalFileFault::at(rt.alloc(), JournalProblem::Failed, path));
        }
        Ok(())
    }
}

impl Kept {
    /// Whether the file has as many bytes as it may have, so many nanoseconds since the start. Its size is looked at once in
    /// 100 ms at most.
    fn is_full(&mut self, rt: &HostRuntime, now: u64) -> bool {
        let Some(size) = self.size else {
            return false;
        };
        if now < self.next_look {
            return false;
        }
        self.next_look = now.saturating_add(LOOKS);
        size_of(rt, self.path.as_str()) >= size
    }

    /// Begins the next file at the path. Where that can't be done it is tried again later. Whether the journal can be written.
    fn begin_file<S: Store + Drop, V: VendorHandler>(
        &mut self,
        rt: &HostRuntime,
        hub: &mut TurnHub<S, V, File>,
        moment: Moment,
    ) -> bool {
        match self.place_file(rt, moment) {
            Ok(Placed::There(file)) => {
                let operators = self.operators.as_str();
                hub.continue_in(file, operators).is_ok()
            }
            Ok(Placed::Not) => {
                self.warn(rt);
                true
            }
            Ok(Placed::Later) | Err(_) => true,
            Ok(Placed::Lost) => false,
        }
    }

    /// Puts a new file at the path. The one that is there gets the moment behind its name.
    fn place_file(&self, rt: &HostRuntime, moment: Moment) -> Mem<Placed> {
        let alloc = rt.alloc();
        let path = self.path.as_str();
        let next = format!(in alloc; "{path}.next")?;
        let ended = ended_path(alloc, path, moment)?;
        if matches!(fs::exists(rt, ended.as_str()), Ok(true)) {
            return Ok(Placed::Later);
        }
        let _none = fs::remove_file(rt, next.as_str());
        let Ok(file) = open_file(rt, next.as_str()) else {
            return Ok(Placed::Not);
        };
        if fs::rename(rt, path, ended.as_str()).is_err() {
            return Ok(Placed::Not);
        }
        if fs::rename(rt, next.as_str(), path).is_err() {
            return Ok(Placed::Lost);
        }
        Ok(Placed::There(file))
    }

    /// Warns on standard error, once, that the next file can't be begun. What can't be written is lost.
    fn warn(&mut self, rt: &HostRuntime) {
        if !self.has_warned && takes_line(0) {
            let path = self.path.as_str();
            let _ = eprintln!(rt; "warning: the next file of the journal {path} can't be begun");
        }
        self.has_warned = true;
    }
}

/// The path of a file of a journal that ended at that moment: digits of the date and the time behind its name, so that names
/// in order are files in order.
fn ended_path(alloc: Global, path: &str, moment: Moment) -> Mem<String> {
    let mut ended = format!(in alloc; "{path}.")?;
    for character in print_time(alloc, moment)?.as_str().chars() {
        if character.is_ascii_alphanumeric() {
            ended.push(character)?;
        }
    }
    Ok(ended)
}

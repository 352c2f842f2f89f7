//! The file of a journal.

use crate::journal_fault::{JournalFileFault, JournalProblem};
use command_line::JournalOptions;
use journal::{Tail, TailFault, Writer, tail_of};
use ocpp_types::{Mem, Text};
use std::alloc::Global;
use std::fs::{File, OpenOptions};
use std::io::{BufReader, ErrorKind};
use std::os::unix::fs::OpenOptionsExt;

/// Who may read and write a new journal: its owner alone, since id tags are credentials.
const MODE: u32 = 0o600;

/// Has a server with those operators begin in the journal at a path, which is made if there is none. `changes` counts the
/// changes on record.
pub fn begin_journal(
    rt: &HostRuntime,
    options: &JournalOptions,
    operators: &[Text],
    changes: u64,
) -> Result<Writer<File>, JournalFileFault> {
    let alloc = rt.alloc();
    let path = options.path.as_str();
    let file = open_file(rt, path)?;
    let tail = tail_at(rt, path)?;
    if !tail.is_new && tail.counts.is_none() {
        return Err(JournalFileFault::at(alloc, JournalProblem::Foreign, path));
    }
    if !tail.fits(changes) {
        return Err(JournalFileFault::at(alloc, JournalProblem::Changes, path));
    }
    let names = list_of(alloc, operators)?;
    match Writer::begin_server(alloc, file, options.syncs, &tail, changes, names.as_str()) {
        Ok(writer) => Ok(writer),
        Err(_) => Err(JournalFileFault::at(alloc, JournalProblem::Failed, path)),
    }
}

/// Opens a journal, which is made if there is none, and which no other process may have open.
pub fn open_file(rt: &HostRuntime, path: &str) -> Result<File, JournalFileFault> {
    let opened = OpenOptions::new()
        .append(true)
        .create(true)
        .mode(MODE)
        .open(rt, path);
    let Ok(file) = opened else {
        return Err(JournalFileFault::at(rt.alloc(), JournalProblem::CannotOpen, path));
    };
    if file.try_lock().is_err() {
        return Err(JournalFileFault::at(rt.alloc(), JournalProblem::InUse, path));
    }
    Ok(file)
}

/// What the journal at a path ends with.
fn tail_at(rt: &HostRuntime, path: &str) -> Result<Tail, JournalFileFault> {
    let file = match File::open(rt, path) {
        Ok(file) => file,
        Err(error) if error.kind() == ErrorKind::NotFound => return Ok(Tail::new()),
        Err(_) => return Err(JournalFileFault::at(rt.alloc(), JournalProblem::CannotOpen, path)),
    };
    let Ok(mut reader) = BufReader::new(rt.alloc(), file) else {
        return Err(JournalFileFault::NoMemory);
    };
    match tail_of(rt.alloc(), &mut reader) {
        Ok(tail) => Ok(tail),
        Err(TailFault::NoMemory) => Err(JournalFileFault::NoMemory),
        Err(TailFault::Read) => Err(JournalFileFault::at(
            rt.alloc(),
            JournalProblem::CannotOpen,
            path,
        )),
    }
}

/// Names, with commas between them.
pub fn list_of(alloc: Global, names: &[Text]) -> Mem<String> {
    let mut list = String::new(alloc);
    for name in names {
        if !list.is_empty() {
            list.push(',')?;
        }
        list.push_str(name.as_str())?;
    }
    Ok(list)
}

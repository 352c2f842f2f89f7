//! Why a journal can't be kept or followed.

use ocpp_types::{NoMemory, Text};
use std::alloc::{AllocError, Global};
use thiserror::Error;

/// Why a journal can't be kept or followed.
#[derive(Clone, Copy, Debug, PartialEq, Eq, Drop, Error)]
pub enum JournalProblem {
    /// Its file can't be opened.
    #[error("the file can't be opened")]
    CannotOpen,
    /// Another process has the file open.
    #[error("another process has it open")]
    InUse,
    /// The file is no journal.
    #[error("it is no journal")]
    Foreign,
    /// It doesn't end with as many changes as are on record.
    #[error("another number of changes is on record")]
    Changes,
    /// It can't be written.
    #[error("it can't be written")]
    Failed,
}

/// Why the journal at a path can't be kept or followed.
#[derive(Debug, Drop, Error)]
pub enum JournalFileFault {
    /// An allocation was refused.
    #[error("NoMemory")]
    NoMemory,
    /// The journal has a problem; and its path.
    #[error("Journal: {0}")]
    Problem(JournalProblem, Text),
}

impl JournalFileFault {
    /// The journal at a path has that problem.
    pub fn at(alloc: Global, why: JournalProblem, path: &str) -> JournalFileFault {
        match Text::copy_of(alloc, path) {
            Ok(path) => JournalFileFault::Problem(why, path),
            Err(_) => JournalFileFault::NoMemory,
        }
    }
}

impl From<NoMemory> for JournalFileFault {
    fn from(_fault: NoMemory) -> JournalFileFault {
        JournalFileFault::NoMemory
    }
}

impl From<AllocError> for JournalFileFault {
    fn from(_fault: AllocError) -> JournalFileFault {
        JournalFileFault::NoMemory
    }
}

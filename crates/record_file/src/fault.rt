//! Why the file of the records can't be opened.

use ocpp_types::{NoMemory, Text};
use std::alloc::{AllocError, AllocFailed};
use std::io;
use store_sql::{MarkFault, PrepareFault};
use thiserror::Error;

/// Why the file of the records can't be opened.
#[derive(Debug, Drop, Error)]
pub enum OpenFault {
    /// An allocation was refused.
    #[error("NoMemory")]
    NoMemory,
    /// The database can't be opened, or isn't one of this program; and the path of its file.
    #[error("Store: {0}")]
    Database(PrepareFault, Text),
    /// The database lacks changes that were synced, or its mark can't be used; and the path of the mark.
    #[error("Store: {0}")]
    Mark(MarkFault, Text),
}

impl OpenFault {
    /// Writes the line that follows the name of a fault: which file it is about.
    pub fn write_detail(&self, rt: &HostRuntime) -> io::Result<()> {
        match self {
            OpenFault::NoMemory => Ok(()),
            OpenFault::Database(_, file) | OpenFault::Mark(_, file) => eprintln!(rt; "{file}"),
        }
    }
}

impl From<NoMemory> for OpenFault {
    fn from(_fault: NoMemory) -> OpenFault {
        OpenFault::NoMemory
    }
}

impl From<AllocError> for OpenFault {
    fn from(_fault: AllocError) -> OpenFault {
        OpenFault::NoMemory
    }
}

impl<T: Drop> From<AllocFailed<T>> for OpenFault {
    fn from(_fault: AllocFailed<T>) -> OpenFault {
        OpenFault::NoMemory
    }
}

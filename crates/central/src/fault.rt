//! Why the program stops.

use cached::CacheFault;
use clients::ClientFault;
use ocpp_types::NoMemory;
use record_file::OpenFault;
use runs::RunFault;
use std::alloc::{AllocError, AllocFailed};
use std::io;
use thiserror::Error;

/// Why the program stops.
#[derive(Debug, Drop, Error)]
pub enum ProgramFault {
    /// The file of the records can't be opened.
    #[error("{0}")]
    Open(OpenFault),
    /// A replay, a follower or a server stopped.
    #[error("{0}")]
    Run(RunFault),
    /// A client stopped.
    #[error("{0}")]
    Client(ClientFault),
}

impl ProgramFault {
    /// Writes the line that follows the name of a fault. Some have none.
    pub fn write_detail(&self, rt: &HostRuntime) -> io::Result<()> {
        match self {
            ProgramFault::Open(fault) => fault.write_detail(rt),
            ProgramFault::Run(fault) => fault.write_detail(rt),
            ProgramFault::Client(fault) => fault.write_detail(rt),
        }
    }
}

impl From<OpenFault> for ProgramFault {
    fn from(fault: OpenFault) -> ProgramFault {
        ProgramFault::Open(fault)
    }
}

impl From<RunFault> for ProgramFault {
    fn from(fault: RunFault) -> ProgramFault {
        ProgramFault::Run(fault)
    }
}

impl From<ClientFault> for ProgramFault {
    fn from(fault: ClientFault) -> ProgramFault {
        ProgramFault::Client(fault)
    }
}

impl From<CacheFault> for ProgramFault {
    /// The program's capacity is a good one, so a cache that isn't made found no memory.
    fn from(_fault: CacheFault) -> ProgramFault {
        ProgramFault::Run(RunFault::NoMemory)
    }
}

impl From<NoMemory> for ProgramFault {
    fn from(_fault: NoMemory) -> ProgramFault {
        ProgramFault::Run(RunFault::NoMemory)
    }
}

impl From<AllocError> for ProgramFault {
    fn from(_fault: AllocError) -> ProgramFault {
        ProgramFault::Run(RunFault::NoMemory)
    }
}

impl<T: Drop> From<AllocFailed<T>> for ProgramFault {
    fn from(_fault: AllocFailed<T>) -> ProgramFault {
        ProgramFault::Run(RunFault::NoMemory)
    }
}

impl From<io::Error> for ProgramFault {
    fn from(fault: io::Error) -> ProgramFault {
        ProgramFault::Run(RunFault::from(fault))
    }
}

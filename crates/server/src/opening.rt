//! What a server does before its records are there.

use clients::now;
use command_line::{ServeOptions, VERSION};
use ocpp_types::Mem;
use ready_streams::Streams;
use runs::RunFault;
use std::alloc::Global;
use std::fs;
use std::net::SocketAddr;
use std::time::{Duration, Instant};
use telemetry::{ServerLog, size_of};

/// The bytes of a file whose opening takes long.
const LARGE: u64 = 10_000_000;

/// The bytes of a file that are read in a second, as it is opened, on a slow machine.
const READ_IN_A_SECOND: u64 = 15_000_000;

/// A server whose file isn't open yet.
#[derive(Drop)]
pub struct Begun {
    streams: Streams,
    /// When the opening of its file began.
    began: Instant,
}

/// What a server has once its file is open, beside its store and its options.
#[derive(Drop)]
pub struct Opened {
    pub(crate) streams: Streams,
    /// How long the opening of its file took.
    pub(crate) opening: Duration,
    /// How many changes are on record.
    pub(crate) changes: u64,
}

/// Listens, so that who connects waits in the system's queue, and removes the file that would end the server. A log tells of
/// an opening that takes long. Errors: an address that can't be listened on, a clock without a moment, no memory.
pub fn begin(rt: &HostRuntime, options: &ServeOptions) -> Result<Begun, RunFault> {
    let streams = listen(rt, options.address)?;
    tell_opening(rt, options)?;
    if let Some(path) = &options.stop_file {
        let _none = fs::remove_file(rt, path.as_str());
    }
    let began = Instant::now(rt)?;
    Ok(Begun { streams, began })
}

impl Begun {
    /// The file is open now, with so many changes on record.
    pub fn opened(self, rt: &HostRuntime, changes: u64) -> Result<Opened, RunFault> {
        let Begun { streams, began } = self;
        let opening = began.elapsed(rt)?;
        Ok(Opened {
            streams,
            opening,
            changes,
        })
    }
}

/// Listens at an address.
fn listen(rt: &HostRuntime, address: SocketAddr) -> Result<Streams, RunFault> {
    match Streams::listen(rt.alloc(), rt, address) {
        Ok(streams) => Ok(streams),
        Err(error) => Err(RunFault::at(address, error)),
    }
}

/// Writes to the log how large the file is and what its opening takes, where that is long.
fn tell_opening(rt: &HostRuntime, options: &ServeOptions) -> Result<(), RunFault> {
    let size = size_of(rt, options.db.as_str());
    if size < LARGE {
        return Ok(());
    }
    let text = opening_text(rt.alloc(), options.db.as_str(), size)?;
    let moment = now(rt).ok_or(RunFault::Clock)?;
    ServerLog::new(rt, options.log).write_line(moment, text.as_str());
    Ok(())
}

/// What a log tells of a large file before it is opened: how large it is, and about what that takes.
fn opening_text(alloc: Global, path: &str, size: u64) -> Mem<String> {
    let db = path.escape_debug();
    let megabytes = size / 1_000_000;
    let seconds = size / READ_IN_A_SECOND;
    let memory = megabytes.saturating_add(megabytes / 2);
    Ok(format!(in alloc;
        "central {VERSION} opens {db}, {megabytes} MB: some {seconds} s, and up to {memory} MB of memory meanwhile"
    )?)
}

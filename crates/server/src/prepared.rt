//! What a server begins with.

use crate::service::Service;
use crate::stop_file::StopFile;
use clients::now;
use command_line::ServeOptions;
use ocpp_types::{Mem, Moment, Text, copied};
use ready_streams::ReadyStream;
use runs::{RunFault, copies_of};
use std::alloc::Global;
use std::net::SocketAddr;
use std::time::Instant;
use telemetry::Metrics;
use ws_server::Lobby;

/// What a server has by its options, before it has records and streams.
#[derive(Drop)]
pub struct Prepared {
    pub alloc: Global,
    /// Where it listens.
    pub address: SocketAddr,
    pub moment: Moment,
    pub begun: Instant,
    pub service: Service,
    pub metrics: Metrics,
    pub lobby: Lobby<ReadyStream>,
    /// The most connections of stations that an operator has.
    pub most_stations: u64,
    /// The path of the file of the records.
    pub db: Text,
    pub stop_file: StopFile,
}

impl Prepared {
    /// Errors: a clock without a moment, no memory.
    pub fn of(rt: &HostRuntime, options: &ServeOptions) -> Result<Prepared, RunFault> {
        let alloc = rt.alloc();
        let moment = now(rt).ok_or(RunFault::Clock)?;
        let begun = Instant::now(rt)?;
        let db = options.db.clone()?;
        let stop_file = StopFile::new(copied(&options.stop_file)?);
        let service = Service::new(alloc, options.operators.as_slice())?;
        let metrics = Metrics::new(alloc, service.operators())?;
        let lobby = lobby_with_notes(alloc, options.origins.as_slice())?;
        Ok(Prepared {
            alloc,
            address: options.address,
            moment,
            begun,
            service,
            metrics,
            lobby,
            most_stations: u64::from(options.most_stations),
            db,
            stop_file,
        })
    }
}

/// The connections whose handshake isn't done, of which there are none yet. What becomes of them is noted.
fn lobby_with_notes(alloc: Global, origins: &[Text]) -> Mem<Lobby<ReadyStream>> {
    let mut lobby = Lobby::new(alloc, copies_of(alloc, origins)?)?;
    lobby.keep_notes();
    Ok(lobby)
}

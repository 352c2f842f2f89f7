//! Serving by records that are open.

use crate::opening::Opened;
use crate::prepared::Prepared;
use crate::server::Server;
use command_line::{Commit, ServeOptions, VERSION};
use hub_rows::Store;
use ocpp_types::{Mem, Text};
use runs::{RunFault, copies_of, follow_journal, hub_of, list_of};
use station_calls::VendorHandler;
use std::alloc::Global;
use std::net::SocketAddr;
use std::time::Duration;
use telemetry::{ServerLog, takes_line};
use turn_hub::{Commits, TurnHub};

/// Follows a journal to its end, if it is to, and then serves, by the records of a store, and by those handlers of vendors' messages. A fault of a turn is written to standard error as
/// `fault NAME`, and the next turn follows. Errors: a journal that can't be followed or kept, a store that fails later,
/// operators that can't be hosted, a wait that fails, a clock without a moment, no memory at the start.
pub fn serve<S: Store + Drop, V: VendorHandler>(
    rt: &HostRuntime,
    store: S,
    opened: Opened,
    options: &ServeOptions,
    vendors: Vec<V>,
) -> Result<(), RunFault> {
    let mut opened = opened;
    let Some(path) = &options.follow else {
        return serve_over(rt, store, opened, options, vendors);
    };
    let operators = options.operators.as_slice();
    let (store, changes) = follow_journal(rt, store, opened.changes, path.as_str(), operators)?;
    opened.changes = changes;
    serve_over(rt, store, opened, options, vendors)
}

/// Serves by the records of a store, whose opening took so long.
fn serve_over<S: Store + Drop, V: VendorHandler>(
    rt: &HostRuntime,
    mut store: S,
    opened: Opened,
    options: &ServeOptions,
    vendors: Vec<V>,
) -> Result<(), RunFault> {
    let operators = options.operators.as_slice();
    let counts = count_stations(rt.alloc(), &mut store, operators)?;
    let stations = counts
        .iter()
        .fold(0, |all: usize, count| all.saturating_add(*count));
    if stations > 0 {
        warn_of_names(rt, operators, counts.as_slice());
    }
    let start = start_text(rt.alloc(), options, opened.opening, stations)?;
    run_server(rt, store, opened, options, vendors, start.as_str())
}

/// What a log tells of a server as it starts: its version, its operators, its address, its file, how long that took to
/// open, and how many stations it has.
fn start_text(
    alloc: Global,
    options: &ServeOptions,
    opening: Duration,
    stations: usize,
) -> Mem<String> {
    let operators = list_of(alloc, options.operators.as_slice())?;
    let address = options.address;
    let db = options.db.as_str().escape_debug();
    let took = opening.as_millis();
    Ok(format!(in alloc;
        "central {VERSION} serves {} on {address}, records in {db}, opened in {took} ms, stations on record: {stations}",
        operators.escape_debug()
    )?)
}

/// Runs a server, whose log begins with that line.
fn run_server<S: Store + Drop, V: VendorHandler>(
    rt: &HostRuntime,
    store: S,
    opened: Opened,
    options: &ServeOptions,
    vendors: Vec<V>,
    start: &str,
) -> Result<(), RunFault> {
    let mut server = server_over(rt, store, opened, options, vendors)?;
    begin_and_run(rt, &mut server, options, start)
}

/// A server over a store. Errors: operators that can't be hosted, a clock without a moment, no memory.
fn server_over<S: Store + Drop, V: VendorHandler>(
    rt: &HostRuntime,
    store: S,
    opened: Opened,
    options: &ServeOptions,
    vendors: Vec<V>,
) -> Result<Server<S, V>, RunFault> {
    let alloc = rt.alloc();
    let (prepared, operators) = prepared_of(rt, options)?;
    let hub = hub_of(alloc, store, operators, vendors)?;
    let hub = TurnHub::new(alloc, hub, opened.changes, commits_of(options.commit));
    let mut streams = opened.streams;
    streams.set_second(0);
    let log = ServerLog::new(rt, options.log);
    Ok(Server::new(hub, streams, prepared, log))
}

/// When a hub commits changes, by the options of a server.
fn commits_of(commit: Commit) -> Commits {
    match commit {
        Commit::Each => Commits::Each,
        Commit::Turn => Commits::Turns,
    }
}

/// What a server has by its options, and its operators.
fn prepared_of(
    rt: &HostRuntime,
    options: &ServeOptions,
) -> Result<(Prepared, Vec<Text>), RunFault> {
    let operators = copies_of(rt.alloc(), options.operators.as_slice())?;
    let prepared = Prepared::of(rt, options)?;
    Ok((prepared, operators))
}

/// Begins the journal and the log of a server, and runs it.
fn begin_and_run<S: Store + Drop, V: VendorHandler>(
    rt: &HostRuntime,
    server: &mut Server<S, V>,
    options: &ServeOptions,
    start: &str,
) -> Result<(), RunFault> {
    if let Some(kept) = &options.journal {
        server.keep_journal(rt, kept)?;
    }
    if options.commit == Commit::Turn {
        server.hold_turns();
    }
    warn_of(rt, options.address);
    server.tell_start(start);
    server.run(rt, options.turns)
}

/// Warns on standard error of an address that is reached from other machines. If the warning can't be written it is lost.
fn warn_of(rt: &HostRuntime, address: SocketAddr) {
    if !address.ip().is_loopback() && takes_line(0) {
        let _ = eprintln!(rt;
            "warning: {address} may be reached from other machines, and the server authenticates nobody (docs/OPERATIONS.md, A TLS proxy)"
        );
    }
}

/// Warns of operators that have no station on record, where others have some: a name may be spelled otherwise than in the
/// records. What can't be written is lost.
fn warn_of_names(rt: &HostRuntime, operators: &[Text], counts: &[usize]) {
    for (operator, count) in operators.iter().zip(counts) {
        if *count == 0 && takes_line(0) {
            let _ = eprintln!(rt;
                "warning: {operator} has no station on record, and another operator has: a name of --operators may be misspelled"
            );
        }
    }
}

/// How many stations each operator has on record. Where they can't be read it counts none.
fn count_stations<S: Store>(alloc: Global, store: &mut S, operators: &[Text]) -> Mem<Vec<usize>> {
    let mut counts = Vec::new(alloc);
    for operator in operators {
        let count = match store.stations(operator.as_str()) {
            Ok(found) => found.as_slice().len(),
            Err(_) => 0,
        };
        counts.push(count)?;
    }
    Ok(counts)
}

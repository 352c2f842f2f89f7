//! Replays.

use crate::bad_lines::watch;
use crate::fault::RunFault;
use crate::hosted::{copies_of, fault_of, hub_of};
use command_line::{Commit, ReplayOptions};
use hub::Hub;
use hub_rows::{Flush, Store};
use replay::{replay, replay_in_memory};
use station_calls::VendorHandler;
use std::io;

/// Replays the lines of standard input over records in memory, of which there are none yet. Whether none was bad, if that is
/// asked for.
pub fn replay_fresh<V: VendorHandler>(
    rt: &HostRuntime,
    options: &ReplayOptions,
    vendors: Vec<V>,
) -> Result<bool, RunFault> {
    let alloc = rt.alloc();
    if let Some(why) = fault_of(options.operators.as_slice())? {
        return Err(RunFault::BadOperators(why));
    }
    let operators = copies_of(alloc, options.operators.as_slice())?;
    let names = copies_of(alloc, options.operators.as_slice())?;
    let (mut reader, mut writer) = watch(rt, rt.reader(), io::writer(rt), names)?;
    replay_in_memory(alloc, operators, vendors, &mut reader, &mut writer)?;
    Ok(!options.is_strict || writer.is_clean())
}

/// Replays them over the records of a store.
pub fn replay_over<S: Store + Drop, V: VendorHandler>(
    rt: &HostRuntime,
    store: S,
    options: &ReplayOptions,
    vendors: Vec<V>,
) -> Result<bool, RunFault> {
    let operators = copies_of(rt.alloc(), options.operators.as_slice())?;
    let mut hub = hub_of(rt.alloc(), store, operators, vendors)?;
    replay_to(rt, &mut hub, options)
}

/// Replays them to a hub.
fn replay_to<S: Store + Drop, V: VendorHandler>(
    rt: &HostRuntime,
    hub: &mut Hub<S, V>,
    options: &ReplayOptions,
) -> Result<bool, RunFault> {
    let names = copies_of(rt.alloc(), options.operators.as_slice())?;
    let (mut reader, mut writer) = watch(rt, rt.reader(), io::writer(rt), names)?;
    let when = flush_of(options.commit);
    replay(rt.alloc(), hub, &mut reader, &mut writer, when)?;
    Ok(!options.is_strict || writer.is_clean())
}

/// When the change of a line is flushed.
fn flush_of(commit: Commit) -> Flush {
    match commit {
        Commit::Each => Flush::AtOnce,
        Commit::Turn => Flush::Later,
    }
}

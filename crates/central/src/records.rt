//! What a replay, a follower and a server run over: records in a file, behind a cache.

use crate::fault::ProgramFault;
use cached::Cached;
use command_line::{FollowOptions, ReplayOptions, ServeOptions};
use hub_rows::Store;
use record_file::{open, warn_of_strangers};
use runs::{follow_journal, replay_fresh, replay_over};
use server::{Begun, Opened, begin};
use sqlite::Alter;
use station_calls::VendorHandler;
use store_sql::SqlStore;

/// How many answers of a kind are kept in front of a database.
const ANSWERS: usize = 1024;

/// Replays the lines of standard input, over records in memory or in a file. Whether none was bad, if that is asked for.
pub fn replay<V: VendorHandler>(
    rt: &HostRuntime,
    options: &ReplayOptions,
    vendors: Vec<V>,
) -> Result<bool, ProgramFault> {
    match &options.db {
        Some(path) => {
            let store = open(rt, path.as_str(), options.file)?;
            replay_database(rt, store, options, vendors)
        }
        None => Ok(replay_fresh(rt, options, vendors)?),
    }
}

/// Replays the lines over the records of a database.
fn replay_database<A: Alter + Drop, V: VendorHandler>(
    rt: &HostRuntime,
    store: SqlStore<A>,
    options: &ReplayOptions,
    vendors: Vec<V>,
) -> Result<bool, ProgramFault> {
    replay_cached(rt, store, options, vendors)
}

/// Replays the lines over the records of a store, behind a cache.
fn replay_cached<S: Store + Drop, V: VendorHandler>(
    rt: &HostRuntime,
    store: S,
    options: &ReplayOptions,
    vendors: Vec<V>,
) -> Result<bool, ProgramFault> {
    let store = Cached::new(rt.alloc(), store, ANSWERS)?;
    Ok(replay_over(rt, store, options, vendors)?)
}

/// Follows a journal over the records of a file, to its end.
pub fn follow(rt: &HostRuntime, options: &FollowOptions) -> Result<(), ProgramFault> {
    let store = open(rt, options.db.as_str(), options.file)?;
    follow_database(rt, store, options)
}

/// Follows a journal over the records of a database.
fn follow_database<A: Alter + Drop>(
    rt: &HostRuntime,
    store: SqlStore<A>,
    options: &FollowOptions,
) -> Result<(), ProgramFault> {
    let changes = store.changes();
    follow_counted(rt, store, changes, options)
}

/// Applies a journal to a store. `changes` counts the changes that the store has on record.
fn follow_counted<S: Store + Drop>(
    rt: &HostRuntime,
    store: S,
    changes: u64,
    options: &FollowOptions,
) -> Result<(), ProgramFault> {
    let store = Cached::new(rt.alloc(), store, ANSWERS)?;
    let operators = options.operators.as_slice();
    let _followed = follow_journal(rt, store, changes, options.journal.as_str(), operators)?;
    Ok(())
}

/// Serves by the records of a file, and by those handlers of vendors' messages.
pub fn serve<V: VendorHandler>(
    rt: &HostRuntime,
    options: &ServeOptions,
    vendors: Vec<V>,
) -> Result<(), ProgramFault> {
    let begun = begin(rt, options)?;
    let store = open(rt, options.db.as_str(), options.file)?;
    serve_database(rt, store, begun, options, vendors)
}

/// Serves by the records of a database.
fn serve_database<A: Alter + Drop, V: VendorHandler>(
    rt: &HostRuntime,
    mut store: SqlStore<A>,
    begun: Begun,
    options: &ServeOptions,
    vendors: Vec<V>,
) -> Result<(), ProgramFault> {
    let opened = begun.opened(rt, store.changes())?;
    warn_of_strangers(rt, &mut store, options.operators.as_slice())?;
    serve_counted(
        rt,
        store.with_longest(options.longest),
        opened,
        options,
        vendors,
    )
}

/// Serves by the records of a store.
fn serve_counted<S: Store + Drop, V: VendorHandler>(
    rt: &HostRuntime,
    store: S,
    opened: Opened,
    options: &ServeOptions,
    vendors: Vec<V>,
) -> Result<(), ProgramFault> {
    let store = Cached::new(rt.alloc(), store, ANSWERS)?;
    Ok(server::serve(rt, store, opened, options, vendors)?)
}

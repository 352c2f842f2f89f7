//! Records in the file of a database.

use crate::fault::OpenFault;
use crate::file_fault::detail_of;
use crate::new_file::make_if_new;
use command_line::FileOptions;
use ocpp_types::Text;
use sqlite::{Alter, FileFrom, FileStore, Unknown};
use store_sql::{Mark, MarkFault, PrepareFault, SqlStore};

/// Opens the store in the file at a path, which is made if there is none. Its mark is beside it. A file with fewer changes
/// than its mark counts is refused, unless the loss is accepted.
pub fn open(
    rt: &HostRuntime,
    path: &str,
    options: FileOptions,
) -> Result<SqlStore<FileStore<FileFrom<Unknown>>>, OpenFault> {
    // what was not made here is made below, with larger pages and without sums
    let _made = make_if_new(rt, path, options.page_sums);
    match SqlStore::open(rt, path, Unknown) {
        Ok(store) => with_mark(rt, path, store, options),
        Err(fault) => Err(fault_at(rt, path, fault)),
    }
}

/// A store, and the mark beside its file.
fn with_mark<A: Alter + Drop>(
    rt: &HostRuntime,
    path: &str,
    mut store: SqlStore<A>,
    options: FileOptions,
) -> Result<SqlStore<A>, OpenFault> {
    store.keep_mark(open_mark(rt, path, store.changes(), options)?);
    Ok(store)
}

/// The fault of a file at a path that isn't taken.
fn fault_at(rt: &HostRuntime, path: &str, fault: PrepareFault) -> OpenFault {
    if matches!(fault, PrepareFault::NoMemory) {
        return OpenFault::NoMemory;
    }
    match detail_of(rt, path, fault) {
        Ok(detail) => OpenFault::Database(fault, detail),
        Err(_) => OpenFault::NoMemory,
    }
}

/// Opens the mark beside a file, on which so many changes are on record.
fn open_mark(
    rt: &HostRuntime,
    path: &str,
    changes: u64,
    options: FileOptions,
) -> Result<Mark, OpenFault> {
    let place = format!(in rt.alloc(); "{path}-count")?;
    match Mark::open(rt, place.as_str(), changes, options.accepts_loss) {
        Ok(mark) => Ok(mark),
        Err(MarkFault::NoMemory) => Err(OpenFault::NoMemory),
        Err(fault) => Err(OpenFault::Mark(fault, Text::from(place))),
    }
}

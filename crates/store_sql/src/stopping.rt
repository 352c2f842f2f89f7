//! A stop of the work, and what is found when the database is opened again.
ghost use Rattle.std.specs.Prelude.{IfOk, IsTrue};
ghost use Rattle.sqlite.specs.Held.{state};
ghost use Rattle.sql_rows.specs.Opening.{IsOurs};
ghost use Rattle.hub_rows.specs.Stops.{IsKept};
ghost use Rattle.store_sql.specs.Store.{IsCleanSql, sql_rows, sql_may_find, sql_view};

use crate::fault::{PrepareFault, fault};
use crate::opening::has_all_tables;
use crate::sql_store::SqlStore;
use hub_rows::Reopens;
use sqlite::{Alter, Connection};
use sqlite_trees::error::StoreError;
use sqlite_trees::store::Reopen;
use std::alloc::Global;

/// Opens the database again of a store whose work stops.
///
/// The disk is one that can be made to crash. What it keeps of what was written is its own choice. Errors: those of
/// `SqlStore::adopt`, and NotOurs where the database that is found lacks tables.
pub fn stopped_and_opened<A: Alter + Reopen + Drop>(
    alloc: Global,
    store: SqlStore<A>,
) -> Result<SqlStore<A>, PrepareFault>
    ensures found { IfOk result (λ s. IsTrue (state A.Store s.conn).is_open → sql_may_find A.Store store (sql_rows A.Store s)) }
    ensures clean { IfOk result (λ s. IsOurs (state A.Store s.taken) → IsTrue (state A.Store s.conn).is_open → IsCleanSql A.Store s) }
    ensures kept { IfOk result (λ s. IsOurs (state A.Store s.taken) → IsKept (sql_view A.Store s)) }
{
    let mut pages = store.into_connection().into_store();
    if let Err(error) = pages.crash_and_reopen() {
        return Err(unread(error));
    }
    match Connection::over(alloc, pages) {
        Ok(conn) => {
            if !has_all_tables(&conn) {
                return Err(PrepareFault::NotOurs);
            }
            SqlStore::adopt(alloc, conn)
        }
        Err((error, _pages)) => Err(fault(error)),
    }
}

impl<A: Alter + Reopen + Drop> Reopens for SqlStore<A> {
    type Refused = PrepareFault;

    ghost is_open = { λ s. IsTrue (state A.Store s.conn).is_open };

    fn stop_and_reopen(self, alloc: Global) -> Result<SqlStore<A>, PrepareFault> {
        stopped_and_opened(alloc, self)
    }
}

fn unread(error: StoreError) -> PrepareFault {
    match error {
        StoreError::OutOfMemory => PrepareFault::NoMemory,
        _ => PrepareFault::Failed,
    }
}

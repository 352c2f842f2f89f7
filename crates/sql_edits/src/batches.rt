//! Batches of changes: how one begins, and how it is committed or undone.
ghost use Rattle.std.specs.Prelude.{◌<◌, ◌^◌, OnOk};
ghost use Rattle.sqlite.specs.Held.{state};
ghost use Rattle.sql_rows.specs.Kept.{IsSame};
ghost use Rattle.sql_edits.specs.Batches.{Begins, Commits, GoesBack, IsCounted, Marks, Releases, TellsGoing, Tries, Undoes, same_rows};

use crate::binds::done;
use crate::counts::put_count;
use hub_rows::StoreFault;
use sqlite::{Alter, Connection};

/// Begins a batch, where none is open.
pub(crate) fn begin<S: Alter>(conn: &mut Connection<S>) -> Result<(), StoreFault>
    ensures begins { Begins (state S.Store conn.old) (state S.Store conn.new) result }
{
    if !conn.is_autocommit() {
        return Ok(());
    }
    done(conn.execute(sql_tables::batches::BEGIN, &[]))
}

/// Why a change isn't made in a batch.
#[derive(Clone, Copy, Debug, PartialEq, Eq, Drop)]
pub enum NotMade {
    /// It is undone alone: the batch is as it was.
    Alone(StoreFault),
    /// Some of it may be made: the batch has to be undone.
    WithBatch(StoreFault),
}

/// Begins a change of a batch.
pub(crate) fn mark<S: Alter>(conn: &mut Connection<S>) -> Result<(), StoreFault>
    ensures marks { Marks (state S.Store conn.old) (state S.Store conn.new) result }
{
    done(conn.execute(sql_tables::batches::SAVEPOINT, &[]))
}

/// Ends a change of a batch, with what it has made.
pub(crate) fn release<S: Alter>(conn: &mut Connection<S>) -> Result<(), StoreFault>
    ensures releases { Releases (state S.Store conn.old) (state S.Store conn.new) result }
{
    done(conn.execute(sql_tables::batches::RELEASE, &[]))
}

/// Undoes what a change of a batch has made so far.
pub(crate) fn go_back<S: Alter>(conn: &mut Connection<S>) -> Result<(), StoreFault>
    ensures goes_back { GoesBack (state S.Store conn.old) (state S.Store conn.new) result }
{
    done(conn.execute(sql_tables::batches::ROLLBACK_TO, &[]))
}

/// Undoes the batch, if one is open.
pub fn undo<S: Alter>(conn: &mut Connection<S>)
    ensures undoes { Undoes (state S.Store conn.old) (state S.Store conn.new) }
{
    // an error says that a failure has undone it
    let _ = conn.execute(sql_tables::batches::ROLLBACK, &[]);
}

fn commit<S: Alter>(conn: &mut Connection<S>) -> Result<(), StoreFault>
    ensures commits { Commits IsSame (state S.Store conn.old) (state S.Store conn.new) result }
{
    done(conn.execute(sql_tables::batches::COMMIT, &[]))
}

/// Commits the batch, with which so many changes are on record.
pub fn flush<S: Alter>(conn: &mut Connection<S>, changes: u64) -> Result<(), StoreFault>
    ensures commits { Commits (IsCounted same_rows changes) (state S.Store conn.old) (state S.Store conn.new) result }
    ensures small { OnOk result (changes < 2 ^ 63) }
{
    put_count(conn, changes)?;
    commit(conn)
}

/// Whether the batch that was open is still there, after a call that failed.
pub fn goes_on<S: Alter>(conn: &mut Connection<S>) -> bool
    ensures tells { TellsGoing (state S.Store conn.old) (state S.Store conn.new) result }
{
    match mark(conn) {
        Ok(()) => release(conn).is_ok(),
        Err(_) => false,
    }
}

/// Tries whether a connection without a batch is open.
pub fn rest<S: Alter>(conn: &mut Connection<S>) -> Result<(), StoreFault>
    ensures tries { Tries (state S.Store conn.old) (state S.Store conn.new) result }
{
    done(conn.execute(sql_tables::batches::BEGIN, &[]))?;
    commit(conn)
}

//! Changes that wait for a flush, in a batch of the connection.
ghost use Rattle.std.specs.Prelude.{◌≡◌, ◌≢◌, false, true, OnErr, OnOk};
ghost use Rattle.hub_rows.specs.Changes.{edit, EditFits};
ghost use Rattle.hub_rows.specs.Rows.{Rows};
ghost use Rattle.hub_rows.specs.Stops.{FindsOld, FindsOldOr, FindsSound, IsKept, IsRenewed, IsWhole, PutsOnRecord, Records, StaysOnRecord};
ghost use Rattle.store_sql.specs.Store.{HasCounted, HoldsAll, IsCleanSql, sql_rows, sql_view};
ghost use Rattle.sqlite.specs.Held.{state};
ghost use Rattle.sql_edits.specs.Batches.{Undoes};

use crate::mark::Mark;
use crate::sql_store::SqlStore;
use hub_rows::{Change, Flush, StoreFault};
use sql_edits::NotMade;
use sqlite::{Alter, Connection};

/// Undoes the batch of so many changes. Answers whether they are gone, or some of a change may still be there.
fn undo<A: Alter>(conn: &mut Connection<A>, waiting: u64) -> bool
    ensures undoes { Undoes (state A.Store conn.old) (state A.Store conn.new) }
    ensures none { result ≡ false → (waiting ≡ 0) × ((state A.Store conn.new).in_transaction ≡ false) }
{
    sql_edits::undo(conn);
    waiting > 0 || !conn.is_autocommit()
}

/// Notes in the mark, if there is one, how many changes are on record.
fn note(mark: &Option<Mark>, changes: u64) {
    if let Some(mark) = mark {
        mark.put(changes);
    }
}

impl<A: Alter> SqlStore<A> {
    /// Whether changes that waited are gone: their batch is over, and wasn't committed.
    fn has_lost(&self) -> bool
        ensures { result ≡ false → HoldsAll (state A.Store self.now.conn) self.now.waiting self.now.lost }
    {
        self.lost || self.waiting > 0 && self.conn.is_autocommit()
    }

    /// Makes a change, and puts it on record or adds it to those that wait.
    pub(crate) fn put(&mut self, change: &Change<'_>, when: Flush) -> Result<(), StoreFault>
        requires { IsCleanSql A.Store self.old → EditFits change.now.op.now change.now.edit.now (sql_rows A.Store self.old) }
        ensures was_clean { IsCleanSql A.Store self.new → IsCleanSql A.Store self.old }
        ensures made { OnOk result (HasCounted self.old 1 self.new) }
        ensures failures { self.new.failures ≡ self.old.failures }
        ensures ok { IsCleanSql A.Store self.new → OnOk result (sql_rows A.Store self.new ≡ edit change.now.op.now change.now.edit.now (sql_rows A.Store self.old)) }
        ensures err { IsCleanSql A.Store self.new → OnErr result (sql_rows A.Store self.new ≡ sql_rows A.Store self.old) }
        ensures records { Records when (edit change.now.op.now change.now.edit.now (sql_rows A.Store self.old)) (sql_view A.Store self.old) (sql_view A.Store self.new) result }
    {
        match when {
            Flush::AtOnce => self.put_now(change),
            Flush::Later => self.add(change),
        }
    }

    /// Makes a change and commits it, with those that wait.
    fn put_now(&mut self, change: &Change<'_>) -> Result<(), StoreFault>
        requires { IsCleanSql A.Store self.old → EditFits change.now.op.now change.now.edit.now (sql_rows A.Store self.old) }
        ensures was_clean { IsCleanSql A.Store self.new → IsCleanSql A.Store self.old }
        ensures made { OnOk result (HasCounted self.old 1 self.new) }
        ensures failures { self.new.failures ≡ self.old.failures }
        ensures ok { IsCleanSql A.Store self.new → OnOk result (sql_rows A.Store self.new ≡ edit change.now.op.now change.now.edit.now (sql_rows A.Store self.old)) }
        ensures err { IsCleanSql A.Store self.new → OnErr result (sql_rows A.Store self.new ≡ sql_rows A.Store self.old) }
        ensures stopped { FindsOldOr (edit change.now.op.now change.now.edit.now (sql_rows A.Store self.old)) (sql_view A.Store self.old) (sql_view A.Store self.new) }
        ensures kept { IsKept (sql_view A.Store self.old) → OnOk result (IsKept (sql_view A.Store self.new)) }
    {
        if self.waiting > 0 {
            self.add(change)?;
            return self.commit();
        }
        self.put_alone(change)
    }

    /// Makes a change and commits it, where none waits. One that fails is undone.
    fn put_alone(&mut self, change: &Change<'_>) -> Result<(), StoreFault>
        requires none { self.old.waiting ≡ 0 }
        requires fits { IsCleanSql A.Store self.old → EditFits change.now.op.now change.now.edit.now (sql_rows A.Store self.old) }
        ensures was_clean { IsCleanSql A.Store self.new → IsCleanSql A.Store self.old }
        ensures made { OnOk result (HasCounted self.old 1 self.new) }
        ensures failures { self.new.failures ≡ self.old.failures }
        ensures ok { IsCleanSql A.Store self.new → OnOk result (sql_rows A.Store self.new ≡ edit change.now.op.now change.now.edit.now (sql_rows A.Store self.old)) }
        ensures err { IsCleanSql A.Store self.new → OnErr result (sql_rows A.Store self.new ≡ sql_rows A.Store self.old) }
        ensures stopped { FindsOldOr (edit change.now.op.now change.now.edit.now (sql_rows A.Store self.old)) (sql_view A.Store self.old) (sql_view A.Store self.new) }
        ensures puts { OnOk result (PutsOnRecord (sql_view A.Store self.old) (sql_view A.Store self.new)) }
    {
        if self.has_lost() {
            return Err(StoreFault::Failed);
        }
        let changes = self.changes.saturating_add(1);
        match sql_edits::apply_now(&mut self.conn, self.alloc, change, changes) {
            Ok(()) => {
                note(&self.mark, changes);
                self.changes = changes;
                self.waiting = 0;
                Ok(())
            }
            Err(fault) => {
                self.lost = undo(&mut self.conn, self.waiting);
                Err(fault)
            }
        }
    }

    /// Adds a change to those that wait. One that fails is undone alone, where that is possible.
    fn add(&mut self, change: &Change<'_>) -> Result<(), StoreFault>
        requires { IsCleanSql A.Store self.old → EditFits change.now.op.now change.now.edit.now (sql_rows A.Store self.old) }
        ensures was_clean { IsCleanSql A.Store self.new → IsCleanSql A.Store self.old }
        ensures made { OnOk result (HasCounted self.old 1 self.new) }
        ensures failures { self.new.failures ≡ self.old.failures }
        ensures ok { IsCleanSql A.Store self.new → OnOk result (sql_rows A.Store self.new ≡ edit change.now.op.now change.now.edit.now (sql_rows A.Store self.old)) }
        ensures err { IsCleanSql A.Store self.new → OnErr result (sql_rows A.Store self.new ≡ sql_rows A.Store self.old) }
        ensures waits { OnOk result (StaysOnRecord (sql_view A.Store self.old) (sql_view A.Store self.new)) }
        ensures left { OnErr result (FindsOld (sql_view A.Store self.old) (sql_view A.Store self.new)) }
    {
        if self.has_lost() {
            return Err(StoreFault::Failed);
        }
        if self.waiting > 0 {
            self.add_more(change)
        } else {
            self.add_first(change)
        }
    }

    /// Begins a batch with a change.
    fn add_first(&mut self, change: &Change<'_>) -> Result<(), StoreFault>
        requires fits { IsCleanSql A.Store self.old → EditFits change.now.op.now change.now.edit.now (sql_rows A.Store self.old) }
        requires holds { HoldsAll (state A.Store self.old.conn) self.old.waiting self.old.lost }
        ensures was_clean { IsCleanSql A.Store self.new → IsCleanSql A.Store self.old }
        ensures made { OnOk result (HasCounted self.old 1 self.new) }
        ensures failures { self.new.failures ≡ self.old.failures }
        ensures ok { IsCleanSql A.Store self.new → OnOk result (sql_rows A.Store self.new ≡ edit change.now.op.now change.now.edit.now (sql_rows A.Store self.old)) }
        ensures err { IsCleanSql A.Store self.new → OnErr result (sql_rows A.Store self.new ≡ sql_rows A.Store self.old) }
        ensures waits { OnOk result (StaysOnRecord (sql_view A.Store self.old) (sql_view A.Store self.new)) }
        ensures left { OnErr result (FindsOld (sql_view A.Store self.old) (sql_view A.Store self.new)) }
    {
        match sql_edits::apply(&mut self.conn, self.alloc, change) {
            Ok(()) => {
                self.waiting = self.waiting.saturating_add(1);
                Ok(())
            }
            Err(fault) => {
                self.lost = undo(&mut self.conn, self.waiting);
                Err(fault)
            }
        }
    }

    /// Adds a change to a batch.
    fn add_more(&mut self, change: &Change<'_>) -> Result<(), StoreFault>
        requires fits { IsCleanSql A.Store self.old → EditFits change.now.op.now change.now.edit.now (sql_rows A.Store self.old) }
        requires holds { HoldsAll (state A.Store self.old.conn) self.old.waiting self.old.lost }
        requires some { self.old.waiting ≢ 0 }
        ensures was_clean { IsCleanSql A.Store self.new → IsCleanSql A.Store self.old }
        ensures made { OnOk result (HasCounted self.old 1 self.new) }
        ensures failures { self.new.failures ≡ self.old.failures }
        ensures ok { IsCleanSql A.Store self.new → OnOk result (sql_rows A.Store self.new ≡ edit change.now.op.now change.now.edit.now (sql_rows A.Store self.old)) }
        ensures err { IsCleanSql A.Store self.new → OnErr result (sql_rows A.Store self.new ≡ sql_rows A.Store self.old) }
        ensures waits { OnOk result (StaysOnRecord (sql_view A.Store self.old) (sql_view A.Store self.new)) }
        ensures left { OnErr result (FindsOld (sql_view A.Store self.old) (sql_view A.Store self.new)) }
    {
        match sql_edits::apply_more(&mut self.conn, self.alloc, change) {
            Ok(()) => {
                self.waiting = self.waiting.saturating_add(1);
                Ok(())
            }
            Err(NotMade::Alone(fault)) => Err(fault),
            Err(NotMade::WithBatch(fault)) => {
                sql_edits::undo(&mut self.conn);
                self.lost = true;
                Err(fault)
            }
        }
    }

    /// Commits the changes that wait.
    pub(crate) fn commit(&mut self) -> Result<(), StoreFault>
        ensures was_clean { IsCleanSql A.Store self.new → IsCleanSql A.Store self.old }
        ensures made { OnOk result (HasCounted self.old 0 self.new) }
        ensures failures { self.new.failures ≡ self.old.failures }
        ensures rows { IsCleanSql A.Store self.new → sql_rows A.Store self.new ≡ sql_rows A.Store self.old }
        ensures stopped { FindsOldOr (sql_rows A.Store self.old) (sql_view A.Store self.old) (sql_view A.Store self.new) }
        ensures kept { OnOk result (PutsOnRecord (sql_view A.Store self.old) (sql_view A.Store self.new)) }
        ensures lost { OnErr result (¬ IsCleanSql A.Store self.new) }
    {
        if self.has_lost() {
            self.lost = true;
            return Err(StoreFault::Failed);
        }
        if self.waiting == 0 {
            return Ok(());
        }
        let changes = self.changes.saturating_add(self.waiting);
        match sql_edits::flush(&mut self.conn, changes) {
            Ok(()) => {
                note(&self.mark, changes);
                self.changes = changes;
                self.waiting = 0;
                Ok(())
            }
            Err(fault) => {
                sql_edits::undo(&mut self.conn);
                self.lost = true;
                Err(fault)
            }
        }
    }

    /// Whether the store has all changes that wait, and its connection is open. Otherwise they count as gone.
    pub(crate) fn is_whole(&mut self) -> bool
        ensures whole { result ≡ true → IsWhole (sql_view A.Store self.old) (sql_view A.Store self.new) }
        ensures stopped { FindsSound (sql_view A.Store self.old) → (r : Rows) → (sql_view A.Store self.new).may_find r → (sql_view A.Store self.old).may_find r }
        ensures failures { self.new.failures ≡ self.old.failures }
        ensures taken { self.new.taken ≡ self.old.taken }
    {
        if self.has_lost() {
            return false;
        }
        if self.waiting > 0 {
            self.has_batch()
        } else {
            self.is_resting()
        }
    }

    /// Whether the batch of changes that wait goes on.
    fn has_batch(&mut self) -> bool
        requires holds { HoldsAll (state A.Store self.old.conn) self.old.waiting self.old.lost }
        requires some { self.old.waiting ≢ 0 }
        ensures whole { result ≡ true → IsWhole (sql_view A.Store self.old) (sql_view A.Store self.new) }
        ensures stopped { FindsSound (sql_view A.Store self.old) → (r : Rows) → (sql_view A.Store self.new).may_find r → (sql_view A.Store self.old).may_find r }
        ensures failures { self.new.failures ≡ self.old.failures }
        ensures taken { self.new.taken ≡ self.old.taken }
    {
        if sql_edits::goes_on(&mut self.conn) {
            return true;
        }
        self.lost = true;
        false
    }

    /// Whether the connection is open, where no change waits.
    fn is_resting(&mut self) -> bool
        requires holds { HoldsAll (state A.Store self.old.conn) self.old.waiting self.old.lost }
        requires none { self.old.waiting ≡ 0 }
        ensures whole { result ≡ true → IsWhole (sql_view A.Store self.old) (sql_view A.Store self.new) }
        ensures stopped { FindsSound (sql_view A.Store self.old) → (r : Rows) → (sql_view A.Store self.new).may_find r → (sql_view A.Store self.old).may_find r }
        ensures failures { self.new.failures ≡ self.old.failures }
        ensures taken { self.new.taken ≡ self.old.taken }
    {
        match sql_edits::rest(&mut self.conn) {
            Ok(()) => true,
            Err(_) => {
                self.lost = true;
                false
            }
        }
    }

    /// Undoes the changes that wait, if there are any. The store has the rows that are on record.
    pub(crate) fn renew(&mut self) -> Result<(), StoreFault>
        ensures renewed { OnOk result (IsRenewed (sql_view A.Store self.old) (sql_view A.Store self.new)) }
        ensures lost { OnErr result (¬ IsCleanSql A.Store self.new) }
        ensures stopped { FindsSound (sql_view A.Store self.old) → (r : Rows) → (sql_view A.Store self.new).may_find r → (sql_view A.Store self.old).may_find r }
        ensures failures { self.new.failures ≡ self.old.failures }
        ensures taken { self.new.taken ≡ self.old.taken }
    {
        self.lost = true;
        sql_edits::undo(&mut self.conn);
        if !self.conn.is_autocommit() {
            return Err(StoreFault::Failed);
        }
        sql_edits::rest(&mut self.conn)?;
        self.waiting = 0;
        self.lost = false;
        Ok(())
    }
}

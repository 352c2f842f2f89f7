//! The store over a connection.
ghost use Rattle.std.specs.Prelude.{◌≡◌, ◌+◌, ◌<◌, ◌≤◌, Err, IsTrue};
ghost use Rattle.hub_rows.specs.Failures.{Rose};
ghost use Rattle.hub_rows.specs.declared.store.StoreFault.TheVariants as store_fault;

use crate::fault::{PrepareFault, fault};
use crate::mark::Mark;
use crate::opening::{changes, prepare};
use hub_rows::{
    Change, ConnectorRow, Flush, GrantRow, GrantedTag, History, Info, LocalList, MeterValueRow,
    Reader, ReaderRow, Recovered, Registration, ReportRow, ReservationId, ReservationRow, StartKey,
    StationRow, Store, StoreFault, TagRow, TxKey, TxRow, TxState, UseRow,
};
use ocpp_types::{Listed, Moment, TagKey, Text};
use sql_lookups::{
    connectors, forget, granted, grants, local_lists, readers, reports, reservations,
    station_values, stations, tags, txs, uses, values,
};
use sqlite::{Alter, Connection, FileFrom, FileStore, MemStore, Start};
use std::alloc::Global;
use std::marker::Model;
use std::snapshot::Snapshot;

/// Records in a database.
///
/// It is clean where the rows that it took over were written by this project and the connection
/// is open. A connection that is shut answers Failed from then on, and the database has to be
/// opened again.
#[derive(Drop)]
pub struct SqlStore<A: Alter> {
    pub(crate) alloc: Global,
    pub(crate) conn: Connection<A>,
    failures: u64,
    /// The connection as it was taken over, which takes no memory.
    taken: Snapshot<Connection<A>>,
    /// How many changes are on record.
    pub(crate) changes: u64,
    /// How many changes wait for a flush, in the batch that is open.
    pub(crate) waiting: u64,
    /// Whether changes that waited are gone.
    pub(crate) lost: bool,
    /// Where the count of changes is noted too, beside the file of the database.
    pub(crate) mark: Option<Mark>,
    /// As how many rows the meter values of a listing may count.
    longest: usize,
}

/// The steps of a statement that visits so many rows, each by its place in an index, and then finds no more.
fn steps_of(rows: u32) -> u64 {
    u64::from(rows).saturating_mul(2).saturating_add(1)
}

impl<A: Alter> Model for SqlStore<A> {
    ghost use Rattle.sqlite.specs.Held.{state};
    ghost use Rattle.store_sql.specs.Store.{KeepsIfOurs, SqlView, sql_code};

    ghost Value = { SqlView A };

    ghost coded = { sql_code A.code };

    ghost view = { λ s. record { conn = s.conn; failures = s.failures; taken = s.taken.value; changes = s.changes; waiting = s.waiting; lost = s.lost } };

    ghost invariant = { λ s. KeepsIfOurs (state A.Store s.taken.value) (state A.Store s.conn) s.changes s.waiting s.lost };
}

impl<A: Alter> SqlStore<A> {
    ghost use Rattle.std.specs.Prelude.{IfOk, false};
    ghost use Rattle.store_sql.specs.Store.{IsCleanSql, KeepsIfOurs, sql_rows, sql_view};
    ghost use Rattle.hub_rows.specs.Reads.{OnlyReads};
    ghost use Rattle.sql_lookups.specs.Asks.{next_operator_in};
    ghost use Rattle.sql_rows.specs.Kept.{changes_in};
    ghost use Rattle.sql_rows.specs.Opening.{IsOurs};
    ghost use Rattle.sqlite.specs.Held.{state};

    /// The store over a connection that is prepared, on which so many changes are on record.
    pub(crate) fn over(
        alloc: Global,
        taken: Snapshot<Connection<A>>,
        conn: Connection<A>,
        changes: u64,
    ) -> SqlStore<A>
        requires { KeepsIfOurs (state A.Store taken.value) (state A.Store conn) changes 0 false }
        ensures { result ≡ record { conn = conn; failures = 0; taken = taken.value; changes = changes; waiting = 0; lost = false } }
    {
        SqlStore {
            alloc,
            conn,
            failures: 0,
            taken,
            changes,
            waiting: 0,
            lost: false,
            mark: None,
            longest: usize::MAX,
        }
    }

    /// How many changes are on record.
    pub fn changes(&self) -> u64
        ensures counted { IsOurs (state A.Store self.now.taken) → IsTrue (state A.Store self.now.conn).is_open → result ≡ changes_in (state A.Store self.now.conn).committed.trees }
    {
        self.changes
    }

    /// From now on the count of changes is noted in that mark, once they are on record.
    pub fn keep_mark(&mut self, mark: Mark)
        ensures { self.new ≡ self.old }
    {
        self.mark = Some(mark);
    }

    /// The first of the operators with stations on record that come after a name.
    pub fn next_operator(&mut self, after: &str) -> Result<Option<Text>, StoreFault>
        ensures reads { OnlyReads (sql_view A.Store) self.old self.new result }
        ensures found { IsCleanSql A.Store self.new → IfOk result (λ r. r ≡ next_operator_in after.now (sql_rows A.Store self.old).stations) }
    {
        let found = stations::next_operator(&mut self.conn, after);
        self.counted(found)
    }

    /// What was done, counted if the store failed.
    fn counted<T>(&mut self, done: Result<T, StoreFault>) -> Result<T, StoreFault>
        ensures same { result ≡ done }
        ensures failed { done ≡ Err store_fault.Failed → Rose self.old.failures self.new.failures }
        ensures count { self.old.failures ≤ self.new.failures }
        ensures rest { self.new ≡ record self.old { failures = self.new.failures } }
    {
        if let Err(StoreFault::Failed) = &done {
            self.failures = self.failures.saturating_add(1);
        }
        done
    }
}

impl<A: Alter + Drop> SqlStore<A> {
    ghost use Rattle.std.specs.Prelude.{Ok, IfOk, IsTrue, ⊤};
    ghost use Rattle.store_sql.specs.declared.fault.PrepareFault.{PrepareFault as Unfit};
    ghost use Rattle.hub_rows.specs.Stops.{IsKept};
    ghost use Rattle.store_sql.specs.Store.{IsCleanSql, sql_rows, sql_view};
    ghost use Rattle.sql_rows.specs.Opening.{IsOurs, Prepares};
    ghost use Rattle.sqlite.specs.Held.{state};

    /// The store over a connection, whose tables are made if its database is empty or has an earlier schema.
    pub fn adopt(alloc: Global, conn: Connection<A>) -> Result<SqlStore<A>, PrepareFault>
        ensures clean { IfOk result (λ s. IsOurs (state A.Store conn) → IsTrue (state A.Store s.conn).is_open → IsCleanSql A.Store s) }
        ensures prepares { IfOk result (λ s. Prepares {A = ⊤} {E = Unfit} (state A.Store conn) (state A.Store s.conn) (Ok tt)) }
        ensures fresh { IfOk result (λ s. (s.taken ≡ conn) × (s.failures ≡ 0)) }
        ensures kept { IsOurs (state A.Store conn) → IfOk result (λ s. IsKept (sql_view A.Store s)) }
    {
        let taken = Snapshot::of(&conn);
        let mut conn = conn;
        prepare(&mut conn, alloc)?;
        let changes = changes(&mut conn)?;
        if !conn.is_autocommit() {
            return Err(PrepareFault::Failed);
        }
        Ok(SqlStore::over(alloc, taken, conn, changes))
    }

    /// The same store, of which no statement visits more than so many rows, and no meter values are listed that count as
    /// more, each reading as two rows. What would take more answers TooLong, and changes nothing.
    pub fn with_longest(self, rows: u32) -> SqlStore<A>
        ensures rows { sql_rows A.Store result ≡ sql_rows A.Store self }
        ensures clean { IsCleanSql A.Store self → IsCleanSql A.Store result }
        ensures kept { IsKept (sql_view A.Store self) → IsKept (sql_view A.Store result) }
    {
        let mut conn = self.conn;
        conn.set_step_limit(Some(steps_of(rows)));
        SqlStore {
            alloc: self.alloc,
            conn,
            failures: self.failures,
            taken: self.taken,
            changes: self.changes,
            waiting: self.waiting,
            lost: self.lost,
            mark: self.mark,
            longest: rows as usize,
        }
    }

    /// Its connection. What a clean store has can be taken over again, once the changes that wait are flushed.
    pub fn into_connection(self) -> Connection<A>
        ensures same { result ≡ self.conn }
        ensures ours { IsCleanSql A.Store self → IsOurs (state A.Store result) }
    {
        self.conn
    }
}

impl SqlStore<MemStore> {
    ghost use Rattle.std.specs.Prelude.{IfOk};
    ghost use Rattle.sqlite.specs.Steps.{over_memory};
    ghost use Rattle.hub_rows.specs.Rows.{no_rows};
    ghost use Rattle.hub_rows.specs.Stops.{IsKept};
    ghost use Rattle.store_sql.specs.Store.{IsCleanSql, sql_rows, sql_view};

    /// A store with no rows, in memory.
    pub fn open_in_memory(alloc: Global) -> Result<SqlStore<MemStore>, PrepareFault>
        ensures clean { IfOk result (IsCleanSql over_memory) }
        ensures empty { IfOk result (λ s. sql_rows over_memory s ≡ no_rows) }
        ensures kept { IfOk result (λ s. IsKept (sql_view over_memory s)) }
    {
        let conn = Connection::open_in_memory(alloc)?;
        SqlStore::adopt(alloc, conn)
    }
}

impl<S: Start> SqlStore<FileStore<FileFrom<S>>> {
    ghost use Rattle.std.specs.Prelude.{Ok, IfOk, IsTrue, ⊤};
    ghost use Rattle.store_sql.specs.declared.fault.PrepareFault.{PrepareFault as Unfit};
    ghost use Rattle.hub_rows.specs.Stops.{IsKept};
    ghost use Rattle.store_sql.specs.Store.{IsCleanSql, sql_view};
    ghost use Rattle.sql_rows.specs.Opening.{IsOurs, Prepares};
    ghost use Rattle.sqlite.specs.Files.{file_state, over_files};
    ghost use Rattle.sqlite.specs.Start.{FindsIn};
    ghost use Rattle.sqlite.specs.State.{HasCleanDisk};
    ghost use Rattle.sqlite_wal.specs.Files.{image_at};

    /// The store in the file of a database at a path, which is made if there is none. Errors: those of `PrepareFault`; the
    /// file is then as it was, or has all tables of this schema.
    pub fn open(
        rt: &HostRuntime,
        path: &str,
        start: S,
    ) -> Result<SqlStore<FileStore<FileFrom<S>>>, PrepareFault>
        ensures found { IfOk result (λ s. HasCleanDisk (file_state s.taken) → FindsIn (image_at S.Start) (file_state s.taken)) }
        ensures clean { IfOk result (λ s. IsOurs (file_state s.taken) → IsTrue (file_state s.conn).is_open → IsCleanSql over_files s) }
        ensures prepares { IfOk result (λ s. Prepares {A = ⊤} {E = Unfit} (file_state s.taken) (file_state s.conn) (Ok tt)) }
        ensures failures { IfOk result (λ s. s.failures ≡ 0) }
        ensures kept { IfOk result (λ s. IsOurs (file_state s.taken) → IsKept (sql_view over_files s)) }
    {
        match Connection::open_from(rt, path, false, start) {
            Ok(conn) => SqlStore::adopt(rt.alloc(), conn),
            Err((error, _)) => Err(fault(error)),
        }
    }
}

impl<A: Alter> Store for SqlStore<A> {
    ghost use Rattle.store_sql.specs.Store.{sql_view};

    ghost view = { sql_view A.Store };

    ghost well_formed = { λ s clean. clean.good };

    fn station(&mut self, op: &str, station: &str) -> Result<Option<Registration>, StoreFault> {
        let found = stations::registration(&mut self.conn, op, station);
        self.counted(found)
    }

    fn own_tag(&mut self, op: &str, key: &TagKey) -> Result<Option<Info>, StoreFault> {
        let found = tags::own_tag(&mut self.conn, self.alloc, op, key.as_str());
        self.counted(found)
    }

    fn granted_tag(&mut self, op: &str, key: &TagKey) -> Result<Option<Info>, StoreFault> {
        let found = granted::granted_tag(&mut self.conn, self.alloc, op, key.as_str());
        self.counted(found)
    }

    fn has_grant(&mut self, op: &str, key: &TagKey, to: &str) -> Result<bool, StoreFault> {
        let found = grants::has_grant(&mut self.conn, op, key.as_str(), to);
        self.counted(found)
    }

    fn is_used(
        &mut self,
        op: &str,
        key: &TagKey,
        except: &Option<TxKey>,
    ) -> Result<bool, StoreFault> {
        let found = txs::is_used(&mut self.conn, op, key.as_str(), except);
        self.counted(found)
    }

    fn same_start(
        &mut self,
        op: &str,
        station: &str,
        start: &StartKey,
    ) -> Result<Option<u32>, StoreFault> {
        let found = txs::same_start(&mut self.conn, op, station, start);
        self.counted(found)
    }

    fn tx(&mut self, op: &str, station: &str, number: u32) -> Result<Option<TxState>, StoreFault> {
        let found = txs::tx(&mut self.conn, op, station, number);
        self.counted(found)
    }

    fn has_open(&mut self, op: &str, station: &str) -> Result<bool, StoreFault> {
        let found = txs::has_open(&mut self.conn, op, station);
        self.counted(found)
    }

    fn last_tx(&mut self, op: &str, station: &str) -> Result<u32, StoreFault> {
        let found = txs::last_tx(&mut self.conn, op, station);
        self.counted(found)
    }

    fn last_reading(&mut self, op: &str, station: &str) -> Result<u32, StoreFault> {
        let found = values::last_reading(&mut self.conn, op, station);
        self.counted(found)
    }

    fn reserved_until(
        &mut self,
        op: &str,
        station: &str,
        id: ReservationId,
    ) -> Result<Option<Moment>, StoreFault> {
        let found = reservations::reserved_until(&mut self.conn, op, station, id);
        self.counted(found)
    }

    fn local_list(&mut self, op: &str, station: &str) -> Result<Option<LocalList>, StoreFault> {
        let found = local_lists::local_list(&mut self.conn, self.alloc, op, station);
        self.counted(found)
    }

    fn stations(&mut self, op: &str) -> Result<Listed<StationRow>, StoreFault> {
        let found = stations::stations(&mut self.conn, op);
        self.counted(found)
    }

    fn tags(&mut self, op: &str) -> Result<Listed<TagRow>, StoreFault> {
        let found = tags::tags(&mut self.conn, op);
        self.counted(found)
    }

    fn grants_out(&mut self, op: &str) -> Result<Listed<GrantRow>, StoreFault> {
        let found = grants::grants_out(&mut self.conn, op);
        self.counted(found)
    }

    fn granted(&mut self, op: &str) -> Result<Listed<GrantedTag>, StoreFault> {
        let found = granted::granted(&mut self.conn, self.alloc, op);
        self.counted(found)
    }

    fn connectors(&mut self, op: &str, station: &str) -> Result<Listed<ConnectorRow>, StoreFault> {
        let found = connectors::connectors(&mut self.conn, op, station);
        self.counted(found)
    }

    fn txs(&mut self, op: &str, station: &str, first: u32) -> Result<Listed<TxRow>, StoreFault> {
        let found = txs::txs(&mut self.conn, op, station, first);
        self.counted(found)
    }

    fn open_txs(&mut self, op: &str) -> Result<Listed<TxRow>, StoreFault> {
        let found = txs::open_txs(&mut self.conn, op);
        self.counted(found)
    }

    fn forgettable(
        &mut self,
        op: &str,
        station: &str,
        until: Moment,
    ) -> Result<History, StoreFault> {
        let found = forget::forgettable(&mut self.conn, self.alloc, op, station, until);
        self.counted(found)
    }

    fn meter_values(
        &mut self,
        op: &str,
        station: &str,
        transaction: Option<u64>,
    ) -> Result<Listed<MeterValueRow>, StoreFault> {
        let found = station_values::meter_values(
            &mut self.conn,
            self.alloc,
            op,
            station,
            transaction,
            self.longest,
        );
        self.counted(found)
    }

    fn reservations(
        &mut self,
        op: &str,
        station: &str,
    ) -> Result<Listed<ReservationRow>, StoreFault> {
        let found = reservations::reservations(&mut self.conn, op, station);
        self.counted(found)
    }

    fn reports(&mut self, op: &str, station: &str) -> Result<Listed<ReportRow>, StoreFault> {
        let found = reports::reports(&mut self.conn, op, station);
        self.counted(found)
    }

    fn uses(&mut self, op: &str) -> Result<Listed<UseRow>, StoreFault> {
        let found = uses::uses(&mut self.conn, op);
        self.counted(found)
    }

    fn reader(&mut self, op: &str, station: &str) -> Result<Reader, StoreFault> {
        let found = readers::reader(&mut self.conn, op, station);
        self.counted(found)
    }

    fn readers(&mut self, op: &str) -> Result<Listed<ReaderRow>, StoreFault> {
        let found = readers::readers(&mut self.conn, op);
        self.counted(found)
    }

    fn apply(&mut self, change: &Change<'_>, when: Flush) -> Result<(), StoreFault> {
        let done = self.put(change, when);
        self.counted(done)
    }

    fn flush(&mut self) -> Result<(), StoreFault> {
        let done = self.commit();
        self.counted(done)
    }

    fn recover(&mut self) -> Result<Recovered, StoreFault> {
        if self.is_whole() {
            return Ok(Recovered::Whole);
        }
        let done = self.renew();
        self.counted(done)?;
        Ok(Recovered::Renewed)
    }
}

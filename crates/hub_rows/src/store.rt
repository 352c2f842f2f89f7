//! What a store of records promises.
ghost use Rattle.std.specs.Prelude.{◌≡◌, ◌≤◌, Err, IfOk, OnOk, OnErr};
ghost use Rattle.hub_rows.specs.Rows.{registration_at};
ghost use Rattle.hub_rows.specs.WellFormed.{WellFormedRows};
ghost use Rattle.hub_rows.specs.Tags.{own_tag_in};
ghost use Rattle.hub_rows.specs.Lookups.{stations_in, tags_in, connectors_in, local_list_in, reports_in, forgettable_in};
ghost use Rattle.hub_rows.specs.Transactions.{is_used_in, same_start_in, tx_in, has_open_in, open_txs_in, txs_from_in, last_tx_in};
ghost use Rattle.hub_rows.specs.Changes.{edit, EditFits};
ghost use Rattle.hub_rows.specs.Grants.{granted_in, granted_tag_in, grants_in, has_grant_in};
ghost use Rattle.hub_rows.specs.MeterValues.{last_reading_in, meter_values_in};
ghost use Rattle.hub_rows.specs.Readers.{reader_in, readers_in};
ghost use Rattle.hub_rows.specs.Reservations.{reservations_in, reserved_until_in};
ghost use Rattle.hub_rows.specs.Failures.{Rose};
ghost use Rattle.hub_rows.specs.Reads.{OnlyReads, IsCounted};
ghost use Rattle.hub_rows.specs.Stops.{FindsOldOr, PutsOnRecord, Records, Recovers};
ghost use Rattle.hub_rows.specs.Uses.{uses_in};
ghost use Rattle.hub_rows.specs.declared.store.StoreFault.TheVariants as store_fault;

use crate::change::Change;
use crate::connector_row::ConnectorRow;
use crate::forgettable::History;
use crate::grant_row::GrantRow;
use crate::info::{GrantedTag, Info};
use crate::list_row::LocalList;
use crate::meter_value_row::MeterValueRow;
use crate::reader_row::{Reader, ReaderRow};
use crate::report_row::ReportRow;
use crate::reservation_row::{ReservationId, ReservationRow};
use crate::station_row::{Registration, StationRow};
use crate::tag_row::TagRow;
use crate::tx_row::{StartKey, TxKey, TxRow, TxState};
use crate::use_row::UseRow;
use ocpp_types::{Listed, Moment, NoMemory, TagKey};
use std::alloc::{AllocError, AllocFailed};
use thiserror::Error;

/// Why a store doesn't answer. Its rows are as they were. Where a change met the fault and the store is opened again, the
/// change may be found made, whole.
#[derive(Clone, Copy, Debug, PartialEq, Eq, Drop, Error)]
pub enum StoreFault {
    #[error("out of memory")]
    NoMemory,
    /// What the store depends on failed, as a database.
    #[error("the store failed")]
    Failed,
    /// The answer has more rows than the store may give at once.
    #[error("too many rows")]
    TooLong,
}

/// When a change is put on record.
#[derive(Clone, Copy, Debug, PartialEq, Eq, Drop)]
pub enum Flush {
    /// With the change, and all that wait with it.
    AtOnce,
    /// By a call of its own, after this change or later ones.
    Later,
}

/// What a store finds that looks for the changes that wait.
#[derive(Clone, Copy, Debug, PartialEq, Eq, Drop)]
pub enum Recovered {
    /// They are all there.
    Whole,
    /// They are gone. The store has the rows that are on record.
    Renewed,
}

impl From<NoMemory> for StoreFault {
    ghost from_gives = { λ _ fault. fault ≡ store_fault.NoMemory };

    fn from(_refused: NoMemory) -> StoreFault {
        StoreFault::NoMemory
    }
}

impl From<AllocError> for StoreFault {
    ghost from_gives = { λ _ fault. fault ≡ store_fault.NoMemory };

    fn from(_refused: AllocError) -> StoreFault {
        StoreFault::NoMemory
    }
}

impl<T: Drop> From<AllocFailed<T>> for StoreFault {
    ghost from_gives = { λ _ fault. fault ≡ store_fault.NoMemory };

    fn from(_refused: AllocFailed<T>) -> StoreFault {
        StoreFault::NoMemory
    }
}

/// A store of the records of all operators.
///
/// What is said of its rows holds where it is clean as the call ends, and it then was clean
/// before. A read leaves the rows, and so does a fault. Failed comes only where the count of failures
/// rose; that it stays at other answers isn't said.
///
/// The work may stop in the middle of any call, and the store be opened again. Rows are on record where a reopening finds
/// them and no others; a store is kept where its own are. A read leaves what is on record, and
/// so does a change that waits for a flush. A change that is flushed at once is on record once its call is Ok; a stop during
/// the call, or during a flush, leaves what was on record, or the rows after it, whole. After a call that failed the changes
/// that wait may be gone: `recover` tells.
pub trait Store {
    ghost use Rattle.hub_rows.specs.StoreView.{StoreView};

    /// The store as contracts see it: its rows, how often it has failed, whether it is clean, and which rows a reopening
    /// may find.
    ghost view: { Self → StoreView };

    /// How a station of an operator is registered, `None` where it has no such station.
    fn station(&mut self, op: &str, station: &str) -> Result<Option<Registration>, StoreFault>
        ensures reads { OnlyReads view self.old self.new result }
        ensures found { (view self.new).clean
            → IfOk result (λ r. r ≡ registration_at op.now station.now (view self.old).rows) };

    /// The same as `station`. The row of the station may be that of the index `near` among all, in the order of their keys,
    /// which a store may look at first.
    fn station_near(
        &mut self,
        op: &str,
        station: &str,
        _near: usize,
    ) -> Result<Option<Registration>, StoreFault>
        ensures reads { OnlyReads view self.old self.new result }
        ensures found { (view self.new).clean
            → IfOk result (λ r. r ≡ registration_at op.now station.now (view self.old).rows) }
    {
        self.station(op, station)
    }

    /// The id tag of a key of an operator, as it counts: blocked by itself or by its parent.
    fn own_tag(&mut self, op: &str, key: &TagKey) -> Result<Option<Info>, StoreFault>
        ensures reads { OnlyReads view self.old self.new result }
        ensures found { (view self.new).clean
            → IfOk result (λ t. t ≡ own_tag_in op.now key.now (view self.old).rows.tags) };

    /// The id tag of a key that is granted to an operator: that of the first owner in the order of
    /// their names.
    fn granted_tag(&mut self, op: &str, key: &TagKey) -> Result<Option<Info>, StoreFault>
        ensures reads { OnlyReads view self.old self.new result }
        ensures found { (view self.new).clean
            → IfOk result (λ t. t ≡ granted_tag_in op.now key.now (view self.old).rows.tags (view self.old).rows.grants) };

    /// Whether an operator granted its id tag of a key to another.
    fn has_grant(&mut self, op: &str, key: &TagKey, to: &str) -> Result<bool, StoreFault>
        ensures reads { OnlyReads view self.old self.new result }
        ensures found { (view self.new).clean
            → IfOk result (λ r. r ≡ has_grant_in op.now key.now to.now (view self.old).rows.grants) };

    /// Whether the tag of a key is in use: whether a transaction of the operator that began
    /// Accepted with it is open, other than the one left out.
    fn is_used(
        &mut self,
        op: &str,
        key: &TagKey,
        except: &Option<TxKey>,
    ) -> Result<bool, StoreFault>
        ensures reads { OnlyReads view self.old self.new result }
        ensures found { (view self.new).clean
            → IfOk result (λ r. r ≡ is_used_in op.now key.now except.now (view self.old).rows.transactions) };

    /// The number of the first transaction of a station with that start.
    fn same_start(
        &mut self,
        op: &str,
        station: &str,
        start: &StartKey,
    ) -> Result<Option<u32>, StoreFault>
        ensures reads { OnlyReads view self.old self.new result }
        ensures found { (view self.new).clean
            → IfOk result (λ r. r ≡ same_start_in op.now station.now start.now (view self.old).rows.transactions) };

    /// A transaction of a station, by its number.
    fn tx(&mut self, op: &str, station: &str, number: u32) -> Result<Option<TxState>, StoreFault>
        ensures reads { OnlyReads view self.old self.new result }
        ensures found { (view self.new).clean
            → IfOk result (λ r. r ≡ tx_in op.now station.now number (view self.old).rows.transactions) };

    /// Whether a transaction of a station is open.
    fn has_open(&mut self, op: &str, station: &str) -> Result<bool, StoreFault>
        ensures reads { OnlyReads view self.old self.new result }
        ensures found { (view self.new).clean
            → IfOk result (λ r. r ≡ has_open_in op.now station.now (view self.old).rows.transactions) };

    /// The number of a station's last transaction, 0 where it has none.
    fn last_tx(&mut self, op: &str, station: &str) -> Result<u32, StoreFault>
        ensures reads { OnlyReads view self.old self.new result }
        ensures found { (view self.new).clean
            → IfOk result (λ r. r ≡ last_tx_in op.now station.now (view self.old).rows.transactions) };

    /// The number of a station's last reading, 0 where it has none.
    fn last_reading(&mut self, op: &str, station: &str) -> Result<u32, StoreFault>
        ensures reads { OnlyReads view self.old self.new result }
        ensures found { (view self.new).clean
            → IfOk result (λ r. r ≡ last_reading_in op.now station.now (view self.old).rows.meter_values) };

    /// When the reservation of an id at a station expires.
    fn reserved_until(
        &mut self,
        op: &str,
        station: &str,
        id: ReservationId,
    ) -> Result<Option<Moment>, StoreFault>
        ensures reads { OnlyReads view self.old self.new result }
        ensures found { (view self.new).clean
            → IfOk result (λ r. r ≡ reserved_until_in op.now station.now id (view self.old).rows.reservations) };

    /// The local list of a station.
    fn local_list(&mut self, op: &str, station: &str) -> Result<Option<LocalList>, StoreFault>
        ensures reads { OnlyReads view self.old self.new result }
        ensures found { (view self.new).clean
            → IfOk result (λ r. r ≡ local_list_in op.now station.now (view self.old).rows.local_lists) };

    /// The stations of an operator, in the order of their names.
    fn stations(&mut self, op: &str) -> Result<Listed<StationRow>, StoreFault>
        ensures reads { OnlyReads view self.old self.new result }
        ensures found { (view self.new).clean
            → IfOk result (λ r. r ≡ stations_in op.now (view self.old).rows.stations) };

    /// The id tags of an operator, in the order of their keys.
    fn tags(&mut self, op: &str) -> Result<Listed<TagRow>, StoreFault>
        ensures reads { OnlyReads view self.old self.new result }
        ensures found { (view self.new).clean
            → IfOk result (λ r. r ≡ tags_in op.now (view self.old).rows.tags) };

    /// What an operator granted, in the order of the tags' keys, then of the receivers.
    fn grants_out(&mut self, op: &str) -> Result<Listed<GrantRow>, StoreFault>
        ensures reads { OnlyReads view self.old self.new result }
        ensures found { (view self.new).clean
            → IfOk result (λ r. r ≡ grants_in op.now (view self.old).rows.grants) };

    /// The id tags that are granted to an operator, in the order of their keys, then of their owners.
    fn granted(&mut self, op: &str) -> Result<Listed<GrantedTag>, StoreFault>
        ensures reads { OnlyReads view self.old self.new result }
        ensures found { (view self.new).clean
            → IfOk result (λ r. r ≡ granted_in op.now (view self.old).rows.tags (view self.old).rows.grants) };

    /// The connectors of a station, in the order of their ids.
    fn connectors(&mut self, op: &str, station: &str) -> Result<Listed<ConnectorRow>, StoreFault>
        ensures reads { OnlyReads view self.old self.new result }
        ensures found { (view self.new).clean
            → IfOk result (λ r. r ≡ connectors_in op.now station.now (view self.old).rows.connectors) };

    /// The transactions of a station from that number on, in the order of their numbers.
    fn txs(&mut self, op: &str, station: &str, first: u32) -> Result<Listed<TxRow>, StoreFault>
        ensures reads { OnlyReads view self.old self.new result }
        ensures found { (view self.new).clean
            → IfOk result (λ r. r ≡ txs_from_in op.now station.now first (view self.old).rows.transactions) };

    /// The open transactions of an operator, in the order of their stations, then of their numbers.
    fn open_txs(&mut self, op: &str) -> Result<Listed<TxRow>, StoreFault>
        ensures reads { OnlyReads view self.old self.new result }
        ensures found { (view self.new).clean
            → IfOk result (λ r. r ≡ open_txs_in op.now (view self.old).rows.transactions) };

    /// What of a station's history may go before a moment: of its first `MAX_FORGOTTEN` meter values those that may, or else
    /// of as many transactions.
    fn forgettable(&mut self, op: &str, station: &str, until: Moment) -> Result<History, StoreFault>
        ensures reads { OnlyReads view self.old self.new result }
        ensures found { (view self.new).clean
            → IfOk result (λ r. r ≡ forgettable_in op.now station.now until (view self.old).rows) };

    /// The meter values of a station in the order of their numbers: all, or those that were sent with
    /// the number of a transaction.
    fn meter_values(
        &mut self,
        op: &str,
        station: &str,
        transaction: Option<u64>,
    ) -> Result<Listed<MeterValueRow>, StoreFault>
        ensures reads { OnlyReads view self.old self.new result }
        ensures found { (view self.new).clean
            → IfOk result (λ r. r ≡ meter_values_in op.now station.now transaction (view self.old).rows.meter_values) };

    /// The reservations at a station, in the order of their ids.
    fn reservations(
        &mut self,
        op: &str,
        station: &str,
    ) -> Result<Listed<ReservationRow>, StoreFault>
        ensures reads { OnlyReads view self.old self.new result }
        ensures found { (view self.new).clean
            → IfOk result (λ r. r ≡ reservations_in op.now station.now (view self.old).rows.reservations) };

    /// The last reports of a station, in the order of the names of their kinds.
    fn reports(&mut self, op: &str, station: &str) -> Result<Listed<ReportRow>, StoreFault>
        ensures reads { OnlyReads view self.old self.new result }
        ensures found { (view self.new).clean
            → IfOk result (λ r. r ≡ reports_in op.now station.now (view self.old).rows.reports) };

    /// The uses of an operator's id tags at the stations of others, in the order of their numbers.
    fn uses(&mut self, op: &str) -> Result<Listed<UseRow>, StoreFault>
        ensures reads { OnlyReads view self.old self.new result }
        ensures found { (view self.new).clean
            → IfOk result (λ r. r ≡ uses_in op.now (view self.old).rows.uses) };

    /// How the requests of a station are read.
    fn reader(&mut self, op: &str, station: &str) -> Result<Reader, StoreFault>
        ensures reads { OnlyReads view self.old self.new result }
        ensures found { (view self.new).clean
            → IfOk result (λ r. r ≡ reader_in op.now station.now (view self.old).rows.readers) };

    /// The readers that an operator chose, in the order of the stations' names.
    fn readers(&mut self, op: &str) -> Result<Listed<ReaderRow>, StoreFault>
        ensures reads { OnlyReads view self.old self.new result }
        ensures found { (view self.new).clean
            → IfOk result (λ r. r ≡ readers_in op.now (view self.old).rows.readers) };

    /// Makes a change that fits, and flushes it at once or leaves that for later.
    fn apply(&mut self, change: &Change<'_>, when: Flush) -> Result<(), StoreFault>
        requires { (view self.old).clean → EditFits change.now.op.now change.now.edit.now (view self.old).rows }
        ensures counted { IsCounted view self.old self.new (result ≡ Err store_fault.Failed) }
        ensures ok { (view self.new).clean → OnOk result ((view self.new).rows ≡ edit change.now.op.now change.now.edit.now (view self.old).rows) }
        ensures err { (view self.new).clean → OnErr result ((view self.new).rows ≡ (view self.old).rows) }
        ensures records { Records when (edit change.now.op.now change.now.edit.now (view self.old).rows) (view self.old) (view self.new) result };

    /// Puts on record the changes that wait, all of them or none. A flush that isn't Ok leaves a store that isn't clean.
    fn flush(&mut self) -> Result<(), StoreFault>
        ensures counted { IsCounted view self.old self.new (result ≡ Err store_fault.Failed) }
        ensures rows { (view self.new).clean → (view self.new).rows ≡ (view self.old).rows }
        ensures stopped { FindsOldOr (view self.old).rows (view self.old) (view self.new) }
        ensures kept { OnOk result (PutsOnRecord (view self.old) (view self.new)) }
        ensures lost { OnErr result (¬ (view self.new).clean) };

    /// Looks for the changes that wait, after a call that failed. Where some are gone, none waits any more.
    fn recover(&mut self) -> Result<Recovered, StoreFault>
        ensures recovers { Recovers (view self.old) (view self.new) result }
        ensures failed { result ≡ Err store_fault.Failed → Rose (view self.old).failures (view self.new).failures }
        ensures count { (view self.old).failures ≤ (view self.new).failures };

    /// The rows of a clean store are well formed.
    ghost well_formed: { (s : Self) → (view s).clean → WellFormedRows (view s).rows };
}

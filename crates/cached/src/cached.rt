//! A store that keeps the answers of look-ups.
ghost use Rattle.std.specs.Prelude.{◌≡◌, ◌<◌, ◌⊎◌, ◌↔◌, Err, IfOk};
ghost use Rattle.std.proofs.Props.{props};
ghost use Rattle.hub_rows.specs.Reads.{OnlyReads};
ghost use Rattle.cached.specs.declared.cached.CacheFault.TheVariants as cache_fault;
ghost use Rattle.hub_rows.specs.Changes.{edit, EditFits};
ghost use Rattle.hub_rows.specs.MeterValues.{last_reading_in};
ghost use Rattle.hub_rows.specs.Rows.{Rows, registration_at};
ghost use Rattle.hub_rows.specs.WellFormed.{WellFormedRows};
ghost use Rattle.cached.specs.Answers.{most_answers, AreRight};
ghost use Rattle.cached.specs.ReadingAnswers.{digest_of_reading, IsLast};
ghost use Rattle.cached.specs.StationAnswers.{digest_of_station, IsRegistered};
ghost use Rattle.cached.specs.TagAnswers.{digest_of_tag, looked_up, IsRight};

use crate::memo::Memo;
use crate::reading_answer::ReadingAnswer;
use crate::station_answer::StationAnswer;
use crate::tag_answer::{LookUp, TagAnswer};
use crate::{station_answer, tag_answer};
use hub_rows::{
    Change, ConnectorRow, Flush, GrantRow, GrantedTag, History, Info, LocalList, MeterValueRow,
    Reader, ReaderRow, Recovered, Registration, ReportRow, ReservationId, ReservationRow, StartKey,
    StationRow, Store, StoreFault, TagRow, TxKey, TxRow, TxState, UseRow,
};
use ocpp_types::{Listed, Moment, TagKey};
use std::alloc::Global;
use std::num::NonZeroUsize;
use thiserror::Error;

/// The most answers that a cache may keep.
const MOST_ANSWERS: usize = 65_536;

/// Why there is no cache.
#[derive(Clone, Copy, Debug, PartialEq, Eq, Drop, Error)]
pub enum CacheFault {
    /// No memory for the room of a cache.
    #[error("out of memory")]
    NoMemory,
    /// Not 1 to 65,536 answers.
    #[error("not 1 to 65536 answers")]
    BadCapacity,
}

/// A store that keeps the answers of look-ups, absent ones too, the last used first: of id tags, of how
/// stations are registered, and of the numbers of their last readings. So many of each. A change that adds readings
/// to a station leaves the number of the last of them in the cache, where there is memory for it.
#[derive(Drop)]
pub struct Cached<S: Store> {
    alloc: Global,
    store: S,
    tags: Memo<TagAnswer>,
    stations: Memo<StationAnswer>,
    readings: Memo<ReadingAnswer>,
    ghost tags_right: { (S.view store).clean → AreRight digest_of_tag IsRight (S.view store).rows tags } by { Prim.hlevel props },
    ghost stations_right: { (S.view store).clean → AreRight digest_of_station IsRegistered (S.view store).rows stations } by { Prim.hlevel props },
    ghost readings_right: { (S.view store).clean → AreRight digest_of_reading IsLast (S.view store).rows readings } by { Prim.hlevel props },
}

impl<S: Store + Drop> Cached<S> {
    /// The store, with a cache of that many answers.
    pub fn new(alloc: Global, store: S, capacity: usize) -> Result<Cached<S>, CacheFault>
        ensures store { IfOk result (λ c. c.store ≡ store) }
        ensures capacity { (result ≡ Err cache_fault.BadCapacity) ↔ ((capacity ≡ 0) ⊎ (most_answers < capacity)) }
    {
        if capacity > MOST_ANSWERS {
            return Err(CacheFault::BadCapacity);
        }
        let Some(capacity) = NonZeroUsize::new(capacity) else {
            return Err(CacheFault::BadCapacity);
        };
        let Ok(tags) = Memo::new(alloc, capacity) else {
            return Err(CacheFault::NoMemory);
        };
        let Ok(stations) = Memo::new(alloc, capacity) else {
            return Err(CacheFault::NoMemory);
        };
        let Ok(readings) = Memo::new(alloc, capacity) else {
            return Err(CacheFault::NoMemory);
        };
        Ok(Cached {
            alloc,
            store,
            tags,
            stations,
            readings,
        })
    }
}

/// Keeps the number of the last reading that a change adds.
fn keep_last(alloc: Global, readings: &mut Memo<ReadingAnswer>, change: &Change<'_>)
    ensures { (rows : Rows) → WellFormedRows rows → EditFits change.now.op.now change.now.edit.now rows
        → AreRight digest_of_reading IsLast (edit change.now.op.now change.now.edit.now rows) readings.old
        → AreRight digest_of_reading IsLast (edit change.now.op.now change.now.edit.now rows) readings.new }
{
    if let Some(answer) = ReadingAnswer::after(alloc, change) {
        readings.keep(answer);
    }
}

/// The tag of that look-up, as a store answers.
fn ask<S: Store>(
    store: &mut S,
    look_up: LookUp,
    op: &str,
    key: &TagKey,
) -> Result<Option<Info>, StoreFault>
    ensures reads { OnlyReads S.view store.old store.new result }
    ensures found { (S.view store.new).clean → IfOk result (λ t. t ≡ looked_up look_up op.now key.now (S.view store.old).rows) }
{
    match look_up {
        LookUp::Own => store.own_tag(op, key),
        LookUp::Granted => store.granted_tag(op, key),
    }
}

impl<S: Store> Cached<S> {
    /// The tag of that look-up, from the cache if it is there.
    fn look_up(
        &mut self,
        look_up: LookUp,
        op: &str,
        key: &TagKey,
    ) -> Result<Option<Info>, StoreFault>
        ensures reads { OnlyReads S.view self.old.store self.new.store result }
        ensures found { (S.view self.new.store).clean → IfOk result (λ t. t ≡ looked_up look_up op.now key.now (S.view self.old.store).rows) }
    {
        let digest = tag_answer::digest(look_up, op, key);
        if let Some(answer) = self.tags.find(digest) {
            if answer.is_about(look_up, op, key) {
                let info = answer.info()?;
                self.tags.promote(digest);
                return Ok(info);
            }
        }
        let info = ask(&mut self.store, look_up, op, key)?;
        if let Ok(answer) = TagAnswer::of(self.alloc, look_up, op, key, &info) {
            self.tags.keep(answer);
        }
        Ok(info)
    }

    /// How a station is registered, from the cache if it is there.
    fn registered(&mut self, op: &str, station: &str) -> Result<Option<Registration>, StoreFault>
        ensures reads { OnlyReads S.view self.old.store self.new.store result }
        ensures found { (S.view self.new.store).clean → IfOk result (λ r. r ≡ registration_at op.now station.now (S.view self.old.store).rows) }
    {
        let digest = station_answer::digest(op, station);
        if let Some(answer) = self.stations.find(digest) {
            if answer.is_about(op, station) {
                let registration = answer.registration();
                self.stations.promote(digest);
                return Ok(registration);
            }
        }
        let registration = self.store.station(op, station)?;
        if let Ok(answer) = StationAnswer::of(self.alloc, op, station, registration) {
            self.stations.keep(answer);
        }
        Ok(registration)
    }

    /// The number of a station's last reading, from the cache if it is there.
    fn last_read(&mut self, op: &str, station: &str) -> Result<u32, StoreFault>
        ensures reads { OnlyReads S.view self.old.store self.new.store result }
        ensures found { (S.view self.new.store).clean → IfOk result (λ last. last ≡ last_reading_in op.now station.now (S.view self.old.store).rows.meter_values) }
    {
        let digest = station_answer::digest(op, station);
        if let Some(answer) = self.readings.find(digest) {
            if answer.is_about(op, station) {
                let last = answer.last();
                self.readings.promote(digest);
                return Ok(last);
            }
        }
        let last = self.store.last_reading(op, station)?;
        if let Ok(answer) = ReadingAnswer::of(self.alloc, op, station, last) {
            self.readings.keep(answer);
        }
        Ok(last)
    }
}

impl<S: Store> Store for Cached<S> {
    ghost view = { λ s. S.view s.store };

    ghost well_formed = { λ s clean. S.well_formed s.store clean };

    fn station(&mut self, op: &str, station: &str) -> Result<Option<Registration>, StoreFault> {
        self.registered(op, station)
    }

    fn own_tag(&mut self, op: &str, key: &TagKey) -> Result<Option<Info>, StoreFault> {
        self.look_up(LookUp::Own, op, key)
    }

    fn granted_tag(&mut self, op: &str, key: &TagKey) -> Result<Option<Info>, StoreFault> {
        self.look_up(LookUp::Granted, op, key)
    }

    fn has_grant(&mut self, op: &str, key: &TagKey, to: &str) -> Result<bool, StoreFault> {
        self.store.has_grant(op, key, to)
    }

    fn is_used(
        &mut self,
        op: &str,
        key: &TagKey,
        except: &Option<TxKey>,
    ) -> Result<bool, StoreFault> {
        self.store.is_used(op, key, except)
    }

    fn same_start(
        &mut self,
        op: &str,
        station: &str,
        start: &StartKey,
    ) -> Result<Option<u32>, StoreFault> {
        self.store.same_start(op, station, start)
    }

    fn tx(&mut self, op: &str, station: &str, number: u32) -> Result<Option<TxState>, StoreFault> {
        self.store.tx(op, station, number)
    }

    fn has_open(&mut self, op: &str, station: &str) -> Result<bool, StoreFault> {
        self.store.has_open(op, station)
    }

    fn last_tx(&mut self, op: &str, station: &str) -> Result<u32, StoreFault> {
        self.store.last_tx(op, station)
    }

    fn last_reading(&mut self, op: &str, station: &str) -> Result<u32, StoreFault> {
        self.last_read(op, station)
    }

    fn reserved_until(
        &mut self,
        op: &str,
        station: &str,
        id: ReservationId,
    ) -> Result<Option<Moment>, StoreFault> {
        self.store.reserved_until(op, station, id)
    }

    fn local_list(&mut self, op: &str, station: &str) -> Result<Option<LocalList>, StoreFault> {
        self.store.local_list(op, station)
    }

    fn stations(&mut self, op: &str) -> Result<Listed<StationRow>, StoreFault> {
        self.store.stations(op)
    }

    fn tags(&mut self, op: &str) -> Result<Listed<TagRow>, StoreFault> {
        self.store.tags(op)
    }

    fn grants_out(&mut self, op: &str) -> Result<Listed<GrantRow>, StoreFault> {
        self.store.grants_out(op)
    }

    fn granted(&mut self, op: &str) -> Result<Listed<GrantedTag>, StoreFault> {
        self.store.granted(op)
    }

    fn connectors(&mut self, op: &str, station: &str) -> Result<Listed<ConnectorRow>, StoreFault> {
        self.store.connectors(op, station)
    }

    fn txs(&mut self, op: &str, station: &str, first: u32) -> Result<Listed<TxRow>, StoreFault> {
        self.store.txs(op, station, first)
    }

    fn open_txs(&mut self, op: &str) -> Result<Listed<TxRow>, StoreFault> {
        self.store.open_txs(op)
    }

    fn forgettable(
        &mut self,
        op: &str,
        station: &str,
        until: Moment,
    ) -> Result<History, StoreFault> {
        self.store.forgettable(op, station, until)
    }

    fn meter_values(
        &mut self,
        op: &str,
        station: &str,
        transaction: Option<u64>,
    ) -> Result<Listed<MeterValueRow>, StoreFault> {
        self.store.meter_values(op, station, transaction)
    }

    fn reservations(
        &mut self,
        op: &str,
        station: &str,
    ) -> Result<Listed<ReservationRow>, StoreFault> {
        self.store.reservations(op, station)
    }

    fn reports(&mut self, op: &str, station: &str) -> Result<Listed<ReportRow>, StoreFault> {
        self.store.reports(op, station)
    }

    fn uses(&mut self, op: &str) -> Result<Listed<UseRow>, StoreFault> {
        self.store.uses(op)
    }

    fn reader(&mut self, op: &str, station: &str) -> Result<Reader, StoreFault> {
        self.store.reader(op, station)
    }

    fn readers(&mut self, op: &str) -> Result<Listed<ReaderRow>, StoreFault> {
        self.store.readers(op)
    }

    fn apply(&mut self, change: &Change<'_>, when: Flush) -> Result<(), StoreFault> {
        self.tags.drop_stale(change);
        self.stations.drop_touched(change);
        self.readings.drop_touched(change);
        self.store.apply(change, when)?;
        keep_last(self.alloc, &mut self.readings, change);
        Ok(())
    }

    fn flush(&mut self) -> Result<(), StoreFault> {
        self.store.flush()
    }

    fn recover(&mut self) -> Result<Recovered, StoreFault> {
        self.tags.clear();
        self.stations.clear();
        self.readings.clear();
        self.store.recover()
    }
}

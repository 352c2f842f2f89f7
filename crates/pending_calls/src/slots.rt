//! The calls of all stations.
ghost use Rattle.std.specs.Prelude.{◌≡◌, ◌≤◌, ◌+◌, [], length, take, option_map, is_some, count_by, IsOk, IfOk, OnOk, OnErr};
ghost use Rattle.std.specs.List.Sorted.{IsStrictlySortedBy};
ghost use Rattle.std.proofs.Props.{props};
ghost use Rattle.hub_rows.specs.Keyed.{by_key, put};
ghost use Rattle.pending_calls.specs.Slot.{IsSlot, most_calls, ready, answered_command, submitted, sent_now, expired, answered, answer_move, is_overdue, cut, ended_calls, with_connection};
ghost use Rattle.pending_calls.specs.OwnSlots.{own_slots, are_full, ready_among};
ghost use Rattle.pending_calls.specs.SlotList.{slot_key, changed_at, first_changed, next_expiry, IsFirstThat, NoneDue};

use crate::call::{Message, Moved, NewCall};
use crate::ended::Ended;
use crate::hints::Hints;
use crate::own_rows::own_rows;
use crate::slot::{ANSWER_SECONDS, Slot};
use hub_rows::{name_digest, place_near, place_of_name, row_of};
use ocpp_types::{Boxed, Mem, Moment, Refusal, Text};
use std::alloc::Global;

/// No further call waits at any station of an operator where the texts that wait at all its stations
/// have this many bytes together.
const MOST_OPERATOR_BYTES: usize = 16_777_216;

/// The calls of all stations, in the order of their operators and names. A station that was never
/// connected has no slot.
///
/// A sender has at most one call in flight at a receiver (OCPP-J 1.6, section 4.1.1). So at each
/// station at most one call is in flight, and up to 15 more wait for its end. It ends with its
/// answer, with the connection, or by `expire_next` from 30 seconds after it was sent.
///
/// A tick looks at no slot where nothing can be overdue, and the moves of one tick look at each slot
/// once. A slot is in a box, so that a new one moves little.
#[derive(Drop)]
pub struct Slots<C> {
    alloc: Global,
    /// The number of a station's first call.
    first_number: u32,
    list: Vec<Boxed<Slot<C>>>,
    /// Where slots were found last.
    hints: Hints,
    /// Up to this second no call is overdue.
    quiet_until: u64,
    /// How many of the first slots were searched for a call that is overdue at the second
    /// `searched_at`, and none is.
    searched: usize,
    searched_at: u64,
    ghost sorted: { IsStrictlySortedBy (by_key slot_key) list.items } by { Prim.hlevel props },
    ghost quiet: { NoneDue quiet_until list.items } by { Prim.hlevel props },
    ghost none_found: { NoneDue searched_at (take searched list.items) } by { Prim.hlevel props },
}

impl<C: Drop> Slots<C> {
    ghost use Rattle.pending_calls.specs.Slots.{all_slots, first_number, slot_at};

    /// No station is connected. The first call of each station will have the number `number`. It
    /// takes no memory.
    pub fn new(alloc: Global, number: u32) -> Slots<C>
        ensures number { first_number result ≡ number }
        ensures list { all_slots result ≡ [] }
    {
        Slots {
            alloc,
            first_number: number,
            list: Vec::new(alloc),
            hints: Hints::new(alloc),
            quiet_until: u64::MAX,
            searched: 0,
            searched_at: 0,
        }
    }

    /// Drops all connections and calls.
    pub fn clear(&mut self)
        ensures number { first_number self.new ≡ first_number self.old }
        ensures list { all_slots self.new ≡ [] }
    {
        *self = Slots::new(self.alloc, self.first_number);
    }

    /// The slots of an operator, in the order of their stations: of each that was ever connected. It
    /// takes no memory.
    pub fn of_operator<'a>(&'a self, op: &str) -> &'a [Boxed<Slot<C>>]
        ensures { result.now ≡ own_slots op.now (all_slots self.now) }
    {
        own_rows(&self.list, op)
    }

    /// Whether a station is connected. It takes no memory.
    pub fn is_connected(&self, op: &str, station: &str) -> bool
        ensures { result ≡ (slot_at op.now station.now self.now).is_connected }
    {
        self.place_if_connected(op, station).is_some()
    }

    /// The index of a station's slot among all, if it is connected. It takes no memory.
    pub fn place_if_connected(&self, op: &str, station: &str) -> Option<usize>
        ensures { is_some result ≡ (slot_at op.now station.now self.now).is_connected }
    {
        let digest = name_digest(op, station);
        match place_near(&self.list, self.hints.place(digest), op, station) {
            Ok(place) => {
                self.hints.keep(digest, place);
                let is_connected = self.list[place].as_ref().is_connected();
                is_connected.then_some(place)
            }
            Err(_) => None,
        }
    }

    /// The number that the next call of a station will have, or why the station takes no call:
    /// `NotConnected`, `QueueFull`, `NumberSpent` where the number would be past 2147483647. It is
    /// `QueueFull` where 16 calls are in flight and waiting, and, where a call is in flight, also
    /// where the texts that wait have 1,048,576 bytes or more together at the station, or 16,777,216
    /// or more at all stations of the operator. It takes no memory.
    pub fn ready(&self, op: &str, station: &str) -> Result<u32, Refusal>
        ensures number { result ≡ ready_among (own_slots op.now (all_slots self.now)) (slot_at op.now station.now self.now) }
        ensures ready { IfOk result (λ _. IsOk (ready (slot_at op.now station.now self.now))) }
        ensures slot { IsSlot (slot_at op.now station.now self.now) }
    {
        match row_of(&self.list, op, station) {
            Some(slot) => self.ready_among(op, slot.as_ref()),
            None => Err(Refusal::NotConnected),
        }
    }

    /// The number of the next call of one of an operator's slots, or why there can be none.
    fn ready_among(&self, op: &str, slot: &Slot<C>) -> Result<u32, Refusal>
        ensures number { result ≡ ready_among (own_slots op.now (all_slots self.now)) slot.now }
        ensures ready { IfOk result (λ _. IsOk (ready slot.now)) }
        ensures slot { IsSlot slot.now }
    {
        let alone = slot.ready();
        if slot.is_busy() && self.are_full(op) {
            return Err(Refusal::QueueFull);
        }
        alone
    }

    /// Whether no further call may wait at any station of an operator.
    fn are_full(&self, op: &str) -> bool
        ensures { result ≡ are_full (own_slots op.now (all_slots self.now)) }
    {
        let mut room = MOST_OPERATOR_BYTES;
        for slot in self.of_operator(op) {
            room = slot.as_ref().room_beside(room);
        }
        room == 0
    }

    /// The command of a station's call in flight, where an answer with that `id` ends it: where
    /// the id is the number of that call, in decimal with no leading zero. An answer has the id of
    /// its call (OCPP-J 1.6, sections 4.2.2 and 4.2.3). It takes no memory.
    pub fn answered_command<'a>(&'a self, op: &str, station: &str, id: &str) -> Option<&'a C>
        ensures { option_map (λ c. c.now) result ≡ answered_command id.now (slot_at op.now station.now self.now) }
    {
        row_of(&self.list, op, station)?
            .as_ref()
            .answered_command(id)
    }

    /// A station is connected. The calls of its last connection end, and come out in their order.
    /// Where there is no memory nothing changes.
    pub fn connect(&mut self, op: &str, station: &str) -> Mem<Ended<C>>
        ensures ended { IfOk result (λ calls. calls ≡ ended_calls (slot_at op.now station.now self.old)) }
        ensures few { IfOk result (λ calls. length calls ≤ most_calls) }
        ensures ok { OnOk result (all_slots self.new ≡ put (by_key slot_key) (with_connection (slot_at op.now station.now self.old)) (all_slots self.old)) }
        ensures err { OnErr result (all_slots self.new ≡ all_slots self.old) }
        ensures number { first_number self.new ≡ first_number self.old }
    {
        match place_of_name(&self.list, op, station) {
            Ok(place) => {
                self.searched = 0;
                let slot = self.list[place].as_mut();
                Ok(slot.connect(self.alloc))
            }
            Err(place) => {
                let op = Text::copy_of(self.alloc, op)?;
                let station = Text::copy_of(self.alloc, station)?;
                let mut slot = Slot::new(self.alloc, self.first_number, op, station);
                let ended = slot.connect(self.alloc);
                let slot = Boxed::new(self.alloc, slot)?;
                self.hints.make_room(self.alloc, self.list.len());
                self.searched = 0;
                self.list.insert(place, slot)?;
                Ok(ended)
            }
        }
    }

    /// A station is no longer connected. Its calls end, and come out in their order. It takes no
    /// memory.
    pub fn disconnect(&mut self, op: &str, station: &str) -> Ended<C>
        ensures ended { result ≡ ended_calls (slot_at op.now station.now self.old) }
        ensures few { length result ≤ most_calls }
        ensures list { all_slots self.new ≡ changed_at op.now station.now cut (all_slots self.old) }
        ensures number { first_number self.new ≡ first_number self.old }
    {
        match place_of_name(&self.list, op, station) {
            Ok(place) => {
                self.searched = 0;
                let slot = self.list[place].as_mut();
                slot.cut(self.alloc)
            }
            Err(_) => Ended::none(self.alloc),
        }
    }

    /// A call to a station that is ready for one; it gets the number that `ready` gives. Where no
    /// call is in flight it is sent at `moment`, and the message comes out; else it waits, and
    /// `None` comes out. Where there is no memory nothing changes.
    pub fn submit(
        &mut self,
        op: &str,
        station: &str,
        new: NewCall<C>,
        moment: Moment,
    ) -> Mem<Option<Message>>
        requires { IsOk (ready (slot_at op.now station.now self.old)) }
        ensures sent { IfOk result (λ message. message ≡ sent_now new.text (slot_at op.now station.now self.old)) }
        ensures ok { OnOk result (all_slots self.new ≡ changed_at op.now station.now (submitted new.command new.text moment) (all_slots self.old)) }
        ensures err { OnErr result (all_slots self.new ≡ all_slots self.old) }
        ensures number { first_number self.new ≡ first_number self.old }
    {
        match place_of_name(&self.list, op, station) {
            Ok(place) => {
                self.quiet_until = quiet_with(self.quiet_until, moment);
                self.searched = 0;
                let slot = self.list[place].as_mut();
                slot.submit(new, moment)
            }
            Err(_) => unreachable!(),
        }
    }

    /// A station answers at `moment`. Where `id` is the number of its call in flight, in decimal
    /// with no leading zero, that call ends, and the one that waits longest is sent; both come
    /// out. Any other answer changes nothing and gives `None`. It takes no memory.
    pub fn answer(&mut self, op: &str, station: &str, id: &str, moment: Moment) -> Option<Moved<C>>
        ensures moved { result ≡ answer_move id.now (slot_at op.now station.now self.old) }
        ensures list { all_slots self.new ≡ changed_at op.now station.now (answered id.now moment) (all_slots self.old) }
        ensures number { first_number self.new ≡ first_number self.old }
    {
        match place_of_name(&self.list, op, station) {
            Ok(place) => {
                self.quiet_until = quiet_with(self.quiet_until, moment);
                self.searched = 0;
                let slot = self.list[place].as_mut();
                slot.answer(id, moment)
            }
            Err(_) => None,
        }
    }

    /// At how many stations the call in flight is overdue at `moment`: it was sent 30 seconds
    /// before, or more. It takes no memory.
    pub fn due(&self, moment: Moment) -> usize
        ensures { result ≡ count_by (is_overdue moment) (all_slots self.now) }
    {
        if moment.seconds() <= self.quiet_until {
            return 0;
        }
        let mut due = 0;
        for slot in &self.list {
            if slot.as_ref().is_overdue(moment) {
                due += 1;
            }
        }
        due
    }

    /// The overdue call of the first such station, by operator and name, ends, and the one that
    /// waits longest there is sent at `moment`; both come out. Where no call is overdue nothing
    /// changes and `None` comes out. It takes no memory.
    pub fn expire_next(&mut self, moment: Moment) -> Option<Moved<C>>
        ensures moved { result ≡ next_expiry moment (all_slots self.old) }
        ensures list { all_slots self.new ≡ first_changed (is_overdue moment) (expired moment) (all_slots self.old) }
        ensures number { first_number self.new ≡ first_number self.old }
    {
        if moment.seconds() <= self.quiet_until {
            return None;
        }
        match self.overdue_place(moment) {
            Some(place) => {
                self.searched = place;
                self.searched_at = moment.seconds();
                let slot = self.list[place].as_mut();
                slot.expire(moment)
            }
            None => {
                self.quiet_until = self.last_quiet_second();
                None
            }
        }
    }

    /// The last second up to which no call that is in flight is overdue.
    fn last_quiet_second(&self) -> u64
        ensures { NoneDue result (all_slots self.now) }
    {
        let mut until = u64::MAX;
        for slot in &self.list {
            until = until.min(slot.as_ref().quiet_until());
        }
        until
    }

    /// The index of the first station whose call in flight is overdue at `moment`.
    fn overdue_place(&self, moment: Moment) -> Option<usize>
        ensures { IsFirstThat (is_overdue moment) (all_slots self.now) result }
    {
        for i in self.first_unsearched(moment)..self.list.len() {
            if self.list[i].as_ref().is_overdue(moment) {
                return Some(i);
            }
        }
        None
    }

    /// How many of the first slots need no search at `moment`.
    fn first_unsearched(&self, moment: Moment) -> usize
        ensures { NoneDue moment (take result (all_slots self.now)) }
    {
        if moment.seconds() <= self.searched_at {
            self.searched
        } else {
            0
        }
    }
}

/// The last second at which no call is overdue, where that was `until` and a call is sent at `moment`.
fn quiet_with(until: u64, moment: Moment) -> u64
    ensures before { result ≤ until }
    ensures sent { result ≤ moment + 29 }
{
    until.min(moment.seconds() + (ANSWER_SECONDS - 1))
}

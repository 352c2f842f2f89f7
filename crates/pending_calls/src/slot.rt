//! The calls of one station.
ghost use Rattle.std.specs.Prelude.{◌≡◌, ◌≤◌, ◌-◌, false, length, option_map, IsOk, IfOk, OnOk, OnErr, OnSome, IfNone};
ghost use Rattle.pending_calls.specs.Slot.{IsSlot, most_calls, count_calls, waiting_bytes, is_busy, is_full, fresh, ready, call_of, message_of, answered_command, submitted, sent_now, moved_on, move, is_answered, answered, answer_move, is_overdue, expired, expiry, cut, ended_calls, with_connection};

use crate::call::{Call, InFlight, Message, Moved, NewCall, Waiting};
use crate::ended::Ended;
use hub_rows::{LAST_NUMBER, NamedRow};
use itoa::Buffer;
use ocpp_types::{Mem, Moment, Refusal, Text};
use std::alloc::Global;
use std::marker::Model;
use std::mem;

/// How many calls of a station may be in flight and waiting together.
const MOST_CALLS: usize = 16;

/// No further call waits where the texts that wait at its station have this many bytes together.
const MOST_WAITING_BYTES: usize = 1_048_576;

/// The answer time: how many seconds a call waits for its answer.
pub const ANSWER_SECONDS: u64 = 30;

/// The calls of one station.
#[derive(Drop)]
pub struct Slot<C> {
    op: Text,
    station: Text,
    is_connected: bool,
    /// The number of the next call that is submitted.
    next_number: u32,
    in_flight: Option<InFlight<C>>,
    /// The calls that wait, the oldest first.
    waiting: Vec<Waiting<C>>,
}

impl<C> Model for Slot<C> {
    ghost use Rattle.pending_calls.specs.Slot.{SlotState};

    ghost Value = { SlotState C };

    ghost use Rattle.pending_calls.specs.Shown.{shown, IsKept};

    ghost view = { λ s. shown s.op s.station s.is_connected s.next_number s.in_flight s.waiting.items };

    ghost invariant = { λ s. IsKept s.op s.station s.is_connected s.next_number s.in_flight s.waiting.items };
}

impl<C: Drop> NamedRow for Slot<C> {
    ghost op = { λ s. s.op };

    ghost name = { λ s. s.station };

    fn op(&self) -> &str {
        self.op.as_str()
    }

    fn name(&self) -> &str {
        self.station.as_str()
    }
}

impl<C: Drop> Slot<C> {
    /// A station that isn't connected. Its first call has the number `number`.
    pub(crate) fn new(alloc: Global, number: u32, op: Text, station: Text) -> Slot<C>
        ensures { result ≡ fresh number op station }
    {
        Slot {
            op,
            station,
            is_connected: false,
            next_number: number,
            in_flight: None,
            waiting: Vec::new(alloc),
        }
    }

    /// The station.
    pub fn station(&self) -> &Text
        ensures { result.now ≡ self.now.station }
    {
        &self.station
    }

    /// Whether the station is connected.
    pub fn is_connected(&self) -> bool
        ensures { result ≡ self.now.is_connected }
    {
        self.is_connected
    }

    /// How many calls are in flight and waiting.
    pub fn call_count(&self) -> usize
        ensures { result ≡ count_calls self.now }
    {
        let in_flight = if self.in_flight.is_some() { 1 } else { 0 };
        in_flight + self.waiting.len()
    }

    /// Whether a call is in flight.
    pub(crate) fn is_busy(&self) -> bool
        ensures { result ≡ is_busy self.now }
    {
        self.in_flight.is_some()
    }

    /// What is left of so many bytes beside the texts that wait: 0 where these have as many or more.
    pub(crate) fn room_beside(&self, room: usize) -> usize
        ensures { result ≡ room - waiting_bytes self.now }
    {
        let mut left = room;
        for waiting in &self.waiting {
            left = left.saturating_sub(waiting.message.text.as_str().len());
        }
        left
    }

    /// Whether no further call may wait, by the number of the calls or the bytes of those that wait.
    fn is_full(&self) -> bool
        ensures { result ≡ is_full self.now }
    {
        MOST_CALLS <= self.call_count() || self.room_beside(MOST_WAITING_BYTES) == 0
    }

    /// The number of the next call, or why there can be none, by this slot alone.
    pub(crate) fn ready(&self) -> Result<u32, Refusal>
        ensures number { result ≡ ready self.now }
        ensures slot { IsSlot self.now }
    {
        if !self.is_connected {
            Err(Refusal::NotConnected)
        } else if self.is_full() {
            Err(Refusal::QueueFull)
        } else if self.next_number <= LAST_NUMBER {
            Ok(self.next_number)
        } else {
            Err(Refusal::NumberSpent)
        }
    }

    /// Whether the answer time of the call in flight has passed at `moment`.
    pub(crate) fn is_overdue(&self, moment: Moment) -> bool
        ensures { result ≡ is_overdue moment self.now }
    {
        match &self.in_flight {
            Some(first) => first.sent.seconds() + ANSWER_SECONDS <= moment.seconds(),
            None => false,
        }
    }

    /// The last second at which the call in flight isn't overdue.
    pub(crate) fn quiet_until(&self) -> u64
        ensures { is_overdue result self.now ≡ false }
    {
        match &self.in_flight {
            Some(first) => first.sent.seconds() + (ANSWER_SECONDS - 1),
            None => u64::MAX,
        }
    }

    /// Whether `id` is the number of the call in flight, in decimal.
    fn is_answered(&self, id: &str) -> bool
        ensures { result ≡ is_answered id.now self.now }
    {
        match &self.in_flight {
            Some(first) => id == Buffer::new().format(first.call.number),
            None => false,
        }
    }

    /// The command of the call in flight, if an answer with that id ends it.
    pub(crate) fn answered_command(&self, id: &str) -> Option<&C>
        ensures { option_map (λ c. c.now) result ≡ answered_command id.now self.now }
    {
        if !self.is_answered(id) {
            return None;
        }
        match &self.in_flight {
            Some(first) => Some(&first.call.command),
            None => None,
        }
    }

    /// The call in flight ends, and the one that waits longest, if any, is sent at `moment`.
    fn move_on(&mut self, moment: Moment) -> Option<Moved<C>>
        ensures moved { result ≡ move self.old }
        ensures slot { OnSome result (self.new ≡ moved_on moment self.old) }
        ensures same { IfNone result (self.new ≡ self.old) }
    {
        let first = self.in_flight.take()?;
        let ended = first.call;
        if self.waiting.is_empty() {
            return Some(Moved { ended, next: None });
        }
        let Waiting { call, message } = self.waiting.remove(0);
        self.in_flight = Some(InFlight { call, sent: moment });
        Some(Moved {
            ended,
            next: Some(message),
        })
    }

    /// Where `id` is the number of the call in flight, in decimal, that call ends and the next one
    /// is sent at `moment`.
    pub(crate) fn answer(&mut self, id: &str, moment: Moment) -> Option<Moved<C>>
        ensures moved { result ≡ answer_move id.now self.old }
        ensures slot { self.new ≡ answered id.now moment self.old }
    {
        if self.is_answered(id) {
            self.move_on(moment)
        } else {
            None
        }
    }

    /// Where the answer time of the call in flight has passed, that call ends and the next one is
    /// sent at `moment`.
    pub(crate) fn expire(&mut self, moment: Moment) -> Option<Moved<C>>
        ensures moved { result ≡ expiry moment self.old }
        ensures slot { self.new ≡ expired moment self.old }
    {
        if self.is_overdue(moment) {
            self.move_on(moment)
        } else {
            None
        }
    }

    /// The station is no longer connected, and all its calls end.
    pub(crate) fn cut(&mut self, alloc: Global) -> Ended<C>
        ensures ended { result ≡ ended_calls self.old }
        ensures few { length result ≤ most_calls }
        ensures slot { self.new ≡ cut self.old }
    {
        self.is_connected = false;
        let in_flight = self.in_flight.take();
        let waiting = mem::replace(&mut self.waiting, Vec::new(alloc));
        Ended::of(in_flight, waiting)
    }

    /// The station is connected, and the calls of its last connection end.
    pub(crate) fn connect(&mut self, alloc: Global) -> Ended<C>
        ensures ended { result ≡ ended_calls self.old }
        ensures few { length result ≤ most_calls }
        ensures slot { self.new ≡ with_connection self.old }
    {
        let ended = self.cut(alloc);
        self.is_connected = true;
        ended
    }

    /// The next call, with that command.
    fn next_call(&self, command: C) -> Mem<Call<C>>
        ensures { IfOk result (λ call. call ≡ call_of self.now self.now.next_number command) }
    {
        let op = self.op.clone()?;
        let station = self.station.clone()?;
        Ok(Call {
            op,
            station,
            number: self.next_number,
            command,
        })
    }

    /// A message to the station.
    fn message(&self, text: Text) -> Mem<Message>
        ensures { IfOk result (λ message. message ≡ message_of self.now text) }
    {
        let op = self.op.clone()?;
        let station = self.station.clone()?;
        Ok(Message { op, station, text })
    }

    /// The next call, with the text that it will be sent as.
    fn next(&self, new: NewCall<C>) -> Mem<Waiting<C>>
        ensures call { IfOk result (λ next. next.call ≡ call_of self.now self.now.next_number new.command) }
        ensures message { IfOk result (λ next. next.message ≡ message_of self.now new.text) }
    {
        let message = self.message(new.text)?;
        let call = self.next_call(new.command)?;
        Ok(Waiting { call, message })
    }

    /// A call that is sent at `moment` where none is in flight, and else waits.
    pub(crate) fn submit(&mut self, new: NewCall<C>, moment: Moment) -> Mem<Option<Message>>
        requires { IsOk (ready self.old) }
        ensures sent { IfOk result (λ message. message ≡ sent_now new.text self.old) }
        ensures ok { OnOk result (self.new ≡ submitted new.command new.text moment self.old) }
        ensures err { OnErr result (self.new ≡ self.old) }
    {
        let next = self.next(new)?;
        if self.in_flight.is_none() {
            let Waiting { call, message } = next;
            self.in_flight = Some(InFlight { call, sent: moment });
            self.next_number += 1;
            return Ok(Some(message));
        }
        self.waiting.push(next)?;
        self.next_number += 1;
        Ok(None)
    }
}

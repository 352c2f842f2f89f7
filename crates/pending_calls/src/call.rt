//! Calls to stations, and what becomes of them.

use ocpp_types::{Moment, Text};

/// A call to a station, as its end is told.
#[derive(Drop)]
pub struct Call<C> {
    /// The operator of the station.
    pub op: Text,
    /// The station that was sent the call, or is to be.
    pub station: Text,
    /// The id of the call. Each station has its own count, from the first number of its `Slots` to
    /// 2147483647.
    pub number: u32,
    /// What is asked of the station.
    pub command: C,
}

/// What a station is to be sent, before it has a number.
#[derive(Drop)]
pub struct NewCall<C> {
    /// What is asked of the station.
    pub command: C,
    /// The frame (OCPP-J 1.6, section 4.2.1), whose id is the number that the call gets.
    pub text: Text,
}

/// A text that goes to a station.
#[derive(Drop)]
pub struct Message {
    /// The operator of the station.
    pub op: Text,
    /// The station that the text goes to.
    pub station: Text,
    /// The frame (OCPP-J 1.6, section 4.2.1).
    pub text: Text,
}

/// A call that ended, and the text of the call that is sent next at its station, if one waited.
#[derive(Drop)]
pub struct Moved<C> {
    /// The call that ended.
    pub ended: Call<C>,
    /// The text that is sent next.
    pub next: Option<Message>,
}

/// A call that was sent, and when.
#[derive(Drop)]
pub struct InFlight<C> {
    /// The call.
    pub call: Call<C>,
    /// When it was sent.
    pub sent: Moment,
}

/// A call that waits, and its text.
#[derive(Drop)]
pub struct Waiting<C> {
    /// The call.
    pub call: Call<C>,
    /// The text that it will be sent as.
    pub message: Message,
}

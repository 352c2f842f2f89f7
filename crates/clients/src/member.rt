//! A simulated station of a fleet.

use crate::connection::Connection;
use crate::fault::{ClientFault, Lost};
use crate::opening::{Opened, Opening};
use crate::tally::Tally;
use ocpp_types::Moment;
use station_sim::{Sim, SimFault, drive};
use std::mem::replace;

/// The most seconds that a handshake takes.
const LONGEST_HANDSHAKE: u64 = 60;

/// How a station is connected.
#[derive(Drop)]
enum Link<'a> {
    /// Its handshake is under way since that moment.
    Opening(Opening<'a>, Moment),
    Open(Connection<'a>),
    Ended,
}

/// A station of a fleet.
#[derive(Drop)]
pub struct Member<'a> {
    link: Link<'a>,
    station: Sim,
    tally: Tally,
    /// Its own sessions are over.
    is_judged: bool,
    /// Its handshake was made.
    pub is_connected: bool,
    /// Its boot wasn't accepted, or a session of its own not carried out.
    pub is_refused: bool,
    /// Its connection wasn't made, or ended before it.
    pub is_lost: bool,
}

impl<'a> Member<'a> {
    /// A station whose connection is begun at that moment.
    pub fn new(opened: Opened<'a>, station: Sim, moment: Moment) -> Member<'a> {
        let mut member = Member {
            link: Link::Ended,
            station,
            tally: Tally::new(),
            is_judged: false,
            is_connected: false,
            is_refused: false,
            is_lost: false,
        };
        member.take(opened, moment);
        member
    }

    /// How many sessions were stopped.
    pub fn sessions(&self) -> u32 {
        self.tally.sessions
    }

    /// Whether it has no connection any more.
    pub fn has_ended(&self) -> bool {
        matches!(self.link, Link::Ended)
    }

    fn take(&mut self, opened: Opened<'a>, since: Moment) {
        match opened {
            Opened::NotYet(opening) => self.link = Link::Opening(opening, since),
            Opened::Done(connection) => {
                self.is_connected = true;
                self.link = Link::Open(connection);
            }
        }
    }

    /// One round of a station that is to run so many sessions, unless it has ended. Whether it had something to do.
    pub fn drive(&mut self, sessions: u32, moment: Moment) -> Result<bool, ClientFault> {
        let gave = match replace(&mut self.link, Link::Ended) {
            Link::Opening(opening, since) => self.open(opening, since, moment),
            Link::Open(connection) => self.go_on(connection, sessions, moment),
            Link::Ended => Ok(false),
        };
        self.is_lost = self.is_lost || gave.is_err();
        gave
    }

    fn open(
        &mut self,
        opening: Opening<'a>,
        since: Moment,
        moment: Moment,
    ) -> Result<bool, ClientFault> {
        let address = opening.address;
        let opened = opening.go_on()?;
        self.take(opened, since);
        let took = moment.seconds().saturating_sub(since.seconds());
        if !self.is_connected && took > LONGEST_HANDSHAKE {
            self.link = Link::Ended;
            return Err(ClientFault::Stream(address, Lost::Silent));
        }
        Ok(self.is_connected)
    }

    fn go_on(
        &mut self,
        mut connection: Connection<'a>,
        sessions: u32,
        moment: Moment,
    ) -> Result<bool, ClientFault> {
        match drive(&mut self.station, &mut connection.socket, moment) {
            Ok(drove) => {
                self.tally.take(&drove, &self.station);
                self.judge(sessions);
                if self.station.done() {
                    let _closed = connection.socket.close(None);
                } else {
                    self.link = Link::Open(connection);
                }
                Ok(drove.call.is_some() || drove.read.is_some())
            }
            Err(SimFault::NoMemory) => Err(ClientFault::NoMemory),
            Err(SimFault::Stream) => Err(ClientFault::Stream(connection.address, Lost::Ended)),
        }
    }

    /// Says whether it is refused, once its own sessions are over.
    fn judge(&mut self, sessions: u32) {
        if !self.is_judged && (self.station.done() || self.station.waits()) {
            self.is_judged = true;
            self.is_refused = !self.tally.has_done(sessions);
        }
    }
}

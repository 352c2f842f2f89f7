//! One turn of a server.

use crate::server::Server;
use hub_rows::Store;
use runs::RunFault;
use station_calls::VendorHandler;
use std::fmt::Display;
use ws_server::{State, TurnTime};

impl<S: Store + Drop, V: VendorHandler> Server<S, V> {
    /// One turn: accepts connections, and then serves a turn. Those that ask for the metrics are answered after it.
    pub(crate) fn turn(&mut self, rt: &HostRuntime) {
        if let Err(fault) = self.accept() {
            self.failed_accept = true;
            if self.tell_fault(&fault, matches!(&fault, RunFault::NoMemory)) {
                let _lost = fault.write_detail(rt);
            }
        }
        let time = TurnTime {
            moment: self.moment,
            second: self.reactor.second,
        };
        let operators = self.journal.operators();
        self.turns.turn(rt, &mut self.reactor, time, operators);
        if matches!(self.turns.state(), State::Unwritten) {
            self.journal.is_lost = true;
            return;
        }
        if self.turns.lobby.has_readers() {
            self.answer_readers(rt);
            self.reactor.streams.end_turn();
        }
    }

    /// The journal says that the changes of the turn before are on record, if it hasn't said so.
    pub(crate) fn confirm(&mut self) {
        let confirmed = self.turns.hub.confirm();
        self.journal.is_lost = self.journal.is_lost || confirmed.is_err();
    }

    /// Writes a fault to standard error, and gives up the memory that is set aside where none was found. It gives whether the
    /// fault was written.
    fn tell_fault<F: Display>(&mut self, fault: &F, found_no_memory: bool) -> bool {
        if found_no_memory {
            self.reactor.reserve = None;
        }
        self.reactor.log.write_fault(fault)
    }
}

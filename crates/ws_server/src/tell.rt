//! Sending outputs to the peers.
ghost use Rattle.std.specs.Prelude.{◌≡◌, ◌<◌, length};

use crate::gateway::Gateway;
use connection_notes::Repair;
use hub_events::{Out, Said};
use lines::print_out;
use ocpp_types::Named;
use ready_streams::Served;
use std::io::{Read, Write};

impl<T: Read + Write + Served + Drop> Gateway<T> {
    ghost use Rattle.lines.specs.OutputLines.{line_of};
    ghost use Rattle.ws_peers.specs.Lists.{At, ToOperator};
    ghost use Rattle.ws_server.specs.Tells.{peers_of, SentWhileOpen, Tells, TellsAll};

    /// Sends one output: a text to its station's open connection, if there is one, and all else as a
    /// line to each open connection of its operator (docs/RULES.md, Connections). A repair is noted too. A connection ends
    /// where a send isn't Ok or finds no memory.
    pub fn tell(&mut self, out: &Out)
        ensures told { Tells T.contents out.now (peers_of self.old) (peers_of self.new) }
        ensures count { length (peers_of self.new) ≡ length (peers_of self.old) }
    {
        self.tell_near(0, out);
    }

    fn tell_near(&mut self, near: usize, out: &Out)
        ensures told { Tells T.contents out.now (peers_of self.old) (peers_of self.new) }
        ensures count { length (peers_of self.new) ≡ length (peers_of self.old) }
    {
        match &out.said {
            Said::Send { station, text } => {
                let op = out.op.as_str();
                self.peers
                    .to_station(near, op, station.as_str(), text.as_str());
            }
            Said::Repaired {
                station,
                action,
                fault,
            } => {
                let repair = Repair {
                    action: action.name(),
                    code: fault.code.name(),
                    field: fault.field.as_str(),
                };
                self.notes.add_repair(&out.op, station, repair);
                self.tell_line(out);
            }
            Said::Done { .. }
            | Said::Turned { .. }
            | Said::Refused(_)
            | Said::Row(_)
            | Said::Accepted { .. } => self.tell_line(out),
        }
    }

    fn tell_line(&mut self, out: &Out)
        ensures told { ToOperator T.contents out.now.op (line_of out.now) (peers_of self.old) (peers_of self.new) }
        ensures count { length (peers_of self.new) ≡ length (peers_of self.old) }
    {
        let op = out.op.as_str();
        match print_out(self.alloc, out) {
            Ok(line) => self.peers.to_operator(op, Some(line.as_str())),
            Err(_) => self.peers.to_operator(op, None),
        }
    }

    /// Sends outputs in order. The peer at `near` is tried first for each text.
    pub(crate) fn tell_all(&mut self, near: usize, outs: &[Out])
        ensures told { TellsAll T.contents outs.now (peers_of self.old) (peers_of self.new) }
        ensures count { length (peers_of self.new) ≡ length (peers_of self.old) }
    {
        for out in outs {
            self.tell_near(near, out);
        }
    }

    /// Sends a text to peer n alone, if its connection is open.
    pub(crate) fn say(&mut self, n: usize, text: &str)
        requires { n < length (peers_of self.old) }
        ensures said { At (SentWhileOpen T.contents text.now) n (peers_of self.old) (peers_of self.new) }
        ensures count { length (peers_of self.new) ≡ length (peers_of self.old) }
    {
        if !self.peers.peer(n).stage().is_open() {
            return;
        }
        self.peers.send(n, text);
    }
}

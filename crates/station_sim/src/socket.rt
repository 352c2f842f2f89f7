//! A station over its socket.
ghost use Rattle.std.specs.Prelude.{◌≡◌, option_map, string_bytes};
ghost use Rattle.station_sim.specs.Drives.{fault_of, read_outcome, text_of, pair_of, texts_of, Sends, Hears, Calls, Replies, Answers, Drives};
ghost use Rattle.station_sim.specs.Sim.{session_of};

use crate::sim::Sim;
use ocpp_types::{Moment, NoMemory};
use std::alloc::Global;
use std::io::{ErrorKind, Read, Write};
use thiserror::Error;
use tungstenite::{Error as SocketError, MaskKeys, Message, Utf8Bytes, WebSocket};

/// The texts of one round.
#[derive(Drop)]
pub struct Drove {
    /// The call that was sent.
    pub call: Option<String>,
    /// The text that was read.
    pub read: Option<Utf8Bytes>,
    /// The reply that was sent.
    pub reply: Option<String>,
}

/// Why a session ends before its script.
#[derive(Clone, Copy, Debug, PartialEq, Eq, Drop, Error)]
pub enum SimFault {
    #[error("out of memory")]
    NoMemory,
    #[error("a send or a read failed")]
    Stream,
}

impl From<NoMemory> for SimFault {
    ghost use Rattle.station_sim.specs.declared.socket.SimFault.{SimFault};

    ghost from_gives = { λ _ fault. fault ≡ SimFault.NoMemory };

    fn from(_refused: NoMemory) -> SimFault
        ensures { result ≡ SimFault.NoMemory }
    {
        SimFault::NoMemory
    }
}

/// Makes the next call of a station at that moment if one is due, reads once from its socket, and where
/// that gave a text takes it and sends the reply if it gets one. A read that would block, a ping, a
/// pong, a binary message and a Close give no text. Either fault ends the session.
pub fn drive<T: Read + Write + Drop, K: MaskKeys + Drop>(
    sim: &mut Sim,
    socket: &mut WebSocket<T, K>,
    at: Moment,
) -> Result<Drove, SimFault>
    ensures { Drives T.remaining T.contents at (session_of sim.old) (session_of sim.new)
        socket.old socket.new (texts_of result) }
{
    let call = make_call(sim, socket, at)?;
    let (read, reply) = answer(sim, socket)?;
    Ok(Drove { call, read, reply })
}

fn answer<T: Read + Write + Drop, K: MaskKeys + Drop>(
    sim: &mut Sim,
    socket: &mut WebSocket<T, K>,
) -> Result<(Option<Utf8Bytes>, Option<String>), SimFault>
    ensures { Answers T.remaining T.contents (session_of sim.old) (session_of sim.new)
        socket.old socket.new (pair_of result) }
{
    let read = read_text(socket)?;
    let reply = take_text(sim, socket, &read)?;
    Ok((read, reply))
}

fn make_call<T: Read + Write + Drop, K: MaskKeys + Drop>(
    sim: &mut Sim,
    socket: &mut WebSocket<T, K>,
    at: Moment,
) -> Result<Option<String>, SimFault>
    ensures { Calls T.contents at (session_of sim.old) (session_of sim.new)
        socket.old socket.new (text_of result) }
{
    let call = sim.step(at)?;
    send(sim.alloc, socket, &call)?;
    Ok(call)
}

fn take_text<T: Read + Write + Drop, K: MaskKeys + Drop>(
    sim: &mut Sim,
    socket: &mut WebSocket<T, K>,
    text: &Option<Utf8Bytes>,
) -> Result<Option<String>, SimFault>
    ensures { Replies T.contents text.now (session_of sim.old) (session_of sim.new)
        socket.old socket.new (text_of result) }
{
    let Some(text) = text else {
        return Ok(None);
    };
    let reply = sim.on_text(text.as_str())?;
    send(sim.alloc, socket, &reply)?;
    Ok(reply)
}

/// Sends a text, if there is one.
fn send<T: Read + Write + Drop, K: MaskKeys + Drop>(
    alloc: Global,
    socket: &mut WebSocket<T, K>,
    text: &Option<String>,
) -> Result<(), SimFault>
    ensures { Sends T.contents (option_map string_bytes text.now) socket.old socket.new result }
{
    let Some(text) = text else {
        return Ok(());
    };
    match Message::text(alloc, text.as_str()) {
        Ok(message) => match socket.send(message) {
            Ok(()) => Ok(()),
            Err(error) => Err(fault_of(error)),
        },
        Err(_) => Err(SimFault::NoMemory),
    }
}

/// Reads once: a text, or none.
fn read_text<T: Read + Write + Drop, K: MaskKeys + Drop>(
    socket: &mut WebSocket<T, K>,
) -> Result<Option<Utf8Bytes>, SimFault>
    ensures { Hears T.remaining socket.old socket.new result }
{
    let gave = socket.read();
    what_is_heard(gave)
}

fn what_is_heard(gave: Result<Message, SocketError>) -> Result<Option<Utf8Bytes>, SimFault>
    ensures { result ≡ read_outcome gave }
{
    match gave {
        Ok(Message::Text(text)) => Ok(Some(text)),
        Ok(_) => Ok(None),
        Err(SocketError::Io(error)) => match error.kind() {
            ErrorKind::WouldBlock => Ok(None),
            _ => Err(SimFault::Stream),
        },
        Err(error) => Err(fault_of(error)),
    }
}

fn fault_of(error: SocketError) -> SimFault
    ensures { result ≡ fault_of error }
{
    match error {
        SocketError::OutOfMemory => SimFault::NoMemory,
        _ => SimFault::Stream,
    }
}

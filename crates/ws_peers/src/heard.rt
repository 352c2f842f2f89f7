//! What a read of a socket gave.
ghost use Rattle.std.specs.Prelude.{◌≡◌};
ghost use Rattle.ws_peers.specs.Reads.{heard_of, of_breach, of_error};

use crate::cause::Cause;
use std::io::ErrorKind;
use tungstenite::{CloseCode, Error, Message, Utf8Bytes};
use websocket::error::ProtocolError;

/// The most bytes of a text.
pub const MAX_TEXT: usize = 1_048_576;

/// What a read gave.
#[derive(Drop)]
pub enum Heard {
    /// A text within the limit.
    Text(Utf8Bytes),
    /// Another message, or nothing yet.
    Nothing,
    /// A message that ends the connection with that close code.
    Breach(CloseCode),
    /// A close, or a fault of the stream, ends the connection.
    Ends(Cause),
}

/// What a read gave. A text may have 1,048,576 bytes, and a longer one ends the connection with 1009. Binary messages,
/// pings and pongs are `Nothing`; the socket answers pings (RFC 6455, section 5.5.2).
pub fn what_is_heard(gave: Result<Message, Error>) -> Heard
    ensures { result ≡ heard_of gave }
{
    match gave {
        Ok(Message::Text(text)) => {
            if text.len() <= MAX_TEXT {
                Heard::Text(text)
            } else {
                Heard::Breach(CloseCode::Size)
            }
        }
        Ok(Message::Close(_)) => Heard::Ends(Cause::Closed),
        Ok(_) => Heard::Nothing,
        Err(error) => of_error(&error),
    }
}

/// What a failed read means, by the close codes of RFC 6455, section 7.4.1: 1009 for a message over the limit of the
/// socket, 1007 for a text or a reason that isn't UTF-8, 1002 for any other breach of the protocol. A stream that has
/// ended gets no code.
fn of_error(error: &Error) -> Heard
    ensures { result ≡ of_error error.now }
{
    match error {
        Error::Io(fault) => match fault.kind() {
            ErrorKind::WouldBlock => Heard::Nothing,
            _ => Heard::Ends(Cause::Lost),
        },
        Error::Capacity(_) => Heard::Breach(CloseCode::Size),
        Error::Utf8 => Heard::Breach(CloseCode::Invalid),
        Error::Protocol(breach) => of_breach(*breach),
        _ => Heard::Ends(Cause::Lost),
    }
}

fn of_breach(breach: ProtocolError) -> Heard
    ensures { result ≡ of_breach breach }
{
    match breach {
        ProtocolError::ResetWithoutClosingHandshake => Heard::Ends(Cause::Lost),
        _ => Heard::Breach(CloseCode::Protocol),
    }
}

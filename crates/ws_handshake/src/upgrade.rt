//! The answer to an upgrade, and its socket.
ghost use Rattle.std.specs.Prelude.{◌≡◌, false, Some, IfOk, vec_items, codes};
ghost use Rattle.ws_handshake.specs.declared.upgrade.TheConstants.{MAX_MESSAGE};
ghost use Rattle.ws_handshake.specs.Shakes.{Shaken, upgrade_text};
ghost use Rattle.ws_handshake.specs.Subprotocols.{subprotocol_name};

use crate::answer::take;
use crate::head::Upgrade;
use crate::subprotocol::Subprotocol;
use httparse::Header;
use std::alloc::Global;
use std::io;
use std::io::{Error, ErrorKind, Read, Write};
use tungstenite::{NoMask, Role, WebSocket, WebSocketConfig};
use websocket::handshake::server::write_response;

/// The bytes that a socket reads at once. Each connection keeps room for as many.
const READ_SIZE: usize = 4096;

/// The most bytes of a message of any kind. A text may have 1,048,576 (`ws_peers::MAX_TEXT`).
const MAX_MESSAGE: usize = 4_194_304;

fn limits() -> WebSocketConfig
    ensures message { result.max_message_size ≡ Some MAX_MESSAGE }
    ensures frame { result.max_frame_size ≡ Some MAX_MESSAGE }
    ensures unmasked { result.accept_unmasked_frames ≡ false }
{
    WebSocketConfig::default()
        .read_buffer_size(READ_SIZE)
        .max_message_size(Some(MAX_MESSAGE))
        .max_frame_size(Some(MAX_MESSAGE))
}

/// Reads the head of an upgrade from its stream, and no byte more, answers it, and gives its socket. The answer names
/// that subprotocol, if there is one (OCPP-J 1.6, section 3.1.2). Errors are those of the stream,
/// `InvalidInput` where the head has more than 8,192 bytes, and `OutOfMemory`.
pub fn shake<T: Read + Write + Drop>(
    alloc: Global,
    stream: T,
    upgrade: &Upgrade,
    subprotocol: Option<Subprotocol>,
) -> io::Result<WebSocket<T, NoMask>>
    ensures { IfOk result (Shaken T.remaining T.contents upgrade.now subprotocol stream) }
{
    let mut stream = stream;
    take(&mut stream, upgrade.len)?;
    let text = upgrade_text(alloc, upgrade, subprotocol)?;
    stream.write_all(text.as_slice())?;
    let socket = WebSocket::from_raw_socket(alloc, stream, NoMask, Role::Server, Some(limits()));
    Ok(socket)
}

/// The bytes of the answer.
fn upgrade_text(
    alloc: Global,
    upgrade: &Upgrade,
    subprotocol: Option<Subprotocol>,
) -> io::Result<Vec<u8>>
    ensures { IfOk result (λ text. vec_items text ≡ upgrade_text upgrade.now.accept subprotocol) }
{
    let mut text = Vec::new(alloc);
    let gave = match subprotocol {
        Some(subprotocol) => write_response(&upgrade.accept, &[field(subprotocol)], &mut text),
        None => write_response(&upgrade.accept, &[], &mut text),
    };
    match gave {
        Ok(()) => Ok(text),
        Err(_) => Err(Error::from(ErrorKind::OutOfMemory)),
    }
}

/// The field that names a subprotocol.
fn field(subprotocol: Subprotocol) -> Header<'static>
    ensures name { result.name.now ≡ codes "sec-websocket-protocol" }
    ensures value { result.value.now ≡ subprotocol_name subprotocol }
{
    Header {
        name: "sec-websocket-protocol",
        value: subprotocol.name().as_bytes(),
    }
}

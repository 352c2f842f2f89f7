//! Connections to a server on this machine.

use crate::fault::{ClientFault, Lost};
use http::Request;
use http::header::{HeaderName, HeaderValue};
use std::alloc::Global;
use std::io;
use std::io::ErrorKind;
use std::net::{Ipv4Addr, SocketAddr, TcpStream};
use std::time::Duration;
use tungstenite::handshake::client::{client, request_of};
use tungstenite::{Error, HandshakeError, Message, RandomKeys, Utf8Bytes, WebSocket};

/// The seconds that a read waits.
const READ_WAIT: u64 = 2;

/// The socket of a client: its masking keys come from the system.
pub type Socket<'a> = WebSocket<TcpStream, RandomKeys<&'a HostRuntime>>;

/// A connection to a server on this machine.
#[derive(Drop)]
pub struct Connection<'a> {
    pub address: SocketAddr,
    pub socket: Socket<'a>,
}

impl<'a> Connection<'a> {
    /// Connects to the path at the port, with the subprotocol of OCPP-J 1.6, section 3.1.2. Errors: nobody listens
    /// there, or the handshake is refused.
    pub fn to(rt: &'a HostRuntime, port: u16, path: &str) -> Result<Connection<'a>, ClientFault> {
        let alloc = rt.alloc();
        let address = SocketAddr::from((Ipv4Addr::LOCALHOST, port));
        let request = request_to(alloc, address, path)?;
        let stream = match stream_to(rt, address) {
            Ok(stream) => stream,
            Err(error) => return Err(ClientFault::at(address, error)),
        };
        match client(alloc, rt, request, stream) {
            Ok((socket, _response)) => Ok(Connection { address, socket }),
            Err(HandshakeError::Failure(error)) => Err(no_handshake(address, error)),
            Err(HandshakeError::Interrupted(_)) => Err(ClientFault::Stream(address, Lost::Silent)),
        }
    }
}

impl Connection<'_> {
    /// Sends a text.
    pub fn send(&mut self, alloc: Global, text: &str) -> Result<(), ClientFault> {
        let Ok(message) = Message::text(alloc, text) else {
            return Err(ClientFault::NoMemory);
        };
        match self.socket.send(message) {
            Ok(()) => Ok(()),
            Err(error) => Err(lost(self.address, error)),
        }
    }

    /// The next text, which may take so many seconds to come.
    pub fn next_text(&mut self, seconds: u64) -> Result<Utf8Bytes, ClientFault> {
        for _ in 0..=seconds / READ_WAIT {
            let gave = self.socket.read();
            if let Some(text) = heard(self.address, gave)? {
                return Ok(text);
            }
        }
        Err(self.silent())
    }

    /// No text came in time.
    pub fn silent(&self) -> ClientFault {
        ClientFault::Stream(self.address, Lost::Silent)
    }
}

/// The text of a read. A ping, a pong, a binary message and a Close give none.
fn heard(
    address: SocketAddr,
    gave: Result<Message, Error>,
) -> Result<Option<Utf8Bytes>, ClientFault> {
    match gave {
        Ok(Message::Text(text)) => Ok(Some(text)),
        Ok(_) => Ok(None),
        Err(error) => {
            if is_wait(&error) {
                return Ok(None);
            }
            Err(lost(address, error))
        }
    }
}

/// Whether nothing came in the time that a read waits.
fn is_wait(error: &Error) -> bool {
    match error {
        Error::Io(error) => error.kind() == ErrorKind::WouldBlock,
        _ => false,
    }
}

/// What became of a connection that failed so.
fn lost(address: SocketAddr, error: Error) -> ClientFault {
    match error {
        Error::Io(error) => ClientFault::at(address, error),
        Error::OutOfMemory => ClientFault::NoMemory,
        _ => ClientFault::Stream(address, Lost::Ended),
    }
}

/// Why a handshake was not done.
pub fn no_handshake(address: SocketAddr, error: Error) -> ClientFault {
    match error {
        Error::Http(response) => {
            ClientFault::Stream(address, Lost::Answered(response.status().as_u16()))
        }
        Error::Io(error) => ClientFault::at(address, error),
        Error::OutOfMemory => ClientFault::NoMemory,
        _ => ClientFault::Stream(address, Lost::NoHandshake),
    }
}

fn stream_to(rt: &HostRuntime, address: SocketAddr) -> io::Result<TcpStream> {
    let stream = TcpStream::connect(rt, address)?;
    stream.set_read_timeout(Some(Duration::from_secs(READ_WAIT)))?;
    stream.set_nodelay(true)?;
    Ok(stream)
}

/// The request of the handshake, which offers the subprotocol. The path begins with `/` (RFC 6455, section 3).
pub fn request_to(
    alloc: Global,
    address: SocketAddr,
    path: &str,
) -> Result<Request<()>, ClientFault> {
    if !path.starts_with('/') {
        return Err(ClientFault::Stream(address, Lost::NoPath));
    }
    let uri = format!(in alloc; "ws://{address}{path}")?;
    let Ok(mut request) = request_of(alloc, uri.as_str()) else {
        return Err(ClientFault::Stream(address, Lost::NoPath));
    };
    let name = HeaderName::from_static("sec-websocket-protocol");
    let value = HeaderValue::from_static("ocpp1.6");
    if request.headers_mut().insert(name, value).is_err() {
        return Err(ClientFault::NoMemory);
    }
    Ok(request)
}

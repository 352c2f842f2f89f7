//! Connections whose handshake is under way, none of which waits.

use crate::connection::{Connection, Socket, no_handshake, request_to};
use crate::fault::ClientFault;
use std::io;
use std::net::{Ipv4Addr, SocketAddr, TcpStream};
use tungstenite::handshake::client::{ClientResponse, client};
use tungstenite::{ClientHandshake, HandshakeError, MidHandshake, RandomKeys};

/// The handshake of a client.
type Handshake<'a> = ClientHandshake<TcpStream, RandomKeys<&'a HostRuntime>>;

/// A connection whose handshake is under way.
#[derive(Drop)]
pub struct Opening<'a> {
    pub address: SocketAddr,
    handshake: MidHandshake<Handshake<'a>>,
}

/// How far a handshake has come.
#[derive(Drop)]
pub enum Opened<'a> {
    NotYet(Opening<'a>),
    Done(Connection<'a>),
}

impl<'a> Opening<'a> {
    /// Connects to the path at the port as `Connection::to`, but no read or write waits. Errors: nobody listens there, or
    /// the handshake is refused.
    pub fn begin(rt: &'a HostRuntime, port: u16, path: &str) -> Result<Opened<'a>, ClientFault> {
        let alloc = rt.alloc();
        let address = SocketAddr::from((Ipv4Addr::LOCALHOST, port));
        let request = request_to(alloc, address, path)?;
        match stream_to(rt, address) {
            Ok(stream) => progress_of(address, client(alloc, rt, request, stream)),
            Err(error) => Err(ClientFault::at(address, error)),
        }
    }

    /// Goes on with the handshake as far as it can.
    pub fn go_on(self) -> Result<Opened<'a>, ClientFault> {
        progress_of(self.address, self.handshake.handshake())
    }
}

fn progress_of<'a>(
    address: SocketAddr,
    gave: Result<(Socket<'a>, ClientResponse), HandshakeError<Handshake<'a>>>,
) -> Result<Opened<'a>, ClientFault> {
    match gave {
        Ok((socket, _response)) => Ok(Opened::Done(Connection { address, socket })),
        Err(HandshakeError::Failure(error)) => Err(no_handshake(address, error)),
        Err(HandshakeError::Interrupted(handshake)) => {
            Ok(Opened::NotYet(Opening { address, handshake }))
        }
    }
}

fn stream_to(rt: &HostRuntime, address: SocketAddr) -> io::Result<TcpStream> {
    let stream = TcpStream::connect(rt, address)?;
    stream.set_nonblocking(true)?;
    stream.set_nodelay(true)?;
    Ok(stream)
}

//! Answers to requests that make no connection.
ghost use Rattle.std.specs.Prelude.{◌≡◌, IfOk, OnOk};
ghost use Rattle.ws_handshake.specs.Answers.{answer_text, Refused, Taken};

use crate::head::MAX_HEAD;
use std::io;
use std::io::{Error, ErrorKind, Read, Write};

/// How a request is answered that makes no connection.
#[derive(Clone, Copy, Debug, PartialEq, Eq, Drop)]
pub enum Answer {
    /// 200: a health check.
    Healthy,
    /// 200: a GET of what the server measures of itself. A body follows, up to the end of the connection (RFC 9112,
    /// section 6.3).
    Metrics,
    /// 200: a HEAD of the same. No body follows (RFC 9110, section 9.3.2).
    MetricsHead,
    /// 400: no request of HTTP/1.1, or no handshake of RFC 6455.
    BadRequest,
    /// 403: the request is of a page of another origin.
    Forbidden,
    /// 404: the path leads to nothing that is known here.
    NotFound,
    /// 405: a method other than GET and HEAD.
    NotAllowed,
    /// 426: no handshake, or one of another version of WebSocket than 13.
    UpgradeRequired,
    /// 431: a head of more than 8,192 bytes, or of more than 64 fields.
    TooLarge,
    /// 503: the operator has as many connections as it may have.
    Unavailable,
}

impl Answer {
    /// The bytes of the answer, without the body of `Metrics`; the others have none. The connection ends after it (RFC
    /// 9112, section 9.6). 426 names the protocol and its version (RFC 9110, section 15.5.22; RFC 6455, section 4.2.2).
    pub fn text(self) -> &'static str
        ensures { result.now ≡ answer_text self }
    {
        match self {
            Answer::Healthy => "HTTP/1.1 200 OK\r\nContent-Length: 0\r\nConnection: close\r\n\r\n",
            Answer::Metrics | Answer::MetricsHead =>
                "HTTP/1.1 200 OK\r\nContent-Type: text/plain; version=0.0.4\r\nConnection: close\r\n\r\n",
            Answer::BadRequest =>
                "HTTP/1.1 400 Bad Request\r\nContent-Length: 0\r\nConnection: close\r\n\r\n",
            Answer::Forbidden =>
                "HTTP/1.1 403 Forbidden\r\nContent-Length: 0\r\nConnection: close\r\n\r\n",
            Answer::NotFound =>
                "HTTP/1.1 404 Not Found\r\nContent-Length: 0\r\nConnection: close\r\n\r\n",
            Answer::NotAllowed =>
                "HTTP/1.1 405 Method Not Allowed\r\nAllow: GET, HEAD\r\nContent-Length: 0\r\nConnection: close\r\n\r\n",
            Answer::UpgradeRequired =>
                "HTTP/1.1 426 Upgrade Required\r\nUpgrade: websocket\r\nSec-WebSocket-Version: 13\r\nContent-Length: 0\r\nConnection: close, Upgrade\r\n\r\n",
            Answer::TooLarge =>
                "HTTP/1.1 431 Request Header Fields Too Large\r\nContent-Length: 0\r\nConnection: close\r\n\r\n",
            Answer::Unavailable =>
                "HTTP/1.1 503 Service Unavailable\r\nContent-Length: 0\r\nConnection: close\r\n\r\n",
        }
    }
}

/// Reads so many bytes of a request from its stream, and writes the answer. The system resets a connection that is
/// closed while bytes wait to be read, and the answer would be lost. Errors are those of the stream, and `InvalidInput`
/// where more than 8,192 bytes are to be read.
pub fn refuse<T: Read + Write + Drop>(stream: T, seen: usize, answer: Answer) -> io::Result<T>
    ensures { IfOk result (Refused T.remaining T.contents seen answer stream) }
{
    let mut stream = stream;
    take(&mut stream, seen)?;
    stream.write_all(answer.text().as_bytes())?;
    Ok(stream)
}

/// Reads so many bytes from a stream.
pub(crate) fn take<T: Read + Drop>(stream: &mut T, count: usize) -> io::Result<()>
    ensures { OnOk result (Taken T.remaining count stream.old stream.new) }
{
    let mut bytes = [0; MAX_HEAD];
    let Some(part) = bytes.get_mut(..count) else {
        return Err(Error::from(ErrorKind::InvalidInput));
    };
    stream.read_exact(part)
}

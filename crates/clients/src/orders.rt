//! Lines of an operator, each of which is answered before the next is sent.

use crate::connection::Connection;
use crate::fault::ClientFault;
use crate::reply::{begun, ended};
use tungstenite::Utf8Bytes;

/// The most seconds of silence before a line is answered.
const MAX_ANSWER: u64 = 60;

/// An operator's connection.
#[derive(Drop)]
pub struct Orders<'a> {
    rt: &'a HostRuntime,
    connection: Connection<'a>,
    /// How many lines were sent. The word of each is its number.
    sent: u64,
}

impl<'a> Orders<'a> {
    /// Connects as an operator. Errors: nobody listens there, or the operator isn't hosted.
    pub fn to(rt: &'a HostRuntime, port: u16, operator: &str) -> Result<Orders<'a>, ClientFault> {
        let path = format!(in rt.alloc(); "/operator/{operator}")?;
        Ok(Orders {
            rt,
            connection: Connection::to(rt, port, path.as_str())?,
            sent: 0,
        })
    }
}

impl Orders<'_> {
    /// Sends a line with its word, and reads up to the line with which its answer begins. What comes before it is said
    /// to all connections of the operator.
    pub fn send(&mut self, line: &str) -> Result<(), ClientFault> {
        let alloc = self.rt.alloc();
        self.sent = self.sent.saturating_add(1);
        let word = self.sent;
        let text = format!(in alloc; "#{word} {line}")?;
        self.connection.send(alloc, text.as_str())?;
        for _ in 0..u64::MAX {
            let text = self.connection.next_text(MAX_ANSWER)?;
            if begun(text.as_str()) == Some(self.sent) {
                return Ok(());
            }
        }
        Err(self.silent())
    }

    /// The next text of the answer. `None` is its end.
    pub fn answer(&mut self) -> Result<Option<Utf8Bytes>, ClientFault> {
        let text = self.connection.next_text(MAX_ANSWER)?;
        if ended(text.as_str()) == Some(self.sent) {
            return Ok(None);
        }
        Ok(Some(text))
    }

    /// The next text, of an answer or not, which may take so many seconds to come.
    pub fn told(&mut self, seconds: u64) -> Result<Utf8Bytes, ClientFault> {
        self.connection.next_text(seconds)
    }

    /// No text came in time.
    pub fn silent(&self) -> ClientFault {
        self.connection.silent()
    }
}

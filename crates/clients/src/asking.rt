//! Lines that are sent as an operator, and what is said to them.

use crate::fault::ClientFault;
use crate::order_forms::hint_of;
use crate::orders::Orders;
use crate::outcome::is_taken;
use crate::reply::{Reply, ended_call, reply_of};
use ocpp_types::Text;
use std::io;
use std::io::Input;

/// The most seconds of silence before a call has ended.
const MAX_CALL: u64 = 3600;

/// What an operator asks for.
#[derive(Drop)]
pub struct AskOptions {
    pub port: u16,
    pub operator: Text,
    /// The line to send; without it, the lines of standard input.
    pub line: Option<Text>,
    /// The call of a command is followed to its end.
    pub wait: bool,
}

/// Lines of an operator that are sent.
#[derive(Drop)]
struct Asking<'a> {
    rt: &'a HostRuntime,
    options: &'a AskOptions,
    orders: Orders<'a>,
}

/// Sends the line, or each line of standard input, and prints what each is answered. Whether all were taken, and with
/// `--wait` carried out by their stations. Errors: no connection, one that ends, an answer that doesn't come, standard input
/// that can't be read.
pub fn ask(rt: &HostRuntime, options: &AskOptions) -> Result<bool, ClientFault> {
    let mut asking = Asking {
        rt,
        options,
        orders: Orders::to(rt, options.port, options.operator.as_str())?,
    };
    match &options.line {
        Some(line) => asking.line(line.as_str()),
        None => asking.all_lines(),
    }
}

impl Asking<'_> {
    /// Sends each line of standard input, without empty ones. Whether all were taken.
    fn all_lines(&mut self) -> Result<bool, ClientFault> {
        let mut all_taken = true;
        for line in self.rt.lines(self.rt.alloc()) {
            if !self.line_read(line)? {
                all_taken = false;
            }
        }
        Ok(all_taken)
    }

    /// Sends a line that was read, unless it is empty. Whether it was taken.
    fn line_read(&mut self, line: io::Result<String>) -> Result<bool, ClientFault> {
        let line = line?;
        if line.is_empty() {
            return Ok(true);
        }
        self.line(line.as_str())
    }

    /// Sends a line and prints what it is answered, and with `--wait` how its call has ended. Whether it was taken.
    fn line(&mut self, line: &str) -> Result<bool, ClientFault> {
        self.orders.send(line)?;
        match self.answer()? {
            Reply::Call(call) if self.options.wait => {
                let station = line.split(' ').nth(1).unwrap_or("");
                self.end_of(station, call)
            }
            Reply::Bad => {
                self.tell_why(line)?;
                Ok(false)
            }
            reply => Ok(reply != Reply::Refused),
        }
    }

    /// Prints what a line is answered. What its last line says.
    fn answer(&mut self) -> Result<Reply, ClientFault> {
        let mut reply = Reply::Other;
        for _ in 0..u64::MAX {
            let Some(text) = self.orders.answer()? else {
                return Ok(reply);
            };
            self.print(text.as_str())?;
            reply = reply_of(self.options.operator.as_str(), text.as_str());
        }
        Err(self.orders.silent())
    }

    /// Reads up to the line that says how a call has ended, and prints it. Whether the station took it.
    fn end_of(&mut self, station: &str, call: u64) -> Result<bool, ClientFault> {
        for _ in 0..u64::MAX {
            let text = self.orders.told(MAX_CALL)?;
            if ended_call(self.options.operator.as_str(), station, text.as_str()) == Some(call) {
                self.print(text.as_str())?;
                return Ok(is_taken(self.rt.alloc(), text.as_str())?);
            }
        }
        Err(self.orders.silent())
    }

    /// Writes to standard error why a line has no form.
    fn tell_why(&self, line: &str) -> Result<(), ClientFault> {
        let hint = hint_of(self.rt.alloc(), line)?;
        eprintln!(self.rt; "{hint}")?;
        Ok(())
    }

    fn print(&self, text: &str) -> Result<(), ClientFault> {
        println!(self.rt; "{text}")?;
        Ok(())
    }
}

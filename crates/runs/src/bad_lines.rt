//! The bad lines of a replay, counted and told as its output is written.

use crate::reason::reason_of;
use crate::recent::{Heard, Recent};
use memchr::memchr;
use ocpp_types::{Mem, Text};
use std::cell::RefCell;
use std::io;
use std::io::{Read, Write};
use std::rc::Rc;

/// What stands before the number in the line of a bad one.
const BEGIN: &[u8] = b"bad line ";

/// Of how many bad lines the reason is told.
const MOST_TOLD: u64 = 20;

/// A reader and a writer of a replay to which those operators are hosted: where the writer is given a line `bad line K`, it
/// tells why by what the reader has given last.
pub fn watch<R: Read + Drop, W: Write + Drop>(
    rt: &HostRuntime,
    reader: R,
    writer: W,
    operators: Vec<Text>,
) -> Mem<(Heard<R>, BadLines<'_, W>)> {
    let alloc = rt.alloc();
    let recent = Rc::new(alloc, RefCell::new(Recent::new(alloc)))?;
    let heard = Heard::new(reader, Rc::clone(&recent)?);
    Ok((heard, BadLines::new(rt, writer, recent, operators)))
}

/// A writer that finds the lines `bad line K` in what it writes, and tells on standard error why line K is bad.
#[derive(Drop)]
pub struct BadLines<'a, W> {
    rt: &'a HostRuntime,
    writer: W,
    recent: Rc<RefCell<Recent>>,
    /// The operators that are hosted.
    operators: Vec<Text>,
    /// How many bytes of the line that is written are those of such a line. None where it is another line.
    seen: Option<usize>,
    /// The number in it, up to there.
    number: u64,
    count: u64,
}

impl<'a, W: Write + Drop> BadLines<'a, W> {
    /// Over a writer at the start of a line.
    fn new(
        rt: &'a HostRuntime,
        writer: W,
        recent: Rc<RefCell<Recent>>,
        operators: Vec<Text>,
    ) -> BadLines<'a, W> {
        BadLines {
            rt,
            writer,
            recent,
            operators,
            seen: Some(0),
            number: 0,
            count: 0,
        }
    }

    /// Whether there was none.
    pub fn is_clean(&self) -> bool {
        self.count == 0
    }

    /// Takes the bytes that were written. Of a line that is no bad one its end alone is looked for.
    fn see_all(&mut self, bytes: &[u8]) {
        let mut rest = bytes;
        for _ in 0..bytes.len() {
            let Some((byte, after)) = rest.split_first() else {
                return;
            };
            if self.seen.is_some() {
                self.see(*byte);
                rest = after;
                continue;
            }
            let Some(feed) = memchr(b'\n', rest) else {
                return;
            };
            self.begin();
            rest = rest.get(feed.saturating_add(1)..).unwrap_or(&[]);
        }
    }

    /// A line begins.
    fn begin(&mut self) {
        self.seen = Some(0);
        self.number = 0;
    }

    /// Takes a byte of a line that may be that of a bad one.
    fn see(&mut self, byte: u8) {
        if byte == b'\n' {
            if self.seen.is_some_and(|seen| seen > BEGIN.len()) {
                self.count = self.count.saturating_add(1);
                let _told = self.tell();
            }
            self.begin();
            return;
        }
        self.seen = match self.seen {
            Some(seen) if follows(seen, byte) => Some(seen.saturating_add(1)),
            _ => None,
        };
        if byte.is_ascii_digit() {
            let digit = u64::from(byte.saturating_sub(b'0'));
            self.number = self.number.saturating_mul(10).saturating_add(digit);
        }
    }

    /// Tells why the line with the number is bad, if it is one of the first and the line is kept.
    fn tell(&self) -> Mem<()> {
        if self.count > MOST_TOLD {
            return Ok(());
        }
        let Ok(recent) = self.recent.try_borrow() else {
            return Ok(());
        };
        if let Some(line) = recent.line(self.number) {
            let why = reason_of(self.rt.alloc(), line, self.operators.as_slice())?;
            let number = self.number;
            let _written = eprintln!(self.rt; "line {number}: {why}");
        }
        Ok(())
    }
}

/// Whether a byte goes on with the line of a bad one, of which so many bytes stand.
fn follows(seen: usize, byte: u8) -> bool {
    match BEGIN.get(seen) {
        Some(wanted) => *wanted == byte,
        None => byte.is_ascii_digit(),
    }
}

impl<W: Write + Drop> Write for BadLines<'_, W> {
    fn write(&mut self, buf: &[u8]) -> io::Result<usize> {
        let written = self.writer.write(buf)?;
        self.see_all(buf.get(..written).unwrap_or(&[]));
        Ok(written)
    }

    fn flush(&mut self) -> io::Result<()> {
        self.writer.flush()
    }
}

//! The lines that a replay has read last.

use memchr::{memchr, memchr_iter, memrchr};
use std::alloc::Global;
use std::cell::RefCell;
use std::io;
use std::io::Read;
use std::rc::Rc;

/// So many bytes at least are kept of what was read last.
const KEPT: usize = 1_048_576;

/// What was read last, by lines.
#[derive(Drop)]
pub struct Recent {
    alloc: Global,
    text: Vec<u8>,
    /// The number of the line with which the text begins, from 1. None where what is kept has no number any more.
    first: Option<u64>,
}

impl Recent {
    /// Nothing was read.
    pub fn new(alloc: Global) -> Recent {
        Recent {
            alloc,
            text: Vec::new(alloc),
            first: Some(1),
        }
    }

    /// A line by its number, without its line feed, if it is kept.
    pub fn line(&self, number: u64) -> Option<&[u8]> {
        let before = number.checked_sub(self.first?)?;
        let mut rest = self.text.as_slice();
        for _ in 0..before {
            rest = after_line(rest)?;
        }
        let end = memchr(b'\n', rest).unwrap_or(rest.len());
        rest.get(..end)
    }

    /// Keeps what was read. Where there is no memory, or a line is longer than what is kept, no line has its number any
    /// more.
    fn keep(&mut self, bytes: &[u8]) {
        if self.text.len() > 2 * KEPT {
            self.cut();
        }
        if self.first.is_some() && self.text.extend_from_slice(bytes).is_err() {
            self.lose();
        }
    }

    /// Drops lines in front, so that no more is kept than must be.
    fn cut(&mut self) {
        let most = self.text.len().saturating_sub(KEPT);
        let front = self.text.get(..most).unwrap_or(&[]);
        let Some(last) = memrchr(b'\n', front) else {
            self.lose();
            return;
        };
        let end = last.saturating_add(1);
        let lines = memchr_iter(b'\n', front).count();
        self.first = self.first.map(|first| first.saturating_add(lines as u64));
        let mut kept = Vec::new(self.alloc);
        let rest = self.text.get(end..).unwrap_or(&[]);
        if kept.extend_from_slice(rest).is_err() {
            self.lose();
            return;
        }
        self.text = kept;
    }

    fn lose(&mut self) {
        self.first = None;
        self.text.clear();
    }
}

/// What follows the first line of a text, if it has a line feed.
fn after_line(text: &[u8]) -> Option<&[u8]> {
    let end = memchr(b'\n', text)?;
    text.get(end.saturating_add(1)..)
}

/// A reader, and what it has given last.
#[derive(Drop)]
pub struct Heard<R> {
    reader: R,
    recent: Rc<RefCell<Recent>>,
}

impl<R: Read + Drop> Heard<R> {
    /// A reader that has given nothing yet.
    pub fn new(reader: R, recent: Rc<RefCell<Recent>>) -> Heard<R> {
        Heard { reader, recent }
    }
}

impl<R: Read + Drop> Read for Heard<R> {
    fn read(&mut self, buf: &mut [u8]) -> io::Result<usize> {
        let len = self.reader.read(buf)?;
        if let Ok(mut recent) = self.recent.try_borrow_mut() {
            recent.keep(buf.get(..len).unwrap_or(&[]));
        }
        Ok(len)
    }
}

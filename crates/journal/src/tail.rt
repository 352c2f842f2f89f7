//! The end of a journal.
ghost use Rattle.std.specs.Prelude.{◌≡◌, IfOk};
ghost use Rattle.journal.specs.Tails.{ends_turn, fits};

use crate::digest::digest_of;
use crate::entry::Entry;
use crate::read::read_entry;
use ocpp_types::{Mem, NoMemory, Text};
use std::alloc::{AllocError, Global};
use std::io;
use std::io::BufRead;
use thiserror::Error;

/// How many changes were on record before a turn, and how many are if its events were taken.
#[derive(Clone, Copy, Debug, PartialEq, Eq, Drop)]
pub struct TurnCounts {
    pub before: u64,
    pub after: u64,
}

/// What a journal ends with.
#[derive(Clone, Copy, Debug, PartialEq, Eq, Drop)]
pub struct Tail {
    /// What the last mark says, if there is one.
    pub counts: Option<TurnCounts>,
    /// The last line has no line feed.
    pub is_cut: bool,
    /// There is no line, or parts alone of one that begins a file.
    pub is_new: bool,
}

/// Why the end of a journal can't be found.
#[derive(Clone, Copy, Debug, PartialEq, Eq, Drop, Error)]
pub enum TailFault {
    #[error("NoMemory")]
    NoMemory,
    /// The reader answered an error.
    #[error("Read")]
    Read,
}

impl From<NoMemory> for TailFault {
    fn from(_refused: NoMemory) -> TailFault {
        TailFault::NoMemory
    }
}

impl From<AllocError> for TailFault {
    fn from(_refused: AllocError) -> TailFault {
        TailFault::NoMemory
    }
}

impl From<io::Error> for TailFault {
    fn from(_error: io::Error) -> TailFault {
        TailFault::Read
    }
}

impl Tail {
    /// The end of a journal without a line.
    pub fn new() -> Tail {
        Tail {
            counts: None,
            is_cut: false,
            is_new: true,
        }
    }

    /// Whether `changes` can be the count of changes on record: it is the one after the turn that the last mark ends, or the one
    /// before it. In the second case nobody was told of the events of that turn.
    pub fn fits(&self, changes: u64) -> bool
        ensures { result ≡ fits self.now.counts changes }
    {
        match &self.counts {
            Some(counts) => changes == counts.after || changes == counts.before,
            None => true,
        }
    }

    /// A mark with that count of changes.
    fn mark(&mut self, before: u64, after: u64) {
        self.counts = Some(TurnCounts { before, after });
        self.is_new = false;
    }
}

/// Whether the mark of a turn is that of the lines before it, of which so many are events.
pub fn ends_turn(alloc: Global, number: u64, lines: &[u8], events: u64, digest: &str) -> Mem<bool>
    ensures { IfOk result (λ ends. ends ≡ ends_turn number lines.now events digest.now) }
{
    let of_lines = digest_of(alloc, lines)?;
    Ok(events == number && digest == of_lines.as_str())
}

/// A journal as far as it was read.
#[derive(Drop)]
struct Reading {
    alloc: Global,
    /// The operators that are hosted, as the last mark that names them says.
    hosted: Vec<Text>,
    /// How many events stand behind the last mark.
    events: u64,
    /// The lines there.
    lines: Vec<u8>,
    tail: Tail,
}

impl Reading {
    /// Passes a line, which is without its line feed.
    fn pass(&mut self, line: &[u8]) -> Mem<()> {
        match read_entry(self.alloc, self.hosted.as_slice(), line)? {
            Entry::Event(_) => {
                self.events = self.events.saturating_add(1);
                self.keep(line)
            }
            Entry::Bad => self.keep(line),
            Entry::Turn {
                events,
                before,
                after,
                digest,
            } => {
                let lines = self.lines.as_slice();
                if ends_turn(self.alloc, self.events, lines, events, digest.as_str())? {
                    self.tail.mark(before, after);
                }
                self.begin_turn();
                Ok(())
            }
            Entry::Taken { changes, .. } => {
                self.mark(changes);
                Ok(())
            }
            Entry::Begins { changes, operators }
            | Entry::Continues {
                changes,
                operators,
                ..
            } => {
                self.mark(changes);
                self.hosted = names_of(self.alloc, operators.as_str())?;
                Ok(())
            }
        }
    }

    fn keep(&mut self, line: &[u8]) -> Mem<()> {
        self.lines.extend_from_slice(line)?;
        self.lines.push(b'\n')?;
        Ok(())
    }

    fn begin_turn(&mut self) {
        self.events = 0;
        self.lines.clear();
    }

    /// A mark gives the count of changes on record.
    fn mark(&mut self, changes: u64) {
        self.tail.mark(changes, changes);
        self.begin_turn();
    }
}

/// What a journal ends with, by a reader of all of it.
pub fn tail_of<R: BufRead>(alloc: Global, reader: &mut R) -> Result<Tail, TailFault> {
    let mut reading = Reading {
        alloc,
        hosted: Vec::new(alloc),
        events: 0,
        lines: Vec::new(alloc),
        tail: Tail::new(),
    };
    let mut line = Vec::new(alloc);
    for _ in 0..u64::MAX {
        line.clear();
        reader.read_until(b'\n', &mut line)?;
        let [text @ .., b'\n'] = line.as_slice() else {
            break;
        };
        reading.tail.is_new = reading.tail.is_new && begins_file(text);
        reading.pass(text)?;
    }
    let mut tail = reading.tail;
    if !line.is_empty() {
        tail.is_new = tail.is_new && begins_file(line.as_slice());
        tail.is_cut = true;
    }
    Ok(tail)
}

/// Whether a part of a line, which may have been ended since, may be that of a mark with which a file begins.
fn begins_file(part: &[u8]) -> bool {
    let part = part.split(|byte| *byte == 255).next().unwrap_or(part);
    !part.is_empty() && (agree(part, b"begins ") || agree(part, b"continues "))
}

/// Whether one of them is the front of the other.
fn agree(part: &[u8], word: &[u8]) -> bool {
    part.starts_with(word) || word.starts_with(part)
}

/// The names in a list whose items are divided by commas.
pub fn names_of(alloc: Global, list: &str) -> Mem<Vec<Text>> {
    let mut names = Vec::new(alloc);
    for name in list.split(',') {
        names.push(Text::copy_of(alloc, name)?)?;
    }
    Ok(names)
}

//! The events of a journal that aren't taken yet.
ghost use Rattle.std.specs.Prelude.{◌≡◌, ◌++◌, ◌∷◌, true, [], length, take, IfOk, OnOk};
ghost use Rattle.journal.specs.Tails.{ends_turn};
ghost use Rattle.standby.specs.Follows.{PassesTo, confirmed, none_waits, pending_of, taken_at_turn, taken_here, waiting_after, waiting_at_turn};

use crate::fault::FollowFault;
use hub_events::Event;
use journal::{Entry, ends_turn};
use ocpp_types::{Mem, Text};
use std::alloc::Global;
use std::mem;

/// What isn't taken yet of the journal of a server.
#[derive(Drop)]
pub struct Waiting {
    alloc: Global,
    /// The events of a turn with changes. The next mark says whether they are on record.
    pub held: Vec<Event>,
    /// So many are, if they are.
    after: u64,
    /// The events behind the last mark.
    pub events: Vec<Event>,
    /// The lines there.
    lines: Vec<u8>,
    /// How many files have begun after the server's first.
    files: u64,
}

/// What follows a line of a journal.
#[derive(Drop)]
pub enum Passed {
    /// More lines of the server, and how many changes are to be on record, where the line says so.
    On { changes: Option<u64> },
    /// Another server begins, with that count of changes on record and those operators.
    Begun { changes: u64, operators: Text },
}

impl Waiting {
    /// None.
    pub fn new(alloc: Global) -> Waiting
        ensures { pending_of result ≡ none_waits 0 }
    {
        Waiting {
            alloc,
            held: Vec::new(alloc),
            after: 0,
            events: Vec::new(alloc),
            lines: Vec::new(alloc),
            files: 0,
        }
    }

    /// Passes a line, which says that, and gives the events that are taken with it. A mark that isn't that of the lines before
    /// it, and a file that isn't the next one, are a gap.
    pub fn pass(&mut self, line: &[u8], entry: Entry) -> Result<(Vec<Event>, Passed), FollowFault>
        ensures taken { IfOk result (λ r. r.0.items ≡ taken_here (pending_of self.old) entry) }
        ensures waits { IfOk result (λ r. PassesTo r.1 (waiting_after (pending_of self.old) line.now entry) (pending_of self.new)) }
    {
        match entry {
            Entry::Event(event) => {
                self.keep(line)?;
                self.add(event)?;
                Ok((Vec::new(self.alloc), Passed::On { changes: None }))
            }
            Entry::Bad => {
                self.keep(line)?;
                Ok((Vec::new(self.alloc), Passed::On { changes: None }))
            }
            Entry::Turn {
                events,
                before,
                after,
                digest,
            } => {
                self.check_turn(events, digest.as_str())?;
                let changes = Some(before);
                Ok((self.end_turn(before, after)?, Passed::On { changes }))
            }
            Entry::Taken {
                taken,
                events,
                changes,
            } => {
                let first = self.take_first(taken, events)?;
                self.begin_turn(changes);
                let changes = Some(changes);
                Ok((first, Passed::On { changes }))
            }
            Entry::Continues { file, changes, .. } => {
                self.files = next_file(self.files, file)?;
                let held = self.confirm(changes);
                self.begin_turn(changes);
                let changes = Some(changes);
                Ok((held, Passed::On { changes }))
            }
            Entry::Begins { changes, operators } => {
                Ok((self.confirm(changes), Passed::Begun { changes, operators }))
            }
        }
    }

    fn add(&mut self, event: Event) -> Mem<()>
        ensures { OnOk result (pending_of self.new ≡ record (pending_of self.old) { events = self.old.events.items ++ (event ∷ []) }) }
    {
        self.events.push(event)?;
        Ok(())
    }

    /// Keeps a line with its line feed.
    fn keep(&mut self, line: &[u8]) -> Mem<()>
        ensures { OnOk result (pending_of self.new ≡ record (pending_of self.old) { lines = self.old.lines.items ++ (line.now ++ (10 ∷ [])) }) }
    {
        self.lines.extend_from_slice(line)?;
        self.lines.push(b'\n')?;
        Ok(())
    }

    /// Whether a mark that ends a turn is that of the lines before it.
    fn check_turn(&self, events: u64, digest: &str) -> Result<(), FollowFault>
        ensures { OnOk result (ends_turn (length self.now.events.items) self.now.lines.items events digest.now ≡ true) }
    {
        let number = self.events.len() as u64;
        if ends_turn(self.alloc, number, self.lines.as_slice(), events, digest)? {
            Ok(())
        } else {
            Err(FollowFault::Gap)
        }
    }

    /// Takes the events that are held, by the count of changes that a mark gives. None is held then.
    fn confirm(&mut self, changes: u64) -> Vec<Event>
        ensures taken { result.items ≡ confirmed (pending_of self.old) changes }
        ensures waits { pending_of self.new ≡ record (pending_of self.old) { held = [] } }
    {
        let held = mem::replace(&mut self.held, Vec::new(self.alloc));
        if changes == self.after {
            held
        } else {
            Vec::new(self.alloc)
        }
    }

    /// A turn ends. `before` counts the changes on record before it, `after` those on record if its events were taken.
    fn end_turn(&mut self, before: u64, after: u64) -> Mem<Vec<Event>>
        ensures taken { IfOk result (λ taken. taken.items ≡ taken_at_turn (pending_of self.old) before after) }
        ensures waits { OnOk result (pending_of self.new ≡ waiting_at_turn (pending_of self.old) before after) }
    {
        let mut taken = self.confirm(before);
        if before == after {
            taken.append(&mut self.events)?;
        } else {
            mem::swap(&mut self.held, &mut self.events);
        }
        self.after = after;
        self.lines.clear();
        Ok(taken)
    }

    /// Those that are held, and the first of those behind the last mark, of which there are to be so many.
    fn take_first(&mut self, taken: u64, events: u64) -> Result<Vec<Event>, FollowFault>
        ensures { IfOk result (λ first. first.items ≡ self.old.held.items ++ take taken self.old.events.items) }
    {
        if events != self.events.len() as u64 || taken > events {
            return Err(FollowFault::Gap);
        }
        let mut first = mem::replace(&mut self.held, Vec::new(self.alloc));
        self.events.truncate(taken as usize);
        first.append(&mut self.events)?;
        Ok(first)
    }

    /// Nothing waits. `changes` counts the changes on record.
    fn begin_turn(&mut self, changes: u64)
        ensures { pending_of self.new ≡ none_waits changes }
    {
        self.held.clear();
        self.after = changes;
        self.events.clear();
        self.lines.clear();
    }
}

/// The number of the file that follows so many, which is to be that one.
fn next_file(files: u64, file: u64) -> Result<u64, FollowFault> {
    if files.checked_add(1) == Some(file) {
        Ok(file)
    } else {
        Err(FollowFault::Gap)
    }
}

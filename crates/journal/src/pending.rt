//! Lines that aren't in the file of a journal yet.
ghost use Rattle.std.specs.Prelude.{◌≡◌, ◌++◌, ◌∷◌, ℕ, List, Bool, [], OnOk, OnErr, string_bytes, true, false};
ghost use Rattle.std.specs.List.{list_any};
ghost use Rattle.std.specs.Io.KnownBytes.{Appends};
ghost use Rattle.lines.specs.Journal.{is_feed, Stands};
ghost use Rattle.journal.specs.declared.entry.Entry.TheVariants as said;
ghost use Rattle.journal.specs.declared.entry.Entry.TheVariants.{Begins, Continues, Turn};
ghost use Rattle.journal.specs.Entries.{digest_of, AreCounts, IsCount};
ghost use Rattle.journal.specs.Journals.{is_whole, AddsLine, EndsCut};

use crate::digest::digest_of;
use crate::marks::{begins_line, continues_line, turn_line};
use hub_events::Event;
use lines::journal_line;
use ocpp_types::Mem;
use std::alloc::Global;
use std::io;
use std::io::Write;

/// Lines of a journal that aren't in its file yet, each with its line feed.
#[derive(Drop)]
pub struct Pending {
    alloc: Global,
    bytes: Vec<u8>,
    ghost whole: { is_whole bytes.items ≡ true },
}

#[tactic(auto, using(crate::proofs::Laws::whole_nothing, crate::proofs::Laws::nothing, crate::proofs::Laws::whole_if, crate::proofs::Laws::whole_cut, crate::proofs::Laws::whole_both, crate::proofs::Laws::event_line, crate::proofs::Laws::turn_adds, crate::proofs::Laws::begins_adds, crate::proofs::Laws::continues_adds, crate::proofs::Cuts::ends_cut))]
impl Pending {
    /// No line.
    pub fn new(alloc: Global) -> Pending
        ensures { result.bytes.items ≡ [] }
    {
        Pending {
            alloc,
            bytes: Vec::new(alloc),
        }
    }

    /// Whether no line is there.
    pub fn is_empty(&self) -> bool
        ensures { result ≡ true → self.now.bytes.items ≡ [] }
    {
        self.bytes.is_empty()
    }

    fn add_line(&mut self, mut line: String) -> Mem<()>
        ensures added { OnOk result (self.new.bytes.items ≡ self.old.bytes.items ++ (string_bytes line ++ (10 ∷ []))) }
        ensures kept { OnErr result (self.new.bytes.items ≡ self.old.bytes.items) }
    {
        line.push('\n')?;
        self.bytes.extend_from_slice(line.as_bytes())?;
        Ok(())
    }

    /// Adds the line of an event. `order` is the text of an order, without its word.
    pub fn add_event(&mut self, event: &Event, order: &str) -> Mem<()>
        ensures line { OnOk result ((is_hosted : List ℕ → Bool) → Stands is_hosted event.now order.now → AddsLine is_hosted (said.Event event.now) self.old.bytes.items self.new.bytes.items) }
        ensures kept { OnErr result (self.new.bytes.items ≡ self.old.bytes.items) }
    {
        let line = journal_line(self.alloc, event, order)?;
        self.add_line(line)
    }

    /// Adds the mark that ends the turn of these lines, of which so many are events.
    pub fn add_turn(&mut self, events: u64, before: u64, after: u64) -> Mem<()>
        ensures line { AreCounts events before after → OnOk result ((is_hosted : List ℕ → Bool) → AddsLine is_hosted (Turn events before after (digest_of self.old.bytes.items)) self.old.bytes.items self.new.bytes.items) }
        ensures kept { OnErr result (self.new.bytes.items ≡ self.old.bytes.items) }
    {
        let digest = digest_of(self.alloc, self.bytes.as_slice())?;
        let line = turn_line(self.alloc, events, before, after, digest.as_str())?;
        self.add_line(line)
    }

    /// Adds the mark with which a server begins: the count of changes on record, and the operators.
    pub fn add_begins(&mut self, changes: u64, operators: &str) -> Mem<()>
        ensures line { IsCount changes → list_any is_feed operators.now ≡ false → OnOk result ((is_hosted : List ℕ → Bool) → AddsLine is_hosted (Begins changes operators.now) self.old.bytes.items self.new.bytes.items) }
        ensures kept { OnErr result (self.new.bytes.items ≡ self.old.bytes.items) }
    {
        let line = begins_line(self.alloc, changes, operators)?;
        self.add_line(line)
    }

    /// Adds the mark with which a further file of a server begins: the count of changes on record, and the operators.
    pub fn add_continues(&mut self, file: u64, changes: u64, operators: &str) -> Mem<()>
        ensures line { IsCount file → IsCount changes → list_any is_feed operators.now ≡ false → OnOk result ((is_hosted : List ℕ → Bool) → AddsLine is_hosted (Continues file changes operators.now) self.old.bytes.items self.new.bytes.items) }
        ensures kept { OnErr result (self.new.bytes.items ≡ self.old.bytes.items) }
    {
        let line = continues_line(self.alloc, file, changes, operators)?;
        self.add_line(line)
    }

    /// Ends a line of which only a part is in the file, so that it is no entry whatever its bytes are: they aren't UTF-8.
    pub fn add_cut(&mut self) -> Mem<()>
        ensures added { OnOk result (self.new.bytes.items ≡ self.old.bytes.items ++ (255 ∷ 10 ∷ [])) }
        ensures ends { OnOk result (self.old.bytes.items ≡ [] → EndsCut self.new.bytes.items) }
        ensures kept { OnErr result (self.new.bytes.items ≡ self.old.bytes.items) }
    {
        self.bytes.extend_from_slice(&[255, b'\n'])?;
        Ok(())
    }

    /// Adds all lines of another, which has none then.
    pub fn append(&mut self, other: &mut Pending) -> Mem<()>
        ensures bytes { OnOk result (self.new.bytes.items ≡ self.old.bytes.items ++ other.old.bytes.items) }
        ensures taken { OnOk result (other.new.bytes.items ≡ []) }
        ensures kept { OnErr result (self.new.bytes.items ≡ self.old.bytes.items) }
    {
        self.bytes.extend_from_slice(other.bytes.as_slice())?;
        other.clear();
        Ok(())
    }

    /// Drops all lines.
    pub fn clear(&mut self)
        ensures { self.new.bytes.items ≡ [] }
    {
        self.bytes.clear();
    }

    /// Writes all lines to a file, and has none then. After an error some of their bytes may be in the file.
    pub fn write_to<W: Write>(&mut self, file: &mut W) -> io::Result<()>
        ensures written { OnOk result (Appends (W.contents file.old) (W.contents file.new) self.old.bytes.items) }
        ensures none { OnOk result (self.new.bytes.items ≡ []) }
    {
        file.write_all(self.bytes.as_slice())?;
        self.bytes.clear();
        Ok(())
    }
}

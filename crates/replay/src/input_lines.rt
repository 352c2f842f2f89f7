//! The lines of an input that comes in parts.
ghost use Rattle.std.specs.Prelude.{◌≡◌, ◌≢◌, ◌+◌, ◌++◌, ◌<◌, ◌≤◌, ◌∷◌, ℕ, List, [], true, false, length, take, OnOk, OnErr, IfOk, IfErr, MatchOption, vec_len};
ghost use Rattle.std.specs.Io.KnownBytes.{Consumes, IsAtEnd, Keeps};
ghost use Rattle.lines.specs.declared.input_line.TheConstants.{MAX_LINE};
ghost use Rattle.replay.specs.Held.{IsHeld, IsLine, HasNoFeed, Reads};
ghost use Rattle.replay.specs.declared.fault.ReplayFault.TheVariants as replay_fault;

use crate::fault::ReplayFault;
use lines::MAX_LINE;
use memchr::memchr;
use std::alloc::{AllocError, Global};
use std::io::Read;

/// The most bytes of a read.
const CHUNK: usize = 65_536;

/// The lines of an input that is read in parts. A line of over `MAX_LINE` bytes isn't held.
#[derive(Drop)]
pub struct Lines {
    /// What was read last.
    pub buffer: Vec<u8>,
    /// Where the bytes begin that weren't handed out.
    pub start: usize,
    /// How many more bytes may be read.
    pub left: u64,
    /// Whether the last line was handed out.
    pub ended: bool,
    /// The line that was handed out last, unless it is too long.
    pub line: Vec<u8>,
    pub is_long: bool,
}

impl Lines {
    ghost use Rattle.replay.specs.Lines.{unread, to_come, HandsOut, IsDone, most_turns};

    /// The lines of an input of which at most so many bytes are read.
    pub fn new(alloc: Global, most: u64) -> Lines
        ensures start { (result.start ≡ 0) × (result.buffer.items ≡ []) }
        ensures ended { result.ended ≡ false }
        ensures left { result.left ≡ most }
    {
        Lines {
            buffer: Vec::new(alloc),
            start: 0,
            left: most,
            ended: false,
            line: Vec::new(alloc),
            is_long: false,
        }
    }

    /// The line that was handed out last, or none where it is too long.
    pub fn held(&self) -> Option<&[u8]>
        ensures { (line : List ℕ) → IsHeld self.now.is_long self.now.line.items line → IsLine result line }
    {
        if self.is_long {
            None
        } else {
            Some(self.line.as_slice())
        }
    }

    /// Whether the next line was read to its end, so that `next` doesn't read.
    pub fn has_whole_line(&self) -> bool
        requires within { self.now.start ≤ vec_len self.now.buffer }
    {
        memchr(b'\n', &self.buffer[self.start..]).is_some()
    }

    /// Hands out the next line: whether there is one.
    pub fn next<R: Read>(&mut self, reader: &mut R) -> Result<bool, ReplayFault>
        requires within { self.old.start ≤ vec_len self.old.buffer }
        ensures within { OnOk result (self.new.start ≤ vec_len self.new.buffer) }
        ensures line { IfOk result (λ more. more ≡ true → HandsOut (to_come self.old (R.remaining reader.old)) (to_come self.new (R.remaining reader.new)) (IsHeld self.new.is_long self.new.line.items)) }
        ensures fewer { IfOk result (λ more. more ≡ true → most_turns self.new < most_turns self.old) }
        ensures done { IfOk result (λ more. more ≡ false → (self.old.ended ≡ true) × IsDone (to_come self.old (R.remaining reader.old))) }
        ensures unended { IfOk result (λ more. more ≡ true → self.old.ended ≡ false) }
        ensures end { OnOk result (self.old.ended ≡ false → self.new.ended ≡ true → (0 < self.new.left) × IsAtEnd (R.remaining reader.new)) }
        ensures kept { OnOk result (self.old.ended ≡ true → (self.new.left ≡ self.old.left) × Keeps (R.remaining reader.old) (R.remaining reader.new)) }
        ensures count { Reads (R.remaining reader.old) (R.remaining reader.new) self.old.left self.new.left }
        ensures long { IfErr result (λ e. e ≡ replay_fault.TooLong → self.new.left ≡ 0) }
        ensures kinds { IfErr result (λ e. (e ≢ replay_fault.BadOperators) × (e ≢ replay_fault.Store)) }
    {
        if self.ended {
            return Ok(false);
        }
        self.line.clear();
        self.is_long = false;
        while !self.take_front()? {
            if !self.read_more(reader)? {
                self.ended = true;
                return Ok(true);
            }
        }
        Ok(true)
    }

    /// Adds to the line what was read of it: whether its line feed is there.
    fn take_front(&mut self) -> Result<bool, AllocError>
        requires within { self.old.start ≤ vec_len self.old.buffer }
        requires bound { self.old.is_long ≡ false → vec_len self.old.line ≤ MAX_LINE }
        ensures within { self.new.start ≤ vec_len self.new.buffer }
        ensures bound { self.new.is_long ≡ false → vec_len self.new.line ≤ MAX_LINE }
        ensures left { self.new.left ≡ self.old.left }
        ensures ended { self.new.ended ≡ self.old.ended }
        ensures fewer { vec_len self.new.buffer + self.old.start ≤ vec_len self.old.buffer + self.new.start }
        ensures found { IfOk result (λ found. found ≡ true → (piece : List ℕ) × (unread self.old ≡ piece ++ (10 ∷ unread self.new)) × HasNoFeed piece
            × ((seen : List ℕ) → IsHeld self.old.is_long self.old.line.items seen → IsHeld self.new.is_long self.new.line.items (seen ++ piece))) }
        ensures open { IfOk result (λ found. found ≡ false → (unread self.new ≡ []) × HasNoFeed (unread self.old)
            × ((seen : List ℕ) → IsHeld self.old.is_long self.old.line.items seen → IsHeld self.new.is_long self.new.line.items (seen ++ unread self.old))) }
    {
        match cut(&self.buffer[self.start..]) {
            Some((front, _)) => {
                hold(&mut self.line, &mut self.is_long, front)?;
                self.start += front.len() + 1;
                Ok(true)
            }
            None => {
                hold(
                    &mut self.line,
                    &mut self.is_long,
                    &self.buffer[self.start..],
                )?;
                self.start = self.buffer.len();
                Ok(false)
            }
        }
    }

    /// Reads the next part in place of the one that was handed out: whether there is any.
    fn read_more<R: Read>(&mut self, reader: &mut R) -> Result<bool, ReplayFault>
        ensures start { OnOk result (self.new.start ≡ 0) }
        ensures line { (self.new.line ≡ self.old.line) × (self.new.is_long ≡ self.old.is_long) }
        ensures ended { self.new.ended ≡ self.old.ended }
        ensures bytes { OnOk result (Consumes (R.remaining reader.old) (R.remaining reader.new) self.new.buffer.items) }
        ensures left { OnOk result (vec_len self.new.buffer + self.new.left ≡ self.old.left) }
        ensures more { IfOk result (λ more. more ≡ true → 0 < vec_len self.new.buffer) }
        ensures end { IfOk result (λ more. more ≡ false → (self.new.buffer.items ≡ []) × (0 < self.old.left) × IsAtEnd (R.remaining reader.new)) }
        ensures err { OnErr result ((self.new.left ≡ self.old.left) × Keeps (R.remaining reader.old) (R.remaining reader.new)) }
        ensures long { IfErr result (λ e. e ≡ replay_fault.TooLong → self.new.left ≡ 0) }
        ensures kinds { IfErr result (λ e. (e ≢ replay_fault.BadOperators) × (e ≢ replay_fault.Store)) }
    {
        if self.left == 0 {
            return Err(ReplayFault::TooLong);
        }
        self.start = 0;
        self.buffer.resize(CHUNK, 0)?;
        let count = read_part(reader, self.buffer.as_mut_slice(), self.left)?;
        self.buffer.truncate(count);
        self.left -= count as u64;
        Ok(count != 0)
    }
}

/// One read, of at most `most` bytes: how many it gave.
fn read_part<R: Read>(reader: &mut R, buffer: &mut [u8], most: u64) -> Result<usize, ReplayFault>
    requires room { (0 < length buffer.old) × (0 < most) }
    ensures fits { IfOk result (λ n. (n ≤ most) × (n ≤ length buffer.old)) }
    ensures bytes { IfOk result (λ n. Consumes (R.remaining reader.old) (R.remaining reader.new) (take n buffer.new)) }
    ensures end { IfOk result (λ n. n ≡ 0 → IsAtEnd (R.remaining reader.new)) }
    ensures err { OnErr result (Keeps (R.remaining reader.old) (R.remaining reader.new)) }
    ensures kind { IfErr result (λ e. e ≡ replay_fault.Read) }
{
    let room = most.min(buffer.len() as u64) as usize;
    match reader.read(&mut buffer[..room]) {
        Ok(count) => Ok(count),
        Err(_) => Err(ReplayFault::Read),
    }
}

/// The bytes before the first line feed, and those after it.
fn cut(bytes: &[u8]) -> Option<(&[u8], &[u8])>
    ensures { MatchOption result (HasNoFeed bytes.now)
        (λ p. HasNoFeed p.0.now × (bytes.now ≡ p.0.now ++ (10 ∷ p.1.now))) }
{
    let end = memchr(b'\n', bytes)?;
    Some((&bytes[..end], &bytes[end + 1..]))
}

/// Adds a piece to a line, unless the line is or becomes too long.
fn hold(line: &mut Vec<u8>, is_long: &mut bool, piece: &[u8]) -> Result<(), AllocError>
    requires { is_long.old ≡ false → vec_len line.old ≤ MAX_LINE }
    ensures bound { is_long.new ≡ false → vec_len line.new ≤ MAX_LINE }
    ensures held { OnOk result ((seen : List ℕ) → IsHeld is_long.old line.old.items seen
        → IsHeld is_long.new line.new.items (seen ++ piece.now)) }
{
    if *is_long {
        return Ok(());
    }
    if piece.len() > MAX_LINE - line.len() {
        line.clear();
        *is_long = true;
        return Ok(());
    }
    line.extend_from_slice(piece)
}

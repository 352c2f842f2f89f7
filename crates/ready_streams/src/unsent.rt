//! Bytes on their way to the system.
ghost use Rattle.std.specs.Prelude.{◌≡◌, ◌+◌, ◌<◌, ◌≤◌, ◌++◌, [], length, drop, true, false, OnOk, OnErr, IfErr};
ghost use Rattle.std.specs.IoError.{error_kind};
ghost use Rattle.ready_streams.specs.Held.{held_in};
ghost use Rattle.ready_streams.specs.declared.blocks.TheConstants.{BLOCK_SIZE};

use crate::blocks::{BLOCK_SIZE, Blocks};
use std::alloc::Global;
use std::io;
use std::io::{Error, ErrorKind, Write};

/// Bytes that wait until the system takes them. Those that it has taken are freed, block by block.
#[derive(Drop)]
pub struct Unsent {
    blocks: Blocks,
    /// How many bytes of the first block the system has taken.
    sent: usize,
    /// How many bytes wait.
    count: usize,
    /// The system had no room, and has reported none since.
    is_blocked: bool,
    /// A write failed. No byte waits, and none is taken.
    has_failed: bool,
    ghost begun: { sent ≤ length blocks.first.items },
    ghost led: { length blocks.first.items ≤ sent → length (held_in blocks) ≡ 0 },
    ghost counted: { count ≡ length (drop sent (held_in blocks)) },
    ghost dropped: { has_failed ≡ true → count ≡ 0 },
    ghost freed: { length (held_in blocks) ≤ count + BLOCK_SIZE },
}

impl Unsent {
    ghost use Rattle.ready_streams.specs.Unsent.{waiting, Gives, Adds};

    pub fn new(alloc: Global) -> Unsent
        ensures { waiting result ≡ [] }
    {
        Unsent {
            blocks: Blocks::new(alloc),
            sent: 0,
            count: 0,
            is_blocked: false,
            has_failed: false,
        }
    }

    /// How many bytes wait.
    pub fn len(&self) -> usize
        ensures { result ≡ length (waiting self.now) }
    {
        self.count
    }

    /// The system has room again.
    pub fn unblock(&mut self)
        ensures waits { waiting self.new ≡ waiting self.old }
        ensures free { self.new.is_blocked ≡ false }
        ensures for_good { self.new.has_failed ≡ self.old.has_failed }
    {
        self.is_blocked = false;
    }

    /// Adds bytes, where no more than `room` wait then. Where many wait they are given to the system first, unless it
    /// `holds` them. Errors: `WriteZero` where there is no room, `OutOfMemory`, and `BrokenPipe` after a write that failed.
    pub fn add<W: Write>(
        &mut self,
        stream: &mut W,
        bytes: &[u8],
        room: usize,
        holds: bool,
    ) -> io::Result<()>
        ensures { Adds (W.contents stream.old) (W.contents stream.new) bytes.now room self.old self.new result }
    {
        self.make_room(stream, bytes.len(), holds);
        if self.has_failed {
            return Err(Error::from(ErrorKind::BrokenPipe));
        }
        match self.count.checked_add(bytes.len()) {
            Some(count) if count <= room => self.append(bytes, count),
            _ => Err(Error::from(ErrorKind::WriteZero)),
        }
    }

    /// Gives the system what waits, where much would wait with so many bytes more, unless it `holds` them.
    fn make_room<W: Write>(&mut self, stream: &mut W, bytes: usize, holds: bool)
        ensures { Gives (W.contents stream.old) (W.contents stream.new) self.old self.new }
    {
        if !holds && self.count.saturating_add(bytes) > BLOCK_SIZE {
            self.give(stream);
        }
    }

    /// Adds bytes behind. So many wait then.
    fn append(&mut self, bytes: &[u8], count: usize) -> io::Result<()>
        requires count { count ≡ self.old.count + length bytes.now }
        requires lasts { self.old.has_failed ≡ false }
        ensures ok { OnOk result (waiting self.new ≡ waiting self.old ++ bytes.now) }
        ensures err { OnErr result (waiting self.new ≡ waiting self.old) }
        ensures counted { OnOk result (length (waiting self.new) ≡ count) }
        ensures memory { IfErr result (λ e. error_kind e ≡ ErrorKind.OutOfMemory) }
        ensures lasts { self.new.has_failed ≡ false }
    {
        match self.blocks.append(bytes) {
            Ok(()) => {
                self.count = count;
                Ok(())
            }
            Err(_) => Err(Error::from(ErrorKind::OutOfMemory)),
        }
    }

    /// Gives the system what it takes of them.
    pub fn give<W: Write>(&mut self, stream: &mut W)
        ensures gives { Gives (W.contents stream.old) (W.contents stream.new) self.old self.new }
        ensures done { self.new.is_blocked ≡ false → waiting self.new ≡ [] }
    {
        for _ in 0..u64::MAX {
            let is_sent = self.sent >= self.blocks.first().len();
            if self.is_blocked || self.has_failed || is_sent {
                return;
            }
            self.give_once(stream);
        }
        self.is_blocked = true;
    }

    fn give_once<W: Write>(&mut self, stream: &mut W)
        requires some { self.old.sent < length self.old.blocks.first.items }
        requires lasts { self.old.has_failed ≡ false }
        ensures { Gives (W.contents stream.old) (W.contents stream.new) self.old self.new }
    {
        match stream.write(&self.blocks.first()[self.sent..]) {
            Ok(0) => self.fail(),
            Ok(len) => self.take(len),
            Err(error) if error.kind() == ErrorKind::Interrupted => {}
            Err(error) if error.kind() == ErrorKind::WouldBlock => self.is_blocked = true,
            Err(_) => self.fail(),
        }
    }

    /// The system has taken so many bytes of the first block.
    fn take(&mut self, len: usize)
        requires { self.old.sent + len ≤ length self.old.blocks.first.items }
        ensures waits { waiting self.new ≡ drop len (waiting self.old) }
        ensures lasts { self.new.has_failed ≡ self.old.has_failed }
    {
        self.sent += len;
        self.count -= len;
        if self.sent == self.blocks.first().len() {
            self.blocks.drop_first();
            self.sent = 0;
        }
    }

    /// Drops what waits.
    pub fn clear(&mut self)
        ensures waits { waiting self.new ≡ [] }
        ensures lasts { self.new.has_failed ≡ self.old.has_failed }
    {
        self.blocks.clear();
        self.sent = 0;
        self.count = 0;
    }

    /// Drops what waits, and takes nothing any more.
    pub fn fail(&mut self)
        ensures waits { waiting self.new ≡ [] }
        ensures failed { self.new.has_failed ≡ true }
    {
        self.has_failed = true;
        self.blocks.clear();
        self.sent = 0;
        self.count = 0;
    }
}

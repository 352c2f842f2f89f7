//! Bytes in blocks.
ghost use Rattle.std.specs.Prelude.{◌≡◌, ◌+◌, ◌<◌, ◌≤◌, ◌++◌, [], ◌∷◌, length, is_ok, IfOk, if◌then◌else◌, true};
ghost use Rattle.std.proofs.Props.{props};
ghost use Rattle.ready_streams.specs.Blocks.{joined, AreSmall, AreFilled};

use std::alloc::{AllocError, Global};
use std::collections::VecDeque;

/// The most bytes of a block.
pub const BLOCK_SIZE: usize = 65_536;

/// The most room that stays where no byte is left.
const IDLE_ROOM: usize = 4096;

/// Bytes in blocks, so that those in front can be freed before the others.
#[derive(Drop)]
pub struct Blocks {
    alloc: Global,
    first: Vec<u8>,
    later: VecDeque<Vec<u8>>,
    ghost small: { AreSmall (first ∷ later.items) } by { Prim.hlevel props },
    ghost filled: { AreFilled later.items } by { Prim.hlevel props },
    ghost led: { length first.items ≡ 0 → length later.items ≡ 0 },
}

impl Blocks {
    ghost use Rattle.ready_streams.specs.Held.{held_in};

    /// No bytes. It takes no memory.
    pub fn new(alloc: Global) -> Blocks
        ensures { held_in result ≡ [] }
    {
        Blocks {
            alloc,
            first: Vec::new(alloc),
            later: VecDeque::new(alloc),
        }
    }

    /// The bytes of the first block.
    pub fn first(&self) -> &[u8]
        ensures bytes { result.now ≡ self.now.first.items }
        ensures small { length result.now ≤ BLOCK_SIZE }
    {
        self.first.as_slice()
    }

    /// Adds all of the bytes behind, or none.
    pub fn append(&mut self, bytes: &[u8]) -> Result<(), AllocError>
        ensures bytes { held_in self.new ≡ (if is_ok result then held_in self.old ++ bytes.now else held_in self.old) }
        ensures first { length self.old.first.items ≤ length self.new.first.items }
    {
        match self.later.len().checked_sub(1) {
            None if fits(&self.first, bytes) => extend(&mut self.first, bytes),
            Some(last) if fits(&self.later[last], bytes) => extend(&mut self.later[last], bytes),
            _ => self.append_blocks(bytes),
        }
    }

    /// Adds them in blocks of their own.
    fn append_blocks(&mut self, bytes: &[u8]) -> Result<(), AllocError>
        ensures bytes { held_in self.new ≡ (if is_ok result then held_in self.old ++ bytes.now else held_in self.old) }
        ensures first { length self.old.first.items ≤ length self.new.first.items }
    {
        let mut blocks = blocks_of(self.alloc, bytes)?;
        self.later.append(&mut blocks)?;
        if self.first.is_empty() {
            if let Some(block) = self.later.pop_front() {
                self.first = block;
            }
        }
        Ok(())
    }

    /// Frees the first block. The next one, if any, is then the first.
    pub fn drop_first(&mut self)
        ensures { held_in self.old ≡ self.old.first.items ++ held_in self.new }
    {
        match self.later.pop_front() {
            Some(block) => self.first = block,
            None => self.clear(),
        }
    }

    /// Frees all.
    pub fn clear(&mut self)
        ensures { held_in self.new ≡ [] }
    {
        if self.first.capacity() > IDLE_ROOM {
            self.first = Vec::new(self.alloc);
        } else {
            self.first.clear();
        }
        self.later = VecDeque::new(self.alloc);
    }
}

/// Whether the block has room for the bytes.
fn fits(block: &Vec<u8>, bytes: &[u8]) -> bool
    ensures { result ≡ true → length block.now.items + length bytes.now ≤ BLOCK_SIZE }
{
    block.len().saturating_add(bytes.len()) <= BLOCK_SIZE
}

/// Adds all of the bytes behind, or none. A block of more than half a block's bytes gets the room of a whole one, and
/// no more.
fn extend(block: &mut Vec<u8>, bytes: &[u8]) -> Result<(), AllocError>
    ensures { block.new.items ≡ (if is_ok result then block.old.items ++ bytes.now else block.old.items) }
{
    let len = block.len().saturating_add(bytes.len());
    if len > block.capacity() && len > BLOCK_SIZE / 2 {
        block.reserve_exact(BLOCK_SIZE.saturating_sub(block.len()))?;
    }
    block.extend_from_slice(bytes)
}

/// Blocks of these bytes.
fn blocks_of(alloc: Global, bytes: &[u8]) -> Result<VecDeque<Vec<u8>>, AllocError>
    ensures bytes { IfOk result (λ blocks. joined blocks.items ≡ bytes.now) }
    ensures small { IfOk result (λ blocks. AreSmall blocks.items) }
    ensures filled { IfOk result (λ blocks. AreFilled blocks.items) }
{
    let mut blocks = VecDeque::new(alloc);
    let mut rest = bytes;
    while !rest.is_empty() {
        let (front, back) = rest.split_at(rest.len().min(BLOCK_SIZE));
        blocks.push_back(front.to_vec(alloc)?)?;
        rest = back;
    }
    Ok(blocks)
}

//! Whose streams are served next, by what serving them has cost.
ghost use Rattle.std.specs.Prelude.{◌≡◌, ◌≢◌, ◌<◌, ◌+◌, ℕ, IfOk, length, max, min, slice_index_or};
ghost use Rattle.ready_streams.specs.Shares.{charge_of, counts_less, may_be_served, IsLeastBelow};

use std::alloc::{AllocError, Global};

/// What serving each owner has cost, in nanoseconds. Owners are numbers from 0 on.
#[derive(Drop)]
pub struct Shares {
    /// What each was charged.
    charged: Vec<u64>,
    /// Until when each rests.
    rests: Vec<u64>,
    /// What the one that was served last had been charged.
    least: u64,
}

impl Shares {
    /// So many owners, of whom none was charged.
    pub fn new(alloc: Global, owners: usize) -> Result<Shares, AllocError>
        ensures charged { IfOk result (λ s. length s.charged.items ≡ owners) }
        ensures rests { IfOk result (λ s. length s.rests.items ≡ owners) }
    {
        let mut charged = Vec::new(alloc);
        charged.resize(owners, 0)?;
        let mut rests = Vec::new(alloc);
        rests.resize(owners, 0)?;
        Ok(Shares {
            charged,
            rests,
            least: 0,
        })
    }

    /// Of the owners that have something to read and don't rest at that time, one that counts as charged least, the first
    /// of equals. `waits` says of each owner whether it has something to read.
    pub fn next(&self, waits: &[bool], now: u64) -> Option<usize>
        ensures { IsLeastBelow (length waits.now) self.now waits.now now result }
    {
        let mut best = None;
        for owner in 0..waits.len() {
            if self.may_be_served(waits, now, owner) && self.is_less(owner, best) {
                best = Some(owner);
            }
        }
        best
    }

    /// Charges an owner for a service that cost so much, and 1 at least. An owner that was quiet counts as charged as much
    /// as this one had been.
    pub fn charge(&mut self, owner: usize, cost: u64)
        ensures own { owner < length self.old.charged.items
            → charge_of self.new owner ≡ min (charge_of self.old owner + max cost 1) 18446744073709551615 }
        ensures others { (other : ℕ) → other ≢ owner
            → charge_of self.new other ≡ max (charge_of self.old other) (charge_of self.old owner) }
        ensures rests { self.new.rests.items ≡ self.old.rests.items }
        ensures owners { length self.new.charged.items ≡ length self.old.charged.items }
    {
        self.least = self.charge_of(owner);
        if let Some(charged) = self.charged.get_mut(owner) {
            *charged = self.least.saturating_add(cost.max(1));
        }
    }

    /// An owner rests until a time.
    pub fn rest(&mut self, owner: usize, until: u64)
        ensures own { owner < length self.old.rests.items → slice_index_or self.new.rests.items owner 0 ≡ until }
        ensures others { (other : ℕ) → other ≢ owner
            → slice_index_or self.new.rests.items other 0 ≡ slice_index_or self.old.rests.items other 0 }
        ensures charges { (other : ℕ) → charge_of self.new other ≡ charge_of self.old other }
    {
        if let Some(rests) = self.rests.get_mut(owner) {
            *rests = until;
        }
    }

    /// Until when an owner rests.
    pub fn rests_until(&self, owner: usize) -> u64
        ensures { result ≡ slice_index_or self.now.rests.items owner 0 }
    {
        at(self.rests.as_slice(), owner)
    }

    fn may_be_served(&self, waits: &[bool], now: u64, owner: usize) -> bool
        ensures { result ≡ may_be_served self.now waits.now now owner }
    {
        waits.get(owner).copied().unwrap_or(false) && at(self.rests.as_slice(), owner) <= now
    }

    /// Whether an owner counts as charged less than the best.
    fn is_less(&self, owner: usize, best: Option<usize>) -> bool
        ensures { result ≡ counts_less self.now owner best }
    {
        match best {
            Some(best) => self.charge_of(owner) < self.charge_of(best),
            None => true,
        }
    }

    /// What an owner counts as charged.
    fn charge_of(&self, owner: usize) -> u64
        ensures { result ≡ charge_of self.now owner }
    {
        at(self.charged.as_slice(), owner).max(self.least)
    }
}

/// The number at a place, 0 where there is none.
fn at(numbers: &[u64], place: usize) -> u64
    ensures { result ≡ slice_index_or numbers.now place 0 }
{
    numbers.get(place).copied().unwrap_or(0)
}

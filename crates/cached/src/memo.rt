//! The answers that are kept, the last used first.
ghost use Rattle.std.specs.Prelude.{IfNone, IfOk, IfSome};
ghost use Rattle.hub_rows.specs.Changes.{edit};
ghost use Rattle.hub_rows.specs.Rows.{Rows};
ghost use Rattle.cached.specs.Answers.{AreRight, AreUnchanged, HasNone};

use crate::answer::{Answer, Numbered, Searched};
use hub_rows::Change;
use lru::LruCache;
use ocpp_types::Mem;
use std::alloc::Global;
use std::num::NonZeroUsize;

/// How many answers are searched for those that a change may make wrong. Where more are kept, all are
/// dropped: a search would take longer than to ask again for what is still of use.
const MOST_SEARCHED: usize = 1024;

/// How many are dropped one by one.
const MOST_DROPPED: usize = 8;

/// Answers by a number that is made of the question. Two questions may have the same number, and
/// then the later answer is kept.
#[derive(Drop)]
pub struct Memo<A> {
    answers: LruCache<u64, A>,
}

impl<A: Answer> Memo<A> {
    /// No answer, and room for so many.
    pub fn new(alloc: Global, capacity: NonZeroUsize) -> Mem<Memo<A>>
        ensures { IfOk result (λ memo. (rows : Rows) → AreRight A.digest A.is_right rows memo) }
    {
        Ok(Memo {
            answers: LruCache::new(alloc, capacity)?,
        })
    }

    /// The answer with that number, if one is kept.
    pub fn find(&self, digest: u64) -> Option<&A>
        ensures { (rows : Rows) → AreRight A.digest A.is_right rows self.now → IfSome result (λ answer. A.is_right rows answer.now) }
    {
        self.answers.peek(&digest)
    }

    /// The answer with that number was used.
    pub fn promote(&mut self, digest: u64)
        ensures { (rows : Rows) → AreRight A.digest A.is_right rows self.old → AreRight A.digest A.is_right rows self.new }
    {
        self.answers.promote(&digest);
    }

    /// Keeps an answer, where there is memory for it.
    pub fn keep(&mut self, answer: A)
        ensures { (rows : Rows) → AreRight A.digest A.is_right rows self.old → A.is_right rows answer → AreRight A.digest A.is_right rows self.new }
    {
        let _put = self.answers.put(answer.digest(), answer);
    }

    /// Drops all answers.
    pub fn clear(&mut self)
        ensures { (rows : Rows) → AreRight A.digest A.is_right rows self.new }
    {
        self.answers.clear();
    }
}

impl<A: Numbered> Memo<A> {
    /// Drops the answer that a change may make wrong, and no more than one.
    pub fn drop_touched(&mut self, change: &Change<'_>)
        ensures before { (rows : Rows) → AreRight A.digest A.is_right rows self.old → AreRight A.digest A.is_right rows self.new }
        ensures after { (rows : Rows) → AreRight A.digest A.is_right rows self.old → AreRight A.digest A.is_right (edit change.now.op.now change.now.edit.now rows) self.new }
    {
        if let Some(digest) = A::touched(change) {
            self.drop_under(digest);
        }
    }

    /// Drops the answer with that number, if one is kept.
    fn drop_under(&mut self, digest: u64)
        ensures kept { (rows : Rows) → AreRight A.digest A.is_right rows self.old → AreRight A.digest A.is_right rows self.new }
        ensures gone { HasNone digest self.new }
    {
        // The clause of `len` says that no number comes twice.
        if self.answers.len() > 0 {
            let _dropped = self.answers.pop_entry(&digest);
        }
    }
}

impl<A: Searched> Memo<A> {
    /// Searches for the answers that a change may make wrong, and drops them, and others too where they are many.
    pub fn drop_stale(&mut self, change: &Change<'_>)
        ensures before { (rows : Rows) → AreRight A.digest A.is_right rows self.old → AreRight A.digest A.is_right rows self.new }
        ensures after { (rows : Rows) → AreRight A.digest A.is_right rows self.old → AreRight A.digest A.is_right (edit change.now.op.now change.now.edit.now rows) self.new }
    {
        if A::is_touched(change) {
            self.drop_found(change);
        }
    }

    fn drop_found(&mut self, change: &Change<'_>)
        ensures kept { (rows : Rows) → AreRight A.digest A.is_right rows self.old → AreRight A.digest A.is_right rows self.new }
        ensures unchanged { AreUnchanged A.is_right change.now.op.now change.now.edit.now self.new }
    {
        if self.answers.len() <= MOST_SEARCHED {
            for _ in 0..MOST_DROPPED {
                match self.first_touched(change) {
                    Some(digest) => {
                        let _dropped = self.answers.pop_entry(&digest);
                    }
                    None => return,
                }
            }
        }
        self.clear();
    }

    /// The number of the first answer that a change may make wrong.
    fn first_touched(&self, change: &Change<'_>) -> Option<u64>
        ensures { IfNone result (AreUnchanged A.is_right change.now.op.now change.now.edit.now self.now) }
    {
        for (digest, answer) in self.answers.iter() {
            if answer.may_change(change) {
                return Some(*digest);
            }
        }
        None
    }
}

//! Lists that contracts see as their items.
ghost use Rattle.std.specs.Prelude.{◌≡◌, [], ◌∷◌, ◌++◌, IfOk, OnOk, OnErr};

use crate::memory::Mem;
use std::alloc::{AllocError, Global};
use std::marker::Model;

/// A list. A contract sees it as its items, in order.
#[derive(Drop)]
pub struct Listed<T> {
    listed: Vec<T>,
}

impl<T> Model for Listed<T> {
    ghost use Rattle.std.specs.Prelude.{List};

    ghost Value = { List T };

    ghost view = { λ l. l.listed.items };
}

impl<T> Listed<T> {
    /// The empty list, which takes no memory yet.
    pub fn new(alloc: Global) -> Listed<T>
        ensures { result ≡ [] }
    {
        Listed {
            listed: Vec::new(alloc),
        }
    }

    /// The items, lent.
    pub fn as_slice(&self) -> &[T]
        ensures { result.now ≡ self.now }
    {
        self.listed.as_slice()
    }

    /// The items as a `Vec`, which takes no memory.
    pub fn into_vec(self) -> Vec<T>
        ensures { result.items ≡ self }
    {
        self.listed
    }
}

impl<T: Drop> Listed<T> {
    /// The list of one item, with room for no more.
    pub fn one(alloc: Global, item: T) -> Mem<Listed<T>>
        ensures { IfOk result (λ list. list ≡ item ∷ []) }
    {
        let mut listed = Vec::with_capacity(alloc, 1)?;
        listed.push(item)?;
        Ok(Listed { listed })
    }

    /// Adds an item at the end. Without memory for it the list is unchanged.
    pub fn push(&mut self, item: T) -> Mem<()>
        ensures ok { OnOk result (self.new ≡ self.old ++ item ∷ []) }
        ensures err { OnErr result (self.new ≡ self.old) }
    {
        self.listed.push(item)?;
        Ok(())
    }
}

/// The clone has the same items, where an item's clone is the item.
impl<T: Clone> Clone for Listed<T> {
    ghost is_clone = { λ list copy. ((item twin : T) → T.is_clone item twin → twin ≡ item) → copy ≡ list };

    fn clone(&self) -> Result<Listed<T>, AllocError> {
        Ok(Listed {
            listed: self.listed.clone()?,
        })
    }
}

/// Takes no memory.
impl<T> From<Vec<T>> for Listed<T> {
    ghost from_gives = { λ items list. list ≡ items.items };

    fn from(items: Vec<T>) -> Listed<T>
        ensures { result ≡ items.items }
    {
        Listed { listed: items }
    }
}

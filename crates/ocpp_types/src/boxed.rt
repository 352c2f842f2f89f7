//! Boxed values, which contracts see as the values themselves.
ghost use Rattle.std.specs.Prelude.{◌≡◌, IfOk};
ghost use Rattle.std.specs.Borrow.{Lends, sem};
ghost use Rattle.ocpp_types.specs.contracts.boxed.Boxed.{the_row};

use crate::memory::Mem;
use std::alloc::{AllocError, Global};
use std::marker::Model;

/// A value on the heap. A contract sees it as the value. A wide value is in a box, so that the
/// enums that may hold it stay small.
#[derive(Drop)]
pub struct Boxed<T> {
    inner: Box<T>,
}

impl<T> Model for Boxed<T> {
    ghost use Rattle.std.specs.Prelude.{◌≡◌};

    ghost Value = { T };

    ghost view = { λ b. b.inner.value };
}

impl<T> Boxed<T> {
    /// The value, lent.
    pub fn as_ref(&self) -> &T
        ensures { result.now ≡ self.now }
    {
        &self.inner
    }

    /// The value, lent to be changed.
    pub fn as_mut(&mut self) -> &mut T
        ensures* lent { sem 𝓛 (Lends (the_row T.row) T.row self.entry result (λ w. w)) }
        ensures value { result.now ≡ self.old }
    {
        self.inner.as_mut()
    }

    /// The value, taken out.
    pub fn into_inner(self) -> T
        ensures { result ≡ self }
    {
        Box::into_inner(self.inner)
    }
}

impl<T: Drop> Boxed<T> {
    /// The value, moved to the heap.
    pub fn new(alloc: Global, value: T) -> Mem<Boxed<T>>
        ensures { IfOk result (λ b. b ≡ value) }
    {
        Ok(Boxed {
            inner: Box::new(alloc, value)?,
        })
    }
}

impl<T: Clone> Clone for Boxed<T> {
    ghost is_clone = { λ value copy. T.is_clone value copy };

    fn clone(&self) -> Result<Boxed<T>, AllocError> {
        Ok(Boxed {
            inner: self.inner.clone()?,
        })
    }
}

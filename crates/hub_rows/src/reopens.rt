//! A stop of the work, and the store that is found after it.
ghost use Rattle.std.specs.Prelude.{IfOk};

use crate::store::Store;
use std::alloc::Global;

/// A store that can be opened again after a stop of the work.
pub trait Reopens: Store + Sized {
    /// Why no store is found.
    type Refused;

    /// Whether a store that was opened gives its rows.
    ghost is_open: { Self → Type 0 };

    /// Lets the work stop, and opens what is left.
    fn stop_and_reopen(self, alloc: Global) -> Result<Self, Self::Refused>
        ensures found { IfOk result (λ s. is_open s → (Self.view self).may_find (Self.view s).rows) };
}

//! What an answer that is kept promises.
ghost use Rattle.std.specs.Prelude.{◌≡◌, ◌≢◌, ℕ, false, IfSome};
ghost use Rattle.hub_rows.specs.Changes.{edit};
ghost use Rattle.hub_rows.specs.Rows.{Rows};

use hub_rows::Change;

/// The answer to a look-up, with what was asked.
pub trait Answer: Drop {
    /// It is what the rows give.
    ghost is_right: { Rows → Self → Type 0 };

    /// The number of what was asked.
    ghost digest: { Self → ℕ };

    /// The number of what was asked.
    fn digest(&self) -> u64
        ensures { result ≡ digest self.now };
}

/// One that has to be searched for: a change may make answers to different questions wrong.
pub trait Searched: Answer {
    /// Whether a change may make an answer of this kind wrong.
    fn is_touched(change: &Change<'_>) -> bool
        ensures { result ≡ false → (rows : Rows) (answer : Self) → Self.is_right rows answer → Self.is_right (edit change.now.op.now change.now.edit.now rows) answer };

    /// Whether a change may make this one wrong.
    fn may_change(&self, change: &Change<'_>) -> bool
        ensures { result ≡ false → (rows : Rows) → Self.is_right rows self.now → Self.is_right (edit change.now.op.now change.now.edit.now rows) self.now };
}

/// One that is found by its number: a change makes answers to one question wrong at most.
pub trait Numbered: Answer {
    /// The number of the answers that a change may make wrong, if there are any.
    fn touched(change: &Change<'_>) -> Option<u64>
        ensures { (answer : Self) → IfSome result (λ digest. Self.digest answer ≢ digest) → (rows : Rows) → Self.is_right rows answer → Self.is_right (edit change.now.op.now change.now.edit.now rows) answer };
}

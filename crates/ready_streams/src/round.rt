//! Whose turn it is.
ghost use Rattle.std.specs.Prelude.{◌≡◌, ◌<◌, ℕ, List, Option, None, Some, IfSome, true, false, ◌⊎◌, ◌↔◌, Contains};
ghost use Rattle.ready_streams.specs.Order.{is_before, count_before};

/// Streams that take turns, by their tokens. In a turn one of them is admitted: the first of those that asked in the
/// turn before and weren't, or else the first that asks. It is then behind all others. One more is admitted in a turn if
/// it is late, since it can't ask in each turn.
#[derive(Clone, Copy)]
pub struct Round {
    /// The stream that was admitted last. The order goes up from it, and then from 0 up to it.
    last: usize,
    /// It was admitted in this turn.
    is_taken: bool,
    /// The first of those that asked in this turn and weren't admitted.
    first: Option<usize>,
    /// The one that was late and was admitted in this turn.
    late: Option<usize>,
    ghost taken: { is_taken ≡ false → first ≡ None },
}

impl Round {
    ghost use Rattle.ready_streams.specs.Rounds.{admitted, Waits};

    /// Nobody has asked.
    pub fn new() -> Round
        ensures { admitted result ≡ None }
    {
        Round {
            last: 0,
            is_taken: false,
            first: None,
            late: None,
        }
    }

    /// Whether the stream is admitted in this turn, which it asks. It is late if it wasn't admitted in an earlier turn,
    /// and hasn't asked in the last one.
    pub fn ask(&mut self, token: usize, is_late: bool) -> bool
        ensures one { result ≡ true ↔ ((admitted self.new ≡ Some token) ⊎ (self.new.late ≡ Some token)) }
        ensures kept { (other : ℕ) → admitted self.old ≡ Some other → admitted self.new ≡ Some other }
        ensures kept_late { (other : ℕ) → self.old.late ≡ Some other → self.new.late ≡ Some other }
        ensures late { is_late ≡ false → self.new.late ≡ self.old.late }
        ensures unused { admitted self.old ≡ None → admitted self.new ≡ Some token }
        ensures unused_late { is_late ≡ true → self.old.late ≡ None → result ≡ true }
        ensures waits { result ≡ false → Waits self.new token }
        ensures others { (other : ℕ) → Waits self.old other → Waits self.new other }
        ensures asked { (self.new.first ≡ self.old.first) ⊎ (self.new.first ≡ Some token) }
    {
        if !self.is_taken {
            self.last = token;
            self.is_taken = true;
        }
        if self.last == token || self.late == Some(token) {
            return true;
        }
        if is_late && self.late.is_none() {
            self.late = Some(token);
            return true;
        }
        match self.first {
            Some(first) if !is_before(self.last, token, first) => {}
            _ => self.first = Some(token),
        }
        false
    }

    /// The next turn.
    pub fn begin(&mut self)
        ensures next { admitted self.new ≡ self.old.first }
        ensures nobody { self.new.first ≡ None }
        ensures late { self.new.late ≡ None }
        ensures nearer { (streams : List ℕ) (token : ℕ) → IfSome self.old.first (Contains streams) → Waits self.old token
            → (admitted self.new ≡ Some token) ⊎ (count_before self.new.last token streams < count_before self.old.last token streams) }
    {
        self.late = None;
        let Some(first) = self.first else {
            self.is_taken = false;
            return;
        };
        self.last = first;
        self.is_taken = true;
        self.first = None;
    }
}

/// Whether the stream comes before another, in the order that begins behind `last`.
fn is_before(last: usize, token: usize, other: usize) -> bool
    ensures { result ≡ is_before last token other }
{
    if (last < token) == (last < other) {
        token < other
    } else {
        last < token
    }
}

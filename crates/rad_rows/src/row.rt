//! What a row is, what changes one, and who is told of rows that go.
ghost use Rattle.std.specs.Prelude.{◌≡◌, ℕ, ◌≤◌, ◌↔◌, Bool, IfOk, IsTrue, nat_lt};
ghost use Rattle.rad_rows.specs.Rows.{moment_max};

use std::alloc::AllocError;

/// A row with a number, which lives for a time that the spans `S` tell.
///
/// Moments are in milliseconds, at most 2^62.
pub trait Row<S>: Drop {
    ghost number: { Self → ℕ };

    // Whether a row is live at a moment.
    ghost is_live: { S → ℕ → Self → Bool };

    /// The row's number; the first row of a table has 1 or more.
    fn number(&self) -> u64
        ensures { result ≡ number self.now };

    /// The first moment at which the row isn't live. A row that always lives ends after 2^62.
    fn ends(&self, spans: &S) -> u64
        ensures { (now : ℕ) → now ≤ moment_max →
            is_live spans.now now self.now ≡ nat_lt now result };

    /// An equal row.
    fn copy(&self) -> Result<Self, AllocError>
        ensures { IfOk result (λ copy. copy ≡ self.now) };

    /// Whether the other row is equal.
    fn same(&self, other: &Self) -> bool
        ensures { IsTrue result ↔ (self.now ≡ other.now) };
}

/// A change of one row.
pub trait Change<T> {
    // What a row becomes.
    ghost to: { Self → T → T };

    /// Changes the row.
    fn change(&self, row: &mut T)
        ensures { row.new ≡ to self.now row.old };
}

/// Who is told of each row that is no longer live, such as an index of the rows.
///
/// `told` relates what it was, the row that goes, and what it is then: a relation, so that it may be looser than a function.
pub trait Tally<T> {
    ghost told: { Self → T → Self → Type 0 };

    /// The row goes.
    fn leave(&mut self, row: &T)
        ensures { told self.old row.now self.new };
}

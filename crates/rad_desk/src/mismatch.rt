//! Why receipts don't settle.
ghost use Rattle.std.specs.Prelude.{◌≡◌};
ghost use Rattle.rad_desk.specs.Settlements.{mismatch_number};

use thiserror::Error;

/// Why the receipts of passes don't agree with a history. They are looked for in this order.
#[derive(Clone, Copy, Debug, PartialEq, Eq, Error)]
pub enum Mismatch {
    /// The history began from another server than the one given.
    #[error("the history began from another server")]
    Opening,
    /// The passes have fewer or more receipts than the history has entries.
    #[error("the receipts are not as many as the entries")]
    Count,
    /// A receipt's entry isn't at its place, or the place isn't above that of the receipt before it.
    ///
    /// `pass` counts the passes from 0, in the order given; `place` is the receipt's.
    #[error("pass {pass} has a misplaced receipt for place {place}")]
    At { pass: u64, place: u64 },
}

impl Mismatch {
    /// The number under which it is reported.
    pub fn number(self) -> u8
        ensures { result ≡ mismatch_number self }
    {
        match self {
            Mismatch::Opening => 1,
            Mismatch::Count => 2,
            Mismatch::At { .. } => 3,
        }
    }
}

//! Why claims don't close.
ghost use Rattle.std.specs.Prelude.{◌≡◌};
ghost use Rattle.rad_claim.specs.Faults.{close_fault_number};

use thiserror::Error;

/// Why claims don't close. The first that applies is reported.
#[derive(Clone, Copy, Debug, PartialEq, Eq, Error)]
pub enum CloseFault {
    /// A seat wasn't handed in.
    #[error("a seat is missing")]
    TooFew,
    /// A seat wasn't told that there are no more batches.
    #[error("a seat has not finished")]
    Unfinished,
}

impl CloseFault {
    /// The number under which it is reported.
    pub fn number(self) -> u8
        ensures { result ≡ close_fault_number self }
    {
        match self {
            CloseFault::TooFew => 1,
            CloseFault::Unfinished => 2,
        }
    }
}

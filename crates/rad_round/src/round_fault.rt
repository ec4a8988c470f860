//! Why a round fails.
ghost use Rattle.std.specs.Prelude.{◌≡◌};
ghost use Rattle.rad_round.specs.Faults.{round_fault_number};

use rad_desk::Mismatch;
use std::alloc::AllocError;
use thiserror::Error;

/// Why a round failed. The server is as it was before.
#[derive(Clone, Copy, Debug, PartialEq, Eq, Error)]
pub enum RoundFault {
    /// The history doesn't agree with what the workers were answered. `Service::round` doesn't report it: nothing is compared.
    #[error("{0}")]
    Mismatch(Mismatch),
    /// Memory was refused.
    #[error("no memory for a round")]
    NoMemory,
    /// A thread couldn't be started. `Service::round` doesn't report it: it works on the caller's thread instead.
    #[error("no thread for a worker")]
    NoThread,
}

impl RoundFault {
    /// The number under which it is reported.
    pub fn number(self) -> u8
        ensures { result ≡ round_fault_number self }
    {
        match self {
            RoundFault::Mismatch(_) => 1,
            RoundFault::NoMemory => 2,
            RoundFault::NoThread => 3,
        }
    }
}

impl From<AllocError> for RoundFault {
    ghost use Rattle.rad_round.specs.declared.round_fault.RoundFault.TheVariants.{NoMemory};

    ghost from_gives = { λ error fault. fault ≡ NoMemory };

    fn from(_error: AllocError) -> RoundFault {
        RoundFault::NoMemory
    }
}

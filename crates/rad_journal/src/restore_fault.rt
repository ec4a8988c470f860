//! Why a server isn't restored.
ghost use Rattle.std.specs.Prelude.{◌≡◌};
ghost use Rattle.rad_journal.specs.declared.restore_fault.RestoreFault.TheVariants.{Journal, NoMemory};

use crate::journal::JournalFault;
use std::alloc::AllocError;
use thiserror::Error;

/// Why a server isn't restored. Entries are counted from 0.
#[derive(Clone, Copy, Debug, PartialEq, Eq, Error)]
pub enum RestoreFault {
    /// An allocation failed.
    #[error("out of memory")]
    NoMemory,
    /// The journal gave up.
    #[error(transparent)]
    Journal(JournalFault),
    /// The moment of this entry is later than any that a server takes.
    #[error("the moment of entry {entry} is too late")]
    TooLate { entry: u32 },
    /// The request of this entry isn't admitted, or is of another client, or more was kept than its octets up to Length.
    #[error("the request of entry {entry} is not admitted")]
    NotAdmitted { entry: u32 },
    /// The server's answer to the request of this entry, or the session that the request names, isn't the one that was kept.
    #[error("the answer of entry {entry} is another")]
    OtherAnswer { entry: u32 },
}

impl From<AllocError> for RestoreFault {
    ghost from_gives = { λ _ fault. fault ≡ NoMemory };

    fn from(_: AllocError) -> RestoreFault {
        RestoreFault::NoMemory
    }
}

impl From<JournalFault> for RestoreFault {
    ghost from_gives = { λ reported fault. fault ≡ Journal reported };

    fn from(fault: JournalFault) -> RestoreFault {
        RestoreFault::Journal(fault)
    }
}

//! Why a state isn't opened.
ghost use Rattle.std.specs.Prelude.{◌≡◌};
ghost use Rattle.rad_state.specs.Faults.{fault_of, fault_of_journal, fault_of_snapshot};
ghost use Rattle.rad_state.specs.declared.open_fault.OpenFault.TheVariants.{NoMemory};

use rad_journal::JournalFault;
use rad_snapshot::SnapshotFault;
use sqlite_trees::error::StoreError;
use std::alloc::AllocError;
use thiserror::Error;

/// Why a state isn't opened.
#[derive(Clone, Copy, Debug, PartialEq, Eq, Error)]
pub enum OpenFault {
    /// Another process has the file open. Only who opens host files tells it.
    #[error("another process uses the state")]
    InUse,
    /// The files hold no database with these tables alone and page sums, or what was read is not what was written, or is no meta,
    /// entry or snapshot.
    #[error("it is no state, or it is damaged")]
    Damaged,
    /// The files hold a database without tables: making it was cut short, or its log is damaged at the beginning.
    #[error("it is no state, or it is damaged")]
    Unfinished,
    /// The meta's format is another.
    #[error("the state has another format")]
    OtherFormat,
    /// The format fits, there are entries, and the rules are others.
    #[error("the state was kept under other rules")]
    OtherRules,
    /// An allocation failed.
    #[error("out of memory")]
    NoMemory,
    /// The disk failed.
    #[error("the disk failed")]
    Disk,
    /// The disk or the database has no room, or the configuration is too long for a row.
    #[error("no room is left")]
    NoRoom,
    /// There are more entries than a journal may have.
    #[error("it is full")]
    JournalFull,
    /// A row of the snapshot isn't one that a server takes back.
    #[error("it is damaged: {0}")]
    Snapshot(SnapshotFault),
}

impl From<AllocError> for OpenFault {
    ghost from_gives = { λ _ fault. fault ≡ NoMemory };

    fn from(_: AllocError) -> OpenFault {
        OpenFault::NoMemory
    }
}

impl From<StoreError> for OpenFault {
    ghost from_gives = { λ error fault. fault ≡ fault_of error };

    fn from(error: StoreError) -> OpenFault {
        match error {
            StoreError::OutOfMemory => OpenFault::NoMemory,
            StoreError::Corrupt => OpenFault::Damaged,
            StoreError::Full | StoreError::Unstorable => OpenFault::NoRoom,
            StoreError::Io | StoreError::Broken => OpenFault::Disk,
        }
    }
}

impl From<JournalFault> for OpenFault {
    ghost from_gives = { λ reported fault. fault ≡ fault_of_journal reported };

    fn from(fault: JournalFault) -> OpenFault {
        match fault {
            JournalFault::NoMemory => OpenFault::NoMemory,
            JournalFault::Disk => OpenFault::Disk,
            JournalFault::Damaged => OpenFault::Damaged,
            JournalFault::NoRoom => OpenFault::NoRoom,
            JournalFault::Full => OpenFault::JournalFull,
        }
    }
}

impl From<SnapshotFault> for OpenFault {
    ghost from_gives = { λ reported fault. fault ≡ fault_of_snapshot reported };

    fn from(fault: SnapshotFault) -> OpenFault {
        match fault {
            SnapshotFault::NoMemory => OpenFault::NoMemory,
            SnapshotFault::Journal(fault) => OpenFault::from(fault),
            fault => OpenFault::Snapshot(fault),
        }
    }
}

impl From<OpenFault> for JournalFault {
    fn from(fault: OpenFault) -> JournalFault {
        match fault {
            OpenFault::NoMemory => JournalFault::NoMemory,
            OpenFault::NoRoom => JournalFault::NoRoom,
            OpenFault::JournalFull => JournalFault::Full,
            OpenFault::InUse | OpenFault::Disk => JournalFault::Disk,
            _ => JournalFault::Damaged,
        }
    }
}

//! Why a snapshot isn't read.
ghost use Rattle.std.specs.Prelude.{◌≡◌};
ghost use Rattle.rad_journal.specs.Faults.{fault_of};
ghost use Rattle.rad_snapshot.specs.Faults.{refused_at, reported};
ghost use Rattle.rad_snapshot.specs.declared.snapshot_fault.SnapshotFault.TheVariants.{NoMemory};

use crate::snapshot_table::SnapshotTable;
use rad_journal::JournalFault;
use rad_row_fault::RowFault;
use sqlite_trees::error::StoreError;
use std::alloc::AllocError;
use thiserror::Error;

/// Why a snapshot isn't read.
#[derive(Clone, Copy, Debug, PartialEq, Eq, Error)]
pub enum SnapshotFault {
    /// An allocation failed.
    #[error("out of memory")]
    NoMemory,
    /// The store gave up; or, `Damaged`, a row is none of its table or not the next one's.
    #[error(transparent)]
    Journal(JournalFault),
    /// A server refuses the row at this place of this table, counted from 1.
    #[error("row {place}: {fault}")]
    Row {
        table: SnapshotTable,
        place: u32,
        fault: RowFault,
    },
}

impl SnapshotFault {
    // The fault of a row at a place, which a server refuses.
    pub(crate) fn of_row(table: SnapshotTable, place: u32, fault: RowFault) -> SnapshotFault
        ensures { result ≡ refused_at table place fault }
    {
        match fault {
            RowFault::NoMemory => SnapshotFault::NoMemory,
            fault => SnapshotFault::Row {
                table,
                place,
                fault,
            },
        }
    }
}

impl From<AllocError> for SnapshotFault {
    ghost from_gives = { λ _ fault. fault ≡ NoMemory };

    fn from(_: AllocError) -> SnapshotFault {
        SnapshotFault::NoMemory
    }
}

impl From<JournalFault> for SnapshotFault {
    ghost from_gives = { λ cause fault. fault ≡ reported cause };

    fn from(cause: JournalFault) -> SnapshotFault {
        match cause {
            JournalFault::NoMemory => SnapshotFault::NoMemory,
            cause => SnapshotFault::Journal(cause),
        }
    }
}

impl From<StoreError> for SnapshotFault {
    ghost from_gives = { λ error fault. fault ≡ reported (fault_of error) };

    fn from(error: StoreError) -> SnapshotFault {
        SnapshotFault::from(JournalFault::from(error))
    }
}

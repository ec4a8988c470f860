//! Journals: what outlives a crash.
ghost use Rattle.std.specs.Prelude.{◌≡◌, ◌⊎◌, ◌++◌, List, Bool, slice_get, IfErr, IfOk, IfSome, IsTrue, OnErr, OnOk};
ghost use Rattle.rad_journal.specs.Journals.{added};
ghost use Rattle.rad_journal.specs.Faults.{fault_of};
ghost use Rattle.sqlite_value.specs.Order.{Row};
ghost use Rattle.rad_journal.specs.Records.{records_of};
ghost use Rattle.rad_journal.specs.Rows.{IsWithin};
ghost use Rattle.rad_journal.specs.Stores.{Beside};
ghost use Rattle.rad_journal.specs.declared.journal.JournalFault.TheVariants.{Damaged, NoMemory};
ghost use Rattle.rad_journal.specs.declared.kept.Kept.{Kept};
ghost use Rattle.rad_journal.specs.declared.register.Register.{Register};

use crate::kept::Kept;
use sqlite_trees::error::StoreError;
use std::alloc::{AllocError, Global};
use thiserror::Error;

/// The most entries of a journal.
pub const ENTRIES_MAX: u32 = u32::MAX - 1;

/// Why a journal gave up.
#[derive(Clone, Copy, Debug, PartialEq, Eq, Error)]
pub enum JournalFault {
    /// An allocation failed.
    #[error("out of memory")]
    NoMemory,
    /// The disk failed, or an earlier call has failed since the journal was opened.
    #[error("the disk failed")]
    Disk,
    /// What was read is not what was written, or is no entry.
    #[error("it is damaged")]
    Damaged,
    /// The disk or the database has no room.
    #[error("no room is left")]
    NoRoom,
    /// There would be more than `ENTRIES_MAX` entries, or a time or the number of a session is 2 ^ 63 or more.
    #[error("it is full")]
    Full,
}

impl From<AllocError> for JournalFault {
    ghost from_gives = { λ _ fault. fault ≡ NoMemory };

    fn from(_: AllocError) -> JournalFault {
        JournalFault::NoMemory
    }
}

impl From<StoreError> for JournalFault {
    ghost from_gives = { λ error fault. fault ≡ fault_of error };

    fn from(error: StoreError) -> JournalFault {
        match error {
            StoreError::OutOfMemory => JournalFault::NoMemory,
            StoreError::Corrupt => JournalFault::Damaged,
            StoreError::Full | StoreError::Unstorable => JournalFault::NoRoom,
            StoreError::Io | StoreError::Broken => JournalFault::Disk,
        }
    }
}

/// Entries that outlive a crash, added by commits.
///
/// Each fact on entries holds while no wrong answer of the disk has been taken as true.
///
/// For callers: once a call has failed, a journal has to be opened again before it is of use.
///
/// For implementers: whatever a failed call may have left on the disk is in `may_leave`.
pub trait Journal {
    /// Whether it keeps anything at all.
    ghost keeps: { Bool };

    /// The entries of each commit so far, the oldest first.
    ghost kept: { Self → List Kept };

    /// What the next open may find after a crash at this moment.
    ghost may_leave: { Self → List Kept → Type 0 };

    /// What a crash leaves beside them, which no call changes.
    ghost leaves_beside: { Self → Beside → Type 0 };

    /// What the next open may find after a crash at this moment: these entries, and these records in the registers.
    ghost may_record: { Self → List Kept → (Register → List Row) → Type 0 };

    /// No wrong answer of the disk has been taken as true so far.
    ghost is_clean: { Self → Type 0 };

    /// It may be asked for more, and a crash leaves what was kept.
    ghost is_open: { Self → Type 0 };

    /// The disk failed or refused between two moments.
    ghost has_failed: { Self → Self → Type 0 };

    /// Whether it keeps anything at all.
    fn keeps(&self) -> bool
        ensures { result ≡ keeps };

    /// Adds the entries in their order, all or none. A journal that keeps nothing adds nothing, and succeeds.
    ///
    /// At `Ok` each crash from then on leaves them. At `Err` a crash may leave them or not. `NoRoom`: the disk or the database has
    /// none. `Full`: there would be more than `ENTRIES_MAX` entries, or a time or the number of a session is 2 ^ 63 or more.
    /// `Disk`: the disk failed, or an earlier call has failed.
    fn commit(&mut self, entries: &[Kept]) -> Result<(), JournalFault>
        ensures clean { is_clean self.new → is_clean self.old }
        ensures kept { OnOk result (is_clean self.new
            → kept self.new ≡ kept self.old ++ added keeps entries.now) }
        ensures open { OnOk result (is_clean self.new → is_open self.old → is_open self.new) }
        ensures crash { is_clean self.new → (left : List Kept) → may_leave self.new left
            → may_leave self.old left ⊎ (left ≡ kept self.old ++ added keeps entries.now) }
        ensures beside { is_clean self.new → (beside : Beside) → leaves_beside self.old beside
            → leaves_beside self.new beside }
        ensures fault { OnErr result (IsTrue keeps) };

    /// The entry at a place, counted from 0, if there is one.
    ///
    /// `Damaged`: what was read is not what was written. An entry whose numbers are in their ranges is no reason for it.
    fn entry(&mut self, alloc: Global, place: u32) -> Result<Option<Kept>, JournalFault>
        ensures clean { is_clean self.new → is_clean self.old }
        ensures found { IfOk result (λ entry. is_clean self.new
            → entry ≡ slice_get (kept self.old) place) }
        ensures damaged { IfErr result (λ fault. fault ≡ Damaged → is_clean self.new
            → is_open self.old → IfSome (slice_get (kept self.old) place) IsWithin
            → has_failed self.old self.new) }
        ensures kept { OnOk result (is_clean self.new → kept self.new ≡ kept self.old) }
        ensures open { OnOk result (is_clean self.new → is_open self.old → is_open self.new) }
        ensures crash { is_clean self.new → (left : List Kept) → may_leave self.new left
            → may_leave self.old left }
        ensures beside { is_clean self.new → (beside : Beside) → leaves_beside self.old beside
            → leaves_beside self.new beside };

    /// With the entries that a crash leaves it leaves records.
    ghost records: { (journal : Self) (left : List Kept) → may_leave journal left
        → (rows : (Register → List Row)) × may_record journal left rows };

    /// They are those of these entries: in each register the records that they have there, under their numbers, and no other.
    ghost recorded: { (journal : Self) → is_clean journal
        → (left : List Kept) (rows : (Register → List Row)) → may_record journal left rows
        → (register : Register) → rows register ≡ records_of register left };

    /// While it is open, a crash leaves what was kept and nothing else.
    ghost settled: { (journal : Self) → is_open journal
        → (left : List Kept) → may_leave journal left → left ≡ kept journal };

    /// While it is open, a crash does leave what was kept.
    ghost stays: { (journal : Self) → is_clean journal → is_open journal
        → may_leave journal (kept journal) };
}

/// A journal that can be made to crash, and is then opened again.
pub trait Reopen: Journal {
    /// Crashes, and opens what is left.
    ///
    /// At `Err` it is of no use until a later call succeeds.
    fn crash_and_reopen(&mut self, alloc: Global) -> Result<(), JournalFault>
        ensures clean { Self.Journal.is_clean self.new → Self.Journal.is_clean self.old }
        ensures found { OnOk result (Self.Journal.is_clean self.new
            → Self.Journal.may_leave self.old (Self.Journal.kept self.new)) }
        ensures open { OnOk result (Self.Journal.is_clean self.new
            → Self.Journal.is_open self.new) }
        ensures crash { Self.Journal.is_clean self.new → (left : List Kept)
            → Self.Journal.may_leave self.new left → Self.Journal.may_leave self.old left }
        ensures beside { Self.Journal.is_clean self.new → (beside : Beside)
            → Self.Journal.leaves_beside self.old beside
            → Self.Journal.leaves_beside self.new beside };
}

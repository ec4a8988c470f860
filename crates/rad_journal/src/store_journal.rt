//! A journal in three tables of a store.
ghost use Rattle.std.specs.Prelude.{◌≡◌, ◌≤◌, true, length, refl, IfSome, IsTrue, IsSome, None, Some};
ghost use Rattle.std.proofs.Common.{◌∙◌, ap, sym, List};
ghost use Rattle.sqlite_disk.specs.Disk.{MoreFaults};
ghost use Rattle.sqlite_trees.specs.Tree.{Trees};
ghost use Rattle.sqlite_trees.specs.View.{IsClean, doubt};
ghost use Rattle.rad_journal.specs.Records.{IsJournal, records_of, register_tree};
ghost use Rattle.rad_journal.specs.declared.kept.Kept.{Kept};
ghost use Rattle.rad_journal.specs.Rows.{entries_of, table};
ghost use Rattle.rad_journal.specs.Stores.{IsSound, LeavesOthers, MayLeave, MayRecord, kept_in};

use crate::append::add;
use crate::checking::check;
use crate::journal::{Journal, JournalFault, Reopen};
use crate::kept::Kept;
use crate::reading::{count, read};
use sqlite_trees::store::{Reopen as ReopenStore, Store};
use sqlite_value::row::Row;
use std::alloc::Global;

/// A journal in the first three tables of a store: entries, numbered from 1, and under their numbers the record of each
/// Accounting-Request among them and that of each session that is granted (`recorded`).
///
/// The columns of an entry are wall time and moment (milliseconds), client, source address and port, door (0 authentication,
/// 1 accounting), session (or NULL), draw, request and answer: seven integers and three blobs. Those of the records are told by
/// `rad_accounting::fill` and `fill_grant`.
#[derive(Drop)]
pub struct StoreJournal<S: Store> {
    store: S,
    row: Row,
    // How many entries there are; unknown once a call has failed, until the store is opened again.
    count: Option<u32>,
    // Whether it may be opened again: not once that has failed.
    usable: bool,
    ghost sound: { IsClean (S.view store)
        → IsSound (S.view store) (S.recovers store) usable count },
}

impl<S: Store + Drop> StoreJournal<S> {
    ghost use Rattle.std.specs.Prelude.{IfOk};
    ghost use Rattle.rad_journal.specs.Stores.{IsFresh};

    /// The journal of a store that was just opened, if its rows are those of entries.
    ///
    /// `Damaged`: a row isn't an entry's, or not the next one's, or the records aren't those of the entries. `Full`: there are more
    /// than `ENTRIES_MAX`, or an answer grants a session whose number is 2 ^ 63 or more.
    pub fn open(alloc: Global, store: S) -> Result<StoreJournal<S>, JournalFault>
        requires { IsClean (S.view store) → IsFresh (S.view store) }
        ensures opened { IfOk result (λ journal. IsClean (S.view journal.store)
            → IsTrue (S.view journal.store).is_open × IsSome journal.count) }
        ensures kept { IfOk result (λ journal. IsClean (S.view journal.store)
            → kept_in (S.view journal.store) ≡ kept_in (S.view store)) }
        ensures clean { IfOk result (λ journal.
            doubt (S.view store).is_clean ≤ doubt (S.view journal.store).is_clean) }
        ensures crash { IfOk result (λ journal. (db : Trees)
            → S.recovers journal.store db → S.recovers store db) }
    {
        let mut store = store;
        let count = check(alloc, &mut store)?;
        Ok(StoreJournal::counted(alloc, store, count))
    }

    /// The journal of a store that was just opened, whose rows are known to be those of so many entries.
    pub fn counted(alloc: Global, store: S, count: u32) -> StoreJournal<S>
        requires fresh { IsClean (S.view store) → IsFresh (S.view store) }
        requires journal { IsClean (S.view store) → IsJournal (S.view store).committed }
        requires counted { IsClean (S.view store)
            → length (kept_in (S.view store)) ≡ count }
        ensures store { result.store ≡ store }
        ensures count { result.count ≡ Some count }
    {
        StoreJournal {
            store,
            row: Row::new(alloc),
            count: Some(count),
            usable: true,
        }
    }

    /// How many entries it has, unless a call has failed since the store was opened.
    pub fn count(&self) -> Option<u32>
        ensures count { result ≡ self.now.count }
        ensures entries { IfSome result (λ count. IsClean (S.view self.now.store)
            → length (kept_in (S.view self.now.store)) ≡ count) }
    {
        self.count
    }

    /// The store, and how many entries it has, unless a call has failed since the store was opened.
    pub fn into_store(self) -> Option<(S, u32)>
        ensures parts { IfSome result (λ parts.
            (parts.0 ≡ self.store) × (self.count ≡ Some parts.1)) }
        ensures fresh { IfSome result (λ parts. IsClean (S.view parts.0)
            → IsTrue (S.view parts.0).is_open → IsFresh (S.view parts.0)) }
        ensures journal { IfSome result (λ parts. IsClean (S.view parts.0)
            → IsJournal (S.view parts.0).committed) }
        ensures counted { IfSome result (λ parts. IsClean (S.view parts.0)
            → length (kept_in (S.view parts.0)) ≡ parts.1) }
        ensures none { result ≡ None → self.count ≡ None }
    {
        let StoreJournal {
            store,
            row: _,
            count,
            usable: _,
        } = self;
        Some((store, count?))
    }
}

impl<S: Store> Journal for StoreJournal<S> {
    ghost keeps = { true };

    ghost kept = { λ journal. kept_in (S.view journal.store) };

    ghost may_leave = { λ journal. MayLeave (S.recovers journal.store) };

    ghost leaves_beside = { λ journal. LeavesOthers (S.recovers journal.store) };

    ghost may_record = { λ journal. MayRecord (S.recovers journal.store) };

    ghost is_clean = { λ journal. IsClean (S.view journal.store) };

    ghost is_open = { λ journal. IsTrue (S.view journal.store).is_open × IsSome journal.count };

    ghost has_failed = { λ old new. MoreFaults (S.faults old.store) (S.faults new.store) };

    ghost records = { λ journal left is.
        ((λ register. is.0 (register_tree register)), (is.0, is.1, is.2, refl)) };

    ghost recorded = { λ journal clean left rows is register. ap (λ r. r register) is.3
        ∙ ((journal.sound clean).outcomes is.0 is.1).records register
        ∙ ap (λ (l : List Kept). records_of register l) (sym is.2) };

    ghost settled = { λ journal is_open left is. is.2
        ∙ ap (λ (t : Trees). entries_of (t table)) (S.settled journal.store is.0 is_open.0 is.1) };

    ghost stays = { λ journal _ is_open. (
      (S.view journal.store).committed,
      S.stays journal.store is_open.0,
      refl,
    ) };

    fn keeps(&self) -> bool {
        true
    }

    fn commit(&mut self, entries: &[Kept]) -> Result<(), JournalFault> {
        let Some(count) = self.count else {
            return Err(JournalFault::Disk);
        };
        if entries.is_empty() {
            // Nothing is written, so the disk has nothing to sync.
            return Ok(());
        }
        self.count = None;
        self.count = Some(add(&mut self.store, &mut self.row, count, entries)?);
        Ok(())
    }

    fn entry(&mut self, alloc: Global, place: u32) -> Result<Option<Kept>, JournalFault> {
        if self.count.is_none() {
            return Err(JournalFault::Disk);
        }
        let known = self.count;
        self.count = None;
        let entry = read(alloc, &mut self.store, &mut self.row, place)?;
        self.count = known;
        Ok(entry)
    }
}

impl<S: ReopenStore> Reopen for StoreJournal<S> {
    fn crash_and_reopen(&mut self, alloc: Global) -> Result<(), JournalFault> {
        if !self.usable {
            return Err(JournalFault::Disk);
        }
        self.count = None;
        self.usable = false;
        self.store.crash_and_reopen()?;
        self.usable = true;
        self.count = Some(count(alloc, &mut self.store, &mut self.row)?);
        Ok(())
    }
}

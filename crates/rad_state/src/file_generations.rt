//! Generations in the files of a folder.
ghost use Rattle.std.specs.Prelude.{◌≡◌, ◌<◌, ◌≤◌, ◌-◌, ℕ, [], IfOk, IfSome, IsSome, IsTrue, None, Ok, Some, suc, true};
ghost use Rattle.sqlite_trees.specs.View.{IsClean};
ghost use Rattle.rad_config.specs.Configurations.{configuration_of_octets};
ghost use Rattle.rad_journal.specs.Stores.{kept_in};
ghost use Rattle.rad_state.specs.Fits.{Fits};
ghost use Rattle.rad_state.specs.Generations.{IsInUse, LeavesIn};
ghost use Rattle.rad_state.specs.InUse.{in_use_keeps, in_use_leaves, in_use_stays};

use crate::beginning::write_generation;
use crate::folder::Folder;
use crate::generations::{Generations, Keeping};
use crate::meta::Meta;
use crate::moments::Last;
use crate::open_fault::OpenFault;
use rad_config::Config;
use rad_journal::{Journal, JournalFault, StoreJournal};
use rad_server::Server;
use rad_snapshot::snapshots_differ;
use sqlite_trees::store::Store;
use std::alloc::Global;

/// From so many entries on a new generation is due.
const ENTRIES_DUE: u32 = 262_144;

/// After so long a new generation is due if anything was kept, in milliseconds.
const TIME_DUE: u64 = 3_600_000;

/// Generations in the files of a folder, of which the newest is in use.
#[derive(Drop)]
pub struct FileGenerations<'c, S: Store, F: Folder<S>> {
    config: &'c Config,
    // The meta of the next generation, but for its wall time.
    meta: Meta,
    folder: F,
    // How many files are kept at most, beside those that can't be removed.
    files_max: u32,
    // The wall time and the moment at which this life began.
    first: Last,
    // The number of the file in use.
    number: u32,
    // The moment at which its generation began.
    began: u64,
    // A file in which a generation could not be begun. It may be whole nevertheless, so nothing may be kept any more.
    failed: Option<S>,
    ghost text: { configuration_of_octets meta.configuration ≡ Ok config.now },
    ghost fits: { Fits meta true },
    ghost newest: { failed ≡ None → (later : ℕ) → number < later → ¬ F.has folder later },
}

impl<'c, S: Store + Drop, F: Folder<S> + Drop> FileGenerations<'c, S, F> {
    /// Begins the first generation of a life in the folder's next file, at a server.
    ///
    /// `number` is that of the newest file, or 0. The meta has the text of the server's configuration, and the wall time now. At
    /// most `files_max` files are kept, but at least 2: the oldest go.
    pub fn start(
        alloc: Global,
        folder: F,
        files_max: u32,
        number: u32,
        meta: Meta,
        server: &Server<'c>,
    ) -> Result<Keeping<FileGenerations<'c, S, F>, StoreJournal<S>>, OpenFault>
        requires newest { (later : ℕ) → number < later → ¬ F.has folder later }
        requires text { configuration_of_octets meta.configuration
            ≡ Ok server.now.configuration }
        requires fits { Fits meta true }
        ensures in_use { IfOk result (λ keeping. IsClean (S.view keeping.journal.store)
            → IsInUse (F.has keeping.generations.folder) keeping.generations.number
            (S.recovers keeping.journal.store) server.now.configuration server.now) }
        ensures configuration { IfOk result (λ keeping.
            keeping.generations.config.now ≡ server.now.configuration) }
        ensures settled { IfOk result (λ keeping. keeping.generations.failed ≡ None) }
        ensures kept { IfOk result (λ keeping. IsClean (S.view keeping.journal.store)
            → kept_in (S.view keeping.journal.store) ≡ []) }
        ensures open { IfOk result (λ keeping. IsClean (S.view keeping.journal.store)
            → IsTrue (S.view keeping.journal.store).is_open × IsSome keeping.journal.count) }
    {
        server.state_is_lawful();
        snapshots_differ();
        let Some(number) = number.checked_add(1) else {
            return Err(OpenFault::JournalFull);
        };
        let mut folder = folder;
        let mut store = folder.create(alloc, number)?;
        write_generation(alloc, &mut store, &meta, server)?;
        remove_oldest(&mut folder, number, files_max);
        let began = server.clock();
        let generations = FileGenerations {
            config: server.config(),
            first: Last {
                wall: u64::try_from(meta.wall).unwrap_or(0),
                moment: began,
            },
            meta,
            folder,
            files_max,
            number,
            began,
            failed: None,
        };
        Ok(Keeping {
            generations,
            journal: StoreJournal::counted(alloc, store, 0),
        })
    }

    // The wall time at a moment of this life, in milliseconds since 1970.
    fn wall_at(&self, moment: u64) -> i64 {
        let Last {
            wall,
            moment: first,
        } = self.first;
        let wall = wall.saturating_add(moment.saturating_sub(first));
        i64::try_from(wall).unwrap_or(i64::MAX)
    }
}

impl<'c, S: Store + Drop, F: Folder<S> + Drop> Generations<StoreJournal<S>>
    for FileGenerations<'c, S, F> {
    ghost may_leave = { λ it journal. LeavesIn (F.has it.folder) it.number S.recovers journal.store
        it.failed };

    ghost has_base = { λ it journal. IsInUse (F.has it.folder) it.number (S.recovers journal.store)
        it.config.now };

    ghost configuration = { λ it. it.config.now };

    ghost is_clean = { λ it. IfSome it.failed (λ store. IsClean (S.view store)) };

    ghost reaches_back = { ⊥ };

    ghost is_alone = { ⊥ };

    ghost configured = { λ it journal base in_use. in_use.same };

    ghost leaves_base = { λ it journal. in_use_leaves (F.has it.folder) it.number S.recovers
        journal.store it.failed it.config.now };

    ghost stays = { λ it journal base _ _ is_open in_use. in_use_stays (F.has it.folder) it.number
        S.recovers journal.store it.failed it.config.now base in_use
        (S.view journal.store).committed (S.stays journal.store is_open.0) };

    ghost keeps_base = { λ it old new. in_use_keeps (F.has it.folder) it.number
        (S.recovers old.store) (S.recovers new.store) it.config.now };

    fn is_due(&self, journal: &StoreJournal<S>, clock: u64) -> bool {
        match journal.count() {
            None => false,
            Some(0) => self.folder.is_asked(),
            Some(count) => {
                count >= ENTRIES_DUE
                    || clock.saturating_sub(self.began) >= TIME_DUE
                    || self.folder.is_asked()
            }
        }
    }

    fn begin(
        &mut self,
        alloc: Global,
        journal: &mut StoreJournal<S>,
        server: &Server,
    ) -> Result<(), JournalFault> {
        server.state_is_lawful();
        snapshots_differ();
        if self.failed.is_some() {
            return Err(JournalFault::Disk);
        }
        let Some(number) = self.number.checked_add(1) else {
            return Err(JournalFault::Full);
        };
        self.meta.wall = self.wall_at(server.clock());
        let mut store = self.folder.create(alloc, number)?;
        if let Err(fault) = write_generation(alloc, &mut store, &self.meta, server) {
            self.failed = Some(store);
            return Err(fault);
        }
        *journal = StoreJournal::counted(alloc, store, 0);
        self.number = number;
        self.began = server.clock();
        remove_oldest(&mut self.folder, number, self.files_max);
        Ok(())
    }
}

// Removes the oldest files, as long as there are more than so many or they are too old, but neither the one with this number nor
// the one before it.
fn remove_oldest<S: Store, F: Folder<S>>(folder: &mut F, number: u32, files_max: u32)
    ensures kept { (other : ℕ) → number - 1 ≤ other
        → F.has folder.old other → F.has folder.new other }
    ensures only { (other : ℕ) → F.has folder.new other → F.has folder.old other }
{
    let count = folder.count();
    let extra = count.saturating_sub(files_max as usize);
    for removed in 0..count {
        match folder.oldest() {
            Some(oldest) if oldest < number.saturating_sub(1) => {
                let is_over = removed < extra || folder.is_too_old(oldest);
                if !is_over || folder.remove(oldest).is_err() {
                    return;
                }
            }
            _ => return,
        }
    }
}

//! Generations in a folder in memory.
ghost use Rattle.std.specs.Prelude.{◌≡◌, true, false, slice_index_or, IfOk, IsTrue, Ok};
ghost use Rattle.rad_config.specs.Configurations.{configuration_of_octets};
ghost use Rattle.rad_state.specs.Fits.{Fits};

use crate::journals::has_all;
use crate::stores::blank;
use crate::trial::{Time, Verdict};
use crate::written::{Written, has_generation, judge_ended};
use rad_journal::{Journal, JournalFault, StoreJournal};
use rad_packet::Octets;
use rad_server::Server;
use rad_state::{FileGenerations, Folder, Generations, Keeping, Meta, OpenFault};
use sqlite_trees::memory::MemStore;
use sqlite_trees::store::Store;
use std::alloc::{AllocError, Global};

/// How many numbers a shelf has.
const PLACES: usize = 8;

/// How many files are kept.
const FILES_MAX: u32 = 2;

/// A folder that knows which of a few numbers have a file. It keeps none of the stores that it makes, and opens none.
#[derive(Drop)]
struct Shelf {
    places: [bool; 8],
}

impl Shelf {
    fn new() -> Shelf {
        Shelf { places: [false; 8] }
    }
}

impl Folder<MemStore> for Shelf {
    ghost has = { λ it number. IsTrue (slice_index_or it.places number false) };

    fn newest(&self) -> Option<u32> {
        let place = self.places.iter().rposition(|is_there| *is_there)?;
        Some(place as u32)
    }

    fn oldest(&self) -> Option<u32> {
        let place = self.places.iter().position(|is_there| *is_there)?;
        Some(place as u32)
    }

    fn count(&self) -> usize {
        self.places.iter().filter(|is_there| **is_there).count()
    }

    fn create(&mut self, alloc: Global, number: u32) -> Result<MemStore, OpenFault> {
        let number = number as usize;
        if number >= PLACES {
            return Err(OpenFault::NoRoom);
        }
        let store = blank(alloc)?;
        self.places[number] = true;
        Ok(store)
    }

    fn open(&mut self, _alloc: Global, _number: u32) -> Result<MemStore, OpenFault> {
        Err(OpenFault::Disk)
    }

    fn remove(&mut self, number: u32) -> Result<(), OpenFault> {
        let number = number as usize;
        if number < PLACES {
            self.places[number] = false;
        }
        Ok(())
    }
}

/// Generations that have begun.
type Begun<'c, S, F> = Keeping<FileGenerations<'c, S, F>, StoreJournal<S>>;

// Begins the first generation in a folder, at a server.
fn start<'c, S: Store + Drop, F: Folder<S> + Drop>(
    alloc: Global,
    folder: F,
    meta: Meta,
    server: &Server<'c>,
    time: Time,
) -> Result<Begun<'c, S, F>, OpenFault>
    requires text { configuration_of_octets meta.configuration ≡ Ok server.now.configuration }
    requires fits { Fits meta true }
{
    let number = folder.newest().unwrap_or(0);
    time.begin(alloc);
    let keeping = FileGenerations::start(alloc, folder, FILES_MAX, number, meta, server);
    time.end(alloc);
    keeping
}

// A copy of a meta.
fn copied(alloc: Global, meta: &Meta) -> Result<Meta, AllocError>
    ensures { IfOk result (λ copy. copy ≡ meta.now) }
{
    Ok(Meta {
        configuration: Octets::of(alloc, meta.configuration.octets())?,
        ..*meta
    })
}

/// The first generation of a new folder begins.
pub(crate) fn try_start(alloc: Global, written: &Written, time: Time) -> Verdict {
    judge_ended(started(alloc, written, time))
}

// Whether it is in the store of its journal then.
fn started(alloc: Global, written: &Written, time: Time) -> Result<bool, OpenFault> {
    let meta = copied(alloc, &written.meta)?;
    let Keeping {
        generations: _,
        journal,
    } = start::<MemStore, Shelf>(alloc, Shelf::new(), meta, &written.server, time)?;
    begins(alloc, journal, written)
}

// Whether the store of a journal has a generation with this meta, which begins at this server, and no entry.
fn begins(
    alloc: Global,
    journal: StoreJournal<MemStore>,
    written: &Written,
) -> Result<bool, OpenFault> {
    match journal.into_store() {
        Some((store, count)) => Ok(count == 0 && has_generation(alloc, store, written, &[])?),
        None => Ok(false),
    }
}

/// The next generation begins, after one with these entries.
pub(crate) fn try_begin(alloc: Global, written: &Written, time: Time) -> Verdict {
    match first(alloc, written) {
        Ok(keeping) => next(alloc, keeping, written, time),
        Err(_) => Verdict::Unready,
    }
}

// The first generation of a new folder, which begins at a server that remembers nothing, with these entries.
fn first<'c>(
    alloc: Global,
    written: &Written<'c>,
) -> Result<Begun<'c, MemStore, Shelf>, OpenFault> {
    let meta = copied(alloc, &written.meta)?;
    let server = Server::open(alloc, written.server.config())?;
    let mut keeping = start::<MemStore, Shelf>(alloc, Shelf::new(), meta, &server, Time::Again)?;
    keeping.journal.commit(&written.kept)?;
    Ok(keeping)
}

// Whether the next generation is in the store of its journal.
fn next(alloc: Global, keeping: Begun<MemStore, Shelf>, written: &Written, time: Time) -> Verdict {
    let Keeping {
        mut generations,
        mut journal,
    } = keeping;
    time.begin(alloc);
    let begun = generations.begin(alloc, &mut journal, &written.server);
    time.end(alloc);
    match begun {
        Ok(()) => judge_ended(begins(alloc, journal, written)),
        Err(JournalFault::NoMemory) => {
            judge_refused(alloc, &mut generations, &mut journal, written)
        }
        Err(_) => Verdict::Fault,
    }
}

/// After a refusal the journal is the one before. The generation begins now, or none does any more.
fn judge_refused<J: Journal, K: Generations<J>>(
    alloc: Global,
    generations: &mut K,
    journal: &mut J,
    written: &Written,
) -> Verdict {
    if !has_all(alloc, journal, &written.kept) {
        return Verdict::Changed;
    }
    match generations.begin(alloc, journal, &written.server) {
        Ok(()) | Err(JournalFault::Disk) => Verdict::Refused,
        Err(_) => Verdict::Other,
    }
}

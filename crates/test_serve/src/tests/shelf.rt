//! A folder in memory.
ghost use Rattle.std.specs.Prelude.{false, slice_index_or, IsTrue};

use rad_state::{Folder, OpenFault, make_files};
use sqlite_disk::{Files, Fuse, Memory};
use sqlite_store::FileStore;
use std::alloc::Global;

/// How many numbers a shelf has.
const PLACES: usize = 8;

/// A folder that knows which of a few numbers have a file. It keeps none of the files that it makes, and opens none.
#[derive(Drop)]
pub(crate) struct Shelf {
    places: [bool; 8],
    // How many calls the disks of a file take before they fail.
    calls: u64,
}

impl Shelf {
    /// A shelf with no file.
    pub(crate) fn new(calls: u64) -> Shelf {
        Shelf {
            places: [false; 8],
            calls,
        }
    }
}

impl Folder<FileStore<Fuse<Memory>>> for Shelf {
    ghost has = { λ it number. IsTrue (slice_index_or it.places number false) };

    fn newest(&self) -> Option<u32> {
        let place = self.places.iter().rposition(|is_there| *is_there)?;
        Some(place as u32)
    }

    fn oldest(&self) -> Option<u32> {
        let place = self.places.iter().position(|is_there| *is_there)?;
        Some(place as u32)
    }

    fn count(&self) -> usize {
        self.places.iter().filter(|is_there| **is_there).count()
    }

    fn create(&mut self, alloc: Global, number: u32) -> Result<FileStore<Fuse<Memory>>, OpenFault> {
        let number = number as usize;
        if number >= PLACES {
            return Err(OpenFault::NoRoom);
        }
        let files = Files {
            log: Fuse::new(Memory::new(alloc), self.calls),
            db: Fuse::new(Memory::new(alloc), self.calls),
        };
        let store = make_files(alloc, files, 7)?;
        self.places[number] = true;
        Ok(store)
    }

    fn open(&mut self, _alloc: Global, _number: u32) -> Result<FileStore<Fuse<Memory>>, OpenFault> {
        Err(OpenFault::Disk)
    }

    fn remove(&mut self, number: u32) -> Result<(), OpenFault> {
        let number = number as usize;
        if number < PLACES {
            self.places[number] = false;
        }
        Ok(())
    }
}

//! The folder of a state, read alone, also while a server keeps to it.
ghost use Rattle.std.specs.Prelude.{◌≡◌, ◌≢◌, ◌⊎◌, ℕ, Contains, IfOk, OnOk};
ghost use Rattle.sqlite_store.specs.FileStore.{view};
ghost use Rattle.sqlite_trees.specs.View.{IsClean};
ghost use Rattle.rad_state.specs.Stores.{IsOpened};

use crate::fault::{Fault, StateFault};
use crate::listed::Listed;
use crate::state_files::{CopiedStore, copy_store, has_anything};
use rad_serve::ServeError;
use rad_state::{Folder, OpenFault};
use std::alloc::Global;

/// The folder of a state as it was listed, whose files are copied into memory where they are opened. Nothing in it is made or
/// removed.
#[derive(Drop)]
pub struct StateCopies {
    host: HostRuntime,
    listed: Listed,
}

impl StateCopies {
    /// Lists the folder at a path.
    pub fn of(host: &HostRuntime, path: &str) -> Result<StateCopies, Fault> {
        Ok(StateCopies {
            host: *host,
            listed: Listed::of(host, path)?,
        })
    }

    /// The fault of a call that was lent this folder.
    pub fn fault_of(&self, error: ServeError) -> Fault {
        self.listed.fault_of(self.host.alloc(), error)
    }

    fn copy(&mut self, number: u32) -> Result<CopiedStore, OpenFault>
        ensures opened { IfOk result (λ store.
            IsClean (view store) → IsOpened (view store)) }
        ensures same { self.new.listed.numbers ≡ self.old.listed.numbers }
    {
        let path = self.listed.file(self.host.alloc(), number)?;
        match copy_store(&self.host, &path) {
            Ok(store) => Ok(store),
            Err(fault) => Err(self.listed.fail(number, fault)),
        }
    }

    // From now on the file isn't in the list. Where a start would give it another name, this is told.
    fn pass_over(&mut self, number: u32) -> Result<(), OpenFault>
        ensures gone { OnOk result (¬ Contains self.new.listed.numbers number) }
        ensures others { (other : ℕ) → other ≢ number
            → Contains self.old.listed.numbers other → Contains self.new.listed.numbers other }
        ensures only { (other : ℕ) → Contains self.new.listed.numbers other
            → Contains self.old.listed.numbers other }
    {
        let path = self.listed.file(self.host.alloc(), number)?;
        if has_anything(&self.host, &path).map_err(StateFault::from)? {
            let _ = eprintln!(self.host;
                "radpool: warning: {path} has no whole generation: a start sets it aside"
            );
        }
        self.listed.forget(number);
        Ok(())
    }
}

impl<'f> Folder<CopiedStore> for &'f mut StateCopies {
    ghost has = { λ it. Contains it.now.listed.numbers };

    fn newest(&self) -> Option<u32> {
        self.listed.numbers.newest()
    }

    fn oldest(&self) -> Option<u32> {
        self.listed.numbers.oldest()
    }

    fn count(&self) -> usize {
        self.listed.numbers.count()
    }

    fn create(&mut self, _alloc: Global, _number: u32) -> Result<CopiedStore, OpenFault> {
        Err(OpenFault::Disk)
    }

    fn open(&mut self, _alloc: Global, number: u32) -> Result<CopiedStore, OpenFault> {
        self.copy(number)
    }

    fn remove(&mut self, number: u32) -> Result<(), OpenFault> {
        self.pass_over(number)
    }
}

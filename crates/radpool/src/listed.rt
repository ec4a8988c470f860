//! A folder of generations that was listed.
ghost use Rattle.std.specs.Prelude.{◌≡◌, ◌≢◌, ℕ, Contains};

use crate::fault::{Fault, StateFault};
use crate::generation_names::{file_of, numbers_in};
use crate::numbers::Numbers;
use rad_serve::ServeError;
use rad_state::OpenFault;
use std::alloc::{AllocError, Global};

/// A folder of generations that was listed: the numbers of its files, and why the last call failed.
#[derive(Drop)]
pub struct Listed {
    pub path: String,
    pub numbers: Numbers,
    // The file that could not be made or opened.
    failed: Option<Failed>,
}

/// A file that could not be made or opened, by its number, and why.
#[derive(Clone, Copy)]
struct Failed {
    number: u32,
    fault: StateFault,
}

impl Listed {
    /// Lists the folder at a path.
    pub fn of(host: &HostRuntime, path: &str) -> Result<Listed, Fault> {
        let path = path.to_string(host.alloc())?;
        match numbers_in(host, &path) {
            Ok(numbers) => Ok(Listed {
                path,
                numbers,
                failed: None,
            }),
            Err(error) => Err(StateFault::from(error).at(path)),
        }
    }

    /// The path of the file with a number.
    pub fn file(&self, alloc: Global, number: u32) -> Result<String, AllocError> {
        file_of(alloc, &self.path, number)
    }

    /// Notes that the file with a number could not be made or opened, for `fault_of`.
    pub fn fail(&mut self, number: u32, fault: StateFault) -> OpenFault
        ensures { self.new.numbers ≡ self.old.numbers }
    {
        self.failed = Some(Failed { number, fault });
        OpenFault::from(fault)
    }

    /// Takes the file with a number out of the list. It no longer counts that it could not be opened.
    pub fn forget(&mut self, number: u32)
        ensures gone { ¬ Contains self.new.numbers number }
        ensures others { (other : ℕ) → other ≢ number
            → Contains self.old.numbers other → Contains self.new.numbers other }
        ensures only { (other : ℕ) → Contains self.new.numbers other
            → Contains self.old.numbers other }
    {
        self.failed = None;
        self.numbers.remove(number);
    }

    /// The fault of a call that had this folder, at the file that could not be made or opened, or else at the newest one.
    pub fn fault_of(&self, alloc: Global, error: ServeError) -> Fault {
        match self.failed {
            Some(Failed { number, fault }) => self.fault_at(alloc, Some(number), fault),
            None => self.fault_at(alloc, self.numbers.newest(), StateFault::from(error)),
        }
    }

    /// A fault at the file with this number, or at the folder.
    pub fn fault_at(&self, alloc: Global, number: Option<u32>, fault: StateFault) -> Fault {
        let path = match number {
            Some(number) => self.file(alloc, number),
            None => self.path.as_str().to_string(alloc),
        };
        match path {
            Ok(path) => fault.at(path),
            Err(error) => Fault::from(error),
        }
    }
}

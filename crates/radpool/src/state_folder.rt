//! The folder of a state, for one process alone.
ghost use Rattle.std.specs.Prelude.{◌≡◌, ◌≢◌, ◌⊎◌, ℕ, Contains, IfOk, IsOk, OnOk};
ghost use Rattle.sqlite_store.specs.FileStore.{view};
ghost use Rattle.sqlite_trees.specs.View.{IsClean};
ghost use Rattle.rad_state.specs.Stores.{IsBlank, IsOpened};

use crate::advice::advise;
use crate::fault::{Fault, StateFault};
use crate::generation_names::{aside_of, asking_of, log_of};
use crate::listed::Listed;
use crate::state_files::{DiskStore, has_anything, make_store, open_store};
use rad_serve::ServeError;
use rad_state::{Folder, OpenFault};
use std::alloc::Global;
use std::fs::{self, File};
use std::io;

/// How many files of a number are set aside: a start that is cut short again and again must not fill the disk.
const ASIDE_MAX: u32 = 8;

/// The seconds of a day.
const DAY: u64 = 86_400;

/// The folder of a state, which this process has locked: it has a file and a log for each generation.
///
/// A generation's own file is locked too, while it is open. `Folder` is for a `&mut` to it, so that who lends it can ask for the
/// fault.
#[derive(Drop)]
pub struct StateFolder {
    host: HostRuntime,
    listed: Listed,
    // It has the lock.
    directory: File,
    // How long a generation is kept that isn't written any more, in days.
    days: Option<u32>,
    // What was asked for was done, and the file that asked for it is gone.
    is_open_to_asking: bool,
}

impl StateFolder {
    /// Opens, locks and lists the folder at a path. Generations that weren't written for so many days may go.
    pub fn open(host: &HostRuntime, path: &str, days: Option<u32>) -> Result<StateFolder, Fault> {
        let directory = match open_directory(host, path) {
            Ok(directory) => directory,
            Err(fault) => return Err(fault.at(path.to_string(host.alloc())?)),
        };
        let lock = directory.try_lock();
        let listed = Listed::of(host, path)?;
        match lock {
            Ok(()) => Ok(StateFolder {
                host: *host,
                listed,
                directory,
                days,
                is_open_to_asking: true,
            }),
            Err(error) => {
                let newest = listed.numbers.newest();
                Err(listed.fault_at(host.alloc(), newest, StateFault::from(error)))
            }
        }
    }

    /// The fault of a call that was lent this folder, and what may be done.
    pub fn fault_of(&self, error: ServeError) -> Fault {
        let fault = self.listed.fault_of(self.host.alloc(), error);
        advise(&self.host, &self.listed, fault)
    }

    fn make_file(&mut self, number: u32) -> Result<DiskStore, OpenFault>
        ensures blank { IfOk result (λ store. IsClean (view store) → IsBlank (view store)) }
        ensures made { OnOk result (Contains self.new.listed.numbers number) }
        ensures others { (other : ℕ) → Contains self.old.listed.numbers other
            → Contains self.new.listed.numbers other }
        ensures only { (other : ℕ) → Contains self.new.listed.numbers other
            → Contains self.old.listed.numbers other ⊎ (IsOk result × (other ≡ number)) }
    {
        let path = self.listed.file(self.host.alloc(), number)?;
        match make_store(&self.host, &path) {
            Ok(store) => {
                self.listed.numbers.add(number)?;
                self.is_open_to_asking = self.end_asking().is_ok();
                Ok(store)
            }
            Err(fault) => Err(self.listed.fail(number, fault)),
        }
    }

    // Removes the file that asks for another generation, if it is there.
    fn end_asking(&self) -> io::Result<()> {
        let asking = asking_of(self.host.alloc(), &self.listed.path)?;
        remove_if_there(&self.host, &asking)
    }

    // Whether that file is there. One that couldn't be removed asks once, or generations would begin without end.
    fn is_asking(&self) -> bool {
        let Ok(asking) = asking_of(self.host.alloc(), &self.listed.path) else {
            return false;
        };
        self.is_open_to_asking && is_there(&self.host, &asking).unwrap_or(false)
    }

    // For how many whole days the file with a number hasn't been written, if that can be told.
    fn days_of(&self, number: u32) -> Option<u64> {
        let path = self.listed.file(self.host.alloc(), number).ok()?;
        let modified = fs::metadata(&self.host, &path).ok()?.modified().ok()?;
        let age = modified.elapsed(&self.host).ok()?;
        Some(age.as_secs() / DAY)
    }

    fn open_file(&mut self, number: u32) -> Result<DiskStore, OpenFault>
        ensures opened { IfOk result (λ store.
            IsClean (view store) → IsOpened (view store)) }
        ensures same { self.new.listed.numbers ≡ self.old.listed.numbers }
    {
        let path = self.listed.file(self.host.alloc(), number)?;
        match open_store(&self.host, &path) {
            Ok(store) => Ok(store),
            Err(fault) => Err(self.listed.fail(number, fault)),
        }
    }

    fn remove_file(&mut self, number: u32) -> Result<(), OpenFault>
        ensures gone { OnOk result (¬ Contains self.new.listed.numbers number) }
        ensures others { (other : ℕ) → other ≢ number
            → Contains self.old.listed.numbers other → Contains self.new.listed.numbers other }
        ensures only { (other : ℕ) → Contains self.new.listed.numbers other
            → Contains self.old.listed.numbers other }
    {
        let path = self.listed.file(self.host.alloc(), number)?;
        remove_files(&self.host, &path).map_err(StateFault::from)?;
        self.listed.forget(number);
        Ok(())
    }

    fn set_file_aside(&mut self, number: u32) -> Result<(), OpenFault>
        ensures gone { OnOk result (¬ Contains self.new.listed.numbers number) }
        ensures others { (other : ℕ) → other ≢ number
            → Contains self.old.listed.numbers other → Contains self.new.listed.numbers other }
        ensures only { (other : ℕ) → Contains self.new.listed.numbers other
            → Contains self.old.listed.numbers other }
    {
        let path = self.listed.file(self.host.alloc(), number)?;
        set_aside(&self.host, &path).map_err(StateFault::from)?;
        self.listed.forget(number);
        Ok(())
    }
}

impl<'f> Folder<DiskStore> for &'f mut StateFolder {
    ghost has = { λ it. Contains it.now.listed.numbers };

    fn newest(&self) -> Option<u32> {
        self.listed.numbers.newest()
    }

    fn oldest(&self) -> Option<u32> {
        self.listed.numbers.oldest()
    }

    fn count(&self) -> usize {
        self.listed.numbers.count()
    }

    fn is_too_old(&self, number: u32) -> bool {
        match (self.days, self.days_of(number)) {
            (Some(days), Some(age)) => age >= u64::from(days),
            _ => false,
        }
    }

    fn is_asked(&self) -> bool {
        self.is_asking()
    }

    fn create(&mut self, _alloc: Global, number: u32) -> Result<DiskStore, OpenFault> {
        self.make_file(number)
    }

    fn open(&mut self, _alloc: Global, number: u32) -> Result<DiskStore, OpenFault> {
        self.open_file(number)
    }

    fn remove(&mut self, number: u32) -> Result<(), OpenFault> {
        self.remove_file(number)
    }

    fn set_aside(&mut self, number: u32) -> Result<(), OpenFault> {
        self.set_file_aside(number)
    }
}

// Opens a folder, and nothing else.
fn open_directory(host: &HostRuntime, path: &str) -> Result<File, StateFault> {
    let path = format!(in host.alloc(); "{path}/")?;
    Ok(fs::open(host, &path)?)
}

// Gives a file in which no generation can be read another name, and its log too, and tells it: it may be damaged. Where there is
// nothing to lose, or no such name is left, it is removed.
fn set_aside(host: &HostRuntime, path: &str) -> io::Result<()> {
    if !has_anything(host, path)? {
        return remove_files(host, path);
    }
    for place in 1..=ASIDE_MAX {
        let aside = aside_of(host.alloc(), path, place)?;
        if !is_there(host, &aside)? {
            rename_files(host, path, &aside)?;
            let _ = eprintln!(host;
                "radpool: warning: {path} has no whole generation: it is now {aside}"
            );
            return Ok(());
        }
    }
    let _ = eprintln!(host; "radpool: warning: {path} has no whole generation: it is removed");
    remove_files(host, path)
}

// The log comes first, or it would be in the way of the next file.
fn rename_files(host: &HostRuntime, path: &str, aside: &str) -> io::Result<()> {
    let log = log_of(host.alloc(), path)?;
    if is_there(host, &log)? {
        fs::rename(host, &log, &log_of(host.alloc(), aside)?)?;
    }
    fs::rename(host, path, aside)
}

/// Whether a file is there.
pub fn is_there(host: &HostRuntime, path: &str) -> io::Result<bool> {
    match fs::symlink_metadata(host, path) {
        Ok(_) => Ok(true),
        Err(error) if error.kind() == io::ErrorKind::NotFound => Ok(false),
        Err(error) => Err(error),
    }
}

// Removes a generation's file, and before it all that belongs to it: a log without its file would be in the way of the next one.
fn remove_files(host: &HostRuntime, path: &str) -> io::Result<()> {
    let index = format!(in host.alloc(); "{path}-shm")?;
    let log = log_of(host.alloc(), path)?;
    remove_if_there(host, &index)?;
    remove_if_there(host, &log)?;
    remove_if_there(host, path)
}

/// Removes a file, if it is there.
pub fn remove_if_there(host: &HostRuntime, path: &str) -> io::Result<()> {
    match fs::remove_file(host, path) {
        Err(error) if error.kind() == io::ErrorKind::NotFound => Ok(()),
        removed => removed,
    }
}

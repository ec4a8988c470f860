//! The files of generations: a database and its log, on the disk or copied into memory.
ghost use Rattle.std.specs.Prelude.{◌≤◌, length, IfOk, IsTrue};
ghost use Rattle.sqlite_disk.specs.Memory.{memory_is_usable};
ghost use Rattle.sqlite_store.specs.FileStore.{view};
ghost use Rattle.sqlite_trees.specs.View.{IsClean};
ghost use Rattle.rad_state.specs.Stores.{IsBlank, IsOpened};

use crate::fault::{Fault, StateFault};
use crate::generation_names::log_of;
use rad_state::OpenFault;
use sqlite_disk::{Disk, Files, Memory, Unknown};
use sqlite_std_file::FileFrom;
use sqlite_store::FileStore;
use std::alloc::Global;
use std::fs::{self, OpenOptions};
use std::hash::{BuildHasher, RandomState};
use std::io::{self, Read};
use std::os::unix::fs::OpenOptionsExt;
use std::random::RandomSource;

/// The mode of a database, and of its log: it has the secrets of the configuration.
const MODE: u32 = 0o600;

/// How the database of a state begins: SQLite's mark, pages of 4,096 octets, both versions of a database with a log, and 8 octets
/// at the end of each page, for its sum.
const BEGINNING: [u8; 21] = *b"SQLite format 3\0\x10\0\x02\x02\x08";

/// The octets of a log's head, which are others whenever the log begins anew.
const HEAD: usize = 32;

/// The octets of the head of a frame, which is a page in a log. It has the page's number, from 1.
const FRAME_HEAD: usize = 24;

/// The octet of it that is other than in a log before: an open sees to that.
const MARK: usize = 8;

/// The octets of a page.
const PAGE: u64 = 4096;

/// The store in a file and its log.
pub type DiskStore = FileStore<FileFrom<Unknown>>;

/// The store in copies of a file and its log.
pub type CopiedStore = FileStore<Memory>;

/// Makes and locks a generation's file and its log. Both are still there after a crash, since opening them syncs their folder.
///
/// `Busy`: the file is there by now, so another process has made it. `StrayLog`: the log is there, and the file isn't.
pub fn make_store(host: &HostRuntime, path: &str) -> Result<DiskStore, StateFault>
    ensures { IfOk result (λ store. IsClean (view store) → IsBlank (view store)) }
{
    refuse_stray_log(host, path)?;
    make_file(host, path)?;
    let files = sqlite_std_file::open(host, path, Unknown)?;
    let salt = salt(host)?;
    Ok(rad_state::make_files(host.alloc(), files, salt)?)
}

/// Opens and locks a generation's file and its log.
///
/// What begins as no state isn't touched, nor a log that can't be read where it alone has the tables.
pub fn open_store(host: &HostRuntime, path: &str) -> Result<DiskStore, StateFault>
    ensures { IfOk result (λ store. IsClean (view store) → IsOpened (view store)) }
{
    refuse_other(&beginning_of(host, path)?)?;
    // Opening would cut off a log that can't be read.
    if fs::metadata(host, path)?.len() <= PAGE {
        drop(copy_store(host, path)?.close());
    }
    let files = sqlite_std_file::open(host, path, Unknown)?;
    let salt = salt(host)?;
    Ok(rad_state::open_files(host.alloc(), files, salt)?)
}

/// Opens a copy of a generation's file and its log, which stay as they are, also while a server writes to them.
///
/// `Damaged`: also where a server has copied its log into the file meanwhile.
pub fn copy_store(host: &HostRuntime, path: &str) -> Result<CopiedStore, StateFault>
    ensures { IfOk result (λ store. IsClean (view store) → IsOpened (view store)) }
{
    let log_path = log_of(host.alloc(), path)?;
    let before = log_in(host, &log_path)?;
    let database = fs::read(host, path)?;
    // What is copied into the file until here is in this log too, if it is the same one.
    let log = log_in(host, &log_path)?;
    let after = head_of(host, &log_path)?;
    if !is_same_log(&before, &log) || !is_same_log(&log, &after) {
        return Err(StateFault::from(OpenFault::Damaged));
    }
    refuse_other(&database)?;
    let files = Files {
        log: in_memory(host.alloc(), &log)?,
        db: in_memory(host.alloc(), &database)?,
    };
    match rad_state::open_files(host.alloc(), files, 0) {
        Ok(store) => Ok(store),
        // Memory fails only where it is refused.
        Err(OpenFault::Disk) => Err(StateFault::from(OpenFault::NoMemory)),
        Err(fault) => Err(StateFault::from(fault)),
    }
}

/// A random seed, for what has the state in a folder.
pub fn seed(host: &HostRuntime, folder: &str) -> Result<[u8; 32], Fault> {
    let mut seed = [0; 32];
    match host.fill_bytes(&mut seed) {
        Ok(()) => Ok(seed),
        Err(error) => Err(StateFault::from(error).at(folder.to_string(host.alloc())?)),
    }
}

/// Whether anything can be lost with a generation's file and its log: unless the file is empty, a log is missing, or has a page.
pub fn has_anything(host: &HostRuntime, path: &str) -> io::Result<bool> {
    let log = head_of(host, &log_of(host.alloc(), path)?)?;
    let is_written = log.iter().skip(HEAD).any(|octet| *octet != 0);
    // The log is made first, and the first octet of the file, too, is written last.
    Ok(is_written || log.is_empty() && fs::metadata(host, path)?.len() > 1)
}

// The head of a log, and of its first frame but for the octet that an open may change; none where there is no log.
fn head_of(host: &HostRuntime, log: &str) -> io::Result<Vec<u8>> {
    let mut octets = [0; HEAD + FRAME_HEAD];
    match read_beginning(host, log, &mut octets) {
        Ok(len) => {
            octets[HEAD + MARK] = 0;
            Ok(Vec::from_slice(host.alloc(), &octets[..len])?)
        }
        Err(error) if error.kind() == io::ErrorKind::NotFound => Ok(Vec::new(host.alloc())),
        Err(error) => Err(error),
    }
}

// A random number for the log of a database.
fn salt(host: &HostRuntime) -> io::Result<u64> {
    Ok(RandomState::new(host)?.hash_one(&0u8))
}

// A log whose database was moved away isn't lost by a new database of this name.
fn refuse_stray_log(host: &HostRuntime, path: &str) -> Result<(), StateFault> {
    let log_path = log_of(host.alloc(), path)?;
    match fs::symlink_metadata(host, &log_path) {
        Ok(found) if found.len() > 0 => Err(StateFault::StrayLog),
        _ => Ok(()),
    }
}

// Makes an empty file that isn't there yet. No link is followed.
fn make_file(host: &HostRuntime, path: &str) -> Result<(), StateFault> {
    match OpenOptions::new()
        .write(true)
        .create_new(true)
        .mode(MODE)
        .open(host, path)
    {
        Ok(_) => Ok(()),
        Err(error) if error.kind() == io::ErrorKind::AlreadyExists => {
            Err(StateFault::from(OpenFault::InUse))
        }
        Err(error) => Err(StateFault::from(error)),
    }
}

// The first octets of a file, or all of a shorter one.
fn beginning_of(host: &HostRuntime, path: &str) -> Result<Vec<u8>, StateFault> {
    let mut octets = [0; BEGINNING.len()];
    let len = read_beginning(host, path, &mut octets)?;
    Ok(Vec::from_slice(host.alloc(), &octets[..len])?)
}

// Reads the first octets of a file, and returns how many there were.
fn read_beginning(host: &HostRuntime, path: &str, octets: &mut [u8]) -> io::Result<usize>
    ensures { IfOk result (λ len. len ≤ length octets.new) }
{
    let mut file = fs::open(host, path)?;
    file.read(octets)
}

// Refuses what doesn't begin as the database of a state. A crash may have cut its making short, which writes the first octet last,
// and leaves each of the others written or zero.
fn refuse_other(octets: &[u8]) -> Result<(), OpenFault> {
    let Some((first, rest)) = octets.split_first() else {
        return Err(OpenFault::Unfinished);
    };
    let wanted = &BEGINNING[1..];
    let len = rest.len().min(wanted.len());
    let is_begun = rest
        .iter()
        .zip(wanted)
        .all(|(found, wanted)| *found == 0 || found == wanted);
    match *first {
        0 if is_begun => Err(OpenFault::Unfinished),
        first if first == BEGINNING[0] && rest[..len] == wanted[..len] => Ok(()),
        _ => Err(OpenFault::Damaged),
    }
}

// The octets of a log; none where there is no file.
fn log_in(host: &HostRuntime, path: &str) -> io::Result<Vec<u8>> {
    match fs::read(host, path) {
        Err(error) if error.kind() == io::ErrorKind::NotFound => Ok(Vec::new(host.alloc())),
        read => read,
    }
}

// Whether a log has only grown.
fn is_same_log(before: &[u8], after: &[u8]) -> bool {
    let (before_len, after_len) = (before.len().min(HEAD), after.len().min(HEAD));
    before[..before_len] == after[..after_len]
}

// A file in memory that has these octets.
fn in_memory(alloc: Global, octets: &[u8]) -> io::Result<Memory>
    ensures { IfOk result (λ memory. IsTrue (memory_is_usable memory)) }
{
    let mut memory = Memory::new(alloc);
    memory.write_at(0, octets)?;
    Ok(memory)
}

//! The names of the files in the folder of a state: `generation-N.db` has the generation N, and `generation-N.db-wal` its log. What
//! couldn't be read has these names with `.unfinished` after `.db`, or `.unfinished-2`, and so on. A file `close` asks a server for
//! another generation.

use crate::numbers::Numbers;
use std::alloc::{AllocError, Global};
use std::{fs, io};

/// With what the name of a generation's file begins.
const BEGINNING: &str = "generation-";

/// With what it ends.
const ENDING: &str = ".db";

/// The name of a generation's file.
pub fn name_of(alloc: Global, number: u32) -> Result<String, AllocError> {
    format!(in alloc; "{BEGINNING}{number}{ENDING}")
}

/// The path of a generation's file.
pub fn file_of(alloc: Global, folder: &str, number: u32) -> Result<String, AllocError> {
    let name = name_of(alloc, number)?;
    format!(in alloc; "{folder}/{name}")
}

/// The path of a file by which another generation is asked for.
pub fn asking_of(alloc: Global, folder: &str) -> Result<String, AllocError> {
    format!(in alloc; "{folder}/close")
}

/// The path of the log of a database.
pub fn log_of(alloc: Global, file: &str) -> Result<String, AllocError> {
    format!(in alloc; "{file}-wal")
}

/// One of the paths that the file of a generation may have once it's set aside, from 1.
pub fn aside_of(alloc: Global, file: &str, place: u32) -> Result<String, AllocError> {
    match place {
        1 => format!(in alloc; "{file}.unfinished"),
        _ => format!(in alloc; "{file}.unfinished-{place}"),
    }
}

/// The numbers of the generations that have a file in a folder. Files with other names are passed over.
pub fn numbers_in(host: &HostRuntime, folder: &str) -> io::Result<Numbers> {
    let mut numbers = Numbers::new(host.alloc());
    for entry in fs::read_dir(host, folder)? {
        match entry {
            Ok(entry) => {
                if let Some(number) = number_of(entry.file_name()) {
                    numbers.add(number)?;
                }
            }
            // The name isn't UTF-8.
            Err(error) if error.kind() == io::ErrorKind::InvalidFilename => {}
            Err(error) => return Err(error),
        }
    }
    Ok(numbers)
}

// The number in the name of a generation's file, which has no leading zeros and begins with 1.
fn number_of(name: &str) -> Option<u32> {
    let digits = name.strip_prefix(BEGINNING)?.strip_suffix(ENDING)?;
    match digits.as_bytes().first() {
        Some(b'1'..=b'9') => digits.parse::<u32>().ok(),
        _ => None,
    }
}

//! Files that can't be read.

use std::alloc::AllocError;
use std::{fmt, io};
use thiserror::Error;

/// A file that can't be read. It is printed as on the first line of a report; path and reason come on the next.
#[derive(Drop)]
pub struct Unreadable {
    pub file: GivenFile,
    pub path: String,
    pub why: FileFault,
}

/// What a file is to `serve`.
#[derive(Clone, Copy, Debug, PartialEq, Eq)]
pub enum GivenFile {
    Config,
    Users,
    Seed,
}

impl fmt::Display for Unreadable {
    fn fmt<W: fmt::Write>(&self, f: &mut fmt::Formatter<W>) -> fmt::Result {
        match self.file {
            GivenFile::Config => f.write_str("config unreadable"),
            GivenFile::Users => write!(f, "{}: users unreadable", self.path),
            GivenFile::Seed => f.write_str("seed unreadable"),
        }
    }
}

/// Why a file can't be read.
#[derive(Clone, Copy, Debug, Error)]
pub enum FileFault {
    /// The system can't open or read it.
    #[error("{0}")]
    System(io::Error),
    /// It has more than 16,777,216 octets.
    #[error("it has more than 16777216 octets")]
    TooLong,
    /// It has so many octets, and a seed has another number.
    #[error("its size is not 32 octets but {0}")]
    SeedSize(u64),
    /// It has more octets than a seed, and the system doesn't say how many.
    #[error("its size is not 32 octets but more")]
    SeedTooLong,
    /// Memory for its text was refused.
    #[error("out of memory")]
    NoMemory,
}

impl From<io::Error> for FileFault {
    fn from(error: io::Error) -> FileFault {
        FileFault::System(error)
    }
}

impl From<AllocError> for FileFault {
    fn from(_error: AllocError) -> FileFault {
        FileFault::NoMemory
    }
}

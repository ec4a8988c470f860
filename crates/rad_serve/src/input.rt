//! The files of `serve` and `check`.
ghost use Rattle.std.specs.Prelude.{IfSome, OnSome};
ghost use Rattle.std.specs.Io.KnownBytes.{Consumes, IsAtEnd};

use crate::given_fault::GivenFault;
use crate::noting_reader::NotingReader;
use crate::unreadable::{FileFault, GivenFile};
use rad_check::{Source, UsersFault, UsersFile, misfit, path_beside, users_named};
use rad_config::{InputFault, read_text};
use std::alloc::AllocGlobal;
use std::io::Read;
use std::rt::Files;
use std::{fs, io};

/// The octets of a seed.
const SEED_SIZE: usize = 32;

/// The text of a configuration, with that of the file of users that it names.
///
/// `Unreadable`: a file can't be read, or the configuration's has more than 16,777,216 octets. `NoMemory`: memory for a text was
/// refused. `Config`: the name of the file of users doesn't fit. `Users`: that file may not have such a text.
pub fn open_source<R: Files + AllocGlobal>(rt: &R, path: &str) -> Result<Source, GivenFault> {
    let text = match read_file(rt, path) {
        Ok(text) => text,
        Err(why) => return Err(GivenFault::of_file(rt.alloc(), GivenFile::Config, path, why)),
    };
    match users_named(rt.alloc(), &text) {
        Ok(None) => Ok(Source::alone(text)),
        Ok(Some(file)) => open_users(rt, path, text, file),
        Err(fault) => Err(GivenFault::Config(fault, None)),
    }
}

// The text of a configuration at a path, with that of the file of users that it names.
fn open_users<R: Files + AllocGlobal>(
    rt: &R,
    path: &str,
    text: Vec<u8>,
    file: UsersFile,
) -> Result<Source, GivenFault> {
    let beside = path_beside(rt.alloc(), path, &file.name)?;
    match read_file(rt, &beside) {
        Ok(users) => with_users(text, file, &users),
        Err(FileFault::TooLong) => Err(GivenFault::Users {
            path: file.name,
            fault: UsersFault::TooLong,
        }),
        Err(why) => Err(GivenFault::of_file(rt.alloc(), GivenFile::Users, &beside, why)),
    }
}

fn with_users(text: Vec<u8>, file: UsersFile, users: &[u8]) -> Result<Source, GivenFault> {
    if let Some(fault) = misfit(&text, users) {
        return Err(GivenFault::Users {
            path: file.name,
            fault,
        });
    }
    match Source::joined(text, file, users) {
        Ok(source) => Ok(source),
        Err(_) => Err(GivenFault::NoMemory),
    }
}

// All that a file has.
fn read_file<R: Files + AllocGlobal>(rt: &R, path: &str) -> Result<Vec<u8>, FileFault> {
    let mut reader = NotingReader::of(fs::open(rt, path)?);
    match read_text(rt.alloc(), &mut reader) {
        Ok(text) => Ok(text),
        Err(InputFault::NoMemory) => Err(FileFault::NoMemory),
        Err(InputFault::TooLong) => Err(FileFault::TooLong),
        Err(InputFault::Read) => {
            let unknown = io::Error::from(io::ErrorKind::Other);
            Err(FileFault::System(reader.failure.unwrap_or(unknown)))
        }
    }
}

/// The seed that a file has.
///
/// `Unreadable`: it can't be read, or doesn't have exactly 32 octets.
pub(crate) fn open_seed<R: Files + AllocGlobal>(
    rt: &R,
    path: &str,
) -> Result<[u8; SEED_SIZE], GivenFault> {
    match seed_in(rt, path) {
        Ok(seed) => Ok(seed),
        Err(why) => Err(GivenFault::of_file(rt.alloc(), GivenFile::Seed, path, why)),
    }
}

fn seed_in<R: Files>(rt: &R, path: &str) -> Result<[u8; SEED_SIZE], FileFault> {
    let mut reader = NotingReader::of(fs::open(rt, path)?);
    if let Some(seed) = read_seed(&mut reader) {
        return Ok(seed);
    }
    match reader.failure {
        Some(error) => Err(FileFault::System(error)),
        None => Err(other_size(rt, path, reader.octets)),
    }
}

// What is wrong with the size of a file that gave so many octets, and no seed.
fn other_size<R: Files>(rt: &R, path: &str, octets: u64) -> FileFault {
    if octets < SEED_SIZE as u64 {
        return FileFault::SeedSize(octets);
    }
    match fs::metadata(rt, path) {
        Ok(metadata) if metadata.len() > SEED_SIZE as u64 => FileFault::SeedSize(metadata.len()),
        _ => FileFault::SeedTooLong,
    }
}

// The seed of a reader that has one, and nothing after it.
fn read_seed<R: Read>(reader: &mut R) -> Option<[u8; SEED_SIZE]>
    ensures read { IfSome result (λ seed.
        Consumes (R.remaining reader.old) (R.remaining reader.new) seed) }
    ensures end { OnSome result (IsAtEnd (R.remaining reader.new)) }
{
    let mut seed = [0; SEED_SIZE];
    reader.read_exact(&mut seed).ok()?;
    match reader.read(&mut [0]) {
        Ok(0) => Some(seed),
        _ => None,
    }
}

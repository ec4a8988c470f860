//! Whether a process was given its sockets at its start, as its environment tells (sd_listen_fds(3)).

use rad_serve::HeldFault;
use rad_text::decimal;
use std::env::FillError;
use std::process::{self, Process};
use std::rt::Env;

/// The most digits of a number of 32 bits.
const DIGITS_MAX: usize = 10;

/// How many sockets are wanted.
const SOCKETS: u64 = 2;

/// Whether the process was given the two sockets. Variables that are for another process, or for none, tell of nothing.
///
/// `Count`: it was given another number of descriptors.
pub fn are_held<R: Env>(rt: &R, process: Process) -> Result<bool, HeldFault> {
    if number_of(rt, "LISTEN_PID") != Some(u64::from(process::id(process))) {
        return Ok(false);
    }
    match number_of(rt, "LISTEN_FDS") {
        None => Ok(false),
        Some(SOCKETS) => Ok(true),
        Some(_) => Err(HeldFault::Count),
    }
}

// The number that a variable spells, or 0 if it spells none, where there is such a variable.
fn number_of<R: Env>(rt: &R, name: &str) -> Option<u64> {
    let mut text = [0; DIGITS_MAX];
    let len = match rt.var(name, &mut text) {
        Ok(len) => len,
        Err(FillError::NotPresent) => return None,
        Err(FillError::TooLong) => 0,
    };
    let number = decimal::number(&text[..len], DIGITS_MAX, u64::from(u32::MAX));
    Some(number.unwrap_or(0))
}

//! Reading a configuration, and finding its users: `bench/config.c`.

use rad_config::Config;
use std::alloc::Global;

fn read(alloc: Global, text: &[u8]) -> Option<Config> {
    Config::read(alloc, std::str::from_utf8(text).ok()?).ok()
}

/// Reads a text, and returns how many users it names; 0 if it has a fault.
#[unsafe(no_mangle)]
pub extern "C" fn radpool_read(alloc: Global, text: &[u8]) -> usize {
    match read(alloc, text) {
        Some(config) => config.users().len(),
        None => 0,
    }
}

/// Reads a text, looks up each of its users by name as often as asked, and returns how many were found.
#[unsafe(no_mangle)]
pub extern "C" fn radpool_find(alloc: Global, text: &[u8], rounds: u32) -> usize {
    let Some(config) = read(alloc, text) else {
        return 0;
    };
    let mut found: usize = 0;
    for _ in 0..rounds {
        for user in config.users() {
            if config.user(user.name.octets()).is_some() {
                found = found.wrapping_add(1);
            }
        }
    }
    found
}

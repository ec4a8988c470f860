//! What a round costs. `bench/run round` runs this with the word `round`, and it prints its table. Without a word, as in the gate,
//! it does nothing.
#![tactic(auto)]

mod alone;
mod datagrams;
mod lots;
mod messages;
mod pairs;
mod round_config;
mod round_tables;

use std::alloc::Global;
use std::env;
use std::process::ExitCode;
use std::rt::Env;
use std::sync::Wait;
use std::thread::Threads;
use std::time::Clock;

fn main(rt: HostRuntime) -> ExitCode {
    let printed = if has_word(&rt) {
        print_round(&rt, rt.alloc())
    } else {
        Some(())
    };
    match printed {
        Some(()) => ExitCode::SUCCESS,
        None => ExitCode::FAILURE,
    }
}

// Measures and prints. What is alive at a `?` is dropped there, and each such drop is proved: so in what this calls a function of
// its own makes each big value, and lends it to the next.
fn print_round<R: Threads + Wait + Sync + Clock + Print>(rt: &R, alloc: Global) -> Option<()> {
    let config = round_config::read_config(alloc)?;
    round_tables::print_table(rt, alloc, &config)
}

// Whether the first word is `round`.
fn has_word<R: Env + AllocGlobal>(rt: &R) -> bool {
    let Ok(mut words) = env::args(rt) else {
        return false;
    };
    words.next();
    match words.next() {
        Some(word) => word.as_str() == "round",
        None => false,
    }
}

//! What may be done about a state that isn't gone on from. Nothing of it is done here.
ghost use Rattle.sqlite_trees.specs.View.{IsClean};
ghost use Rattle.rad_state.specs.Stores.{IsOpened};

use crate::fault::{Fault, StateFault};
use crate::generation_names::{file_of, log_of, name_of};
use crate::listed::Listed;
use crate::state_files::copy_store;
use rad_serve::ServeError;
use rad_state::{OpenFault, State};
use rad_watch::Utc;
use sqlite_trees::store::Store;
use std::alloc::{AllocError, Global};

/// The fault with a line on what may be done, if there is something to say and memory for it.
pub fn advise(host: &HostRuntime, listed: &Listed, fault: Fault) -> Fault {
    match fault {
        Fault::State { path, fault, .. } => {
            let advice = advice_on(host, listed, &path, fault);
            Fault::State {
                path,
                fault,
                advice,
            }
        }
        other => other,
    }
}

// The line on a fault at a file.
fn advice_on(host: &HostRuntime, listed: &Listed, path: &str, fault: StateFault) -> Option<String> {
    let newest = listed.numbers.newest()?;
    if listed.file(host.alloc(), newest).ok()?.as_str() != path {
        return None;
    }
    if let StateFault::Serve(ServeError::State(OpenFault::OtherRules)) = fault {
        return closing(host.alloc(), &listed.path).ok();
    }
    if !fault.is_of_generation() {
        return None;
    }
    let before = listed.numbers.before(newest)?;
    going_back(host, &listed.path, newest, before)
}

fn closing(alloc: Global, folder: &str) -> Result<String, AllocError> {
    format!(in alloc;
        "the program that kept it has to close it, since entries are answered again by the rules under which they were kept: radpool state close {folder}"
    )
}

// Only a generation that can be read is one to go back to.
fn going_back(host: &HostRuntime, folder: &str, newest: u32, before: u32) -> Option<String> {
    let alloc = host.alloc();
    let path = file_of(alloc, folder, before).ok()?;
    let end = Utc(end_of(host, &path)?);
    let newest = name_of(alloc, newest).ok()?;
    let log = log_of(alloc, &newest).ok()?;
    format!(in alloc;
        "{path} is the one before and ends at {end}: to go on from it, move {newest} and {log} away; all that was kept since would be lost"
    ).ok()
}

// The time at which a generation ends, in milliseconds since 1970, if a copy of it can be read.
fn end_of(host: &HostRuntime, path: &str) -> Option<u64> {
    match copy_store(host, path) {
        Ok(store) => last_time(host.alloc(), store),
        Err(_) => None,
    }
}

// The time of a store's last entry, or of the beginning of its generation where there is none.
fn last_time<S: Store + Drop>(alloc: Global, store: S) -> Option<u64>
    requires { IsClean (S.view store) → IsOpened (S.view store) }
{
    let state = State::open(alloc, store).ok()?;
    match state.last() {
        Some(last) => Some(last.wall),
        None => u64::try_from(state.found()?.wall).ok(),
    }
}

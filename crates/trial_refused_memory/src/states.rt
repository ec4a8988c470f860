//! Calls of `rad_state` on a store in memory.
ghost use Rattle.std.specs.Prelude.{◌≡◌, Ok};
ghost use Rattle.sqlite_trees.specs.View.{IsClean};
ghost use Rattle.rad_config.specs.Configurations.{configuration_of_octets};
ghost use Rattle.rad_state.specs.Stores.{IsBlank, IsOpened};

use crate::generations::{try_begin, try_start};
use crate::stores::{LAST_MOMENT, WALL, blank, state_with};
use crate::trial::{HASH_KEY, Time, Verdict, begin, end, judge_anew};
use crate::written::{Written, are_parts, has_generation, is_meta, judge_ended};
use rad_config::{Config, read_configuration};
use rad_state::{Last, Meta, OpenFault, State, read_last, write_generation};
use sqlite_trees::store::Store;
use std::alloc::Global;
use test_common::CAMPUS;

#[derive(Clone, Copy)]
pub(crate) enum Call {
    Check,
    Write,
    ReadLast,
    Open,
    IntoParts,
    Start,
    Begin,
}

pub(crate) fn judge_call(alloc: Global, call: Call) -> Verdict {
    judge_under(alloc, CAMPUS.as_bytes(), call)
}

fn judge_under(alloc: Global, text: &[u8], call: Call) -> Verdict {
    match read_configuration(alloc, text) {
        Ok(config) => judge_over(alloc, text, &config, call),
        Err(_) => Verdict::Unready,
    }
}

fn judge_over(alloc: Global, text: &[u8], config: &Config, call: Call) -> Verdict
    requires { configuration_of_octets text.now ≡ Ok config.now }
{
    match Written::ready(alloc, text, config) {
        Some(written) => judge_with(alloc, &written, call),
        None => Verdict::Unready,
    }
}

fn judge_with(alloc: Global, written: &Written, call: Call) -> Verdict {
    match call {
        Call::Check => judge_check(alloc, &written.meta),
        Call::Write => judge_anew(|time| try_write(alloc, written, time)),
        Call::Start => judge_anew(|time| try_start(alloc, written, time)),
        Call::Begin => judge_anew(|time| try_begin(alloc, written, time)),
        _ => judge_anew(|time| try_on_state(alloc, written, call, time)),
    }
}

fn judge_check(alloc: Global, meta: &Meta) -> Verdict {
    begin(alloc);
    let checked = meta.check(true);
    end(alloc);
    Verdict::of(checked.is_ok())
}

// A generation is written into a new store.
fn try_write(alloc: Global, written: &Written, time: Time) -> Verdict {
    match blank(alloc) {
        Ok(store) => judge_ended(write(alloc, store, written, time)),
        Err(_) => Verdict::Unready,
    }
}

// Whether it is in the store then, with no entry.
fn write<S: Store + Drop>(
    alloc: Global,
    mut store: S,
    written: &Written,
    time: Time,
) -> Result<bool, OpenFault>
    requires { IsClean (S.view store) → IsBlank (S.view store) }
{
    time.begin(alloc);
    let ended = write_generation(alloc, &mut store, &written.meta, &written.server);
    time.end(alloc);
    ended?;
    has_generation(alloc, store, written, &[])
}

// A call on the store of a generation, which it uses up.
fn try_on_state(alloc: Global, written: &Written, call: Call, time: Time) -> Verdict {
    match state_with(alloc, &written.server, &written.kept) {
        Some(store) => judge_ended(call_on(alloc, store, written, call, time)),
        None => Verdict::Unready,
    }
}

fn call_on<S: Store + Drop>(
    alloc: Global,
    store: S,
    written: &Written,
    call: Call,
    time: Time,
) -> Result<bool, OpenFault>
    requires { IsClean (S.view store) → IsOpened (S.view store) }
{
    match call {
        Call::ReadLast => read_times(alloc, store, time),
        Call::IntoParts => part(alloc, store, written, time),
        _ => open(alloc, store, &written.meta, time),
    }
}

// Whether the times of the last entry are read.
fn read_times<S: Store + Drop>(alloc: Global, mut store: S, time: Time) -> Result<bool, OpenFault>
    requires { IsClean (S.view store) → IsOpened (S.view store) }
{
    time.begin(alloc);
    let last = read_last(alloc, &mut store);
    time.end(alloc);
    Ok(is_last(last?))
}

fn is_last(last: Option<Last>) -> bool {
    match last {
        Some(last) => last.wall == WALL && last.moment == LAST_MOMENT,
        None => false,
    }
}

// Whether the state is opened with this meta and those times.
fn open<S: Store + Drop>(
    alloc: Global,
    store: S,
    meta: &Meta,
    time: Time,
) -> Result<bool, OpenFault>
    requires { IsClean (S.view store) → IsOpened (S.view store) }
{
    time.begin(alloc);
    let state = State::open(alloc, store);
    time.end(alloc);
    let state = state?;
    Ok(is_meta(state.found(), meta) && is_last(state.last()))
}

// Whether the state has the server at which the generation begins, and its entries.
fn part<S: Store + Drop>(
    alloc: Global,
    store: S,
    written: &Written,
    time: Time,
) -> Result<bool, OpenFault>
    requires { IsClean (S.view store) → IsOpened (S.view store) }
{
    let state = State::open(alloc, store)?;
    time.begin(alloc);
    let parts = state.into_parts(alloc, written.server.config(), HASH_KEY);
    time.end(alloc);
    let (server, mut journal) = parts?;
    Ok(are_parts(alloc, &server, &mut journal, &written.server, &written.kept))
}

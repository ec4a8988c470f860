//! The table of rounds. What a line compares takes turns, so that what else the machine does for a while disturbs none of it alone.

use crate::lots::{Load, Lot, Size};
use crate::pairs::{Alone, Pair, Way};
use rad_config::Config;
use rad_shell::Service;
use std::alloc::Global;
use std::num::nearest_u64_to_f64;
use std::sync::Wait;
use std::thread::Threads;
use std::time::Clock;

// How often the ways are gone through with one pair, there and back.
const TURNS: u32 = 10;

// How many pairs are measured for a line.
const SMALL_PAIRS: u32 = 10;

const FULL_PAIRS: u32 = 2;

const SIZES: [Size; 2] = [Size::Small, Size::Full];

const LOADS: [Load; 2] = [Load::Accounting, Load::Access];

const COUNTS: [u16; 6] = [1, 8, 64, 128, 256, 512];

const WAYS: [Way; 4] = [
    Way::Alone,
    Way::Workers(1),
    Way::Workers(2),
    Way::Workers(4),
];

/// The least nanoseconds of each way.
type Best = [u64; 4];

/// Measures and prints; none if memory is refused, a reply is missing, or the clock or the printing fails.
pub(crate) fn print_table<R: Threads + Wait + Sync + Clock + Print>(
    rt: &R,
    alloc: Global,
    config: &Config,
) -> Option<()> {
    println!(rt;
        "| requests | rows | datagrams | one thread µs | one worker µs | two workers µs | four workers µs \
        | one worker to one thread | two | four | four workers to one |"
    )
    .ok()?;
    println!(rt; "|---|---|---|---|---|---|---|---|---|---|---|").ok()?;
    for size in SIZES.iter() {
        print_size(rt, alloc, config, *size)?;
    }
    Some(())
}

fn print_size<R: Threads + Wait + Sync + Clock + Print>(
    rt: &R,
    alloc: Global,
    config: &Config,
    size: Size,
) -> Option<()> {
    for load in LOADS.iter() {
        print_lines(rt, alloc, config, size, *load)?;
    }
    Some(())
}

fn print_lines<R: Threads + Wait + Sync + Clock + Print>(
    rt: &R,
    alloc: Global,
    config: &Config,
    size: Size,
    load: Load,
) -> Option<()> {
    for count in COUNTS.iter() {
        let lot = Lot {
            size,
            load,
            count: *count,
        };
        let best = measure(rt, alloc, config, lot)?;
        print_line(rt, lot, best)?;
    }
    Some(())
}

fn measure<R: Threads + Wait + Sync + Clock>(
    rt: &R,
    alloc: Global,
    config: &Config,
    lot: Lot,
) -> Option<Best> {
    let pairs = match lot.size {
        Size::Small => SMALL_PAIRS,
        Size::Full => FULL_PAIRS,
    };
    let mut best = [u64::MAX; 4];
    for _ in 0..pairs {
        best = measure_pair(rt, alloc, config, lot, best)?;
    }
    Some(best)
}

fn measure_pair<R: Threads + Wait + Sync + Clock>(
    rt: &R,
    alloc: Global,
    config: &Config,
    lot: Lot,
    best: Best,
) -> Option<Best> {
    let mut service = Service::open(alloc, config).ok()?;
    measure_service(rt, alloc, &mut service, lot, best)
}

fn measure_service<R: Threads + Wait + Sync + Clock>(
    rt: &R,
    alloc: Global,
    service: &mut Service,
    lot: Lot,
    best: Best,
) -> Option<Best> {
    let mut alone = Alone::open(alloc, service.server().config())?;
    let mut pair = Pair::new(alloc, service, &mut alone);
    tries(rt, &mut pair, lot, best)
}

fn tries<R: Threads + Wait + Sync + Clock>(
    rt: &R,
    pair: &mut Pair,
    lot: Lot,
    best: Best,
) -> Option<Best> {
    pair.fill(rt, lot)?;
    let mut best = best;
    for _ in 0..TURNS {
        better(rt, pair, lot, &mut best)?;
    }
    Some(best)
}

// Two tries of each way, there and back: so each comes once with its tables in the caches, after a try with the same tables.
fn better<R: Threads + Wait + Sync + Clock>(
    rt: &R,
    pair: &mut Pair,
    lot: Lot,
    best: &mut Best,
) -> Option<()> {
    for way in 0..WAYS.len() {
        best[way] = best[way].min(pair.time(rt, lot, WAYS[way])?);
    }
    for way in (0..WAYS.len()).rev() {
        best[way] = best[way].min(pair.time(rt, lot, WAYS[way])?);
    }
    Some(())
}

fn print_line<R: Print>(rt: &R, lot: Lot, best: Best) -> Option<()> {
    let name = lot.load.name();
    let rows = lot.size.rows();
    let Lot { count, .. } = lot;
    let alone = microseconds(best[0], lot);
    let one = microseconds(best[1], lot);
    let two = microseconds(best[2], lot);
    let four = microseconds(best[3], lot);
    print!(rt; "| {name} | {rows} | {count} | {alone:.2} | {one:.2} | {two:.2} | {four:.2} ").ok()?;
    let by_one = one / alone;
    let by_two = two / alone;
    let by_four = four / alone;
    let gain = four / one;
    println!(rt; "| {by_one:.2} | {by_two:.2} | {by_four:.2} | {gain:.2} |").ok()
}

// Of one round.
fn microseconds(spent: u64, lot: Lot) -> f64 {
    nearest_u64_to_f64(spent) / (1_000.0 * f64::from(lot.rounds()))
}

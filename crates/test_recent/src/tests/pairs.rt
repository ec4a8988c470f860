//! Random calls to kept replies and challenges, and to plain lists of them.
ghost use Rattle.std.specs.Prelude.{◌≤◌};
ghost use Rattle.rad_config.specs.Spans.{moment_max};

use super::challenge_pair::ChallengePair;
use super::reply_pair::ReplyPair;
use crate::tests::holds;
use rad_config::Config;
use std::alloc::Global;
use test_common::{CAMPUS, next_draw};

/// How many replies are kept at first, keys there are, and calls are made: few replies, and as many as there may be.
const REPLY_RUNS: [(u64, u64, u64); 2] = [(0, 300, 6_000), (65_530, 131_072, 800)];

/// No random call comes before this moment.
const START: u64 = 20_000;

/// How many milliseconds pass from call to call: few challenges, and at last as many as there may be.
const CHALLENGE_RUNS: [u64; 2] = [500, 20];

// Moments rise in the mean, but not from call to call.
fn moment(call: u64, pace: u64, draw: u64) -> u64
    ensures { result ≤ moment_max }
{
    START + call.saturating_mul(pace).saturating_add((draw >> 56) * 8) % 10_000_000
}

// Whether so many random calls answer as on a plain list, also where an allocation is refused, and the table is then rebuilt.
fn replies_agree(alloc: Global, filled: u64, keys: u64, calls: u64) -> bool {
    match Config::read(alloc, CAMPUS) {
        Ok(config) => replies_agree_under(alloc, &config, filled, keys, calls),
        Err(_) => false,
    }
}

fn replies_agree_under(alloc: Global, config: &Config, filled: u64, keys: u64, calls: u64) -> bool {
    match ReplyPair::open(alloc, config) {
        Some(mut pair) => {
            replies_agree_in(&mut pair, filled, keys, calls) && pair.is_rebuilt(alloc, config)
        }
        None => false,
    }
}

fn replies_agree_in(pair: &mut ReplyPair, filled: u64, keys: u64, calls: u64) -> bool {
    if !pair.fill(filled) {
        return false;
    }
    let mut draw = keys;
    for call in 0..calls {
        draw = next_draw(draw);
        let now = moment(call, 50, draw);
        let agree = pair.call(draw >> 16, keys, now);
        if !agree || call % 32 == 0 && !pair.has_same_rows() {
            return false;
        }
    }
    pair.has_same_rows()
}

// The same of challenges.
fn challenges_agree(alloc: Global, pace: u64, calls: u64) -> bool {
    match Config::read(alloc, CAMPUS) {
        Ok(config) => challenges_agree_under(alloc, &config, pace, calls),
        Err(_) => false,
    }
}

fn challenges_agree_under(alloc: Global, config: &Config, pace: u64, calls: u64) -> bool {
    match ChallengePair::open(alloc, config) {
        Some(mut pair) => {
            challenges_agree_in(&mut pair, pace, calls) && pair.is_rebuilt(alloc, config)
        }
        None => false,
    }
}

fn challenges_agree_in(pair: &mut ChallengePair, pace: u64, calls: u64) -> bool {
    let mut draw = pace;
    for call in 0..calls {
        draw = next_draw(draw);
        let agree = pair.call(draw >> 16, moment(call, pace, draw));
        if !agree || call % 32 == 0 && !pair.has_same_rows() {
            return false;
        }
    }
    pair.has_same_rows()
}

#[test]
fn replies_do_what_a_plain_list_does(rt: HostRuntime) {
    for run in REPLY_RUNS.iter() {
        let (filled, keys, calls) = *run;
        holds(
            &rt,
            replies_agree(rt.alloc(), filled, keys, calls),
            "each call answers as on a plain list",
        );
    }
}

#[test]
fn challenges_do_what_a_plain_list_does(rt: HostRuntime) {
    for pace in CHALLENGE_RUNS.iter() {
        holds(
            &rt,
            challenges_agree(rt.alloc(), *pace, 6_000),
            "each call answers as on a plain list",
        );
    }
}

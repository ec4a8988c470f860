//! Random calls to sessions and to a plain list of them.
ghost use Rattle.std.specs.Prelude.{◌≤◌};
ghost use Rattle.rad_config.specs.Spans.{moment_max};

use super::pair::Pair;
use crate::tests::holds;
use rad_config::Config;
use std::alloc::Global;
use test_common::next_draw;

/// A pool of few addresses and one of many, and users with few sessions and with many.
pub const TABLE: &str = r#"
[[client]]
address = "192.168.1.16"
secret = "xyzzy5461"

[[client]]
address = "192.168.1.20"
secret = "second"

[[pool]]
name = "few"
first = "10.0.0.1"
last = "10.0.0.9"

[[pool]]
name = "many"
first = "10.0.0.64"
last = "10.0.1.63"

[[user]]
name = "nemo"
password = "arctangent"
pool = "few"
sessions = 3

[[user]]
name = "dory"
password = "reef"
pool = "few"
sessions = 9

[[user]]
name = "bruce"
password = "shark"
pool = "many"
sessions = 400

[[user]]
name = "marlin"
password = "clown"
pool = "many"
sessions = 20

[[user]]
name = "hank"
password = "p"
sessions = 200
"#;

/// A configuration that the table wasn't opened with: other pools in other places, and one user more.
const OTHER: &str = r#"
[[client]]
address = "192.168.1.16"
secret = "xyzzy5461"

[[pool]]
name = "some"
first = "10.0.0.64"
last = "10.0.0.95"

[[pool]]
name = "many"
first = "10.0.0.128"
last = "10.0.1.127"

[[pool]]
name = "few"
first = "10.0.0.4"
last = "10.0.0.12"

[[user]]
name = "nemo"
password = "arctangent"
pool = "few"
sessions = 4

[[user]]
name = "dory"
password = "reef"
pool = "many"
sessions = 9

[[user]]
name = "bruce"
password = "shark"
sessions = 4

[[user]]
name = "marlin"
password = "clown"
pool = "few"
sessions = 2

[[user]]
name = "hank"
password = "p"
pool = "many"
sessions = 200

[[user]]
name = "destiny"
password = "whale"
pool = "few"
sessions = 2
"#;

/// What the table's text begins with, and that of the other configuration.
const HEADS: [(&str, &str); 2] = [("", "stale = 40\n"), ("stale = 40\n", "")];

/// How many milliseconds pass from call to call: many sessions, some, and few.
const PACES: [u64; 3] = [50, 400, 4_000];

// Moments rise in the mean, but not from call to call.
fn moment(call: u64, pace: u64, draw: u64) -> u64
    ensures { result ≤ moment_max }
{
    call.saturating_mul(pace).saturating_add((draw >> 54) * 8) % 100_000_000
}

// The configuration of a text with this head.
fn read(alloc: Global, head: &str, rest: &str) -> Option<Config> {
    let text = format!(in alloc; "{head}{rest}").ok()?;
    Config::read(alloc, &text).ok()
}

// Whether so many random calls answer as on a plain list, also where an allocation is refused.
fn agree_for(alloc: Global, heads: (&str, &str), pace: u64, calls: u64) -> Option<bool> {
    let config = read(alloc, heads.0, TABLE)?;
    agree_beside(alloc, &config, heads.1, pace, calls)
}

fn agree_beside(alloc: Global, config: &Config, head: &str, pace: u64, calls: u64) -> Option<bool> {
    let other = read(alloc, head, OTHER)?;
    agree_between(alloc, config, &other, pace, calls)
}

fn agree_between(
    alloc: Global,
    config: &Config,
    other: &Config,
    pace: u64,
    calls: u64,
) -> Option<bool> {
    let mut pair = Pair::open(alloc, config)?;
    Some(agree(&mut pair, config, other, pace, calls))
}

fn agree_at_each_pace(alloc: Global, heads: (&str, &str)) -> bool {
    PACES
        .iter()
        .all(|pace| agree_for(alloc, heads, *pace, 2_000) == Some(true))
}

fn agree(pair: &mut Pair, config: &Config, other: &Config, pace: u64, calls: u64) -> bool {
    let mut draw = pace;
    for call in 0..calls {
        draw = next_draw(draw);
        if !agrees(pair, config, other, draw, moment(call, pace, draw)) {
            return false;
        }
    }
    true
}

// One call in eight is made with the other configuration.
fn agrees(pair: &mut Pair, config: &Config, other: &Config, draw: u64, now: u64) -> bool
    requires { now ≤ moment_max }
{
    if draw >> 61 == 0 {
        pair.call(other, draw >> 16, now)
    } else {
        pair.call(config, draw >> 16, now)
    }
}

#[test]
fn sessions_do_what_a_plain_list_does(rt: HostRuntime) {
    for heads in HEADS.iter() {
        holds(
            &rt,
            agree_at_each_pace(rt.alloc(), *heads),
            "each call answers as on a plain list",
        );
    }
}

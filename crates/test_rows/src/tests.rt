//! Rows beside a plain list of them, over random calls.
ghost use Rattle.std.specs.Prelude.{◌≤◌};

mod entry;
mod pair;

use pair::Pair;
use std::alloc::Global;
use std::process::Abort;
use test_common::next_draw;

// Asserts once, of `what`.
fn holds(rt: &impl Abort, is_so: bool, what: &str) {
    assert!(rt; is_so, "{what}");
}

/// The mean number of rows, and so whether they stand in one block or in many, goes with how long rows live.
const SPANS: [u64; 3] = [20, 200, 2_000];

#[test]
fn rows_do_what_a_plain_list_does(rt: HostRuntime) {
    for span in SPANS.iter() {
        holds(
            &rt,
            agree_for(rt.alloc(), *span, 8, 4_000),
            "each call answers as on a plain list",
        );
    }
}

#[test]
fn rows_in_two_groups_of_blocks_do_what_a_plain_list_does(rt: HostRuntime) {
    holds(
        &rt,
        agree_for(rt.alloc(), 18_000, 20_000, 14_000),
        "each call answers as on a plain list, also where rows of any age go",
    );
}

// Whether so many random calls answer on rows as on a plain list, also where an allocation is refused. A row lives for `span`, and
// the moments of neighbouring calls lie up to `spread` apart.
fn agree_for(alloc: Global, span: u64, spread: u64, calls: u64) -> bool
    requires { 1 ≤ spread }
{
    let mut pair = Pair::open(alloc, span);
    let mut draw = span;
    for call in 0..calls {
        draw = next_draw(draw);
        // Moments rise in the mean, but not from call to call.
        let now = (call / 2 + (draw >> 32) % spread) % 100_000;
        if !pair.call(draw >> 40, now) {
            return false;
        }
    }
    true
}

//! Batches that are claimed from one thread and from two, and faults as they are printed.
mod one_thread;
mod texts;
mod two_threads;

ghost use Rattle.std.specs.Prelude.{◌≤◌};
ghost use Rattle.rad_claim.specs.Claims.{IsSeatOf};

use rad_claim::{ClaimSeat, Claims};
use std::alloc::{AllocError, Global};
use std::process::Abort;

// Asserts once, of `what`.
fn holds(rt: &impl Abort, is_so: bool, what: &str) {
    assert!(rt; is_so, "{what}");
}

/// Claims with two seats.
struct Two {
    claims: Claims,
    first: ClaimSeat,
    second: ClaimSeat,
    ghost of_first: { IsSeatOf claims first },
    ghost of_second: { IsSeatOf claims second },
}

fn open_two(alloc: Global, batches: u64) -> Result<Two, AllocError>
    requires { batches ≤ 8192 }
{
    let (claims, mut seats) = Claims::open(alloc, batches, 2)?;
    let first = seats.remove(0);
    let second = seats.remove(0);
    Ok(Two {
        claims,
        first,
        second,
    })
}

//! Two threads that claim at once.
ghost use Rattle.std.specs.Prelude.{◌≡◌, true};
ghost use Rattle.rad_claim.specs.Claims.{IsSeatOf, has_finished};

use super::{Two, open_two};
use crate::tests::holds;
use rad_claim::{BATCHES_MAX, ClaimSeat, Claims};
use std::test::Fail;
use std::thread::{Threads, join};

// Claims until there are no more batches.
fn claim_all(claims: &Claims, mut seat: ClaimSeat) -> ClaimSeat
    requires { IsSeatOf claims.now seat }
    ensures seat { IsSeatOf claims.now result }
    ensures finished { has_finished result ≡ true }
{
    loop {
        let (batch, next) = claims.claim(seat);
        seat = next;
        if batch.is_none() {
            return seat;
        }
    }
}

// The same with two seats at once.
fn claim_by_two<R: Threads>(
    rt: &R,
    claims: &Claims,
    first: ClaimSeat,
    second: ClaimSeat,
) -> (ClaimSeat, ClaimSeat)
    requires first { IsSeatOf claims.now first }
    requires second { IsSeatOf claims.now second }
    ensures first { IsSeatOf claims.now result.0 }
    ensures second { IsSeatOf claims.now result.1 }
{
    join(
        rt,
        move || -> ClaimSeat
            requires { IsSeatOf claims.now first }
            ensures { IsSeatOf claims.entry.now result }
        { claim_all(claims, first) },
        move || -> ClaimSeat
            requires { IsSeatOf claims.now second }
            ensures { IsSeatOf claims.entry.now result }
        { claim_all(claims, second) },
    )
}

// Whether two rising lists have each number below a bound, once, and no other.
fn have_each_once(first: &[u64], second: &[u64], bound: u64) -> bool {
    let mut first = first.iter();
    let mut second = second.iter();
    let mut first_next = first.next();
    let mut second_next = second.next();
    for number in 0..bound {
        if first_next == Some(&number) {
            first_next = first.next();
        } else if second_next == Some(&number) {
            second_next = second.next();
        } else {
            return false;
        }
    }
    first_next.is_none() && second_next.is_none()
}

#[test]
fn two_threads_claim_each_batch_once(rt: HostRuntime) -> Result<(), Fail> {
    let Two {
        claims,
        first,
        second,
    } = open_two(rt.alloc(), BATCHES_MAX)?;
    let (first, second) = claim_by_two(&rt, &claims, first, second);
    let is_so = match claims.close(vec![in rt.alloc(); first, second]?) {
        Ok(lists) => lists.len() == 2
            && have_each_once(lists[0].as_slice(), lists[1].as_slice(), BATCHES_MAX),
        Err(_) => false,
    };
    holds(&rt, is_so, "each batch is in one of the two lists");
    Ok(())
}

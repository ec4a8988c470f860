//! Which answers are kept, and what is kept of them.
use super::holds;
use rad_auth::Door;
use rad_journal::Kept;
use rad_packet::{Body, Octets};
use rad_server::{Answer, Entry};
use std::alloc::{AllocError, Global};

// An entry at moment 6.
fn entry(alloc: Global, answer: Answer) -> Result<Entry, AllocError> {
    Ok(Entry {
        tag: 1,
        client: 9,
        source: 2,
        port: 3,
        door: Door::Acct,
        octets: Octets::of(alloc, &[4, 5])?,
        moment: 6,
        draw: [7; 16],
        answer,
        session: Some(10),
    })
}

// A reply with a Service-Type.
fn reply(alloc: Global) -> Result<Answer, AllocError> {
    let mut body = Body::new(alloc, 2);
    body.push(6, &[0, 0, 0, 2])?;
    Ok(Answer::Send(body))
}

// What is kept of an entry with an answer, at a clock of 5 and a wall time of 8.
fn kept(alloc: Global, answer: Answer) -> Result<Option<Kept>, AllocError> {
    let entry = entry(alloc, answer)?;
    Kept::of(alloc, 8, 5, &entry)
}

fn is_right(kept: &Kept) -> bool {
    kept.wall == 8
        && kept.moment == 6
        && kept.client == 9
        && kept.session == Some(10)
        && kept.octets.octets() == [4, 5].as_slice()
        && kept.answer.octets() == [2, 6, 6, 0, 0, 0, 2].as_slice()
}

fn keeps_a_reply(alloc: Global) -> Result<bool, AllocError> {
    let kept = kept(alloc, reply(alloc)?)?;
    Ok(kept.is_some_and(|kept| is_right(&kept)))
}

#[test]
fn a_reply_is_kept_and_busy_is_not(rt: HostRuntime) {
    let alloc = rt.alloc();
    holds(&rt, keeps_a_reply(alloc) == Ok(true), "a reply");
    let of_busy = kept(alloc, Answer::Busy);
    holds(&rt, matches!(of_busy, Ok(None)), "Busy");
}

//! Admission and sealing: `bench/admission.c`.
//!
//! Each export makes a lot of 64 requests from four clients and the bodies of their replies, and does its work over all
//! of them as many times as asked. Those that seal lay out the last replies, each in a slot of 128 octets. Each
//! returns how many requests were right, or how many replies were written; 0 if memory for the lot was refused.
//!
//! What `check8` and `seal8` do eight side by side is compared with the digests and HMACs alone of the same octets, made
//! one after the other by the toolchain's `md5`. A check finds the client's secret, reads the packet, makes its digest
//! (Accounting-Request) or its HMAC, and compares that with what is there. A seal writes the packet, then its HMAC,
//! then its digest. Nothing else of admission is done.
ghost use Rattle.std.specs.Prelude.{◌<◌};

pub(crate) mod bodies;
mod lot;

use crate::admission::bodies::Kind;
use crate::admission::lot::{GROUPS, Lot, SIZE, Verdicts};
use crate::plain;
use rad_auth::{Job, check8, seal8};
use rad_packet::{Frame, HEADER_SIZE, Packet, code, write};
use std::alloc::{AllocError, Global};
use std::array::try_from_fn;

// How many octets a reply has room for in `out`.
const SLOT: usize = 128;

const ZEROS: [u8; 16] = [0; 16];

// Where a packet's Authenticator begins.
const AUTHENTICATOR_AT: usize = 4;

// Where the HMAC is in a packet that has one: in its first attribute.
const HMAC_AT: usize = HEADER_SIZE + 2;

const HMAC_END: usize = HMAC_AT + 16;

fn check_in_lanes(alloc: Global, kind: u32, rounds: u32) -> Result<usize, AllocError> {
    let lot = Lot::new(alloc, Kind::of(kind))?;
    let mut admitted: usize = 0;
    for _ in 0..rounds {
        for group in 0..GROUPS {
            let verdicts = check8(&lot.clients, &lot.arrivals(group));
            admitted = admitted.wrapping_add(count_admitted(&verdicts));
        }
    }
    Ok(admitted)
}

fn count_admitted(verdicts: &Verdicts) -> usize {
    let mut admitted: usize = 0;
    for verdict in verdicts {
        if let Some(Ok(_)) = verdict {
            admitted = admitted.wrapping_add(1);
        }
    }
    admitted
}

fn seal_in_lanes(
    alloc: Global,
    kind: u32,
    rounds: u32,
    checks: bool,
    out: &mut [u8],
) -> Result<usize, AllocError> {
    let lot = Lot::new(alloc, Kind::of(kind))?;
    seal_lot_in_lanes(alloc, &lot, rounds, checks, out)
}

fn seal_lot_in_lanes(
    alloc: Global,
    lot: &Lot,
    rounds: u32,
    checks: bool,
    out: &mut [u8],
) -> Result<usize, AllocError> {
    let mut frames = empty_frames(alloc)?;
    let mut written: usize = 0;
    for round in 0..rounds {
        for group in 0..GROUPS {
            written = written.wrapping_add(seal_group(lot, group, checks, &mut frames));
            if round == rounds - 1 {
                lay_out_group(&frames, group, out);
            }
        }
    }
    Ok(written)
}

fn empty_frames(alloc: Global) -> Result<[Frame; 8], AllocError> {
    try_from_fn(|_| Frame::new(alloc))
}

// With checks the replies are made of the verdicts.
fn seal_group(lot: &Lot, group: usize, checks: bool, frames: &mut [Frame; 8]) -> usize
    requires { group < 8 }
{
    let jobs = if checks {
        lot.jobs_for(&check8(&lot.clients, &lot.arrivals(group)), group)
    } else {
        lot.jobs(group)
    };
    seal8(&jobs, frames);
    count_jobs(&jobs)
}

fn count_jobs(jobs: &[Option<Job>; 8]) -> usize {
    let mut count: usize = 0;
    for job in jobs {
        if job.is_some() {
            count = count.wrapping_add(1);
        }
    }
    count
}

fn lay_out_group(frames: &[Frame; 8], group: usize, out: &mut [u8])
    requires { group < 8 }
{
    for lane in 0..8 {
        lay_out(&frames[lane], 8 * group + lane, out);
    }
}

// Writes a reply into its slot, as far as there is room.
fn lay_out(frame: &Frame, place: usize, out: &mut [u8]) {
    let (slots, _) = out.as_chunks_mut::<SLOT>();
    if let Some(slot) = slots.get_mut(place) {
        let reply = frame.octets();
        let len = reply.len().min(SLOT);
        slot[..len].copy_from_slice(&reply[..len]);
    }
}

fn check_one_by_one(alloc: Global, kind: u32, rounds: u32) -> Result<usize, AllocError> {
    let lot = Lot::new(alloc, Kind::of(kind))?;
    let mut right: usize = 0;
    for _ in 0..rounds {
        for place in 0..SIZE {
            if is_right(lot.datagram(place), lot.secret(place)) {
                right = right.wrapping_add(1);
            }
        }
    }
    Ok(right)
}

// Whether the digest of an Accounting-Request, or the HMAC of another request, is the one that it has.
fn is_right(datagram: &[u8], secret: &[u8]) -> bool {
    let Ok(packet) = Packet::read(datagram) else {
        return false;
    };
    let octets = packet.octets();
    if octets.len() < HMAC_END {
        return false;
    }
    if packet.code() == code::ACCOUNTING_REQUEST {
        let (front, rest) = (&octets[..AUTHENTICATOR_AT], &octets[HEADER_SIZE..]);
        packet.authenticator() == plain::digest(&[front, &ZEROS, rest, secret])
    } else {
        let (front, rest) = (&octets[..HMAC_AT], &octets[HMAC_END..]);
        let mac = plain::hmac(secret, &[front, &ZEROS, rest]);
        mac.as_slice() == &octets[HMAC_AT..HMAC_END]
    }
}

// With checks a reply is written where its request is right.
fn seal_one_by_one(
    alloc: Global,
    kind: u32,
    rounds: u32,
    checks: bool,
    out: &mut [u8],
) -> Result<usize, AllocError> {
    let lot = Lot::new(alloc, Kind::of(kind))?;
    seal_lot_one_by_one(alloc, &lot, rounds, checks, out)
}

fn seal_lot_one_by_one(
    alloc: Global,
    lot: &Lot,
    rounds: u32,
    checks: bool,
    out: &mut [u8],
) -> Result<usize, AllocError> {
    let mut frame = Frame::new(alloc)?;
    let mut written: usize = 0;
    for round in 0..rounds {
        for place in 0..SIZE {
            let is_wanted = !checks || is_right(lot.datagram(place), lot.secret(place));
            if is_wanted && seal(&lot.job(place), &mut frame) {
                written = written.wrapping_add(1);
                if round == rounds - 1 {
                    lay_out(&frame, place, out);
                }
            }
        }
    }
    Ok(written)
}

// Writes a reply, whose body has zeros in its Message-Authenticator, and then its HMAC and its digest.
fn seal(job: &Option<Job>, frame: &mut Frame) -> bool {
    let Some(job) = job else {
        return false;
    };
    if write(job.body, job.id, &job.request_authenticator, frame).is_err() {
        return false;
    }
    let secret = job.secret.octets();
    if job.body.code() != code::ACCOUNTING_RESPONSE && frame.octets().len() >= HMAC_END {
        let mac = plain::hmac(secret, &[frame.octets()]);
        frame.overwrite(HMAC_AT, &mac);
    }
    if frame.octets().len() >= HEADER_SIZE {
        let digest = plain::digest(&[frame.octets(), secret]);
        frame.overwrite(AUTHENTICATOR_AT, &digest);
    }
    true
}

/// `check8` over eight requests after eight.
#[unsafe(no_mangle)]
pub extern "C" fn radpool_check(alloc: Global, kind: u32, rounds: u32, _out: &mut [u8]) -> usize {
    check_in_lanes(alloc, kind, rounds).unwrap_or(0)
}

/// `seal8` over the replies to eight requests after eight.
#[unsafe(no_mangle)]
pub extern "C" fn radpool_seal(alloc: Global, kind: u32, rounds: u32, out: &mut [u8]) -> usize {
    seal_in_lanes(alloc, kind, rounds, false, out).unwrap_or(0)
}

/// `check8` over eight requests after eight, each time with `seal8` over their replies.
#[unsafe(no_mangle)]
pub extern "C" fn radpool_both(alloc: Global, kind: u32, rounds: u32, out: &mut [u8]) -> usize {
    seal_in_lanes(alloc, kind, rounds, true, out).unwrap_or(0)
}

/// The digests or HMACs of one request after the other.
#[unsafe(no_mangle)]
pub extern "C" fn kit_check(alloc: Global, kind: u32, rounds: u32, _out: &mut [u8]) -> usize {
    check_one_by_one(alloc, kind, rounds).unwrap_or(0)
}

/// The HMACs and digests of one reply after the other.
#[unsafe(no_mangle)]
pub extern "C" fn kit_seal(alloc: Global, kind: u32, rounds: u32, out: &mut [u8]) -> usize {
    seal_one_by_one(alloc, kind, rounds, false, out).unwrap_or(0)
}

/// The digest or HMAC of one request after the other, each time with those of its reply.
#[unsafe(no_mangle)]
pub extern "C" fn kit_both(alloc: Global, kind: u32, rounds: u32, out: &mut [u8]) -> usize {
    seal_one_by_one(alloc, kind, rounds, true, out).unwrap_or(0)
}

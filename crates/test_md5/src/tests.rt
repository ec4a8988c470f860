//! The digests of RFC 1321, appendix A.5, and digests by the kit's own crate, one message at a time.
ghost use Rattle.std.specs.Prelude.{◌<◌, ◌≤◌, length};
ghost use Rattle.rad_md5.specs.Pieces.{message_limit};

use md5::{Digest, Md5};
use rad_md5::{DIGEST_LEN, Pieces, digest_each, digest8};
use std::alloc::{AllocError, Global};
use std::process::Abort;
use std::test::Fail;

// Each case asserts by one of these: `what` is so, or message i of so many has this digest, in the case `name`.
fn holds(rt: &impl Abort, it: bool, what: &str, name: &str) {
    assert!(rt; it, "{what}, {name}");
}

fn is_digest(
    rt: &impl Abort,
    digest: &[u8; DIGEST_LEN],
    want: &[u8; DIGEST_LEN],
    (i, count): (u8, u8),
    name: &str,
) {
    assert!(rt; digest == want, "message {i} of {count}, {name}");
}

// A message in slices of these lengths, as far as its octets reach. The fifth slice has the rest.
fn cut(octets: &[u8], lens: [usize; 4]) -> Pieces<'_>
    requires { length octets.now < message_limit }
{
    let [a, b, c, d] = lens;
    let (a, rest) = octets.split_at(a.min(octets.len()));
    let (b, rest) = rest.split_at(b.min(rest.len()));
    let (c, rest) = rest.split_at(c.min(rest.len()));
    let (d, rest) = rest.split_at(d.min(rest.len()));
    Pieces::of([a, b, c, d, rest])
}

// A message in one slice.
fn whole(octets: &[u8]) -> Pieces<'_>
    requires { length octets.now < message_limit }
{
    cut(octets, [0; 4])
}

// The digest of one message, in the third lane. The other lanes digest no octets.
fn digest(octets: &[u8]) -> [u8; DIGEST_LEN]
    requires { length octets.now < message_limit }
{
    let digests = digest8(&[
        whole(&[]),
        whole(&[]),
        cut(octets, [1, 0, 2, 7]),
        whole(&[]),
        whole(&[]),
        whole(&[]),
        whole(&[]),
        whole(&[]),
    ]);
    digests[2]
}

// A message of at most 80 octets with its middle octet's lowest bit turned. That of no octets gets an octet.
fn turned(octets: &[u8]) -> [u8; 80]
    requires { length octets.now ≤ 80 }
{
    let mut turned = [0; 80];
    turned[..octets.len()].copy_from_slice(octets);
    if let Some(octet) = turned.get_mut(octets.len() / 2) {
        *octet ^= 1;
    }
    turned
}

const DIGITS: &[u8; 80] =
    b"12345678901234567890123456789012345678901234567890123456789012345678901234567890";

const DIGEST_OF_DIGITS: [u8; 16] =
    *b"\x57\xed\xf4\xa2\x2b\xe3\xc9\x55\xac\x49\xda\x2e\x21\x07\xb6\x7a";

const DIGEST_OF_NOTHING: [u8; 16] =
    *b"\xd4\x1d\x8c\xd9\x8f\x00\xb2\x04\xe9\x80\x09\x98\xec\xf8\x42\x7e";

// A name, a message and its digest.
type Case = (&'static str, &'static [u8], [u8; 16]);

const CASES: [Case; 7] = [
    ("no octets", b"", DIGEST_OF_NOTHING),
    (
        "a",
        b"a",
        *b"\x0c\xc1\x75\xb9\xc0\xf1\xb6\xa8\x31\xc3\x99\xe2\x69\x77\x26\x61",
    ),
    (
        "abc",
        b"abc",
        *b"\x90\x01\x50\x98\x3c\xd2\x4f\xb0\xd6\x96\x3f\x7d\x28\xe1\x7f\x72",
    ),
    (
        "message digest",
        b"message digest",
        *b"\xf9\x6b\x69\x7d\x7c\xb7\x93\x8d\x52\x5a\x2f\x31\xaa\xf1\x61\xd0",
    ),
    (
        "the small letters",
        b"abcdefghijklmnopqrstuvwxyz",
        *b"\xc3\xfc\xd3\xd7\x61\x92\xe4\x00\x7d\xfb\x49\x6c\xca\x67\xe1\x3b",
    ),
    (
        "letters and digits",
        b"ABCDEFGHIJKLMNOPQRSTUVWXYZabcdefghijklmnopqrstuvwxyz0123456789",
        *b"\xd1\x74\xab\x98\xd2\x77\xd9\xf5\xa5\x61\x1c\x2c\x9f\x41\x9d\x9f",
    ),
    ("80 digits", DIGITS, DIGEST_OF_DIGITS),
];

// With its middle octet turned a message has another digest, which is that of its octets.
fn turned_has_another(rt: &impl Abort, octets: &[u8], want: &[u8; DIGEST_LEN], name: &str)
    requires { length octets.now ≤ 80 }
{
    let turned = turned(octets);
    let other = &turned[..octets.len().max(1)];
    let changed = digest(other);
    holds(rt, changed != *want, "a change is seen", name);
    holds(rt, changed == Md5::digest(other), "changed", name);
}

fn has_its_digest(rt: &impl Abort, (name, octets, want): Case) {
    assert!(rt; octets.len() <= 80, "{name}");
    holds(rt, digest(octets) == want, "the digest", name);
    turned_has_another(rt, octets, &want, name);
}

#[test]
fn messages_have_the_digests_of_the_rfc(rt: HostRuntime) {
    for case in CASES.iter() {
        has_its_digest(&rt, *case);
    }
}

// A name and the lengths of the first four slices.
const CUTS: [(&str, [usize; 4]); 6] = [
    ("in one slice", [0, 0, 0, 0]),
    ("in the first slice", [4096, 0, 0, 0]),
    ("in the third slice", [0, 0, 4096, 0]),
    ("after an octet", [1, 0, 1, 63]),
    ("round the ends of blocks", [55, 1, 8, 63]),
    ("at the ends of blocks", [64, 64, 0, 3712]),
];

// The messages begin alike, and octets that are a block apart differ.
fn text(alloc: Global) -> Result<Vec<u8>, AllocError> {
    let mut text = Vec::new(alloc);
    for place in 0..4096u16 {
        text.push((place % 251) as u8)?;
    }
    Ok(text)
}

// The octets of eight messages: they have 1, 1, 1, 2, 2, 2, 2 and 65 blocks.
const LENS: [u16; 8] = [0, 3, 55, 56, 64, 80, 119, 4096];

// The first octets, or all of them where there are fewer.
fn front(octets: &[u8], len: u16) -> &[u8]
    ensures { length result.now < message_limit }
{
    &octets[..octets.len().min(len as usize)]
}

fn are_digests_of(rt: &impl Abort, digests: &[[u8; DIGEST_LEN]; 8], text: &[u8], name: &str) {
    for lane in 0..8 {
        let want = Md5::digest(front(text, LENS[lane as usize]));
        is_digest(rt, &digests[lane as usize], &want, (lane, 8), name);
    }
}

fn are_digested_by_lane(rt: &impl Abort, text: &[u8], (name, at): (&str, [usize; 4])) {
    let digests = digest8(&[
        cut(front(text, LENS[0]), at),
        cut(front(text, LENS[1]), at),
        cut(front(text, LENS[2]), at),
        cut(front(text, LENS[3]), at),
        cut(front(text, LENS[4]), at),
        cut(front(text, LENS[5]), at),
        cut(front(text, LENS[6]), at),
        cut(front(text, LENS[7]), at),
    ]);
    are_digests_of(rt, &digests, text, name);
}

#[test]
fn each_lane_digests_its_own_message(rt: HostRuntime) -> Result<(), Fail> {
    let text = text(rt.alloc())?;
    holds(&rt, text.len() == 4096, "the size", "the text");
    for case in CUTS.iter() {
        are_digested_by_lane(&rt, &text, *case);
    }
    Ok(())
}

#[test]
fn a_lane_goes_on_after_the_others_have_ended(rt: HostRuntime) {
    let digits: &[u8] = DIGITS;
    let digests = digest8(&[
        whole(&[]),
        whole(&[]),
        whole(&[]),
        whole(&[]),
        whole(&[]),
        whole(&[]),
        whole(&[]),
        Pieces::of([
            &[],
            &digits[..1],
            &digits[1..64],
            &digits[64..65],
            &digits[65..],
        ]),
    ]);
    for lane in 0..7 {
        let ended = &digests[lane as usize];
        is_digest(&rt, ended, &DIGEST_OF_NOTHING, (lane, 8), "no octets");
    }
    is_digest(&rt, &digests[7], &DIGEST_OF_DIGITS, (7, 8), "80 digits");
}

// How many octets message i has: each one more than the one before, and in no order.
const LENGTHS: [(&str, u8, u8); 2] = [("rising", 1, 0), ("in no order", 53, 61)];

// The octets of message i.
fn octets_of(i: u8, factor: u8, first: u8) -> &'static [u8]
    ensures { length result.now < message_limit }
{
    front(
        &[0x61; 131],
        (i as u16 * factor as u16 + first as u16) % 131,
    )
}

fn messages_of(
    alloc: Global,
    count: u8,
    factor: u8,
    first: u8,
) -> Result<Vec<Pieces<'static>>, AllocError> {
    let mut messages = Vec::new(alloc);
    for i in 0..count {
        let octets = octets_of(i, factor, first);
        messages.push(cut(octets, [i as usize, 0, 1, i as usize % 7]))?;
    }
    Ok(messages)
}

fn digests_of(alloc: Global, messages: &[Pieces<'_>]) -> Result<Vec<[u8; DIGEST_LEN]>, AllocError> {
    let mut digests = Vec::from_elem(alloc, [0; DIGEST_LEN], messages.len())?;
    digest_each(messages, &mut digests);
    Ok(digests)
}

fn are_digested(
    rt: &impl Abort,
    alloc: Global,
    count: u8,
    (name, factor, first): (&str, u8, u8),
) -> Result<(), Fail> {
    let messages = messages_of(alloc, count, factor, first)?;
    let digests = digests_of(alloc, &messages)?;
    for (i, digest) in (0..count).zip(digests.iter()) {
        let want = Md5::digest(octets_of(i, factor, first));
        is_digest(rt, digest, &want, (i, count), name);
    }
    Ok(())
}

#[test]
fn any_number_of_messages_is_digested(rt: HostRuntime) -> Result<(), Fail> {
    for case in LENGTHS.iter() {
        for count in [0, 1, 8, 9, 16, 17, 64, 65, 130].iter() {
            are_digested(&rt, rt.alloc(), *count, *case)?;
        }
    }
    Ok(())
}

#[test]
fn octets_go_in_front_of_a_message(rt: HostRuntime) {
    let digits: &[u8] = DIGITS;
    let message = Pieces::of([&digits[3..5], &digits[5..70], &[], &digits[70..], &[]]);
    let longer = message.after(&digits[..3]);
    let mut digests = [[0; DIGEST_LEN]; 2];
    digest_each(&[message, longer], &mut digests);
    let without = Md5::digest(&digits[3..]);
    holds(&rt, digests[0] == without, "the digest", "without them");
    holds(
        &rt,
        digests[1] == DIGEST_OF_DIGITS,
        "the digest",
        "with them",
    );
}

//! Replies that are kept, repeated, counted and put back.
ghost use Rattle.std.specs.Prelude.{◌≡◌};

use crate::tests::holds;
use rad_auth::Door;
use rad_config::{Config, MOMENT_MAX};
use rad_packet::{Body, Octets};
use rad_recent::{KeepFault, Kept, Key, Recent, RowFault};
use std::alloc::Global;
use std::process::Abort;
use std::test::Fail;
use test_common::CAMPUS;

/// The octets of requests.
const FIRST: &[u8] = b"\x01\x07\x00\x14sixteen octets..";

const SECOND: &[u8] = b"\x01\x07\x00\x14other 16 octets.";

/// The first ones, an octet shorter and longer.
const CUT: &[u8] = b"\x01\x07\x00\x14sixteen octets.";

const LONG: &[u8] = b"\x01\x07\x00\x14sixteen octets...";

/// A call, and what it must return or leave. A request is given by the place of its key, and a reply by its Code.
#[derive(Clone, Copy)]
enum Call {
    /// What `room` answers, and then `keep`.
    Keep(u32, &'static [u8], u8, Result<(), KeepFault>),
    /// `keep_shared` answers what `keep` does, and leaves the same table.
    Share(u32),
    Look(u32, &'static [u8], Option<u8>),
    Expire,
    /// The Code and moment of each kept reply, oldest first.
    Rows(&'static [(u8, u64)]),
    /// A copy is the same, and isn't once a reply to the request of this place is kept.
    Copy(u32),
    /// Each row of `REPEATS` is or isn't found.
    Repeats,
    /// A reply to the request of this place is kept, which takes this client's share.
    Put(u32, u32),
    /// So many live replies take a client's share, that to the request of this place left out.
    Count(u32, u32, u64),
    /// So many replies take a client's share.
    Len(u32, u64),
    /// A client and a moment, and what putting back a reply to the request of this place answers. After a refusal nothing has
    /// changed.
    Restore(u32, u32, u64, Result<(), RowFault>),
    /// A reply to each of 65,536 requests is kept.
    Fill,
    /// A reply to the request of this place isn't kept, and nothing changes.
    Refuse(u32),
}

use Call::{
    Copy, Count, Expire, Fill, Keep, Len, Look, Put, Refuse, Repeats, Restore, Rows, Share,
};

/// The moment of a call in milliseconds, the call, and what is said if it has another outcome.
type Row = (u64, Call, &'static str);

// The keys of one source: 256 Identifiers of a port, then those of the next port.
fn key_at(place: u32) -> Key {
    Key {
        source: 0xC0A8_0110,
        port: 1645 + (place / 256 % 1_024) as u16,
        door: Door::Auth,
        id: (place % 256) as u8,
    }
}

// Makes the calls, each at its moment, in a table that is opened for them, and asserts what each returns.
fn play(rt: &impl Abort, alloc: Global, rows: &[Row]) -> Result<(), Fail> {
    let config = Config::read(alloc, CAMPUS)?;
    play_over(rt, alloc, &config, rows)
}

fn play_over(rt: &impl Abort, alloc: Global, config: &Config, rows: &[Row]) -> Result<(), Fail> {
    let mut recent = Recent::open(alloc, config)?;
    for row in rows.iter() {
        let (now, call, what) = *row;
        holds(rt, make(&mut recent, alloc, now, &call), what);
    }
    Ok(())
}

// Makes a call, and returns whether it returned what it must.
fn make(recent: &mut Recent, alloc: Global, now: u64, call: &Call) -> bool {
    match call {
        Keep(place, octets, code, kept) => {
            keep(recent, alloc, key_at(*place), octets, *code, now) == Some(*kept)
        }
        Share(place) => keeps_shared(recent, alloc, *place, now),
        Look(place, octets, code) => look(recent, &key_at(*place), octets, now) == *code,
        Expire => expire(recent, now),
        Rows(wanted) => are_rows(recent, wanted),
        Copy(place) => copies(recent, alloc, *place, now),
        Repeats => are_repeats(recent),
        Put(place, client) => puts(recent, alloc, *place, *client, now),
        Count(client, place, count) => counts(recent, *client, *place, now) == Some(*count),
        Len(client, len) => recent.len_of(*client) == *len,
        Restore(place, client, made, restored) => {
            let reply = shared_reply(alloc, key_at(*place), *client, *made);
            restores(recent, reply, now, *restored)
        }
        Fill => fills(recent, alloc, now),
        Refuse(place) => refuses(recent, alloc, *place, now),
    }
}

// What `keep` answers, or None if there is no such moment, or `room` answers something else.
fn keep(
    recent: &mut Recent,
    alloc: Global,
    key: Key,
    octets: &[u8],
    code: u8,
    now: u64,
) -> Option<Result<(), KeepFault>> {
    if MOMENT_MAX < now {
        return None;
    }
    let octets = octets.to_vec(alloc).ok()?;
    let made = recent.room(&key, now);
    let kept = recent.keep(key, octets, Body::new(alloc, code), now);
    if made == kept { Some(kept) } else { None }
}

// What `keep_shared` answers, or None if there is no such moment.
fn keep_shared(
    recent: &mut Recent,
    alloc: Global,
    key: Key,
    octets: &[u8],
    now: u64,
) -> Option<Result<(), KeepFault>> {
    if MOMENT_MAX < now {
        return None;
    }
    let octets = Octets::of(alloc, octets).ok()?;
    Some(recent.keep_shared(key, octets, Body::new(alloc, 2), now))
}

// Whether `keep_shared` answers what `keep` does, and leaves the same table.
fn keeps_shared(recent: &mut Recent, alloc: Global, place: u32, now: u64) -> bool {
    let Ok(mut other) = recent.copy() else {
        return false;
    };
    let kept = keep(&mut other, alloc, key_at(place), FIRST, 2, now);
    let shared = keep_shared(recent, alloc, key_at(place), FIRST, now);
    (kept == shared, recent.same(&other)) == (true, true)
}

// The Code of the reply that a request gets again.
fn look(recent: &Recent, key: &Key, octets: &[u8], now: u64) -> Option<u8> {
    if MOMENT_MAX < now {
        return None;
    }
    let body = recent.look(key, octets, now)?;
    Some(body.code())
}

fn expire(recent: &mut Recent, now: u64) -> bool {
    if MOMENT_MAX < now {
        return false;
    }
    recent.expire(now);
    true
}

// Whether these are the kept replies, oldest first.
fn are_rows(recent: &Recent, wanted: &[(u8, u64)]) -> bool {
    let mut rest = wanted.iter();
    for reply in recent.rows() {
        if rest.next() != Some(&(reply.body.code(), reply.made)) {
            return false;
        }
    }
    rest.next().is_none()
}

// Whether a copy is the same, and isn't once one more reply is kept.
fn copies(recent: &mut Recent, alloc: Global, place: u32, now: u64) -> bool {
    let Ok(copy) = recent.copy() else {
        return false;
    };
    let is_same = copy.same(recent);
    let kept = keep(recent, alloc, key_at(place), FIRST, 2, now);
    (is_same, kept, copy.same(recent)) == (true, Some(Ok(())), false)
}

// Whether one more reply isn't kept for want of room, and nothing changes.
fn refuses(recent: &mut Recent, alloc: Global, place: u32, now: u64) -> bool {
    let Ok(before) = recent.copy() else {
        return false;
    };
    let kept = keep(recent, alloc, key_at(place), FIRST, 2, now);
    (kept, recent.same(&before)) == (Some(Err(KeepFault::Full)), true)
}

// Whether memory is made ready for a reply of a client, which is then kept.
fn puts(recent: &mut Recent, alloc: Global, place: u32, client: u32, now: u64) -> bool {
    let key = key_at(place);
    if recent.make_ready(&key).is_err() {
        return false;
    }
    recent.put(shared_reply(alloc, key, client, now));
    true
}

// A reply that takes a client's share.
fn shared_reply(alloc: Global, key: Key, client: u32, made: u64) -> Kept
    ensures { result.key ≡ key }
{
    Kept {
        client: Some(client),
        key,
        octets: Octets::new(Vec::new(alloc)),
        body: Body::new(alloc, 2),
        made,
    }
}

// Whether putting back a reply answers this, and changes nothing if it is refused.
fn restores(recent: &mut Recent, reply: Kept, clock: u64, restored: Result<(), RowFault>) -> bool {
    let Ok(before) = recent.copy() else {
        return false;
    };
    let answer = recent.restore(reply, clock);
    (answer, recent.same(&before)) == (restored, restored.is_err())
}

// How many live replies take a client's share.
fn counts(recent: &Recent, client: u32, place: u32, now: u64) -> Option<u64> {
    if MOMENT_MAX < now {
        return None;
    }
    Some(recent.count_of(client, &key_at(place), now))
}

// Whether as many replies are kept as there may be: to all Identifiers of 256 ports.
fn fills(recent: &mut Recent, alloc: Global, now: u64) -> bool {
    let mut is_right = true;
    for place in 0..65_536 {
        is_right = is_right && keep(recent, alloc, key_at(place), FIRST, 2, now) == Some(Ok(()));
    }
    is_right
}

/// Source, port, door, Identifier and octets of a request, a moment, and whether it gets the reply again that was kept at 0.
const REPEATS: [(u32, u16, Door, u8, &[u8], u64, bool); 11] = [
    (0xC0A8_0110, 1645, Door::Auth, 7, FIRST, 0, true),
    (0xC0A8_0110, 1645, Door::Auth, 7, FIRST, 29_999, true),
    (0xC0A8_0110, 1645, Door::Auth, 7, FIRST, 30_000, false),
    (0xC0A8_0111, 1645, Door::Auth, 7, FIRST, 0, false),
    (0xC0A8_0110, 1646, Door::Auth, 7, FIRST, 0, false),
    (0xC0A8_0110, 1645, Door::Acct, 7, FIRST, 0, false),
    (0xC0A8_0110, 1645, Door::Auth, 8, FIRST, 0, false),
    (0xC0A8_0110, 1645, Door::Auth, 7, SECOND, 0, false),
    (0xC0A8_0110, 1645, Door::Auth, 7, b"", 0, false),
    (0xC0A8_0110, 1645, Door::Auth, 7, CUT, 0, false),
    (0xC0A8_0110, 1645, Door::Auth, 7, LONG, 0, false),
];

fn are_repeats(recent: &Recent) -> bool {
    REPEATS.iter().all(|row| {
        let (source, port, door, id, octets, now, is_repeat) = *row;
        let key = Key {
            source,
            port,
            door,
            id,
        };
        look(recent, &key, octets, now) == if is_repeat { Some(2) } else { None }
    })
}

#[test]
fn a_later_reply_takes_the_place_of_one_with_its_key(rt: HostRuntime) -> Result<(), Fail> {
    const ROWS: &[Row] = &[
        (0, Rows(&[]), "none is kept yet"),
        (0, Keep(1, FIRST, 2, Ok(())), "a first reply"),
        (1, Keep(2, FIRST, 3, Ok(())), "another key"),
        (2, Keep(1, SECOND, 11, Ok(())), "the first key"),
        (2, Rows(&[(3, 1), (11, 2)]), "the later reply is the last"),
        (2, Look(1, FIRST, None), "the first reply is gone"),
        (2, Look(1, SECOND, Some(11)), "the later one is there"),
        (2, Look(2, FIRST, Some(3)), "the other key's too"),
        (3, Keep(2, FIRST, 5, Ok(())), "the same octets"),
        (3, Rows(&[(11, 2), (5, 3)]), "it is the last"),
        (4, Share(1), "shared octets"),
        (4, Rows(&[(5, 3), (2, 4)]), "it is the last as well"),
    ];
    play(&rt, rt.alloc(), ROWS)
}

#[test]
fn replies_expire_each_in_its_turn(rt: HostRuntime) -> Result<(), Fail> {
    const ROWS: &[Row] = &[
        (5_000, Keep(1, FIRST, 2, Ok(())), "the first"),
        (0, Keep(2, FIRST, 3, Ok(())), "an earlier moment"),
        (29_999, Expire, "both live"),
        (29_999, Rows(&[(2, 5_000), (3, 0)]), "both stay"),
        (30_000, Look(2, FIRST, None), "the second isn't found"),
        (30_000, Rows(&[(2, 5_000), (3, 0)]), "it is there"),
        (30_000, Expire, "the second's end"),
        (30_000, Rows(&[(2, 5_000)]), "the first stays"),
        (35_000, Expire, "the first's end"),
        (35_000, Rows(&[]), "none is left"),
    ];
    play(&rt, rt.alloc(), ROWS)
}

#[test]
fn a_client_has_the_replies_that_take_its_share(rt: HostRuntime) -> Result<(), Fail> {
    const ROWS: &[Row] = &[
        (0, Put(1, 0), "a reply of the first client"),
        (0, Put(2, 0), "another"),
        (5_000, Put(3, 1), "one of the second client"),
        (5_000, Keep(4, FIRST, 2, Ok(())), "one of nobody"),
        (5_000, Put(5, 300), "one of a client that isn't there"),
        (5_000, Count(0, 9, 2), "the first client has two"),
        (5_000, Count(0, 1, 1), "one without the key's own"),
        (5_000, Count(0, 3, 2), "another's key is not its own"),
        (5_000, Count(1, 9, 1), "the second client has one"),
        (5_000, Count(2, 9, 0), "a third has none"),
        (5_000, Count(300, 9, 1), "one that isn't there has one"),
        (
            6_000,
            Put(1, 1),
            "the first key's reply is the second client's",
        ),
        (6_000, Count(0, 9, 1), "the first client has one less"),
        (6_000, Count(1, 9, 2), "the second has one more"),
        (30_000, Count(0, 9, 0), "the last one of the first is over"),
        (30_000, Expire, "its end"),
        (30_000, Count(0, 9, 0), "it has none"),
        (30_000, Put(2, 0), "and then one again"),
        (30_000, Count(0, 9, 1), "one"),
        (35_000, Expire, "others end"),
        (
            35_000,
            Count(1, 9, 1),
            "the later one of the second lives on",
        ),
        (35_000, Count(300, 9, 0), "the one of nobody known doesn't"),
    ];
    play(&rt, rt.alloc(), ROWS)
}

#[test]
fn replies_that_break_a_rule_stay_out(rt: HostRuntime) -> Result<(), Fail> {
    const MOMENTS: Result<(), RowFault> = Err(RowFault::Moments);
    const KEY: Result<(), RowFault> = Err(RowFault::Key);
    const ROWS: &[Row] = &[
        (9, Restore(1, 0, 10, MOMENTS), "made after the clock"),
        (9, Restore(1, 0, 9, Ok(())), "made at the clock"),
        (9, Restore(1, 1, 8, KEY), "a key that is there"),
        (
            9,
            Restore(1, 1, 10, MOMENTS),
            "the moment is looked at first",
        ),
        (9, Restore(2, 0, 1, Ok(())), "an earlier moment"),
        (9, Restore(3, 300, 1, Ok(())), "a client that isn't there"),
        (9, Rows(&[(2, 9), (2, 1), (2, 1)]), "all are back"),
        (90_000, Len(0, 2), "two of the first client"),
        (90_000, Len(1, 0), "none of the second"),
        (90_000, Len(300, 1), "one of the one that isn't there"),
        (90_000, Count(0, 9, 0), "none is live"),
        (
            90_000,
            Restore(1, 0, 90_000, KEY),
            "nor is a row's key free",
        ),
    ];
    play(&rt, rt.alloc(), ROWS)
}

#[test]
fn a_reply_is_found_by_key_and_octets(rt: HostRuntime) -> Result<(), Fail> {
    const ROWS: &[Row] = &[
        (0, Keep(7, FIRST, 2, Ok(())), "a reply"),
        (0, Repeats, "each row of the table"),
        (0, Rows(&[(2, 0)]), "no change"),
    ];
    play(&rt, rt.alloc(), ROWS)
}

#[test]
fn a_copy_of_replies_is_the_same_until_one_changes(rt: HostRuntime) -> Result<(), Fail> {
    const ROWS: &[Row] = &[
        (0, Copy(1), "an empty table"),
        (1, Copy(2), "another key"),
        (2, Copy(1), "a key that is there"),
        (2, Rows(&[(2, 1), (2, 2)]), "the order"),
    ];
    play(&rt, rt.alloc(), ROWS)
}

#[test]
fn so_many_replies_and_no_more(rt: HostRuntime) -> Result<(), Fail> {
    const ROWS: &[Row] = &[
        (0, Fill, "65,536 keys"),
        (29_999, Refuse(65_536), "one more key"),
        (
            29_999,
            Restore(65_536, 0, 0, Err(RowFault::Full)),
            "none is put back",
        ),
        (29_999, Keep(77, SECOND, 11, Ok(())), "a key that is there"),
        (29_999, Look(77, SECOND, Some(11)), "its later reply"),
        (29_999, Look(77, FIRST, None), "its first reply is gone"),
        (29_999, Look(76, FIRST, Some(2)), "the others are there"),
        (29_999, Refuse(65_536), "one more key, as before"),
        (30_000, Keep(65_536, FIRST, 3, Ok(())), "the window is over"),
        (30_000, Rows(&[(11, 29_999), (3, 30_000)]), "both live"),
    ];
    play(&rt, rt.alloc(), ROWS)
}

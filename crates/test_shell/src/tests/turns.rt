//! Turns over ports in memory that are full, idle or failing, and over journals.
use super::coming::{are_challenges, arrive_often, is_after, is_sum, random, sent_count, serve};
use super::datagrams::Sent::Access;
use super::datagrams::{Sent, starts};
use super::exchanges::answers_each;
use super::gates::InTurn;
use super::journals::{keeps_what_is_fresh, sends_nothing_unkept};
use super::watching::{Seen, UNSEEN};
use crate::tests::holds;
use rad_config::Config;
use rad_shell::{MemoryPorts, OpenGate, Ports, ServeFault, Served, Service, Turns, run_rounds};
use rand_chacha::ChaCha20Rng;
use std::alloc::Global;
use std::sync::Wait;
use std::thread::Threads;
use test_common::{CAMPUS, STRANGER};

/// Turns over what comes: so many datagrams of one octet from the stranger, so many turns, and how many are dropped.
type Cut = (u32, u32, u64, &'static str);

/// A call of `receive` or `send` that fails, what it ends with, how many replies went out before, and what it is.
type Failing = (u64, Result<(), ServeFault>, usize, &'static str);

/// What the clock of the ports shows in a turn without datagrams after one that kept a reply at 0, whether it is still kept then,
/// and what it is.
type Idle = (Option<u64>, bool, &'static str);

/// What is tried.
#[derive(Clone, Copy)]
enum Trial<'a> {
    /// Turns over more or fewer datagrams than one receives.
    Cut(&'a Cut),
    /// Two calls, in each of which a user is challenged.
    Challenges,
    /// Two calls of turns that have their memory from the beginning.
    Room,
    /// A turn in which a user is challenged three times.
    Draws,
    /// A turn of 300 datagrams that are admitted.
    Many,
    /// A turn with datagrams of two clients, to both ports.
    Doors,
    /// A turn over ports that fail.
    Fault(&'a Failing),
    /// A turn without datagrams.
    Idle(&'a Idle),
    /// Turns whose journal has memory.
    Kept,
    /// A turn whose journal has none.
    Unkept,
}

#[test]
fn a_turn_is_cut_at_512(rt: HostRuntime) {
    const ROWS: &[Cut] = &[
        (0, 2, 0, "no datagram in two turns"),
        (513, 2, 513, "two turns receive 513"),
        (513, 1, 512, "one turn receives 512"),
        (3, 0, 0, "no turn"),
    ];
    for row in ROWS.iter() {
        holds(&rt, is_right(&rt, rt.alloc(), Trial::Cut(row)), row.3);
    }
}

#[test]
fn calls_go_on_from_one_another(rt: HostRuntime) {
    holds(
        &rt,
        is_right(&rt, rt.alloc(), Trial::Challenges),
        "a challenge in each call: two numbers, and the first and second draws",
    );
}

#[test]
fn turns_with_room_go_on_from_one_another(rt: HostRuntime) {
    holds(
        &rt,
        is_right(&rt, rt.alloc(), Trial::Room),
        "a challenge in each call, and a watcher that sees each turn",
    );
}

#[test]
fn each_datagram_has_its_own_draw(rt: HostRuntime) {
    holds(
        &rt,
        is_right(&rt, rt.alloc(), Trial::Draws),
        "three challenges in a turn: three numbers and three draws",
    );
}

#[test]
fn a_turn_answers_300(rt: HostRuntime) {
    holds(
        &rt,
        is_right(&rt, rt.alloc(), Trial::Many),
        "300 Accounting-Responses",
    );
}

#[test]
fn each_reply_goes_where_its_datagram_came_from(rt: HostRuntime) {
    holds(
        &rt,
        is_right(&rt, rt.alloc(), Trial::Doors),
        "address, port, door and octets of three replies",
    );
}

#[test]
fn a_port_that_fails_ends_the_turns(rt: HostRuntime) {
    const ROWS: &[Failing] = &[
        (1, Err(ServeFault::Receive), 0, "the first receive"),
        (2, Err(ServeFault::Receive), 0, "the second"),
        (3, Err(ServeFault::Receive), 0, "the third"),
        (4, Err(ServeFault::Receive), 0, "the one that receives none"),
        (5, Err(ServeFault::Send), 0, "the first send"),
        (6, Err(ServeFault::Send), 1, "the second"),
        (7, Err(ServeFault::Send), 2, "the third"),
        (8, Ok(()), 3, "no call"),
    ];
    for row in ROWS.iter() {
        holds(&rt, is_right(&rt, rt.alloc(), Trial::Fault(row)), row.3);
    }
}

#[test]
fn time_passes_in_an_idle_turn(rt: HostRuntime) {
    const ROWS: &[Idle] = &[
        (None, true, "no clock"),
        (Some(0), true, "the same moment"),
        (Some(29_999), true, "the last moment of the window"),
        (Some(30_000), false, "the end of the window"),
        (Some(u64::MAX), false, "the end of time"),
    ];
    for row in ROWS.iter() {
        holds(&rt, is_right(&rt, rt.alloc(), Trial::Idle(row)), row.2);
    }
}

#[test]
fn journals_come_before_replies(rt: HostRuntime) {
    const ROWS: &[(Trial, &str)] = &[
        (Trial::Kept, "a repeat isn't kept"),
        (Trial::Unkept, "nothing is sent that isn't kept"),
    ];
    for row in ROWS.iter() {
        holds(&rt, is_right(&rt, rt.alloc(), row.0), row.1);
    }
}

// Whether a service that remembers nothing yet does what a trial wants.
fn is_right<R: Threads + Wait + Sync>(rt: &R, alloc: Global, trial: Trial) -> bool {
    match Config::read(alloc, CAMPUS) {
        Ok(config) => is_right_with(rt, alloc, &config, trial),
        Err(_) => false,
    }
}

fn is_right_with<R: Threads + Wait + Sync>(
    rt: &R,
    alloc: Global,
    config: &Config,
    trial: Trial,
) -> bool {
    match Service::open(alloc, config) {
        Ok(mut service) => is_right_by(rt, alloc, &mut service, trial),
        Err(_) => false,
    }
}

fn is_right_by<R: Threads + Wait + Sync>(
    rt: &R,
    alloc: Global,
    service: &mut Service,
    trial: Trial,
) -> bool {
    match trial {
        Trial::Cut(row) => is_cut(rt, alloc, service, row),
        Trial::Challenges => is_challenged_twice(rt, alloc, service),
        Trial::Room => is_challenged_with_room(rt, alloc, service),
        Trial::Draws => is_challenged_thrice(rt, alloc, service),
        Trial::Many => answers_many(rt, alloc, service),
        Trial::Doors => answers_each(rt, alloc, service),
        Trial::Fault(row) => fails(rt, alloc, service, row),
        Trial::Idle(row) => is_left_idle(rt, alloc, service, row),
        Trial::Kept => keeps_what_is_fresh(rt, alloc, service),
        Trial::Unkept => sends_nothing_unkept(rt, alloc, service),
    }
}

// Whether so many turns drop what comes of it.
fn is_cut<R: Threads + Wait + Sync>(
    rt: &R,
    alloc: Global,
    service: &mut Service,
    row: &Cut,
) -> bool {
    let (count, rounds, wanted, _) = *row;
    let mut ports = MemoryPorts::new(alloc);
    let has_come = arrive_often(alloc, &mut ports, STRANGER, b"\x01", count).is_ok();
    let ended = serve(rt, service, &mut ports, &mut random(), rounds);
    has_come && is_sum(ended, rounds as u64, wanted, 0, wanted) && ports.turns() == rounds as u64
}

// Whether kay's request gets a challenge in each of two calls, the second after the window.
fn is_challenged_twice<R: Threads + Wait + Sync>(
    rt: &R,
    alloc: Global,
    service: &mut Service,
) -> bool {
    let mut ports = MemoryPorts::new(alloc);
    let mut random = random();
    is_replied(rt, alloc, service, &mut ports, &mut random, 0)
        && is_replied(rt, alloc, service, &mut ports, &mut random, 30_000)
        && are_challenges(&ports, &[1, 2])
}

// Whether kay's request gets a reply in a turn, where it comes at this moment.
fn is_replied<R: Threads + Wait + Sync>(
    rt: &R,
    alloc: Global,
    service: &mut Service,
    ports: &mut MemoryPorts,
    random: &mut ChaCha20Rng,
    moment: u64,
) -> bool {
    comes(alloc, ports, moment, &Access(0, b"kay", b"pw"))
        && is_sum(serve(rt, service, ports, random, 1), 1, 1, 1, 0)
}

// Whether a turn without datagrams leaves the reply, or doesn't.
fn is_left_idle<R: Threads + Wait + Sync>(
    rt: &R,
    alloc: Global,
    service: &mut Service,
    row: &Idle,
) -> bool {
    let (clock, is_kept, _) = *row;
    let mut ports = MemoryPorts::new(alloc);
    let mut random = random();
    let is_replied = is_replied(rt, alloc, service, &mut ports, &mut random, 0);
    if let Some(moment) = clock {
        ports.set_clock(moment);
    }
    let ended = serve(rt, service, &mut ports, &mut random, 1);
    let mut left = service.server().recent().rows();
    is_replied && is_sum(ended, 1, 0, 0, 0) && left.next().is_some() == is_kept
}

// The same by turns that have their memory from the beginning, and a watcher.
fn is_challenged_with_room<R: Threads + Wait + Sync>(
    rt: &R,
    alloc: Global,
    service: &mut Service,
) -> bool {
    let mut ports = MemoryPorts::new(alloc);
    let has_come = comes(alloc, &mut ports, 0, &Access(0, b"kay", b"pw"));
    has_come && answers_twice(rt, alloc, service, &mut ports) && are_challenges(&ports, &[1, 2])
}

/// What a watcher sees of three turns, of which the first and the last answer one request.
const SEEN_TWICE: Seen = Seen {
    received: 3,
    made: 3,
    lost: 0,
    arrivals: 2,
    replies: 2,
    entries: 2,
    clock: 30_000,
    faults: 0,
};

fn answers_twice<R: Threads + Wait + Sync>(
    rt: &R,
    alloc: Global,
    service: &mut Service,
    ports: &mut MemoryPorts,
) -> bool {
    let mut random = random();
    let Ok(mut turns) = Turns::open(alloc, &mut random, &OpenGate, UNSEEN) else {
        return false;
    };
    is_sum(turns.run(rt, service, ports, 2, 1), 2, 1, 1, 0)
        && comes(alloc, ports, 30_000, &Access(0, b"kay", b"pw"))
        && is_sum(turns.run(rt, service, ports, 1, 8), 1, 1, 1, 0)
        && *turns.watch() == SEEN_TWICE
}

// Whether three requests of kay in one turn get a challenge each.
fn is_challenged_thrice<R: Threads + Wait + Sync>(
    rt: &R,
    alloc: Global,
    service: &mut Service,
) -> bool {
    const SENT: &[Sent] = &[
        Access(0, b"kay", b"pw"),
        Access(1, b"kay", b"pw"),
        Access(2, b"kay", b"pw"),
    ];
    let mut ports = MemoryPorts::new(alloc);
    all_come(alloc, &mut ports, SENT)
        && is_sum(serve(rt, service, &mut ports, &mut random(), 1), 1, 3, 3, 0)
        && are_challenges(&ports, &[1, 2, 3])
}

// Whether 300 Starts in one turn are answered, one batch of eight after the other, though eight workers are allowed.
fn answers_many<R: Threads + Wait + Sync>(rt: &R, alloc: Global, service: &mut Service) -> bool {
    let Some(sent) = starts(alloc, 0, 300) else {
        return false;
    };
    let mut ports = MemoryPorts::new(alloc);
    let in_turn = InTurn::new();
    let have_come = all_come(alloc, &mut ports, &sent);
    let ended = run_rounds(service, rt, &mut ports, &mut random(), &in_turn, 1, 8);
    have_come
        && is_sum(ended, 1, 300, 300, 0)
        && sent_count(&ports) == 300
        && in_turn.has_passed(38)
}

// Whether a turn ends so, with so many replies. If it isn't all received, no draw is taken and the server is as it was; otherwise
// it is as after a turn without a fault. A second call goes on from that server.
fn fails<R: Threads + Wait + Sync>(
    rt: &R,
    alloc: Global,
    service: &mut Service,
    row: &Failing,
) -> bool {
    let mut ports = MemoryPorts::new(alloc);
    let have_come = all_come(alloc, &mut ports, &FOUR[..3]);
    ports.fail_at(row.0);
    let mut random = random();
    let ended = serve(rt, service, &mut ports, &mut random, 1);
    let asked = asked(row);
    have_come
        && ends(&ports, ended, row)
        && keeps(service, asked.len())
        && is_as_after(rt, alloc, service, asked)
        && is_after(random, asked.len())
        && goes_on(rt, alloc, service, &mut ports, row)
}

// Whether so many replies are kept.
fn keeps(service: &Service, count: usize) -> bool {
    let mut kept: usize = 0;
    for _reply in service.server().recent().rows() {
        kept = kept.wrapping_add(1);
    }
    kept == count
}

// Whether a second call, to which one more request comes, answers what is left, and leads to the server of one call without a
// fault, of those datagrams that the first call didn't drop. Nothing fails once more.
fn goes_on<R: Threads + Wait + Sync>(
    rt: &R,
    alloc: Global,
    service: &mut Service,
    ports: &mut MemoryPorts,
    row: &Failing,
) -> bool {
    let has_come = all_come(alloc, ports, &FOUR[3..]);
    if row.1.is_ok() {
        ports.fail_at(0);
    }
    let ended = serve(rt, service, ports, &mut random(), 1);
    let kept = FOUR.get(dropped(row)..).unwrap_or(FOUR);
    let left = kept.len().saturating_sub(asked(row).len()) as u64;
    has_come
        && is_sum(ended, 1, left, left, 0)
        && has_failed(ports, row)
        && is_as_after(rt, alloc, service, kept)
}

// Whether a server is as one that was asked these in one turn without a fault.
fn is_as_after<R: Threads + Wait + Sync>(
    rt: &R,
    alloc: Global,
    service: &Service,
    asked: &[Sent],
) -> bool {
    let Ok(mut other) = Service::open(alloc, service.server().config()) else {
        return false;
    };
    let is_served = comes_and_is_served(rt, alloc, &mut other, asked);
    let is_same = other.server().same(service.server());
    (is_served, is_same) == (true, true)
}

// Whether a service answers all that was asked in one turn.
fn comes_and_is_served<R: Threads + Wait + Sync>(
    rt: &R,
    alloc: Global,
    service: &mut Service,
    asked: &[Sent],
) -> bool {
    let mut ports = MemoryPorts::new(alloc);
    let have_come = all_come(alloc, &mut ports, asked);
    let ended = serve(rt, service, &mut ports, &mut random(), 1);
    (have_come, ended.is_ok()) == (true, true)
}

// How many datagrams a turn has dropped that ends so: those before the receive that failed.
fn dropped(row: &Failing) -> usize {
    match row.1 {
        Err(ServeFault::Receive) => (row.0 as usize).saturating_sub(1),
        _ => 0,
    }
}

// What the server of a turn that ends so was asked.
fn asked(row: &Failing) -> &'static [Sent] {
    match row.1 {
        Err(ServeFault::Receive) => &FOUR[..0],
        _ => &FOUR[..3],
    }
}

// Whether turns end as a row says.
fn ends(ports: &MemoryPorts, ended: Result<Served, ServeFault>, row: &Failing) -> bool {
    let (_, wanted, replies, _) = *row;
    ended.map(|_served| ()) == wanted && sent_count(ports) == replies && has_failed(ports, row)
}

// Whether ports have failed once, or not at all where no call is to fail.
fn has_failed(ports: &MemoryPorts, row: &Failing) -> bool {
    ports.faults() == row.1.is_err() as u64
}

/// Requests of four users. The last one comes to the second call.
const FOUR: &[Sent] = &[
    Access(1, b"u1", b"p"),
    Access(2, b"u2", b"p"),
    Access(3, b"u3", b"p"),
    Access(4, b"u4", b"p"),
];

// Whether there is memory for all of these, which come at the moment 0.
fn all_come(alloc: Global, ports: &mut MemoryPorts, sent: &[Sent]) -> bool {
    sent.iter().all(|sent| comes(alloc, ports, 0, sent))
}

// Whether there is memory for a request that comes at a moment.
fn comes(alloc: Global, ports: &mut MemoryPorts, moment: u64, sent: &Sent) -> bool {
    match sent.coming(alloc, moment) {
        Some(datagram) => ports.arrive(datagram).is_ok(),
        None => false,
    }
}

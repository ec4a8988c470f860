//! The datagrams of a round.
ghost use Rattle.std.specs.Prelude.{◌≤◌, vec_len, IfSome};
ghost use Rattle.rad_config.specs.Spans.{moment_max};
ghost use Rattle.rad_shell.specs.Rounds.{AreMoments, arrivals_max};

use crate::lots::{Load, Lot, REFUSED_EACH, ROUND_MAX};
use crate::messages::{AUTHENTICATOR, Message, USERS};
use rad_auth::{Arrival, Clients, sign_request};
use rad_config::MOMENT_MAX;
use rad_packet::{Frame, Octets, code};
use rad_shell::Timed;
use std::alloc::Global;

// From one session that is reported to the next: odd, so that each of a power of two is met.
const STRIDE: u64 = 40_503;

// The first of the sources, and the first of the ports of each.
const SOURCE: u32 = 0xC0A8_0110;

const PORT: u16 = 1_024;

// How many sources there are, and how many Identifiers each port of a source has. With sixteen ports 65,536 senders differ.
const SOURCES: u64 = 16;

const IDENTIFIERS: u64 = 256;

const PORTS: u64 = 16;

/// Which requests a round has.
#[derive(Clone, Copy)]
pub(crate) enum Stage {
    /// Log-ins with right passwords.
    Grants,
    /// The Starts of their sessions.
    Starts,
    /// What is measured.
    Load,
}

/// A round. Its datagrams come at one moment.
#[derive(Clone, Copy)]
pub(crate) struct Round {
    pub lot: Lot,
    pub stage: Stage,
    /// The place of its first request among all requests.
    pub place: u64,
    /// How many requests of the stage came before.
    pub turn: u64,
    pub count: u16,
    pub moment: u64,
}

impl Round {
    // What the datagram in a lane says.
    fn message(self, lane: u64) -> Message {
        let turn = self.turn.wrapping_add(lane);
        match (self.stage, self.lot.load) {
            (Stage::Grants, _) => Message::LogIn(turn),
            (Stage::Starts, _) => Message::Start(turn.wrapping_add(1)),
            (Stage::Load, Load::Access) => log_in(turn),
            (Stage::Load, Load::Accounting) => {
                let place = turn.wrapping_mul(STRIDE) % self.lot.size.rows().max(1);
                Message::Start(place.wrapping_add(1))
            }
        }
    }

    /// The replies that are wanted.
    pub fn replies(self) -> Replies {
        let mut replies = Replies::none();
        for lane in 0..u64::from(self.count) {
            replies.add(self.message(lane).reply_code());
        }
        replies
    }
}

// One of so many in a row has a wrong password, and one of so many of each user's.
fn log_in(turn: u64) -> Message {
    if turn / USERS % REFUSED_EACH == turn % REFUSED_EACH {
        Message::WrongLogIn(turn)
    } else {
        Message::LogIn(turn)
    }
}

/// How many replies there are, and how many of them are Access-Rejects.
#[derive(Clone, Copy, PartialEq, Eq)]
pub(crate) struct Replies {
    all: usize,
    rejects: usize,
}

impl Replies {
    pub fn none() -> Replies {
        Replies { all: 0, rejects: 0 }
    }

    /// Adds a reply of this Code.
    pub fn add(&mut self, code: u8) {
        self.all = self.all.wrapping_add(1);
        if code == code::ACCESS_REJECT {
            self.rejects = self.rejects.wrapping_add(1);
        }
    }
}

/// The octets of the datagrams of a round.
pub(crate) fn sign_all(alloc: Global, clients: &Clients, round: Round) -> Option<Vec<Octets>> {
    let mut frame = Frame::new(alloc).ok()?;
    sign_each(alloc, clients, round, &mut frame)
}

fn sign_each(
    alloc: Global,
    clients: &Clients,
    round: Round,
    frame: &mut Frame,
) -> Option<Vec<Octets>> {
    let mut signed = Vec::new(alloc);
    for lane in 0..u64::from(round.count) {
        sign(alloc, clients, round, lane, frame)?;
        let octets = Octets::of(alloc, frame.octets()).ok()?;
        signed.push(octets).ok()?;
    }
    Some(signed)
}

fn sign(
    alloc: Global,
    clients: &Clients,
    round: Round,
    lane: u64,
    frame: &mut Frame,
) -> Option<()> {
    let Sender { source, id, .. } = Sender::of(round, lane);
    let secret = clients.secret(clients.find(source)?);
    let body = round.message(lane).body(alloc, secret).ok()?;
    sign_request(&body, id, &AUTHENTICATOR, secret, frame).ok()
}

/// The datagrams of a round, at most `ROUND_MAX`, of which these are the octets.
pub(crate) fn arrivals<'a>(
    alloc: Global,
    round: Round,
    signed: &'a [Octets],
) -> Option<Vec<Timed<'a>>>
    ensures { IfSome result (λ arrivals.
        (vec_len arrivals ≤ arrivals_max) × AreMoments arrivals.items) }
{
    let mut arrivals = Vec::new(alloc);
    'lanes: for lane in 0..signed.len().min(ROUND_MAX as usize) {
        let octets = signed[lane].octets();
        arrivals.push(timed(round, lane as u64, octets)).ok()?;
    }
    Some(arrivals)
}

fn timed<'a>(round: Round, lane: u64, octets: &'a [u8]) -> Timed<'a>
    ensures { result.moment ≤ moment_max }
{
    let Sender { source, port, .. } = Sender::of(round, lane);
    Timed {
        arrival: Arrival {
            source,
            port,
            door: round.message(lane).door(),
            octets,
        },
        moment: round.moment.min(MOMENT_MAX),
        draw: [0; 16],
    }
}

// Whom a request is from.
#[derive(Clone, Copy)]
struct Sender {
    source: u32,
    port: u16,
    id: u8,
}

impl Sender {
    // The sender of the datagram in a lane. 65,536 requests one after another have different senders.
    fn of(round: Round, lane: u64) -> Sender {
        let place = round.place.wrapping_add(lane);
        let port = place / SOURCES / IDENTIFIERS % PORTS;
        Sender {
            source: SOURCE + (place % SOURCES) as u32,
            port: PORT + port as u16,
            id: (place / SOURCES % IDENTIFIERS) as u8,
        }
    }
}

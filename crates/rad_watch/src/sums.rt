//! Sums of what became of datagrams.
ghost use Rattle.std.specs.Prelude.{◌≡◌, ◌+◌, ◌-◌, ◌^◌, min};

use crate::client_sums::ClientSums;
use crate::event::Event;
use crate::histogram::{Bound, Histogram};
use crate::kind::Kind;
use rad_auth::Discard;
use rad_packet::Packet;
use rad_packet::attribute::REPLY_MESSAGE;
use rad_packet::code::{ACCESS_ACCEPT, ACCESS_CHALLENGE, ACCESS_REJECT, ACCOUNTING_RESPONSE};
use rad_server::Denial;
use rad_shell::Outcome;
use std::alloc::{AllocError, Global};

/// What became of a reply's request.
#[derive(Clone, Copy, Debug, PartialEq, Eq)]
pub(crate) enum Exchanged {
    /// It was answered for the first time.
    Fresh,
    /// Its reply was kept from an earlier exchange.
    Repeat,
    /// It is a Status-Server.
    Status,
}

/// The replies, by their Code.
pub(crate) const REPLIES: &[(u8, &str)] = &[
    (ACCESS_ACCEPT, "Access-Accept"),
    (ACCESS_REJECT, "Access-Reject"),
    (ACCOUNTING_RESPONSE, "Accounting-Response"),
    (ACCESS_CHALLENGE, "Access-Challenge"),
];

/// The reports of a session, and the names of their labels.
pub(crate) const REPORTS: &[(Kind, &str)] = &[
    (Kind::Start, "start"),
    (Kind::Interim, "interim"),
    (Kind::Stop, "stop"),
];

const TURN_SIZES: &[Bound] = &[
    (1, "1"),
    (4, "4"),
    (16, "16"),
    (64, "64"),
    (256, "256"),
    (512, "512"),
];

/// In microseconds; they are printed in seconds.
const TURN_TIMES: &[Bound] = &[
    (100, "0.0001"),
    (500, "0.0005"),
    (2_000, "0.002"),
    (10_000, "0.01"),
    (50_000, "0.05"),
    (250_000, "0.25"),
];

/// Sums since the start. A sum that would be greater than 2^64 - 1 is that.
#[derive(Drop)]
pub(crate) struct Sums {
    /// The datagrams that were received.
    pub datagrams: u64,
    /// Those of each client.
    pub clients: Vec<ClientSums>,
    /// The replies to fresh requests, in the order of `REPLIES`.
    pub replies: [u64; REPLIES.len()],
    /// The kept replies that were sent again.
    pub repeats: u64,
    /// The replies to a Status-Server.
    pub statuses: u64,
    /// The rejections, in the order of `Denial::all`.
    pub rejects: [u64; Denial::COUNT],
    /// The fresh reports of a session, in the order of `REPORTS`.
    pub known_reports: [u64; REPORTS.len()],
    /// Those that mean no session.
    pub lost_reports: [u64; REPORTS.len()],
    /// Those whose User-Name isn't that of the session's user.
    pub strange_reports: u64,
    /// The discards, in the order of `Discard::all`.
    pub discards: [u64; Discard::COUNT],
    pub busy: u64,
    /// The datagrams for which memory was refused, though not for their round.
    pub nomemory: u64,
    /// The turns that were lost, since memory was refused.
    pub lost: u64,
    /// The failures of calls on sockets.
    pub failures: u64,
    /// The lines that a log left out.
    pub left_out: u64,
    /// The datagrams of each turn that had any.
    pub sizes: Histogram,
    /// How long these turns took, in microseconds.
    pub times: Histogram,
}

impl Sums {
    /// The sums of nothing, for so many clients.
    pub fn open(alloc: Global, clients: usize) -> Result<Sums, AllocError> {
        Ok(Sums {
            datagrams: 0,
            clients: vec![in alloc; ClientSums::nothing(); clients]?,
            replies: [0; REPLIES.len()],
            repeats: 0,
            statuses: 0,
            rejects: [0; Denial::COUNT],
            known_reports: [0; REPORTS.len()],
            lost_reports: [0; REPORTS.len()],
            strange_reports: 0,
            discards: [0; Discard::COUNT],
            busy: 0,
            nomemory: 0,
            lost: 0,
            failures: 0,
            left_out: 0,
            sizes: Histogram::new(TURN_SIZES),
            times: Histogram::new(TURN_TIMES),
        })
    }

    /// Counts what became of a datagram of a client, at a wall time in milliseconds.
    pub fn add_outcome(
        &mut self,
        client: Option<u32>,
        outcome: &Outcome,
        exchanged: Exchanged,
        wall: u64,
    ) {
        add_one(&mut self.datagrams);
        match outcome {
            Outcome::Dropped(discard) => add_one(&mut self.discards[discard.place()]),
            Outcome::Busy => add_one(&mut self.busy),
            Outcome::NoMemory => add_one(&mut self.nomemory),
            Outcome::Reply(frame) => self.add_reply(frame.octets(), exchanged),
        }
        if let Some(client) = client.and_then(|place| self.clients.get_mut(place as usize)) {
            client.add_outcome(outcome, wall);
        }
    }

    /// Counts a report of a session. A repeat was counted before.
    pub fn add_report(&mut self, report: &Event) {
        if report.is_repeat {
            return;
        }
        let place = REPORTS.iter().position(|row| row.0 == report.kind);
        if report.reason.is_some() {
            add_one_at(&mut self.lost_reports, place);
        } else {
            add_one_at(&mut self.known_reports, place);
        }
        if report.owner.is_some() {
            add_one(&mut self.strange_reports);
        }
    }

    fn add_reply(&mut self, octets: &[u8], exchanged: Exchanged) {
        match exchanged {
            Exchanged::Fresh => self.add_fresh(octets),
            Exchanged::Repeat => add_one(&mut self.repeats),
            Exchanged::Status => add_one(&mut self.statuses),
        }
    }

    fn add_fresh(&mut self, octets: &[u8]) {
        let code = octets.first().copied();
        let place = REPLIES.iter().position(|row| Some(row.0) == code);
        add_one_at(&mut self.replies, place);
        if code == Some(ACCESS_REJECT) {
            add_one_at(&mut self.rejects, place_of_reject(octets));
        }
    }
}

/// Counts one more.
pub(crate) fn add_one(sum: &mut u64)
    ensures { sum.new ≡ min (sum.old + 1) (2 ^ 64 - 1) }
{
    *sum = sum.saturating_add(1);
}

// The place of the reason that an Access-Reject has.
fn place_of_reject(octets: &[u8]) -> Option<usize> {
    let text = Packet::read(octets).ok()?.first(REPLY_MESSAGE)?;
    Denial::all()
        .iter()
        .position(|denial| denial.text().as_bytes() == text)
}

/// Counts one more at a place, if there is one.
pub(crate) fn add_one_at(sums: &mut [u64], place: Option<usize>) {
    if let Some(sum) = place.and_then(|place| sums.get_mut(place)) {
        add_one(sum);
    }
}

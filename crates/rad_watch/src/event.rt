//! Events: what became of a datagram, and what else is told.
ghost use Rattle.std.specs.Prelude.{◌≡◌, ◌↔◌, IsTrue, option_copied, option_map, slice_get};
ghost use Rattle.rad_packet.specs.Attributes.{first_integer};
ghost use Rattle.rad_auth.specs.Datagrams.{datagram_of};
ghost use Rattle.rad_packet.specs.Codes.{code_access_reject};
ghost use Rattle.rad_packet.specs.Packets.{packet_of};
ghost use Rattle.rad_server.specs.Accounting.{class_number};
ghost use Rattle.rad_watch.specs.Events.{bare, counted, exchanged, expired, known, left_out, of_answer, of_answered, of_discard};
ghost use Rattle.rad_watch.specs.Events.{of_outcome, of_reply, of_session, of_unanswered, origin_of, other_owner, parts_in};
ghost use Rattle.rad_watch.specs.Events.{parts_of, reason_of_report, reported, seen, told};

use crate::exchange::{Exchange, user_name};
use crate::kind::{Kind, Level};
use rad_auth::{Arrival, Discard, Door};
use rad_config::{Config, User};
use rad_packet::Packet;
use rad_packet::attribute::{
    ACCT_STATUS_TYPE, CLASS, FRAMED_IP_ADDRESS, REPLY_MESSAGE, USER_NAME, integer_of,
};
use rad_packet::code::{ACCESS_ACCEPT, ACCESS_CHALLENGE, ACCESS_REJECT, STATUS_SERVER};
use rad_pool::Session;
use rad_server::{ACCOUNTING_OFF, ACCOUNTING_ON, INTERIM_UPDATE, START, STOP, class_number_of};
use rad_shell::Outcome;

/// What a report is told with that means no session.
const NO_SESSION: &[u8] = b"no session";

/// An event of a turn: what it is, and what is known of it.
#[derive(Clone, Copy)]
pub(crate) struct Event<'t> {
    pub kind: Kind,
    /// The client's place, counted from 0.
    pub client: Option<u32>,
    pub origin: Option<Origin>,
    /// The octets of the user's name.
    pub user: Option<&'t [u8]>,
    /// The IPv4 address of the session, most significant octet first.
    pub address: Option<u32>,
    /// The number of the session.
    pub session: Option<u64>,
    /// The name of the session's user, where it is another.
    pub owner: Option<&'t [u8]>,
    /// Why a datagram was discarded, the Reply-Message of a rejection, or why a report is of note.
    pub reason: Option<&'t [u8]>,
    /// Whether the reply was kept from an earlier exchange.
    pub is_repeat: bool,
    /// How many of what the kind says.
    pub count: Option<u64>,
}

/// Where a datagram came from, and to.
#[derive(Clone, Copy)]
pub(crate) struct Origin {
    /// The source address, most significant octet first.
    pub source: u32,
    /// The source port.
    pub port: u16,
    /// The server's port.
    pub door: Door,
}

impl Origin {
    /// Where this one came from.
    pub fn of(arrival: &Arrival) -> Origin
        ensures { result ≡ origin_of (datagram_of arrival.now) }
    {
        Origin {
            source: arrival.source,
            port: arrival.port,
            door: arrival.door,
        }
    }
}

impl<'t> Event<'t> {
    /// An event of which no more is known.
    pub fn of(kind: Kind) -> Event<'t>
        ensures { seen result ≡ bare kind }
    {
        Event {
            kind,
            client: None,
            origin: None,
            user: None,
            address: None,
            session: None,
            owner: None,
            reason: None,
            is_repeat: false,
            count: None,
        }
    }

    /// So many of what the kind says.
    pub fn counted(kind: Kind, client: Option<u32>, count: u64) -> Event<'t>
        ensures { seen result ≡ counted kind client count }
    {
        Event {
            client,
            count: Some(count),
            ..Event::of(kind)
        }
    }

    /// So many lines of a kind and client were left out.
    pub fn left_out(kind: Kind, client: Option<u32>, count: u32) -> Event<'t>
        ensures { seen result ≡ left_out kind client count }
    {
        let event = Event::counted(Kind::LeftOut, client, u64::from(count));
        Event {
            reason: Some(kind.name().as_bytes()),
            ..event
        }
    }

    /// A session expired.
    pub fn expired(users: &'t [User], session: &Session) -> Event<'t>
        ensures { seen result ≡ expired users.now session.now }
    {
        Event {
            client: Some(session.client),
            user: user_name(users, session.user),
            address: session.address,
            session: Some(session.number),
            ..Event::of(Kind::Expire)
        }
    }

    /// What became of a datagram, whose exchange is known if it was made.
    ///
    /// None if what was admitted or sent is no packet, which can't be.
    pub fn told(
        config: &Config,
        arrival: &Arrival<'t>,
        outcome: &'t Outcome,
        exchange: Option<Exchange<'t>>,
    ) -> Option<Event<'t>>
        ensures { option_map seen result ≡ told config.now.clients
            (datagram_of arrival.now) outcome.now (option_map known exchange.entry) }
    {
        let event = of_outcome(arrival.octets, outcome)?.exchanged(exchange);
        Some(Event {
            client: config.clients().find(arrival.source),
            origin: Some(Origin::of(arrival)),
            ..event
        })
    }

    /// Whether a log of this level tells it. One of what is refused tells reports that mean no session, too.
    pub fn is_told_at(&self, level: Level) -> bool {
        self.kind.is_told_at(level) || (self.kind.is_report() && self.reason.is_some())
    }

    // The event, with what is known of its exchange.
    fn exchanged(self, exchange: Option<Exchange<'t>>) -> Event<'t>
        ensures { seen result ≡ exchanged (option_map known exchange.entry) (seen self.entry) }
    {
        let Some(exchange) = exchange else {
            return self;
        };
        Event {
            owner: other_owner(self.user, exchange.owner),
            reason: self.reason.or(reason_of_report(self.kind, &exchange)),
            is_repeat: exchange.is_repeat,
            ..self
        }
    }
}

// Why a report is of note: it means no session, and isn't a repeat.
fn reason_of_report<'t>(kind: Kind, exchange: &Exchange) -> Option<&'t [u8]>
    ensures { option_copied result ≡ reason_of_report kind (known exchange.now) }
{
    if kind.is_report() && !exchange.is_repeat && exchange.session.is_none() {
        Some(NO_SESSION)
    } else {
        None
    }
}

// The name of a session's user, where a report has another one.
fn other_owner<'t>(name: Option<&[u8]>, owner: Option<&'t [u8]>) -> Option<&'t [u8]>
    ensures { option_copied result
        ≡ other_owner (option_copied name.entry) (option_copied owner.entry) }
{
    let (Some(name), Some(owner)) = (name, owner) else {
        return None;
    };
    if name == owner { None } else { Some(owner) }
}

/// Whether a reply is an Access-Reject.
pub(crate) fn is_reject(reply: &[u8]) -> bool
    ensures { IsTrue result ↔ (slice_get reply.now 0 ≡ Some code_access_reject) }
{
    reply.first() == Some(&ACCESS_REJECT)
}

fn of_outcome<'t>(octets: &'t [u8], outcome: &'t Outcome) -> Option<Event<'t>>
    ensures { option_map seen result ≡ of_outcome octets.now outcome.now }
{
    match outcome {
        Outcome::Dropped(discard) => Some(discarded(*discard)),
        Outcome::Busy => Some(unanswered(Kind::Busy, octets)),
        Outcome::NoMemory => Some(unanswered(Kind::NoMemory, octets)),
        Outcome::Reply(frame) => answered(octets, frame.octets()),
    }
}

fn discarded<'t>(discard: Discard) -> Event<'t>
    ensures { seen result ≡ of_discard discard }
{
    let (_, name) = discard.label();
    Event {
        reason: Some(name.as_bytes()),
        ..Event::of(Kind::Discard)
    }
}

// An admitted request without a reply.
fn unanswered<'t>(kind: Kind, octets: &'t [u8]) -> Event<'t>
    ensures { seen result ≡ of_unanswered kind (parts_in (packet_of octets.now)) }
{
    match Packet::read(octets) {
        Ok(request) => Event {
            user: request.first(USER_NAME),
            ..Event::of(kind)
        },
        Err(_) => Event::of(kind),
    }
}

// An admitted request and its reply, which are packets.
fn answered<'t>(request: &'t [u8], reply: &'t [u8]) -> Option<Event<'t>>
    ensures { option_map seen result
        ≡ of_answered (parts_in (packet_of request.now)) (packet_of reply.now) }
{
    let Ok(request) = Packet::read(request) else {
        return None;
    };
    let Ok(reply) = Packet::read(reply) else {
        return None;
    };
    Some(of_answer(&request, &reply))
}

fn of_answer<'t>(request: &Packet<'t>, reply: &Packet<'t>) -> Event<'t>
    ensures { seen result ≡ of_answer (parts_of request.now) reply.now }
{
    if request.code() == STATUS_SERVER {
        return Event::of(Kind::Status);
    }
    let user = request.first(USER_NAME);
    Event {
        user,
        ..of_reply(request, reply)
    }
}

fn of_reply<'t>(request: &Packet<'t>, reply: &Packet<'t>) -> Event<'t>
    ensures { seen result ≡ of_reply (parts_of request.now) reply.now }
{
    match reply.code() {
        ACCESS_ACCEPT => of_session(Kind::Accept, reply),
        ACCESS_CHALLENGE => Event::of(Kind::Challenge),
        ACCESS_REJECT => Event {
            reason: reply.first(REPLY_MESSAGE),
            ..Event::of(Kind::Reject)
        },
        _ => of_session(reported(request), request),
    }
}

// An event of the session that a packet names.
fn of_session<'t>(kind: Kind, packet: &Packet<'t>) -> Event<'t>
    ensures { seen result ≡ of_session kind (parts_of packet.now) }
{
    Event {
        address: first_integer(packet, FRAMED_IP_ADDRESS),
        session: session_of(packet),
        ..Event::of(kind)
    }
}

// The integer of the first attribute of a Type that has four octets.
fn first_integer(packet: &Packet, kind: u8) -> Option<u32>
    ensures { result ≡ first_integer kind packet.now.attributes }
{
    integer_of(packet.first_of_len(kind, 4)?)
}

// The number in the first Class of a session.
fn session_of(packet: &Packet) -> Option<u64>
    ensures { result ≡ class_number packet.now.attributes }
{
    let mut rest = packet.attributes();
    while let Some(attribute) = rest.next() {
        if attribute.kind == CLASS {
            if let Some(number) = class_number_of(attribute.value) {
                return Some(number);
            }
        }
    }
    None
}

// What an Accounting-Request reports by its Acct-Status-Type (RFC 2866, section 5.1).
fn reported(request: &Packet) -> Kind
    ensures { result ≡ reported (parts_of request.now).status }
{
    match first_integer(request, ACCT_STATUS_TYPE) {
        Some(START) => Kind::Start,
        Some(STOP) => Kind::Stop,
        Some(INTERIM_UPDATE) => Kind::Interim,
        Some(ACCOUNTING_ON) => Kind::On,
        Some(ACCOUNTING_OFF) => Kind::Off,
        _ => Kind::Accounting,
    }
}

//! Lots of requests and the bodies of their replies.
ghost use Rattle.std.specs.Prelude.{◌≡◌, ◌+◌, ◌<◌, length, IfOk, IfSome};
ghost use Rattle.rad_auth.specs.Clients.{IsSecret};
ghost use Rattle.rad_auth.specs.Sealing.{AreJobs, IsJob};

use crate::admission::bodies::{Kind, Reply, reply_to, request};
use rad_auth::{Arrival, Clients, Discard, Door, Job, PREFIX_MAX, Request, Secret, sign_request};
use rad_packet::{Frame, Packet};
use std::alloc::{AllocError, Global};

/// How many groups of eight a lot has.
pub(crate) const GROUPS: usize = 8;

/// How many requests a lot has.
pub(crate) const SIZE: usize = 8 * GROUPS;

// The first client's address; the others' follow.
const FIRST_CLIENT: u32 = 0xC0A8_0110;

/// What is said of eight arrivals.
pub(crate) type Verdicts<'a> = [Option<Result<Request<'a>, Discard>>; 8];

// A request as it is sent, and the body of its reply.
#[derive(Drop)]
struct Exchange {
    id: u8,
    datagram: Vec<u8>,
    authenticator: [u8; 16],
    reply: Reply,
}

impl Exchange {
    fn new(
        alloc: Global,
        kind: Kind,
        place: u8,
        secret: &Secret,
        frame: &mut Frame,
    ) -> Result<Exchange, AllocError> {
        sign(alloc, kind, place, secret, frame)?;
        let datagram = frame.octets().to_vec(alloc)?;
        let reply = reply_to(alloc, kind, place)?;
        Ok(Exchange {
            id: place,
            authenticator: authenticator(&datagram),
            datagram,
            reply,
        })
    }
}

// Writes the request at a place.
fn sign(
    alloc: Global,
    kind: Kind,
    place: u8,
    secret: &Secret,
    frame: &mut Frame,
) -> Result<(), AllocError> {
    let body = request(alloc, kind, place)?;
    match sign_request(&body, place, &[place; 16], secret, frame) {
        Ok(()) => Ok(()),
        Err(_) => Err(AllocError),
    }
}

// The Authenticator of the packet that a datagram holds.
fn authenticator(datagram: &[u8]) -> [u8; 16] {
    match Packet::read(datagram) {
        Ok(packet) => packet.authenticator(),
        Err(_) => [0; 16],
    }
}

/// `SIZE` requests of four clients in turn, and the bodies of their replies. Places are counted from 0.
#[derive(Drop)]
pub(crate) struct Lot {
    pub clients: Clients,
    door: Door,
    exchanges: Vec<Exchange>,
}

fn with_client(clients: Clients, address: u32, secret: &[u8]) -> Result<Clients, AllocError>
    requires room { length clients < 256 }
    requires secret { IsSecret secret.now }
    ensures { IfOk result (λ more. length more ≡ length clients + 1) }
{
    let mut clients = clients;
    if clients.add(address, PREFIX_MAX, secret, false).is_err() {
        return Err(AllocError);
    }
    Ok(clients)
}

fn four_clients(alloc: Global) -> Result<Clients, AllocError>
    ensures { IfOk result (λ clients. length clients ≡ 4) }
{
    let clients = with_client(Clients::new(alloc), FIRST_CLIENT, b"xyzzy5461")?;
    let clients = with_client(clients, FIRST_CLIENT + 1, b"q7Rz0mVt3KpW")?;
    let clients = with_client(clients, FIRST_CLIENT + 2, b"h2Yc9sXu5LdE8gNa")?;
    with_client(clients, FIRST_CLIENT + 3, b"b6Tf1wJo4MiQ0rSk7VzC")
}

// Whose request is at a place.
fn client_place(place: usize) -> u32
    ensures { result < 4 }
{
    (place % 4) as u32
}

impl Lot {
    pub fn new(alloc: Global, kind: Kind) -> Result<Lot, AllocError> {
        let clients = four_clients(alloc)?;
        let mut exchanges = Vec::new(alloc);
        let mut frame = Frame::new(alloc)?;
        for place in 0..SIZE as u8 {
            let secret = clients.secret(client_place(place as usize));
            exchanges.push(Exchange::new(alloc, kind, place, secret, &mut frame)?)?;
        }
        Ok(Lot {
            clients,
            door: kind.door(),
            exchanges,
        })
    }

    /// The request at a place.
    pub fn datagram(&self, place: usize) -> &[u8] {
        match self.exchanges.get(place) {
            Some(exchange) => &exchange.datagram,
            None => &[],
        }
    }

    /// The secret of the client whose request is at a place.
    pub fn secret(&self, place: usize) -> &[u8] {
        match self.clients.find(FIRST_CLIENT + client_place(place)) {
            Some(client) => self.clients.secret(client).octets(),
            None => &[],
        }
    }

    /// A group of eight requests.
    pub fn arrivals(&self, group: usize) -> [Option<Arrival<'_>>; 8]
        requires { group < 8 }
    {
        let first = 8 * group;
        [
            self.arrival(first),
            self.arrival(first + 1),
            self.arrival(first + 2),
            self.arrival(first + 3),
            self.arrival(first + 4),
            self.arrival(first + 5),
            self.arrival(first + 6),
            self.arrival(first + 7),
        ]
    }

    fn arrival(&self, place: usize) -> Option<Arrival<'_>> {
        Some(Arrival {
            source: FIRST_CLIENT + client_place(place),
            port: 1024,
            door: self.door,
            octets: self.datagram(place),
        })
    }

    /// The replies to a group.
    pub fn jobs(&self, group: usize) -> [Option<Job<'_>>; 8]
        requires { group < 8 }
        ensures { AreJobs result }
    {
        let first = 8 * group;
        [
            self.job(first),
            self.job(first + 1),
            self.job(first + 2),
            self.job(first + 3),
            self.job(first + 4),
            self.job(first + 5),
            self.job(first + 6),
            self.job(first + 7),
        ]
    }

    /// The reply to the request at a place.
    pub fn job(&self, place: usize) -> Option<Job<'_>>
        ensures { IfSome result IsJob }
    {
        let exchange = self.exchanges.get(place)?;
        self.reply(
            place,
            client_place(place),
            exchange.id,
            exchange.authenticator,
        )
    }

    /// The replies to those of a group that were admitted.
    pub fn jobs_for(&self, verdicts: &Verdicts, group: usize) -> [Option<Job<'_>>; 8]
        requires { group < 8 }
        ensures { AreJobs result }
    {
        let [a, b, c, d, e, f, g, h] = verdicts;
        let first = 8 * group;
        [
            self.job_for(a, first),
            self.job_for(b, first + 1),
            self.job_for(c, first + 2),
            self.job_for(d, first + 3),
            self.job_for(e, first + 4),
            self.job_for(f, first + 5),
            self.job_for(g, first + 6),
            self.job_for(h, first + 7),
        ]
    }

    fn job_for(&self, verdict: &Option<Result<Request, Discard>>, place: usize) -> Option<Job<'_>>
        ensures { IfSome result IsJob }
    {
        match verdict {
            Some(Ok(request)) => {
                let packet = &request.packet;
                self.reply(
                    place,
                    request.client,
                    packet.identifier(),
                    packet.authenticator(),
                )
            }
            _ => None,
        }
    }

    fn reply(&self, place: usize, client: u32, id: u8, authenticator: [u8; 16]) -> Option<Job<'_>>
        ensures { IfSome result IsJob }
    {
        let exchange = self.exchanges.get(place)?;
        if client as usize >= self.clients.len() {
            return None;
        }
        Some(Job {
            body: exchange.reply.body(),
            id,
            request_authenticator: authenticator,
            secret: self.clients.secret(client),
        })
    }
}

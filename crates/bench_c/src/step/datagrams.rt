//! Requests, signed and admitted.
ghost use Rattle.std.specs.Prelude.{All, IfSome};
ghost use Rattle.rad_auth.specs.Admission.{IsAdmitted};

use crate::step::requests::{AUTHENTICATOR, CLIENT, Kind, request};
use crate::step::work::Work;
use rad_auth::{Arrival, Clients, Request, check8, sign_request};
use rad_packet::{Frame, Octets};
use std::alloc::Global;

/// The request of a kind, signed, with the user and the Identifier of a place. A Start, a Stop or an answer means the session or
/// the challenge of this number.
pub(crate) fn datagram(
    alloc: Global,
    clients: &Clients,
    kind: Kind,
    place: usize,
    number: u64,
) -> Option<Frame> {
    let secret = clients.secret(clients.find(CLIENT)?);
    let body = request(alloc, kind, secret, place, number).ok()?;
    let mut frame = Frame::new(alloc).ok()?;
    let id = (place % 256) as u8;
    sign_request(&body, id, &AUTHENTICATOR, secret, &mut frame).ok()?;
    Some(frame)
}

/// The octets of each step's request.
pub(crate) fn datagrams(alloc: Global, clients: &Clients, work: Work) -> Option<Vec<Octets>> {
    let kind = Kind::of(work.kind);
    let mut datagrams = Vec::new(alloc);
    for step in 0..work.steps {
        let frame = datagram(alloc, clients, kind, work.place(step), work.number(step))?;
        datagrams
            .push(Octets::of(alloc, frame.octets()).ok()?)
            .ok()?;
    }
    Some(datagrams)
}

/// The request of each step.
pub(crate) fn admit_each<'a>(
    alloc: Global,
    clients: &Clients,
    datagrams: &'a [Octets],
    work: Work,
) -> Option<Vec<Request<'a>>>
    ensures { IfSome result (λ requests. All (IsAdmitted clients.now) requests.items) }
{
    let kind = Kind::of(work.kind);
    let mut requests = Vec::new(alloc);
    'steps: for step in 0..datagrams.len() {
        let octets = datagrams[step].octets();
        let request = admit(clients, kind, octets, work.place(step))?;
        requests.push(request).ok()?;
    }
    Some(requests)
}

/// The request that a datagram is, which came from the port of a place. 256 places have the same.
pub(crate) fn admit<'a>(
    clients: &Clients,
    kind: Kind,
    octets: &'a [u8],
    place: usize,
) -> Option<Request<'a>>
    ensures { IfSome result (IsAdmitted clients.now) }
{
    let arrival = Arrival {
        source: CLIENT,
        port: 1024 + (place / 256 % 256) as u16,
        door: kind.door(),
        octets,
    };
    let arrivals = [Some(arrival), None, None, None, None, None, None, None];
    let mut verdicts = check8(clients, &arrivals).into_iter();
    match verdicts.next() {
        Some(Some(Ok(request))) => Some(request),
        _ => None,
    }
}

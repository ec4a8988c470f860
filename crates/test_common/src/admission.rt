//! The admission of one arrival.
ghost use Rattle.std.specs.Prelude.{IfSome};
ghost use Rattle.rad_auth.specs.Admission.{IsAdmitted};

use rad_auth::{Arrival, Clients, Request, check8};

/// The request that an arrival is, if it is admitted.
pub fn admit<'a>(clients: &Clients, arrival: Arrival<'a>) -> Option<Request<'a>>
    ensures { IfSome result (IsAdmitted clients.now) }
{
    let arrivals = [Some(arrival), None, None, None, None, None, None, None];
    let mut verdicts = check8(clients, &arrivals).into_iter();
    match verdicts.next() {
        Some(Some(Ok(request))) => Some(request),
        _ => None,
    }
}

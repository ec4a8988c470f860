//! Restoring: the server that a journal's entries lead to.
ghost use Rattle.std.specs.Prelude.{◌≡◌, ◌↔◌, List, Some, IfErr, IfNone, IfOk, IfSome, IsTrue, OnOk};
ghost use Rattle.rad_auth.specs.Admission.{IsAdmitted, admission, own_datagram};
ghost use Rattle.rad_auth.specs.Datagrams.{datagram_of};
ghost use Rattle.rad_journal.specs.Kept.{answer_octets};
ghost use Rattle.rad_journal.specs.Restores.{CannotRestore, HasReason, IsBegun, IsKeptSo, IsNoRequest, IsOfEntry, IsRestored};
ghost use Rattle.rad_journal.specs.Restores.{IsStep, StopsAt, datagram_of_kept, place_of};
ghost use Rattle.rad_journal.specs.Stores.{Beside};
ghost use Rattle.rad_journal.specs.declared.kept.Kept.{Kept};

use crate::journal::{Journal, JournalFault};
use crate::kept::Kept;
use crate::restore_fault::RestoreFault;
use rad_auth::{Arrival, Clients, Discard, Request, check8};
use rad_config::MOMENT_MAX;
use rad_server::{Answer, Server};
use std::alloc::Global;

/// Steps a server through the entries of a journal, from the first to the last. Each has to be answered as it was.
///
/// The clients are those of the server's configuration. At `Err` the server has been stepped through some first entries: up to the
/// one that a fault names, and at `OtherAnswer` through that too. A fault of an entry says that no history of this server is kept
/// as the journal has it.
#[tactic(auto, using(crate::proofs::RunLemmas::restored_next, crate::proofs::RunLemmas::restored_all))]
pub fn restore<J: Journal>(
    alloc: Global,
    journal: &mut J,
    server: &mut Server,
) -> Result<(), RestoreFault>
    ensures clean { J.is_clean journal.new → J.is_clean journal.old }
    ensures restored { OnOk result (J.is_clean journal.new
        → IsRestored server.old (J.kept journal.old) server.new) }
    ensures refused { IfErr result (λ fault. IsOfEntry fault → J.is_clean journal.new
        → CannotRestore server.old (J.kept journal.old)) }
    ensures first { IfErr result (λ fault. IsOfEntry fault → J.is_clean journal.new
        → StopsAt fault server.old (J.kept journal.old) server.new) }
    ensures begun { IfErr result (λ fault. ¬ IsOfEntry fault → J.is_clean journal.new
        → IsBegun server.old (J.kept journal.old) server.new) }
    ensures configuration { server.new.configuration ≡ server.old.configuration }
    ensures kept { OnOk result (J.is_clean journal.new → J.kept journal.new ≡ J.kept journal.old) }
    ensures open { OnOk result (J.is_clean journal.new
        → J.is_open journal.old → J.is_open journal.new) }
    ensures crash { J.is_clean journal.new → (left : List Kept) → J.may_leave journal.new left
        → J.may_leave journal.old left }
    ensures beside { J.is_clean journal.new → (beside : Beside)
        → J.leaves_beside journal.old beside → J.leaves_beside journal.new beside }
{
    for place in 0..u32::MAX {
        let Some(kept) = journal.entry(alloc, place)? else {
            return Ok(());
        };
        step_again(server, &kept, place)?;
    }
    Err(RestoreFault::Journal(JournalFault::Full))
}

// Steps a server through the entry at a place.
fn step_again(server: &mut Server, kept: &Kept, place: u32) -> Result<(), RestoreFault>
    ensures step { OnOk result (IsStep server.old kept.now server.new) }
    ensures place { IfErr result (λ fault. IsOfEntry fault → place_of fault ≡ place) }
    ensures reason { IfErr result (λ fault. IsOfEntry fault
        → HasReason fault server.old kept.now server.new) }
    ensures unchanged { IfErr result (λ fault. ¬ IsOfEntry fault → server.new ≡ server.old) }
    ensures configuration { server.new.configuration ≡ server.old.configuration }
{
    if MOMENT_MAX < kept.moment {
        return Err(RestoreFault::TooLate { entry: place });
    }
    let Some(request) = admit_again(server.config().clients(), kept) else {
        return Err(RestoreFault::NotAdmitted { entry: place });
    };
    let (answer, session) = server.step_naming(&request, kept.moment, &kept.draw)?;
    if !is_kept(&answer, session, kept) {
        return Err(RestoreFault::OtherAnswer { entry: place });
    }
    Ok(())
}

// The request that was kept, if it is admitted, of the client that was, and its octets up to Length are all that was kept.
fn admit_again<'a>(clients: &Clients, kept: &'a Kept) -> Option<Request<'a>>
    ensures admitted { IfSome result (IsAdmitted clients.now) }
    ensures own { IfSome result (λ request. own_datagram request ≡ datagram_of_kept kept.now) }
    ensures client { IfSome result (λ request. request.client ≡ kept.now.client) }
    ensures refused { IfNone result (IsNoRequest clients.now kept.now) }
{
    let octets = kept.octets.octets();
    let arrival = Arrival {
        source: kept.source,
        port: kept.port,
        door: kept.door,
        octets,
    };
    let request = admit(clients, arrival).ok()?;
    if request.client != kept.client || request.packet.octets() != octets {
        return None;
    }
    Some(request)
}

/// The verdict on an arrival.
pub(crate) fn admit<'a>(clients: &Clients, arrival: Arrival<'a>) -> Result<Request<'a>, Discard>
    ensures verdict { result ≡ admission clients.now (datagram_of arrival.entry) }
    ensures admitted { IfOk result (IsAdmitted clients.now) }
{
    let arrivals = [Some(arrival), None, None, None, None, None, None, None];
    let mut verdicts = check8(clients, &arrivals).into_iter();
    match verdicts.next() {
        Some(Some(verdict)) => verdict,
        _ => unreachable!(),
    }
}

// Whether this was kept of an answer and the session that its request names.
fn is_kept(answer: &Answer, session: Option<u64>, kept: &Kept) -> bool
    ensures { IsTrue result ↔ IsKeptSo kept.now answer.now session }
{
    session == kept.session && is_answer(answer, kept.answer.octets())
}

// Whether an answer is kept as these octets.
fn is_answer(answer: &Answer, octets: &[u8]) -> bool
    ensures { IsTrue result ↔ (answer_octets answer.now ≡ Some octets.now) }
{
    let Answer::Send(body) = answer else {
        return false;
    };
    let Some((code, attributes)) = octets.split_first() else {
        return false;
    };
    *code == body.code() && attributes == body.attributes_octets()
}

//! What a turn received.
ghost use Rattle.std.specs.Prelude.{◌≡◌, ◌≤◌, ◌<◌, ◌+◌, ◌*◌, [], ◌∷◌, All, IfErr, IfOk, OnErr, OnOk, length, map, true};
ghost use Rattle.std.specs.Prelude.{vec_capacity, vec_len};
ghost use Rattle.rad_packet.specs.Packets.{length_max};
ghost use Rattle.rad_round.specs.Rounds.{AreMoments, arrivals_max};
ghost use Rattle.rad_shell.specs.Passages.{Fault, HavePassed, Out, came_by, reported_by};
ghost use Rattle.rad_shell.specs.Serving.{AreSent, IsReceived, after_draws, came_in, came_of, draws, is_replied, octet_count};
ghost use Rattle.rad_shell.specs.Serving.{received_all, replies, reply_to};

use crate::ports::{Got, PortFault, Ports, RECEIVED_MAX};
use rad_auth::Arrival;
use rad_round::{ARRIVALS_MAX, Outcome, Timed};
use rand_core::Rng;
use std::alloc::{AllocError, Global};

/// The datagrams of a turn, with their draws. The memory for all of a full round is taken once.
#[derive(Drop)]
pub(crate) struct Received {
    buffer: [u8; RECEIVED_MAX],
    // Those of one datagram after those of another.
    octets: Vec<u8>,
    got: Vec<Got>,
    draws: Vec<[u8; 16]>,
    ghost octets_fit: { length_max * arrivals_max ≤ vec_capacity octets },
    ghost got_fit: { arrivals_max ≤ vec_capacity got },
    ghost draws_fit: { arrivals_max ≤ vec_capacity draws },
    ghost few: { vec_len got ≤ arrivals_max },
    ghost all: { All IsReceived got.items },
    ghost sum: { octet_count got.items ≡ vec_len octets },
}

impl Received {
    /// Memory for the datagrams of a full round.
    pub fn new(alloc: Global) -> Result<Received, AllocError> {
        Ok(Received {
            buffer: [0; RECEIVED_MAX],
            octets: Vec::with_capacity(alloc, RECEIVED_MAX * ARRIVALS_MAX)?,
            got: Vec::with_capacity(alloc, ARRIVALS_MAX)?,
            draws: Vec::with_capacity(alloc, ARRIVALS_MAX)?,
        })
    }

    /// How many datagrams there are.
    pub fn len(&self) -> usize
        ensures few { result ≤ arrivals_max }
        ensures count { result ≡ vec_len self.now.got }
    {
        self.got.len()
    }

    /// Receives until no datagram waits or a round is full. What was there before is dropped. It takes no memory.
    #[tactic(auto, using(crate::proofs::PassageLemmas::octets_more, crate::proofs::PassageLemmas::none_passed))]
    pub fn receive<P: Ports>(&mut self, ports: &mut P) -> Result<(), PortFault>
        ensures passed { HavePassed
            (received_all result (came_in self.new.got.items self.new.octets.items))
            (P.passed ports.old) (P.passed ports.new) }
        ensures reported { P.reported ports.new ≡ P.reported ports.old + reported_by result }
        ensures counted { P.failures ports.old ≤ P.failures ports.new }
        ensures fault { IfErr result (λ _. P.failures ports.old < P.failures ports.new) }
    {
        self.octets.clear();
        self.got.clear();
        for _ in 0..ARRIVALS_MAX {
            let Some(got) = ports.receive(&mut self.buffer)? else {
                return Ok(());
            };
            let Ok(()) = self.octets.extend_from_slice(&self.buffer[..got.len]) else {
                unreachable!();
            };
            self.got.push_reserved(got);
        }
        Ok(())
    }

    /// Takes a draw for each datagram, in order.
    #[tactic(auto, using(crate::proofs::PassageLemmas::draws_more, crate::proofs::PassageLemmas::after_draws_more))]
    pub fn draw<D: Rng>(&mut self, random: &mut D)
        ensures count { vec_len self.new.draws ≡ vec_len self.new.got }
        ensures got { self.new.got.items ≡ self.old.got.items }
        ensures octets { self.new.octets.items ≡ self.old.octets.items }
        ensures drawn { self.new.draws.items ≡ draws (vec_len self.new.got) (D.stream random.old) }
        ensures rest { D.stream random.new
            ≡ after_draws (vec_len self.new.got) (D.stream random.old) }
    {
        self.draws.clear();
        for _ in 0..self.got.len() {
            let mut draw = [0; 16];
            random.fill_bytes(&mut draw);
            self.draws.push_reserved(draw);
        }
    }

    /// The datagrams as arrivals of a round.
    #[tactic(auto, using(crate::proofs::PassageLemmas::octets_left, crate::proofs::PassageLemmas::came_more, crate::proofs::PassageLemmas::drawn_more))]
    pub fn arrivals(&self, alloc: Global) -> Result<Vec<Timed<'_>>, AllocError>
        requires drawn { vec_len self.now.draws ≡ vec_len self.now.got }
        ensures few { IfOk result (λ arrivals. length arrivals.items ≤ arrivals_max) }
        ensures count { IfOk result (λ arrivals. length arrivals.items ≡ vec_len self.now.got) }
        ensures moments { IfOk result (λ arrivals. AreMoments arrivals.items) }
        ensures came { IfOk result (λ arrivals.
            map came_of arrivals.items ≡ came_in self.now.got.items self.now.octets.items) }
        ensures draws { IfOk result (λ arrivals.
            map (λ timed. timed.draw) arrivals.items ≡ self.now.draws.items) }
    {
        let mut arrivals = Vec::with_capacity(alloc, self.got.len())?;
        let mut rest = self.octets.as_slice();
        for i in 0..self.got.len() {
            let got = self.got[i];
            let Some((octets, after)) = rest.split_at_checked(got.len) else {
                unreachable!();
            };
            let arrival = Arrival {
                source: got.source,
                port: got.port,
                door: got.door,
                octets,
            };
            arrivals.push(Timed {
                arrival,
                moment: got.moment,
                draw: self.draws[i],
            })?;
            rest = after;
        }
        Ok(arrivals)
    }

    /// Sends the replies among the outcomes of the datagrams, in order, each to where its datagram came from.
    #[tactic(auto, using(crate::proofs::PassageLemmas::none_sent, crate::proofs::PassageLemmas::one_more_sent, crate::proofs::PassageLemmas::all_sent, crate::proofs::PassageLemmas::sent_until))]
    pub fn reply<P: Ports>(&self, ports: &mut P, outcomes: &[Outcome]) -> Result<(), PortFault>
        requires count { length outcomes.now ≡ vec_len self.now.got }
        ensures sent { AreSent
            (replies (came_in self.now.got.items self.now.octets.items) outcomes.now)
            result (P.passed ports.old) (P.passed ports.new) }
        ensures reported { P.reported ports.new ≡ P.reported ports.old + reported_by result }
        ensures counted { P.failures ports.old ≤ P.failures ports.new }
        ensures fault { IfErr result (λ _. P.failures ports.old < P.failures ports.new) }
    {
        for i in 0..outcomes.len() {
            send_reply(ports, &self.got[i], &outcomes[i])?;
        }
        Ok(())
    }
}

// Sends the reply to a datagram, if its outcome is one, to where it came from.
fn send_reply<P: Ports>(ports: &mut P, got: &Got, outcome: &Outcome) -> Result<(), PortFault>
    ensures sent { OnOk result (HavePassed (map Out (reply_to (came_by got.now []) outcome.now))
        (P.passed ports.old) (P.passed ports.new)) }
    ensures refused { OnErr result
        (HavePassed (Fault ∷ []) (P.passed ports.old) (P.passed ports.new)) }
    ensures replied { OnErr result (is_replied outcome.now ≡ true) }
    ensures reported { P.reported ports.new ≡ P.reported ports.old + reported_by result }
    ensures counted { P.failures ports.old ≤ P.failures ports.new }
    ensures fault { IfErr result (λ _. P.failures ports.old < P.failures ports.new) }
{
    if let Outcome::Reply(frame) = outcome {
        ports.send(got.door, got.source, got.port, frame.octets())?;
    }
    Ok(())
}

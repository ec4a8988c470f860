//! Turns: in each, datagrams are received and answered in a round, which is kept, and then their replies are sent.
ghost use Rattle.std.specs.Prelude.{◌≡◌, ◌⊎◌, ◌≤◌, ◌<◌, ◌+◌, ◌++◌, cond, false, length, List, IfErr, IfNone, IfOk, IfSome, IsSome};
ghost use Rattle.std.specs.Prelude.{IsTrue, OnErr, OnOk, vec_len};
ghost use Rattle.std.specs.List.{list_any};
ghost use Rattle.rad_round.specs.Rounds.{workers_max};
ghost use Rattle.rad_server.specs.Runs.{fresh_of};
ghost use Rattle.rad_journal.specs.Journals.{added};
ghost use Rattle.rad_journal.specs.Kept.{kept_of};
ghost use Rattle.rad_journal.specs.declared.kept.Kept.{Kept};
ghost use Rattle.rad_journal.specs.Stores.{Beside};
ghost use Rattle.rad_shell.specs.Serving.{AddUp, AddsTurn, HasCause, IsBetween, IsCounted, IsRoundMade, IsServed, Outlives};
ghost use Rattle.rad_shell.specs.Serving.{UnlessJournal, came_in, is_refused, port_faults, turns_max, wants_time};

use crate::ports::Ports;
use crate::received::Received;
use crate::serve_fault::ServeFault;
use crate::served::Served;
use crate::watch::{Turn, Watch};
use rad_journal::{Journal, JournalFault, NoJournal, keep, kept_is_enough};
use rad_round::{Gate, Marked, Outcome, Service, Timed};
use rad_server::{Entry, runs_are_lawful, runs_repeat, time_passes_unseen};
use rand_core::Rng;
use std::alloc::{AllocError, Global};
use std::sync::Wait;
use std::thread::Threads;

/// The fewest datagrams of a turn whose round takes two workers less time than one. More than two workers never pay.
const TWO_WORKERS_FROM: usize = 512;

/// What a turn leaves to be done before the next one.
#[derive(Clone, Copy, PartialEq, Eq)]
enum Left {
    Nothing,
    /// Time is to pass for the server: no datagram came, or memory was refused for one.
    Time,
}

/// What turns have besides a service and its ports: the source of their draws, the gate of their rounds, who watches them, and
/// memory for the datagrams of a turn, which each turn uses again.
#[derive(Drop)]
pub struct Turns<'a, D, G, W> {
    random: &'a mut D,
    gate: &'a G,
    watch: W,
    // None if its memory has been refused so far.
    memory: Option<Received>,
}

impl<'a, D: Rng, G: Gate + Sync, W: Watch + Drop> Turns<'a, D, G, W> {
    /// Takes the memory, so that no turn can be refused it.
    pub fn open(
        alloc: Global,
        random: &'a mut D,
        gate: &'a G,
        watch: W,
    ) -> Result<Turns<'a, D, G, W>, AllocError>
        ensures memory { IfOk result (λ turns. IsSome turns.memory) }
        ensures random { IfOk result (λ turns. turns.random.ghost_name ≡ random.entry.ghost_name) }
        ensures stream { IfOk result (λ turns. turns.random.now ≡ random.old) }
    {
        let memory = Some(Received::new(alloc)?);
        Ok(Turns {
            random,
            gate,
            watch,
            memory,
        })
    }

    /// Turns whose first one takes the memory. A turn that is refused it is lost, and the next one tries again.
    pub(crate) fn without_room(random: &'a mut D, gate: &'a G, watch: W) -> Turns<'a, D, G, W>
        ensures random { result.random.ghost_name ≡ random.entry.ghost_name }
        ensures stream { result.random.now ≡ random.old }
    {
        Turns {
            random,
            gate,
            watch,
            memory: None,
        }
    }

    /// Who watches.
    pub fn watch(&mut self) -> &mut W {
        &mut self.watch
    }

    /// Answers the datagrams that come to ports, in so many turns, by at most so many workers, from 1 to `WORKERS_MAX`.
    ///
    /// It is `run_keeping` with a journal that keeps nothing: `ServeFault::Journal` never comes.
    pub fn run<R: Threads + Wait + Sync, P: Ports>(
        &mut self,
        rt: &R,
        service: &mut Service,
        ports: &mut P,
        rounds: u32,
        workers: u64,
    ) -> Result<Served, ServeFault>
        requires workers { (1 ≤ workers) × (workers ≤ workers_max) }
        ensures served { IsServed false rounds
            (record {
              server = service.old;
              random = D.stream self.old.random.now;
              passed = P.passed ports.old;
            })
            result
            (record {
              server = service.new;
              random = D.stream self.new.random.now;
              passed = P.passed ports.new;
            }) }
        ensures random { self.new.random.ghost_name ≡ self.old.random.ghost_name }
        ensures reported { P.reported ports.new ≡ P.reported ports.old + port_faults result }
        ensures fault { IfErr result
            (HasCause false (P.failures ports.old) (P.failures ports.new)) }
        ensures counted { P.failures ports.old ≤ P.failures ports.new }
    {
        self.run_keeping(rt, service, ports, &mut NoJournal, rounds, workers)
    }

    /// The same, and what a journal has to keep of each turn is kept before a reply of it is sent.
    ///
    /// A turn waits, receives until no datagram waits or there are `ARRIVALS_MAX`, takes 16 octets of the source for each datagram,
    /// in order of arrival, makes a round of them, commits its fresh entries to the journal, and sends the replies in order of
    /// arrival. If memory is refused for a round, its datagrams are lost, and after a pause the next turn goes on with the server
    /// as it was. After a turn without datagrams, or one that was refused memory, time passes for the server, so that what has
    /// expired gives its memory back. A fault ends the turns: `ServeFault::Receive` or `ServeFault::Send`, if a port failed;
    /// `ServeFault::Journal`, if the journal failed: then the server is ahead of the journal, and nobody was told.
    /// `ServeFault::Mismatch` never comes. The call may wait.
    pub fn run_keeping<R: Threads + Wait + Sync, P: Ports, J: Journal>(
        &mut self,
        rt: &R,
        service: &mut Service,
        ports: &mut P,
        journal: &mut J,
        rounds: u32,
        workers: u64,
    ) -> Result<Served, ServeFault>
        requires workers { (1 ≤ workers) × (workers ≤ workers_max) }
        ensures served { (served : IsServed J.keeps rounds
            (record {
              server = service.old;
              random = D.stream self.old.random.now;
              passed = P.passed ports.old;
            })
            result
            (record {
              server = service.new;
              random = D.stream self.new.random.now;
              passed = P.passed ports.new;
            })) × (J.is_clean journal.new → J.is_open journal.old → Outlives
            (J.kept journal.old) served.tally result
            (J.kept journal.new) (J.may_leave journal.new)) }
        ensures random { self.new.random.ghost_name ≡ self.old.random.ghost_name }
        ensures reported { P.reported ports.new ≡ P.reported ports.old + port_faults result }
        ensures fault { IfErr result
            (HasCause J.keeps (P.failures ports.old) (P.failures ports.new)) }
        ensures counted { P.failures ports.old ≤ P.failures ports.new }
        ensures clean { J.is_clean journal.new → J.is_clean journal.old }
        ensures open { UnlessJournal result
            (J.is_clean journal.new → J.is_open journal.old → J.is_open journal.new) }
        ensures beside { J.is_clean journal.new → (beside : Beside)
            → J.leaves_beside journal.old beside → J.leaves_beside journal.new beside }
    {
        service.server().state_is_lawful();
        runs_repeat();
        runs_are_lawful();
        time_passes_unseen();
        kept_is_enough();
        let mut served = Served::nothing();
        for _ in 0..rounds {
            let left = self.make_turn(rt, service, ports, journal, workers, &mut served)?;
            do_left(left, service, ports);
        }
        Ok(served)
    }

    // Takes the memory for datagrams if there is none, unless memory is refused.
    fn take_room(&mut self, alloc: Global)
        ensures { self.new.random ≡ self.old.random }
    {
        if self.memory.is_none() {
            self.memory = Received::new(alloc).ok();
        }
    }

    // Makes a turn, and adds it to the sums.
    fn make_turn<R: Threads + Wait + Sync, P: Ports, J: Journal>(
        &mut self,
        rt: &R,
        service: &mut Service,
        ports: &mut P,
        journal: &mut J,
        workers: u64,
        served: &mut Served,
    ) -> Result<Left, ServeFault>
        requires workers { (1 ≤ workers) × (workers ≤ workers_max) }
        requires sums { AddUp served.old }
        requires turns { served.old.rounds < turns_max }
        ensures turn { (turn : IsCounted J.keeps
            (record {
              server = service.old;
              random = D.stream self.old.random.now;
              passed = P.passed ports.old;
            })
            served.old result
            (record {
              server = service.new;
              random = D.stream self.new.random.now;
              passed = P.passed ports.new;
            })
            served.new) × (J.is_clean journal.new → AddsTurn (J.kept journal.old) turn.tally result
            (J.kept journal.new) (J.may_leave journal.old) (J.may_leave journal.new)) }
        ensures random { self.new.random.ghost_name ≡ self.old.random.ghost_name }
        ensures reported { P.reported ports.new ≡ P.reported ports.old + port_faults result }
        ensures counted { P.failures ports.old ≤ P.failures ports.new }
        ensures fault { IfErr result
            (HasCause J.keeps (P.failures ports.old) (P.failures ports.new)) }
        ensures clean { J.is_clean journal.new → J.is_clean journal.old }
        ensures open { UnlessJournal result
            (J.is_clean journal.new → J.is_open journal.old → J.is_open journal.new) }
        ensures beside { J.is_clean journal.new → (beside : Beside)
            → J.leaves_beside journal.old beside → J.leaves_beside journal.new beside }
    {
        ports.wait(rt);
        self.take_room(service.alloc());
        let Turns {
            random,
            gate,
            watch,
            memory,
        } = self;
        let Some(received) = memory else {
            served.add_lost(0);
            watch.lost(service, 0);
            ports.pause();
            return Ok(Left::Time);
        };
        if received.receive(ports).is_err() {
            return Err(ServeFault::Receive);
        }
        watch.received();
        received.draw(*random);
        let clock = service.server().clock();
        let Some((arrivals, made)) = answer(service, rt, received, *gate, workers) else {
            served.add_lost(received.len());
            watch.lost(service, received.len());
            ports.pause();
            return Ok(Left::Time);
        };
        let Marked { done, marks } = made;
        served.add_outcomes(&done.outcomes);
        let wall = ports.wall();
        if let Err(fault) = commit(service.alloc(), journal, wall, clock, &done.history, &marks) {
            return Err(ServeFault::Journal(fault));
        }
        let sent = received.reply(ports, &done.outcomes);
        watch.see(&Turn {
            service,
            arrivals: &arrivals,
            done: &done,
            marks: &marks,
            faults: ports.faults(),
            last_failure: ports.last_failure(),
        });
        if sent.is_err() {
            return Err(ServeFault::Send);
        }
        let left = left_by(&done.outcomes);
        service.reuse(done);
        Ok(left)
    }
}

// What a turn with these outcomes leaves to be done.
fn left_by(outcomes: &[Outcome]) -> Left
    ensures { result ≡ cond (wants_time outcomes.now) Left.Time Left.Nothing }
{
    if outcomes.is_empty() || has_refused(outcomes) {
        Left::Time
    } else {
        Left::Nothing
    }
}

// Whether memory was refused for a datagram.
fn has_refused(outcomes: &[Outcome]) -> bool
    ensures { result ≡ list_any is_refused outcomes.now }
{
    outcomes.iter().any(|outcome| is_refused(outcome))
}

fn is_refused(outcome: &Outcome) -> bool
    ensures { result ≡ is_refused outcome.now }
{
    matches!(outcome, Outcome::NoMemory)
}

// Lets time pass for the server up to now, if that is left to be done and the ports have a clock.
#[tactic(auto, using(crate::proofs::ServingLemmas::between_by, crate::proofs::ServingLemmas::none_between))]
fn do_left<P: Ports>(left: Left, service: &mut Service, ports: &mut P)
    ensures between { IsBetween service.old (P.passed ports.old) service.new (P.passed ports.new) }
    ensures reported { P.reported ports.new ≡ P.reported ports.old }
    ensures counted { P.failures ports.old ≤ P.failures ports.new }
{
    if left == Left::Nothing {
        return;
    }
    if let Some(moment) = ports.moment() {
        service.pass(moment);
    }
}

// Adds what is to be kept of a history to a journal that keeps anything at all.
fn commit<J: Journal>(
    alloc: Global,
    journal: &mut J,
    wall: u64,
    clock: u64,
    history: &[Entry],
    marks: &[bool],
) -> Result<(), JournalFault>
    requires count { length marks.now ≡ length history.now }
    ensures clean { J.is_clean journal.new → J.is_clean journal.old }
    ensures kept { OnOk result (J.is_clean journal.new → J.kept journal.new ≡ J.kept journal.old
        ++ added J.keeps (kept_of wall (fresh_of clock history.now marks.now))) }
    ensures open { OnOk result (J.is_clean journal.new
        → J.is_open journal.old → J.is_open journal.new) }
    ensures crash { J.is_clean journal.new → (left : List Kept) → J.may_leave journal.new left
        → J.may_leave journal.old left ⊎ (left ≡ J.kept journal.old
        ++ added J.keeps (kept_of wall (fresh_of clock history.now marks.now))) }
    ensures beside { J.is_clean journal.new → (beside : Beside)
        → J.leaves_beside journal.old beside → J.leaves_beside journal.new beside }
    ensures keeps { OnErr result (IsTrue J.keeps) }
{
    if !journal.keeps() {
        return Ok(());
    }
    let kept = keep(alloc, wall, clock, history, marks)?;
    journal.commit(&kept)
}

// The received datagrams, and what a round of them made; none if the round is lost.
fn answer<'t, R: Threads + Wait + Sync, G: Gate + Sync>(
    service: &mut Service,
    rt: &R,
    received: &'t Received,
    gate: &G,
    workers: u64,
) -> Option<(Vec<Timed<'t>>, Marked)>
    requires workers { (1 ≤ workers) × (workers ≤ workers_max) }
    requires drawn { vec_len received.now.draws ≡ vec_len received.now.got }
    ensures made { IfSome result (λ made. IsRoundMade service.old
        (came_in received.now.got.items received.now.octets.items) received.now.draws.items
        made.1.done.outcomes.items made.1.done.history.items made.1.marks.items service.new) }
    ensures count { IfSome result (λ made.
        length made.1.done.outcomes.items ≡ vec_len received.now.got) }
    ensures marks { IfSome result (λ made.
        length made.1.marks.items ≡ length made.1.done.history.items) }
    ensures lost { IfNone result (service.new ≡ service.old) }
{
    service.server().state_is_lawful();
    kept_is_enough();
    let Ok(arrivals) = received.arrivals(service.alloc()) else {
        return None;
    };
    let workers = workers.min(workers_that_pay(arrivals.len()));
    let Ok(made) = service.round_marked(rt, &arrivals, workers, gate) else {
        return None;
    };
    Some((arrivals, made))
}

// How many workers take the least time for a round of so many datagrams.
fn workers_that_pay(datagrams: usize) -> u64
    ensures { (1 ≤ result) × (result ≤ 2) }
{
    if datagrams < TWO_WORKERS_FROM { 1 } else { 2 }
}

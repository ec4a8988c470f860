//! The datagrams of a round, answered by one thread alone: eight are checked side by side, asked one after another, and sealed side
//! by side.
ghost use Rattle.std.specs.Prelude.{◌≡◌, All, IfSome};
ghost use Rattle.rad_auth.specs.Admission.{HoldsAdmitted};
ghost use Rattle.rad_auth.specs.Sealing.{IsJob};
ghost use Rattle.rad_server.specs.Steps.{IsSealable};

use crate::datagrams::Replies;
use rad_auth::{Arrival, Clients, Discard, Job, Request, check8, seal8};
use rad_config::MOMENT_MAX;
use rad_packet::Frame;
use rad_server::{Answer, Server};
use rad_shell::Timed;

type Verdict<'a> = Option<Result<Request<'a>, Discard>>;

/// Answers the datagrams, and counts the replies that are sealed.
pub(crate) fn answer_alone(
    server: &mut Server,
    arrivals: &[Timed],
    frames: &mut [Frame; 8],
) -> Replies {
    let mut replies = Replies::none();
    for batch in arrivals.chunks(8) {
        answer_batch(server, batch, frames, &mut replies);
    }
    replies
}

fn answer_batch(
    server: &mut Server,
    batch: &[Timed],
    frames: &mut [Frame; 8],
    replies: &mut Replies,
) {
    let clients = server.config().clients();
    let verdicts = check8(
        clients,
        &[
            arrival(batch, 0),
            arrival(batch, 1),
            arrival(batch, 2),
            arrival(batch, 3),
            arrival(batch, 4),
            arrival(batch, 5),
            arrival(batch, 6),
            arrival(batch, 7),
        ],
    );
    let [a, b, c, d, e, f, g, h] = &verdicts;
    let answers = [
        step(server, clients, batch, 0, a),
        step(server, clients, batch, 1, b),
        step(server, clients, batch, 2, c),
        step(server, clients, batch, 3, d),
        step(server, clients, batch, 4, e),
        step(server, clients, batch, 5, f),
        step(server, clients, batch, 6, g),
        step(server, clients, batch, 7, h),
    ];
    seal(clients, &verdicts, &answers, frames, replies);
}

// Seals the answers to the requests of a batch, and counts them.
fn seal<'a>(
    clients: &'a Clients,
    verdicts: &[Verdict; 8],
    answers: &'a [Option<Answer>; 8],
    frames: &mut [Frame; 8],
    replies: &mut Replies,
)
    requires verdicts { All (HoldsAdmitted clients.now) verdicts.now }
    requires answers { All (λ answer. IfSome answer IsSealable) answers.now }
{
    let jobs = [
        job(clients, &verdicts[0], &answers[0]),
        job(clients, &verdicts[1], &answers[1]),
        job(clients, &verdicts[2], &answers[2]),
        job(clients, &verdicts[3], &answers[3]),
        job(clients, &verdicts[4], &answers[4]),
        job(clients, &verdicts[5], &answers[5]),
        job(clients, &verdicts[6], &answers[6]),
        job(clients, &verdicts[7], &answers[7]),
    ];
    seal8(&jobs, frames);
    for job in jobs.iter().flatten() {
        replies.add(job.body.code());
    }
}

fn arrival<'a>(batch: &[Timed<'a>], lane: usize) -> Option<Arrival<'a>> {
    let timed = batch.get(lane)?;
    Some(timed.arrival)
}

// The answer to the request of a lane, if there is one.
fn step(
    server: &mut Server,
    clients: &Clients,
    batch: &[Timed],
    lane: usize,
    verdict: &Verdict,
) -> Option<Answer>
    requires clients { clients.now ≡ server.old.configuration.clients }
    requires verdict { HoldsAdmitted clients.now verdict.now }
    ensures clients { clients.now ≡ server.new.configuration.clients }
    ensures answer { IfSome result IsSealable }
{
    let Some(Ok(request)) = verdict else {
        return None;
    };
    let timed = batch.get(lane)?;
    server
        .step(request, timed.moment.min(MOMENT_MAX), &timed.draw)
        .ok()
}

fn job<'a>(clients: &'a Clients, verdict: &Verdict, answer: &'a Option<Answer>) -> Option<Job<'a>>
    requires verdict { HoldsAdmitted clients.now verdict.now }
    requires answer { IfSome answer.now IsSealable }
    ensures { IfSome result IsJob }
{
    let Some(Ok(request)) = verdict else {
        return None;
    };
    let Some(Answer::Send(body)) = answer else {
        return None;
    };
    Some(Job::of(clients, request, body))
}

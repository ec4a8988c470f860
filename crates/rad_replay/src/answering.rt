//! The answering of one datagram after the other, with the server's state carried along.
ghost use Rattle.std.specs.Prelude.{◌≡◌, ◌≤◌, IfOk};
ghost use Rattle.rad_auth.specs.Admission.{IsAdmitted, admission};
ghost use Rattle.rad_auth.specs.Datagrams.{datagram_of};
ghost use Rattle.rad_auth.specs.Sealing.{IsReply};
ghost use Rattle.rad_config.specs.Spans.{moment_max};
ghost use Rattle.rad_server.specs.States.{opening};
ghost use Rattle.rad_server.specs.Steps.{IsSealable};
ghost use Rattle.rad_replay.specs.Replays.{IsFirstOf, IsLineOf, IsLineOfRequest, datagram_arrived, line_of_result};
ghost use Rattle.rad_replay.specs.Transcripts.{draw_of, sealed_reply};

use crate::output_line::OutputLine;
use rad_auth::{Arrival, Clients, Discard, Job, Request, check8, seal8};
use rad_config::Config;
use rad_packet::{Body, Frame};
use rad_server::{Answer, Server};
use std::alloc::{AllocError, Global};
use std::marker::Model;

/// What a replay keeps from line to line: the server, the line of the last datagram, and frames to seal in.
#[derive(Drop)]
pub struct Replay<'a> {
    server: Server<'a>,
    line: OutputLine,
    frames: [Frame; 8],
}

impl<'a> Model for Replay<'a> {
    ghost use Rattle.rad_replay.specs.Replays.{Replay};

    ghost Value = { Replay };

    ghost view = { λ replay. record {
      configuration = replay.server.configuration;
      state = replay.server.state;
      line = replay.line;
    } };
}

impl<'a> Replay<'a> {
    /// The opening state, and all the memory that a line needs beside that of its step.
    pub fn open(alloc: Global, config: &'a Config) -> Result<Replay<'a>, AllocError>
        ensures configuration { IfOk result (λ replay. replay.configuration ≡ config.now) }
        ensures state { IfOk result (λ replay. replay.state ≡ opening config.now) }
    {
        let line = OutputLine::new(alloc)?;
        let frames = [
            Frame::new(alloc)?,
            Frame::new(alloc)?,
            Frame::new(alloc)?,
            Frame::new(alloc)?,
            Frame::new(alloc)?,
            Frame::new(alloc)?,
            Frame::new(alloc)?,
            Frame::new(alloc)?,
        ];
        let server = Server::open(alloc, config)?;
        Ok(Replay {
            server,
            line,
            frames,
        })
    }

    /// The line of the last datagram.
    pub fn line(&self) -> &[u8]
        ensures { result.now ≡ self.now.line }
    {
        self.line.octets()
    }

    /// Makes the line for a datagram, and goes on to the next state.
    pub fn answer(&mut self, number: u64, moment: u64, draw: Option<[u8; 16]>, arrival: Arrival)
        requires { moment ≤ moment_max }
        ensures line { IsLineOf number (datagram_arrived moment draw arrival.entry)
            self.old self.new }
        ensures configuration { self.new.configuration ≡ self.old.configuration }
    {
        match admit(self.server.config().clients(), arrival) {
            Err(discard) => self.line.write_drop(number, discard),
            Ok(request) => self.answer_request(number, moment, draw, &request),
        }
    }

    fn answer_request(
        &mut self,
        number: u64,
        moment: u64,
        draw: Option<[u8; 16]>,
        request: &Request,
    )
        requires moment { moment ≤ moment_max }
        requires admitted { IsAdmitted self.old.configuration.clients request.now }
        ensures line { IsLineOfRequest number moment draw request.now self.old self.new }
        ensures configuration { self.new.configuration ≡ self.old.configuration }
    {
        let answer = self.server.step(request, moment, &draw_of(number, draw));
        self.write_answer(number, request, answer);
    }

    // Makes the line of an answer, or that there was no memory for one.
    fn write_answer(&mut self, number: u64, request: &Request, answer: Result<Answer, AllocError>)
        requires admitted { IsAdmitted self.old.configuration.clients request.now }
        requires sealable { IfOk answer IsSealable }
        ensures line { self.new.line
            ≡ line_of_result self.old.configuration number request.now answer }
        ensures state { self.new.state ≡ self.old.state }
        ensures configuration { self.new.configuration ≡ self.old.configuration }
    {
        let Replay {
            server,
            line,
            frames,
        } = self;
        match answer {
            Err(_) => line.write_nomemory(number),
            Ok(Answer::Busy) => line.write_busy(number),
            Ok(Answer::Send(body)) => {
                seal(server.config().clients(), request, &body, frames);
                let [sealed, ..] = &*frames;
                line.write_reply(number, sealed.octets());
            }
        }
    }
}

// Seals a reply into the first frame.
fn seal<'x>(clients: &'x Clients, request: &Request, body: &'x Body, frames: &mut [Frame; 8])
    requires reply { IsReply body.now }
    requires admitted { IsAdmitted clients.now request.now }
    ensures { IsFirstOf frames.new (sealed_reply clients.now request.now body.now) }
{
    let job = Job::of(clients, request, body);
    let jobs = [Some(job), None, None, None, None, None, None, None];
    seal8(&jobs, frames);
}

// The verdict on one arrival.
fn admit<'a>(clients: &Clients, arrival: Arrival<'a>) -> Result<Request<'a>, Discard>
    ensures verdict { result ≡ admission clients.now (datagram_of arrival.entry) }
    ensures admitted { IfOk result (IsAdmitted clients.now) }
{
    let arrivals = [Some(arrival), None, None, None, None, None, None, None];
    let mut verdicts = check8(clients, &arrivals).into_iter();
    match verdicts.next() {
        Some(Some(verdict)) => verdict,
        _ => unreachable!(),
    }
}

// The draw of a datagram: that of its line if it has one, or else its number in 16 octets, most significant octet first.
fn draw_of(number: u64, draw: Option<[u8; 16]>) -> [u8; 16]
    ensures { result ≡ draw_of number draw }
{
    let [a, b, c, d, e, f, g, h] = number.to_be_bytes();
    draw.unwrap_or([0, 0, 0, 0, 0, 0, 0, 0, a, b, c, d, e, f, g, h])
}

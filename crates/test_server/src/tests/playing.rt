//! A run of the server: requests are admitted, and answered in turn.
ghost use Rattle.std.specs.Prelude.{◌≡◌, IfSome};

use super::requests::{Asked, CROWD, KAY, START, Sent};
use super::texts::{CHALLENGED, RESPONSE};
use super::{Answered, Filling, Step};
use rad_auth::Arrival;
use rad_config::{Config, MOMENT_MAX};
use rad_packet::Body;
use rad_packet::code::{ACCESS_ACCEPT, ACCESS_CHALLENGE, ACCESS_REJECT, ACCOUNTING_RESPONSE};
use rad_pool::{Phase, Session, Sessions};
use rad_recent::{Challenge, Challenges, Kept, Key, Recent};
use rad_server::{Answer, Book, RowFault, Server, StateRow};
use std::alloc::{AllocError, Global};
use test_common::{DRAW, PORT, admit};

/// The front of the attributes of an Access-Accept, Access-Reject or Access-Challenge: the Message-Authenticator, whose octets
/// sealing puts in.
const FRONT: &[u8; 18] = b"\x50\x12\0\0\0\0\0\0\0\0\0\0\0\0\0\0\0\0";

/// A book of a server, and the configuration that the server was opened with.
#[derive(Drop)]
pub(crate) struct Run<'c> {
    alloc: Global,
    config: &'c Config,
    book: Book<'c>,
    ghost opened: { book.server.configuration ≡ config.now },
}

impl<'c> Run<'c> {
    pub fn open(alloc: Global, config: &'c Config) -> Result<Run<'c>, AllocError> {
        let server = Server::open(alloc, config)?;
        Run::open_from(alloc, config, &server)
    }

    fn open_from(
        alloc: Global,
        config: &'c Config,
        server: &Server<'c>,
    ) -> Result<Run<'c>, AllocError>
        requires { server.now.configuration ≡ config.now }
    {
        let book = Book::open(alloc, server)?;
        Ok(Run {
            alloc,
            config,
            book,
        })
    }

    /// Whether a step at a moment has the outcome that it must have.
    pub fn takes(&mut self, moment: u64, step: &Step) -> bool {
        match step {
            Step::Ask(asked, answered) => self.answers(moment, PORT, asked, answered),
            Step::AskFrom(port, asked, answered) => self.answers(moment, *port, asked, answered),
            Step::Still(asked, answered) => self.stays(moment, asked, answered),
            Step::Copy(asked, answered) => self.copies(moment, asked, answered),
            Step::Open(text, is_same) => self.is_like(text) == *is_same,
            Step::Fill(filling, count) => self.fills(moment, *filling, *count),
            Step::Sessions(wanted) => {
                let server = self.book.server();
                server.clock() == moment && are_sessions(server.sessions(), wanted)
            }
            Step::Replies(wanted) => are_replies(self.book.server().recent(), wanted),
            Step::Challenges(wanted) => are_challenges(self.book.server().challenges(), wanted),
        }
    }

    /// Whether a request at a moment, from a port, is answered as it must be.
    pub fn answers(&mut self, moment: u64, port: u16, asked: &Asked, answered: &Answered) -> bool {
        match self.answer(moment, port, asked) {
            Some(answer) => is_answer(&answer, answered),
            None => false,
        }
    }

    // Whether a request is answered as it must be, and the server is the same after it.
    fn stays(&mut self, moment: u64, asked: &Asked, answered: &Answered) -> bool {
        let Ok(before) = self.book.server().copy() else {
            return false;
        };
        self.answers(moment, PORT, asked, answered) && before.same(self.book.server())
    }

    // Whether a copy is the same, differs once this server has answered a request, and is the same once it has answered it too.
    fn copies(&mut self, moment: u64, asked: &Asked, answered: &Answered) -> bool {
        let Ok(book) = Book::open(self.alloc, self.book.server()) else {
            return false;
        };
        let mut copy = Run {
            alloc: self.alloc,
            config: self.config,
            book,
        };
        self.parts_from(&mut copy, moment, asked, answered)
    }

    // Whether a copy is so.
    fn parts_from(
        &mut self,
        copy: &mut Run,
        moment: u64,
        asked: &Asked,
        answered: &Answered,
    ) -> bool {
        copy.is_at(self)
            && self.answers(moment, PORT, asked, answered)
            && !copy.is_at(self)
            && copy.answers(moment, PORT, asked, answered)
            && copy.is_at(self)
    }

    // Whether the server of this run is the same as that of another.
    fn is_at(&self, other: &Run) -> bool {
        self.book.server().same(other.book.server())
    }

    /// Whether this run and another answer a request alike and are at the same state then; the other is rebuilt from its rows.
    pub fn goes_with(&mut self, twin: &mut Run, moment: u64, port: u16, asked: &Asked) -> bool {
        let (Some(answer), Some(other)) = (
            self.answer(moment, port, asked),
            twin.answer(moment, port, asked),
        ) else {
            return false;
        };
        answer.same(&other) && twin.is_rebuilt() && twin.is_at(self)
    }

    /// Whether a server that is rebuilt from the rows of this one is the same. It takes this one's place.
    pub fn is_rebuilt(&mut self) -> bool {
        let Some(server) = rebuilt(self.alloc, self.config, self.book.server()) else {
            return false;
        };
        let is_same = server.same(self.book.server());
        let Ok(run) = Run::open_from(self.alloc, self.config, &server) else {
            return false;
        };
        *self = run;
        is_same
    }

    // Whether a server that is opened with a configuration is the same as this one.
    fn is_like(&self, text: &str) -> bool {
        match Config::read(self.alloc, text) {
            Ok(config) => self.is_opened_with(&config),
            Err(_) => false,
        }
    }

    fn is_opened_with(&self, config: &Config) -> bool {
        match Server::open(self.alloc, config) {
            Ok(server) => server.same(self.book.server()),
            Err(_) => false,
        }
    }

    /// Whether so many requests, each with a port or an Identifier of its own, are answered as they must be.
    pub fn fills(&mut self, moment: u64, filling: Filling, count: u32) -> bool {
        for place in 0..count {
            if !self.fills_one(moment, filling, place) {
                return false;
            }
        }
        true
    }

    // The same for the one at this place, counted from 0.
    fn fills_one(&mut self, moment: u64, filling: Filling, place: u32) -> bool {
        let port = PORT + (place / 256 % 256) as u16;
        let identifier = (place % 256) as u8;
        let number = place as u64 + 1;
        match filling {
            Filling::Sessions => {
                let asked = Asked::Access(identifier, CROWD[(place / 4_096 % 16) as usize]);
                self.answers(moment, port, &asked, &Answered::Accept(&class_of(number)))
            }
            Filling::Replies => {
                let asked = Asked::Account(identifier, &[START]);
                self.answers(moment, port, &asked, &RESPONSE)
            }
            Filling::Challenges => {
                let asked = Asked::Access(identifier, &[KAY, Sent::Hidden(b"pw")]);
                let challenge = challenge_of(number);
                self.answers(moment, port, &asked, &Answered::Challenge(&challenge))
            }
        }
    }

    // The answer to a request; none if it isn't admitted.
    fn answer(&mut self, moment: u64, port: u16, asked: &Asked) -> Option<Answer> {
        if let Asked::Octets(octets) | Asked::OtherOctets(octets) = asked {
            return self.step(moment, arrival(port, asked, octets));
        }
        let frame = asked.frame(self.alloc)?;
        self.step(moment, arrival(port, asked, frame.octets()))
    }

    fn step(&mut self, moment: u64, arrival: Arrival) -> Option<Answer> {
        if MOMENT_MAX < moment {
            return None;
        }
        let request = admit(self.config.clients(), arrival)?;
        let tag = self.book.history().len() as u64;
        let entry = self.book.exchange(tag, &request, moment, DRAW).ok()?;
        let is_last = self.book.history().last()?.same(&entry);
        if is_last && entry.tag == tag && entry.moment == moment {
            Some(entry.answer)
        } else {
            None
        }
    }
}

// A server with the rows of another one; none if a row is refused.
fn rebuilt<'c>(alloc: Global, config: &'c Config, old: &Server) -> Option<Server<'c>>
    ensures { IfSome result (λ server. server.configuration ≡ config.now) }
{
    let mut server = Server::open(alloc, config).ok()?;
    server.pass(old.clock().min(MOMENT_MAX));
    put_sessions(&mut server, old.sessions()).ok()?;
    put_replies(&mut server, old.recent())?;
    put_challenges(&mut server, old.challenges()).ok()?;
    Some(server)
}

// Puts sessions back, and the last number that was given to one.
fn put_sessions(server: &mut Server, old: &Sessions) -> Result<(), RowFault>
    ensures { server.new.configuration ≡ server.old.configuration }
{
    for session in old.rows() {
        server.restore(StateRow::Session(session))?;
    }
    server.restore(StateRow::LastSession(old.last()))
}

// Puts kept replies back; none if memory or a row is refused.
fn put_replies(server: &mut Server, old: &Recent) -> Option<()>
    ensures { server.new.configuration ≡ server.old.configuration }
{
    for reply in old.rows() {
        server.restore(StateRow::Reply(reply.copy().ok()?)).ok()?;
    }
    Some(())
}

// Puts challenges back, and the last number that was given to one.
fn put_challenges(server: &mut Server, old: &Challenges) -> Result<(), RowFault>
    ensures { server.new.configuration ≡ server.old.configuration }
{
    for challenge in old.rows() {
        server.restore(StateRow::Challenge(challenge))?;
    }
    server.restore(StateRow::LastChallenge(old.last()))
}

// The Class of the session of this number, as it is spelled.
fn class_of(number: u64) -> [u8; 14] {
    let [a, b, c, d, e, f, g, h] = number.to_be_bytes();
    [25, 14, b'R', b'A', b'P', b'1', a, b, c, d, e, f, g, h]
}

// What `kay` is sent with the challenge of this number.
fn challenge_of(number: u64) -> [u8; 33] {
    let mut attributes = *CHALLENGED;
    attributes[9..17].copy_from_slice(&number.to_be_bytes());
    attributes
}

fn arrival<'a>(port: u16, asked: &Asked, octets: &'a [u8]) -> Arrival<'a> {
    Arrival {
        source: asked.source(),
        port,
        door: asked.door(),
        octets,
    }
}

fn is_answer(answer: &Answer, answered: &Answered) -> bool {
    match answer {
        Answer::Send(body) => is_reply(body, answered),
        Answer::Busy => matches!(answered, Answered::Busy),
    }
}

fn is_reply(body: &Body, answered: &Answered) -> bool {
    match answered {
        Answered::Accept(attributes) => is_access_reply(body, ACCESS_ACCEPT, attributes),
        Answered::Reject(attributes) => is_access_reply(body, ACCESS_REJECT, attributes),
        Answered::Challenge(attributes) => is_access_reply(body, ACCESS_CHALLENGE, attributes),
        Answered::Response(attributes) => {
            body.code() == ACCOUNTING_RESPONSE && body.attributes_octets() == *attributes
        }
        Answered::Busy => false,
    }
}

// Whether the reply has this Code, a Message-Authenticator and then these attributes.
fn is_access_reply(body: &Body, code: u8, attributes: &[u8]) -> bool {
    body.code() == code && body.attributes_octets().strip_prefix(FRONT) == Some(attributes)
}

// Whether these are the sessions, oldest first.
fn are_sessions(sessions: &Sessions, wanted: &[(u64, Phase, u64)]) -> bool {
    let mut rest = wanted.iter();
    for session in sessions.rows() {
        let Session {
            number,
            phase,
            made,
            ..
        } = session;
        if rest.next() != Some(&(number, phase, made)) {
            return false;
        }
    }
    rest.next().is_none()
}

// Whether the replies to these requests are kept, oldest first.
fn are_replies(replies: &Recent, wanted: &[(u16, u8, u64)]) -> bool {
    let mut rest = wanted.iter();
    for reply in replies.rows() {
        let Kept { key, made, .. } = reply;
        let Key { port, id, .. } = *key;
        if rest.next() != Some(&(port, id, *made)) {
            return false;
        }
    }
    rest.next().is_none()
}

// Whether these challenges wait, oldest first.
fn are_challenges(challenges: &Challenges, wanted: &[(u64, u64)]) -> bool {
    let mut rest = wanted.iter();
    for challenge in challenges.rows() {
        let Challenge { number, made, .. } = challenge;
        if rest.next() != Some(&(number, made)) {
            return false;
        }
    }
    rest.next().is_none()
}

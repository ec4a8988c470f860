//! Calls on a server and a book, and on what they give.
ghost use Rattle.std.specs.Prelude.{◌≡◌, ◌≤◌, IfSome};
ghost use Rattle.rad_config.specs.Spans.{moment_max};

use crate::moments::{ROWS, moment_at};
use crate::requests::{KAY, NEMO, NOBODY, START, STATUS, Sent, admit};
use crate::trial::{Called, HASH_KEY, Trial, Verdict, are_alike, judge, keep};
use rad_auth::Door;
use rad_config::Config;
use rad_packet::attribute::USER_NAME;
use rad_packet::code::ACCESS_ACCEPT;
use rad_packet::{Body, Octets};
use rad_pool::{Phase, Session};
use rad_server::{Answer, Book, Entry, Server, StateRow};
use std::alloc::{AllocError, Global};
use test_common::{CAMPUS, CLIENT, DRAW, SECOND_CLIENT};

#[derive(Clone, Copy)]
pub(crate) enum Call {
    Open,
    OpenKeyed,
    Copy,
    Accept,
    AcceptLater,
    Challenge,
    ChallengeLater,
    Reject,
    Response,
    ResponseLater,
    Status,
    Repeat,
    Busy,
    Pass,
    AnswerCopy,
    EntryCopy,
    BookOpen,
    Exchange,
    ExchangeLater,
}

// When a call is made.
fn moment(call: Call) -> u64
    ensures { result ≤ moment_max }
{
    match call {
        Call::AcceptLater
        | Call::ChallengeLater
        | Call::ResponseLater
        | Call::ExchangeLater
        | Call::Pass => moment_at(ROWS),
        _ => 0,
    }
}

pub(crate) fn judge_call(alloc: Global, call: Call) -> Verdict {
    match Config::read(alloc, CAMPUS) {
        Ok(config) => judge_over(alloc, &config, call),
        Err(_) => Verdict::Unready,
    }
}

fn judge_over(alloc: Global, config: &Config, call: Call) -> Verdict {
    match call {
        Call::AnswerCopy => judge(alloc, AnswerTrial::ready(alloc)),
        Call::EntryCopy => judge(alloc, EntryTrial::ready(alloc)),
        Call::BookOpen | Call::Exchange | Call::ExchangeLater => judge(
            alloc,
            BookTrial::ready(alloc, config, call),
        ),
        _ => judge(alloc, ServerTrial::ready(alloc, config, call)),
    }
}

/// A call on a server. One that is copied has a session, a challenge and two kept replies; that of a later call has a kept reply,
/// and a session or a challenge if the call makes one, none of which is live any more at that call.
#[derive(Drop)]
struct ServerTrial<'c> {
    alloc: Global,
    config: &'c Config,
    call: Call,
    server: Server<'c>,
    given: Option<Server<'c>>,
    answer: Option<Answer>,
}

impl<'c> ServerTrial<'c> {
    fn ready(alloc: Global, config: &'c Config, call: Call) -> Option<ServerTrial<'c>> {
        let mut server = Server::open(alloc, config).ok()?;
        if !make_ready(&mut server, call) {
            return None;
        }
        Some(ServerTrial {
            alloc,
            config,
            call,
            server,
            given: None,
            answer: None,
        })
    }
}

// Answers what comes before the call.
fn make_ready(server: &mut Server, call: Call) -> bool {
    match call {
        Call::Copy => answers(server, NEMO, 0) && answers(server, KAY, 0),
        Call::Repeat => answers(server, NEMO, 0),
        Call::AcceptLater
        | Call::ChallengeLater
        | Call::ResponseLater
        | Call::ExchangeLater
        | Call::Pass => answers_each(server, sent_by(call)),
        Call::Busy => is_filled(server),
        _ => true,
    }
}

fn answers(server: &mut Server, sent: Sent, moment: u64) -> bool
    requires { moment ≤ moment_max }
    ensures { server.new.configuration ≡ server.old.configuration }
{
    matches!(step(server, sent, moment), Some(Ok(_)))
}

// The same request again and again, each time when nothing is live any more.
fn answers_each(server: &mut Server, sent: Sent) -> bool {
    for row in 0..ROWS {
        if !answers(server, sent, moment_at(row)) {
            return false;
        }
    }
    true
}

/// A server with a session of each client, a challenge and two kept replies.
pub(crate) fn busy<'c>(alloc: Global, config: &'c Config) -> Option<Server<'c>>
    ensures { IfSome result (λ server. server.configuration ≡ config.now) }
{
    let Ok(mut server) = Server::open(alloc, config) else {
        return None;
    };
    let row = session_of_second(config);
    if !answers(&mut server, NEMO, 0) || !answers(&mut server, KAY, 0) {
        return None;
    }
    server.restore(StateRow::Session(row)).ok()?;
    Some(server)
}

// The session of bruce, whom the second client asked about.
fn session_of_second(config: &Config) -> Session {
    Session {
        number: 70,
        client: 1,
        source: SECOND_CLIENT,
        user: config.user(b"bruce").unwrap_or(0),
        address: Some(0x0A00_0201),
        phase: Phase::Active,
        made: 0,
        seen: 0,
    }
}

// None: the datagram isn't admitted.
fn step(server: &mut Server, sent: Sent, moment: u64) -> Option<Result<Answer, AllocError>>
    requires { moment ≤ moment_max }
    ensures { server.new.configuration ≡ server.old.configuration }
{
    let request = admit(server.config().clients(), sent)?;
    Some(match sent.door {
        Door::Auth => server.step(&request, moment, DRAW),
        Door::Acct => match server.step_naming(&request, moment, DRAW) {
            Ok((answer, _session)) => Ok(answer),
            Err(error) => Err(error),
        },
    })
}

// Has as many replies kept as may be, to requests from the 256 ports above the others, with 256 Identifiers each.
fn is_filled(server: &mut Server) -> bool {
    for place in 0..65_536u32 {
        if !is_filled_at(server, place) {
            return false;
        }
    }
    true
}

fn is_filled_at(server: &mut Server, place: u32) -> bool {
    let mut octets = [0; 20];
    octets[0] = 1;
    octets[1] = (place % 256) as u8;
    octets[3] = 20;
    let sent = Sent {
        port: 2000 + (place / 256 % 256) as u16,
        door: Door::Auth,
        octets: &octets,
    };
    answers(server, sent, 0)
}

fn sent_by(call: Call) -> Sent<'static> {
    match call {
        Call::Challenge | Call::ChallengeLater => KAY,
        Call::Reject => NOBODY,
        Call::Response | Call::ResponseLater => START,
        Call::Status => STATUS,
        _ => NEMO,
    }
}

impl<'c> Trial for ServerTrial<'c> {
    fn copy(&self) -> Option<ServerTrial<'c>> {
        let server = self.server.copy().ok()?;
        Some(ServerTrial {
            alloc: self.alloc,
            config: self.config,
            call: self.call,
            server,
            given: None,
            answer: None,
        })
    }

    fn is_like(&self, other: &ServerTrial) -> bool {
        are_alike(&self.given, &other.given, Server::same)
            && are_alike(&self.answer, &other.answer, Answer::same)
            && self.server.same(&other.server)
    }

    fn call(&mut self) -> Called {
        match self.call {
            Call::Open => keep(&mut self.given, Server::open(self.alloc, self.config)),
            Call::OpenKeyed => keep(
                &mut self.given,
                Server::open_keyed(self.alloc, self.config, HASH_KEY),
            ),
            Call::Copy => keep(&mut self.given, self.server.copy()),
            Call::Pass => {
                self.server.pass(moment(self.call));
                Called::Done
            }
            _ => match step(&mut self.server, sent_by(self.call), moment(self.call)) {
                Some(result) => keep(&mut self.answer, result),
                None => Called::Failed,
            },
        }
    }
}

/// An answer is copied whose body isn't shared.
#[derive(Drop)]
struct AnswerTrial {
    alloc: Global,
    answer: Answer,
    given: Option<Answer>,
}

impl AnswerTrial {
    fn ready(alloc: Global) -> Option<AnswerTrial> {
        let answer = answer(alloc).ok()?;
        Some(AnswerTrial {
            alloc,
            answer,
            given: None,
        })
    }
}

fn answer(alloc: Global) -> Result<Answer, AllocError> {
    let mut body = Body::new(alloc, ACCESS_ACCEPT);
    body.push(USER_NAME, b"nemo")?;
    Ok(Answer::Send(body))
}

impl Trial for AnswerTrial {
    fn copy(&self) -> Option<AnswerTrial> {
        AnswerTrial::ready(self.alloc)
    }

    fn is_like(&self, other: &AnswerTrial) -> bool {
        are_alike(&self.given, &other.given, Answer::same) && self.answer.same(&other.answer)
    }

    fn call(&mut self) -> Called {
        keep(&mut self.given, self.answer.copy())
    }
}

/// An entry is copied of which nothing is shared.
#[derive(Drop)]
struct EntryTrial {
    alloc: Global,
    entry: Entry,
    given: Option<Entry>,
}

impl EntryTrial {
    fn ready(alloc: Global) -> Option<EntryTrial> {
        let entry = unshared_entry(alloc).ok()?;
        Some(EntryTrial {
            alloc,
            entry,
            given: None,
        })
    }
}

/// An entry of which nothing is shared.
pub(crate) fn unshared_entry(alloc: Global) -> Result<Entry, AllocError> {
    let octets = NEMO.octets.to_vec(alloc)?;
    Ok(Entry {
        tag: 1,
        client: 0,
        source: CLIENT,
        port: NEMO.port,
        door: NEMO.door,
        octets: Octets::new(octets),
        moment: 0,
        draw: *DRAW,
        answer: answer(alloc)?,
        session: None,
    })
}

impl Trial for EntryTrial {
    fn copy(&self) -> Option<EntryTrial> {
        EntryTrial::ready(self.alloc)
    }

    fn is_like(&self, other: &EntryTrial) -> bool {
        are_alike(&self.given, &other.given, Entry::same) && self.entry.same(&other.entry)
    }

    fn call(&mut self) -> Called {
        keep(&mut self.given, self.entry.copy())
    }
}

/// A call on a book without entries. The server of a later call has a session and a kept reply.
#[derive(Drop)]
struct BookTrial<'c> {
    alloc: Global,
    call: Call,
    book: Book<'c>,
    given: Option<Book<'c>>,
    entry: Option<Entry>,
}

impl<'c> BookTrial<'c> {
    fn ready(alloc: Global, config: &'c Config, call: Call) -> Option<BookTrial<'c>> {
        let mut server = Server::open(alloc, config).ok()?;
        if !make_ready(&mut server, call) {
            return None;
        }
        BookTrial::over(alloc, &server, call)
    }

    fn over(alloc: Global, server: &Server<'c>, call: Call) -> Option<BookTrial<'c>> {
        let book = Book::open(alloc, server).ok()?;
        Some(BookTrial {
            alloc,
            call,
            book,
            given: None,
            entry: None,
        })
    }
}

// None: the datagram isn't admitted.
fn exchange(book: &mut Book, moment: u64) -> Option<Result<Entry, AllocError>>
    requires { moment ≤ moment_max }
{
    let request = admit(book.server().config().clients(), NEMO)?;
    Some(book.exchange(1, &request, moment, DRAW))
}

fn are_same(one: &Book, other: &Book) -> bool {
    one.history().len() == other.history().len()
        && one.opening().same(other.opening())
        && one.server().same(other.server())
}

impl<'c> Trial for BookTrial<'c> {
    fn copy(&self) -> Option<BookTrial<'c>> {
        BookTrial::over(self.alloc, self.book.server(), self.call)
    }

    fn is_like(&self, other: &BookTrial) -> bool {
        are_alike(&self.given, &other.given, are_same)
            && are_alike(&self.entry, &other.entry, Entry::same)
            && are_same(&self.book, &other.book)
    }

    fn call(&mut self) -> Called {
        match self.call {
            Call::BookOpen => keep(&mut self.given, Book::open(self.alloc, self.book.server())),
            _ => match exchange(&mut self.book, moment(self.call)) {
                Some(result) => keep(&mut self.entry, result),
                None => Called::Failed,
            },
        }
    }
}

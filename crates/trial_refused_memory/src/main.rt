//! What calls do where memory is refused. Each run of the table makes a call; a line says `right`, or `wrong` and why.
//!
//! Before and after its call a run takes a mark (`trial.rt`), so that only allocations of that call are refused. Whichever is, the
//! lines stay the same. Without an argument all runs are made, with an argument the one of that name.
#![tactic(auto)]

mod carrying;
mod clients;
mod desks;
mod generations;
mod journals;
mod moments;
mod packets;
mod prepared;
mod records;
mod replays;
mod requests;
mod rounds;
mod rows;
mod servers;
mod snapshots;
mod states;
mod stores;
mod tables;
mod trial;
mod written;

use crate::trial::Verdict;
use std::alloc::AllocGlobal;
use std::convert::AsStr;
use std::rt::Env;
use std::sync::Wait;
use std::thread::Threads;
use std::{env, io};

/// What a run calls.
#[derive(Clone, Copy)]
enum Run {
    /// A call of `rad_packet`.
    Packet(packets::Call),
    /// A call on clients or texts, or one that reads a configuration.
    Client(clients::Call),
    /// A call on sessions, kept replies or challenges.
    Table(tables::Call),
    /// A call that prepares a request.
    Prepared(prepared::Call),
    /// A call that puts a row back.
    Row(rows::Call),
    /// A call on a server or a book.
    Server(servers::Call),
    /// A call on claims or a desk.
    Desk(desks::Call),
    /// A call on a service or its ports.
    Round(rounds::Call),
    /// A call of `rad_replay`.
    Replay(replays::Call),
    /// A call of `rad_journal`.
    Journal(journals::Call),
    /// A call of `rad_state`.
    State(states::Call),
    /// A call of `rad_carry`.
    Carry,
    /// A call of `rad_accounting`.
    Record,
    GrantRecord,
    /// A call of `rad_snapshot`.
    Snapshot(snapshots::Call),
}

/// The runs, each with its name: the call, and then what it is made on. A call `without memory` makes no allocation.
const RUNS: &[(&str, Run)] = &[
    (
        "Body::with_capacity",
        Run::Packet(packets::Call::WithCapacity),
    ),
    ("Body::push", Run::Packet(packets::Call::Push)),
    (
        "Body::push on a shared body",
        Run::Packet(packets::Call::PushShared),
    ),
    (
        "Body::push into capacity, without memory",
        Run::Packet(packets::Call::PushIntoCapacity),
    ),
    ("Body::append", Run::Packet(packets::Call::Append)),
    (
        "Body::append on a shared body",
        Run::Packet(packets::Call::AppendShared),
    ),
    ("Body::share", Run::Packet(packets::Call::Share)),
    ("Body::copy", Run::Packet(packets::Call::Copy)),
    (
        "Body::copy of a shared body, without memory",
        Run::Packet(packets::Call::CopyShared),
    ),
    ("Octets::of", Run::Packet(packets::Call::OctetsOf)),
    ("Octets::share", Run::Packet(packets::Call::OctetsShare)),
    ("Octets::copy", Run::Packet(packets::Call::OctetsCopy)),
    ("Frame::new", Run::Packet(packets::Call::FrameNew)),
    ("Clients::add", Run::Client(clients::Call::Add)),
    ("Text::copy_of", Run::Client(clients::Call::TextCopy)),
    ("Config::read", Run::Client(clients::Call::ConfigRead)),
    (
        "Config::read of groups with replies",
        Run::Client(clients::Call::GroupsRead),
    ),
    (
        "read_configuration",
        Run::Client(clients::Call::ConfigurationRead),
    ),
    ("Sessions::open", Run::Table(tables::Call::SessionsOpen)),
    (
        "Sessions::open_keyed",
        Run::Table(tables::Call::SessionsOpenKeyed),
    ),
    ("Sessions::room", Run::Table(tables::Call::SessionsRoom)),
    ("Sessions::grant", Run::Table(tables::Call::Grant)),
    (
        "Sessions::grant when a session expires",
        Run::Table(tables::Call::GrantLater),
    ),
    (
        "Sessions::grant after room, without memory",
        Run::Table(tables::Call::GrantAfterRoom),
    ),
    ("Sessions::copy", Run::Table(tables::Call::SessionsCopy)),
    ("Sessions::restore", Run::Row(rows::Call::Session)),
    (
        "Sessions::restore_last, without memory",
        Run::Row(rows::Call::LastSession),
    ),
    ("Recent::open", Run::Table(tables::Call::RecentOpen)),
    (
        "Recent::open_keyed",
        Run::Table(tables::Call::RecentOpenKeyed),
    ),
    ("Recent::room", Run::Table(tables::Call::RecentRoom)),
    ("Recent::make_ready", Run::Table(tables::Call::MakeReady)),
    ("Recent::keep", Run::Table(tables::Call::Keep)),
    (
        "Recent::keep when a reply expires",
        Run::Table(tables::Call::KeepLater),
    ),
    (
        "Recent::keep after room, without memory",
        Run::Table(tables::Call::KeepAfterRoom),
    ),
    ("Recent::keep_shared", Run::Table(tables::Call::KeepShared)),
    ("Recent::copy", Run::Table(tables::Call::RecentCopy)),
    ("Recent::restore", Run::Row(rows::Call::Reply)),
    ("Kept::copy", Run::Table(tables::Call::KeptCopy)),
    (
        "Challenges::open, without memory",
        Run::Table(tables::Call::ChallengesOpen),
    ),
    ("Challenges::room", Run::Table(tables::Call::ChallengesRoom)),
    ("Challenges::issue", Run::Table(tables::Call::Issue)),
    (
        "Challenges::issue when a challenge expires",
        Run::Table(tables::Call::IssueLater),
    ),
    (
        "Challenges::issue after room, without memory",
        Run::Table(tables::Call::IssueAfterRoom),
    ),
    ("Challenges::copy", Run::Table(tables::Call::ChallengesCopy)),
    ("Challenges::restore", Run::Row(rows::Call::Challenge)),
    (
        "Challenges::restore_last, without memory",
        Run::Row(rows::Call::LastChallenge),
    ),
    (
        "prepare8 of a log-in, without memory",
        Run::Prepared(prepared::Call::LogIn),
    ),
    (
        "prepare8 of an Access-Reject",
        Run::Prepared(prepared::Call::Reject),
    ),
    (
        "prepare8 of an Accounting-Response",
        Run::Prepared(prepared::Call::Response),
    ),
    (
        "prepare8 of a Status-Server",
        Run::Prepared(prepared::Call::Status),
    ),
    ("Server::open", Run::Server(servers::Call::Open)),
    ("Server::open_keyed", Run::Server(servers::Call::OpenKeyed)),
    ("Server::copy", Run::Server(servers::Call::Copy)),
    (
        "Server::step to an Access-Accept",
        Run::Server(servers::Call::Accept),
    ),
    (
        "Server::step to an Access-Accept, when all expires",
        Run::Server(servers::Call::AcceptLater),
    ),
    (
        "Server::step to an Access-Challenge",
        Run::Server(servers::Call::Challenge),
    ),
    (
        "Server::step to an Access-Challenge, when all expires",
        Run::Server(servers::Call::ChallengeLater),
    ),
    (
        "Server::step to an Access-Reject",
        Run::Server(servers::Call::Reject),
    ),
    (
        "Server::step_naming to an Accounting-Response",
        Run::Server(servers::Call::Response),
    ),
    (
        "Server::step_naming to an Accounting-Response, when all expires",
        Run::Server(servers::Call::ResponseLater),
    ),
    (
        "Server::step of a Status-Server",
        Run::Server(servers::Call::Status),
    ),
    (
        "Server::step of a repeat, without memory",
        Run::Server(servers::Call::Repeat),
    ),
    (
        "Server::step to Busy, without memory",
        Run::Server(servers::Call::Busy),
    ),
    (
        "Server::pass when all expires, without memory",
        Run::Server(servers::Call::Pass),
    ),
    (
        "Server::restore of a session",
        Run::Row(rows::Call::ServerSession),
    ),
    (
        "Server::restore of a session's last number, without memory",
        Run::Row(rows::Call::ServerLastSession),
    ),
    (
        "Server::restore of a kept reply",
        Run::Row(rows::Call::ServerReply),
    ),
    (
        "Server::restore of a challenge",
        Run::Row(rows::Call::ServerChallenge),
    ),
    (
        "Server::restore of a challenge's last number, without memory",
        Run::Row(rows::Call::ServerLastChallenge),
    ),
    ("Answer::copy", Run::Server(servers::Call::AnswerCopy)),
    ("Entry::copy", Run::Server(servers::Call::EntryCopy)),
    ("Book::open", Run::Server(servers::Call::BookOpen)),
    ("Book::exchange", Run::Server(servers::Call::Exchange)),
    (
        "Book::exchange when all expires",
        Run::Server(servers::Call::ExchangeLater),
    ),
    ("Claims::open", Run::Desk(desks::Call::ClaimsOpen)),
    ("Desk::open", Run::Desk(desks::Call::DeskOpen)),
    ("Desk::ask", Run::Desk(desks::Call::Ask)),
    ("Service::open", Run::Round(rounds::Call::Open)),
    ("Service::open_keyed", Run::Round(rounds::Call::OpenKeyed)),
    (
        "Service::round by one worker",
        Run::Round(rounds::Call::Round(1)),
    ),
    (
        "Service::round by two workers",
        Run::Round(rounds::Call::Round(2)),
    ),
    (
        "Service::round by one worker, after a round",
        Run::Round(rounds::Call::NextRound(1)),
    ),
    (
        "Service::round by two workers, after a round",
        Run::Round(rounds::Call::NextRound(2)),
    ),
    ("Service::reuse", Run::Round(rounds::Call::Reuse)),
    ("Turns::open", Run::Round(rounds::Call::TurnsOpen)),
    ("run_rounds in three turns", Run::Round(rounds::Call::Turns)),
    ("MemoryPorts::arrive", Run::Round(rounds::Call::Arrive)),
    ("read_text", Run::Replay(replays::Call::ReadText)),
    ("run_replay", Run::Replay(replays::Call::Replay)),
    (
        "run_replay of a faulty configuration",
        Run::Replay(replays::Call::Fault),
    ),
    ("Make::request", Run::Replay(replays::Call::Make)),
    (
        "push_datagram_text",
        Run::Replay(replays::Call::PushDatagramText),
    ),
    ("push_address", Run::Replay(replays::Call::PushAddress)),
    ("push_decimal", Run::Replay(replays::Call::PushDecimal)),
    ("Kept::of", Run::Journal(journals::Call::KeptOf)),
    ("keep", Run::Journal(journals::Call::Keep)),
    (
        "keep where nothing is fresh, without memory",
        Run::Journal(journals::Call::KeepNothing),
    ),
    ("StoreJournal::open", Run::Journal(journals::Call::Open)),
    ("Journal::entry", Run::Journal(journals::Call::Entry)),
    ("Journal::commit", Run::Journal(journals::Call::Commit)),
    ("restore", Run::Journal(journals::Call::Restore)),
    (
        "Meta::check, without memory",
        Run::State(states::Call::Check),
    ),
    ("write_generation", Run::State(states::Call::Write)),
    ("read_last", Run::State(states::Call::ReadLast)),
    ("State::open", Run::State(states::Call::Open)),
    ("State::into_parts", Run::State(states::Call::IntoParts)),
    ("FileGenerations::start", Run::State(states::Call::Start)),
    ("Generations::begin", Run::State(states::Call::Begin)),
    ("carry", Run::Carry),
    ("fill", Run::Record),
    ("fill_grant", Run::GrantRecord),
    ("write of a snapshot", Run::Snapshot(snapshots::Call::Write)),
    ("read of a snapshot", Run::Snapshot(snapshots::Call::Read)),
];

fn judge<R: Threads + Wait + Sync + AllocGlobal>(rt: &R, run: Run) -> Verdict {
    match run {
        Run::Packet(call) => packets::judge_call(rt.alloc(), call),
        Run::Client(call) => clients::judge_call(rt.alloc(), call),
        Run::Table(call) => tables::judge_call(rt.alloc(), call),
        Run::Prepared(call) => prepared::judge_call(rt.alloc(), call),
        Run::Row(call) => rows::judge_call(rt.alloc(), call),
        Run::Server(call) => servers::judge_call(rt.alloc(), call),
        Run::Desk(call) => desks::judge_call(rt, call),
        Run::Round(call) => rounds::judge_call(rt, call),
        Run::Replay(call) => replays::judge_call(rt.alloc(), call),
        Run::Journal(call) => journals::judge_call(rt.alloc(), call),
        Run::State(call) => states::judge_call(rt.alloc(), call),
        Run::Carry => carrying::judge_carry(rt.alloc()),
        Run::Record => records::judge_fill(rt.alloc()),
        Run::GrantRecord => records::judge_fill_grant(rt.alloc()),
        Run::Snapshot(call) => snapshots::judge_call(rt.alloc(), call),
    }
}

fn print_run<R: Threads + Wait + Sync + AllocGlobal + Print>(
    rt: &R,
    name: &str,
    run: Run,
) -> io::Result<()> {
    println!(rt; "{name}: {}", judge(rt, run).text())
}

fn print_runs<R: Threads + Wait + Sync + AllocGlobal + Print>(
    rt: &R,
    wanted: Option<&str>,
) -> io::Result<()> {
    for (name, run) in RUNS.iter() {
        if wanted.is_none() || wanted == Some(*name) {
            print_run(rt, name, *run)?;
        }
    }
    Ok(())
}

// The first argument.
fn first_word<R: Env + AllocGlobal>(rt: &R) -> Option<String> {
    let mut words = env::args(rt).ok()?;
    words.next();
    words.next()
}

fn main(rt: HostRuntime) -> io::Result<()> {
    match first_word(&rt) {
        Some(name) => print_runs(&rt, Some(name.as_str())),
        None => print_runs(&rt, None),
    }
}

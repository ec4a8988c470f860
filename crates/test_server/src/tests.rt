//! A test is a table of steps, which `play` takes in a server that is opened for it. The octets of requests and replies are those
//! of RFC 2865 and RFC 2866.
mod access;
mod access_order;
mod accounting;
mod campus;
mod challenges;
mod chap;
mod copies;
mod full;
mod planted;
mod playing;
mod rebuilt;
mod repeats;
mod replies;
mod requests;
mod resets;
mod sessions;
mod shares;
mod stale;
mod status;
mod texts;

use campus::CAMPUS;
use playing::Run;
use rad_config::Config;
use rad_pool::Phase;
use requests::Asked;
use std::alloc::Global;
use std::process::Abort;
use std::test::Fail;

// Asserts once, of `what`.
fn holds(rt: &impl Abort, is_so: bool, what: &str) {
    assert!(rt; is_so, "{what}");
}

/// What the server must answer: the attributes of the reply, without the Message-Authenticator of an Access-Accept, an
/// Access-Reject or an Access-Challenge.
#[derive(Clone, Copy)]
enum Answered<'a> {
    Accept(&'a [u8]),
    Reject(&'a [u8]),
    Challenge(&'a [u8]),
    /// An Accounting-Response.
    Response(&'a [u8]),
    /// Nothing.
    Busy,
}

/// What a table is filled with.
#[derive(Clone, Copy)]
enum Filling {
    /// Sessions of `many` and then of the other fifteen, 4,096 each, numbered in turn from 1 on.
    Sessions,
    /// Kept Accounting-Responses.
    Replies,
    /// Challenges for `kay`, numbered in turn from 1 on.
    Challenges,
}

/// A step, and what must come of it.
#[derive(Clone, Copy)]
enum Step {
    /// A request, and its answer.
    Ask(Asked, Answered<'static>),
    /// The same from another port.
    AskFrom(u16, Asked, Answered<'static>),
    /// A request whose answer changes nothing, and its answer. The clock is at the step's moment before.
    Still(Asked, Answered<'static>),
    /// The same for the server and then for a copy of it: they are the same before, and once both have answered, but not between.
    Copy(Asked, Answered<'static>),
    /// A server that is opened with this configuration is the same, or isn't.
    Open(&'static str, bool),
    /// So many requests, each with a port or an Identifier of its own, and their answers.
    Fill(Filling, u32),
    /// The number, phase and moment of the grant of each session, oldest first. The clock is at the step's moment.
    Sessions(&'static [(u64, Phase, u64)]),
    /// The port and the Identifier of each request whose reply is kept, and the moment of the reply, oldest first.
    Replies(&'static [(u16, u8, u64)]),
    /// The number and the moment of each challenge, oldest first.
    Challenges(&'static [(u64, u64)]),
}

/// The moment of a step in milliseconds, the step, and what is said if it has another outcome.
type Row = (u64, Step, &'static str);

// Takes the steps in a server that is opened for them, and asserts what comes of each.
fn play(rt: &impl Abort, alloc: Global, rows: &[Row]) -> Result<(), Fail> {
    let config = Config::read(alloc, CAMPUS)?;
    play_over(rt, alloc, &config, rows)
}

// The same, where an active session lives for 100 seconds after its last report.
fn play_stale(rt: &impl Abort, alloc: Global, rows: &[Row]) -> Result<(), Fail> {
    let text = format!(in alloc; "stale = 100\n{CAMPUS}")?;
    let config = Config::read(alloc, &text)?;
    play_over(rt, alloc, &config, rows)
}

fn play_over(rt: &impl Abort, alloc: Global, config: &Config, rows: &[Row]) -> Result<(), Fail> {
    let mut run = Run::open(alloc, config)?;
    for (moment, step, what) in rows.iter() {
        let is_right = run.takes(*moment, step);
        holds(rt, is_right, what);
    }
    Ok(())
}

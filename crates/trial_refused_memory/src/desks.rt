//! Calls on claims and a desk.
ghost use Rattle.std.specs.Prelude.{◌≡◌};
ghost use Rattle.rad_desk.specs.Desks.{IsBlankOf};

use crate::requests::{NEMO, admit};
use crate::trial::{Called, Trial, Verdict, are_alike, begin, end, judge, keep};
use rad_claim::{ClaimSeat, Claims};
use rad_config::Config;
use rad_desk::{Closed, Desk, Opened, Pass};
use rad_server::{Book, Entry, Server};
use std::alloc::{AllocGlobal, Global};
use std::marker::Brand;
use std::sync::Wait;
use std::sync::ledger::Blank;
use test_common::{CAMPUS, DRAW};

#[derive(Clone, Copy)]
pub(crate) enum Call {
    ClaimsOpen,
    DeskOpen,
    Ask,
}

pub(crate) fn judge_call<R: Wait + AllocGlobal>(rt: &R, call: Call) -> Verdict {
    let alloc = rt.alloc();
    match call {
        Call::ClaimsOpen => judge(alloc, Some(ClaimsTrial { alloc, given: None })),
        Call::DeskOpen => judge_with_config(rt, alloc, false),
        Call::Ask => judge_with_config(rt, alloc, true),
    }
}

/// Claims of nine batches with two seats are opened.
#[derive(Drop)]
struct ClaimsTrial {
    alloc: Global,
    given: Option<(Claims, Vec<ClaimSeat>)>,
}

impl Trial for ClaimsTrial {
    fn copy(&self) -> Option<ClaimsTrial> {
        Some(ClaimsTrial {
            alloc: self.alloc,
            given: None,
        })
    }

    fn is_like(&self, other: &ClaimsTrial) -> bool {
        are_alike(&self.given, &other.given, |given, other| {
            given.1.len() == other.1.len()
        })
    }

    fn call(&mut self) -> Called {
        keep(&mut self.given, Claims::open(self.alloc, 9, 2))
    }
}

fn judge_with_config<R: Wait>(rt: &R, alloc: Global, is_asked: bool) -> Verdict {
    match Config::read(alloc, CAMPUS) {
        Ok(config) => judge_over(rt, alloc, &config, is_asked),
        Err(_) => Verdict::Unready,
    }
}

fn judge_over<R: Wait>(rt: &R, alloc: Global, config: &Config, is_asked: bool) -> Verdict {
    match Server::open(alloc, config) {
        Ok(server) if is_asked => judge_asking(rt, alloc, &server),
        Ok(server) => judge_opening(alloc, &server),
        Err(_) => Verdict::Unready,
    }
}

fn judge_opening(alloc: Global, server: &Server) -> Verdict {
    begin(alloc);
    let is_open = is_opened(alloc, server);
    end(alloc);
    Verdict::of(is_open || is_opened(alloc, server))
}

// Whether a desk is opened with its two passes, unless memory is refused.
fn is_opened(alloc: Global, server: &Server) -> bool {
    passes_of::<Brand>(alloc, Blank::new(2), server) == Some(2)
}

fn passes_of<L: Opened>(alloc: Global, blank: Blank, server: &Server) -> Option<usize>
    requires blank { IsBlankOf blank.name blank.parts L.name L.parts 2 }
    requires opening { server.now ≡ L.opening }
{
    let (_desk, passes) = Desk::<L>::open(alloc, blank, server, 2).ok()?;
    Some(passes.len())
}

// A desk's one entry must be as that of a book.
fn judge_asking<R: Wait>(rt: &R, alloc: Global, server: &Server) -> Verdict {
    match entry_of(alloc, server) {
        Some(entry) => judge_desk::<Brand, R>(rt, alloc, Blank::new(1), server, &entry),
        None => Verdict::Unready,
    }
}

fn entry_of(alloc: Global, server: &Server) -> Option<Entry> {
    match Book::open(alloc, server) {
        Ok(mut book) => exchanged(&mut book),
        Err(_) => None,
    }
}

fn exchanged(book: &mut Book) -> Option<Entry> {
    let request = admit(book.server().config().clients(), NEMO)?;
    book.exchange(1, &request, 0, DRAW).ok()
}

fn judge_desk<L: Opened, R: Wait>(
    rt: &R,
    alloc: Global,
    blank: Blank,
    server: &Server,
    entry: &Entry,
) -> Verdict
    requires blank { IsBlankOf blank.name blank.parts L.name L.parts 1 }
    requires opening { server.now ≡ L.opening }
{
    match Desk::<L>::open(alloc, blank, server, 1) {
        Ok((desk, passes)) => judge_passes(rt, alloc, desk, server, passes, entry),
        Err(_) => Verdict::Unready,
    }
}

fn judge_passes<L: Opened, R: Wait>(
    rt: &R,
    alloc: Global,
    desk: Desk<L>,
    server: &Server,
    mut passes: Vec<Pass<L>>,
    entry: &Entry,
) -> Verdict
    requires { server.now ≡ L.opening }
{
    let verdict = match passes.first_mut() {
        Some(pass) => judge_pass(rt, alloc, &desk, server, pass),
        None => Verdict::Unready,
    };
    match desk.close(server, passes) {
        Ok(closed) if !is_one(&closed, entry) => Verdict::Other,
        Ok(_) => verdict,
        Err(_) => Verdict::Other,
    }
}

fn judge_pass<L: Opened, R: Wait>(
    rt: &R,
    alloc: Global,
    desk: &Desk<L>,
    server: &Server,
    pass: &mut Pass<L>,
) -> Verdict
    requires { server.now ≡ L.opening }
{
    begin(alloc);
    let called = ask(rt, desk, server, pass);
    end(alloc);
    match called {
        Called::Done => Verdict::of(pass.receipts().len() == 1),
        Called::Refused => judge_refused(rt, desk, server, pass),
        Called::Failed => Verdict::Fault,
    }
}

fn judge_refused<L: Opened, R: Wait>(
    rt: &R,
    desk: &Desk<L>,
    server: &Server,
    pass: &mut Pass<L>,
) -> Verdict
    requires { server.now ≡ L.opening }
{
    if !pass.receipts().is_empty() {
        return Verdict::Changed;
    }
    match ask(rt, desk, server, pass) {
        Called::Done => Verdict::of(pass.receipts().len() == 1),
        _ => Verdict::Other,
    }
}

fn ask<L: Opened, R: Wait>(rt: &R, desk: &Desk<L>, server: &Server, pass: &mut Pass<L>) -> Called
    requires { server.now ≡ L.opening }
{
    match admit(server.config().clients(), NEMO) {
        Some(request) => Called::by(desk.ask(rt, pass, 1, &request, 0, DRAW).is_ok()),
        None => Called::Failed,
    }
}

fn is_one(closed: &Closed, entry: &Entry) -> bool {
    closed.history.len() == 1 && closed.history.iter().all(|one| one.same(entry))
}

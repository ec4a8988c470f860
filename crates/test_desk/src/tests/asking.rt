//! Desks of two passes, what is asked at them, and how they end.
ghost use Rattle.std.specs.Prelude.{◌≡◌};
ghost use Rattle.rad_desk.specs.Desks.{IsBlankOf};

use super::requests::{STATUS, admit};
use rad_config::Config;
use rad_desk::{Closed, Desk, Mismatch, Opened, Pass, Receipt, settle};
use rad_server::{Book, Entry, Server};
use std::alloc::Global;
use std::marker::Brand;
use std::sync::Wait;
use std::sync::ledger::Blank;
use std::thread::{Threads, join};
use test_common::{CAMPUS, DRAW};

/// A Status-Server, which changes the clock alone.
const STATUS_0: Asked = Asked {
    pass: 0,
    tag: 0,
    octets: STATUS,
};

/// Octets that are asked with a pass, under a tag, at the moment 0.
#[derive(Clone, Copy)]
pub(crate) struct Asked {
    pub pass: usize,
    pub tag: u64,
    pub octets: &'static [u8],
}

/// How a desk ends.
#[derive(Clone, Copy)]
pub(crate) enum Ending {
    /// It is closed with the server from which it opened, and with both passes.
    Close,
    /// The same with a server whose clock is later.
    CloseLater,
    /// The same without the second pass.
    CloseWithOne,
    /// Its passes settle a book of what is asked here.
    Settle(&'static [Asked]),
    /// No pass settles such a book.
    SettleWithNone(&'static [Asked]),
}

/// What is left of a closed desk.
#[derive(Drop)]
pub(crate) struct Ended {
    /// The receipts of the first pass, and then those of the second one.
    pub receipts: Vec<Receipt>,
    pub history: Result<Vec<Entry>, Mismatch>,
}

/// How a desk is asked.
#[derive(Clone, Copy)]
pub(crate) enum Way<'a> {
    /// By one thread in turn; then the desk ends.
    InTurn(&'a [Asked], Ending),
    /// By two threads at once, each with a pass; then the desk is closed.
    AtOnce(&'a [Asked], &'a [Asked]),
}

/// What is left of a new desk that was asked so; none if memory was refused or a request isn't admitted.
pub(crate) fn left_of<R: Threads + Wait + Sync>(rt: &R, alloc: Global, way: Way) -> Option<Ended> {
    let config = Config::read(alloc, CAMPUS).ok()?;
    asked_with(rt, alloc, &config, way)
}

fn asked_with<R: Threads + Wait + Sync>(
    rt: &R,
    alloc: Global,
    config: &Config,
    way: Way,
) -> Option<Ended> {
    let server = Server::open(alloc, config).ok()?;
    asked_over(rt, alloc, &server, way)
}

fn asked_over<R: Threads + Wait + Sync>(
    rt: &R,
    alloc: Global,
    server: &Server,
    way: Way,
) -> Option<Ended> {
    match way {
        Way::InTurn(asks, ending) => in_turn(rt, alloc, server, asks, ending),
        Way::AtOnce(first, second) => at_once(rt, alloc, server, first, second),
    }
}

fn in_turn<R: Wait>(
    rt: &R,
    alloc: Global,
    server: &Server,
    asks: &[Asked],
    ending: Ending,
) -> Option<Ended> {
    asked_in_turn::<Brand, R>(rt, alloc, Blank::new(2), server, asks, ending)
}

fn at_once<R: Threads + Wait + Sync>(
    rt: &R,
    alloc: Global,
    server: &Server,
    first: &[Asked],
    second: &[Asked],
) -> Option<Ended> {
    asked_at_once::<Brand, R>(rt, alloc, Blank::new(2), server, first, second)
}

fn asked_in_turn<'c, L: Opened, R: Wait>(
    rt: &R,
    alloc: Global,
    blank: Blank,
    server: &Server<'c>,
    asks: &[Asked],
    ending: Ending,
) -> Option<Ended>
    requires blank { IsBlankOf blank.name blank.parts L.name L.parts 2 }
    requires opening { server.now ≡ L.opening }
{
    let (desk, passes) = Desk::<L>::open(alloc, blank, server, 2).ok()?;
    let passes = ask_with_all(rt, &desk, server, passes, asks)?;
    end_of(alloc, desk, server, passes, ending)
}

fn asked_at_once<'c, L: Opened + Send + Sync, R: Threads + Wait + Sync>(
    rt: &R,
    alloc: Global,
    blank: Blank,
    server: &Server<'c>,
    first: &[Asked],
    second: &[Asked],
) -> Option<Ended>
    requires blank { IsBlankOf blank.name blank.parts L.name L.parts 2 }
    requires opening { server.now ≡ L.opening }
{
    let (desk, mut passes) = Desk::<L>::open(alloc, blank, server, 2).ok()?;
    let last = passes.pop();
    let other = passes.pop();
    let (other, last) = join(
        rt,
        || -> Option<Pass<L>>
            requires { server.now ≡ L.opening }
        { ask_all(rt, &desk, server, other, first) },
        || -> Option<Pass<L>>
            requires { server.now ≡ L.opening }
        { ask_all(rt, &desk, server, last, second) },
    );
    let passes = with(with(Some(passes), other), last)?;
    end_of(alloc, desk, server, passes, Ending::Close)
}

// These passes and one more, unless one is missing.
fn with<L: Opened>(passes: Option<Vec<Pass<L>>>, pass: Option<Pass<L>>) -> Option<Vec<Pass<L>>> {
    match (passes, pass) {
        (Some(passes), Some(pass)) => pushed(passes, pass),
        _ => None,
    }
}

fn pushed<L: Opened>(mut passes: Vec<Pass<L>>, pass: Pass<L>) -> Option<Vec<Pass<L>>> {
    if passes.push(pass).is_ok() {
        Some(passes)
    } else {
        None
    }
}

// The pass, if there is one, once all this was asked with it.
fn ask_all<L: Opened, R: Wait>(
    rt: &R,
    desk: &Desk<L>,
    server: &Server,
    pass: Option<Pass<L>>,
    asks: &[Asked],
) -> Option<Pass<L>>
    requires { server.now ≡ L.opening }
{
    let mut pass = pass?;
    for asked in asks.iter() {
        ask(rt, desk, server, &mut pass, asked)?;
    }
    Some(pass)
}

// The passes, once all this was asked, each time with the one that is meant.
fn ask_with_all<L: Opened, R: Wait>(
    rt: &R,
    desk: &Desk<L>,
    server: &Server,
    mut passes: Vec<Pass<L>>,
    asks: &[Asked],
) -> Option<Vec<Pass<L>>>
    requires { server.now ≡ L.opening }
{
    if ask_in_turn(rt, desk, server, &mut passes, asks).is_some() {
        Some(passes)
    } else {
        None
    }
}

fn ask_in_turn<L: Opened, R: Wait>(
    rt: &R,
    desk: &Desk<L>,
    server: &Server,
    passes: &mut [Pass<L>],
    asks: &[Asked],
) -> Option<()>
    requires { server.now ≡ L.opening }
{
    for asked in asks.iter() {
        ask(rt, desk, server, passes.get_mut(asked.pass)?, asked)?;
    }
    Some(())
}

fn ask<L: Opened, R: Wait>(
    rt: &R,
    desk: &Desk<L>,
    server: &Server,
    pass: &mut Pass<L>,
    asked: &Asked,
) -> Option<()>
    requires { server.now ≡ L.opening }
{
    let request = admit(server.config().clients(), asked.octets)?;
    desk.ask(rt, pass, asked.tag, &request, 0, DRAW).ok()
}

fn end_of<'c, L: Opened>(
    alloc: Global,
    desk: Desk<'c, L>,
    server: &Server<'c>,
    passes: Vec<Pass<L>>,
    ending: Ending,
) -> Option<Ended> {
    let receipts = copies_of(alloc, &passes);
    let closed = end(alloc, desk, server, passes, ending);
    what_is_left(receipts, closed)
}

fn what_is_left(
    receipts: Option<Vec<Receipt>>,
    closed: Option<Result<Closed, Mismatch>>,
) -> Option<Ended> {
    match (receipts, closed) {
        (Some(receipts), Some(closed)) => Some(Ended {
            receipts,
            history: history_of(closed),
        }),
        _ => None,
    }
}

// Ends a desk; none if memory was refused or a request isn't admitted.
fn end<'c, L: Opened>(
    alloc: Global,
    desk: Desk<'c, L>,
    server: &Server<'c>,
    passes: Vec<Pass<L>>,
    ending: Ending,
) -> Option<Result<Closed<'c>, Mismatch>> {
    match ending {
        Ending::Close => Some(desk.close(server, passes)),
        Ending::CloseLater => close_later(alloc, desk, server, passes),
        Ending::CloseWithOne => Some(close_with_one(desk, server, passes)),
        Ending::Settle(asks) => settle_asks(alloc, server, asks, passes),
        Ending::SettleWithNone(asks) => settle_asks::<L>(alloc, server, asks, Vec::new(alloc)),
    }
}

fn close_later<'c, L: Opened>(
    alloc: Global,
    desk: Desk<'c, L>,
    server: &Server<'c>,
    passes: Vec<Pass<L>>,
) -> Option<Result<Closed<'c>, Mismatch>> {
    match book_of(alloc, server, &[STATUS_0], 5) {
        Some(later) => Some(desk.close(later.server(), passes)),
        None => None,
    }
}

fn close_with_one<'c, L: Opened>(
    desk: Desk<'c, L>,
    server: &Server<'c>,
    mut passes: Vec<Pass<L>>,
) -> Result<Closed<'c>, Mismatch> {
    passes.pop();
    desk.close(server, passes)
}

fn settle_asks<'c, L: Opened>(
    alloc: Global,
    server: &Server<'c>,
    asks: &[Asked],
    passes: Vec<Pass<L>>,
) -> Option<Result<Closed<'c>, Mismatch>> {
    match book_of(alloc, server, asks, 0) {
        Some(book) => Some(settle(book, server, passes)),
        None => None,
    }
}

fn history_of(closed: Result<Closed, Mismatch>) -> Result<Vec<Entry>, Mismatch> {
    let closed = closed?;
    Ok(closed.history)
}

// Copies of all receipts.
fn copies_of<L: Opened>(alloc: Global, passes: &[Pass<L>]) -> Option<Vec<Receipt>> {
    let mut all = Vec::new(alloc);
    for pass in passes.iter() {
        append(&mut all, pass.receipts())?;
    }
    Some(all)
}

fn append(all: &mut Vec<Receipt>, receipts: &[Receipt]) -> Option<()> {
    for receipt in receipts.iter() {
        let place = receipt.place;
        let entry = receipt.entry.copy().ok()?;
        all.push(Receipt { place, entry }).ok()?;
    }
    Some(())
}

// A book that began as a server, of which this was asked in turn at a moment.
fn book_of<'c>(
    alloc: Global,
    server: &Server<'c>,
    asks: &[Asked],
    moment: u32,
) -> Option<Book<'c>> {
    let mut book = Book::open(alloc, server).ok()?;
    if exchange_all(&mut book, asks, moment) {
        Some(book)
    } else {
        None
    }
}

fn exchange_all(book: &mut Book, asks: &[Asked], moment: u32) -> bool {
    asks.iter().all(|asked| exchange(book, asked, moment))
}

fn exchange(book: &mut Book, asked: &Asked, moment: u32) -> bool {
    match admit(book.server().config().clients(), asked.octets) {
        Some(request) => book
            .exchange(asked.tag, &request, moment as u64, DRAW)
            .is_ok(),
        None => false,
    }
}

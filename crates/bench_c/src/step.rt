//! Steps of the server: `bench/step.c`.
//!
//! The export opens a server with the configuration that it is given, fills its tables, and takes steps on copies of it. Rows come
//! one after the other, the same time apart, and so do steps: at each step the oldest row of each table is no longer live. It puts
//! down how many nanoseconds the steps on each copy took, without the first, which may make room that the others find. It returns
//! how many replies had the wanted Code; 0 without memory, or if the tables can't be filled.
ghost use Rattle.std.specs.Prelude.{◌≡◌, All};
ghost use Rattle.rad_auth.specs.Admission.{IsAdmitted};

mod datagrams;
mod filling;
mod rebuilding;
mod requests;
mod work;

use crate::clock;
use crate::step::datagrams::{admit_each, datagrams};
use crate::step::filling::full_server;
use crate::step::rebuilding::time_rebuilding;
use crate::step::requests::Kind;
use crate::step::work::{DRAW, Work};
use rad_auth::Request;
use rad_config::Config;
use rad_packet::Octets;
use rad_server::Server;
use std::alloc::Global;
use std::str;

// What is alive at a `?` is dropped there, and each such drop is proved: so a function of its own makes each big value.
fn read_and_step(alloc: Global, text: &[u8], work: Work, times: &mut [u64]) -> Option<usize> {
    let text = str::from_utf8(text).ok()?;
    let config = Config::read(alloc, text).ok()?;
    open_and_step(alloc, &config, work, times)
}

fn open_and_step(alloc: Global, config: &Config, work: Work, times: &mut [u64]) -> Option<usize> {
    let server = full_server(alloc, config, work, &mut [])?;
    sign_and_step(alloc, &server, work, times)
}

fn read_and_fill(alloc: Global, text: &[u8], work: Work, times: &mut [u64]) -> Option<()> {
    let text = str::from_utf8(text).ok()?;
    let config = Config::read(alloc, text).ok()?;
    open_and_fill(alloc, &config, work, times)
}

fn open_and_fill(alloc: Global, config: &Config, work: Work, times: &mut [u64]) -> Option<()> {
    full_server(alloc, config, work, times)?;
    Some(())
}

fn read_and_rebuild(alloc: Global, text: &[u8], work: Work, times: &mut [u64]) -> Option<()> {
    let text = str::from_utf8(text).ok()?;
    let config = Config::read(alloc, text).ok()?;
    open_and_rebuild(alloc, &config, work, times)
}

fn open_and_rebuild(alloc: Global, config: &Config, work: Work, times: &mut [u64]) -> Option<()> {
    let server = full_server(alloc, config, work, &mut [])?;
    rebuild_again(alloc, config, &server, times)
}

fn rebuild_again(alloc: Global, config: &Config, server: &Server, times: &mut [u64]) -> Option<()> {
    for time in times.iter_mut() {
        *time = time_rebuilding(alloc, config, server)?;
    }
    Some(())
}

fn sign_and_step(alloc: Global, server: &Server, work: Work, times: &mut [u64]) -> Option<usize> {
    let datagrams = datagrams(alloc, server.config().clients(), work)?;
    admit_and_step(alloc, server, &datagrams, work, times)
}

fn admit_and_step(
    alloc: Global,
    server: &Server,
    datagrams: &[Octets],
    work: Work,
    times: &mut [u64],
) -> Option<usize> {
    let requests = admit_each(alloc, server.config().clients(), datagrams, work)?;
    step_on_copies(server, &requests, work, times)
}

fn step_on_copies(
    server: &Server,
    requests: &[Request],
    work: Work,
    times: &mut [u64],
) -> Option<usize>
    requires { All (IsAdmitted server.now.configuration.clients) requests.now }
{
    let mut replies: usize = 0;
    for time in times.iter_mut() {
        replies = replies.wrapping_add(step_on_copy(server, requests, work, time)?);
    }
    Some(replies)
}

fn step_on_copy(server: &Server, requests: &[Request], work: Work, time: &mut u64) -> Option<usize>
    requires { All (IsAdmitted server.now.configuration.clients) requests.now }
{
    let Ok(mut copy) = server.copy() else {
        return None;
    };
    time_steps(&mut copy, requests, work, time)
}

// Takes the first step, and then the others, which are timed.
fn time_steps(
    server: &mut Server,
    requests: &[Request],
    work: Work,
    time: &mut u64,
) -> Option<usize>
    requires { All (IsAdmitted server.old.configuration.clients) requests.now }
{
    let first = take_steps(server, requests, work, 0, 1)?;
    let start = clock::now();
    let others = take_steps(server, requests, work, 1, requests.len())?;
    *time = clock::now().wrapping_sub(start);
    Some(first.wrapping_add(others))
}

// Takes the steps from a place up to another, and returns how many replies were as wanted.
fn take_steps(
    server: &mut Server,
    requests: &[Request],
    work: Work,
    from: usize,
    to: usize,
) -> Option<usize>
    requires { All (IsAdmitted server.old.configuration.clients) requests.now }
    ensures { server.new.configuration ≡ server.old.configuration }
{
    let kind = Kind::of(work.kind);
    let mut replies: usize = 0;
    'steps: for step in from..to.min(requests.len()) {
        let moment = work.moment_of_step(step);
        let answer = server.step(&requests[step], moment, &DRAW).ok()?;
        if kind.is_wanted(&answer) {
            replies = replies.wrapping_add(1);
        }
    }
    Some(replies)
}

/// Takes the steps on as many copies as there are times, and puts down the nanoseconds of each copy.
#[unsafe(no_mangle)]
pub extern "C" fn radpool_step(
    alloc: Global,
    text: &[u8],
    work: &Work,
    times: &mut [u64],
) -> usize {
    read_and_step(alloc, text, *work, times).unwrap_or(0)
}

/// Fills the tables of a server, and puts down the nanoseconds of the step that each row took. Returns how many rows there are; 0
/// without memory, or if a reply hasn't the wanted Code.
#[unsafe(no_mangle)]
pub extern "C" fn radpool_fill(
    alloc: Global,
    text: &[u8],
    work: &Work,
    times: &mut [u64],
) -> usize {
    match read_and_fill(alloc, text, *work, times) {
        Some(()) => work.rows,
        None => 0,
    }
}

/// Fills the tables of a server, rebuilds it from its rows as often as there are times, and puts down the nanoseconds of each.
/// Returns how many rows there are; 0 without memory, or if a rebuilt server isn't the same.
#[unsafe(no_mangle)]
pub extern "C" fn radpool_rebuild(
    alloc: Global,
    text: &[u8],
    work: &Work,
    times: &mut [u64],
) -> usize {
    match read_and_rebuild(alloc, text, *work, times) {
        Some(()) => work.rows,
        None => 0,
    }
}

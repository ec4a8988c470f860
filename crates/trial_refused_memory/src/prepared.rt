//! Calls that prepare a request. Where memory is refused, they prepare it without the body of its reply.

use crate::requests::{NEMO, NOBODY, START, STATUS, Sent, arrival};
use crate::trial::{Verdict, begin, end};
use rad_auth::check8;
use rad_config::Config;
use rad_server::prepare8;
use std::alloc::Global;
use test_common::CAMPUS;

/// What is prepared.
#[derive(Clone, Copy)]
pub(crate) enum Call {
    /// A log-in with the right password: its reply depends on the state.
    LogIn,
    Reject,
    Response,
    Status,
}

pub(crate) fn judge_call(alloc: Global, call: Call) -> Verdict {
    match Config::read(alloc, CAMPUS) {
        Ok(config) => judge_over(alloc, &config, sent_by(call)),
        Err(_) => Verdict::Unready,
    }
}

fn judge_over(alloc: Global, config: &Config, sent: Sent) -> Verdict {
    let arrivals = [
        Some(arrival(sent)),
        None,
        None,
        None,
        None,
        None,
        None,
        None,
    ];
    let verdicts = check8(config.clients(), &arrivals);
    begin(alloc);
    let prepared = prepare8(alloc, config, &verdicts);
    end(alloc);
    Verdict::of(prepared[0].is_some() && prepared[1].is_none())
}

fn sent_by(call: Call) -> Sent<'static> {
    match call {
        Call::LogIn => NEMO,
        Call::Reject => NOBODY,
        Call::Response => START,
        Call::Status => STATUS,
    }
}

//! Calls of `rad_carry`.
use crate::servers::busy;
use crate::trial::{Called, HASH_KEY, Trial, Verdict, are_alike, judge, keep};
use rad_carry::{Carried, carry};
use rad_config::Config;
use rad_server::Server;
use std::alloc::Global;
use test_common::CAMPUS;

/// The first client alone, and one user.
const HALVED: &str = r#"
[[client]]
address = "192.168.1.16"
secret = "xyzzy5461"

[[pool]]
name = "one"
first = "10.0.0.1"
last = "10.0.0.1"

[[user]]
name = "nemo"
password = "arctangent"
pool = "one"
"#;

pub(crate) fn judge_carry(alloc: Global) -> Verdict {
    match Config::read(alloc, CAMPUS) {
        Ok(old) => judge_halved(alloc, &old),
        Err(_) => Verdict::Unready,
    }
}

fn judge_halved(alloc: Global, old: &Config) -> Verdict {
    match Config::read(alloc, HALVED) {
        Ok(new) => judge_between(alloc, old, &new),
        Err(_) => Verdict::Unready,
    }
}

fn judge_between(alloc: Global, old: &Config, new: &Config) -> Verdict {
    match busy(alloc, old) {
        Some(server) => judge(alloc, Some(CarryTrial::new(alloc, &server, new))),
        None => Verdict::Unready,
    }
}

/// A server is carried to a configuration that has one of its clients and one of its users.
#[derive(Drop)]
struct CarryTrial<'s> {
    alloc: Global,
    server: &'s Server<'s>,
    config: &'s Config,
    given: Option<Carried<'s>>,
}

impl<'s> CarryTrial<'s> {
    fn new(alloc: Global, server: &'s Server<'s>, config: &'s Config) -> CarryTrial<'s> {
        CarryTrial {
            alloc,
            server,
            config,
            given: None,
        }
    }
}

fn are_same(one: &Carried, other: &Carried) -> bool {
    one.server.same(&other.server) && one.left_out.as_slice() == other.left_out.as_slice()
}

impl<'s> Trial for CarryTrial<'s> {
    fn copy(&self) -> Option<CarryTrial<'s>> {
        Some(CarryTrial::new(self.alloc, self.server, self.config))
    }

    fn is_like(&self, other: &CarryTrial) -> bool {
        are_alike(&self.given, &other.given, are_same)
    }

    fn call(&mut self) -> Called {
        let carried = carry(self.alloc, self.server, self.config, HASH_KEY);
        keep(&mut self.given, carried)
    }
}

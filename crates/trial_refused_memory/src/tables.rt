//! Calls on sessions, kept replies and challenges.
ghost use Rattle.std.specs.Prelude.{◌≤◌};
ghost use Rattle.rad_config.specs.Spans.{moment_max};

use crate::moments::{ROWS, moment_at};
use crate::trial::{Called, HASH_KEY, Trial, Verdict, are_alike, judge, keep};
use rad_auth::Door;
use rad_config::Config;
use rad_packet::attribute::USER_NAME;
use rad_packet::code::{ACCESS_ACCEPT, ACCOUNTING_RESPONSE};
use rad_packet::{Body, Octets};
use rad_pool::{Grant, Refusal, Sessions};
use rad_recent::{Challenges, IssueFault, KeepFault, Kept, Key, Recent};
use std::alloc::{AllocError, Global};
use test_common::{CAMPUS, CLIENT, DRAW};

#[derive(Clone, Copy)]
pub(crate) enum Call {
    SessionsOpen,
    SessionsOpenKeyed,
    SessionsRoom,
    Grant,
    GrantLater,
    GrantAfterRoom,
    SessionsCopy,
    RecentOpen,
    RecentOpenKeyed,
    RecentRoom,
    MakeReady,
    Keep,
    KeepLater,
    KeepAfterRoom,
    KeepShared,
    RecentCopy,
    KeptCopy,
    ChallengesOpen,
    ChallengesRoom,
    Issue,
    IssueLater,
    IssueAfterRoom,
    ChallengesCopy,
}

const KEY: Key = Key {
    source: CLIENT,
    port: 1645,
    door: Door::Acct,
    id: 7,
};

pub(crate) fn judge_call(alloc: Global, call: Call) -> Verdict {
    match Config::read(alloc, CAMPUS) {
        Ok(config) => judge_with(alloc, &config, call),
        Err(_) => Verdict::Unready,
    }
}

fn judge_with(alloc: Global, config: &Config, call: Call) -> Verdict {
    match call {
        Call::SessionsOpen
        | Call::SessionsOpenKeyed
        | Call::SessionsRoom
        | Call::Grant
        | Call::GrantLater
        | Call::GrantAfterRoom
        | Call::SessionsCopy => judge(alloc, SessionsTrial::ready(alloc, config, call)),
        Call::RecentOpen
        | Call::RecentOpenKeyed
        | Call::RecentRoom
        | Call::MakeReady
        | Call::Keep
        | Call::KeepLater
        | Call::KeepAfterRoom
        | Call::KeepShared
        | Call::RecentCopy => judge(alloc, RecentTrial::ready(alloc, config, call)),
        Call::KeptCopy => judge(alloc, KeptTrial::ready(alloc)),
        Call::ChallengesOpen
        | Call::ChallengesRoom
        | Call::Issue
        | Call::IssueLater
        | Call::IssueAfterRoom
        | Call::ChallengesCopy => judge(alloc, ChallengesTrial::ready(alloc, config, call)),
    }
}

// When a call is made.
fn moment(call: Call) -> u64
    ensures { result ≤ moment_max }
{
    match call {
        Call::GrantLater | Call::KeepLater | Call::IssueLater => moment_at(ROWS),
        _ => 0,
    }
}

/// A call on sessions. Those that are copied, and those of a later grant, have a session, which isn't live any more at that grant.
#[derive(Drop)]
struct SessionsTrial<'c> {
    alloc: Global,
    config: &'c Config,
    call: Call,
    sessions: Sessions,
    given: Option<Sessions>,
    grant: Option<Grant>,
}

impl<'c> SessionsTrial<'c> {
    fn ready(alloc: Global, config: &'c Config, call: Call) -> Option<SessionsTrial<'c>> {
        let mut sessions = Sessions::open(alloc, config).ok()?;
        let is_ready = match call {
            Call::GrantAfterRoom => sessions.room().is_ok(),
            Call::SessionsCopy => grant(&mut sessions, config, 0).is_ok(),
            Call::GrantLater => are_granted(&mut sessions, config),
            _ => true,
        };
        if !is_ready {
            return None;
        }
        Some(SessionsTrial {
            alloc,
            config,
            call,
            sessions,
            given: None,
            grant: None,
        })
    }
}

fn are_granted(sessions: &mut Sessions, config: &Config) -> bool {
    for row in 0..ROWS {
        if grant(sessions, config, moment_at(row)).is_err() {
            return false;
        }
    }
    true
}

fn grant(sessions: &mut Sessions, config: &Config, now: u64) -> Result<Grant, Refusal>
    requires { now ≤ moment_max }
{
    match config.user(b"nemo") {
        Some(user) => sessions.grant(config, 0, CLIENT, user, now),
        None => Err(Refusal::Full),
    }
}

impl<'c> Trial for SessionsTrial<'c> {
    fn copy(&self) -> Option<SessionsTrial<'c>> {
        let sessions = self.sessions.copy().ok()?;
        Some(SessionsTrial {
            alloc: self.alloc,
            config: self.config,
            call: self.call,
            sessions,
            given: None,
            grant: None,
        })
    }

    fn is_like(&self, other: &SessionsTrial) -> bool {
        are_alike(&self.given, &other.given, Sessions::same)
            && self.grant == other.grant
            && self.sessions.same(&other.sessions)
    }

    fn call(&mut self) -> Called {
        match self.call {
            Call::SessionsOpen => keep(&mut self.given, Sessions::open(self.alloc, self.config)),
            Call::SessionsOpenKeyed => keep(
                &mut self.given,
                Sessions::open_keyed(self.alloc, self.config, HASH_KEY),
            ),
            Call::SessionsRoom => Called::by(self.sessions.room().is_ok()),
            Call::SessionsCopy => keep(&mut self.given, self.sessions.copy()),
            _ => match grant(&mut self.sessions, self.config, moment(self.call)) {
                Ok(grant) => keep(&mut self.grant, Ok(grant)),
                Err(Refusal::NoMemory) => Called::Refused,
                Err(_) => Called::Failed,
            },
        }
    }
}

/// A call on kept replies. Those that are copied, and those of a later call, have a reply, which isn't live any more at that call.
#[derive(Drop)]
struct RecentTrial<'c> {
    alloc: Global,
    config: &'c Config,
    call: Call,
    recent: Recent,
    given: Option<Recent>,
}

impl<'c> RecentTrial<'c> {
    fn ready(alloc: Global, config: &'c Config, call: Call) -> Option<RecentTrial<'c>> {
        let mut recent = Recent::open(alloc, config).ok()?;
        let is_ready = match call {
            Call::KeepAfterRoom => recent.room(&KEY, 0).is_ok(),
            Call::RecentCopy => keep_reply(alloc, &mut recent, 0).is_ok(),
            Call::KeepLater => are_kept(alloc, &mut recent),
            _ => true,
        };
        if !is_ready {
            return None;
        }
        Some(RecentTrial {
            alloc,
            config,
            call,
            recent,
            given: None,
        })
    }
}

fn are_kept(alloc: Global, recent: &mut Recent) -> bool {
    for row in 0..ROWS {
        if keep_reply(alloc, recent, moment_at(row)).is_err() {
            return false;
        }
    }
    true
}

// A request without octets and a body without attributes take no memory.
fn keep_reply(alloc: Global, recent: &mut Recent, now: u64) -> Result<(), KeepFault>
    requires { now ≤ moment_max }
{
    let body = Body::new(alloc, ACCOUNTING_RESPONSE);
    recent.keep(KEY, Vec::new(alloc), body, now)
}

fn keep_shared(alloc: Global, recent: &mut Recent) -> Result<(), KeepFault> {
    let body = Body::new(alloc, ACCOUNTING_RESPONSE);
    recent.keep_shared(KEY, Octets::new(Vec::new(alloc)), body, 0)
}

fn kept(outcome: Result<(), KeepFault>) -> Called {
    match outcome {
        Ok(()) => Called::Done,
        Err(KeepFault::NoMemory) => Called::Refused,
        Err(KeepFault::Full) => Called::Failed,
    }
}

impl<'c> Trial for RecentTrial<'c> {
    fn copy(&self) -> Option<RecentTrial<'c>> {
        let recent = self.recent.copy().ok()?;
        Some(RecentTrial {
            alloc: self.alloc,
            config: self.config,
            call: self.call,
            recent,
            given: None,
        })
    }

    fn is_like(&self, other: &RecentTrial) -> bool {
        are_alike(&self.given, &other.given, Recent::same) && self.recent.same(&other.recent)
    }

    fn call(&mut self) -> Called {
        match self.call {
            Call::RecentOpen => keep(&mut self.given, Recent::open(self.alloc, self.config)),
            Call::RecentOpenKeyed => keep(
                &mut self.given,
                Recent::open_keyed(self.alloc, self.config, HASH_KEY),
            ),
            Call::RecentRoom => kept(self.recent.room(&KEY, 0)),
            Call::MakeReady => Called::by(self.recent.make_ready(&KEY).is_ok()),
            Call::RecentCopy => keep(&mut self.given, self.recent.copy()),
            Call::KeepShared => kept(keep_shared(self.alloc, &mut self.recent)),
            _ => kept(keep_reply(self.alloc, &mut self.recent, moment(self.call))),
        }
    }
}

/// A kept reply is copied, of which nothing is shared.
#[derive(Drop)]
struct KeptTrial {
    alloc: Global,
    kept: Kept,
    given: Option<Kept>,
}

impl KeptTrial {
    fn ready(alloc: Global) -> Option<KeptTrial> {
        let kept = reply(alloc).ok()?;
        Some(KeptTrial {
            alloc,
            kept,
            given: None,
        })
    }
}

fn reply(alloc: Global) -> Result<Kept, AllocError> {
    let mut body = Body::new(alloc, ACCESS_ACCEPT);
    body.push(USER_NAME, b"nemo")?;
    Ok(Kept {
        client: Some(0),
        key: KEY,
        octets: Octets::new(b"a request".to_vec(alloc)?),
        body,
        made: 0,
    })
}

impl Trial for KeptTrial {
    fn copy(&self) -> Option<KeptTrial> {
        KeptTrial::ready(self.alloc)
    }

    fn is_like(&self, other: &KeptTrial) -> bool {
        are_alike(&self.given, &other.given, Kept::same) && self.kept.same(&other.kept)
    }

    fn call(&mut self) -> Called {
        keep(&mut self.given, self.kept.copy())
    }
}

/// A call on challenges. Those that are copied, and those of a later call, have a challenge, which isn't live any more at that
/// call.
#[derive(Drop)]
struct ChallengesTrial<'c> {
    alloc: Global,
    config: &'c Config,
    call: Call,
    challenges: Challenges,
    given: Option<Challenges>,
    number: Option<u64>,
}

impl<'c> ChallengesTrial<'c> {
    fn ready(alloc: Global, config: &'c Config, call: Call) -> Option<ChallengesTrial<'c>> {
        let mut challenges = Challenges::open(alloc, config).ok()?;
        let is_ready = match call {
            Call::IssueAfterRoom => challenges.room().is_ok(),
            Call::ChallengesCopy => challenges.issue(0, 0, DRAW, 0).is_ok(),
            Call::IssueLater => are_issued(&mut challenges),
            _ => true,
        };
        if !is_ready {
            return None;
        }
        Some(ChallengesTrial {
            alloc,
            config,
            call,
            challenges,
            given: None,
            number: None,
        })
    }
}

fn are_issued(challenges: &mut Challenges) -> bool {
    for row in 0..ROWS {
        if challenges.issue(0, 0, DRAW, moment_at(row)).is_err() {
            return false;
        }
    }
    true
}

impl<'c> Trial for ChallengesTrial<'c> {
    fn copy(&self) -> Option<ChallengesTrial<'c>> {
        let challenges = self.challenges.copy().ok()?;
        Some(ChallengesTrial {
            alloc: self.alloc,
            config: self.config,
            call: self.call,
            challenges,
            given: None,
            number: None,
        })
    }

    fn is_like(&self, other: &ChallengesTrial) -> bool {
        are_alike(&self.given, &other.given, Challenges::same)
            && self.number == other.number
            && self.challenges.same(&other.challenges)
    }

    fn call(&mut self) -> Called {
        match self.call {
            Call::ChallengesOpen => {
                keep(&mut self.given, Challenges::open(self.alloc, self.config))
            }
            Call::ChallengesRoom => Called::by(self.challenges.room().is_ok()),
            Call::ChallengesCopy => keep(&mut self.given, self.challenges.copy()),
            _ => match self.challenges.issue(0, 0, DRAW, moment(self.call)) {
                Ok(number) => keep(&mut self.number, Ok(number)),
                Err(IssueFault::NoMemory) => Called::Refused,
                Err(IssueFault::Full) => Called::Failed,
            },
        }
    }
}

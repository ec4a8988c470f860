//! As many sessions as there may be, and one more.
use super::restored::{FIRST, fault_of};
use super::{CAMPUS, Call, DORY, KAY, ONE, ask, make};
use crate::tests::holds;
use rad_config::Config;
use rad_pool::{Grant, Refusal, RowFault, SESSIONS_MAX, Session, Sessions};
use std::alloc::{AllocError, Global};
use std::test::Fail;

// The configuration with sixteen more users, who together may have as many sessions as there may be.
fn crowded(alloc: Global) -> Result<String, AllocError> {
    let mut text = format!(in alloc; "{CAMPUS}")?;
    for user in 0..16 {
        let entry = format!(in alloc;
            "[[user]]\nname = \"many{user}\"\npassword = \"p\"\nsessions = 4096\n"
        )?;
        text.push_str(entry.as_str())?;
    }
    Ok(text)
}

// Grants each of them 4,096 sessions, and returns whether all are numbered in turn, without an address.
fn fill(sessions: &mut Sessions, config: &Config) -> bool {
    let mut is_right = true;
    for place in 0..SESSIONS_MAX {
        let grant = Grant {
            number: place as u64 + 1,
            address: None,
        };
        let user = KAY + 1 + (place / 4_096) as u32;
        is_right = is_right && ask(sessions, config, user, 0) == Some(Ok(grant));
    }
    is_right
}

#[test]
fn so_many_sessions_and_no_more(rt: HostRuntime) -> Result<(), Fail> {
    let text = crowded(rt.alloc())?;
    let config = Config::read(rt.alloc(), &text)?;
    let is_limit = is_limit(rt.alloc(), &config);
    holds(
        &rt,
        is_limit == Ok(true),
        "all are granted, then none and none is put back, and then the next number",
    );
    Ok(())
}

fn is_limit(alloc: Global, config: &Config) -> Result<bool, AllocError> {
    let mut sessions = Sessions::open(alloc, config)?;
    let are_granted = fill(&mut sessions, config);
    let next = Session {
        number: 65_537,
        ..FIRST
    };
    let is_refused = fault_of(&mut sessions, config, next) == Some(RowFault::Full);
    Ok(are_granted && is_refused && is_full_until_the_hold(&mut sessions, config))
}

fn is_full_until_the_hold(sessions: &mut Sessions, config: &Config) -> bool {
    let refused = Call::Refuse(DORY, Refusal::Full);
    let granted = Call::Grant(DORY, 65_537, Some(ONE));
    make(sessions, config, 30_000, &refused) && make(sessions, config, 60_000, &granted)
}

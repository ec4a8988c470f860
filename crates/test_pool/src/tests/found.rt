//! Which session is meant by a Class, or by an address and a name.
use super::{CAMPUS, Call, DORY, NEMO, ONE, make};
use crate::tests::holds;
use rad_config::Config;
use rad_pool::Sessions;
use std::alloc::{AllocError, Global};
use std::test::Fail;

/// What names a session: the client, the number of a Class, a Framed-IP-Address, a User-Name; and whether the first session is
/// meant, while it is open and once it has ended.
const NAMES: [(
    u32,
    Option<u64>,
    Option<u32>,
    Option<Option<u32>>,
    bool,
    bool,
); 12] = [
    // By number, whatever else is there.
    (0, Some(1), None, None, true, true),
    (0, Some(1), Some(ONE + 1), Some(Some(DORY)), true, true),
    (0, Some(2), Some(ONE), None, false, false),
    (1, Some(1), None, None, false, false),
    // By address, with the user's name or none.
    (0, None, Some(ONE), None, true, false),
    (0, None, Some(ONE), Some(Some(NEMO)), true, false),
    (0, None, Some(ONE), Some(Some(DORY)), false, false),
    (0, None, Some(ONE), Some(None), false, false),
    (0, None, Some(ONE + 1), None, false, false),
    (1, None, Some(ONE), None, false, false),
    // By nothing.
    (0, None, None, None, false, false),
    (0, None, None, Some(Some(NEMO)), false, false),
];

// Whether each row of the table means the first session, or none, as it says.
fn are_meant(sessions: &Sessions, has_ended: bool) -> bool {
    NAMES.iter().all(|row| {
        let (client, number, address, name, if_open, if_ended) = *row;
        let is_meant = if has_ended { if_ended } else { if_open };
        sessions.find(client, number, address, name) == if is_meant { Some(1) } else { None }
    })
}

#[test]
fn a_session_is_meant_by_its_class_or_its_address(rt: HostRuntime) -> Result<(), Fail> {
    let config = Config::read(rt.alloc(), CAMPUS)?;
    let is_meant = is_meant_as_it_ends(rt.alloc(), &config);
    holds(&rt, is_meant == Ok(true), "each row of the table");
    Ok(())
}

// Whether each row of the table holds while the first session is pending, active and ended.
fn is_meant_as_it_ends(alloc: Global, config: &Config) -> Result<bool, AllocError> {
    let mut sessions = Sessions::open(alloc, config)?;
    let is_granted = make(&mut sessions, config, 0, &Call::Grant(NEMO, 1, Some(ONE)));
    let if_pending = are_meant(&sessions, false);
    sessions.start(1, 0);
    let if_active = are_meant(&sessions, false);
    sessions.stop(1);
    let if_ended = are_meant(&sessions, true);
    Ok(is_granted && if_pending && if_active && if_ended)
}

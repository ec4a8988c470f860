//! Each case of what is carried, and what is left out.
use super::configurations::*;
use super::holds;
use super::planting::{CLOCK, LAST_CHALLENGE, LAST_SESSION, planted};
use rad_carry::{Carried, carry};
use rad_config::Config;
use rad_pool::{Session, Sessions};
use rad_recent::{Challenges, Recent};
use rad_server::{HashKey, Server};
use std::alloc::Global;
use std::test::Fail;

/// What the new server must remember: the number, client and user of each session; the Identifier and the client of each reply; how
/// many challenges, and their client and user; and the numbers of the sessions that are left out.
#[derive(Clone, Copy)]
struct Wanted {
    sessions: &'static [(u64, u32, u32)],
    replies: &'static [(u8, u32)],
    challenges: (u64, u32, u32),
    left_out: &'static [u64],
}

/// All is carried, at the same places.
const ALL: Wanted = Wanted {
    sessions: &[(1, 0, 0), (2, 1, 1), (4, 1, 1)],
    replies: &[(1, 0), (2, 1), (3, 1), (4, 0)],
    challenges: (2, 0, 2),
    left_out: &[],
};

// Whether two challenges and all else are carried so to a server of another configuration.
fn carries(alloc: Global, text: Text, wanted: Wanted) -> bool {
    carries_of(alloc, text, 2, wanted)
}

// The same of so many challenges.
fn carries_of(alloc: Global, text: Text, challenges: u64, wanted: Wanted) -> bool {
    match (OLD.config(alloc), text.config(alloc)) {
        (Some(old), Some(new)) => carries_to(alloc, &old, &new, challenges, wanted),
        _ => false,
    }
}

fn carries_to(alloc: Global, old: &Config, new: &Config, challenges: u64, wanted: Wanted) -> bool {
    match planted(alloc, old, challenges) {
        Some(server) => carries_from(alloc, &server, new, wanted),
        None => false,
    }
}

fn carries_from(alloc: Global, server: &Server, new: &Config, wanted: Wanted) -> bool {
    match carry(alloc, server, new, HashKey::KNOWN) {
        Ok(carried) => is_wanted(&carried, wanted),
        Err(_) => false,
    }
}

fn is_wanted(carried: &Carried, wanted: Wanted) -> bool {
    let server = &carried.server;
    server.clock() == CLOCK
        && server.sessions().last() == LAST_SESSION
        && server.challenges().last() == LAST_CHALLENGE
        && are_sessions(server.sessions(), wanted.sessions)
        && are_replies(server.recent(), wanted.replies)
        && are_challenges(server.challenges(), wanted.challenges)
        && are_left_out(&carried.left_out, wanted.left_out)
}

fn are_sessions(sessions: &Sessions, wanted: &[(u64, u32, u32)]) -> bool {
    let mut rest = wanted.iter();
    for session in sessions.rows() {
        let Session {
            number,
            client,
            user,
            ..
        } = session;
        if rest.next() != Some(&(number, client, user)) {
            return false;
        }
    }
    rest.next().is_none()
}

fn are_replies(replies: &Recent, wanted: &[(u8, u32)]) -> bool {
    let mut rest = wanted.iter();
    for reply in replies.rows() {
        let Some((id, client)) = rest.next() else {
            return false;
        };
        if reply.key.id != *id || reply.client != Some(*client) {
            return false;
        }
    }
    rest.next().is_none()
}

// Whether there are so many challenges, numbered in turn from 1 on, of this client and this user.
fn are_challenges(challenges: &Challenges, wanted: (u64, u32, u32)) -> bool {
    let (count, client, user) = wanted;
    let mut last: u64 = 0;
    for challenge in challenges.rows() {
        last = last.saturating_add(1);
        if challenge.number != last || challenge.client != client || challenge.user != user {
            return false;
        }
    }
    last == count
}

// Whether these sessions are left out, with the places of the old configuration.
fn are_left_out(sessions: &[Session], wanted: &[u64]) -> bool {
    let mut rest = wanted.iter();
    for session in sessions {
        let place = if session.number == 1 { 0 } else { 1 };
        if rest.next() != Some(&session.number)
            || session.user != place
            || session.client != place
        {
            return false;
        }
    }
    rest.next().is_none()
}

#[test]
fn all_is_carried_to_the_same_configuration(rt: HostRuntime) -> Result<(), Fail> {
    holds(&rt, carries(rt.alloc(), OLD, ALL), "the same configuration");
    holds(&rt, is_the_same(rt.alloc()), "an equal server");
    Ok(())
}

// Whether a server that is carried to the same configuration is equal.
fn is_the_same(alloc: Global) -> bool {
    match OLD.config(alloc) {
        Some(config) => is_the_same_of(alloc, &config),
        None => false,
    }
}

fn is_the_same_of(alloc: Global, config: &Config) -> bool {
    match planted(alloc, config, 2) {
        Some(server) => equals_carried(alloc, &server, config),
        None => false,
    }
}

fn equals_carried(alloc: Global, server: &Server, config: &Config) -> bool {
    match carry(alloc, server, config, HashKey::KNOWN) {
        Ok(carried) => carried.server.same(server),
        Err(_) => false,
    }
}

#[test]
fn users_are_found_by_name(rt: HostRuntime) -> Result<(), Fail> {
    let text = Text {
        users: TURNED_USERS,
        ..OLD
    };
    let wanted = Wanted {
        sessions: &[(1, 0, 2), (2, 1, 1), (4, 1, 1)],
        challenges: (2, 0, 0),
        ..ALL
    };
    holds(
        &rt,
        carries(rt.alloc(), text, wanted),
        "users in another order",
    );
    Ok(())
}

#[test]
fn clients_are_found_by_network(rt: HostRuntime) -> Result<(), Fail> {
    let text = Text {
        clients: SWAPPED_CLIENTS,
        ..OLD
    };
    let wanted = Wanted {
        sessions: &[(1, 1, 0), (2, 0, 1), (4, 0, 1)],
        replies: &[(1, 1), (2, 0), (3, 0), (4, 1)],
        challenges: (2, 1, 2),
        ..ALL
    };
    holds(
        &rt,
        carries(rt.alloc(), text, wanted),
        "clients in another order",
    );
    Ok(())
}

#[test]
fn a_user_who_is_gone_leaves_sessions_and_their_replies(rt: HostRuntime) -> Result<(), Fail> {
    let text = Text {
        users: RENAMED_USERS,
        ..OLD
    };
    let wanted = Wanted {
        sessions: &[(2, 1, 1), (4, 1, 1)],
        replies: &[(2, 1), (3, 1), (4, 0)],
        left_out: &[1],
        ..ALL
    };
    holds(&rt, carries(rt.alloc(), text, wanted), "a user renamed");
    Ok(())
}

#[test]
fn a_client_that_is_gone_leaves_sessions_and_replies(rt: HostRuntime) -> Result<(), Fail> {
    let text = Text {
        clients: FIRST_CLIENT,
        ..OLD
    };
    let wanted = Wanted {
        sessions: &[(1, 0, 0)],
        replies: &[(1, 0), (4, 0)],
        left_out: &[2, 4],
        ..ALL
    };
    holds(&rt, carries(rt.alloc(), text, wanted), "a network gone");
    Ok(())
}

#[test]
fn a_source_of_another_client_leaves_replies(rt: HostRuntime) -> Result<(), Fail> {
    let text = Text {
        clients: CLOSER_CLIENTS,
        ..OLD
    };
    let wanted = Wanted {
        replies: &[(1, 0), (4, 0)],
        ..ALL
    };
    holds(
        &rt,
        carries(rt.alloc(), text, wanted),
        "a client with a longer prefix",
    );
    Ok(())
}

#[test]
fn an_address_outside_the_pool_is_left_out(rt: HostRuntime) -> Result<(), Fail> {
    let text = Text {
        pools: MOVED_POOLS,
        ..OLD
    };
    let wanted = Wanted {
        sessions: &[(1, 0, 0), (4, 1, 1)],
        replies: &[(1, 0), (3, 1), (4, 0)],
        left_out: &[2],
        ..ALL
    };
    holds(&rt, carries(rt.alloc(), text, wanted), "a pool moved");
    Ok(())
}

#[test]
fn pools_are_found_by_address(rt: HostRuntime) -> Result<(), Fail> {
    let text = Text {
        pools: RENAMED_POOLS,
        users: USERS_OF_RENAMED_POOLS,
        ..OLD
    };
    holds(&rt, carries(rt.alloc(), text, ALL), "pools renamed");
    Ok(())
}

#[test]
fn the_newest_sessions_beyond_the_limit_are_left_out(rt: HostRuntime) -> Result<(), Fail> {
    let text = Text {
        users: LIMITED_USERS,
        ..OLD
    };
    let wanted = Wanted {
        sessions: &[(1, 0, 0), (2, 1, 1)],
        replies: &[(1, 0), (2, 1), (4, 0)],
        left_out: &[4],
        ..ALL
    };
    holds(&rt, carries(rt.alloc(), text, wanted), "fewer sessions");
    Ok(())
}

#[test]
fn challenges_without_an_answer_are_left_out(rt: HostRuntime) -> Result<(), Fail> {
    let text = Text {
        users: UNCHALLENGED_USERS,
        ..OLD
    };
    let wanted = Wanted {
        challenges: (0, 0, 2),
        ..ALL
    };
    holds(&rt, carries(rt.alloc(), text, wanted), "no answer any more");
    Ok(())
}

#[test]
fn a_share_leaves_the_newest_challenges(rt: HostRuntime) -> Result<(), Fail> {
    let text = Text {
        clients: SHARED_CLIENTS,
        ..OLD
    };
    let wanted = Wanted {
        challenges: (10, 0, 2),
        ..ALL
    };
    holds(
        &rt,
        carries_of(rt.alloc(), text, 12, wanted),
        "a smaller share",
    );
    Ok(())
}

#[test]
fn other_spans_leave_nothing_out(rt: HostRuntime) -> Result<(), Fail> {
    let shorter = Text {
        spans: "window = 1\nhold = 2\n",
        ..OLD
    };
    holds(&rt, carries(rt.alloc(), shorter, ALL), "shorter spans");
    let longer = Text {
        spans: "window = 300\nhold = 600\nstale = 300\n",
        ..OLD
    };
    holds(&rt, carries(rt.alloc(), longer, ALL), "longer spans");
    Ok(())
}

#[test]
fn last_numbers_stay_where_all_is_left_out(rt: HostRuntime) -> Result<(), Fail> {
    let text = Text {
        users: OTHER_USERS,
        ..OLD
    };
    let wanted = Wanted {
        sessions: &[],
        replies: &[(4, 0)],
        challenges: (0, 0, 0),
        left_out: &[1, 2, 4],
    };
    holds(&rt, carries(rt.alloc(), text, wanted), "no user left");
    Ok(())
}

//! Who is granted access.
ghost use Rattle.std.specs.Prelude.{◌≡◌, ◌≤◌, ◌<◌, IfOk, IfSome, Ok, Some, length, option_map};
ghost use Rattle.rad_config.specs.Configurations.{Configuration};
ghost use Rattle.rad_config.specs.Spans.{moment_max};
ghost use Rattle.rad_recent.specs.Challenges.{answered, cut_challenges, next_number};
ghost use Rattle.rad_server.specs.Access.{challenge_number, user_challenged, user_decision, without_challenge};
ghost use Rattle.rad_server.specs.Decisions.{CanBeGiven, Gives, IsOfUser, decision_answering, decision_of, is_named};
ghost use Rattle.rad_server.specs.Decisions.{user_answering};
ghost use Rattle.rad_server.specs.TableStates.{AreUsable, live_state, state_for};

use crate::denial::Denial;
use crate::shares;
use crate::tables::Tables;
use rad_auth::Request;
use rad_config::Config;
use rad_pool::Grant;
use rad_recent::{Challenges, Party};

/// An answer to a challenge.
#[derive(Clone, Copy)]
pub(crate) struct ChallengeAnswer<'a> {
    pub state: &'a [u8],
    /// The place of the user whose name was sent, if there is one.
    pub user: Option<u32>,
    /// Whether the password that was sent is that user's answer.
    pub is_right: bool,
}

/// A session that the rule grants.
#[derive(Clone, Copy)]
pub(crate) struct NewSession {
    /// The user's place in the configuration.
    pub user: u32,
    pub grant: Grant,
}

/// What a user is given, if access isn't denied.
#[derive(Clone, Copy)]
pub(crate) enum Decision {
    /// A challenge for the user at this place, with this number.
    Challenge(u32, u64),
    Session(NewSession),
}

/// What the user whose password was sent is given at a moment: a challenge if the user has one, or else a session.
pub(crate) fn decide_for_user(
    config: &Config,
    tables: &Tables,
    now: u64,
    request: &Request,
    user: u32,
) -> Result<Decision, Denial>
    requires moment { now ≤ moment_max }
    requires within { user < length config.now.users }
    ensures decided { Gives decision_of result
        (user_decision config.now (state_for request.now now tables.now)
        request.now.client user) }
    ensures given { IfOk result (CanBeGiven (live_state now tables.now)) }
    ensures within { IfOk result (IsOfUser config.now) }
{
    if config.user_at(user).challenge.is_some() {
        let number = next_challenge(config, &tables.challenges, now, request.client, user)?;
        return Ok(Decision::Challenge(user, number));
    }
    let grant = tables.sessions.peek(config, request.client, user, now)?;
    Ok(Decision::Session(NewSession { user, grant }))
}

// The number of a challenge for a user, as far as the user and the client who sent the request may have one more.
#[tactic(auto, unfolding(crate::specs::Access::challenge_number))]
fn next_challenge(
    config: &Config,
    challenges: &Challenges,
    now: u64,
    client: u32,
    user: u32,
) -> Result<u64, Denial>
    requires moment { now ≤ moment_max }
    requires within { user < length config.now.users }
    ensures number { result ≡ challenge_number config.now
        (cut_challenges now challenges.now.table) client user }
    ensures next { IfOk result (λ number.
        (next_number (cut_challenges now challenges.now.table) ≡ Ok number)
        × (number ≡ challenges.now.table.next)) }
{
    let limit = config.user_at(user).challenges.map(u64::from);
    if shares::has_reached(challenges, Party::User(user), limit, now) {
        return Err(Denial::SessionLimit);
    }
    let share = shares::of_challenges(config, client);
    if shares::has_reached(challenges, Party::Client(client), share, now) {
        return Err(Denial::ServerFull);
    }
    challenges.peek(now).map_err(|_| Denial::ServerFull)
}

/// What a request that answers a challenge is given at a moment: a session for the user who was challenged.
#[tactic(auto, unfolding(crate::specs::Decisions::decision_answering))]
pub(crate) fn decide_on_answer(
    config: &Config,
    tables: &Tables,
    now: u64,
    request: &Request,
    answer: &ChallengeAnswer,
) -> Result<Decision, Denial>
    requires moment { now ≤ moment_max }
    requires usable { AreUsable config.now tables.now }
    ensures decided { Gives decision_of result
        (decision_answering config.now
        (without_challenge request.now.client (Some answer.now.state.now)
        (state_for request.now now tables.now))
        (user_challenged request.now (Some answer.now.state.now)
        (state_for request.now now tables.now))
        answer.now) }
    ensures given { IfOk result (CanBeGiven
        (without_challenge request.now.client (Some answer.now.state.now)
        (live_state now tables.now))) }
    ensures within { IfOk result (IsOfUser config.now) }
{
    let user = user_answering(tables, now, request, answer)?;
    let grant = tables.sessions.peek(config, request.client, user, now)?;
    Ok(Decision::Session(NewSession { user, grant }))
}

// The place of the user whose challenge is answered, rightly and under the user's name.
#[tactic(auto, unfolding(crate::specs::Decisions::user_answering))]
fn user_answering(
    tables: &Tables,
    now: u64,
    request: &Request,
    answer: &ChallengeAnswer,
) -> Result<u32, Denial>
    requires moment { now ≤ moment_max }
    ensures user { result ≡ user_answering
        (user_challenged request.now (Some answer.now.state.now)
        (state_for request.now now tables.now))
        answer.now }
    ensures place { (configuration : Configuration) → AreUsable configuration tables.now
        → IfOk result (λ user. user < length configuration.users) }
{
    let Some(user) = find_challenged(tables, now, request.client, answer.state) else {
        return Err(Denial::StateUnknown);
    };
    if !is_named(answer, user) {
        return Err(Denial::WrongState);
    }
    if !answer.is_right {
        return Err(Denial::AccessDenied);
    }
    Ok(user)
}

// Whether the name that was sent is that of the user at a place.
fn is_named(answer: &ChallengeAnswer, place: u32) -> bool
    ensures { result ≡ is_named answer.now.user place }
{
    match answer.user {
        Some(user) => user == place,
        None => false,
    }
}

// The place of the user whose challenge a client answers with this State.
fn find_challenged(tables: &Tables, now: u64, client: u32, state: &[u8]) -> Option<u32>
    requires { now ≤ moment_max }
    ensures user { result ≡ option_map (λ challenge. challenge.user)
        (answered state.now client (cut_challenges now tables.now.challenges.table)) }
    ensures place { (configuration : Configuration) → AreUsable configuration tables.now
        → IfSome result (λ user. user < length configuration.users) }
{
    tables.challenges.seek(state, client, now)
}

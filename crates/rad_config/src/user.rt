//! A user, and what is said of users: of one, or in a group of all that name it.
ghost use Rattle.std.specs.Prelude.{◌≡◌, ◌↔◌, ◌≤◌, ◌||◌, IfOk, IsTrue, is_some, length};
ghost use Rattle.std.specs.Option.{option_copied};
ghost use Rattle.rad_config.specs.Configurations.{pools_max};
ghost use Rattle.rad_config.specs.Entries.{has_key};
ghost use Rattle.rad_config.specs.Profiles.{IsProfile, profile_in, profile_seen, unless_placed};
ghost use Rattle.rad_config.specs.Views.{entry_data};
ghost use Rattle.rad_config_fault.specs.Faults.{Gives};

use crate::entry::Entry;
use crate::keys::{
    ANSWER, CHALLENGE, GRANTS, MESSAGE, PROTOCOL, SERVICE, SESSIONS, TIMEOUT, USER_CHALLENGES,
};
use crate::pool::Pool;
use crate::read_pool::read_pool_place;
use crate::text::Text;
use rad_config_fault::{ConfigFault, Key};
use rad_packet::Body;
use std::alloc::{AllocError, Global};

/// A user: who is granted access, and what a session of theirs is given.
///
/// In a configuration the name, the message and the challenge have 1 to 253 octets, the password and the answer 1 to 128
/// without a zero; `address` is 0.0.0.1 to 255.255.255.253, `sessions` 1 to 4,096, `pool` a pool's place, counted from 0, `timeout`
/// at least 1, `challenges` 1 to 1,024 and `grants` 1 to 65,536. Challenge and answer are both there, or neither. An Access-Accept
/// with the reply fits a packet with as many Proxy-States as there may be.
#[derive(Drop)]
pub struct User {
    pub name: Text,
    pub password: Text,
    /// The address of the user's own, which stands in no pool; without it addresses come from the pool, if there is one. Its most
    /// significant octet comes first.
    pub address: Option<u32>,
    /// The place of the pool that addresses come from.
    pub pool: Option<u32>,
    /// How many sessions there may be at a time, those included that haven't begun.
    pub sessions: u32,
    /// The Service-Type of an Access-Accept.
    pub service: Option<u32>,
    /// The Framed-Protocol of an Access-Accept.
    pub protocol: Option<u32>,
    /// The Session-Timeout of an Access-Accept, in seconds.
    pub timeout: Option<u32>,
    /// The Reply-Message of an Access-Accept.
    pub message: Option<Text>,
    /// The Reply-Message of an Access-Challenge.
    pub challenge: Option<Text>,
    /// The password that answers the challenge.
    pub answer: Option<Text>,
    /// How many challenges may wait for an answer; without it only the table's size limits them.
    pub challenges: Option<u32>,
    /// How many sessions may be in the table, ended ones included; without it only the table's size limits them.
    pub grants: Option<u32>,
    /// Further attributes of an Access-Accept, in the body of one.
    pub reply: Body,
}

/// What an entry says of users: every key but the name, the password, the group and the reply. The address is one of the user's
/// own; groups have none.
#[derive(Clone, Copy)]
pub struct Profile<'a> {
    pub address: Option<u32>,
    pub pool: Option<u32>,
    pub sessions: Option<u32>,
    pub service: Option<u32>,
    pub protocol: Option<u32>,
    pub timeout: Option<u32>,
    pub message: Option<&'a [u8]>,
    pub challenge: Option<&'a [u8]>,
    pub answer: Option<&'a [u8]>,
    pub challenges: Option<u32>,
    pub grants: Option<u32>,
}

impl<'a> Profile<'a> {
    ghost use Rattle.std.specs.Prelude.{◌≡◌};
    ghost use Rattle.rad_config.specs.Profiles.{blank, over, profile_seen};

    /// Nothing.
    pub fn blank() -> Profile<'a>
        ensures { profile_seen result ≡ blank }
    {
        Profile {
            address: None,
            pool: None,
            sessions: None,
            service: None,
            protocol: None,
            timeout: None,
            message: None,
            challenge: None,
            answer: None,
            challenges: None,
            grants: None,
        }
    }

    /// What is said, and where nothing is, what a group says. An address of the user's own stands in place of a pool, and one
    /// session at a time has it.
    pub fn over(self, group: Profile<'a>) -> Profile<'a>
        ensures { profile_seen result ≡ over (profile_seen self.entry) (profile_seen group.entry) }
    {
        Profile {
            address: self.address,
            pool: unless_placed(self.address, self.pool.or(group.pool), None),
            sessions: unless_placed(self.address, self.sessions.or(group.sessions), Some(1)),
            service: self.service.or(group.service),
            protocol: self.protocol.or(group.protocol),
            timeout: self.timeout.or(group.timeout),
            message: self.message.or(group.message),
            challenge: self.challenge.or(group.challenge),
            answer: self.answer.or(group.answer),
            challenges: self.challenges.or(group.challenges),
            grants: self.grants.or(group.grants),
        }
    }
}

/// What an entry says of users beside these pools, but for an address of a user's own.
///
/// A challenge or an answer may be missing unless it is needed.
#[tactic(auto, unfolding(crate::specs::Profiles::profile_in))]
pub fn read_profile<'a>(
    pools: &[Pool],
    needs_challenge: bool,
    needs_answer: bool,
    entry: &Entry<'a>,
) -> Result<Profile<'a>, ConfigFault>
    requires { length pools.now ≤ pools_max }
    ensures read { Gives profile_seen result
        (profile_in pools.now needs_challenge needs_answer (entry_data entry.now)) }
    ensures range { IfOk result (λ said. IsProfile (length pools.now) (profile_seen said)) }
    ensures challenge { IfOk result (λ said. is_some said.challenge
        ≡ (needs_challenge || has_key (entry_data entry.now) Key.Challenge)) }
    ensures answer { IfOk result (λ said. is_some said.answer
        ≡ (needs_answer || has_key (entry_data entry.now) Key.Answer)) }
{
    let pool = read_pool_place(pools, entry)?;
    let sessions = entry.number(&SESSIONS)?;
    let service = entry.number(&SERVICE)?;
    let protocol = entry.number(&PROTOCOL)?;
    let timeout = entry.number(&TIMEOUT)?;
    let message = entry.text(&MESSAGE)?;
    let challenge = entry.text_unless(needs_challenge, &CHALLENGE)?;
    let answer = entry.text_unless(needs_answer, &ANSWER)?;
    let challenges = entry.number(&USER_CHALLENGES)?;
    let grants = entry.number(&GRANTS)?;
    Ok(Profile {
        address: None,
        pool,
        sessions,
        service,
        protocol,
        timeout,
        message,
        challenge,
        answer,
        challenges,
        grants,
    })
}

/// What an entry says of a user, and what its group says.
#[derive(Drop)]
pub struct UserEntry<'a> {
    pub name: &'a [u8],
    pub password: &'a [u8],
    pub profile: Profile<'a>,
    pub reply: Body,
}

impl<'a> UserEntry<'a> {
    ghost use Rattle.std.specs.Prelude.{◌≡◌, IfOk};
    ghost use Rattle.rad_packet.specs.Codes.{code_access_accept};
    ghost use Rattle.rad_config.specs.ReadEntries.{entry_user};

    /// The user with octets of their own.
    pub fn into_user(self, alloc: Global) -> Result<User, AllocError>
        requires { self.reply.code ≡ code_access_accept }
        ensures { IfOk result (λ user. user ≡ entry_user self.entry) }
    {
        let UserEntry {
            name,
            password,
            profile,
            reply,
        } = self;
        Ok(User {
            name: Text::copy_of(alloc, name)?,
            password: Text::copy_of(alloc, password)?,
            address: profile.address,
            pool: profile.pool,
            sessions: profile.sessions.unwrap_or(1),
            service: profile.service,
            protocol: profile.protocol,
            timeout: profile.timeout,
            message: copy_of_some(alloc, profile.message)?,
            challenge: copy_of_some(alloc, profile.challenge)?,
            answer: copy_of_some(alloc, profile.answer)?,
            challenges: profile.challenges,
            grants: profile.grants,
            reply,
        })
    }
}

/// Whether users are equal.
pub fn same_user(user: &User, other: &User) -> bool
    ensures { IsTrue result ↔ (user.now ≡ other.now) }
{
    same_access(user, other)
        && same_limits(user, other)
        && same_attributes(user, other)
        && same_challenge(user, other)
}

// Who may enter, and at which address or from which pool.
fn same_access(user: &User, other: &User) -> bool
    ensures { IsTrue result ↔ ((user.now.name ≡ other.now.name)
        × (user.now.password ≡ other.now.password) × (user.now.address ≡ other.now.address)
        × (user.now.pool ≡ other.now.pool)) }
{
    user.name.same(&other.name)
        && user.password.same(&other.password)
        && user.address == other.address
        && user.pool == other.pool
}

// How much they may have.
fn same_limits(user: &User, other: &User) -> bool
    ensures { IsTrue result ↔ ((user.now.sessions ≡ other.now.sessions)
        × (user.now.challenges ≡ other.now.challenges) × (user.now.grants ≡ other.now.grants)) }
{
    user.sessions == other.sessions
        && user.challenges == other.challenges
        && user.grants == other.grants
}

// What an Access-Accept says.
fn same_attributes(user: &User, other: &User) -> bool
    ensures { IsTrue result ↔ ((user.now.service ≡ other.now.service)
        × (user.now.protocol ≡ other.now.protocol) × (user.now.timeout ≡ other.now.timeout)
        × (user.now.message ≡ other.now.message) × (user.now.reply ≡ other.now.reply)) }
{
    user.service == other.service
        && user.protocol == other.protocol
        && user.timeout == other.timeout
        && same_text(&user.message, &other.message)
        && user.reply.same(&other.reply)
}

// What an Access-Challenge asks.
fn same_challenge(user: &User, other: &User) -> bool
    ensures { IsTrue result ↔ ((user.now.challenge ≡ other.now.challenge)
        × (user.now.answer ≡ other.now.answer)) }
{
    same_text(&user.challenge, &other.challenge) && same_text(&user.answer, &other.answer)
}

// Whether both are the same text, or neither is there.
fn same_text(text: &Option<Text>, other: &Option<Text>) -> bool
    ensures { IsTrue result ↔ (text.now ≡ other.now) }
{
    match (text, other) {
        (Some(text), Some(other)) => text.same(other),
        (None, None) => true,
        _ => false,
    }
}

// What is said, unless an address of the user's own puts something else in its place.
fn unless_placed(address: Option<u32>, said: Option<u32>, placed: Option<u32>) -> Option<u32>
    ensures { result ≡ unless_placed address said placed }
{
    match address {
        Some(_) => placed,
        None => said,
    }
}

// The text of these octets, where there are any.
fn copy_of_some(alloc: Global, octets: Option<&[u8]>) -> Result<Option<Text>, AllocError>
    ensures { IfOk result (λ text. text ≡ option_copied octets.entry) }
{
    match octets {
        Some(octets) => Ok(Some(Text::copy_of(alloc, octets)?)),
        None => Ok(None),
    }
}

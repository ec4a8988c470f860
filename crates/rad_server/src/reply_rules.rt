//! What the law asks of a kept reply that is put back, besides the law of its table.
ghost use Rattle.std.specs.Prelude.{◌≡◌, option_copied, slice_index_or};
ghost use Rattle.std.specs.List.{list_any};
ghost use Rattle.rad_server.specs.Restored.{HaveNumbers, begins_sealable, has_used_share, is_address_in, is_reply_of};
ghost use Rattle.rad_server.specs.Restored.{is_same_place, can_be_sealed, is_its_session, is_value, lacks_session, reply_rules};

use crate::accounting::class_number_of;
use crate::reply::class_value;
use crate::shares;
use rad_config::Config;
use rad_packet::attribute::{CLASS, FRAMED_IP_ADDRESS, MESSAGE_AUTHENTICATOR};
use rad_packet::code::{
    ACCESS_ACCEPT, ACCESS_CHALLENGE, ACCESS_REJECT, ACCOUNTING_RESPONSE, STATUS_SERVER,
};
use rad_packet::{Attribute, Attributes, Body, HEADER_SIZE, LENGTH_MAX};
use rad_pool::{Session, Sessions};
use rad_recent::{Kept, Recent};
use rad_row_fault::RowFault;

/// The rules of a kept reply beside those of its table: the first that it breaks, if it breaks one.
#[tactic(auto, unfolding(crate::specs::Restored::reply_rules))]
pub(crate) fn check(
    config: &Config,
    sessions: &Sessions,
    replies: &Recent,
    reply: &Kept,
) -> Result<(), RowFault>
    requires { HaveNumbers sessions.now.table }
    ensures { result ≡ reply_rules config.now
        sessions.now.table replies.now.table reply.now }
{
    if !can_be_sealed(&reply.body) {
        return Err(RowFault::Body);
    }
    if first_octet(reply.octets.octets()) == STATUS_SERVER {
        return Err(RowFault::Request);
    }
    if !is_same_place(reply.client, config.clients().find(reply.key.source)) {
        return Err(RowFault::Owner);
    }
    if has_used_share(config, replies, reply.client) {
        return Err(RowFault::Share);
    }
    if lacks_session(sessions, reply) {
        return Err(RowFault::Session);
    }
    Ok(())
}

// The first octet, or 0 where there is none.
fn first_octet(octets: &[u8]) -> u8
    ensures { result ≡ slice_index_or octets.now 0 0 }
{
    match octets.first() {
        Some(octet) => *octet,
        None => 0,
    }
}

// Whether both places are there and the same, or neither is there.
fn is_same_place(place: Option<u32>, other: Option<u32>) -> bool
    ensures { result ≡ is_same_place place other }
{
    match (place, other) {
        (None, None) => true,
        (Some(place), Some(other)) => place == other,
        _ => false,
    }
}

// Whether the client whose share a reply takes, if there is one, has used it up.
fn has_used_share(config: &Config, replies: &Recent, client: Option<u32>) -> bool
    ensures { result ≡ has_used_share config.now replies.now.table client }
{
    let Some(client) = client else {
        return false;
    };
    match shares::of_replies(config, client) {
        Some(most) => most <= replies.len_of(client),
        None => false,
    }
}

// ---- bodies

// Whether a body can be sealed.
fn can_be_sealed(body: &Body) -> bool
    ensures { result ≡ can_be_sealed body.now }
{
    body.size() <= LENGTH_MAX - HEADER_SIZE && is_reply_of(body.code(), body.attributes())
}

// Whether a body of this Code with these attributes is an Accounting-Response, or a reply to an Access-Request.
fn is_reply_of(code: u8, attributes: Attributes<'_>) -> bool
    ensures { result ≡ is_reply_of code attributes.entry }
{
    match code {
        ACCOUNTING_RESPONSE => attributes.first(MESSAGE_AUTHENTICATOR).is_none(),
        ACCESS_ACCEPT | ACCESS_REJECT | ACCESS_CHALLENGE => begins_sealable(attributes),
        _ => false,
    }
}

// Whether the attributes begin with a Message-Authenticator of 16 octets, and have no second.
fn begins_sealable(attributes: Attributes<'_>) -> bool
    ensures { result ≡ begins_sealable attributes.entry }
{
    let mut rest = attributes;
    match rest.next() {
        Some(
            Attribute {
                kind: MESSAGE_AUTHENTICATOR,
                value,
            },
        ) => { value.len() == 16 && rest.first(MESSAGE_AUTHENTICATOR).is_none() }
        _ => false,
    }
}

// ---- sessions

// Whether a reply is an Access-Accept that gives an address, and no session has it.
fn lacks_session(sessions: &Sessions, reply: &Kept) -> bool
    requires { HaveNumbers sessions.now.table }
    ensures { result ≡ lacks_session sessions.now.table reply.now }
{
    if reply.body.code() != ACCESS_ACCEPT {
        return false;
    }
    let address = reply.body.attributes().first(FRAMED_IP_ADDRESS);
    address.is_some() && !has_session(sessions, reply)
}

// Whether the session that a reply's Class names has the address that the reply gives.
fn has_session(sessions: &Sessions, reply: &Kept) -> bool
    requires { HaveNumbers sessions.now.table }
    ensures { result ≡ list_any (is_its_session reply.now) sessions.now.table.sessions }
{
    let Some(class) = reply.body.attributes().first(CLASS) else {
        return false;
    };
    let Some(number) = class_number_of(class) else {
        return false;
    };
    match sessions.get(number) {
        Some(session) => is_its_session(reply, &session),
        None => false,
    }
}

// Whether a session has the address that a reply gives, the reply has the session's Class, and both were made at one moment.
fn is_its_session(reply: &Kept, session: &Session) -> bool
    ensures { result ≡ is_its_session reply.now session.now }
{
    let class = reply.body.attributes().first(CLASS);
    let address = reply.body.attributes().first(FRAMED_IP_ADDRESS);
    is_value(&class_value(session.number), class)
        && is_address_in(address, session.address)
        && session.made == reply.made
}

// Whether there is an address, and a Value is it.
fn is_address_in(value: Option<&[u8]>, address: Option<u32>) -> bool
    ensures { result ≡ is_address_in (option_copied value.entry) address }
{
    match address {
        Some(address) => is_value(&address.to_be_bytes(), value),
        None => false,
    }
}

// Whether there is a Value, and it is this one.
fn is_value(value: &[u8], own: Option<&[u8]>) -> bool
    ensures { result ≡ is_value value.now (option_copied own.entry) }
{
    match own {
        Some(own) => value == own,
        None => false,
    }
}

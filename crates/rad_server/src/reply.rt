//! What replies say.
ghost use Rattle.std.specs.Prelude.{◌≡◌, ◌+◌, ◌≤◌, [], IfOk, IfSome, OnOk, length, option_map};
ghost use Rattle.rad_packet.specs.Attributes.{of_kind, size, value_max};
ghost use Rattle.rad_packet.specs.Bodies.{with_attributes};
ghost use Rattle.rad_config.specs.Configurations.{accept_max};
ghost use Rattle.rad_packet.specs.Codes.{code_access_accept};
ghost use Rattle.rad_packet.specs.Types.{type_proxy_state};
ghost use Rattle.rad_auth.specs.Admission.{KnowsProxyStates};
ghost use Rattle.rad_auth.specs.Sealing.{IsReply};
ghost use Rattle.rad_server.specs.ReplyBodies.{CanBeAccepted, access_front};
ghost use Rattle.rad_server.specs.Replies.{accept_attributes, access_accept, access_challenge, access_reject, access_reply};
ghost use Rattle.rad_server.specs.Replies.{accounting_response, attribute_if_any, class_value, four_octets, status_reply};

use crate::denial::Denial;
use rad_auth::{Door, Request};
use rad_config::{Text, User};
use rad_packet::Body;
use rad_packet::attribute::{
    CLASS, FRAMED_IP_ADDRESS, FRAMED_PROTOCOL, MESSAGE_AUTHENTICATOR, PROXY_STATE, REPLY_MESSAGE,
    SERVICE_TYPE, SESSION_TIMEOUT, STATE,
};
use rad_packet::code::{ACCESS_ACCEPT, ACCESS_CHALLENGE, ACCESS_REJECT, ACCOUNTING_RESPONSE};
use rad_pool::Grant;
use rad_recent::state_value;
use std::alloc::{AllocError, Global};

// The sizes of attributes in octets, Type and Length counted. The front is the Message-Authenticator.
const FRONT_SIZE: usize = 18;

const INTEGER_SIZE: usize = 6;

const STATE_SIZE: usize = 26;

const CLASS_SIZE: usize = 14;

/// The Access-Accept of a session.
#[tactic(auto, using(crate::proofs::ReplyLemmas::accept_is_reply))]
pub(crate) fn access_accept(
    alloc: Global,
    user: &User,
    grant: Grant,
    request: &Request,
) -> Result<Body, AllocError>
    requires message { IfSome user.now.message (λ message. length message ≤ value_max) }
    requires small { size user.now.reply.attributes ≤ accept_max }
    requires accepted { CanBeAccepted user.now grant }
    requires proxy_states { KnowsProxyStates request.now }
    ensures value { IfOk result (λ body. body ≡ access_accept user.now grant request.now.packet) }
    ensures reply { IfOk result IsReply }
{
    let own = 4 * INTEGER_SIZE + text_size(user.message.as_ref()) + CLASS_SIZE + user.reply.size();
    let size = FRONT_SIZE + own + request.proxy_states;
    let mut body = grant_body(alloc, user, grant, size)?;
    copy_proxy_states(request, &mut body)?;
    Ok(body)
}

/// The Access-Reject of a denial.
#[tactic(auto, using(crate::proofs::ReplyLemmas::reject_is_reply))]
pub(crate) fn access_reject(
    alloc: Global,
    denial: Denial,
    request: &Request,
) -> Result<Body, AllocError>
    requires { KnowsProxyStates request.now }
    ensures value { IfOk result (λ body. body ≡ access_reject denial request.now.packet) }
    ensures reply { IfOk result IsReply }
{
    let text = denial.text().as_bytes();
    let size = FRONT_SIZE + text.len() + 2 + request.proxy_states;
    let mut body = access_body(alloc, ACCESS_REJECT, size)?;
    body.push(REPLY_MESSAGE, text)?;
    copy_proxy_states(request, &mut body)?;
    Ok(body)
}

/// The Access-Challenge of a user, for the challenge with this number and draw.
pub(crate) fn access_challenge(
    alloc: Global,
    user: &User,
    number: u64,
    draw: &[u8; 16],
    request: &Request,
) -> Result<Body, AllocError>
    requires challenge { IfSome user.now.challenge (λ text. length text ≤ value_max) }
    requires proxy_states { KnowsProxyStates request.now }
    ensures value { IfOk result
        (λ body. body ≡ access_challenge user.now number draw.now request.now.packet) }
    ensures reply { IfOk result IsReply }
{
    let own = text_size(user.challenge.as_ref()) + STATE_SIZE;
    let size = FRONT_SIZE + own + request.proxy_states;
    let mut body = access_body(alloc, ACCESS_CHALLENGE, size)?;
    if let Some(text) = &user.challenge {
        body.push(REPLY_MESSAGE, text.octets())?;
    }
    body.push(STATE, &state_value(number, draw))?;
    copy_proxy_states(request, &mut body)?;
    Ok(body)
}

/// The Accounting-Response.
#[tactic(auto, using(crate::proofs::ReplyLemmas::accounting_is_reply))]
pub(crate) fn accounting_response(alloc: Global, request: &Request) -> Result<Body, AllocError>
    requires { KnowsProxyStates request.now }
    ensures value { IfOk result (λ body. body ≡ accounting_response request.now.packet) }
    ensures reply { IfOk result IsReply }
{
    let mut body = Body::with_capacity(alloc, ACCOUNTING_RESPONSE, request.proxy_states)?;
    copy_proxy_states(request, &mut body)?;
    Ok(body)
}

/// The reply to a Status-Server, by the server's port.
pub(crate) fn status_reply(alloc: Global, door: Door, request: &Request) -> Result<Body, AllocError>
    requires { KnowsProxyStates request.now }
    ensures value { IfOk result (λ body. body ≡ status_reply door request.now.packet) }
    ensures reply { IfOk result IsReply }
{
    match door {
        Door::Auth => status_accept(alloc, request),
        Door::Acct => accounting_response(alloc, request),
    }
}

// The Access-Accept of a Status-Server.
#[tactic(auto, using(crate::proofs::ReplyLemmas::status_is_reply))]
fn status_accept(alloc: Global, request: &Request) -> Result<Body, AllocError>
    requires { KnowsProxyStates request.now }
    ensures value { IfOk result (λ body.
        body ≡ access_reply code_access_accept [] request.now.packet) }
    ensures reply { IfOk result IsReply }
{
    let size = FRONT_SIZE + request.proxy_states;
    let mut body = access_body(alloc, ACCESS_ACCEPT, size)?;
    copy_proxy_states(request, &mut body)?;
    Ok(body)
}

// The front of a reply to an Access-Request, with memory for a reply of this size. Sealing puts in the octets of its
// Message-Authenticator.
fn access_body(alloc: Global, code: u8, size: usize) -> Result<Body, AllocError>
    ensures { IfOk result (λ body. body ≡ access_front code) }
{
    let mut body = Body::with_capacity(alloc, code, size)?;
    body.push(MESSAGE_AUTHENTICATOR, &[0; 16])?;
    Ok(body)
}

// An Access-Accept, but for the Proxy-States, with memory for a reply of this size.
fn grant_body(alloc: Global, user: &User, grant: Grant, size: usize) -> Result<Body, AllocError>
    requires { IfSome user.now.message (λ message. length message ≤ value_max) }
    ensures { IfOk result (λ body. body
        ≡ with_attributes (accept_attributes user.now grant) (access_front code_access_accept)) }
{
    let mut body = access_body(alloc, ACCESS_ACCEPT, size)?;
    push_integer(&mut body, SERVICE_TYPE, user.service)?;
    push_integer(&mut body, FRAMED_PROTOCOL, user.protocol)?;
    push_integer(&mut body, FRAMED_IP_ADDRESS, grant.address)?;
    push_integer(&mut body, SESSION_TIMEOUT, user.timeout)?;
    if let Some(message) = &user.message {
        body.push(REPLY_MESSAGE, message.octets())?;
    }
    body.push(CLASS, &class_value(grant.number))?;
    body.append(&user.reply)?;
    Ok(body)
}

// Appends an integer or an address, if there is one.
fn push_integer(body: &mut Body, kind: u8, number: Option<u32>) -> Result<(), AllocError>
    ensures { OnOk result (body.new ≡
        with_attributes (attribute_if_any kind (option_map four_octets number)) body.old) }
{
    match number {
        None => Ok(()),
        Some(number) => body.push(kind, &number.to_be_bytes()),
    }
}

/// The Class of the session of this number.
pub(crate) fn class_value(number: u64) -> [u8; 12]
    ensures { result ≡ class_value number }
{
    let [a, b, c, d, e, f, g, h] = number.to_be_bytes();
    [b'R', b'A', b'P', b'1', a, b, c, d, e, f, g, h]
}

// The size of the attribute of a text, or 0 if there is none.
fn text_size(text: Option<&Text>) -> usize
    requires { IfSome text (λ text. length text.now ≤ value_max) }
    ensures { result ≤ value_max + 2 }
{
    match text {
        None => 0,
        Some(text) => text.octets().len() + 2,
    }
}

// Appends copies of the request's Proxy-State attributes.
fn copy_proxy_states(request: &Request, body: &mut Body) -> Result<(), AllocError>
    requires { KnowsProxyStates request.now }
    ensures { OnOk result (body.new ≡
        with_attributes (of_kind type_proxy_state request.now.packet.attributes) body.old) }
{
    if request.proxy_states == 0 {
        return Ok(());
    }
    let mut rest = request.packet.attributes();
    while let Some(attribute) = rest.next() {
        if attribute.kind == PROXY_STATE {
            body.push(attribute.kind, attribute.value)?;
        }
    }
    Ok(())
}

//! Replies as `seal8` writes them, and the Response Authenticator.
ghost use Rattle.std.specs.Prelude.{IfSome};
ghost use Rattle.rad_auth.specs.Sealing.{AreJobs, IsJob, IsReply};

use super::{OTHER_START, PROXIED_START, RFC_ACCOUNTING_STATUS, RFC_STATUS, START, new_frame};
use crate::tests::{holds, holds_at};
use rad_auth::{Job, Secret, response_authenticator, seal8};
use rad_packet::attribute::{MESSAGE_AUTHENTICATOR, PROXY_STATE, REPLY_MESSAGE};
use rad_packet::{Body, Frame, HEADER_SIZE, code, write};
use std::alloc::Global;
use std::process::Abort;
use test_common::{OTHER_SECRET, REQUEST_AUTHENTICATOR, RFC_REQUEST, SECRET};

// RFC 2865, section 5.24.
const STATE: u8 = 24;

// RFC 2865, section 5.25.
const CLASS: u8 = 25;

// The accept of RFC 2865, section 7.1.
#[test]
fn an_access_accept_has_the_authenticator_of_the_rfc(rt: HostRuntime) {
    let mut body = Body::new(rt.alloc(), code::ACCESS_ACCEPT);
    body.push(6, b"\0\0\0\x01").expect(&rt, "a service");
    body.push(15, b"\0\0\0\0").expect(&rt, "a login service");
    body.push(14, b"\xc0\xa8\x01\x03")
        .expect(&rt, "a login host");
    let secret = Secret::new(SECRET);
    let digest = response_authenticator(&body, 0, REQUEST_AUTHENTICATOR, &secret);
    let want = b"\x86\xfe\x22\x0e\x76\x24\xba\x2a\x10\x05\xf6\xbf\x9b\x55\xe0\xb2";
    holds(&rt, digest == *want, "the accept");
}

pub(super) fn empty_frames(rt: &impl Abort, alloc: Global) -> [Frame; 8] {
    [
        new_frame(rt, alloc),
        new_frame(rt, alloc),
        new_frame(rt, alloc),
        new_frame(rt, alloc),
        new_frame(rt, alloc),
        new_frame(rt, alloc),
        new_frame(rt, alloc),
        new_frame(rt, alloc),
    ]
}

fn are_written(rt: &impl Abort, frames: &[Frame; 8], wanted: &[&[u8]; 8]) {
    for lane in 0..8 {
        holds_at(rt, frames[lane].octets() == wanted[lane], "lane", lane);
    }
}

// The lane of a reply that says this body to a request under this secret.
pub(super) fn lane<'a>(request: &[u8], body: &'a Body, secret: &'a Secret) -> Option<Job<'a>>
    requires { IsReply body.now }
    ensures { IfSome result IsJob }
{
    let (header, _) = request.split_at_checked(HEADER_SIZE)?;
    Some(Job {
        body,
        id: header[1],
        request_authenticator: *header[4..].first_chunk()?,
        secret,
    })
}

pub(super) const START_REPLY: &[u8; 20] = b"\
    \x05\x07\x00\x14\
    \x17\x1d\xc4\x7b\xc9\x0b\x49\x45\x26\xcf\x68\x25\x3b\xd9\xb4\xa6";

const PROXIED_REPLY: &[u8; 25] = b"\
    \x05\x07\x00\x19\
    \x3d\x72\x46\xde\xa2\xef\xa4\xd3\xb1\x95\xea\x04\x42\x17\xc6\x1d\
    \x21\x05abc";

// The reply of RFC 5997, section 6.2.
const RFC_REPLY: &[u8; 20] = b"\
    \x05\xb3\x00\x14\
    \x0f\x6f\x92\x14\x5f\x10\x7e\x2f\x50\x4e\x86\x0a\x48\x60\x66\x9c";

fn response(rt: &impl Abort, alloc: Global) -> Body
    ensures { IsReply result }
{
    let mut body = Body::new(alloc, code::ACCOUNTING_RESPONSE);
    body.push(PROXY_STATE, b"abc").expect(rt, "a Proxy-State");
    body
}

// Writes what is in a frame before it is sealed, Identifier 1.
fn write_before(rt: &impl Abort, body: &Body, authenticator: &[u8; 16], frame: &mut Frame) {
    write(body, 1, authenticator, frame).expect(rt, "a frame");
}

// Seals replies in the first lane, the sixth and the last, into frames of which the first and the fourth have been
// written before.
fn seal_responses(rt: &impl Abort, alloc: Global, frames: &mut [Frame; 8]) {
    let body = Body::new(alloc, code::ACCOUNTING_RESPONSE);
    let proxied_body = response(rt, alloc);
    write_before(rt, &proxied_body, b"0123456789abcdef", &mut frames[0]);
    write_before(rt, &proxied_body, b"0123456789abcdef", &mut frames[3]);
    let secret = Secret::new(SECRET);
    let jobs = [
        lane(START, &body, &secret),
        None,
        None,
        None,
        None,
        lane(PROXIED_START, &proxied_body, &secret),
        None,
        lane(RFC_ACCOUNTING_STATUS, &body, &secret),
    ];
    seal8(&jobs, frames);
}

const RESPONSES: &[&[u8]; 8] = &[
    START_REPLY,
    b"",
    b"",
    b"\x05\x01\x00\x190123456789abcdef\x21\x05abc",
    b"",
    PROXIED_REPLY,
    b"",
    RFC_REPLY,
];

#[test]
fn accounting_responses_are_sealed_into_the_frames_of_their_lanes(rt: HostRuntime) {
    let mut frames = empty_frames(&rt, rt.alloc());
    seal_responses(&rt, rt.alloc(), &mut frames);
    are_written(&rt, &frames, RESPONSES);
}

// The header of a request of the other client, Identifier 17.
const OTHER_REQUEST: &[u8; 20] = b"\x01\x11\x00\x14authenticator #1";

const CHALLENGE: &[u8; 71] = b"\
    \x0b\x00\x00\x47\
    \xb1\x98\x9f\x8a\x3b\x62\x03\xd0\x51\x72\x02\x6d\x11\xcf\xf6\x86\
    \x50\x12\x6b\x44\x07\x08\x17\x5d\x59\xae\x9e\x54\x04\x2f\xd9\xa6\x02\x87\
    \x12\x07code?\
    \x18\x1a\x00\x00\x00\x00\x00\x00\x00\x010123456789abcdef";

const REJECT: &[u8; 53] = b"\
    \x03\x00\x00\x35\
    \x69\x02\x1d\x8f\x0e\x43\xed\x94\xff\x11\x7b\xb6\xac\xdf\x66\x04\
    \x50\x12\x90\x2a\x49\xa4\xf5\x96\x00\x9c\xb3\xe6\xd8\x69\xe0\x95\x28\xaf\
    \x12\x0faccess denied";

const ACCEPT: &[u8; 52] = b"\
    \x02\x00\x00\x34\
    \x2c\x04\xab\xd4\xa0\x68\x97\x9e\xd4\x4b\xfe\x9a\x28\x5b\x6c\xfb\
    \x50\x12\xae\x5a\x3a\x5e\xa3\x05\x6e\x92\x93\xbe\xe1\x95\xc5\x3b\xb3\x05\
    \x19\x0eRAP1\x00\x00\x00\x00\x00\x00\x00\x01";

const OTHER_ACCEPT: &[u8; 52] = b"\
    \x02\x11\x00\x34\
    \xfd\x69\x04\x68\x78\x29\xf5\x34\xad\xc6\xc0\x94\x4f\x55\x32\xa3\
    \x50\x12\xe8\x76\x72\xf8\x8a\x2f\x0a\x68\xe8\x2e\xf0\xc0\x09\x17\x84\xad\
    \x19\x0eRAP1\x00\x00\x00\x00\x00\x00\x00\x01";

const OTHER_RESPONSE: &[u8; 25] = b"\
    \x05\x08\x00\x19\
    \x86\xe6\x97\x53\xf8\xbc\xc0\xab\x99\x0b\xfa\xc2\x74\x49\x2f\xb0\
    \x21\x05abc";

// A reject that is in a frame before, Identifier 1.
const UNSEALED_REJECT: &[u8; 53] = b"\
    \x03\x01\x00\x35\
    Sixteen octets..\
    \x50\x12\x00\x00\x00\x00\x00\x00\x00\x00\x00\x00\x00\x00\x00\x00\x00\x00\
    \x12\x0faccess denied";

// An accept with these octets in place of the HMAC.
fn bare_accept(rt: &impl Abort, alloc: Global, hmac: &[u8; 16]) -> Body
    ensures { IsReply result }
{
    let mut body = Body::new(alloc, code::ACCESS_ACCEPT);
    body.push(MESSAGE_AUTHENTICATOR, hmac)
        .expect(rt, "a Message-Authenticator");
    body
}

fn accept(rt: &impl Abort, alloc: Global) -> Body
    ensures { IsReply result }
{
    let mut body = Body::new(alloc, code::ACCESS_ACCEPT);
    body.push(MESSAGE_AUTHENTICATOR, &[0; 16])
        .expect(rt, "a Message-Authenticator");
    body.push(CLASS, b"RAP1\0\0\0\0\0\0\0\x01")
        .expect(rt, "a Class");
    body
}

fn reject(rt: &impl Abort, alloc: Global) -> Body
    ensures { IsReply result }
{
    let mut body = Body::new(alloc, code::ACCESS_REJECT);
    body.push(MESSAGE_AUTHENTICATOR, &[0; 16])
        .expect(rt, "a Message-Authenticator");
    body.push(REPLY_MESSAGE, b"access denied")
        .expect(rt, "a Reply-Message");
    body
}

fn challenge(rt: &impl Abort, alloc: Global) -> Body
    ensures { IsReply result }
{
    let mut body = Body::new(alloc, code::ACCESS_CHALLENGE);
    body.push(MESSAGE_AUTHENTICATOR, &[0; 16])
        .expect(rt, "a Message-Authenticator");
    body.push(REPLY_MESSAGE, b"code?")
        .expect(rt, "a Reply-Message");
    body.push(STATE, b"\0\0\0\0\0\0\0\x010123456789abcdef")
        .expect(rt, "a State");
    body
}

// Jobs of each Code, under the one secret or the other. The second lane, the fifth and the seventh have none.
fn mixed_jobs<'a>(
    accept: &'a Body,
    reject: &'a Body,
    challenge: &'a Body,
    response: &'a Body,
    secret: &'a Secret,
    other_secret: &'a Secret,
) -> [Option<Job<'a>>; 8]
    requires accept { IsReply accept.now }
    requires reject { IsReply reject.now }
    requires challenge { IsReply challenge.now }
    requires response { IsReply response.now }
    ensures { AreJobs result }
{
    [
        lane(RFC_REQUEST, challenge, secret),
        None,
        lane(OTHER_START, response, other_secret),
        lane(OTHER_REQUEST, accept, other_secret),
        None,
        lane(RFC_REQUEST, reject, secret),
        None,
        lane(RFC_REQUEST, accept, secret),
    ]
}

// Seals mixed replies into frames of which the second and the third have been written before.
fn seal_mixed(rt: &impl Abort, alloc: Global, frames: &mut [Frame; 8]) {
    let accept = accept(rt, alloc);
    let reject = reject(rt, alloc);
    let challenge = challenge(rt, alloc);
    let response = response(rt, alloc);
    write_before(rt, &reject, b"Sixteen octets..", &mut frames[1]);
    write_before(rt, &reject, b"Sixteen octets..", &mut frames[2]);
    let (secret, other_secret) = (Secret::new(SECRET), Secret::new(OTHER_SECRET));
    let jobs = mixed_jobs(
        &accept,
        &reject,
        &challenge,
        &response,
        &secret,
        &other_secret,
    );
    seal8(&jobs, frames);
}

const MIXED: &[&[u8]; 8] = &[
    CHALLENGE,
    UNSEALED_REJECT,
    OTHER_RESPONSE,
    OTHER_ACCEPT,
    b"",
    REJECT,
    b"",
    ACCEPT,
];

#[test]
fn replies_of_each_code_are_sealed_in_one_call(rt: HostRuntime) {
    let mut frames = empty_frames(&rt, rt.alloc());
    seal_mixed(&rt, rt.alloc(), &mut frames);
    are_written(&rt, &frames, MIXED);
}

// An accept for the Status-Server of RFC 5997, section 6.1, as this server says it, with a Message-Authenticator.
const STATUS_REPLY: &[u8; 38] = b"\
    \x02\xda\x00\x26\
    \x7e\x6d\x7a\x5f\x5d\xfa\x87\xb5\x19\xbe\xf2\x60\xa6\xf1\x50\x81\
    \x50\x12\x57\x56\x6a\x4a\x4a\x4c\x69\x0f\x8e\x18\xb7\x3a\xe7\xa7\xf6\x5f";

// Seals replies to the Status-Server, in the first two lanes.
fn seal_accepts(rt: &impl Abort, alloc: Global, frames: &mut [Frame; 8]) {
    let with_zeros = bare_accept(rt, alloc, &[0; 16]);
    let with_text = bare_accept(rt, alloc, b"Sixteen octets..");
    let secret = Secret::new(SECRET);
    let jobs = [
        lane(RFC_STATUS, &with_zeros, &secret),
        lane(RFC_STATUS, &with_text, &secret),
        None,
        None,
        None,
        None,
        None,
        None,
    ];
    seal8(&jobs, frames);
}

const ACCEPTS: &[&[u8]; 8] = &[STATUS_REPLY, STATUS_REPLY, b"", b"", b"", b"", b"", b""];

#[test]
fn a_message_authenticator_in_the_body_is_overwritten(rt: HostRuntime) {
    let mut frames = empty_frames(&rt, rt.alloc());
    seal_accepts(&rt, rt.alloc(), &mut frames);
    are_written(&rt, &frames, ACCEPTS);
}

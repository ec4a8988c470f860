//! The reply of RFC 2865, section 7.1, the limits of packets that are written, and copies of bodies and octets.
ghost use Rattle.std.specs.Prelude.{◌+◌, ◌≤◌, length};
ghost use Rattle.rad_packet.specs.Attributes.{value_max};

use super::holds;
use rad_packet::{Attribute, Attributes, Body, Frame, Octets, TooLong, attribute, code, write};
use std::alloc::{AllocError, Global};

const REPLY: [u8; 38] = *b"\
    \x02\x00\x00\x26\
    \x86\xfe\x22\x0e\x76\x24\xba\x2a\x10\x05\xf6\xbf\x9b\x55\xe0\xb2\
    \x06\x06\x00\x00\x00\x01\
    \x0f\x06\x00\x00\x00\x00\
    \x0e\x06\xc0\xa8\x01\x03";

const REPLY_AUTHENTICATOR: [u8; 16] =
    *b"\x86\xfe\x22\x0e\x76\x24\xba\x2a\x10\x05\xf6\xbf\x9b\x55\xe0\xb2";

// The body with one attribute more.
fn with(body: Body, kind: u8, value: &[u8]) -> Result<Body, AllocError>
    requires { length value.now ≤ value_max }
{
    let mut body = body;
    body.push(kind, value)?;
    Ok(body)
}

// A body of one attribute.
fn body_of(alloc: Global, code: u8, kind: u8, value: &[u8]) -> Result<Body, AllocError>
    requires { length value.now ≤ value_max }
{
    with(Body::new(alloc, code), kind, value)
}

// The body has this Code and these attributes.
fn says(body: &Body, code: u8, attributes: &[u8]) -> bool {
    body.code() == code && body.size() == attributes.len() && body.attributes_octets() == attributes
}

fn reply(alloc: Global) -> Result<Body, AllocError> {
    with_reply(Body::new(alloc, code::ACCESS_ACCEPT))
}

// The body with the attributes of the reply.
fn with_reply(body: Body) -> Result<Body, AllocError> {
    let body = with(body, 6, &[0, 0, 0, 1])?;
    let body = with(body, 15, &[0, 0, 0, 0])?;
    with(body, 14, &[192, 168, 1, 3])
}

// A new frame has no octets, and these once the body is written.
fn is_written(
    alloc: Global,
    body: &Body,
    identifier: u8,
    authenticator: &[u8; 16],
    spelled: &[u8],
) -> Result<bool, AllocError> {
    let mut frame = Frame::new(alloc)?;
    Ok(
        frame.octets().is_empty()
            && write(body, identifier, authenticator, &mut frame).is_ok()
            && frame.octets() == spelled,
    )
}

fn is_reply_written(alloc: Global) -> Result<bool, AllocError> {
    let reply = reply(alloc)?;
    let is_written = is_written(alloc, &reply, 0, &REPLY_AUTHENTICATOR, &REPLY);
    Ok(is_written == Ok(true) && says(&reply, 2, &REPLY[20..]))
}

#[test]
fn writes_the_reply(rt: HostRuntime) {
    holds(&rt, is_reply_written(rt.alloc()), "the reply");
}

fn is_reply_with_capacity(alloc: Global, size: usize) -> Result<bool, AllocError> {
    let reply = with_reply(Body::with_capacity(alloc, code::ACCESS_ACCEPT, size)?)?;
    Ok(says(&reply, 2, &REPLY[20..]))
}

#[test]
fn any_room_will_do(rt: HostRuntime) {
    holds(&rt, is_reply_with_capacity(rt.alloc(), 18), "its size");
    holds(&rt, is_reply_with_capacity(rt.alloc(), 7), "too little");
    holds(&rt, is_reply_with_capacity(rt.alloc(), 0), "nothing");
}

fn is_empty_written(alloc: Global) -> Result<bool, AllocError> {
    let empty = Body::new(alloc, code::ACCESS_REJECT);
    let spelled = b"\x03\x07\x00\x14sixteen octets..";
    let is_written = is_written(alloc, &empty, 7, b"sixteen octets..", spelled);
    Ok(is_written == Ok(true) && says(&empty, 3, b""))
}

#[test]
fn writes_a_packet_of_no_attribute(rt: HostRuntime) {
    holds(&rt, is_empty_written(rt.alloc()), "no attribute");
}

// A body of 16 attributes, which are 4,064 octets, and this one.
fn long_body(alloc: Global, last: &[u8]) -> Result<Body, AllocError>
    requires { length last.now ≤ value_max }
{
    let mut body = Body::new(alloc, code::ACCESS_CHALLENGE);
    for kind in 100..116 {
        body.push(kind, &[kind; 252])?;
    }
    with(body, 200, last)
}

// A body of this size is written, and the frame then begins so and is of 20 octets more.
fn begins_with(frame: &mut Frame, body: &Body, identifier: u8, size: usize, front: &[u8]) -> bool {
    body.size() == size
        && write(body, identifier, &[9; 16], frame).is_ok()
        && frame.octets().starts_with(front)
        && frame.octets().len() == size + 20
}

// One octet more than fits is refused, and the frame keeps what was there.
fn refuses_over(alloc: Global, identifier: u8, frame: &mut Frame) -> Result<bool, AllocError> {
    let over = long_body(alloc, &[5; 11])?;
    let is_refused = refuses(alloc, identifier, frame, &over);
    Ok(over.size() == 4077 && is_refused == Ok(true))
}

fn refuses(
    alloc: Global,
    identifier: u8,
    frame: &mut Frame,
    over: &Body,
) -> Result<bool, AllocError> {
    let before = frame.octets().to_vec(alloc)?;
    let written = write(over, identifier, &[9; 16], frame);
    Ok(written == Err(TooLong) && frame.octets() == before.as_slice())
}

fn writes_longest(alloc: Global, frame: &mut Frame) -> Result<bool, AllocError> {
    let longest = long_body(alloc, &[5; 10])?;
    Ok(begins_with(frame, &longest, 2, 4076, b"\x0b\x02\x10\x00"))
}

fn writes_short(alloc: Global, frame: &mut Frame) -> Result<bool, AllocError> {
    let short = body_of(alloc, code::ACCESS_CHALLENGE, 79, &[5; 253])?;
    Ok(begins_with(frame, &short, 4, 255, b"\x0b\x04\x01\x13"))
}

fn writes_what_fits(alloc: Global, frame: &mut Frame) -> Result<bool, AllocError> {
    let is_empty = refuses_over(alloc, 1, frame)? && frame.octets().is_empty();
    let is_longest = writes_longest(alloc, frame)? && refuses_over(alloc, 3, frame)?;
    let is_short = writes_short(alloc, frame)? && refuses_over(alloc, 5, frame)?;
    Ok(is_empty && is_longest && is_short)
}

// Into one frame: too long, the longest, too long, a short one, too long.
fn writes_into_a_frame(alloc: Global) -> Result<bool, AllocError> {
    let mut frame = Frame::new(alloc)?;
    writes_what_fits(alloc, &mut frame)
}

#[test]
fn writes_up_to_4096_octets(rt: HostRuntime) {
    holds(
        &rt,
        writes_into_a_frame(rt.alloc()),
        "4096 octets and no more",
    );
}

// A body of so many attributes of 255 octets.
fn body_of_longest(alloc: Global, count: usize) -> Result<Body, AllocError> {
    let mut body = Body::new(alloc, code::ACCESS_CHALLENGE);
    for _ in 0..count {
        body.push(79, &[5; attribute::VALUE_MAX])?;
    }
    Ok(body)
}

// A frame with a packet in it refuses so many attributes of 255 octets and one with a Value of so many, and keeps its octets.
fn is_too_long(
    alloc: Global,
    (count, last, size): (usize, usize, usize),
) -> Result<bool, AllocError> {
    let last = &[6; attribute::VALUE_MAX][..last.min(attribute::VALUE_MAX)];
    let over = with(body_of_longest(alloc, count)?, 200, last)?;
    Ok(over.size() == size && is_refused(alloc, &over) == Ok(true))
}

fn is_refused(alloc: Global, over: &Body) -> Result<bool, AllocError> {
    let mut frame = framed(alloc)?;
    let is_refused = refuses(alloc, 1, &mut frame, over);
    Ok(is_refused == Ok(true) && frame.octets().len() == 25)
}

#[test]
fn refuses_whatever_is_longer(rt: HostRuntime) {
    // How many attributes of 255 octets there are, how long the Value after them is, and the size of all. With the last two, a
    // Length of 16 bits would wrap to 19 and to 21.
    const ROWS: &[(usize, usize, usize)] = &[
        (15, 250, 4077),
        (15, 251, 4078),
        (15, 253, 4080),
        (16, 0, 4082),
        (16, 253, 4335),
        (256, 253, 65_535),
        (257, 0, 65_537),
    ];
    for row in ROWS.iter() {
        holds(&rt, is_too_long(rt.alloc(), *row), "too long");
    }
}

// A refusal with this Reply-Message and then a Proxy-State.
fn message_and_state(alloc: Global, message: &[u8]) -> Result<Body, AllocError>
    requires { length message.now ≤ value_max }
{
    let kind = attribute::REPLY_MESSAGE;
    let body = body_of(alloc, code::ACCESS_REJECT, kind, message)?;
    with(body, attribute::PROXY_STATE, b"abc")
}

// The body, shared from here on.
fn shared(body: Body) -> Result<Body, AllocError> {
    let mut body = body;
    body.share()?;
    Ok(body)
}

// A copy with one attribute more.
fn longer(body: &Body) -> Result<Body, AllocError> {
    with(body.copy()?, attribute::PROXY_STATE, b"")
}

// A copy of the body is the same. With one attribute more it isn't, but is the same as another one, and the body stays as it was.
fn is_left_by_a_push(body: &Body) -> Result<bool, AllocError> {
    let is_same = body.copy()?.same(body);
    let more = longer(body)?;
    let is_longer = is_longer(body, &more);
    Ok(is_same && is_longer == Ok(true) && says(body, 3, b"\x12\x04no\x21\x05abc"))
}

fn is_longer(body: &Body, more: &Body) -> Result<bool, AllocError> {
    let is_other = !more.same(body) && says(more, 3, b"\x12\x04no\x21\x05abc\x21\x02");
    Ok(longer(body)?.same(more) && is_other)
}

// So it is as it is made, shared, and shared twice.
fn is_left_however_shared(alloc: Global) -> Result<bool, AllocError> {
    let body = message_and_state(alloc, b"no")?;
    let is_left = is_left_by_a_push(&body) == Ok(true);
    let body = shared(body)?;
    let is_left_shared = is_left_by_a_push(&body) == Ok(true);
    let body = shared(body)?;
    Ok(is_left && is_left_shared && is_left_by_a_push(&body) == Ok(true))
}

#[test]
fn a_push_on_a_copy_leaves_the_body(rt: HostRuntime) {
    holds(&rt, is_left_however_shared(rt.alloc()), "the body");
}

// The octets, shared from here on.
fn shared_octets(octets: Octets) -> Result<Octets, AllocError> {
    let mut octets = octets;
    octets.share()?;
    Ok(octets)
}

// A copy of the octets is the same, and no other octets are.
fn are_copied(octets: &Octets, other: &Octets) -> Result<bool, AllocError> {
    let copy = octets.copy()?;
    Ok(copy.octets() == b"abc".as_slice() && copy.same(octets) && !copy.same(other))
}

fn are_copied_however_shared(alloc: Global) -> Result<bool, AllocError> {
    let other = Octets::of(alloc, b"abd")?;
    Ok(are_copied_beside(alloc, &other) == Ok(true))
}

fn are_copied_beside(alloc: Global, other: &Octets) -> Result<bool, AllocError> {
    let octets = Octets::new(b"abc".to_vec(alloc)?);
    let are_copied_unshared = are_copied(&octets, other) == Ok(true);
    let octets = shared_octets(octets)?;
    Ok(are_copied_unshared && are_copied(&octets, other) == Ok(true))
}

#[test]
fn copies_of_octets_are_the_same(rt: HostRuntime) {
    holds(&rt, are_copied_however_shared(rt.alloc()), "the octets");
}

fn is_the_same_with_another_code(alloc: Global) -> bool {
    Body::new(alloc, code::ACCESS_ACCEPT).same(&Body::new(alloc, code::ACCESS_REJECT))
}

#[test]
fn another_code_is_another_body(rt: HostRuntime) {
    let is_other = !is_the_same_with_another_code(rt.alloc());
    holds(&rt, Ok(is_other), "another Code");
}

// A frame of 25 octets, where the attribute has the Value abc.
fn framed(alloc: Global) -> Result<Frame, AllocError> {
    let kind = attribute::PROXY_STATE;
    let body = body_of(alloc, code::ACCESS_REJECT, kind, b"abc")?;
    let mut frame = Frame::new(alloc)?;
    let _is_written = write(&body, 1, b"0123456789abcdef", &mut frame);
    Ok(frame)
}

// Overwrites octets of a frame of 25.
fn is_overwritten(frame: &mut Frame, place: usize, octets: &[u8], want: &[u8; 25]) -> bool
    requires { place + length octets.now ≤ 25 }
{
    if frame.octets().len() != 25 {
        return false;
    }
    frame.overwrite(place, octets);
    frame.octets() == want.as_slice()
}

fn are_overwritten(alloc: Global) -> Result<bool, AllocError> {
    let mut frame = framed(alloc)?;
    let value = b"\x03\x01\x00\x190123456789abcdef\x21\x05xyz";
    let code = b"\x02\x01\x00\x190123456789abcdef\x21\x05xyz";
    Ok(
        is_overwritten(&mut frame, 22, b"xyz", value)
            && is_overwritten(&mut frame, 0, b"\x02", code),
    )
}

#[test]
fn octets_of_a_frame_are_overwritten(rt: HostRuntime) {
    holds(&rt, are_overwritten(rt.alloc()), "the value and the Code");
}

fn have_their_octets(mut rest: Attributes) -> bool {
    let both = rest.octets() == b"\x12\x04no\x21\x05abc".as_slice();
    let first = Attribute {
        kind: attribute::REPLY_MESSAGE,
        value: b"no",
    };
    both && rest.next() == Some(first) && rest.octets() == b"\x21\x05abc".as_slice()
}

fn are_left_with_their_octets(alloc: Global) -> Result<bool, AllocError> {
    let body = message_and_state(alloc, b"no")?;
    Ok(have_their_octets(body.attributes()))
}

#[test]
fn attributes_that_are_left_have_their_octets(rt: HostRuntime) {
    holds(&rt, are_left_with_their_octets(rt.alloc()), "what is left");
}

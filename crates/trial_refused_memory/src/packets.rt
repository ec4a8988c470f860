//! Calls of `rad_packet`.

use crate::trial::{Called, Trial, Verdict, are_alike, judge, keep};
use rad_packet::attribute::{REPLY_MESSAGE, USER_NAME};
use rad_packet::code::ACCESS_ACCEPT;
use rad_packet::{Body, Frame, Octets};
use std::alloc::{AllocError, Global};

#[derive(Clone, Copy)]
pub(crate) enum Call {
    WithCapacity,
    Push,
    PushShared,
    PushIntoCapacity,
    Append,
    AppendShared,
    Share,
    Copy,
    CopyShared,
    OctetsOf,
    OctetsShare,
    OctetsCopy,
    FrameNew,
}

const NAME: &[u8] = b"nemo";

/// A Reply-Message for which a body with a name has no room.
const MESSAGE: &[u8] = b"a message of more octets than there are";

pub(crate) fn judge_call(alloc: Global, call: Call) -> Verdict {
    match call {
        Call::OctetsOf | Call::OctetsShare | Call::OctetsCopy => {
            judge(alloc, OctetsTrial::ready(alloc, call))
        }
        Call::FrameNew => judge(alloc, Some(FrameTrial { alloc, given: None })),
        _ => judge(alloc, BodyTrial::ready(alloc, call)),
    }
}

/// A call on a body.
#[derive(Drop)]
struct BodyTrial {
    alloc: Global,
    call: Call,
    body: Body,
    other: Body,
    given: Option<Body>,
}

impl BodyTrial {
    fn ready(alloc: Global, call: Call) -> Option<BodyTrial> {
        let body = body(alloc, call).ok()?;
        let other = body_with_message(alloc).ok()?;
        Some(BodyTrial {
            alloc,
            call,
            body,
            other,
            given: None,
        })
    }
}

fn body(alloc: Global, call: Call) -> Result<Body, AllocError> {
    let mut body = Body::with_capacity(alloc, ACCESS_ACCEPT, size_for(call))?;
    body.push(USER_NAME, NAME)?;
    if let Call::PushShared | Call::AppendShared | Call::CopyShared = call {
        body.share()?;
    }
    Ok(body)
}

fn body_with_message(alloc: Global) -> Result<Body, AllocError> {
    let mut body = Body::new(alloc, ACCESS_ACCEPT);
    body.push(REPLY_MESSAGE, MESSAGE)?;
    Ok(body)
}

fn size_for(call: Call) -> usize {
    match call {
        Call::PushIntoCapacity => 64,
        _ => 6,
    }
}

impl Trial for BodyTrial {
    fn copy(&self) -> Option<BodyTrial> {
        let body = self.body.copy().ok()?;
        let other = self.other.copy().ok()?;
        Some(BodyTrial {
            alloc: self.alloc,
            call: self.call,
            body,
            other,
            given: None,
        })
    }

    fn is_like(&self, other: &BodyTrial) -> bool {
        are_alike(&self.given, &other.given, Body::same) && self.body.same(&other.body)
    }

    fn call(&mut self) -> Called {
        match self.call {
            Call::WithCapacity => {
                let result = Body::with_capacity(self.alloc, ACCESS_ACCEPT, 64);
                keep(&mut self.given, result)
            }
            Call::Append | Call::AppendShared => Called::by(self.body.append(&self.other).is_ok()),
            Call::Share => Called::by(self.body.share().is_ok()),
            Call::Copy | Call::CopyShared => keep(&mut self.given, self.body.copy()),
            _ => Called::by(self.body.push(REPLY_MESSAGE, MESSAGE).is_ok()),
        }
    }
}

/// A call on octets.
#[derive(Drop)]
struct OctetsTrial {
    alloc: Global,
    call: Call,
    octets: Octets,
    given: Option<Octets>,
}

impl OctetsTrial {
    fn ready(alloc: Global, call: Call) -> Option<OctetsTrial> {
        let octets = NAME.to_vec(alloc).ok()?;
        Some(OctetsTrial {
            alloc,
            call,
            octets: Octets::new(octets),
            given: None,
        })
    }
}

impl Trial for OctetsTrial {
    fn copy(&self) -> Option<OctetsTrial> {
        OctetsTrial::ready(self.alloc, self.call)
    }

    fn is_like(&self, other: &OctetsTrial) -> bool {
        are_alike(&self.given, &other.given, Octets::same) && self.octets.same(&other.octets)
    }

    fn call(&mut self) -> Called {
        match self.call {
            Call::OctetsOf => keep(&mut self.given, Octets::of(self.alloc, NAME)),
            Call::OctetsShare => Called::by(self.octets.share().is_ok()),
            _ => keep(&mut self.given, self.octets.copy()),
        }
    }
}

#[derive(Drop)]
struct FrameTrial {
    alloc: Global,
    given: Option<Frame>,
}

impl Trial for FrameTrial {
    fn copy(&self) -> Option<FrameTrial> {
        Some(FrameTrial {
            alloc: self.alloc,
            given: None,
        })
    }

    fn is_like(&self, other: &FrameTrial) -> bool {
        are_alike(&self.given, &other.given, |given, other| {
            given.octets() == other.octets()
        })
    }

    fn call(&mut self) -> Called {
        keep(&mut self.given, Frame::new(self.alloc))
    }
}

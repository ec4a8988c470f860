//! Replies that are the same whatever the server remembers.
ghost use Rattle.std.specs.Prelude.{◌≡◌, ◌≤◌, IfOk, IfSome};
ghost use Rattle.rad_auth.specs.Admission.{KnowsProxyStates};
ghost use Rattle.rad_auth.specs.Sealing.{IsReply};
ghost use Rattle.rad_server.specs.FixedReplies.{fixed_body};

use crate::denial::Denial;
use crate::reply::{access_reject, accounting_response, status_reply};
use rad_auth::{Door, Request};
use rad_packet::Body;
use std::alloc::{AllocError, Global};

/// A reply that doesn't depend on what the server remembers.
#[derive(Clone, Copy)]
pub(crate) enum FixedReply {
    /// To a Status-Server that came to this port.
    Status(Door),
    /// An Access-Reject.
    Denied(Denial),
    /// An Accounting-Response.
    Accounting,
}

impl FixedReply {
    /// Makes its body, in reply to a request.
    pub fn make(self, alloc: Global, request: &Request) -> Result<Body, AllocError>
        requires { KnowsProxyStates request.now }
        ensures value { IfOk result (λ body. body ≡ fixed_body request.now.packet self) }
        ensures sealable { IfOk result IsReply }
    {
        match self {
            FixedReply::Status(door) => status_reply(alloc, door, request),
            FixedReply::Denied(denial) => access_reject(alloc, denial, request),
            FixedReply::Accounting => accounting_response(alloc, request),
        }
    }

    /// Its body, in reply to a request: a copy of the one that was made in advance, or else a new one.
    #[tactic(auto, using(crate::proofs::ReplyLemmas::fixed_is_reply))]
    pub fn body(
        self,
        alloc: Global,
        request: &Request,
        body: Option<&Body>,
    ) -> Result<Body, AllocError>
        requires proxy_states { KnowsProxyStates request.now }
        requires body { IfSome body (λ body. body.now ≡ fixed_body request.now.packet self) }
        ensures value { IfOk result (λ body. body ≡ fixed_body request.now.packet self) }
        ensures sealable { IfOk result IsReply }
    {
        match body {
            Some(body) => body.copy(),
            None => self.make(alloc, request),
        }
    }
}

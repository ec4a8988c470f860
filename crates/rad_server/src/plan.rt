//! What a step does is planned before anything changes: planning only reads.
ghost use Rattle.std.specs.Prelude.{◌≡◌, ℕ, ◌≤◌, ◌<◌, ◌==◌, true, List, length, IfOk, IfSome, None, option_copied};
ghost use Rattle.rad_packet.specs.Codes.{code_status_server};
ghost use Rattle.rad_packet.specs.Packets.{packet_octets};
ghost use Rattle.rad_auth.specs.Admission.{KnowsProxyStates};
ghost use Rattle.rad_auth.specs.Sealing.{IsReply};
ghost use Rattle.rad_config.specs.Configurations.{Configuration};
ghost use Rattle.rad_config.specs.Spans.{moment_max};
ghost use Rattle.rad_server.specs.Decisions.{IsOfUser};
ghost use Rattle.rad_server.specs.FixedReplies.{fixed_body};
ghost use Rattle.rad_server.specs.Plans.{IsDecidedReply, IsNewReply, IsPlanOf, is_new, planned_answer};
ghost use Rattle.rad_server.specs.Prepared.{IsRuled};
ghost use Rattle.rad_server.specs.States.{State};
ghost use Rattle.rad_server.specs.TableStates.{AreUsable, live_state};
ghost use Rattle.rad_server.specs.Steps.{IsSealable, key_of};
ghost use Rattle.rad_server.specs.declared.fixed_reply.FixedReply.TheVariants as FixedReply;

use crate::access::{Decision, decide_for_user, decide_on_answer};
use crate::answer::Answer;
use crate::change::Change;
use crate::denial::Denial;
use crate::fixed_reply::FixedReply;
use crate::prepared::{Prepared, Ruled, Ruling};
use crate::reply::{access_accept, access_challenge, access_reject};
use crate::rule::Rule;
use crate::shares;
use crate::tables::Tables;
use rad_auth::Request;
use rad_packet::{Body, Octets, Packet};
use rad_recent::{Kept, Key};
use std::alloc::{AllocError, Global};

/// A reply by a rule, and what changes with it.
#[derive(Drop)]
pub(crate) struct NewReply<'a> {
    pub body: Body,
    /// The State of the challenge that is answered, if one is.
    pub answered: Option<&'a [u8]>,
    pub change: Change,
}

/// What a step does.
#[derive(Drop)]
pub(crate) enum Plan<'a> {
    /// It sends this, and nothing changes, except that what is no longer live is removed.
    Unchanged(Body),
    /// It sends nothing, since no more replies may be kept, or none of the client's. A reply to a request with the same key goes.
    Busy,
    /// It sends a new reply, and keeps it.
    New(NewReply<'a>, Kept),
}

impl Plan<'_> {
    /// The answer.
    pub fn answer(&self) -> Result<Answer, AllocError>
        ensures { IfOk result (λ answer. answer ≡ planned_answer self.now) }
    {
        match self {
            Plan::Unchanged(body) => Ok(Answer::Send(body.copy()?)),
            Plan::Busy => Ok(Answer::Busy),
            Plan::New(reply, _) => Ok(Answer::Send(reply.body.copy()?)),
        }
    }

    /// Whether it is that of a fresh request.
    pub fn is_fresh(&self) -> bool
        ensures { result ≡ is_new self.now }
    {
        matches!(self, Plan::New(..))
    }
}

/// The plan for a request at a moment. What is kept shares the body, and shares the octets of the request up to Length if they are
/// given; otherwise they are copied. The draw is for the State of a challenge.
pub(crate) fn plan_step<'a>(
    alloc: Global,
    tables: &Tables,
    now: u64,
    prepared: &Prepared<'_, 'a>,
    octets: Option<&Octets>,
    draw: &[u8; 16],
) -> Result<Plan<'a>, AllocError>
    requires moment { now ≤ moment_max }
    requires octets { IfSome octets
        (λ octets. octets.now ≡ packet_octets prepared.now.request.packet) }
    requires usable { AreUsable prepared.now.configuration tables.now }
    ensures planned { IfOk result (IsPlanOf prepared.now.configuration (live_state now tables.now)
        prepared.now.request draw.now) }
    ensures sealable { IfOk result (λ plan. IsSealable (planned_answer plan)) }
{
    let request = prepared.request();
    let ruled = match prepared.ruling() {
        Ruling::Status(body) => return plan_status(alloc, request, body),
        Ruling::Ruled(ruled) => ruled,
    };
    let key = key_of(request);
    if let Some(kept) = tables.replies.look(&key, request.packet.octets(), now) {
        return Ok(Plan::Unchanged(kept.copy()?));
    }
    if shares::lacks_room(
        prepared.config(),
        &tables.replies,
        request.client,
        &key,
        now,
    ) {
        return Ok(Plan::Busy);
    }
    let mut reply = plan_reply(alloc, tables, now, prepared, ruled, draw)?;
    reply.body.share()?;
    let kept = Kept {
        client: Some(request.client),
        key,
        octets: octets_to_keep(alloc, &request.packet, octets)?,
        body: reply.body.copy()?,
        made: now,
    };
    Ok(Plan::New(reply, kept))
}

// The plan for a Status-Server. The body of the reply may have been made in advance.
fn plan_status<'a>(
    alloc: Global,
    request: &Request,
    body: Option<&Body>,
) -> Result<Plan<'a>, AllocError>
    requires proxy_states { KnowsProxyStates request.now }
    requires code { (request.now.packet.code == code_status_server) ≡ true }
    requires body { IfSome body
        (λ body. body.now ≡ fixed_body request.now.packet (FixedReply.Status request.now.door)) }
    ensures planned { (configuration : Configuration) (current : State) (draw : List ℕ)
        → IfOk result (IsPlanOf configuration current request.now draw) }
    ensures sealable { IfOk result (λ plan. IsSealable (planned_answer plan)) }
{
    let mut body = FixedReply::Status(request.door).body(alloc, request, body)?;
    body.share()?;
    Ok(Plan::Unchanged(body))
}

// The octets of a packet: those that are there to share, or else a copy.
fn octets_to_keep(
    alloc: Global,
    packet: &Packet,
    octets: Option<&Octets>,
) -> Result<Octets, AllocError>
    requires { IfSome octets (λ octets. octets.now ≡ packet_octets packet.now) }
    ensures { IfOk result (λ kept. kept ≡ packet_octets packet.now) }
{
    match octets {
        Some(octets) => octets.copy(),
        None => Octets::of(alloc, packet.octets()),
    }
}

/// What a request is recognised by, besides its octets.
pub(crate) fn key_of(request: &Request) -> Key
    ensures { result ≡ key_of request.now }
{
    Key {
        source: request.source,
        port: request.port,
        door: request.door,
        id: request.packet.identifier(),
    }
}

// The reply by a rule.
fn plan_reply<'a>(
    alloc: Global,
    tables: &Tables,
    now: u64,
    prepared: &Prepared<'_, 'a>,
    ruled: Ruled<'_, 'a>,
    draw: &[u8; 16],
) -> Result<NewReply<'a>, AllocError>
    requires moment { now ≤ moment_max }
    requires ruled { IsRuled prepared.now.configuration prepared.now.request ruled }
    requires usable { AreUsable prepared.now.configuration tables.now }
    ensures rule { IfOk result (IsNewReply prepared.now.configuration (live_state now tables.now)
        prepared.now.request draw.now) }
    ensures sealable { IfOk result (λ reply. IsReply reply.body) }
{
    let (config, request) = (prepared.config(), prepared.request());
    let Ruled { rule, body } = ruled;
    match rule {
        Rule::Fixed(fixed, change) => plan_fixed(alloc, request, fixed, change, body),
        Rule::Password(user) => {
            let decision = decide_for_user(config, tables, now, request, user);
            plan_decided(alloc, prepared, None, decision, draw)
        }
        Rule::Answer(answer) => {
            let decision = decide_on_answer(config, tables, now, request, &answer);
            plan_decided(alloc, prepared, Some(answer.state), decision, draw)
        }
    }
}

// A fixed reply, whose body may have been made in advance, and what changes with it.
fn plan_fixed<'a>(
    alloc: Global,
    request: &Request,
    fixed: FixedReply,
    change: Change,
    body: Option<&Body>,
) -> Result<NewReply<'a>, AllocError>
    requires proxy_states { KnowsProxyStates request.now }
    requires body { IfSome body (λ body. body.now ≡ fixed_body request.now.packet fixed) }
    ensures body { IfOk result (λ reply. reply.body ≡ fixed_body request.now.packet fixed) }
    ensures answered { IfOk result (λ reply. option_copied reply.answered ≡ None) }
    ensures change { IfOk result (λ reply. reply.change ≡ change) }
    ensures sealable { IfOk result (λ reply. IsReply reply.body) }
{
    let body = fixed.body(alloc, request, body)?;
    Ok(NewReply {
        body,
        answered: None,
        change,
    })
}

// The reply that carries out a decision on a request, which answers the challenge of this State, if it answers one.
fn plan_decided<'a>(
    alloc: Global,
    prepared: &Prepared<'_, 'a>,
    answered: Option<&'a [u8]>,
    decision: Result<Decision, Denial>,
    draw: &[u8; 16],
) -> Result<NewReply<'a>, AllocError>
    requires within { IfOk decision (IsOfUser prepared.now.configuration) }
    ensures decided { IfOk result (IsDecidedReply prepared.now.configuration prepared.now.request
        draw.now decision) }
    ensures answered { IfOk result
        (λ reply. option_copied reply.answered ≡ option_copied answered.entry) }
    ensures sealable { IfOk result (λ reply. IsReply reply.body) }
{
    let (config, request) = (prepared.config(), prepared.request());
    let (body, change) = match decision {
        Err(denial) => {
            let body = access_reject(alloc, denial, request)?;
            (body, Change::Nothing)
        }
        Ok(Decision::Challenge(user, number)) => {
            let row = config.user_at(user);
            let body = access_challenge(alloc, row, number, draw, request)?;
            (body, Change::Challenge(user))
        }
        Ok(Decision::Session(session)) => {
            let row = config.user_at(session.user);
            let body = access_accept(alloc, row, session.grant, request)?;
            (body, Change::Grant(session))
        }
    };
    Ok(NewReply {
        body,
        answered,
        change,
    })
}

//! Requests that are prepared: what the configuration tells of them is known before the state is looked at. So passwords are
//! compared side by side, and the lock is held for less time. A repeat is prepared too, since only the state tells that it is one.
ghost use Rattle.std.specs.Prelude.{◌≡◌, ◌≤◌, length, map, All, IfSome};
ghost use Rattle.rad_auth.specs.Admission.{HoldsAdmitted, IsAdmitted, IsAnswerable, KnowsProxyStates};
ghost use Rattle.rad_server.specs.Prepared.{IsBodyOf, IsInquiryIn, IsRuling, prepared_in, right_of};

use crate::inquiry::{Inquiry, inquire};
use crate::rule::{Rule, fixed_reply};
use rad_auth::{Discard, Request, admitted_is_answerable, passwords_right8};
use rad_config::Config;
use rad_packet::Body;
use std::alloc::Global;
use std::marker::Model;

/// A request that was admitted with the clients of a configuration, and what that configuration tells of it: the rule by which it
/// is answered, and the body of its reply if that is fixed. Contracts see the request and the configuration.
#[derive(Drop)]
pub struct Prepared<'r, 'a> {
    config: &'r Config,
    request: &'r Request<'a>,
    // None: it is a Status-Server.
    rule: Option<Rule<'a>>,
    // The body of the reply, if it was made in advance.
    body: Option<Body>,
}

impl<'r, 'a> Model for Prepared<'r, 'a> {
    ghost use Rattle.rad_server.specs.Prepared.{IsPrepared, Prepared};

    ghost Value = { Prepared };

    ghost view = { λ prepared. record {
      configuration = prepared.config.now;
      request = prepared.request.now;
    } };

    ghost invariant = { λ prepared.
        IsPrepared prepared.config.now prepared.request.now prepared.rule prepared.body };
}

impl<'r, 'a> Prepared<'r, 'a> {
    /// A request that is prepared alone. This takes no memory.
    pub fn of(config: &'r Config, request: &'r Request<'a>) -> Prepared<'r, 'a>
        requires { IsAdmitted config.now.clients request.now }
        ensures configuration { result.configuration ≡ config.now }
        ensures request { result.request ≡ request.now }
    {
        admitted_is_answerable(config.clients(), request);
        let inquiry = inquire(config, request);
        let is_right = match inquiry.check() {
            Some(check) => check.is_right(),
            None => false,
        };
        Prepared {
            config,
            request,
            rule: inquiry.rule(is_right),
            body: None,
        }
    }

    /// The configuration.
    pub fn config(&self) -> &'r Config
        ensures { result.now ≡ self.now.configuration }
    {
        self.config
    }

    /// The request.
    pub fn request(&self) -> &'r Request<'a>
        ensures value { result.now ≡ self.now.request }
        ensures admitted { IsAdmitted self.now.configuration.clients result.now }
        ensures answerable { IsAnswerable self.now.configuration.clients result.now }
    {
        admitted_is_answerable(self.config.clients(), self.request);
        self.request
    }

    /// What is known of it.
    pub(crate) fn ruling(&self) -> Ruling<'_, 'a>
        ensures { IsRuling self.now.configuration self.now.request result }
    {
        let body = self.body.as_ref();
        match self.rule {
            None => Ruling::Status(body),
            Some(rule) => Ruling::Ruled(Ruled { rule, body }),
        }
    }
}

/// What is known of a request before the state is looked at. The body is that of the reply, if it was made in advance.
#[derive(Clone, Copy)]
pub(crate) enum Ruling<'p, 'a> {
    /// It is a Status-Server.
    Status(Option<&'p Body>),
    Ruled(Ruled<'p, 'a>),
}

/// The rule by which a request is answered, and the body of the reply, if it was made in advance.
#[derive(Clone, Copy)]
pub(crate) struct Ruled<'p, 'a> {
    pub rule: Rule<'a>,
    pub body: Option<&'p Body>,
}

/// Prepares the requests among eight verdicts.
///
/// One pass of digests compares CHAP-Passwords and User-Passwords of one block, unless there are few. The body of a fixed reply is
/// made in advance, except where memory is refused.
pub fn prepare8<'r, 'a>(
    alloc: Global,
    config: &'r Config,
    verdicts: &'r [Option<Result<Request<'a>, Discard>>; 8],
) -> [Option<Prepared<'r, 'a>>; 8]
    requires lanes { length verdicts.now ≡ 8 }
    requires admitted { All (HoldsAdmitted config.now.clients) verdicts.now }
    ensures { result ≡ map (prepared_in config.now) verdicts.now }
{
    let [a, b, c, d, e, f, g, h] = verdicts;
    let inquiries = [
        inquire_in(config, a),
        inquire_in(config, b),
        inquire_in(config, c),
        inquire_in(config, d),
        inquire_in(config, e),
        inquire_in(config, f),
        inquire_in(config, g),
        inquire_in(config, h),
    ];
    let right = passwords_right8(&[
        inquiries[0].check(),
        inquiries[1].check(),
        inquiries[2].check(),
        inquiries[3].check(),
        inquiries[4].check(),
        inquiries[5].check(),
        inquiries[6].check(),
        inquiries[7].check(),
    ]);
    [
        prepared_in(alloc, config, a, inquiries[0], right[0]),
        prepared_in(alloc, config, b, inquiries[1], right[1]),
        prepared_in(alloc, config, c, inquiries[2], right[2]),
        prepared_in(alloc, config, d, inquiries[3], right[3]),
        prepared_in(alloc, config, e, inquiries[4], right[4]),
        prepared_in(alloc, config, f, inquiries[5], right[5]),
        prepared_in(alloc, config, g, inquiries[6], right[6]),
        prepared_in(alloc, config, h, inquiries[7], right[7]),
    ]
}

// What the configuration tells of the request in a lane. A lane without one asks nothing.
fn inquire_in<'r, 'a>(
    config: &'r Config,
    verdict: &'r Option<Result<Request<'a>, Discard>>,
) -> Inquiry<'r, 'a>
    requires { HoldsAdmitted config.now.clients verdict.now }
    ensures { IsInquiryIn config.now verdict.now result }
{
    match verdict {
        Some(Ok(request)) => {
            admitted_is_answerable(config.clients(), request);
            inquire(config, request)
        }
        _ => Inquiry::Known(None),
    }
}

// The request in a lane, if there is one, once its password has been compared.
fn prepared_in<'r, 'a>(
    alloc: Global,
    config: &'r Config,
    verdict: &'r Option<Result<Request<'a>, Discard>>,
    inquiry: Inquiry<'r, 'a>,
    is_right: bool,
) -> Option<Prepared<'r, 'a>>
    requires verdict { HoldsAdmitted config.now.clients verdict.now }
    requires inquiry { IsInquiryIn config.now verdict.now inquiry }
    requires right { is_right ≡ right_of inquiry }
    ensures { result ≡ prepared_in config.now verdict.now }
{
    let Some(Ok(request)) = verdict else {
        return None;
    };
    admitted_is_answerable(config.clients(), request);
    let rule = inquiry.rule(is_right);
    let body = body_in_advance(alloc, request, rule);
    Some(Prepared {
        config,
        request,
        rule,
        body,
    })
}

// The body of the reply, for copies to share, if the reply is fixed and there is memory.
fn body_in_advance(alloc: Global, request: &Request, rule: Option<Rule>) -> Option<Body>
    requires { KnowsProxyStates request.now }
    ensures { IfSome result (IsBodyOf request.now rule.entry) }
{
    let fixed = fixed_reply(request.door, rule)?;
    let mut body = fixed.make(alloc, request).ok()?;
    body.share().ok()?;
    Some(body)
}

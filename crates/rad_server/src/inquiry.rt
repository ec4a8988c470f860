//! What the configuration tells of a request before a password is compared.
ghost use Rattle.std.specs.Prelude.{◌≡◌, ◌<◌, ◌==◌, false, length, option_copied, IfSome};
ghost use Rattle.rad_packet.specs.Codes.{code_status_server};
ghost use Rattle.rad_auth.specs.Admission.{IsAnswerable};
ghost use Rattle.rad_auth.specs.PasswordChecks.{is_right_in};
ghost use Rattle.rad_auth.specs.declared.arrival.Door.TheVariants as Door;
ghost use Rattle.rad_server.specs.Access.{answer_matches};
ghost use Rattle.rad_server.specs.Prepared.{IsInquiry, denied, wanted_of};
ghost use Rattle.rad_server.specs.SentCredentials.{IsSent, sent_password_of};

use crate::access::ChallengeAnswer;
use crate::change::{Change, reported_change};
use crate::credentials::{Credentials, SentPassword};
use crate::denial::Denial;
use crate::fixed_reply::FixedReply;
use crate::rule::Rule;
use rad_auth::{ChapResponse, Door, HiddenPassword, PasswordCheck, Request};
use rad_config::{Config, User};
use rad_packet::code::STATUS_SERVER;

/// Credentials whose password is still to be compared.
#[derive(Clone, Copy)]
pub(crate) struct Login<'r, 'a> {
    /// The place of the user whose name was sent, if there is one.
    pub user: Option<u32>,
    /// The State, if there is one.
    pub state: Option<&'a [u8]>,
    /// What was sent, and what it must be; none if it can't be right.
    pub check: Option<PasswordCheck<'r>>,
}

/// The rule by which a request is answered, or the credentials on which it depends.
#[derive(Clone, Copy)]
pub(crate) enum Inquiry<'r, 'a> {
    /// A Status-Server has no rule.
    Known(Option<Rule<'a>>),
    Login(Login<'r, 'a>),
}

impl<'r, 'a> Inquiry<'r, 'a> {
    ghost use Rattle.std.specs.Prelude.{◌≡◌};
    ghost use Rattle.rad_auth.specs.PasswordChecks.{is_right_in};
    ghost use Rattle.rad_auth.specs.declared.arrival.Request.{Request};
    ghost use Rattle.rad_config.specs.Configurations.{Configuration};
    ghost use Rattle.rad_config.specs.Ranges.{IsConfiguration};
    ghost use Rattle.rad_server.specs.Prepared.{IsInquiry, IsRuleOf, right_of};

    /// The password that is still to be compared, if there is one.
    pub fn check(&self) -> Option<PasswordCheck<'r>>
        ensures { is_right_in result ≡ right_of self.now }
    {
        match self {
            Inquiry::Known(_) => None,
            Inquiry::Login(login) => login.check,
        }
    }

    /// The rule, once it is known whether the password is right.
    pub fn rule(self, is_right: bool) -> Option<Rule<'a>>
        requires { is_right ≡ right_of self }
        ensures { (configuration : Configuration) (request : Request)
            → IsConfiguration configuration → IsInquiry configuration request self.entry
            → IsRuleOf configuration request result }
    {
        match self {
            Inquiry::Known(rule) => rule,
            Inquiry::Login(login) => Some(login.rule(is_right)),
        }
    }
}

impl<'a> Login<'_, 'a> {
    ghost use Rattle.std.specs.Prelude.{◌≡◌};
    ghost use Rattle.rad_auth.specs.PasswordChecks.{is_right_in};
    ghost use Rattle.rad_auth.specs.declared.arrival.Request.{Request};
    ghost use Rattle.rad_config.specs.Configurations.{Configuration};
    ghost use Rattle.rad_config.specs.Ranges.{IsConfiguration};
    ghost use Rattle.rad_server.specs.Prepared.{IsLogin, IsRule};

    // The same.
    fn rule(self, is_right: bool) -> Rule<'a>
        requires { is_right ≡ is_right_in self.check }
        ensures { (configuration : Configuration) (request : Request)
            → IsConfiguration configuration → request.door ≡ Door.Auth
            → IsLogin configuration request self.entry → IsRule configuration request result }
    {
        let Login { user, state, .. } = self;
        if let Some(state) = state {
            return Rule::Answer(ChallengeAnswer {
                state,
                user,
                is_right,
            });
        }
        match user {
            Some(user) if is_right => Rule::Password(user),
            _ => denied(Denial::AccessDenied),
        }
    }
}

// The rule by which access is denied, whatever the server remembers.
fn denied<'a>(denial: Denial) -> Rule<'a>
    ensures { result ≡ denied denial }
{
    Rule::Fixed(FixedReply::Denied(denial), Change::Nothing)
}

/// What a configuration tells of a request.
pub(crate) fn inquire<'r, 'a>(config: &'r Config, request: &'r Request<'a>) -> Inquiry<'r, 'a>
    requires { IsAnswerable config.now.clients request.now }
    ensures { IsInquiry config.now request.now result }
{
    if request.packet.code() == STATUS_SERVER {
        return Inquiry::Known(None);
    }
    match request.door {
        Door::Auth => inquire_login(config, request),
        Door::Acct => {
            let change = reported_change(config, request);
            Inquiry::Known(Some(Rule::Fixed(FixedReply::Accounting, change)))
        }
    }
}

// The same of an Access-Request.
fn inquire_login<'r, 'a>(config: &'r Config, request: &'r Request<'a>) -> Inquiry<'r, 'a>
    requires answerable { IsAnswerable config.now.clients request.now }
    requires code { (request.now.packet.code == code_status_server) ≡ false }
    requires door { request.now.door ≡ Door.Auth }
    ensures { IsInquiry config.now request.now result }
{
    let credentials = match Credentials::of(&request.packet) {
        Ok(credentials) => credentials,
        Err(denial) => return Inquiry::Known(Some(denied(denial))),
    };
    let Credentials {
        name,
        password,
        state,
    } = credentials;
    let user = config.user(name);
    let wanted = wanted_of(config, state.is_some(), user);
    let check = password_check(config, request, &password, wanted);
    Inquiry::Login(Login { user, state, check })
}

// What the password of a user must be: beside a State, the user's answer, which not every user has.
fn wanted_of(config: &Config, is_answer: bool, user: Option<u32>) -> Option<&[u8]>
    requires { IfSome user (λ user. user < length config.now.users) }
    ensures { option_copied result ≡ wanted_of config.now is_answer user }
{
    let User {
        password,
        answer,
        ..
    } = config.user_at(user?);
    if !is_answer {
        return Some(password.octets());
    }
    match answer {
        Some(answer) => Some(answer.octets()),
        None => None,
    }
}

// What was sent, and what it must be, if it can be right.
fn password_check<'r>(
    config: &'r Config,
    request: &'r Request,
    sent: &SentPassword<'r>,
    wanted: Option<&'r [u8]>,
) -> Option<PasswordCheck<'r>>
    requires answerable { IsAnswerable config.now.clients request.now }
    requires sent { IsSent (sent_password_of sent.now) }
    ensures { is_right_in result ≡ answer_matches config.now request.now
        (sent_password_of sent.now) (option_copied wanted.entry) }
{
    let password = wanted?;
    let request_authenticator = request.packet.authenticator();
    Some(match *sent {
        SentPassword::UserPassword(value) => PasswordCheck::UserPassword(HiddenPassword {
            secret: config.clients().secret(request.client),
            request_authenticator,
            value,
            password,
        }),
        SentPassword::ChapPassword(value, challenge) => PasswordCheck::ChapPassword(ChapResponse {
            value,
            password,
            request_authenticator,
            challenge,
        }),
    })
}

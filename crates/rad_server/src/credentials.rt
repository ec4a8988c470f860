//! What an Access-Request asks for access with.
ghost use Rattle.std.specs.Prelude.{IfOk, option_copied};
ghost use Rattle.rad_server.specs.Credentials.{chap_challenge_in, credentials_in, user_password_in, name_in, password_in};
ghost use Rattle.rad_server.specs.Credentials.{chap_password_in, state_in};
ghost use Rattle.rad_server.specs.Decisions.{Gives};
ghost use Rattle.rad_server.specs.SentCredentials.{IsSent, credentials_of, occurrence_of, sent_password_of};

use crate::denial::Denial;
use crate::occurrence::{AccessAttributes, Occurrence};
use rad_auth::{CHAP_VALUE_LEN, value_fits};
use rad_packet::Packet;

/// The least octets of a CHAP-Challenge (RFC 2865, section 5.40).
const CHAP_CHALLENGE_MIN: usize = 5;

/// A password as it was sent.
#[derive(Clone, Copy)]
pub(crate) enum SentPassword<'a> {
    /// The Value of a User-Password.
    UserPassword(&'a [u8]),
    /// The Value of a CHAP-Password, and the CHAP-Challenge if there is one.
    ChapPassword(&'a [u8], Option<&'a [u8]>),
}

/// A name, a password, and the State, if there is one.
#[derive(Clone, Copy)]
pub(crate) struct Credentials<'a> {
    pub name: &'a [u8],
    pub password: SentPassword<'a>,
    pub state: Option<&'a [u8]>,
}

impl<'a> Credentials<'a> {
    /// The credentials in an Access-Request, or why it is denied without a look at them.
    #[tactic(auto, unfolding(crate::specs::Credentials::credentials_in))]
    pub fn of(packet: &Packet<'a>) -> Result<Credentials<'a>, Denial>
        ensures read { Gives credentials_of result (credentials_in packet.now.attributes) }
        ensures sent { IfOk result (λ credentials. IsSent (sent_password_of credentials.password)) }
    {
        let found = AccessAttributes::of(packet.attributes());
        if found.has_eap_message {
            return Err(Denial::EapNotSupported);
        }
        let name = name_in(found.user_name)?;
        let password = password_in(
            found.user_password,
            found.chap_password,
            found.chap_challenge,
        )?;
        let state = state_in(found.state)?;
        Ok(Credentials {
            name,
            password,
            state,
        })
    }
}

fn name_in(user_name: Occurrence<'_>) -> Result<&[u8], Denial>
    ensures { Gives (λ name. name.now) result (name_in (occurrence_of user_name.entry)) }
{
    match user_name {
        Occurrence::Once(value) if !value.is_empty() => Ok(value),
        _ => Err(Denial::MalformedRequest),
    }
}

fn password_in<'a>(
    user_password: Occurrence<'a>,
    chap_password: Occurrence<'a>,
    chap_challenge: Occurrence<'a>,
) -> Result<SentPassword<'a>, Denial>
    ensures read { Gives sent_password_of result
        (password_in (occurrence_of user_password.entry) (occurrence_of chap_password.entry)
        (occurrence_of chap_challenge.entry)) }
    ensures sent { IfOk result (λ password. IsSent (sent_password_of password)) }
{
    match (user_password, chap_password) {
        (Occurrence::Once(value), Occurrence::Absent) => user_password_in(value),
        (Occurrence::Absent, Occurrence::Once(value)) => chap_password_in(value, chap_challenge),
        _ => Err(Denial::MalformedRequest),
    }
}

fn user_password_in(value: &[u8]) -> Result<SentPassword<'_>, Denial>
    ensures read { Gives sent_password_of result (user_password_in value.now) }
    ensures sent { IfOk result (λ password. IsSent (sent_password_of password)) }
{
    if value_fits(value) {
        Ok(SentPassword::UserPassword(value))
    } else {
        Err(Denial::MalformedRequest)
    }
}

#[tactic(auto, unfolding(crate::specs::Credentials::chap_password_in))]
fn chap_password_in<'a>(
    value: &'a [u8],
    chap_challenge: Occurrence<'a>,
) -> Result<SentPassword<'a>, Denial>
    ensures read { Gives sent_password_of result
        (chap_password_in value.now (occurrence_of chap_challenge.entry)) }
    ensures sent { IfOk result (λ password. IsSent (sent_password_of password)) }
{
    if value.len() != CHAP_VALUE_LEN {
        return Err(Denial::MalformedRequest);
    }
    let challenge = chap_challenge_in(chap_challenge)?;
    Ok(SentPassword::ChapPassword(value, challenge))
}

fn chap_challenge_in(chap_challenge: Occurrence<'_>) -> Result<Option<&[u8]>, Denial>
    ensures { Gives option_copied result (chap_challenge_in (occurrence_of chap_challenge.entry)) }
{
    match chap_challenge {
        Occurrence::Absent => Ok(None),
        Occurrence::Once(value) if value.len() >= CHAP_CHALLENGE_MIN => Ok(Some(value)),
        _ => Err(Denial::MalformedRequest),
    }
}

fn state_in(state: Occurrence<'_>) -> Result<Option<&[u8]>, Denial>
    ensures { Gives option_copied result (state_in (occurrence_of state.entry)) }
{
    match state {
        Occurrence::Absent => Ok(None),
        Occurrence::Once(value) => Ok(Some(value)),
        Occurrence::Repeated => Err(Denial::MalformedRequest),
    }
}

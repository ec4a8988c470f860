//! Why access is denied.
ghost use Rattle.std.specs.Prelude.{◌≡◌, Contains};
ghost use Rattle.rad_server.specs.Denials.{denial_of, denial_text};
ghost use Rattle.rad_server.specs.declared.denial.Denial.{Denial};

use rad_pool::Refusal;

/// Why access is denied: the first reason that applies.
#[derive(Clone, Copy, Debug, PartialEq, Eq)]
pub enum Denial {
    /// The request has an EAP-Message.
    EapNotSupported,
    /// The name or the password is missing; one of these, the State or, with a CHAP-Password, the CHAP-Challenge occurs too often;
    /// or the name, the password or that CHAP-Challenge has a wrong length.
    MalformedRequest,
    /// The State is of no challenge that waits for an answer from this client.
    StateUnknown,
    /// The State is of a challenge for another user.
    WrongState,
    /// No user has the name, or the password is wrong.
    AccessDenied,
    /// The user has as many sessions, or as many challenges that wait, as the configuration allows.
    SessionLimit,
    /// Each address of the user's pool belongs to a session.
    NoAddressLeft,
    /// There are as many sessions or challenges as there may be, or as many challenges of the client; or no number is left.
    ServerFull,
}

impl Denial {
    const ALL: &'static [Denial] = &[
        Denial::EapNotSupported,
        Denial::MalformedRequest,
        Denial::StateUnknown,
        Denial::WrongState,
        Denial::AccessDenied,
        Denial::SessionLimit,
        Denial::NoAddressLeft,
        Denial::ServerFull,
    ];

    /// How many denials there are.
    pub const COUNT: usize = Denial::ALL.len();

    /// Every denial, once.
    pub fn all() -> &'static [Denial]
        ensures { (denial : Denial) → Contains result.now denial }
    {
        Denial::ALL
    }

    /// The text that is sent as the Reply-Message.
    pub fn text(self) -> &'static str
        ensures { result.now ≡ denial_text self }
    {
        match self {
            Denial::EapNotSupported => "eap not supported",
            Denial::MalformedRequest => "malformed request",
            Denial::StateUnknown => "state unknown",
            Denial::WrongState => "wrong state",
            Denial::AccessDenied => "access denied",
            Denial::SessionLimit => "session limit",
            Denial::NoAddressLeft => "no address left",
            Denial::ServerFull => "server full",
        }
    }
}

// A refusal says why there is no new session, and a denial what the Access-Reject says.
impl From<Refusal> for Denial {
    ghost from_gives = { λ refusal denial. denial ≡ denial_of refusal };

    fn from(refusal: Refusal) -> Denial {
        match refusal {
            Refusal::SessionLimit => Denial::SessionLimit,
            Refusal::NoAddress => Denial::NoAddressLeft,
            Refusal::Full | Refusal::NoMemory => Denial::ServerFull,
        }
    }
}

//! Why a datagram is silently discarded.
ghost use Rattle.std.specs.Prelude.{◌≡◌, ◌+◌};
ghost use Rattle.rad_auth.specs.Discards.{AreAllDiscards, discard_number, discard_name, discard_of_fault};

use rad_packet::ReadFault;
use thiserror::Error;

/// Why a datagram is silently discarded, in the order in which the checks are made.
///
/// Source: RFC 2865, section 3; RFC 2866, sections 3 and 5.1; RFC 3579, section 3; RFC 5997, section 3.
#[derive(Clone, Copy, Debug, PartialEq, Eq, Error)]
pub enum Discard {
    #[error("the source address is no client's")]
    UnknownClient,
    #[error("fewer than 20 octets")]
    Short,
    #[error("a Length below 20 or above 4096")]
    BadLength,
    #[error("a Length beyond the end of the datagram")]
    Truncated,
    #[error("malformed attributes")]
    BadAttributes,
    #[error("a Code that this port does not accept")]
    WrongCode,
    #[error("a wrong Request Authenticator")]
    BadAuthenticator,
    #[error("a wrong Message-Authenticator, or more than one")]
    BadMessageAuthenticator,
    #[error("a missing Message-Authenticator")]
    NoMessageAuthenticator,
    #[error("no Acct-Status-Type of 4 octets")]
    NoStatusType,
    #[error("Proxy-State attributes of more than 3584 octets")]
    ProxyStateTooLong,
}

impl Discard {
    const ALL: &'static [Discard] = &[
        Discard::UnknownClient,
        Discard::Short,
        Discard::BadLength,
        Discard::Truncated,
        Discard::BadAttributes,
        Discard::WrongCode,
        Discard::BadAuthenticator,
        Discard::BadMessageAuthenticator,
        Discard::NoMessageAuthenticator,
        Discard::NoStatusType,
        Discard::ProxyStateTooLong,
    ];

    /// How many discards there are.
    pub const COUNT: usize = Discard::ALL.len();

    /// Every discard, once, in the order of the numbers.
    pub fn all() -> &'static [Discard]
        ensures { AreAllDiscards result.now }
    {
        Discard::ALL
    }

    /// The discard's place in `all`.
    pub fn place(self) -> usize
        ensures { result + 1 ≡ discard_number self }
    {
        self as usize
    }

    /// The discard's number and name, as they are printed.
    pub fn label(self) -> (u8, &'static str)
        ensures number { result.0 ≡ discard_number self }
        ensures name { result.1.now ≡ discard_name self }
    {
        let name = match self {
            Discard::UnknownClient => "UnknownClient",
            Discard::Short => "Short",
            Discard::BadLength => "BadLength",
            Discard::Truncated => "Truncated",
            Discard::BadAttributes => "BadAttributes",
            Discard::WrongCode => "WrongCode",
            Discard::BadAuthenticator => "BadAuthenticator",
            Discard::BadMessageAuthenticator => "BadMessageAuthenticator",
            Discard::NoMessageAuthenticator => "NoMessageAuthenticator",
            Discard::NoStatusType => "NoStatusType",
            Discard::ProxyStateTooLong => "ProxyStateTooLong",
        };
        (self as u8 + 1, name)
    }
}

impl From<ReadFault> for Discard {
    ghost from_gives = { λ fault discard. discard ≡ discard_of_fault fault };

    fn from(fault: ReadFault) -> Discard {
        match fault {
            ReadFault::Short => Discard::Short,
            ReadFault::BadLength => Discard::BadLength,
            ReadFault::Truncated => Discard::Truncated,
            ReadFault::BadAttributes => Discard::BadAttributes,
        }
    }
}

//! Admission of datagrams, checks of passwords, and sealing of replies, under shared secrets (RFC 2865, sections 2.2, 3,
//! 5.2 and 5.3; RFC 1994, section 4.1; RFC 2866, section 3; RFC 3579, section 3.2; RFC 5997, section 3).
//!
//! `check8` returns for each of eight arrivals the request of a client, or a discard; `seal8` writes eight replies with their
//! Message-Authenticators and Response Authenticators. What is digested is laid out as borrowed slices, and one pass over
//! eight lanes computes all digests, another all HMACs. `password_right` says whether a password is the one that a value
//! hides, and one pass opens two blocks or more; `chap_right` says whether it gives the response that was sent, and
//! `passwords_right8` tells of eight passwords of either kind. Only `Clients::add` takes memory.
//!
//! Others rest on this: each lane of `check8` is the verdict of `specs/Admission.antt`, each frame of `seal8` has the
//! octets of `specs/Sealing.antt`, and a password is right by `specs/Passwords.antt` or `specs/Chap.antt`.
#![tactic(auto)]

mod admit;
mod arrival;
mod authenticators;
mod candidate;
mod chap;
mod client;
mod discard;
mod job;
mod network;
mod password;
mod password_check;
mod password_lanes;
mod reply_authenticators;
mod request_authenticators;
mod same_octets;
mod seal;
mod secret;
mod summary;

pub use admit::{PROXY_STATES_MAX, admitted_are_answerable, admitted_is_answerable, check8};
pub use arrival::{Arrival, Door, Request};
pub use chap::{CHAP_VALUE_LEN, chap_response, chap_right};
pub use client::{CLIENTS_MAX, ClientFault, Clients};
pub use discard::Discard;
pub use job::Job;
pub use network::{Network, PREFIX_MAX, network_fits};
pub use password::{PASSWORD_MAX, hide, password_right, reveal, value_fits};
pub use password_check::{ChapResponse, HiddenPassword, PasswordCheck};
pub use password_lanes::passwords_right8;
pub use seal::{response_authenticator, seal8, sign_request};
pub use secret::{SECRET_MAX, Secret};

//! What was answered recently: the replies that repeated requests get again, and the challenges that wait for an answer (RFC 2865,
//! sections 3 and 4.4; RFC 5080, section 2.2.2).
//!
//! `Recent` and `Challenges` are two bounded tables of one shape: `expire` removes the rows that are no longer live, questions
//! change nothing, and `room` makes memory ready, so that memory isn't refused when the row is added. They use `rad_packet`,
//! `rad_auth`, `rad_config`, `rad_row_fault` and `rad_rows`.
//!
//! Both stand on `rad_rows`, which finds a row by its number. The number of a challenge is in its State. That of a kept reply is
//! in an index by key, which `expire` tells of each row that goes.
//!
//! Other crates rest on this: each call does to a list, oldest first, what `specs/Recent.antt`, `specs/Challenges.antt` and
//! `specs/Restored.antt` say, and `lawful_replies` and `lawful_challenges` say what these calls keep true of a lawful table
//! (`specs/Lawful.antt`).
#![tactic(auto)]

mod answers;
mod challenge;
mod challenges;
mod clients;
mod index;
mod indexed;
mod kept;
mod key;
mod lawful;
mod notes;
mod numbered;
mod others;
mod recent;
mod restore;

pub use challenge::{Challenge, Party, state_value};
pub use challenges::{CHALLENGES_MAX, ChallengeRows, Challenges, IssueFault};
pub use kept::Kept;
pub use key::Key;
pub use lawful::{lawful_challenges, lawful_replies};
pub use rad_row_fault::RowFault;
pub use recent::{KEPT_MAX, KeepFault, KeptRows, Recent};

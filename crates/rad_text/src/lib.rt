//! Texts as configurations and transcripts spell them: decimal numbers, addresses, lines, and parts between separators.
//!
//! A text is a list of octets. Nothing here takes memory: a part is borrowed from its text.
//!
//! Others rest on this: `number` and `address` return what `specs/Decimals.antt` says of a text, `split_once` what
//! `specs/Splits.antt` does, and `divide` and `DatagramLines` what `specs/Lines.antt` does.
#![tactic(auto)]

pub mod decimal;
pub mod lines;
pub mod split;

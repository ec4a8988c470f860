//! What no contract says: near names, printed texts, and where a text is at fault.

mod details;
mod names;
mod users;
mod warnings;

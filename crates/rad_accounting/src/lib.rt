//! What is recorded of an Accounting-Request, and of a session that is granted, as the row of a table.
//!
//! `fill` makes the row of an Accounting-Request: when and from whom it came, which session it names, and its attributes in
//! columns. `fill_grant` makes that of an Access-Request that is granted a session.
//!
//! Other crates rest on this: each column is that of the first attribute of its Type, of numbers the first of four octets, or NULL.
#![tactic(auto)]

mod firsts;
mod kinds;
mod occasion;
mod record_row;

pub use occasion::Occasion;
pub use record_row::{fill, fill_grant};

//! Tests of `rad_auth` by its public calls: admission and sealing, against octets that were made elsewhere.
//! They stand in a crate of their own so that its functions aren't proved again with them.
#![tactic(auto)]

#[cfg(test)]
mod tests;

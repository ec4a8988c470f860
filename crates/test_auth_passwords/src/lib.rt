//! Tests of the passwords of `rad_auth` by its public calls: hidden User-Passwords and CHAP, against values that were made
//! elsewhere. They are a crate of their own beside `test_auth`, so that neither takes long to prove.
#![tactic(auto)]

#[cfg(test)]
mod tests;

//! Tests of `rad_snapshot`, by its public calls alone. They are a crate of their own, so that proving them doesn't prove the
//! library once more.
#![tactic(auto)]

#[cfg(test)]
mod tests;

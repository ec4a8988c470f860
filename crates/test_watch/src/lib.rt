//! Tests of `rad_watch`.
#![tactic(auto)]

#[cfg(test)]
mod tests;

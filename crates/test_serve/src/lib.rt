//! Tests of `rad_serve`, by its public calls alone, over sockets of 127.0.0.1. They are a crate of their own, so that proving them
//! doesn't prove the library once more.
#![tactic(auto)]

#[cfg(test)]
mod tests;

//! Tests of `rad_config` by its public calls: texts that are read, texts at fault, and what the readers give.
//! They stand in a crate of their own so that its functions aren't proved again with them.
#![tactic(auto)]

#[cfg(test)]
mod tests;

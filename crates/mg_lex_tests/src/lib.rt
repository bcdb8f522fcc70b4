//! Tests of `mg_lex`, and of the heads of `mg_layout`, through their public calls.
//!
//! They stand in a crate of their own, as integration tests do: a crate that holds tests is proved once
//! as a library and once more as the program that runs them.
#![tactic(auto)]

#[cfg(test)]
mod heads;
#[cfg(test)]
mod tests;

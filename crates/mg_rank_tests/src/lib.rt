//! Tests of `mg_rank` and of the arithmetic that it stands on, `mg_fixed`, through their public calls.
//!
//! They stand in a crate of their own, as integration tests do: a crate that holds tests is proved once
//! as a library and once more as the program that runs them.
#![tactic(auto)]

#[cfg(test)]
mod arithmetic;
#[cfg(test)]
mod tests;

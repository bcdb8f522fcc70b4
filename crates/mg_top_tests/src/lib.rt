//! Tests of `mg_top` and of the texts that its trial makes, `mg_gen`, through their public calls.
//!
//! They stand in a crate of their own, as integration tests do: a crate that holds tests is proved once
//! as a library and once more as the program that runs them.
#![tactic(auto)]

#[cfg(test)]
mod generated_tests;
#[cfg(test)]
mod tests;
#[cfg(test)]
mod trial_tests;

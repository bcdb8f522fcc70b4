//! Tests of the calls that make sets of files and print them: `mg_build`, `mg_decode` and `mg_migrate`, through their public
//! calls.
//!
//! They stand in a crate of their own, as integration tests do: a crate that holds tests is proved once
//! as a library and once more as the program that runs them.
#![tactic(auto)]

#[cfg(test)]
mod building_tests;
#[cfg(test)]
mod migrating_tests;
#[cfg(test)]
mod other_store;

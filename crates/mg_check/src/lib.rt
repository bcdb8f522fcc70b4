//! Whether a set of files stands for a collection.
//!
//! Nothing is trusted: `mg_check_text` reads the text, and finds the one collection that the set can stand for. What the
//! text tells of terms is read here, and `mg_check_index` compares every other part with it.
#![tactic(auto)]

mod checking;
mod counting;
mod found;
mod index;
mod postings;

pub use found::{Found, check};

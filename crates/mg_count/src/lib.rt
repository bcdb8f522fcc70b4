//! The first pass over the bytes of a collection: what is met in them, its counts, and the plan by which a set
//! of files is written.
//!
//! A [`Scanner`] takes the bytes and tells with each what is met: the start of a document, a piece, its end. A
//! [`Count`] feeds one, and counts the pieces of both streams and the pairs of each document. At the end it
//! makes the [`Plan`], and the [`Room`] in which the second pass counts.
//!
//! What is unusual: nothing is written here, and nothing of the collection is kept but its distinct pieces. All
//! memory of the second pass is reserved here, so that a want of it is met before the first write. The second
//! pass takes a scanner of this crate too, and so meets in the same bytes what was counted.
#![tactic(auto)]

mod count;
mod counts;
mod doc_counts;
mod met;
mod pairs;
mod plan;
mod scanner;
mod whole;

pub use count::Count;
pub use doc_counts::DocCounts;
pub use met::Met;
pub use plan::{Entries, Plan, Room, plan_of_counts};
pub use scanner::Scanner;

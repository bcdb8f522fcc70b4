//! Two sets of files made into one, without their collections.
//!
//! A merge is a build whose bytes come from two texts. Each document of the first set is decoded, and then each one of the
//! second; what is made of the bytes is mg_make's. Both texts are read twice. First their pieces are counted by their
//! symbols, and nothing is written before that is done. Where such a count does not come to its end, the bytes are counted
//! in its place, so that it is told why. A document that no byte closes is closed, unless it is the last one of the second
//! set. Nothing that the files hold is trusted: the second pass compares what it meets with the plan.
//!
//! How the two collections are one is `Join` of mg_defs, and its laws are those of mg_laws.
#![tactic(auto)]

mod counting;
mod documents;
mod dropping;
mod heads;
mod merging;
mod retelling;
mod texts;
mod writing;

pub use merging::merge;

//! The first documents of a ranked answer, from inverted lists.
//!
//! What is unusual: lists are added one after the other into sums that stand in the order of their
//! first additions, so that a posting costs one look-up and no table of all documents is kept. The
//! sums of a single list need none: its documents rise, and each goes behind the last in a row. The
//! map of more lists hashes a document to its own number, so a list goes through it from front to
//! back. A heap keeps the best rows while sums become scores. The answer is promised as the defined
//! order of all documents with one of the terms, cut; and the pages that are read of the lists are
//! bounded.
#![tactic(auto)]

mod best;
mod document_hasher;
mod list;
mod ranking;
mod rows;
mod sums;
mod weight;

pub use ranking::{RankRows, Ranked, Row, rank};

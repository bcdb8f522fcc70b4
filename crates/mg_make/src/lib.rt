//! A set of files from the bytes of a collection, given twice: first they are counted, then they are
//! written.
//!
//! What comes here is bytes, whatever they come from: the pages of the collection's own file for a build,
//! two texts for a merge. Nothing here reads a collection.
//!
//! The first pass is mg_count's, and its [`Count`], [`Plan`] and [`Room`] are handed on from there. Here stand
//! the second pass and what follows it: a [`SetWriter`] writes text and runs as the bytes come, has mg_index
//! write the lists, the lexicon and the weights from the merged runs, and appends the head last.
#![tactic(auto)]

mod index;
mod inverter;
mod mark_writer;
mod plan_pieces;
mod second;
mod set_parts;
mod summary;
mod writer;

pub use mg_count::{Count, Plan, Room};
pub use summary::Summary;
pub use writer::{SetWriter, empty_heads_stand_for_none, heads_make_sets};

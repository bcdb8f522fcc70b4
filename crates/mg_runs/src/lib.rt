//! Inversion in a pool of fixed size: occurrences of terms go into the pool, a full pool goes to a
//! file as a run of sorted postings, and the runs are merged from the file.
//!
//! What stands in memory doesn't grow with the collection. The pool is reserved once and serves
//! twice: while occurrences come in it takes 12 bytes for each of them, and while runs are merged
//! it holds a slot of 64 bytes of each run in use. Beside it stand only buffers of 4,096 bytes with
//! coded bits, a cursor with one posting for each run in use, and 8 bytes a run for its place. While
//! a run is sorted, there are 4 bytes a term besides, if the run has as many occurrences as there are
//! terms, and if there is memory for them.
//! (Managing Gigabytes, chapter 5.)
#![tactic(auto)]

mod counting;
mod cursor;
mod decode;
mod entry;
mod group;
mod groups;
mod join;
mod laws;
mod merge;
mod pool;
mod posting;
mod round;
mod run;
mod runs;
mod slot;
mod tournament;
mod walk;

pub use laws::runs_stay;
pub use merge::Merge;
pub use pool::Pool;
pub use runs::{Runs, spill};

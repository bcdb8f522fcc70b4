//! The parts of a set that tell of terms, compared with what is made anew.
//!
//! Nothing here reads the text. Of each document its terms are told, and the weights and the runs are compared as they
//! come. A run is written anew into a store that compares, a page at a time, so it is not held. Of each range of terms the
//! lists are told. They are written anew into such a store too, some at a time, and so is the lexicon of their terms.
#![tactic(auto)]

mod comparing_store;
mod comparison;
mod ends;
mod indexed;
mod lexicon;
mod list_written;
mod lists;
mod lists_of_range;
mod new_lists;
mod packed_postings;
mod pair_lexicon;
mod pair_lists;
mod pair_store;
mod range_lists;
mod ranges;
mod run_part;
mod run_written;
mod some_lists;
mod tally;
mod weights;
mod written_part;

pub use ends::expect_ends;
pub use indexed::Indexed;
pub use lexicon::Lexicon;
pub use lists::{Compared, Places, SKIP_ENTRY_BYTES};
pub use lists_of_range::check_lists;
pub use range_lists::RangeLists;
pub use ranges::{are_sizes, range_end};
pub use tally::Tally;

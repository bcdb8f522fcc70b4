//! The inverted lists, the lexicon and the weights of a set of files, from sorted postings.
//!
//! [`write_lists`] takes the postings that a merge of runs has left, by term and then by document. It writes the
//! list of each term, and what the lexicon tells of it, and adds what each posting weighs to the sum of its
//! document. [`write_weights_part`] writes the roots of these sums, and empties the working parts.
//!
//! What is unusual: a store that tells nothing may give back any bytes. So each posting is tested, and a stray
//! one is refused as damage of the runs. Over runs that are those that were written no test fails. Which
//! collection it is of the caller tells: here stand its terms, and how many documents have each.
#![tactic(auto)]

mod lists;
mod merge_parts;
mod one_list;
mod weights;

pub use lists::{Sizes, Terms, write_lists};
pub use weights::write_weights_part;

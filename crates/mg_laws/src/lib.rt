//! Laws over the definitions of mg_defs that only the crates of a whole set of files need: what a
//! build owes, the pages of a query line, and patterns, phrases and joins.
//!
//! They stand apart from mg_defs so that the crates of the single parts are proved without them. As
//! there, a function has an empty body and states laws as a contract.
#![tactic(auto)]

mod bounds;
mod counts;
mod existence;
mod heads;
mod inversion;
mod joins;
mod lines;
mod lists;
mod marks;
mod patterns;
mod phrases;
mod sizes;

pub use bounds::bounds_in_words;
pub use counts::{documents_are_counted, lists_are_short, occurrences_in_range};
pub use existence::collections_have_parts;
pub use heads::cut_heads;
pub use inversion::{postings_are_lists, squares_fit, squares_weigh};
pub use joins::{documents_of_both, lists_of_both, pieces_of_both};
pub use lines::plain_is_heard;
pub use lists::lists_are_whole;
pub use marks::{limits_of_marks, marks_add_up, marks_have_all, one_first_mark};
pub use patterns::{
    cuts_are_rotations, cuts_stand_together, matches_are_cuts, matches_are_in_lists,
    matches_decides, one_pattern,
};
pub use phrases::{
    candidates_are_enough, one_pass_counts, one_phrase, phrase_is, places_of_one_word,
};
pub use sizes::{few_of_each, parts_are_small, runs_in_one_form, weights_fit};

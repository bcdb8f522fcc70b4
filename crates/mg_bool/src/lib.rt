//! The documents that satisfy a Boolean query, from inverted lists.
//!
//! A query is evaluated document by document over a cursor for each place of a term. Where it holds
//! only in documents of one of its terms, as a conjunction does, the list with the fewest documents
//! leads, and of the other lists only the blocks are read whose range holds one of its documents.
//! So a rare term beside a common one costs a few pages of Post. Where no list leads, but the query
//! holds in no document without its terms, as a disjunction does, only the documents that some list
//! has are asked.
//!
//! The evaluation is that of Witten, Moffat and Bell, *Managing Gigabytes*, chapter 4.
#![tactic(auto)]

mod any;
mod laws;
mod lead;
mod matches;
mod next;
mod place;
mod places;
mod walk;
mod word;

pub use laws::{
    all_are_to_come, matches_read_each_page_once, matches_still_fit, query_bound_is_the_lesser,
    skips_are_within,
};
pub use matches::Matches;

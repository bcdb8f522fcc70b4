//! Phrases: the words of a line in order, and how often they stand one after the other in a document.
//!
//! A document is searched in one pass over its words. What goes from word to word is a flag for each
//! word of the phrase, which says whether the phrase up to there ends with the document's last word.
//! Several may be set, so places that overlap are all counted. A word is told by a mark, a small number
//! that says which term of the phrase it is: the words of a coded document are symbols, and each is
//! folded and compared at its first meeting alone.
//!
//! Documents that have a phrase are found by its words first, as the documents that have all of
//! them; see Witten, Moffat and Bell, *Managing Gigabytes*, chapter 4.
#![tactic(auto)]

mod count;
mod marks;
mod places;

pub use count::PhraseCount;
pub use marks::Marks;
pub use mg_query::{QueryErr, Terms, parse_phrase};

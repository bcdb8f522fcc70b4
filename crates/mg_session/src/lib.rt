//! A query session over built files.
//!
//! A session answers each line from the parts of a set: a term is looked up in the lexicon, its list
//! gives the documents, and a document is decoded only where its text is shown. Nothing that the
//! files hold is trusted, and no file is written. Where they stand for a collection the output is
//! the session that a scan of its documents prints, and the pages that are read are bounded for
//! each line.
//!
//! Boolean and ranked queries and patterns are those of Witten, Moffat and Bell, *Managing Gigabytes*,
//! chapter 4.
#![tactic(auto)]

mod boolean_answer;
mod document_set;
mod documents;
mod hit;
mod laws;
mod lexicon_terms;
mod lists;
mod lookup;
mod marked;
mod phrase;
mod phrase_answer;
mod phrase_searcher;
mod ranked_answer;
mod rows;
mod searched;
mod searcher;
mod serving;
mod session;
mod texts;
mod total;
mod wild;
mod wild_answer;
mod wild_searcher;
mod word_texts;

pub use laws::{pattern_lines_allow, phrase_lines_allow, query_lines_allow};
pub use phrase::serve_phrase;
pub use session::serve;
pub use wild::serve_wild;

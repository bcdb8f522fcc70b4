//! The lexicon: what stands of each term, by its string.
//!
//! It keeps the terms of a collection in the order of their bytes, front-coded, each with a field
//! that tells how many documents have the term and where its inverted list stands. A term's number
//! is that of its entry, so the field does not tell it.
//!
//! A [`Lex`] trusts none of the bytes that it reads: over damaged parts a look-up ends and answers
//! that they are bad, or some [`mg_layout::TermInfo`], and whoever follows one checks what it finds.
//! See Witten, Moffat and Bell, *Managing Gigabytes*, chapter 4.
#![tactic(auto)]

mod laws;
mod lex;
mod lex_writer;

pub use laws::{fields_tell, lexicon_has_its_terms, terms_stay};
pub use lex::Lex;
pub use lex_writer::LexWriter;

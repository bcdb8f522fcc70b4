//! Generated collections and query sessions, for trials on inputs as large as one likes.
//!
//! A text is a function of its seed alone: `mg_defs::specs::Generator` defines its bytes, and the
//! two calls here write exactly those bytes into a sink. Words are strings of syllables whose
//! numbers are drawn so that a few words come often, as in the texts that people write; documents
//! look like letters, and each is closed by byte 2.
//!
//! No call takes memory of its own. What is made goes to the sink in pieces of some thousand bytes.
#![tactic(auto)]

mod generator;
mod letter;
mod make;
mod queries;
mod syllable;
mod writer;

pub use make::{make_collection, make_session};

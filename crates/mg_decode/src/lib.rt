//! The collection of a set of files, printed.
//!
//! A set that stands for a collection is printed as the collection's bytes, document by document, through one buffer, so that
//! small documents cost no put of their own. Nothing that the files hold is trusted.
#![tactic(auto)]

mod decoding;
mod documents;
mod loaded_text;

pub use decoding::decode;

//! Sets of files built from a collection.
//!
//! A build reads the collection twice, a page at a time: first it is counted, then it is written; what is made of the bytes is
//! mg_make's. Nothing that the files hold is trusted.
#![tactic(auto)]

mod building;
mod names;
mod passes;
mod source;

pub use building::build;

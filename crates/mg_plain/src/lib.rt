//! Plain documents: a collection in memory that is searched by reading it.
//!
//! It is the slow program whose contract is the definition of an answer, and the standard that every
//! faster one is compared with. Nothing is kept from one line to the next but the collection's own
//! bytes. A Boolean line parses each document once and counts the query's terms in it, whatever their
//! number. A ranked line goes over the documents twice, to count those that have each term, and then
//! to score those that have one: it parses each document in both passes, and one that is scored a
//! third time, for its weight.
#![tactic(auto)]

mod boolean;
mod counts;
mod docs;
mod order;
mod plain;
mod ranked;
mod rows;
mod scanner;
mod score;
mod weigh;

pub use plain::PlainText;
pub use scanner::scan;

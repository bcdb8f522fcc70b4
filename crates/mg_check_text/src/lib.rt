//! What is read of the text of a set of which nothing is known.
//!
//! The text is decoded, and each document is coded anew and compared with its bytes. So at the end the parts that are
//! read mean one collection, or the set stands for none. Documents are read again for the symbols of their words, which
//! tell their terms.
#![tactic(auto)]

mod held;
mod load;
mod next_doc;
mod progress;
mod set;
mod term_reader;
mod whole_text;

pub use load::load_text;
pub use term_reader::{TermReader, damaged_document};
pub use whole_text::read_text;

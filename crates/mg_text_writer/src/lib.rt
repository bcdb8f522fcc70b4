//! The text of a collection, written: its documents in code, and the place of each.
//!
//! A [`TextWriter`] takes documents one after the other: the number of a document's pairs, and its
//! pieces, words and others in turn, which it writes by the codewords of a model. Each document
//! begins at a byte, which goes to Places. A piece is looked up once, and nothing of a document is
//! held. The laws tell that what is written so is the text of the collection.
//!
//! The crate mg_text reads these parts. See Witten, Moffat and Bell, *Managing Gigabytes*, chapter 2.
#![tactic(auto)]

mod laws;
mod text_writer;

pub use laws::{pieces_make_documents, text_has_its_documents, text_stays};
pub use text_writer::TextWriter;

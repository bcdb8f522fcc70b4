//! The text of a collection: its documents in code, and the place of each.
//!
//! A document is the number of its pairs in the gamma code, and then the codewords of its words and
//! others in turn. It begins at a byte, which its place tells, so that any document is shown by
//! itself: a [`TextReader`] reads one place and the pages on which the document's bits lie. It
//! trusts none of these bytes. The form of both parts is in docs/FORMAT.md.
//!
//! See Witten, Moffat and Bell, *Managing Gigabytes*, chapter 2.
#![tactic(auto)]

mod closing;
mod decoder;
mod held_document;
mod piece_counter;
mod piece_counts;
mod piece_kinds;
mod places;
mod reader_laws;
mod reader_parts;
mod show_buffer;
mod stream_counts;
mod stream_tally;
mod symbols;
mod text_counter;
mod text_reader;
mod text_tally;
mod word_list;
mod word_lister;

pub use closing::is_closed;
pub use held_document::HeldDocument;
pub use piece_counts::PieceCounts;
pub use reader_laws::texts_stand;
pub use show_buffer::ShowBuffer;
pub use text_counter::count_text;
pub use text_reader::TextReader;
pub use word_list::WordList;

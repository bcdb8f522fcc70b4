//! Inverted lists: for each term its documents in rising order, with skips over them.
//!
//! A list is a row of postings, each the gap from the document before in the Golomb code and how
//! often the document has the term in the gamma code. It is cut into blocks of 64, and an entry for
//! each block tells its last document and its first bit, so that a [`Cursor`] goes to the block
//! that a document is in without reading those between. Entering a block decodes the whole of it,
//! so that nothing is read within a block, and what a block costs is known when it is entered.
//!
//! Lists and skips are those of Witten, Moffat and Bell, *Managing Gigabytes*, chapters 3 and 4.
#![tactic(auto)]

mod ahead;
mod block;
mod block_reader;
mod bounds;
mod cursor;
mod enter;
mod find;
mod laws;
mod list_reader;
mod parameter;
mod progress;
mod put;
mod read;
mod refusal;
mod writer;

pub use cursor::Cursor;
pub use laws::{
    after_the_last, blocks_are_entered_once, cursor_for_later, cursor_pages_are_within,
    cursor_still_fits, documents_are_among, each_page_is_read_once, infos_fit,
    list_of_a_term_stands, list_still_stands, lists_stand, lists_stay, post_is_short,
};
pub use list_reader::ListReader;
pub use mg_defs::Posting;
pub use writer::ListWriter;

//! Collections, documents and pieces, read from plain bytes.
//!
//! A [`Splitter`] tells documents and the end of a collection while it sees one byte at a time, and
//! keeps two numbers. A document is parsed in two ways that give the same pieces: [`Pairs`] borrows
//! the words and others of a document that is held, and a [`PieceReader`] takes bytes one at a time
//! and keeps the current piece alone. Nothing here takes memory, and nothing refuses.
//!
//! The rules are those of Witten, Moffat and Bell, *Managing Gigabytes*, chapters 2 and 3: documents
//! are closed by control-B, and words alternate with the bytes between them. That the bytes from 128
//! on are word bytes, and that a piece has at most 255 bytes, is this program's own choice.
#![tactic(auto)]

mod bytes;
mod pairs;
mod reader;
mod splitter;

pub use bytes::{PIECE_BYTES, fold, is_term, is_word_byte, word_len};
pub use mg_defs::Stream;
pub use pairs::{Pair, Pairs};
pub use reader::{Offer, PieceReader};
pub use splitter::{CLOSE, SplitEvent, Splitter};

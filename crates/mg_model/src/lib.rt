//! Vocabularies, text models and term numbers.
//!
//! A collection is read twice. The first pass counts the distinct pieces of each stream in a
//! [`Vocab`]; then each stream's pieces are numbered by the order of their bytes and given the
//! lengths of a Huffman code, and are a [`TextModel`]. It keeps the map of each vocabulary, sorted:
//! the place of a piece in the map is its symbol, and the second pass looks a symbol up with one
//! hash. A model that is loaded from its two parts has no map: it keeps an entry of sixteen bytes for
//! each piece, with the piece in it where it has at most fifteen bytes, and where a symbol is asked
//! for it seeks the piece by halving. A [`TermTable`] numbers the words once they are folded.
//!
//! The models are the semi-static ones of Witten, Moffat and Bell, *Managing Gigabytes*, chapter 2;
//! the parts are described in docs/FORMAT.md.
#![tactic(auto)]

mod block;
mod dropping;
mod entry_walk;
mod found_symbols;
mod laws;
mod piece;
mod piece_key;
mod pieces;
mod reading;
mod recent;
mod room;
mod stream_model;
mod term_table;
mod text_model;
mod vocab;
mod vocab_err;

pub use found_symbols::FoundSymbols;
pub use laws::{
    codes_are_models, symbol_and_piece, terms_are_the_dictionary, vocabularies_sort,
    words_have_terms,
};
pub use mg_defs::Stream;
pub use piece::Piece;
pub use term_table::TermTable;
pub use text_model::TextModel;
pub use vocab::Vocab;
pub use vocab_err::VocabErr;

//! What the program's answers mean: definitions over plain lists and numbers, which the
//! contracts of every other crate cite, and the laws that tie them.
//!
//! A definition stands in a file of `specs/`, the proofs of its laws and its worked examples in
//! `proofs/`. The functions here have empty bodies: each states laws as a contract, so that other
//! crates can use them.
#![tactic(auto)]

mod blocks;
mod codes;
mod front;
mod heads;
mod huffman;
mod lexicon;
mod limits;
mod lines;
mod lists;
mod postings;
mod queries;
mod session;
mod stands;
mod texts;
mod weights;

pub use blocks::one_block;
pub use codes::{no_code_is_a_front, one_answer, pages_of_a_range};
pub use front::{
    entries_are_read, longest_shared, one_front, strings_rise, whole_entries_have_places,
};
pub use heads::{damage_decides, one_head};
pub use huffman::{cost_in_any_order, first_is_exact, no_codeword_is_a_front};
pub use lexicon::terms_are_entries;
pub use limits::{
    COLLECTION_BYTES, DEFAULT_BUDGET, DOCUMENTS, GREATEST_BUDGET, HELD_BYTES, INPUT_BYTES,
    LEAST_BUDGET, LINE_BYTES, OCCURRENCE_BYTES, OPEN_PARENTHESES, PHRASE_WORDS, PIECE_BYTES,
    PIECES, RANKED_TERMS, ROTATIONS, TRIAL_DOCUMENTS, limits_are_defined,
};
pub use lines::{lines_of, quit_always};
pub use lists::{block_stands, list_rises, one_range};
pub use postings::{merged_runs, one_list_of_postings, postings_of_joined};
pub use queries::{
    boolean_is, one_cause, one_query, one_reading, one_term_list, ranked_is, token_runs,
    walk_decides,
};
pub use session::{Command, Hearing, Mode, Settings};
pub use stands::{
    codes_are_used, collections_fit, lists_grow, one_beginning, one_code, one_collection,
    one_meaning, ranges_join, text_goes_on,
};
pub use texts::{
    bits_fill_bytes, closed_and_open, documents_have_places, one_byte_more, one_dictionary,
    one_order, one_parse, one_split, terms_have_numbers, test_decides, text_has_its_bits,
    vocabulary_grows, vocabulary_has_each_once, vocabulary_tells,
};
pub use weights::{logarithm_rises, one_ranking, one_root, terms_count_once, weight_is_root};

/// The two kinds of pieces of a document.
#[derive(Clone, Copy, Debug, PartialEq, Eq)]
pub enum Stream {
    /// Runs of word bytes, of at most 255 each, which may be empty.
    Words,
    /// Runs of other bytes, of at most 255 each, which may be empty.
    Others,
}

/// A document that has a term, and how often it has it.
#[derive(Clone, Copy, Debug, PartialEq, Eq)]
pub struct Posting {
    /// Its number, from 1.
    pub doc: u32,
    /// At least 1.
    pub freq: u32,
}

/// A term and a document, and how often the term stands there.
#[derive(Clone, Copy, Debug, PartialEq, Eq)]
pub struct TermPosting {
    /// The term's number in the order of the terms' bytes, from 0.
    pub term: u32,
    /// The document's number, from 1.
    pub doc: u32,
    pub count: u32,
}

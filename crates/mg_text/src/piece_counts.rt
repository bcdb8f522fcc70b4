//! Counts of the pieces of documents.
ghost use Rattle.std.specs.Prelude.{◌≡◌, ◌≤◌, ◌-◌, ◌^◌, ◌++◌, ◌∷◌, [], length, sum};
ghost use Rattle.std.specs.Bool.{OnTrue};
ghost use Rattle.mg_text.specs.CountedText.{AllCame, PutsTally, with_pairs_of};

use crate::stream_counts::{StreamCounts, put_all};
use crate::text_tally::TextTally;
use mg_model::{Stream, TextModel, Vocab};
use std::alloc::Global;
use std::marker::Model;

/// The most documents that are counted.
const MOST_DOCUMENTS: usize = 1 << 24;

/// The pieces of both streams, each with how often it came, and how many pairs each document has.
///
/// After a text that was not counted to its end they are of no use.
#[derive(Drop)]
pub struct PieceCounts {
    words: StreamCounts,
    others: StreamCounts,
    pairs: Vec<u32>,
    // How many more pairs may come.
    left: u32,
}

impl Model for PieceCounts {
    ghost use Rattle.std.specs.Prelude.{◌≡◌, ◌≤◌, ◌+◌, ◌-◌, ◌^◌, length, sum};
    ghost use Rattle.mg_text.specs.CountedText.{Counted};

    ghost Value = { Counted };

    ghost view = { λ c. record { words = c.words; others = c.others; pairs = c.pairs.items } };

    ghost invariant = { λ c. (length c.pairs.items ≤ 2 ^ 24) × (sum c.pairs.items + c.left ≡ 2 ^ 32 - 1) };
}

impl PieceCounts {
    /// No piece was counted.
    pub fn new(alloc: Global) -> Self
        ensures words { result.words ≡ [] }
        ensures others { result.others ≡ [] }
        ensures pairs { result.pairs ≡ [] }
    {
        PieceCounts {
            words: StreamCounts::new(alloc),
            others: StreamCounts::new(alloc),
            pairs: Vec::new(alloc),
            left: u32::MAX,
        }
    }

    /// Keeps how many pairs a document has. False where there are too many, or no memory.
    pub(crate) fn keep_pairs(&mut self, found: u32) -> bool
        ensures { OnTrue result (self.new ≡ with_pairs_of (found ∷ []) self.old) }
    {
        if found > self.left || self.pairs.len() >= MOST_DOCUMENTS {
            return false;
        }
        match self.pairs.push(found) {
            Ok(()) => {
                self.left -= found;
                true
            }
            Err(_) => false,
        }
    }

    /// Counts the pieces of a text's symbols. False where there are too many, or no memory.
    pub(crate) fn put(&mut self, model: &TextModel, tally: &TextTally) -> bool
        ensures { OnTrue result (PutsTally model.now tally.now self.old self.new) }
    {
        let words = put_all(&mut self.words, model, Stream::Words, tally.words());
        if !words {
            return false;
        }
        put_all(&mut self.others, model, Stream::Others, tally.others())
    }

    /// How many bytes the pieces have that were counted: a test of whoever knows the size of their documents. Nothing is
    /// promised of it.
    pub fn bytes(&self) -> u64 {
        self.words.bytes().saturating_add(self.others.bytes())
    }

    /// How many pairs the last document has. Nothing is promised of it.
    pub fn last_pairs(&self) -> u32 {
        match self.pairs.last() {
            Some(count) => *count,
            None => 0,
        }
    }

    /// The words and the others, and the pairs of each document: there are at most 2^24 documents, and
    /// fewer than 2^32 pairs.
    pub fn into_parts(self) -> ((Vocab, Vocab), Vec<u32>)
        ensures words { result.0.0 ≡ self.words }
        ensures others { result.0.1 ≡ self.others }
        ensures pairs { result.1.items ≡ self.pairs }
        ensures words_came { AllCame self.words }
        ensures others_came { AllCame self.others }
        ensures few { length self.pairs ≤ 2 ^ 24 }
        ensures small { sum self.pairs ≤ 2 ^ 32 - 1 }
    {
        let PieceCounts {
            words,
            others,
            pairs,
            ..
        } = self;
        ((words.into_vocab(), others.into_vocab()), pairs)
    }
}

//! A set of documents.
ghost use Rattle.std.specs.Prelude.{◌≡◌, ℕ, ◌*◌, ◌≤◌, ◌==◌, ◌||◌, false, IfOk};
ghost use Rattle.mg_session.specs.DocumentSets.{AnswersNext, has_doc};

use std::alloc::{AllocError, Global};
use std::marker::Model;

/// A set of documents, which are numbered from 1. It takes one bit for each document that there is.
///
/// Contracts see how many documents there are, and which of them it has.
#[derive(Drop)]
pub(crate) struct DocumentSet {
    all: u32,
    words: Vec<u64>,
}

impl Model for DocumentSet {
    ghost use Rattle.mg_session.specs.DocumentSets.{AreMarksOf, DocumentMarks};

    ghost Value = { DocumentMarks };

    ghost view = { λ s. record { all = s.all; words = s.words.items } };

    ghost invariant = { λ s. AreMarksOf s.all s.words.items };
}

impl DocumentSet {
    /// A set of none of so many documents. It takes the room for all of them.
    pub(crate) fn new(alloc: Global, all: u32) -> Result<Self, AllocError>
        ensures room { IfOk result (λ s. s.all ≡ all) }
        ensures none { IfOk result (λ s. (doc : ℕ) → has_doc s doc ≡ false) }
    {
        let words = vec![in alloc; 0u64; (all as usize + 63) / 64]?;
        Ok(DocumentSet { all, words })
    }

    /// Takes all documents out.
    pub(crate) fn clear(&mut self)
        ensures room { self.new.all ≡ self.old.all }
        ensures none { (doc : ℕ) → has_doc self.new doc ≡ false }
    {
        self.words.fill(0);
    }

    /// Adds a document.
    pub(crate) fn mark(&mut self, doc: u32)
        requires some { 1 ≤ doc }
        requires within { doc ≤ self.old.all }
        ensures room { self.new.all ≡ self.old.all }
        ensures marked { (other : ℕ) → 1 ≤ other → has_doc self.new other
            ≡ (other == doc || has_doc self.old other) }
    {
        let place = doc as usize - 1;
        self.words[place / 64] |= 1 << (place % 64);
    }

    /// The first document behind one, or from the first document on behind 0.
    pub(crate) fn next_behind(&self, last: u32) -> Option<u32>
        ensures { AnswersNext last self.now result }
    {
        let index = last as usize / 64;
        if index >= self.words.len() {
            return None;
        }
        let word = self.words[index];
        let rest = word >> (last % 64);
        if rest == 0 {
            return self.first_in(index + 1);
        }
        Some(last + rest.trailing_zeros() + 1)
    }

    /// The first document in the words from one on.
    fn first_in(&self, start: usize) -> Option<u32>
        ensures { AnswersNext (64 * start) self.now result }
    {
        for index in start..self.words.len() {
            let word = self.words[index];
            if word != 0 {
                return Some(64 * index as u32 + word.trailing_zeros() + 1);
            }
        }
        None
    }
}

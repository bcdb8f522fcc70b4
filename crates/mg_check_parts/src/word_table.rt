//! The terms of a model each of whose words is a word.
//!
//! Symbols tell the terms of a document without its bytes. There is a document of any words, so what is counted of them
//! is counted of a document, whatever the text of a set holds. That is seen once, when the table is made.
ghost use Rattle.std.specs.Prelude.{◌≡◌, ◌≤◌, ◌^◌, length, IfErr, IfOk, OnOk};
ghost use Rattle.mg_model.specs.Terms.{terms_and_numbers};
ghost use Rattle.mg_check_parts.specs.Refusals.{IsNotDevice, Refutes};
ghost use Rattle.mg_check_parts.specs.Words.{AreWords};

use crate::words::expect_words;
use mg_dev::PartErr;
use mg_model::{TermTable, TextModel};
use std::alloc::{AllocError, Global};
use std::marker::Model;

/// The terms of a model's words, each of which is a word.
#[derive(Drop)]
pub struct WordTable {
    table: TermTable,
}

impl Model for WordTable {
    ghost use Rattle.mg_model.specs.Terms.{TermNumbers};

    ghost Value = { TermNumbers };

    ghost use Rattle.mg_check_parts.specs.Words.{AreWords};

    ghost view = { λ t. t.table };

    // A term is a word that is folded. So the words are words too.
    ghost invariant = { λ t. AreWords t.table.terms };
}

impl WordTable {
    /// The terms of a model's words. A model one of whose words has a byte that no word has is refused; no model of a
    /// collection has one.
    pub fn of(alloc: Global, model: &TextModel) -> Result<Self, PartErr>
        ensures table { IfOk result (λ table. table ≡ terms_and_numbers model.now.words.pieces) }
        ensures words { OnOk result (AreWords model.now.words.pieces) }
        ensures other { IfErr result (Refutes (AreWords model.now.words.pieces)) }
        ensures own { IfErr result IsNotDevice }
    {
        match expect_words(model) {
            Ok(()) => {}
            Err(bad) => return Err(PartErr::Bad(bad)),
        }
        match TermTable::of(alloc, model) {
            Ok(table) => Ok(WordTable { table }),
            Err(AllocError) => Err(PartErr::Memory),
        }
    }

    /// The number of terms, at most 2^22.
    pub fn count(&self) -> u32
        ensures count { result ≡ length self.now.terms }
        ensures few { length self.now.terms ≤ 2 ^ 22 }
    {
        self.table.count()
    }

    /// The terms, each of which is a word.
    pub fn terms(&self) -> &TermTable
        ensures same { result.now ≡ self.now }
        ensures words { AreWords self.now.terms }
    {
        &self.table
    }
}

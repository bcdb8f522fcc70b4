//! The terms of documents that are read one after the other.
//!
//! The words of a document are listed by their symbols, of which the table tells the terms. So no byte of a document is
//! put together here, and no word is looked up.
ghost use Rattle.std.specs.Prelude.{◌≡◌, ◌≤◌, IfErr, OnOk};
ghost use Rattle.mg_dev.specs.Bads.{IsNotBad};
ghost use Rattle.mg_dev.specs.Moments.{Between};
ghost use Rattle.mg_text.specs.Reading.{WhereTextStands};
ghost use Rattle.mg_check_text.specs.Reads.{HasTerms, ReadsText, HasReadTerms};

use mg_check_parts::{DocTerms, WordTable};
use mg_defs::COLLECTION_BYTES;
use mg_dev::{Bad, Part, PartErr, Store};
use mg_text::{TextReader, WordList};
use std::alloc::{AllocError, Global};
use std::marker::Model;

/// The words of the document that was read last, and its terms. Its memory is used again for the next one.
#[derive(Drop)]
pub struct TermReader {
    words: WordList,
    terms: DocTerms,
}

impl Model for TermReader {
    ghost use Rattle.mg_check_parts.specs.TermsRead.{TermsRead};

    ghost Value = { TermsRead };

    ghost view = { λ t. t.terms };
}

/// The document of this number is not the one that was read before, or has more terms than any has.
pub fn damaged_document(number: u32) -> Bad {
    Bad {
        part: Part::Text,
        at: u64::from(number),
        low: 1,
        high: 1,
        found: 0,
    }
}

impl TermReader {
    /// No document was read.
    pub fn new(alloc: Global) -> Result<Self, AllocError> {
        Ok(TermReader {
            words: WordList::new(alloc),
            terms: DocTerms::new(alloc),
        })
    }

    /// Lists the words of a document, from 1 to their number, and takes its terms. Text that tells of a document longer than
    /// any collection is refused.
    pub fn read<S: Store>(
        &mut self,
        store: &mut S,
        reader: &mut TextReader<'_, S>,
        table: &WordTable,
        number: u32,
    ) -> Result<(), PartErr>
        requires text { HasTerms reader.old (S.files store.old) table.now reader.old.documents }
        requires some { 1 ≤ number }
        requires within { number ≤ reader.old.documents }
        ensures terms { OnOk result
            (HasReadTerms reader.old (S.files store.old) table.now.terms number self.new) }
        ensures never_bad { WhereTextStands reader.old (S.files store.old)
            (λ _. IfErr result IsNotBad) }
        ensures text { Between S.files S.reads S.faults store.old store.new
            (ReadsText reader.old reader.new result) }
    {
        match reader.words(store, number, COLLECTION_BYTES, &mut self.words) {
            Ok(()) => {}
            Err(refusal) => return Err(refusal),
        }
        let symbols = self.words.symbols();
        match self.terms.take(reader.model(), table, symbols) {
            Ok(true) => {}
            Ok(false) => return Err(PartErr::Bad(damaged_document(number))),
            Err(AllocError) => return Err(PartErr::Memory),
        }
        Ok(())
    }

    /// The terms of the document that was read last.
    pub fn terms(&self) -> &DocTerms
        ensures { result.now ≡ self.now }
    {
        &self.terms
    }
}

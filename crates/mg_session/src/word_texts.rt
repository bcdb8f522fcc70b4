//! Documents that are read as the symbols of their words, so that a phrase can be sought in them.
//!
//! No byte of a document is made: what a word is for the phrase is looked up at the first meeting of its
//! symbol, and kept by the symbol.
ghost use Rattle.std.specs.Prelude.{◌≡◌, None};
ghost use Rattle.mg_dev.specs.Moments.{Between, store_at};
ghost use Rattle.mg_phrase.specs.Marks.{MarksFit};
ghost use Rattle.mg_text.specs.Reading.{CanRead};
ghost use Rattle.mg_session.specs.Calls.{IsShowable};
ghost use Rattle.mg_session.specs.PhraseTexts.{AreMarksOf, FindsPlaces, SeeksPhrase};

use crate::marked::places_by;
use crate::searched::Searched;
use crate::texts::keep;
use mg_dev::{PartErr, Store};
use mg_layout::Head;
use mg_phrase::Marks;
use mg_text::{TextReader, WordList};
use std::alloc::Global;
use std::marker::Model;

/// The documents of a set, and the symbols of the words of the one that was read last. What reads them is
/// loaded when the first is asked for.
#[derive(Drop)]
pub(crate) struct WordTexts<'a, S: Store> {
    alloc: Global,
    base: &'a str,
    head: Head,
    reader: Option<TextReader<'a, S>>,
    list: WordList,
}

impl<'a, S: Store> Model for WordTexts<'a, S> {
    ghost use Rattle.mg_session.specs.Texts.{Texting};

    ghost Value = { Texting };

    ghost view = { λ t. record { base = t.base.now; head = t.head; reader = t.reader } };
}

/// Seeks the phrase of the marks in a document of at most so many bytes.
fn seek<S: Store>(
    reader: &mut TextReader<'_, S>,
    list: &mut WordList,
    store: &mut S,
    marks: &mut Marks<'_>,
    number: u32,
    most: u64,
) -> Result<u64, PartErr>
    requires can { CanRead reader.old (S.files store.old) number }
    requires fit { MarksFit reader.old.code.words.pieces marks.old }
    ensures { Between S.files S.reads S.faults store.old store.new
        (SeeksPhrase number most result reader.old reader.new marks.old marks.new) }
{
    match reader.words(store, number, most, list) {
        Ok(()) => Ok(places_by(reader.model(), marks, list.symbols())),
        Err(refusal) => Err(refusal),
    }
}

impl<'a, S: Store> WordTexts<'a, S> {
    /// The text under this base, which the head tells of. Nothing is read yet.
    pub(crate) fn new(alloc: Global, base: &'a str, head: &Head) -> Self
        ensures { result ≡ record { base = base.entry.now; head = head.now; reader = None } }
    {
        WordTexts {
            alloc,
            base,
            head: *head,
            reader: None,
            list: WordList::new(alloc),
        }
    }

    // Loads what reads the documents, seeks the phrase in one by it, and keeps it for the next.
    fn load_places(
        &mut self,
        store: &mut S,
        marks: &mut Marks<'_>,
        number: u32,
    ) -> Result<u64, PartErr>
        requires showable { IsShowable (S.files store.old) self.old number }
        requires loaded { self.old.reader ≡ None }
        requires marked { AreMarksOf self.old.reader marks.old }
        ensures { FindsPlaces number result self.old self.new marks.old marks.new
            (store_at S.files S.reads S.faults store.old)
            (store_at S.files S.reads S.faults store.new) }
    {
        let mut reader = match TextReader::load(self.alloc, store, self.base, &self.head) {
            Ok(reader) => reader,
            Err(refusal) => return Err(refusal),
        };
        let most = self.head.collection;
        let found = seek(&mut reader, &mut self.list, store, marks, number, most);
        keep(&mut self.reader, reader);
        found
    }
}

impl<'a, S: Store> Searched<S> for WordTexts<'a, S> {
    ghost texts = { λ t. t };

    fn places(
        &mut self,
        store: &mut S,
        marks: &mut Marks<'_>,
        number: u32,
    ) -> Result<u64, PartErr> {
        let most = self.head.collection;
        match &mut self.reader {
            Some(reader) => seek(reader, &mut self.list, store, marks, number, most),
            None => self.load_places(store, marks, number),
        }
    }
}

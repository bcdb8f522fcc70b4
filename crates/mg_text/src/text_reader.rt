//! A reader of coded documents.
ghost use Rattle.std.specs.Prelude.{◌≡◌, ◌≢◌, ◌-◌, ◌+◌, ◌*◌, ◌≤◌, ◌<◌, ◌^◌, Option, IsSome, IfErr, IfOk, Err};
ghost use Rattle.mg_dev.specs.Files.{Files, SameReads};
ghost use Rattle.mg_dev.specs.PartCauses.{HasPartCause};
ghost use Rattle.mg_dev.specs.declared.part.Part.TheVariants as part;
ghost use Rattle.mg_defs.specs.PagesOf.{pages};
ghost use Rattle.mg_defs.specs.Split.{documents};
ghost use Rattle.mg_front.specs.Reading.{IsNotBad, LookedAt};
ghost use Rattle.mg_text.specs.Decoding.{bytes_to_come};
ghost use Rattle.mg_text.specs.Held.{ForShortDocument, WhereShort};
ghost use Rattle.mg_text.specs.Listing.{ReadsWords};
ghost use Rattle.mg_text.specs.PieceCounts.{CountsPieces};
ghost use Rattle.mg_text.specs.Reading.{AnswersReader, CanRead, ComparesSizes, DiffersInSize, GathersDoc, IsReaderOver, IsTextReader, ReadsDoc, TextFits, TextStands, WhereIsText, WhereTextStands, WritesDocument, GatheredAll, WroteAll, stored_at};
ghost use Rattle.mg_dev.specs.Moments.{Between};
ghost use Rattle.mg_dev.specs.Streams.{AfterPut};

use crate::decoder::{gather_doc, show_doc};
use crate::piece_counter::{count_doc, is_failure};
use crate::piece_kinds::has_pieces_of;
use crate::places::{first_byte, width_of};
use crate::reader_parts::ReaderParts;
use crate::show_buffer::ShowBuffer;
use crate::text_tally::TextTally;
use crate::word_list::WordList;
use crate::word_lister::list_doc;
use mg_bits::{BitReader, PageFeed};
use mg_dev::{Failed, FileRef, Part, PartErr, ShowErr, Sink, Store};
use mg_layout::{Head, expect_size};
use mg_model::{Stream, TextModel};
use std::alloc::{AllocError, Global};
use std::marker::Model;

/// The most bytes of a document: no collection has more.
const GREATEST: u64 = (1 << 32) - 1;

/// Shows the documents of a collection.
///
/// It keeps the codes of both streams, a page of the text and one of its places, and a buffer in
/// which the pieces of a document gather, so that a sink is asked seldom. It needs no memory once
/// it is loaded.
#[derive(Drop)]
pub struct TextReader<'a, S: Store> {
    text: BitReader<PageFeed<'a, S>>,
    places: PageFeed<'a, S>,
    model: TextModel,
    buffer: ShowBuffer,
    version: u8,
    documents: u32,
    size: u64,
}

impl<'a, S: Store> Model for TextReader<'a, S> {
    ghost use Rattle.std.specs.Prelude.{◌≡◌};
    ghost use Rattle.mg_dev.specs.declared.part.Part.TheVariants as part;
    ghost use Rattle.mg_text.specs.Reading.{TextReading};

    ghost Value = { TextReading };

    ghost view = { λ r. record { text = r.text.feed; places = r.places; code = r.model; version = r.version; documents = r.documents; size = r.size } };

    ghost invariant = { λ r. (r.text.feed.part ≡ part.Text) × (r.places.part ≡ part.Places) };
}

// Compares the sizes of Text and Places with those of the head, in this order.
fn expect_sizes<S: Store>(store: &mut S, base: &str, head: &Head) -> Result<(), PartErr>
    ensures { Between S.files S.reads S.faults store.old store.new
        (ComparesSizes base.now head.now result) }
{
    let text = FileRef {
        base,
        part: Part::Text,
    };
    let places = FileRef {
        base,
        part: Part::Places,
    };
    match expect_size(store, text, head.text_bytes) {
        Ok(()) => {}
        Err(refusal) => return Err(refusal),
    }
    let size = width_of(head.version) * (u64::from(head.documents) + 1);
    match expect_size(store, places, size) {
        Ok(()) => Ok(()),
        Err(refusal) => Err(refusal),
    }
}

impl<'a, S: Store> TextReader<'a, S> {
    /// A reader of the text under this base, which the head tells of; each stream has at most 2^22
    /// pieces. It compares the sizes of Text and of Places, in this order, with those of the head
    /// before it reads or reserves anything, and then loads the models, from Words and Nonwords. The
    /// first that is refused is told.
    ///
    /// # Errors
    ///
    /// `Bad` where Text or Places has another size than the head says, or where Words or Nonwords is
    /// damaged; `Device` where the store failed; `Memory` where it is wanted, and that only where both
    /// sizes are right and Words is no shorter than twice the head's number of words.
    pub fn load(alloc: Global, store: &mut S, base: &'a str, head: &Head) -> Result<Self, PartErr>
        requires words { head.now.words ≤ 2 ^ 22 }
        requires others { head.now.others ≤ 2 ^ 22 }
        ensures fits { IfOk result (λ r. TextFits r (S.files store.new)) }
        ensures reader { IfOk result (λ r. IsTextReader r base.entry.now head.now) }
        ensures answer { IsSome (S.files store.old) →
            AnswersReader (stored_at (S.files store.old) base.entry.now head.now) result }
        ensures unread { IsSome (S.files store.old) →
            DiffersInSize (S.files store.old) base.entry.now head.now →
            SameReads (S.reads store.old) (S.reads store.new) }
        ensures stands { WhereIsText base.entry.now (S.files store.old) head.now
            (λ code collection. IfOk result (λ r. TextStands r (S.files store.new) collection)) }
        ensures code { WhereIsText base.entry.now (S.files store.old) head.now
            (λ code collection. IfOk result (λ r. r.code ≡ code)) }
        ensures never_bad { WhereIsText base.entry.now (S.files store.old) head.now
            (λ code collection. IfErr result (λ refusal. IsNotBad refusal)) }
        ensures looked { Between S.files S.reads S.faults store.old store.new
            (LookedAt part.Words part.Nonwords) }
        ensures cause { HasPartCause (S.faults store.old) (S.faults store.new) result }
    {
        match expect_sizes(store, base, head) {
            Ok(()) => {}
            Err(refusal) => return Err(refusal),
        }
        match TextModel::load(alloc, store, base, head.words, head.others) {
            Ok(model) => match Self::over(alloc, base, head, model) {
                Ok(reader) => Ok(reader),
                Err(_) => Err(PartErr::Memory),
            },
            Err(refusal) => Err(refusal),
        }
    }

    // A reader by this model.
    fn over(alloc: Global, base: &'a str, head: &Head, model: TextModel) -> Result<Self, AllocError>
        ensures { IfOk result (λ r. IsReaderOver r base.entry.now head.now model) }
    {
        match ReaderParts::new(alloc, base, model) {
            Ok(parts) => Ok(Self::of(parts, head)),
            Err(refusal) => Err(refusal),
        }
    }

    // A reader of these parts.
    fn of(parts: ReaderParts<'a, S, TextModel>, head: &Head) -> Self
        requires text { parts.text.part ≡ part.Text }
        requires places { parts.places.part ≡ part.Places }
        ensures text { result.text ≡ parts.entry.text }
        ensures places { result.places ≡ parts.entry.places }
        ensures code { result.code ≡ parts.entry.model }
        ensures version { result.version ≡ head.now.version }
        ensures documents { result.documents ≡ head.now.documents }
        ensures size { result.size ≡ head.now.text_bytes }
    {
        let ReaderParts {
            text,
            places,
            buffer,
            model,
        } = parts;
        TextReader {
            text: BitReader::new(text, 0),
            places,
            model,
            buffer,
            version: head.version,
            documents: head.documents,
            size: head.text_bytes,
        }
    }

    /// Writes the bytes of a document, from 1 to the number of documents, to a sink, and no byte
    /// behind them. It reads at most one page of Places. Where the parts stand, it reads no more pages
    /// of Text than the document's bits lie on, and after a refusal a prefix of the bytes was written.
    /// The reader stays of use whatever it answers.
    ///
    /// # Errors
    ///
    /// `Part` where the store failed, or with `Bad` where the place or the bits of the document are
    /// damaged or tell of more bytes than any collection has, and never for want of memory; `Write`
    /// where the sink failed; `Memory` where the sink lacked it.
    pub fn doc<O: Sink>(&mut self, store: &mut S, number: u32, out: &mut O) -> Result<(), ShowErr>
        requires { CanRead self.old (S.files store.old) number }
        ensures { ReadsDoc (WhereTextStands self.old (S.files store.old))
            (WhereTextStands self.old (S.files store.old)
            (WritesDocument (O.written out.old) (O.written out.new) number result))
            (WroteAll (O.written out.old) (O.written out.new)) (2 ^ 32 - 1) 0
            number result self.old self.new S.files S.reads S.faults store.old store.new O.written
            O.faults O.lacks out.old out.new }
    {
        self.doc_within(store, number, GREATEST, out)
    }

    /// Writes a document as [`TextReader::doc`] does, and of none more than so many bytes: damaged text
    /// can tell of a document of any length.
    ///
    /// # Errors
    ///
    /// Those of [`TextReader::doc`], and `Part` with `Bad` where the bits of the document tell of more
    /// bytes, before the piece that goes beyond them is written.
    pub fn doc_within<O: Sink>(
        &mut self,
        store: &mut S,
        number: u32,
        most: u64,
        out: &mut O,
    ) -> Result<(), ShowErr>
        requires { CanRead self.old (S.files store.old) number }
        ensures { ReadsDoc (WhereShort self.old (S.files store.old) number most)
            (ForShortDocument self.old (S.files store.old) number most
            (λ doc. AfterPut (O.written out.old) (O.written out.new) doc result))
            (WroteAll (O.written out.old) (O.written out.new)) most 0
            number result self.old self.new S.files S.reads S.faults store.old store.new O.written
            O.faults O.lacks out.old out.new }
    {
        let version = self.version;
        let size = self.size;
        let from = match first_byte(&mut self.places, store, version, size, number - 1) {
            Ok(from) => from,
            Err(refusal) => return Err(ShowErr::Part(refusal)),
        };
        self.text.seek(8 * from);
        self.buffer.start(most);
        self.buffer.begin(8 * from);
        show_doc(&self.model, &mut self.text, store, &mut self.buffer, out)
    }

    /// Adds the bytes of a document to those that a buffer holds; what goes to the sink is as much
    /// as the buffer has no room for. What the sink took and what the buffer holds together grow by
    /// the document; after a refusal the sink took a prefix, where the parts stand. Whoever shows
    /// many documents one after the other makes few puts this way, and flushes the buffer at last.
    /// The number is one from 1 to the number of documents.
    ///
    /// # Errors
    ///
    /// Those of [`TextReader::doc_within`], where the bound is what the buffer still takes.
    pub fn gather<O: Sink>(
        &mut self,
        store: &mut S,
        number: u32,
        buffer: &mut ShowBuffer,
        out: &mut O,
    ) -> Result<(), ShowErr>
        requires { CanRead self.old (S.files store.old) number }
        ensures { ReadsDoc (WhereShort self.old (S.files store.old) number buffer.old.left)
            (GathersDoc self.old (S.files store.old) (O.written out.old) (O.written out.new)
            buffer.old buffer.new number result)
            (GatheredAll (O.written out.old) (O.written out.new) buffer.old buffer.new)
            (bytes_to_come buffer.old) (bytes_to_come buffer.new)
            number result self.old self.new S.files S.reads S.faults store.old store.new O.written
            O.faults O.lacks out.old out.new }
    {
        let (version, size) = (self.version, self.size);
        let index = number - 1;
        let from = match first_byte(&mut self.places, store, version, size, index) {
            Ok(from) => from,
            Err(refusal) => return Err(ShowErr::Part(refusal)),
        };
        let place = 8 * from;
        self.text.seek(place);
        buffer.begin(place);
        gather_doc(&self.model, &mut self.text, store, buffer, out)
    }

    /// Lists the symbols of the words of a document that are not empty, from 1 to the number of documents, in
    /// place of those that were listed. It reads what [`TextReader::doc_within`] reads, and
    /// refuses what that refuses, but shows no byte. The reader stays of use whatever it answers.
    ///
    /// # Errors
    ///
    /// `Device` where the store failed; `Bad` where the place or the bits of the document are damaged or
    /// tell of more bytes than `most`; `Memory` where it is wanted for the symbols.
    pub fn words(
        &mut self,
        store: &mut S,
        number: u32,
        most: u64,
        list: &mut WordList,
    ) -> Result<(), PartErr>
        requires { CanRead self.old (S.files store.old) number }
        ensures { Between S.files S.reads S.faults store.old store.new
            (ReadsWords number most result self.old self.new list.new) }
    {
        let (version, size) = (self.version, self.size);
        let byte = match first_byte(&mut self.places, store, version, size, number - 1) {
            Ok(byte) => byte,
            Err(why) => return Err(why),
        };
        self.text.seek(8 * byte);
        list.begin(most, 8 * byte);
        list_doc(&self.model, &mut self.text, store, list)
    }

    /// Whether each piece of the models is such as documents have: those of a collection's text have no other
    /// ones. Nothing is promised of it.
    pub fn has_pieces(&self) -> bool {
        has_pieces_of(&self.model, Stream::Words) && has_pieces_of(&self.model, Stream::Others)
    }

    // Counts the symbols of a document, from 1 to the number of documents, and answers how many pairs it has. None where
    // the text is damaged, its pieces come as in no document or a symbol came too often: then the tally is of no use, and
    // it is not told why.
    pub(crate) fn tally(
        &mut self,
        store: &mut S,
        number: u32,
        counts: &mut TextTally,
    ) -> Result<Option<u32>, Failed>
        requires { CanRead self.old (S.files store.old) number }
        ensures { Between S.files S.reads S.faults store.old store.new
            (CountsPieces number result self.old self.new counts.old counts.new) }
    {
        let (version, size) = (self.version, self.size);
        let byte = match first_byte(&mut self.places, store, version, size, number - 1) {
            Ok(byte) => byte,
            Err(refusal) => {
                let failed = is_failure(&refusal);
                if failed {
                    return Err(Failed);
                }
                return Ok(None);
            }
        };
        self.text.seek(8 * byte);
        count_doc(&self.model, &mut self.text, store, counts)
    }

    /// How many documents there are.
    pub(crate) fn documents(&self) -> u32
        ensures { result ≡ self.now.documents }
    {
        self.documents
    }

    /// The models of both streams, as they were loaded.
    pub fn model(&self) -> &TextModel
        ensures { result.now ≡ self.now.code }
    {
        &self.model
    }
}

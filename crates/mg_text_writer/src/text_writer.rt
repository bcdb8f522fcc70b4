//! Coded documents into two parts.
ghost use Rattle.std.specs.Prelude.{◌≡◌, ◌≢◌, ◌≤◌, ◌<◌, ◌+◌, ◌-◌, ◌^◌, [], ℕ, List, true, false, length, IfOk, OnOk};
ghost use Rattle.std.specs.Option.{is_some};
ghost use Rattle.mg_dev.specs.Causes.{HasPutCause};
ghost use Rattle.mg_dev.specs.Files.{SameReads};
ghost use Rattle.mg_dev.specs.Names.{full_name};
ghost use Rattle.mg_dev.specs.declared.part.Part.TheVariants as part;
ghost use Rattle.mg_bits.specs.Writer.{WroteTo, Wrote, KeepsOthers};
ghost use Rattle.mg_defs.specs.Bits.{Bits};
ghost use Rattle.mg_defs.specs.Canon.{codeword};
ghost use Rattle.mg_defs.specs.Codes.{gamma};
ghost use Rattle.mg_defs.specs.Numbers.{eight};
ghost use Rattle.mg_defs.specs.Marks.{code_of};
ghost use Rattle.mg_text_writer.specs.Writing.{Began, DocumentsStand, Ended, IsOnText, KeepsBut, PutOne, TookBits, TookDoc, TookFirst, WhereClosed, Writes, text_at, text_bytes, turn, with_empty_text};

use mg_bits::{BitWriter, PageWriter};
use mg_codes::put_gamma;
use mg_dev::{FileRef, Part, PutErr, Store};
use mg_fields::eight_bytes;
use mg_model::{Stream, TextModel};
use std::alloc::Global;
use std::marker::Model;

/// Writes the documents of a collection into Text and the place of each into Places, one after the
/// other.
///
/// A document is begun with the number of its pairs; then its pieces are put, a word and what
/// follows it in turn, and the document is ended. It holds back up to a page of each part and keeps
/// nothing of what was put but a few numbers. A call refuses where the store does, or where it wants
/// memory; behind that the writer is of no further use, nothing is promised of the two parts, and no
/// other file was changed.
#[derive(Drop)]
pub struct TextWriter<'a> {
    base: &'a str,
    text: BitWriter<'a>,
    places: PageWriter<'a>,
    docs: u32,
    pairs: u64,
    is_open: bool,
    left: u64,
}

impl<'a> Model for TextWriter<'a> {
    ghost use Rattle.std.specs.Prelude.{◌≡◌};
    ghost use Rattle.mg_text_writer.specs.Writing.{TextWriting};

    ghost Value = { TextWriting };

    ghost view = { λ w. record { base = w.base.now; text = w.text; places = w.places; docs = w.docs; pairs = w.pairs; is_open = w.is_open; left = w.left } };
}

/// Writes a place: a number of 8 bytes.
fn put_place<S: Store>(places: &mut PageWriter<'_>, store: &mut S, place: u64) -> Result<(), PutErr>
    ensures bytes { OnOk result (Wrote places.old places.new (S.files store.old) (S.files store.new)
        (eight place)) }
    ensures wrote { WroteTo places.old.name (S.files store.old) (S.files store.new)
        (S.reads store.old) (S.reads store.new) }
    ensures cause { HasPutCause (S.faults store.old) (S.faults store.new) result }
{
    places.put_all(store, &eight_bytes(place))
}

impl<'a> TextWriter<'a> {
    /// A writer of the text under this base, to which no document was put. Both parts are there and
    /// empty then.
    ///
    /// # Errors
    ///
    /// `Failed` where the store failed; `Memory` where the store or a page that is held back wants it.
    pub fn start<S: Store>(alloc: Global, store: &mut S, base: &'a str) -> Result<Self, PutErr>
        ensures took { IfOk result (λ writer. IsOnText writer (S.files store.new) [] []) }
        ensures empty { OnOk result (S.files store.new ≡
            with_empty_text (S.files store.old) base.entry.now) }
        ensures base { IfOk result (λ writer. writer.base ≡ base.entry.now) }
        ensures docs { IfOk result (λ writer. writer.docs ≡ 0) }
        ensures pairs { IfOk result (λ writer. writer.pairs ≡ 0) }
        ensures closed { IfOk result (λ writer. writer.is_open ≡ false) }
        ensures others { KeepsOthers (full_name base.entry.now part.Text)
            (full_name base.entry.now part.Places) (S.files store.old) (S.files store.new) }
        ensures told { is_some (S.files store.new) ≡ is_some (S.files store.old) }
        ensures reads { SameReads (S.reads store.old) (S.reads store.new) }
        ensures cause { HasPutCause (S.faults store.old) (S.faults store.new) result }
    {
        let text_file = FileRef {
            base,
            part: Part::Text,
        };
        let places_file = FileRef {
            base,
            part: Part::Places,
        };
        let text = match BitWriter::start(alloc, store, text_file) {
            Ok(writer) => writer,
            Err(refusal) => return Err(refusal),
        };
        let places = match PageWriter::start(alloc, store, places_file) {
            Ok(writer) => writer,
            Err(refusal) => return Err(refusal),
        };
        Ok(TextWriter {
            base,
            text,
            places,
            docs: 0,
            pairs: 0,
            is_open: false,
            left: 0,
        })
    }

    /// Begins a document of so many pairs: writes its place and the number. There are at most 2^24
    /// documents, and at most 2^32 - 1 pairs in all of them together.
    ///
    /// # Errors
    ///
    /// The store's: `Failed` where it failed, `Memory` where it wants memory.
    pub fn begin_doc<S: Store>(&mut self, store: &mut S, pairs: u32) -> Result<(), PutErr>
        requires took { (docs : List Bits) × IsOnText self.old (S.files store.old) docs [] }
        requires closed { self.old.is_open ≡ false }
        requires docs { self.old.docs < 2 ^ 24 }
        requires pairs { self.old.pairs + pairs ≤ 2 ^ 32 - 1 }
        ensures { Writes (OnOk result (TookFirst self.old self.new (S.files store.old)
            (S.files store.new) (gamma (pairs + 1)))) (OnOk result (Began self.old self.new pairs))
            (KeepsOthers (full_name self.old.base part.Text) (full_name self.old.base part.Places))
            self.old self.new result S.files S.reads S.faults store.old store.new }
    {
        let count = u64::from(pairs);
        put_place(&mut self.places, store, self.text.place() / 8)?;
        put_gamma(&mut self.text, store, count + 1)?;
        self.docs += 1;
        self.pairs += count;
        self.is_open = true;
        self.left = 2 * count;
        Ok(())
    }

    /// Writes the codeword of one piece more of the document. Words and others alternate, the first
    /// is a word, and there are twice as many pieces as pairs; a symbol is below the number of its
    /// stream's pieces.
    ///
    /// # Errors
    ///
    /// The store's: `Failed` where it failed, `Memory` where it wants memory.
    #[inline]
    pub fn put_piece<S: Store>(
        &mut self,
        store: &mut S,
        model: &TextModel,
        stream: Stream,
        symbol: u32,
    ) -> Result<(), PutErr>
        requires took { (docs : List Bits) × (bits : Bits)
            × IsOnText self.old (S.files store.old) docs bits }
        requires more { 0 < self.old.left }
        requires turn { stream ≡ turn self.old.left }
        requires symbol { symbol < length (code_of stream model.now).pieces }
        ensures { Writes (OnOk result (TookBits self.old self.new (S.files store.old)
            (S.files store.new) (codeword (code_of stream model.now).lengths symbol)))
            (OnOk result (PutOne self.old self.new)) (KeepsBut (full_name self.old.base part.Text))
            self.old self.new result S.files S.reads S.faults store.old store.new }
    {
        model.canon(stream).put(&mut self.text, store, symbol)?;
        self.left -= 1;
        Ok(())
    }

    /// Ends the document, all of whose pieces were put: zero-bits fill its last byte.
    ///
    /// # Errors
    ///
    /// The store's: `Failed` where it failed, `Memory` where it wants memory.
    pub fn end_doc<S: Store>(&mut self, store: &mut S) -> Result<(), PutErr>
        requires took { (docs : List Bits) × (bits : Bits)
            × IsOnText self.old (S.files store.old) docs bits }
        requires begun { self.old.is_open ≡ true }
        requires whole { self.old.left ≡ 0 }
        ensures { Writes (OnOk result (TookDoc self.old self.new (S.files store.old)
            (S.files store.new))) (OnOk result (Ended self.old self.new))
            (KeepsBut (full_name self.old.base part.Text)) self.old self.new result S.files S.reads
            S.faults store.old store.new }
    {
        self.text.align(store)?;
        self.is_open = false;
        Ok(())
    }

    /// Writes the last place and what is held. Then the parts hold the documents and their places.
    /// Answers how many bytes Text has.
    ///
    /// # Errors
    ///
    /// The store's: `Failed` where it failed, `Memory` where it wants memory.
    pub fn finish<S: Store>(&mut self, store: &mut S) -> Result<u64, PutErr>
        requires took { (docs : List Bits) × IsOnText self.old (S.files store.old) docs [] }
        requires closed { self.old.is_open ≡ false }
        ensures finished { OnOk result
            (WhereClosed self.old (S.files store.old) (λ docs.
            DocumentsStand self.old.base (S.files store.new) docs)) }
        ensures bytes { OnOk result (WhereClosed self.old (S.files store.old)
            (λ docs. text_at self.old.base (S.files store.new) ≡ text_bytes docs)) }
        ensures answer { IfOk result (λ size. (docs : List Bits) →
            IsOnText self.old (S.files store.old) docs [] → size ≡ length (text_bytes docs)) }
        ensures base { self.new.base ≡ self.old.base }
        ensures others { KeepsOthers (full_name self.old.base part.Text)
            (full_name self.old.base part.Places) (S.files store.old) (S.files store.new) }
        ensures told { is_some (S.files store.new) ≡ is_some (S.files store.old) }
        ensures reads { SameReads (S.reads store.old) (S.reads store.new) }
        ensures cause { HasPutCause (S.faults store.old) (S.faults store.new) result }
    {
        let size = self.text.place() / 8;
        put_place(&mut self.places, store, size)?;
        self.text.finish(store)?;
        self.places.finish(store)?;
        Ok(size)
    }
}

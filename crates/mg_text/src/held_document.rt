//! A document in memory, of bounded length.
//!
//! A reader of texts has the store lent to it as long as it decodes a document, so no caller can work on the bytes as they
//! come: they are kept here. Damaged text can tell of a document of any length, so the bytes are bounded.
ghost use Rattle.std.specs.Prelude.{◌≡◌, ◌≢◌, ◌↔◌, ◌<◌, ◌≤◌, ◌+◌, ◌++◌, ◌∷◌, [], Some, IfErr, IsSome, IsTrue, OnOk, length};
ghost use Rattle.mg_dev.specs.Bads.{IsNotBad};
ghost use Rattle.mg_dev.specs.Causes.{HasLack, HasPutCause};
ghost use Rattle.mg_dev.specs.Moments.{Between};
ghost use Rattle.mg_dev.specs.PartCauses.{HasPartCause};
ghost use Rattle.mg_dev.specs.Streams.{AfterPut};
ghost use Rattle.mg_dev.specs.declared.part.Part.TheVariants as part;
ghost use Rattle.mg_bits.specs.Pages.{LookedAt};
ghost use Rattle.mg_text.specs.Held.{AnswersHeld, ForShortDocument, held_answer};
ghost use Rattle.mg_text.specs.Reading.{PagesOfDocument, SameText, TellsDocument, TextFits, WhereTextStands};

use crate::text_reader::TextReader;
use mg_dev::{Bad, Part, PartErr, PutErr, ShowErr, Sink, Store};
use std::alloc::{AllocError, Global};

/// The bytes of a document, and the most that a document may have. The memory for them grows with the bytes, never with
/// the bound, and is kept for the next document.
///
/// As a sink it takes at most one byte more than the bound, which shows that the document is too long. Then it refuses
/// every byte, as if memory were wanting.
#[derive(Drop)]
pub struct HeldDocument {
    bytes: Vec<u8>,
    most: u64,
    lacks: u64,
}

impl HeldDocument {
    /// No byte, and room for documents of at most `most`.
    pub fn new(alloc: Global, most: u64) -> Self
        ensures bytes { result.bytes.items ≡ [] }
        ensures most { result.most ≡ most }
    {
        HeldDocument {
            bytes: Vec::new(alloc),
            most,
            lacks: 0,
        }
    }

    /// Sets how many bytes the next documents have at most.
    pub fn set_most(&mut self, most: u64)
        ensures bytes { self.new.bytes.items ≡ self.old.bytes.items }
        ensures most { self.new.most ≡ most }
    {
        self.most = most;
    }

    /// Forgets the bytes, and keeps the memory for the next ones.
    pub fn clear(&mut self)
        ensures bytes { self.new.bytes.items ≡ [] }
        ensures most { self.new.most ≡ self.old.most }
    {
        self.bytes.clear();
    }

    /// Adds the byte that closes a document, which the bound does not count.
    ///
    /// # Errors
    ///
    /// Want of memory, and then no byte was added.
    pub fn close(&mut self) -> Result<(), AllocError>
        ensures closed { OnOk result (self.new.bytes.items ≡ self.old.bytes.items ++ 2 ∷ []) }
        ensures kept { IfErr result (λ _. self.new.bytes.items ≡ self.old.bytes.items) }
        ensures most { self.new.most ≡ self.old.most }
    {
        self.bytes.extend_from_slice(&[2])
    }

    /// The bytes.
    pub fn bytes(&self) -> &[u8]
        ensures { result.now ≡ self.now.bytes.items }
    {
        self.bytes.as_slice()
    }

    /// How many bytes a document has at most.
    pub fn most(&self) -> u64
        ensures { result ≡ self.now.most }
    {
        self.most
    }

    /// Whether more bytes are held than a document may have.
    pub fn is_over(&self) -> bool
        ensures { IsTrue result ↔ self.now.most < length self.now.bytes.items }
    {
        self.bytes.len() as u64 > self.most
    }

    /// Decodes a document, from 1 to their number, in place of what was held. Where the text stands for a collection of
    /// which that document is no longer than the bound, it is that one. It reads what [`TextReader::doc`] reads.
    ///
    /// # Errors
    ///
    /// `Device` where the store failed. `Bad` where the place or the bits of the document are damaged, or where they tell
    /// of more bytes than the bound: as soon as one more is met. `Memory` where it is wanted for the bytes.
    pub fn read<S: Store>(
        &mut self,
        store: &mut S,
        reader: &mut TextReader<'_, S>,
        number: u32,
    ) -> Result<(), PartErr>
        requires fits { TextFits reader.old (S.files store.old) }
        requires some { 1 ≤ number }
        requires within { number ≤ reader.old.documents }
        ensures fits { TextFits reader.new (S.files store.new) }
        ensures same { SameText reader.old reader.new }
        ensures most { self.new.most ≡ self.old.most }
        ensures short { OnOk result (length self.new.bytes.items ≤ self.old.most) }
        ensures content { ForShortDocument reader.old (S.files store.old) number self.old.most
            (λ doc. OnOk result (self.new.bytes.items ≡ doc)) }
        // Whatever the parts hold, what is held is what they tell.
        ensures stood { IsSome (S.files store.old) → OnOk result (TellsDocument reader.old
            (S.files store.old) number (λ doc. self.new.bytes.items ≡ doc)) }
        ensures never_bad { ForShortDocument reader.old (S.files store.old) number self.old.most
            (λ _. IfErr result IsNotBad) }
        ensures pages { WhereTextStands reader.old (S.files store.old)
            (PagesOfDocument reader.old number (S.reads store.old) (S.reads store.new)) }
        ensures places { S.reads store.new part.Places ≤ S.reads store.old part.Places + 1 }
        ensures looked { Between S.files S.reads S.faults store.old store.new
            (LookedAt part.Text part.Places) }
        ensures cause { HasPartCause (S.faults store.old) (S.faults store.new) result }
    {
        let most = self.most;
        self.bytes.clear();
        let shown = reader.doc(store, number, self);
        self.most = most;
        self.answered(shown)
    }

    // What is answered once a document was shown to this sink. It stands apart, since each way out of
    // `read` is proved with the reader in scope.
    fn answered(&self, shown: Result<(), ShowErr>) -> Result<(), PartErr>
        ensures { AnswersHeld self.now.most (length self.now.bytes.items) shown result }
    {
        let most = self.most;
        let found = self.bytes().len() as u64;
        if found > most {
            return Err(too_long(most, found));
        }
        held_answer(shown)
    }

    // How many bytes of a piece of this length are taken.
    fn room(&self, len: usize) -> usize
        ensures { result ≤ len }
    {
        let held = self.bytes.len() as u64;
        let room = self.most.saturating_add(1).saturating_sub(held);
        if (len as u64) <= room {
            len
        } else {
            room as usize
        }
    }
}

// The refusal of a document that is held in memory: nothing fails there but for want of it.
fn held_answer(shown: Result<(), ShowErr>) -> Result<(), PartErr>
    ensures { result ≡ held_answer shown }
{
    match shown {
        Ok(()) => Ok(()),
        Err(ShowErr::Part(refusal)) => Err(refusal),
        Err(ShowErr::Write) => Err(PartErr::Device),
        Err(ShowErr::Memory) => Err(PartErr::Memory),
    }
}

// A document has `found` bytes or more, where it may have at most `most`.
fn too_long(most: u64, found: u64) -> PartErr
    requires { most < found }
    ensures { result ≢ PartErr.Device }
{
    PartErr::Bad(Bad {
        part: Part::Text,
        at: 0,
        low: 0,
        high: most,
        found,
    })
}

#[tactic(auto, using(mg_dev::specs::StreamLaws::stream_laws), unfolding(mg_dev::specs::Streams::appended))]
impl Sink for HeldDocument {
    ghost written = { λ s. Some s.bytes.items };

    ghost faults = { λ _. 0 };

    ghost lacks = { λ s. s.lacks };

    fn put(&mut self, piece: &[u8]) -> Result<(), PutErr>
        ensures content { AfterPut (⟦<HeldDocument as Sink>⟧.written self.old)
            (⟦<HeldDocument as Sink>⟧.written self.new) piece.now result }
        ensures cause { HasPutCause (⟦<HeldDocument as Sink>⟧.faults self.old)
            (⟦<HeldDocument as Sink>⟧.faults self.new) result }
        ensures lack { HasLack (⟦<HeldDocument as Sink>⟧.lacks self.old)
            (⟦<HeldDocument as Sink>⟧.lacks self.new) result }
        ensures most { self.new.most ≡ self.old.most }
    {
        let count = self.room(piece.len());
        match self.bytes.extend_from_slice(&piece[..count]) {
            Ok(()) if count == piece.len() => Ok(()),
            _ => {
                self.lacks = self.lacks.saturating_add(1);
                Err(PutErr::Memory)
            }
        }
    }
}

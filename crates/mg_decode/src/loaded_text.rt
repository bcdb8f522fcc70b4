//! The text of a set, whose documents are shown one after the other.
//!
//! What shows them takes whatever reads a text: it sees no more of it than this trait tells.
ghost use Rattle.std.specs.Prelude.{◌≤◌, ◌^◌, IfErr, IfOk};
ghost use Rattle.mg_dev.specs.Moments.{Between};
ghost use Rattle.mg_dev.specs.PartCauses.{HasPartCause};
ghost use Rattle.mg_dev.specs.declared.part.Part.TheVariants as part;
ghost use Rattle.mg_front.specs.Reading.{IsNotBad, LookedAt};
ghost use Rattle.mg_text.specs.Decoding.{AddsOf, IsShowCaused, bytes_to_come};
ghost use Rattle.mg_text.specs.Reading.{IsTextReader, SameText, TextFits, TextReading, TextStands, WhereIsText};
ghost use Rattle.mg_decode.specs.Documents.{GathersClosed, IfShown};

use mg_dev::{PartErr, ShowErr, Sink, Store};
use mg_layout::Head;
use mg_text::{ShowBuffer, TextReader};
use std::alloc::Global;

/// A loaded text, of which no more is seen than this by who shows it.
pub(crate) trait LoadedText<'a, S: Store> {
    /// What contracts see of its reader.
    ghost reading: { Self → TextReading };

    /// A reader of the text under this base, which the head tells of.
    fn load(alloc: Global, store: &mut S, base: &'a str, head: &Head) -> Result<Self, PartErr>
        requires words { head.now.words ≤ 2 ^ 22 }
        requires others { head.now.others ≤ 2 ^ 22 }
        ensures fits { IfOk result (λ r. TextFits (reading r) (S.files store.new)) }
        ensures reader { IfOk result (λ r. IsTextReader (reading r) base.entry.now head.now) }
        ensures stands { WhereIsText base.entry.now (S.files store.old) head.now
            (λ code collection. IfOk result (λ r. TextStands (reading r) (S.files store.new)
            collection)) }
        ensures never_bad { WhereIsText base.entry.now (S.files store.old) head.now
            (λ code collection. IfErr result (λ refusal. IsNotBad refusal)) }
        ensures looked { Between S.files S.reads S.faults store.old store.new
            (LookedAt part.Words part.Nonwords) }
        ensures cause { HasPartCause (S.faults store.old) (S.faults store.new) result };

    /// Gathers a document and, where it is closed, the byte that closes it.
    fn gather_closed<O: Sink>(
        &mut self,
        store: &mut S,
        number: u32,
        closed: bool,
        buffer: &mut ShowBuffer,
        out: &mut O,
    ) -> Result<(), ShowErr>
        requires fits { TextFits (reading self.old) (S.files store.old) }
        requires some { 1 ≤ number }
        requires within { number ≤ (reading self.old).documents }
        ensures fits { TextFits (reading self.new) (S.files store.new) }
        ensures same { SameText (reading self.old) (reading self.new) }
        ensures looked { Between S.files S.reads S.faults store.old store.new
            (LookedAt part.Text part.Places) }
        ensures content { IfShown (reading self.old) (S.files store.old) (O.written out.old)
            buffer.old (GathersClosed number closed (O.written out.new) buffer.new result) }
        ensures added { AddsOf O.written O.faults O.lacks out.old out.new
            (bytes_to_come buffer.old) (bytes_to_come buffer.new) }
        ensures cause { IsShowCaused result (S.faults store.old) (S.faults store.new)
            (O.faults out.old) (O.faults out.new) (O.lacks out.old) (O.lacks out.new) };
}

impl<'a, S: Store> LoadedText<'a, S> for TextReader<'a, S> {
    ghost reading = { λ r. r };

    fn load(alloc: Global, store: &mut S, base: &'a str, head: &Head) -> Result<Self, PartErr> {
        TextReader::load(alloc, store, base, head)
    }

    fn gather_closed<O: Sink>(
        &mut self,
        store: &mut S,
        number: u32,
        closed: bool,
        buffer: &mut ShowBuffer,
        out: &mut O,
    ) -> Result<(), ShowErr> {
        match self.gather(store, number, buffer, out) {
            Ok(()) => {}
            Err(refusal) => return Err(refusal),
        }
        if !closed {
            return Ok(());
        }
        buffer.put(out, &[2])
    }
}

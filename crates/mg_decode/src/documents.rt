//! All documents of a text, one after the other.
ghost use Rattle.std.specs.Prelude.{◌≡◌, []};
ghost use Rattle.mg_dev.specs.Moments.{Between};
ghost use Rattle.mg_dev.specs.Streams.{AfterPut};
ghost use Rattle.mg_dev.specs.declared.part.Part.TheVariants as part;
ghost use Rattle.mg_front.specs.Reading.{LookedAt};
ghost use Rattle.mg_text.specs.Decoding.{AddsOf, IsShowCaused};
ghost use Rattle.mg_text.specs.Reading.{ShowIsNotBad, TextFits};
ghost use Rattle.mg_decode.specs.Documents.{ForTextEnding};

use crate::loaded_text::LoadedText;
use mg_dev::{ShowErr, Sink, Store, refused_put};
use mg_text::{ShowBuffer, is_closed};

/// Shows all documents of a text, each but an open last one with the byte that closes it. The buffer
/// holds nothing, and takes as many bytes as the text's collection has.
pub(crate) fn show_documents<'a, S: Store, O: Sink, T: LoadedText<'a, S>>(
    text: &mut T,
    store: &mut S,
    documents: u32,
    open_end: bool,
    buffer: &mut ShowBuffer,
    out: &mut O,
) -> Result<(), ShowErr>
    requires fits { TextFits (T.reading text.old) (S.files store.old) }
    requires documents { (T.reading text.old).documents ≡ documents }
    requires empty { buffer.old.held ≡ [] }
    ensures looked { Between S.files S.reads S.faults store.old store.new
        (LookedAt part.Text part.Places) }
    ensures content { ForTextEnding (T.reading text.old) (S.files store.old) open_end
        buffer.old.left
        (λ collection. AfterPut (O.written out.old) (O.written out.new) collection result) }
    ensures never_bad { ForTextEnding (T.reading text.old) (S.files store.old) open_end
        buffer.old.left (λ _. ShowIsNotBad result) }
    // Whatever the parts hold, no more bytes are added than the buffer takes.
    ensures added { AddsOf O.written O.faults O.lacks out.old out.new buffer.old.left 0 }
    ensures cause { IsShowCaused result (S.faults store.old) (S.faults store.new) (O.faults out.old)
        (O.faults out.new) (O.lacks out.old) (O.lacks out.new) }
{
    for index in 0..documents {
        let number = index + 1;
        let closed = is_closed(number, documents, open_end);
        match text.gather_closed(store, number, closed, buffer, out) {
            Ok(()) => {}
            Err(refusal) => return Err(refusal),
        }
    }
    match buffer.flush(out) {
        Ok(()) => Ok(()),
        Err(refusal) => Err(refused_put(refusal)),
    }
}

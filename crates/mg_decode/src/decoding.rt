//! The collection of a set.
ghost use Rattle.std.specs.Prelude.{◌≡◌, ◌⊎◌, ◌≤◌, ◌^◌, ℕ, List, [], IfErr, IsSome, Err};
ghost use Rattle.mg_dev.specs.Causes.{Rose};
ghost use Rattle.mg_dev.specs.Each.{ForEach};
ghost use Rattle.mg_dev.specs.Files.{bytes_at};
ghost use Rattle.mg_dev.specs.Moments.{sink_at};
ghost use Rattle.mg_dev.specs.Names.{full_name, number};
ghost use Rattle.mg_dev.specs.Runs.{RefusedFor};
ghost use Rattle.mg_dev.specs.Streams.{AfterPut};
ghost use Rattle.mg_dev.specs.declared.fault.Fault.TheVariants as fault;
ghost use Rattle.mg_dev.specs.declared.part.Part.{Part as AnyPart};
ghost use Rattle.mg_dev.specs.declared.part.Part.TheVariants as part;
ghost use Rattle.mg_layout.specs.Stands.{Stands};
ghost use Rattle.mg_text.specs.Decoding.{Added};
ghost use Rattle.mg_decode.specs.Decoded.{DecodesSet, WithinHead};
ghost use Rattle.mg_decode.specs.Outcomes.{DecodeStops, DoneUnlessFails, LacksEarly, ShowsSet};

use crate::documents::show_documents;
use crate::loaded_text::LoadedText;
use mg_dev::{Fault, PartErr, ShowErr, Sink, Store};
use mg_layout::Head;
use mg_text::{ShowBuffer, TextReader};
use std::alloc::Global;

/// Writes the collection of the set under a base.
///
/// The head, the models, the text and its places are read, and no other part. Once the reader of the
/// text is loaded no memory of its own is taken. After a refusal a prefix of the collection was
/// written. Whatever the files hold, no more bytes are written than the head tells of the collection:
/// where the text means more, it is damaged.
pub fn decode<S: Store, O: Sink>(
    alloc: Global,
    store: &mut S,
    base: &str,
    out: &mut O,
) -> Result<(), Fault>
    // What a run does that decodes, whatever its input is, which is not read, and its error output.
    ensures decoded { DecodesSet base.now S.files S.reads S.faults store.old store.new O.written
        O.faults O.lacks out.old out.new result }
    // Whatever the files hold, bytes are only added.
    ensures added { Added (O.written out.old) (O.written out.new) (O.faults out.old)
        (O.faults out.new) (O.lacks out.old) (O.lacks out.new) }
    // At want of memory nothing was written and no page of Text was read, unless it was the sink that
    // lacked it.
    ensures memory { result ≡ Err fault.Memory → LacksEarly (S.reads store.old) (S.reads store.new)
        (sink_at O.written O.faults O.lacks out.old) (sink_at O.written O.faults O.lacks out.new) }
    ensures later { S.faults store.old ≤ S.faults store.new }
{
    decode_files(alloc, store, base, out)
}

// Writes the collection of the set under a base, and tells how each device stands then.
fn decode_files<S: Store, O: Sink>(
    alloc: Global,
    store: &mut S,
    base: &str,
    out: &mut O,
) -> Result<(), Fault>
    // Where the set stands for a collection, its bytes are written, or after a refusal a prefix.
    ensures content { (collection : List ℕ) → Stands (S.files store.old) base.now collection →
        AfterPut (O.written out.old) (O.written out.new) collection result }
    // Whatever the files hold, bytes are only added.
    ensures added { Added (O.written out.old) (O.written out.new) (O.faults out.old)
        (O.faults out.new) (O.lacks out.old) (O.lacks out.new) }
    ensures bounded { IsSome (S.files store.old) →
        WithinHead (S.files store.old) base.now (O.written out.old) (O.written out.new) }
    ensures silent { result ≡ Err fault.NotBuilt → O.written out.new ≡ O.written out.old }
    // The cause of each refusal.
    ensures cause { IfErr result (DecodeStops (Rose (S.faults store.old) (S.faults store.new))
        (Rose (O.faults out.old) (O.faults out.new)) (S.files store.old) base.now) }
    ensures not_built { IsSome (S.files store.old) →
        bytes_at (S.files store.old) (full_name base.now part.Head) ≡ [] →
        RefusedFor result fault.NotBuilt }
    ensures memory { result ≡ Err fault.Memory → LacksEarly (S.reads store.old) (S.reads store.new)
        (sink_at O.written O.faults O.lacks out.old) (sink_at O.written O.faults O.lacks out.new) }
    ensures complete { ForEach (Stands (S.files store.old) base.now)
        (λ _. DoneUnlessFails S.faults store.old store.new O.faults out.old out.new result) }
    // No file changes, and of the parts only the head, the models, the text and its places are read.
    ensures files { S.files store.new ≡ S.files store.old }
    ensures reads { (p : AnyPart) → 5 ≤ number p → S.reads store.new p ≡ S.reads store.old p }
    ensures later { S.faults store.old ≤ S.faults store.new }
{
    let loaded = match Head::load(store, base) {
        Ok(loaded) => loaded,
        Err(refusal) => return Err(Fault::from(refusal)),
    };
    let head = match loaded {
        Some(head) => head,
        None => return Err(Fault::NotBuilt),
    };
    match show_set::<S, O, TextReader<'_, S>>(alloc, store, base, &head, out) {
        Ok(()) => Ok(()),
        Err(refusal) => Err(Fault::from(refusal)),
    }
}

// Writes the collection of a set with this head. What reads the text is a parameter, so that nothing is seen of it here
// but what it promises.
fn show_set<'a, S: Store, O: Sink, T: LoadedText<'a, S> + Drop>(
    alloc: Global,
    store: &mut S,
    base: &'a str,
    head: &Head,
    out: &mut O,
) -> Result<(), ShowErr>
    requires words { head.now.words ≤ 2 ^ 22 }
    requires others { head.now.others ≤ 2 ^ 22 }
    ensures { ShowsSet head.now base.entry.now S.files S.reads S.faults store.old store.new
        O.written O.faults O.lacks out.old out.new result }
{
    let mut buffer = match ShowBuffer::new(alloc, head.collection) {
        Ok(buffer) => buffer,
        Err(_) => return Err(ShowErr::Part(PartErr::Memory)),
    };
    let mut text = match T::load(alloc, store, base, head) {
        Ok(text) => text,
        Err(refusal) => return Err(ShowErr::Part(refusal)),
    };
    show_documents(
        &mut text,
        store,
        head.documents,
        head.open_end,
        &mut buffer,
        out,
    )
}

//! The whole text of a set, and what it means.
//!
//! Nothing is trusted: a document is kept only once its own code was found in Text. At the end the parts that are read
//! so far mean one collection, or the set stands for none.
ghost use Rattle.std.specs.Prelude.{◌≡◌, ◌<◌, ◌≤◌, ◌^◌, IfOk, IsSome, OnErr, OnOk};
ghost use Rattle.mg_defs.specs.Heads.{IsWithin};
ghost use Rattle.mg_layout.specs.HeadAnswers.{fields_of};
ghost use Rattle.mg_layout.specs.Stands.{parts_at};
ghost use Rattle.mg_check_text.specs.Checking.{EndNumbers, EndsAt, FoundDocs, FoundSet, IsInRange, IsLoaded, WhereLoaded};
ghost use Rattle.mg_check_text.specs.Reads.{CanReadHeld, Compares, FindsText, KeepsPages, ReadsBy};

use crate::held::Held;
use crate::next_doc::{expect_place, next_doc};
use crate::progress::Progress;
use crate::set::Set;
use mg_check_parts::expect_used;
use mg_dev::{Bad, Part, PartErr, Store};
use mg_layout::Head;
use mg_model::{Stream, TextModel};
use mg_text::TextReader;
use std::alloc::{AllocError, Global};

// Where the flag of an open end stands in the head, and where the collection's size does.
const OPEN_END_AT: u64 = 28;

const COLLECTION_AT: u64 = 32;

// Reads as many documents as the head has.
fn read_docs<S: Store>(
    alloc: Global,
    store: &mut S,
    set: &Set<'_>,
    reader: &mut TextReader<'_, S>,
    held: &mut Held<'_, S>,
) -> Result<Progress, PartErr>
    requires { CanReadHeld reader.old (S.files store.old) set.now.base.now set.now.head.now
        held.old.text held.old.places }
    ensures pages { KeepsPages set.now.base.now (S.files store.new) held.new.text
        held.new.places }
    ensures range { IfOk result (λ p. IsInRange reader.old.code set.now.head.now p) }
    ensures all { IfOk result (λ p. p.documents ≡ set.now.head.now.documents) }
    ensures read { FindsText (IsSome (S.files store.old) →
        IfOk result (λ p. FoundDocs (parts_at (S.files store.old) set.now.base.now)
        set.now.head.now.version reader.old.code p))
        (WhereLoaded (S.files store.old) set.now.base.now set.now.head.now reader.old)
        set.now.base.now reader.old reader.new result S.files S.reads S.faults store.old
        store.new }
{
    let mut progress = match Progress::new(alloc, reader.model()) {
        Ok(progress) => progress,
        Err(_) => return Err(PartErr::Memory),
    };
    for _number in 0..set.head.documents {
        match next_doc(alloc, store, set, reader, held, &mut progress) {
            Ok(()) => {}
            Err(refusal) => return Err(refusal),
        }
    }
    Ok(progress)
}

// Sees that the documents take all of Text, and that the head's flag and size are those of what was read.
fn expect_numbers(head: &Head, progress: &Progress) -> Result<(), Bad>
    requires documents { progress.now.documents ≤ 2 ^ 24 }
    requires bytes { progress.now.bytes ≤ head.now.collection }
    requires collection { head.now.collection < 2 ^ 32 }
    requires last { progress.now.last ≤ progress.now.bytes }
    ensures are { OnOk result (EndNumbers head.now progress.now) }
    ensures other { OnErr result (EndNumbers head.now progress.now → ⊥) }
{
    if progress.place != head.text_bytes {
        return Err(Bad {
            part: Part::Text,
            at: 0,
            low: progress.place,
            high: progress.place,
            found: head.text_bytes,
        });
    }
    if head.open_end && progress.last == 0 {
        return Err(Bad {
            part: Part::Head,
            at: OPEN_END_AT,
            low: 0,
            high: 0,
            found: 1,
        });
    }
    let closed = progress.bytes + u64::from(progress.documents);
    let size = if head.open_end { closed - 1 } else { closed };
    if size != head.collection {
        return Err(Bad {
            part: Part::Head,
            at: COLLECTION_AT,
            low: size,
            high: size,
            found: head.collection,
        });
    }
    Ok(())
}

// Sees that nothing stands in Text behind the last document, that the last place is right, that the head's numbers are
// those of the documents, and that both codes are used as they are to be.
fn expect_end<S: Store>(
    alloc: Global,
    store: &mut S,
    set: &Set<'_>,
    model: &TextModel,
    held: &mut Held<'_, S>,
    progress: &Progress,
) -> Result<(), PartErr>
    requires pages { KeepsPages set.now.base.now (S.files store.old) held.old.text
        held.old.places }
    requires within { IsWithin (fields_of set.now.head.now) }
    requires range { IsInRange model.now set.now.head.now progress.now }
    ensures { Compares (EndsAt set.now.head.now model.now progress.now) set.now.base.now result
        S.files S.reads S.faults store.old store.new }
{
    match expect_numbers(set.head, progress) {
        Ok(()) => {}
        Err(bad) => return Err(PartErr::Bad(bad)),
    }
    match expect_place(store, set, held, progress.documents, progress.place) {
        Ok(()) => {}
        Err(refusal) => return Err(refusal),
    }
    let words = model.canon(Stream::Words);
    match expect_used(alloc, Part::Words, &progress.uses.words, words) {
        Ok(()) => {}
        Err(refusal) => return Err(refusal),
    }
    let others = model.canon(Stream::Others);
    match expect_used(alloc, Part::Nonwords, &progress.uses.others, others) {
        Ok(()) => Ok(()),
        Err(refusal) => Err(refusal),
    }
}

// Reads all of Text, and compares it with the pages that are kept.
fn read_held<S: Store>(
    alloc: Global,
    store: &mut S,
    set: &Set<'_>,
    reader: &mut TextReader<'_, S>,
    held: &mut Held<'_, S>,
) -> Result<(), PartErr>
    requires { CanReadHeld reader.old (S.files store.old) set.now.base.now set.now.head.now
        held.old.text held.old.places }
    ensures { FindsText (IsLoaded (S.files store.old) set.now.base.now set.now.head.now reader.old →
        OnOk result (FoundSet (S.files store.old) set.now.base.now set.now.head.now reader.old))
        (WhereLoaded (S.files store.old) set.now.base.now set.now.head.now reader.old)
        set.now.base.now reader.old reader.new result S.files S.reads S.faults store.old
        store.new }
{
    let progress = match read_docs(alloc, store, set, reader, held) {
        Ok(progress) => progress,
        Err(refusal) => return Err(refusal),
    };
    match expect_end(alloc, store, set, reader.model(), held, &progress) {
        Ok(()) => Ok(()),
        Err(refusal) => Err(refusal),
    }
}

/// Reads all of Text, and compares each document with its code and its place. Where it refuses a part, the set stands
/// for no collection; else Head, Words, Nonwords, Text and Places are those of one collection, that of the documents.
pub fn read_text<S: Store>(
    alloc: Global,
    store: &mut S,
    base: &str,
    head: &Head,
    reader: &mut TextReader<'_, S>,
) -> Result<(), PartErr>
    requires reads { ReadsBy reader.old (S.files store.old) head.now }
    ensures { FindsText (IsLoaded (S.files store.old) base.now head.now reader.old →
        OnOk result (FoundSet (S.files store.old) base.now head.now reader.old))
        (WhereLoaded (S.files store.old) base.now head.now reader.old) base.now
        reader.old reader.new result S.files S.reads S.faults store.old store.new }
{
    let set = Set { base, head };
    match Held::new(alloc, &set) {
        Ok(mut held) => read_held(alloc, store, &set, reader, &mut held),
        Err(AllocError) => Err(PartErr::Memory),
    }
}

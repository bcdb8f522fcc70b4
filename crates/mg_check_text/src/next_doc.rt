//! One document more of a text that nothing is known of.
ghost use Rattle.std.specs.Prelude.{◌≡◌, ◌≢◌, ◌+◌, ◌-◌, ◌*◌, ◌<◌, ◌≤◌, ◌^◌, Err, IfErr, IfOk, IsSome, OnOk, length};
ghost use Rattle.mg_dev.specs.Bads.{IsNotBad};
ghost use Rattle.mg_dev.specs.Moments.{Between};
ghost use Rattle.mg_defs.specs.CodedText.{coded_size};
ghost use Rattle.mg_defs.specs.Split.{IsDocument};
ghost use Rattle.mg_text.specs.Reading.{TextFits};
ghost use Rattle.mg_check_text.specs.Checking.{CodeStands, ForNextDoc, FoundMore, HasAdded, IsInRange, PlaceStands, StandsNext, WhereRead};
ghost use Rattle.mg_check_parts.specs.Refusals.{OnBad};
ghost use Rattle.mg_check_parts.specs.Decoding.{CanCode};
ghost use Rattle.mg_check_text.specs.Reads.{CanReadHeld, ComparesHeld, FindsText, KeepsPages, ReadsText};

use crate::held::{Held, expect_kept};
use crate::progress::Progress;
use crate::set::Set;
use mg_check_parts::code_doc;
use mg_dev::{Bad, FileRef, Part, PartErr, Store};
use mg_fields::{eight_bytes, four_bytes};
use mg_layout::Head;
use mg_model::TextModel;
use mg_text::{HeldDocument, TextReader};
use std::alloc::Global;

// The byte that closes a document.
const CLOSING: u8 = 2;

/// Sees that a place stands in Places as the one of this number, from 0.
pub(crate) fn expect_place<S: Store>(
    store: &mut S,
    set: &Set<'_>,
    held: &mut Held<'_, S>,
    number: u32,
    place: u64,
) -> Result<(), PartErr>
    requires pages { KeepsPages set.now.base.now (S.files store.old) held.old.text
        held.old.places }
    requires narrow { set.now.head.now.version ≡ 1 → place < 2 ^ 32 }
    ensures { ComparesHeld (PlaceStands set.now.head.now.version number place) set.now.base.now
        held.new.text held.new.places result S.files S.reads S.faults store.old store.new }
{
    let file = FileRef {
        base: set.base,
        part: Part::Places,
    };
    let number = u64::from(number);
    let compared = if set.head.version == 1 {
        let bytes = four_bytes(place as u32);
        expect_kept(store, &mut held.places, file, 4 * number, &bytes)
    } else {
        let bytes = eight_bytes(place);
        expect_kept(store, &mut held.places, file, 8 * number, &bytes)
    };
    match compared {
        Ok(_) => Ok(()),
        Err(refusal) => Err(refusal),
    }
}

// Refuses bytes that close a document before their end.
fn expect_document(doc: &[u8]) -> Result<(), PartErr>
    ensures document { OnOk result (IsDocument doc.now) }
    ensures other { OnBad result (IsDocument doc.now → ⊥) }
    ensures device { result ≢ Err PartErr.Device }
{
    if doc.contains(&CLOSING) {
        return Err(PartErr::Bad(Bad {
            part: Part::Text,
            at: 0,
            low: u64::from(CLOSING) + 1,
            high: 255,
            found: u64::from(CLOSING),
        }));
    }
    Ok(())
}

// Decodes the next document. It refuses text that tells of one that is longer than what the head leaves of its
// collection, or that closes within.
fn decode_next<S: Store>(
    store: &mut S,
    head: &Head,
    reader: &mut TextReader<'_, S>,
    held: &mut HeldDocument,
    progress: &Progress,
) -> Result<(), PartErr>
    requires fits { TextFits reader.old (S.files store.old) }
    requires bytes { progress.now.bytes ≤ head.now.collection }
    requires more { progress.now.documents < reader.old.documents }
    requires few { progress.now.documents < 2 ^ 32 - 1 }
    ensures document { OnOk result (IsDocument held.new.bytes.items) }
    ensures short { OnOk result (progress.now.bytes + length held.new.bytes.items
        ≤ head.now.collection) }
    ensures own { ForNextDoc reader.old (S.files store.old) head.now progress.now
        (λ doc. OnOk result (held.new.bytes.items ≡ doc)) }
    ensures never_bad { ForNextDoc reader.old (S.files store.old) head.now progress.now
        (λ _. IfErr result IsNotBad) }
    ensures text { Between S.files S.reads S.faults store.old store.new
        (ReadsText reader.old reader.new result) }
{
    held.set_most(head.collection - progress.bytes);
    match held.read(store, reader, progress.documents + 1) {
        Ok(()) => {}
        Err(refusal) => return Err(refusal),
    }
    expect_document(held.bytes())
}

// A piece of the document behind this place has no codeword.
fn unknown_piece(place: u64) -> PartErr
    ensures { result ≢ PartErr.Device }
{
    PartErr::Bad(Bad {
        part: Part::Text,
        at: place,
        low: 1,
        high: 1,
        found: 0,
    })
}

// Sees that the code of a document stands next in Text, and its place in Places; answers where the code ends.
fn expect_coded<S: Store>(
    store: &mut S,
    set: &Set<'_>,
    held: &mut Held<'_, S>,
    progress: &Progress,
    coded: &[u8],
) -> Result<u64, PartErr>
    requires pages { KeepsPages set.now.base.now (S.files store.old) held.old.text
        held.old.places }
    requires place { progress.now.place ≤ 2 ^ 60 }
    requires narrow { set.now.head.now.version ≡ 1 → progress.now.place < 2 ^ 32 }
    ensures end { IfOk result (λ end. end ≡ progress.now.place + length coded.now) }
    ensures compared { ComparesHeld (CodeStands set.now.head.now.version coded.now progress.now)
        set.now.base.now held.new.text held.new.places result S.files S.reads S.faults store.old
        store.new }
{
    let text = FileRef {
        base: set.base,
        part: Part::Text,
    };
    let end = match expect_kept(store, &mut held.text, text, progress.place, coded) {
        Ok(end) => end,
        Err(refusal) => return Err(refusal),
    };
    match expect_place(store, set, held, progress.documents, progress.place) {
        Ok(()) => Ok(end),
        Err(refusal) => Err(refusal),
    }
}

// Codes the document that is held, and adds it to what was read where its code stands next in Text and its place in
// Places.
fn add_doc<S: Store>(
    alloc: Global,
    store: &mut S,
    set: &Set<'_>,
    model: &TextModel,
    held: &mut Held<'_, S>,
    progress: &mut Progress,
) -> Result<(), PartErr>
    requires pages { KeepsPages set.now.base.now (S.files store.old) held.old.text
        held.old.places }
    requires document { IsDocument held.old.document.bytes.items }
    requires can { CanCode model.now held.old.document.bytes.items progress.old.uses }
    requires documents { progress.old.documents < 2 ^ 32 - 1 }
    requires bytes { progress.old.bytes < 2 ^ 32 }
    requires place { progress.old.place ≤ 2 ^ 60 }
    requires narrow { set.now.head.now.version ≡ 1 → progress.old.place < 2 ^ 32 }
    ensures compared { ComparesHeld (StandsNext set.now.head.now.version model.now
        held.old.document.bytes.items progress.old) set.now.base.now held.new.text held.new.places
        result S.files S.reads S.faults store.old store.new }
    ensures added { OnOk result (HasAdded model.now held.old.document.bytes.items progress.old
        progress.new) }
    ensures short { OnOk result (coded_size model.now held.old.document.bytes.items
        ≤ 12 * length held.old.document.bytes.items + 13) }
{
    let size = held.document.bytes().len() as u64;
    let coded = match code_doc(alloc, model, held.document.bytes(), &mut progress.uses) {
        Ok(Some(coded)) => coded,
        Ok(None) => return Err(unknown_piece(progress.place)),
        Err(_) => return Err(PartErr::Memory),
    };
    let end = match expect_coded(store, set, held, progress, coded.bytes()) {
        Ok(end) => end,
        Err(refusal) => return Err(refusal),
    };
    progress.documents += 1;
    progress.bytes += size;
    progress.last = size;
    progress.place = end;
    Ok(())
}

/// Reads one document more: it decodes the next one, codes it anew, and compares its code with Text and its place with
/// Places. Where one of them differs, the parts stand for no collection. After a refusal the progress is of no use.
pub(crate) fn next_doc<S: Store>(
    alloc: Global,
    store: &mut S,
    set: &Set<'_>,
    reader: &mut TextReader<'_, S>,
    held: &mut Held<'_, S>,
    progress: &mut Progress,
) -> Result<(), PartErr>
    requires can { CanReadHeld reader.old (S.files store.old) set.now.base.now set.now.head.now
        held.old.text held.old.places }
    requires more { progress.old.documents < set.now.head.now.documents }
    requires range { IsInRange reader.old.code set.now.head.now progress.old }
    ensures pages { KeepsPages set.now.base.now (S.files store.new) held.new.text
        held.new.places }
    ensures range { OnOk result (IsInRange reader.old.code set.now.head.now progress.new) }
    ensures count { OnOk result (progress.new.documents ≡ progress.old.documents + 1) }
    ensures read { FindsText (IsSome (S.files store.old) → OnOk result
        (FoundMore (S.files store.old) set.now.base.now set.now.head.now reader.old progress.old
        progress.new))
        (WhereRead (S.files store.old) set.now.base.now set.now.head.now reader.old progress.old)
        set.now.base.now reader.old reader.new result S.files S.reads S.faults store.old
        store.new }
{
    match decode_next(store, set.head, reader, &mut held.document, progress) {
        Ok(()) => {}
        Err(refusal) => return Err(refusal),
    }
    add_doc(alloc, store, set, reader.model(), held, progress)
}

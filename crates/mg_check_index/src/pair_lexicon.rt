//! A lexicon into a store that compares it, told by the store with which it compares.
ghost use Rattle.std.specs.Prelude.{◌≡◌, ◌+◌, codes};
ghost use Rattle.mg_dev.specs.Moments.{Between};
ghost use Rattle.mg_dev.specs.Names.{full_name};
ghost use Rattle.mg_dev.specs.declared.part.Part.TheVariants as part;
ghost use Rattle.mg_check_index.specs.InPair.{all_looks, looks_in, pair_files, set_name};
ghost use Rattle.mg_check_index.specs.PairCalls.{CanFinishTerms, CanPushTerm, FinishesTerms, SameReferences, StartsTerms, WritesTerm};

use crate::list_written::refusal_of;
use crate::pair_store::{PairStore, WrittenPair};
use crate::written_part::WrittenPart;
use mg_dev::{FileRef, Part, PartErr, Store};
use mg_layout::TermInfo;
use mg_lex::LexWriter;
use std::alloc::Global;

/// The base of the files that are written.
const BASE: &str = "w";

/// Lex and LexAt, of which nothing was written.
pub(crate) fn lexicon_pair<'b>(alloc: Global, base: &'b str) -> WrittenPair<'b>
    ensures lex { result.one.own.now ≡ codes "w.lex" }
    ensures lex_at { result.other.own.now ≡ codes "w.lexat" }
    ensures lex_of { set_name result.one ≡ full_name base.entry.now part.Lex }
    ensures lex_at_of { set_name result.other ≡ full_name base.entry.now part.LexAt }
    ensures from { result.one.from + result.other.from ≡ 0 }
{
    let strings = FileRef {
        base,
        part: Part::Lex,
    };
    let places = FileRef {
        base,
        part: Part::LexAt,
    };
    WrittenPair::new(
        WrittenPart::new(alloc, strings, 0, "w.lex"),
        WrittenPart::new(alloc, places, 0, "w.lexat"),
    )
}

// A writer of a lexicon, into a store that compares it.
fn start_into<S: Store>(
    alloc: Global,
    into: &mut PairStore<'_, '_, '_, S>,
) -> Result<LexWriter<'static>, PartErr>
    requires unread { all_looks (looks_in into.old.looks) ≡ 0 }
    ensures same { SameReferences into.old.store.ghost_name into.old.pair.ghost_name
        into.new.store.ghost_name into.new.pair.ghost_name }
    ensures started { Between S.files S.reads S.faults into.old.store.now into.new.store.now
        (StartsTerms into.old.pair.now into.new.pair.now result) }
{
    match LexWriter::start(alloc, into, BASE) {
        Ok(writer) => Ok(writer),
        Err(refusal) => Err(refusal_of(refusal)),
    }
}

// What stands of one term more, into a store that compares it.
fn push_into<S: Store>(
    into: &mut PairStore<'_, '_, '_, S>,
    writer: &mut LexWriter<'_>,
    term: &[u8],
    info: &TermInfo,
) -> Result<(), PartErr>
    requires unread { all_looks (looks_in into.old.looks) ≡ 0 }
    requires can { CanPushTerm writer.old
        (pair_files (S.files into.old.store.now) into.old.pair.now) term.now }
    ensures same { SameReferences into.old.store.ghost_name into.old.pair.ghost_name
        into.new.store.ghost_name into.new.pair.ghost_name }
    ensures written { Between S.files S.reads S.faults into.old.store.now into.new.store.now
        (WritesTerm term.now info.now writer.old writer.new into.old.pair.now into.new.pair.now
        result) }
{
    match writer.push(into, term, info) {
        Ok(()) => Ok(()),
        Err(refusal) => Err(refusal_of(refusal)),
    }
}

// What a writer holds, into a store that compares it.
fn finish_into<S: Store>(
    into: &mut PairStore<'_, '_, '_, S>,
    writer: &mut LexWriter<'_>,
) -> Result<(), PartErr>
    requires unread { all_looks (looks_in into.old.looks) ≡ 0 }
    requires can { CanFinishTerms writer.old
        (pair_files (S.files into.old.store.now) into.old.pair.now) into.old.pair.now }
    ensures same { SameReferences into.old.store.ghost_name into.old.pair.ghost_name
        into.new.store.ghost_name into.new.pair.ghost_name }
    ensures finished { Between S.files S.reads S.faults into.old.store.now into.new.store.now
        (FinishesTerms writer.old into.old.pair.now into.new.pair.now result) }
{
    match writer.finish(into) {
        Ok(()) => Ok(()),
        Err(refusal) => Err(refusal_of(refusal)),
    }
}

/// A writer of a lexicon, which is compared with two parts as it is written.
pub(crate) fn start_terms<S: Store>(
    alloc: Global,
    store: &mut S,
    pair: &mut WrittenPair<'_>,
) -> Result<LexWriter<'static>, PartErr>
    ensures started { Between S.files S.reads S.faults store.old store.new
        (StartsTerms pair.old pair.new result) }
{
    let mut into = PairStore {
        store,
        pair,
        looks: [0; 14],
    };
    start_into(alloc, &mut into)
}

/// Writes what stands of one term more, and compares it.
pub(crate) fn push_term<S: Store>(
    store: &mut S,
    pair: &mut WrittenPair<'_>,
    writer: &mut LexWriter<'_>,
    term: &[u8],
    info: &TermInfo,
) -> Result<(), PartErr>
    requires can { CanPushTerm writer.old (pair_files (S.files store.old) pair.old) term.now }
    ensures written { Between S.files S.reads S.faults store.old store.new
        (WritesTerm term.now info.now writer.old writer.new pair.old pair.new result) }
{
    let mut into = PairStore {
        store,
        pair,
        looks: [0; 14],
    };
    push_into(&mut into, writer, term, info)
}

/// Writes what a writer holds, and compares it.
pub(crate) fn finish_terms<S: Store>(
    store: &mut S,
    pair: &mut WrittenPair<'_>,
    writer: &mut LexWriter<'_>,
) -> Result<(), PartErr>
    requires can { CanFinishTerms writer.old (pair_files (S.files store.old) pair.old) pair.old }
    ensures finished { Between S.files S.reads S.faults store.old store.new
        (FinishesTerms writer.old pair.old pair.new result) }
{
    let mut into = PairStore {
        store,
        pair,
        looks: [0; 14],
    };
    finish_into(&mut into, writer)
}

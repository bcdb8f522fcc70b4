//! The index of a set: lists, skip entries and lexicon against those of its text.
//!
//! The text is read once for each range of terms. The range's lists and the lexicon of its terms are written anew, and
//! Post, Skip, Lex and LexAt are compared with them as they are written.
ghost use Rattle.std.specs.Prelude.{◌≡◌, ◌<◌, ◌+◌, IfErr, IfOk, length};
ghost use Rattle.mg_dev.specs.Bads.{IsNotBad};
ghost use Rattle.mg_dev.specs.Moments.{Between};
ghost use Rattle.mg_check_text.specs.Reads.{HasTerms, ReadsText};
ghost use Rattle.mg_check.specs.IndexedText.{AllCompared, CanIndex, ForIndex, IndexCompared, NextCompared};
ghost use Rattle.mg_check_index.specs.Listing.{AreListsOf, CanCompareIn, IsRange, IsStart};

use crate::postings::read_postings;
use mg_check_index::{
    Compared, Indexed, RangeLists, are_sizes, check_lists, expect_ends, range_end,
};
use mg_defs::DOCUMENTS;
use mg_dev::{Bad, Part, PartErr, Store};
use mg_text::TextReader;
use std::alloc::{AllocError, Global};

// The numbers of documents are not those of a collection, which has some for each term.
fn other_sizes(documents: u32) -> Bad {
    Bad {
        part: Part::Text,
        at: 0,
        low: 1,
        high: u64::from(documents),
        found: 0,
    }
}

// Reads the text, and answers the lists of the range that begins at a term.
fn read_range<S: Store>(
    alloc: Global,
    store: &mut S,
    reader: &mut TextReader<'_, S>,
    of: &Indexed<'_>,
    first: u32,
) -> Result<RangeLists, PartErr>
    requires index { CanIndex reader.old (S.files store.old) of.now }
    requires more { first < length of.now.table.now.terms }
    ensures first { IfOk result (λ lists. lists.first ≡ first) }
    ensures range { IfOk result (λ lists. IsRange lists of.now) }
    ensures held { ForIndex reader.old (S.files store.old) of.now
        (λ collection. IfOk result (AreListsOf of.now collection)) }
    ensures never_bad { ForIndex reader.old (S.files store.old) of.now
        (λ _. IfErr result IsNotBad) }
    ensures text { Between S.files S.reads S.faults store.old store.new
        (ReadsText reader.old reader.new result) }
{
    let end = range_end(of.docs, first);
    let mut lists = match RangeLists::new(alloc, of.docs, first, end, of.occurrences) {
        Ok(lists) => lists,
        Err(AllocError) => return Err(PartErr::Memory),
    };
    match read_postings(alloc, store, reader, of, &mut lists) {
        Ok(()) => Ok(lists),
        Err(refusal) => Err(refusal),
    }
}

// Sees that Post and Skip go on with the lists of the range that begins at a term. Answers the term behind the range.
fn check_range<S: Store>(
    alloc: Global,
    store: &mut S,
    reader: &mut TextReader<'_, S>,
    of: &Indexed<'_>,
    first: u32,
    compared: &mut Compared<'_>,
) -> Result<u32, PartErr>
    requires index { CanIndex reader.old (S.files store.old) of.now }
    requires more { first < length of.now.table.now.terms }
    requires can { CanCompareIn (S.files store.old) of.now first compared.old }
    ensures next { Between S.files S.reads S.faults store.old store.new
        (NextCompared reader.old reader.new of.now first compared.old compared.new result) }
{
    let lists = match read_range(alloc, store, reader, of, first) {
        Ok(lists) => lists,
        Err(refusal) => return Err(refusal),
    };
    match check_lists(alloc, store, of, &lists, compared) {
        Ok(()) => Ok(first + lists.count() as u32),
        Err(refusal) => Err(refusal),
    }
}

// Sees that Post and Skip begin with the lists of all terms, range by range.
fn check_ranges<S: Store>(
    alloc: Global,
    store: &mut S,
    reader: &mut TextReader<'_, S>,
    of: &Indexed<'_>,
    compared: &mut Compared<'_>,
) -> Result<(), PartErr>
    requires index { CanIndex reader.old (S.files store.old) of.now }
    requires can { CanCompareIn (S.files store.old) of.now 0 compared.old }
    ensures all { Between S.files S.reads S.faults store.old store.new
        (AllCompared reader.old reader.new of.now compared.old compared.new result) }
{
    let terms = of.table.count();
    let mut first = 0;
    while first < terms {
        match check_range(alloc, store, reader, of, first, compared) {
            Ok(next) => first = next,
            Err(refusal) => return Err(refusal),
        }
    }
    Ok(())
}

// The same where the numbers of documents may be those of a collection, and nothing was compared.
fn compare_index<S: Store>(
    alloc: Global,
    store: &mut S,
    reader: &mut TextReader<'_, S>,
    of: &Indexed<'_>,
    compared: &mut Compared<'_>,
) -> Result<(), PartErr>
    requires index { CanIndex reader.old (S.files store.old) of.now }
    requires start { IsStart (S.files store.old) of.now.base.now compared.old }
    ensures index { Between S.files S.reads S.faults store.old store.new
        (IndexCompared reader.old reader.new of.now result) }
{
    match check_ranges(alloc, store, reader, of, compared) {
        Ok(()) => {}
        Err(refusal) => return Err(refusal),
    }
    match expect_ends(store, of.base, compared.places) {
        Ok(()) => {}
        Err(refusal) => return Err(refusal),
    }
    compared.lexicon.check(store, of.base)
}

// The same where nothing was begun.
fn check_sized<S: Store>(
    alloc: Global,
    store: &mut S,
    reader: &mut TextReader<'_, S>,
    of: &Indexed<'_>,
) -> Result<(), PartErr>
    requires index { CanIndex reader.old (S.files store.old) of.now }
    ensures index { Between S.files S.reads S.faults store.old store.new
        (IndexCompared reader.old reader.new of.now result) }
{
    let mut compared = match Compared::start(alloc, store, of.base) {
        Ok(compared) => compared,
        Err(refusal) => return Err(refusal),
    };
    compare_index(alloc, store, reader, of, &mut compared)
}

/// Sees that Post, Skip, Lex and LexAt are the index of the collection whose text is read, where so many documents have
/// each of its terms. Numbers that no collection has are refused too.
pub(crate) fn check_index<S: Store>(
    alloc: Global,
    store: &mut S,
    reader: &mut TextReader<'_, S>,
    of: &Indexed<'_>,
) -> Result<(), PartErr>
    requires text { HasTerms reader.old (S.files store.old) of.now.table.now of.now.documents }
    ensures index { Between S.files S.reads S.faults store.old store.new
        (IndexCompared reader.old reader.new of.now result) }
{
    if of.documents > DOCUMENTS || !are_sizes(of.docs, of.table.count(), of.documents) {
        return Err(PartErr::Bad(other_sizes(of.documents)));
    }
    check_sized(alloc, store, reader, of)
}

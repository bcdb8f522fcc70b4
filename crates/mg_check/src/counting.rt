//! The terms of the text: its weights and its runs, and how many documents have each term.
//!
//! The text is read a second time. Of each document the terms are counted, which gives its weight, one more for each of
//! its terms, and its occurrences for the runs. So one reading tells whether Weights and Run are those of the collection.
ghost use Rattle.std.specs.Prelude.{◌<◌, ◌≤◌, ◌+◌, ◌-◌, ◌^◌, IfOk, OnOk};
ghost use Rattle.mg_dev.specs.Moments.{Between};
ghost use Rattle.mg_text.specs.Reading.{WhereTextStands};
ghost use Rattle.mg_check_text.specs.Reads.{HasTerms, ReadsText};
ghost use Rattle.mg_check_parts.specs.Refusals.{WhereBad};
ghost use Rattle.mg_check_index.specs.Counting.{AreOwn};
ghost use Rattle.mg_check.specs.CountedText.{DocumentsTallied, IsCountOf, IsTallyOf, TalliedText};
ghost use Rattle.mg_check.specs.Rest.{RefutesTerms};
ghost use Rattle.mg_defs.specs.Limits.{least_cap, greatest_cap};

use mg_check_index::Tally;
use mg_check_parts::WordTable;
use mg_check_text::TermReader;
use mg_dev::{PartErr, Store};
use mg_text::TextReader;
use std::alloc::{AllocError, Global};

/// The base of a set, the terms of its text, how many occurrences go to a run, and how many documents there are.
#[derive(Drop)]
pub(crate) struct CountedSet<'t> {
    pub(crate) base: &'t str,
    pub(crate) table: &'t WordTable,
    pub(crate) cap: u32,
    pub(crate) documents: u32,
}

/// What the text tells of the terms of a collection.
#[derive(Drop)]
pub(crate) struct Counts {
    /// How many documents have each term.
    pub(crate) docs: Vec<u32>,
    /// How many occurrences there are.
    pub(crate) occurrences: u64,
}

// Reads the document behind so many, and takes its terms.
fn count_document<S: Store>(
    store: &mut S,
    reader: &mut TextReader<'_, S>,
    table: &WordTable,
    before: u32,
    terms: &mut TermReader,
    tally: &mut Tally<'_>,
) -> Result<(), PartErr>
    requires text { HasTerms reader.old (S.files store.old) table.now reader.old.documents }
    requires within { before < reader.old.documents }
    requires few { before < 2 ^ 32 - 1 }
    requires tallied { TalliedText tally.old (S.files store.old) table.now.terms before reader.old }
    ensures tallied { Between S.files S.reads S.faults store.old store.new
        (DocumentsTallied reader.old reader.new table.now.terms (before + 1) tally.old tally.new
        result) }
{
    let number = before + 1;
    match terms.read(store, reader, table, number) {
        Ok(()) => {}
        Err(refusal) => return Err(refusal),
    }
    tally.add(store, number, terms.terms())
}

// Reads all documents, and takes their terms.
fn count_documents<S: Store>(
    store: &mut S,
    reader: &mut TextReader<'_, S>,
    table: &WordTable,
    documents: u32,
    terms: &mut TermReader,
    tally: &mut Tally<'_>,
) -> Result<(), PartErr>
    requires text { HasTerms reader.old (S.files store.old) table.now documents }
    requires tallied { TalliedText tally.old (S.files store.old) table.now.terms 0 reader.old }
    ensures tallied { Between S.files S.reads S.faults store.old store.new
        (DocumentsTallied reader.old reader.new table.now.terms documents tally.old tally.new
        result) }
{
    for before in 0..documents {
        match count_document(store, reader, table, before, terms, tally) {
            Ok(()) => {}
            Err(refusal) => return Err(refusal),
        }
    }
    Ok(())
}

// Reads all documents into a tally of none, and compares what is left of its parts.
fn count_text<S: Store>(
    alloc: Global,
    store: &mut S,
    reader: &mut TextReader<'_, S>,
    table: &WordTable,
    documents: u32,
    tally: &mut Tally<'_>,
) -> Result<(), PartErr>
    requires text { HasTerms reader.old (S.files store.old) table.now documents }
    requires tallied { TalliedText tally.old (S.files store.old) table.now.terms 0 reader.old }
    ensures tallied { WhereTextStands reader.old (S.files store.old)
        (λ text. OnOk result (IsTallyOf tally.old tally.new (S.files store.old) text)) }
    ensures other { WhereTextStands reader.old (S.files store.old)
        (λ text. WhereBad (AreOwn tally.old (S.files store.old) text → ⊥) result) }
    ensures text { Between S.files S.reads S.faults store.old store.new
        (ReadsText reader.old reader.new result) }
{
    let mut terms = match TermReader::new(alloc) {
        Ok(terms) => terms,
        Err(AllocError) => return Err(PartErr::Memory),
    };
    match count_documents(store, reader, table, documents, &mut terms, tally) {
        Ok(()) => {}
        Err(refusal) => return Err(refusal),
    }
    tally.finish(store)
}

/// Reads the text once, and compares Weights and Run with what its documents have, in runs of so many occurrences.
/// Where the text is that of a collection, it tells how many documents have each of its terms, and how many occurrences
/// there are.
pub(crate) fn check_terms<S: Store>(
    alloc: Global,
    store: &mut S,
    reader: &mut TextReader<'_, S>,
    of: &CountedSet<'_>,
) -> Result<Counts, PartErr>
    requires text { HasTerms reader.old (S.files store.old) of.now.table.now of.now.documents }
    requires least { least_cap ≤ of.now.cap }
    requires most { of.now.cap ≤ greatest_cap }
    ensures counted { WhereTextStands reader.old (S.files store.old)
        (λ text. IfOk result (IsCountOf of.now.base.now (S.files store.old) of.now.cap text)) }
    ensures other { WhereTextStands reader.old (S.files store.old)
        (RefutesTerms (S.files store.old) of.now.base.now of.now.cap result) }
    ensures text { Between S.files S.reads S.faults store.old store.new
        (ReadsText reader.old reader.new result) }
{
    let mut tally = match Tally::new(alloc, of.base, of.table.count(), of.cap) {
        Ok(tally) => tally,
        Err(AllocError) => return Err(PartErr::Memory),
    };
    match count_text(alloc, store, reader, of.table, of.documents, &mut tally) {
        Ok(()) => {}
        Err(refusal) => return Err(refusal),
    }
    let occurrences = tally.occurrences();
    Ok(Counts {
        docs: tally.docs(),
        occurrences,
    })
}

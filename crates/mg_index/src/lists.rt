//! All lists, the lexicon, and the sums of squared weights, from the postings that a merge has left.
//!
//! Postings come by term and then by document. So list by list is written as they come, and beside it
//! what the lexicon tells of its term. What a posting adds to the weight of its document goes into the
//! document's sum at once: no list is kept.
ghost use Rattle.std.specs.Prelude.{◌≡◌, ◌<◌, ◌≤◌, ◌+◌, ◌^◌, IfOk, List, length, replicate, slice_index};
ghost use Rattle.std.specs.Cmp.Lexicographic.{slice_cmp};
ghost use Rattle.std.specs.List.Sorted.{IsStrictlySortedBy};
ghost use Rattle.std.specs.Ordering.{nat_cmp};
ghost use Rattle.mg_dev.specs.Moments.{Between};
ghost use Rattle.mg_defs.specs.declared.TermPosting.{TermPosting};
ghost use Rattle.mg_runs.specs.Left.{IsMerging};
ghost use Rattle.mg_index.specs.Each.{RefusedUnless};
ghost use Rattle.mg_index.specs.ListEnds.{AreBegun, CanEnd, EndsWriters, IndexStep, TermsStep};
ghost use Rattle.mg_index.specs.Listed.{CanIndexTo, ListsAreLeft, NothingLeft, ToIndex};
ghost use Rattle.mg_index.specs.Listing.{AreListSizes};
ghost use Rattle.mg_index.specs.Steps.{MergeLook, PutStep};
ghost use Rattle.mg_index.specs.Written.{OfLists};

use crate::one_list::{stray, write_list};
use mg_dev::{Fault, PutErr, Store};
use mg_laws::squares_fit;
use mg_layout::TermInfo;
use mg_lex::{LexWriter, lexicon_has_its_terms, terms_stay};
use mg_model::TermTable;
use mg_post::{ListWriter, lists_stay};
use mg_runs::{Merge, runs_stay};
use std::alloc::Global;

/// The bytes of Post, and the number of skip entries.
#[derive(Drop)]
pub struct Sizes {
    pub post_bytes: u64,
    pub skip_count: u64,
}

/// The writers of lists and of the lexicon of one set.
#[derive(Drop)]
struct IndexWriter<'a> {
    lists: ListWriter<'a>,
    lex: LexWriter<'a>,
}

/// The terms of a set, and how many documents have each.
#[derive(Drop)]
pub struct Terms<'t> {
    pub table: &'t TermTable,
    pub docs: &'t [u32],
}

impl<'t> Terms<'t> {
    // How many documents have a term.
    fn docs_of(&self, number: u32) -> u32
        requires { number < length self.now.docs.now }
        ensures { result ≡ slice_index self.now.docs.now number }
    {
        self.docs[number as usize]
    }
}

/// Writers of lists among so many documents and of their lexicon, whose parts are emptied.
fn start_writers<'a, S: Store>(
    alloc: Global,
    store: &mut S,
    base: &'a str,
    all: u32,
) -> Result<IndexWriter<'a>, PutErr>
    requires all { all ≤ 2 ^ 24 }
    ensures begun { IfOk result (AreBegun base.entry.now all (S.files store.new)) }
    ensures step { Between S.files S.reads S.faults store.old store.new
        (PutStep OfLists base.entry.now result) }
{
    let lists = match ListWriter::start(alloc, store, base, all) {
        Ok(lists) => lists,
        Err(refusal) => return Err(refusal),
    };
    lists_stay();
    match LexWriter::start(alloc, store, base) {
        Ok(lex) => Ok(IndexWriter { lists, lex }),
        Err(refusal) => Err(refusal),
    }
}

/// Writes the list of a term, and what the lexicon tells of it.
fn write_term<S: Store>(
    store: &mut S,
    merge: &mut Merge<'_>,
    writer: &mut IndexWriter<'_>,
    sums: &mut Vec<u64>,
    terms: &Terms<'_>,
    number: u32,
) -> Result<(), Fault>
    requires can { CanIndexTo number terms.now merge.old writer.old sums.old (S.files store.old) }
    requires sizes { AreListSizes terms.now.docs.now (length terms.now.table.now.terms)
        writer.old.lists.all }
    requires number { number < length terms.now.table.now.terms }
    requires few { length terms.now.table.now.terms ≤ 2 ^ 22 }
    requires rising { IsStrictlySortedBy (slice_cmp nat_cmp) terms.now.table.now.terms }
    ensures { Between S.files S.reads S.faults store.old store.new
        (TermsStep number (number + 1) terms.now merge.old merge.new writer.old writer.new
        sums.old sums.new result) }
{
    let docs = terms.docs_of(number);
    let at = match write_list(store, merge, &mut writer.lists, sums, number, docs) {
        Ok(at) => at,
        Err(refusal) => return Err(refusal),
    };
    let info = TermInfo {
        number,
        docs,
        post_at: at.0,
        skip_at: at.1,
    };
    runs_stay();
    lists_stay();
    terms_stay();
    match writer.lex.push(store, terms.table.term(number), &info) {
        Ok(()) => Ok(()),
        Err(refusal) => Err(Fault::of_store(refusal)),
    }
}

/// Writes the lists of all terms, and what the lexicon tells of them.
fn write_terms<S: Store>(
    store: &mut S,
    merge: &mut Merge<'_>,
    writer: &mut IndexWriter<'_>,
    sums: &mut Vec<u64>,
    terms: &Terms<'_>,
) -> Result<(), Fault>
    requires can { CanIndexTo 0 terms.now merge.old writer.old sums.old (S.files store.old) }
    requires sizes { AreListSizes terms.now.docs.now (length terms.now.table.now.terms)
        writer.old.lists.all }
    ensures { Between S.files S.reads S.faults store.old store.new
        (TermsStep 0 (length terms.now.table.now.terms) terms.now merge.old merge.new writer.old
        writer.new sums.old sums.new result) }
{
    for number in 0..terms.table.count() {
        match write_term(store, merge, writer, sums, terms, number) {
            Ok(()) => {}
            Err(refusal) => return Err(refusal),
        }
    }
    Ok(())
}

/// Sees that no posting is left.
fn expect_end<S: Store>(store: &mut S, merge: &mut Merge<'_>) -> Result<(), Fault>
    requires left { (left : List TermPosting) × IsMerging merge.old (S.files store.old) left }
    ensures refused { RefusedUnless S.faults store.old store.new
        (NothingLeft merge.old (S.files store.old)) result }
    ensures looked { Between S.files S.reads S.faults store.old store.new
        (MergeLook merge.old merge.new) }
{
    match merge.next(store) {
        Ok(None) => Ok(()),
        Ok(Some(_)) => Err(stray(1, 0, 0)),
        Err(refusal) => Err(Fault::from(refusal)),
    }
}

/// Writes what both writers hold.
fn finish<S: Store>(store: &mut S, writer: &mut IndexWriter<'_>) -> Result<Sizes, PutErr>
    requires { CanEnd writer.old (S.files store.old) }
    ensures { Between S.files S.reads S.faults store.old store.new
        (EndsWriters writer.old result) }
{
    writer.lex.finish(store)?;
    lists_stay();
    lexicon_has_its_terms();
    let (post_bytes, skip_count) = writer.lists.finish(store)?;
    Ok(Sizes {
        post_bytes,
        skip_count,
    })
}

/// Writes all lists and the lexicon, and sees that no posting is left.
fn write_index<S: Store>(
    store: &mut S,
    merge: &mut Merge<'_>,
    writer: &mut IndexWriter<'_>,
    sums: &mut Vec<u64>,
    terms: &Terms<'_>,
) -> Result<Sizes, Fault>
    requires can { CanIndexTo 0 terms.now merge.old writer.old sums.old (S.files store.old) }
    requires sizes { AreListSizes terms.now.docs.now (length terms.now.table.now.terms)
        writer.old.lists.all }
    ensures { Between S.files S.reads S.faults store.old store.new
        (IndexStep (ToIndex terms.now merge.old writer.old sums.old (S.files store.old))
        terms.now.docs.now merge.old.base merge.old merge.new sums.new result) }
{
    match write_terms(store, merge, writer, sums, terms) {
        Ok(()) => {}
        Err(refusal) => return Err(refusal),
    }
    match expect_end(store, merge) {
        Ok(()) => {}
        Err(refusal) => return Err(refusal),
    }
    match finish(store, writer) {
        Ok(sizes) => Ok(sizes),
        Err(refusal) => Err(Fault::of_store(refusal)),
    }
}

/// Writes the list of each term, and what the lexicon tells of it, and adds the squared weights of
/// the postings to the sums of their documents.
pub fn write_lists<S: Store>(
    alloc: Global,
    store: &mut S,
    base: &str,
    merge: &mut Merge<'_>,
    terms: &Terms<'_>,
    sums: &mut Vec<u64>,
) -> Result<Sizes, Fault>
    requires base { merge.old.base ≡ base.now }
    requires sizes { AreListSizes terms.now.docs.now (length terms.now.table.now.terms)
        (length sums.old.items) }
    requires left { (left : List TermPosting) × IsMerging merge.old (S.files store.old) left }
    requires zero { sums.old.items ≡ replicate (length sums.old.items) 0 }
    ensures { Between S.files S.reads S.faults store.old store.new
        (IndexStep (ListsAreLeft terms.now sums.old merge.old (S.files store.old))
        terms.now.docs.now base.now merge.old merge.new sums.new result) }
{
    let all = sums.len() as u32;
    let mut writer = match start_writers(alloc, store, base, all) {
        Ok(writer) => writer,
        Err(refusal) => return Err(Fault::of_store(refusal)),
    };
    runs_stay();
    squares_fit();
    write_index(store, merge, &mut writer, sums, terms)
}

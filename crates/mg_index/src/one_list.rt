//! The list of one term, from the postings that a merge has left.
//!
//! A store that tells nothing may give back any bytes. So each posting that is read is tested: it is
//! one of the term, of a later document than the one before, and counts at least 1. Over runs that
//! are those that were written no test fails.
ghost use Rattle.std.specs.Prelude.{◌≡◌, ◌<◌, ◌≤◌, ◌+◌, ◌^◌, List, length, drop, IfOk, OnOk};
ghost use Rattle.mg_dev.specs.Faults.{IsDamagedPart};
ghost use Rattle.mg_dev.specs.Moments.{Between};
ghost use Rattle.mg_defs.specs.declared.Posting.{Posting};
ghost use Rattle.mg_defs.specs.declared.TermPosting.{TermPosting};
ghost use Rattle.mg_defs.specs.Lists.{Follows};
ghost use Rattle.mg_post.specs.Writing.{ListStep as WriterStep, Pushed, Took, posting_of};
ghost use Rattle.mg_runs.specs.Left.{IsMerging};
ghost use Rattle.mg_index.specs.Each.{RefusedUnless};
ghost use Rattle.mg_index.specs.ListEnds.{ListStep, TakeStep};
ghost use Rattle.mg_index.specs.Listed.{ForFirstLeft, ListTakes, SumsTake};
ghost use Rattle.mg_index.specs.Listing.{CanList, HasNext};
ghost use Rattle.mg_index.specs.Steps.{MergeLook};

use mg_defs::TermPosting;
use mg_dev::{Bad, Fault, Part, PutErr, Store, What};
use mg_fixed::doc_term_weight;
use mg_post::{ListWriter, lists_stay};
use mg_runs::{Merge, runs_stay};

/// The runs are not those that were written: so much was found where low to high was to stand.
pub(crate) fn stray(found: u32, low: u32, high: u32) -> Fault
    requires { low ≤ found → high < found }
    ensures { IsDamagedPart result }
{
    Fault::Damaged(Bad {
        part: Part::Run,
        at: 0,
        low: u64::from(low),
        high: u64::from(high),
        found: u64::from(found),
    })
}

/// The next posting, which is one of this term, in a document after the last one.
fn next_posting<S: Store>(
    store: &mut S,
    merge: &mut Merge<'_>,
    number: u32,
    last: u32,
    all: u32,
) -> Result<TermPosting, Fault>
    requires left { (left : List TermPosting) × IsMerging merge.old (S.files store.old) left }
    requires last { last ≤ 2 ^ 24 }
    ensures left { (left : List TermPosting) → IsMerging merge.old (S.files store.old) left →
        OnOk result (IsMerging merge.new (S.files store.new) (drop 1 left)) }
    ensures told { ForFirstLeft merge.old (S.files store.old)
        (λ p. IfOk result (λ posting. posting ≡ p)) }
    ensures term { IfOk result (λ posting. posting.term ≡ number) }
    ensures follows { IfOk result (λ posting.
        Follows all last (posting_of posting.doc posting.count)) }
    ensures refused { RefusedUnless S.faults store.old store.new
        (HasNext number all last merge.old (S.files store.old)) result }
    ensures looked { Between S.files S.reads S.faults store.old store.new
        (MergeLook merge.old merge.new) }
{
    let posting = match merge.next(store) {
        Ok(Some(posting)) => posting,
        Ok(None) => return Err(stray(0, 1, 1)),
        Err(refusal) => return Err(Fault::from(refusal)),
    };
    if posting.term != number {
        return Err(stray(posting.term, number, number));
    }
    if posting.doc <= last || posting.doc > all {
        return Err(stray(posting.doc, last + 1, all));
    }
    if posting.count == 0 {
        return Err(stray(0, 1, u32::MAX));
    }
    Ok(posting)
}

/// Adds the squared weight of so many occurrences in a document to the document's sum.
fn add_square(sums: &mut Vec<u64>, doc: u32, count: u32)
    requires first { 1 ≤ doc }
    requires within { doc ≤ length sums.old.items }
    requires some { 1 ≤ count }
    ensures summed { SumsTake sums.old sums.new (posting_of doc count) }
    ensures each { length sums.new.items ≡ length sums.old.items }
{
    let weight = u64::from(doc_term_weight(count));
    let at = (doc - 1) as usize;
    sums[at] = sums[at].saturating_add(weight * weight);
}

/// One posting more into the list that was begun, and its square into the sum of its document.
fn write_posting<S: Store>(
    store: &mut S,
    lists: &mut ListWriter<'_>,
    sums: &mut Vec<u64>,
    posting: TermPosting,
) -> Result<(), PutErr>
    requires took { (done : List (List Posting)) × (ps : List Posting)
        × Took lists.old (S.files store.old) done ps }
    requires each { length sums.old.items ≡ lists.old.all }
    requires more { lists.old.pushed < lists.old.docs }
    requires total { lists.old.total < 2 ^ 32 }
    requires follows { Follows lists.old.all lists.old.last (posting_of posting.doc posting.count) }
    ensures took { OnOk result (ListTakes lists.old lists.new (S.files store.old)
        (S.files store.new) (posting_of posting.doc posting.count)) }
    ensures summed { OnOk result (SumsTake sums.old sums.new
        (posting_of posting.doc posting.count)) }
    ensures pushed { OnOk result (Pushed lists.old lists.new posting.doc) }
    ensures each { length sums.new.items ≡ length sums.old.items }
    ensures step { Between S.files S.reads S.faults store.old store.new
        (WriterStep lists.old lists.new result) }
{
    lists.push(store, posting.doc, posting.count)?;
    add_square(sums, posting.doc, posting.count);
    Ok(())
}

/// Takes the next posting of a term into its list, and answers its document.
fn take_posting<S: Store>(
    store: &mut S,
    merge: &mut Merge<'_>,
    lists: &mut ListWriter<'_>,
    sums: &mut Vec<u64>,
    number: u32,
    last: u32,
) -> Result<u32, Fault>
    requires can { CanList merge.old lists.old sums.old.items (S.files store.old) }
    requires last { lists.old.last ≡ last }
    requires more { lists.old.pushed < lists.old.docs }
    requires total { lists.old.total < 2 ^ 32 }
    ensures step { Between S.files S.reads S.faults store.old store.new
        (TakeStep 1 number merge.old merge.new lists.old lists.new sums.old sums.new result) }
    ensures last { IfOk result (λ doc. lists.new.last ≡ doc) }
{
    let all = sums.len() as u32;
    let posting = next_posting(store, merge, number, last, all)?;
    runs_stay();
    match write_posting(store, lists, sums, posting) {
        Ok(()) => Ok(posting.doc),
        Err(refusal) => Err(Fault::of_store(refusal)),
    }
}

/// Takes so many postings of a term into its list.
fn take_postings<S: Store>(
    store: &mut S,
    merge: &mut Merge<'_>,
    lists: &mut ListWriter<'_>,
    sums: &mut Vec<u64>,
    number: u32,
    docs: u32,
) -> Result<(), Fault>
    requires can { CanList merge.old lists.old sums.old.items (S.files store.old) }
    requires docs { lists.old.docs ≡ docs }
    requires none { lists.old.pushed ≡ 0 }
    requires last { lists.old.last ≡ 0 }
    requires total { lists.old.total + docs ≤ 2 ^ 32 }
    ensures { Between S.files S.reads S.faults store.old store.new
        (TakeStep docs number merge.old merge.new lists.old lists.new sums.old sums.new result) }
{
    let mut last = 0;
    for _ in 0..docs {
        last = take_posting(store, merge, lists, sums, number, last)?;
    }
    Ok(())
}

/// Writes the list of a term, which so many documents have. Answers the byte of Post where it begins,
/// and the number of its first skip entry. A term that no document has was counted otherwise before.
pub(crate) fn write_list<S: Store>(
    store: &mut S,
    merge: &mut Merge<'_>,
    lists: &mut ListWriter<'_>,
    sums: &mut Vec<u64>,
    number: u32,
    docs: u32,
) -> Result<(u64, u32), Fault>
    requires can { CanList merge.old lists.old sums.old.items (S.files store.old) }
    requires between { lists.old.pushed ≡ 0 }
    requires within { docs ≤ lists.old.all }
    requires total { lists.old.total + docs ≤ 2 ^ 32 }
    ensures { Between S.files S.reads S.faults store.old store.new
        (ListStep docs number merge.old merge.new lists.old lists.new sums.old sums.new result) }
{
    if docs == 0 {
        return Err(Fault::Changed {
            what: What::Words,
            first: 1,
            second: 0,
        });
    }
    match lists.begin(store, docs) {
        Ok(()) => {}
        Err(refusal) => return Err(Fault::of_store(refusal)),
    }
    match take_postings(store, merge, lists, sums, number, docs) {
        Ok(()) => {}
        Err(refusal) => return Err(refusal),
    }
    runs_stay();
    match lists.end_list(store) {
        Ok(at) => Ok(at),
        Err(refusal) => Err(Fault::of_store(refusal)),
    }
}

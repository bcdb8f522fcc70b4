//! A set whose head is known against the one collection that it can stand for.
ghost use Rattle.std.specs.Prelude.{◌≡◌, ◌<◌, ◌≤◌, ◌^◌, max, IfErr, IsSome};
ghost use Rattle.mg_dev.specs.Moments.{Between};
ghost use Rattle.mg_defs.specs.Heads.{IsWithin};
ghost use Rattle.mg_defs.specs.Limits.{least_cap};
ghost use Rattle.mg_layout.specs.HeadAnswers.{fields_of};
ghost use Rattle.mg_layout.specs.Stands.{parts_at};
ghost use Rattle.mg_text.specs.Reading.{TextReading};
ghost use Rattle.mg_check_text.specs.Checking.{HasHead, IsLoaded};
ghost use Rattle.mg_check_text.specs.Reads.{HasTerms, ReadsBy};
ghost use Rattle.mg_check_parts.specs.Refusals.{IsNotDevice};
ghost use Rattle.mg_check.specs.Rest.{Compares, ComparesByText, ComparesTold, HaveSizes, IsTold, PartsStand, RestStands, SetChecked};
ghost use Rattle.mg_model.specs.Terms.{terms_and_numbers};

use crate::counting::{CountedSet, check_terms};
use crate::index::check_index;
use mg_check_index::{Indexed, SKIP_ENTRY_BYTES};
use mg_check_parts::WordTable;
use mg_check_text::{load_text, read_text};
use mg_defs::{LEAST_BUDGET, OCCURRENCE_BYTES};
use mg_dev::{Bad, FileRef, Part, PartErr, Store};
use mg_layout::{Head, expect_size};
use mg_text::TextReader;
use std::alloc::Global;

// Where the numbers of terms and of occurrences stand in a head.
const TERMS_AT: u64 = 20;

const NARROW_OCCURRENCES_AT: u64 = 36;

const WIDE_OCCURRENCES_AT: u64 = 40;

// Where the number of occurrences stands in a head of a version.
fn occurrences_at(version: u8) -> u64 {
    if version == 1 {
        NARROW_OCCURRENCES_AT
    } else {
        WIDE_OCCURRENCES_AT
    }
}

// Refuses a number of the head that is another one than was counted.
fn expect_number(at: u64, counted: u64, found: u64) -> Result<(), PartErr>
    ensures number { Compares (found ≡ counted) result }
    ensures own { IfErr result IsNotDevice }
{
    if found == counted {
        return Ok(());
    }
    Err(PartErr::Bad(Bad {
        part: Part::Head,
        at,
        low: counted,
        high: counted,
        found,
    }))
}

// Sees that Post and Skip have the sizes that the head tells.
fn expect_sizes<S: Store>(store: &mut S, base: &str, head: &Head) -> Result<(), PartErr>
    requires entries { head.now.skip_count < 2 ^ 32 }
    ensures sizes { Between S.files S.reads S.faults store.old store.new
        (ComparesTold (HaveSizes (parts_at (S.files store.old) base.now) head.now) result) }
{
    let post = FileRef {
        base,
        part: Part::Post,
    };
    let skip = FileRef {
        base,
        part: Part::Skip,
    };
    match expect_size(store, post, head.post_bytes) {
        Ok(()) => {}
        Err(refusal) => return Err(refusal),
    }
    expect_size(store, skip, SKIP_ENTRY_BYTES * head.skip_count)
}

// How many occurrences go to a run where they are compared: as many as the head tells, or all of them where they are fewer.
// The runs are the same, and their pool is no larger than the set, or than the least of a build.
fn run_size(head: &Head) -> u32
    requires within { IsWithin (fields_of head.now) }
    ensures least { least_cap ≤ result }
    ensures most { result ≤ head.now.cap }
    ensures few { result ≤ max least_cap head.now.occurrences }
    ensures enough { result < head.now.cap → head.now.occurrences ≤ result }
{
    if head.occurrences >= u64::from(head.cap) {
        return head.cap;
    }
    let least = (LEAST_BUDGET / OCCURRENCE_BYTES) as u32;
    least.max(head.occurrences as u32)
}

// Sees that the head tells so many terms, and that Post and Skip have the sizes that it tells.
fn expect_told<S: Store>(store: &mut S, base: &str, head: &Head, terms: u64) -> Result<(), PartErr>
    requires entries { head.now.skip_count < 2 ^ 32 }
    ensures told { Between S.files S.reads S.faults store.old store.new
        (ComparesTold (IsTold (parts_at (S.files store.old) base.now) head.now terms) result) }
{
    match expect_number(TERMS_AT, terms, u64::from(head.terms)) {
        Ok(()) => {}
        Err(refusal) => return Err(refusal),
    }
    expect_sizes(store, base, head)
}

// Sees that the head's number of occurrences, and the six parts that tell of terms, are those of the collection whose
// text is read.
fn check_parts<S: Store>(
    alloc: Global,
    store: &mut S,
    base: &str,
    head: &Head,
    reader: &mut TextReader<'_, S>,
    table: &WordTable,
) -> Result<(), PartErr>
    requires reads { ReadsBy reader.old (S.files store.old) head.now }
    requires text { HasTerms reader.old (S.files store.old) table.now head.now.documents }
    ensures parts { Between S.files S.reads S.faults store.old store.new
        (ComparesByText reader.old (PartsStand (S.files store.old) base.now head.now) result) }
{
    let documents = head.documents;
    let size = run_size(head);
    let counted = CountedSet {
        base,
        table,
        cap: size,
        documents,
    };
    let counts = match check_terms(alloc, store, reader, &counted) {
        Ok(counts) => counts,
        Err(refusal) => return Err(refusal),
    };
    let at = occurrences_at(head.version);
    match expect_number(at, counts.occurrences, head.occurrences) {
        Ok(()) => {}
        Err(refusal) => return Err(refusal),
    }
    let of = Indexed {
        base,
        table,
        docs: &counts.docs,
        documents,
        occurrences: counts.occurrences,
    };
    check_index(alloc, store, reader, &of)
}

// Sees that the numbers of the head that the text does not tell, and the six parts that tell of terms, are those of the
// collection whose text is read, by the table of its terms.
fn check_told<S: Store>(
    alloc: Global,
    store: &mut S,
    base: &str,
    head: &Head,
    reader: &mut TextReader<'_, S>,
    table: &WordTable,
) -> Result<(), PartErr>
    requires reads { ReadsBy reader.old (S.files store.old) head.now }
    requires table { table.now ≡ terms_and_numbers reader.old.code.words.pieces }
    ensures rest { Between S.files S.reads S.faults store.old store.new
        (ComparesByText reader.old (RestStands (S.files store.old) base.now head.now) result) }
{
    let terms = u64::from(table.count());
    match expect_told(store, base, head, terms) {
        Ok(()) => {}
        Err(refusal) => return Err(refusal),
    }
    check_parts(alloc, store, base, head, reader, table)
}

// Sees the same, and makes the table, which is dropped here: so who compares has none of its parts to drop. A model one of
// whose words is none is refused.
fn check_rest<S: Store>(
    alloc: Global,
    store: &mut S,
    base: &str,
    head: &Head,
    reader: &mut TextReader<'_, S>,
) -> Result<(), PartErr>
    requires reads { ReadsBy reader.old (S.files store.old) head.now }
    ensures rest { Between S.files S.reads S.faults store.old store.new
        (ComparesByText reader.old (RestStands (S.files store.old) base.now head.now) result) }
{
    match WordTable::of(alloc, reader.model()) {
        Ok(table) => check_told(alloc, store, base, head, reader, &table),
        Err(refusal) => Err(refusal),
    }
}

// Checks a set whose text can be read: that its parts are those of a collection.
fn check_loaded<S: Store>(
    alloc: Global,
    store: &mut S,
    base: &str,
    head: &Head,
    reader: &mut TextReader<'_, S>,
) -> Result<(), PartErr>
    requires reads { ReadsBy reader.old (S.files store.old) head.now }
    ensures set { Between S.files S.reads S.faults store.old store.new
        (SetChecked (IsLoaded (S.files store.old) base.now head.now reader.old) base.now head.now result) }
{
    match read_text(alloc, store, base, head, reader) {
        Ok(()) => {}
        Err(refusal) => return Err(refusal),
    }
    check_rest(alloc, store, base, head, reader)
}

/// A loaded text, of which no more is seen than this by who drops it.
trait LoadedText<S: Store> {
    /// What contracts see of its reader.
    ghost reading: { Self → TextReading };

    /// Checks that the parts of the set are those of a collection.
    fn check(
        &mut self,
        alloc: Global,
        store: &mut S,
        base: &str,
        head: &Head,
    ) -> Result<(), PartErr>
        requires reads { ReadsBy (reading self.old) (S.files store.old) head.now }
        ensures set { Between S.files S.reads S.faults store.old store.new
            (SetChecked (IsLoaded (S.files store.old) base.now head.now (reading self.old)) base.now
            head.now result) };
}

impl<'a, S: Store> LoadedText<S> for TextReader<'a, S> {
    ghost reading = { λ r. r };

    fn check(
        &mut self,
        alloc: Global,
        store: &mut S,
        base: &str,
        head: &Head,
    ) -> Result<(), PartErr> {
        check_loaded(alloc, store, base, head, self)
    }
}

// Checks a set by its loaded text, which is dropped here: so who loads it has none of its parts to drop.
fn check_by<S: Store, T: LoadedText<S> + Drop>(
    alloc: Global,
    store: &mut S,
    base: &str,
    head: &Head,
    text: T,
) -> Result<(), PartErr>
    requires reads { ReadsBy (T.reading text) (S.files store.old) head.now }
    ensures set { Between S.files S.reads S.faults store.old store.new
        (SetChecked (IsLoaded (S.files store.old) base.now head.now (T.reading text)) base.now head.now result) }
{
    let mut text = text;
    text.check(alloc, store, base, head)
}

/// Checks a set with this head: that its parts are those of a collection, which the text tells.
pub(crate) fn check_set<S: Store>(
    alloc: Global,
    store: &mut S,
    base: &str,
    head: &Head,
) -> Result<(), PartErr>
    requires within { IsWithin (fields_of head.now) }
    ensures set { Between S.files S.reads S.faults store.old store.new
        (SetChecked (HasHead (S.files store.old) base.now head.now) base.now head.now result) }
{
    match load_text(alloc, store, base, head) {
        Ok(reader) => check_by(alloc, store, base, head, reader),
        Err(refusal) => Err(refusal),
    }
}

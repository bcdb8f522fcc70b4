//! A ranked answer.
ghost use Rattle.std.specs.Prelude.{◌≡◌, ◌≢◌, ◌*◌, ◌<◌, ◌≤◌, ◌^◌, IfErr, IfOk, OnOk, IsSome, length, slice_index_or, sum_by};
ghost use Rattle.std.specs.List.{All};
ghost use Rattle.mg_dev.specs.Files.{bytes_at};
ghost use Rattle.mg_dev.specs.Moments.{Between};
ghost use Rattle.mg_dev.specs.Names.{full_name};
ghost use Rattle.mg_dev.specs.PartCauses.{HasPartCause};
ghost use Rattle.mg_dev.specs.declared.part.Part.TheVariants as part;
ghost use Rattle.mg_defs.specs.Weights.{Hit};
ghost use Rattle.mg_defs.specs.PageBounds.{ranked_bound};
ghost use Rattle.mg_post.specs.PagesOnce.{span_pages};
ghost use Rattle.mg_rank.specs.Calls.{AreSums, RanksSums, RanksTerms, SumsTerms};
ghost use Rattle.mg_rank.specs.Damages.{IsNotOfLex, TellsFirstOf};
ghost use Rattle.mg_rank.specs.Ranked.{AnswersTop, IsNumbered, ReadsRanked, PostWithin, SkipWithin, ForTerms, ForRanked, list_entries};
ghost use Rattle.mg_rank.specs.Added.{CountsWhole};
ghost use Rattle.mg_rank.specs.WeightReads.{WeightsWithin, weight_pages};

use crate::best::Kept;
use crate::list::add_list;
use crate::rows::first_rows;
use crate::sums::Sums;
use mg_dev::{Bad, FileRef, Part, PartErr, Store};
use mg_layout::{TermInfo, expect_size};
use std::alloc::Global;
use std::marker::Model;

/// A document of a ranked answer.
#[derive(Clone, Copy, Debug, PartialEq, Eq)]
pub struct Row {
    pub number: u32,
    pub score: u64,
}

/// The rows of a ranked answer. Contracts see a list of documents with their scores.
#[derive(Drop)]
pub struct RankRows {
    rows: Vec<Kept>,
}

impl Model for RankRows {
    ghost use Rattle.std.specs.Prelude.{List};
    ghost use Rattle.mg_defs.specs.Weights.{Hit};
    ghost use Rattle.mg_rank.specs.Rows.{hits_in};

    ghost Value = { List Hit };

    ghost view = { λ r. hits_in r.rows.items };
}

impl RankRows {
    /// How many rows there are.
    pub fn len(&self) -> usize
        ensures { result ≡ length self.now }
    {
        self.rows.len()
    }

    /// The row in a place.
    pub fn row(&self, place: usize) -> Row
        requires { place < length self.now }
        ensures number { (d : Hit) → result.number ≡ (slice_index_or self.now place d).number }
        ensures score { (d : Hit) → result.score ≡ (slice_index_or self.now place d).score }
    {
        let row = self.rows[place];
        Row {
            number: row.document,
            score: row.score.0,
        }
    }
}

/// The first rows of a ranked answer, and how many documents there are before the cut.
#[derive(Drop)]
pub struct Ranked {
    rows: RankRows,
    total: u32,
}

impl Model for Ranked {
    ghost use Rattle.mg_rank.specs.Ranked.{Ranking};

    ghost Value = { Ranking };

    ghost view = { λ r. record { rows = r.rows; total = r.total } };
}

impl Ranked {
    /// The first rows.
    pub fn rows(&self) -> &RankRows
        ensures { result.now ≡ self.now.rows }
    {
        &self.rows
    }

    /// How many documents there are before the cut.
    pub fn total(&self) -> u32
        ensures { result ≡ self.now.total }
    {
        self.total
    }
}

/// The sums of the documents over the lists of these terms.
fn sum_lists<S: Store>(
    alloc: Global,
    store: &mut S,
    base: &str,
    terms: &[TermInfo],
    all: u32,
) -> Result<Sums, PartErr>
    requires few { length terms.now ≤ 64 }
    ensures { Between S.files S.reads S.faults store.old store.new
        (SumsTerms base.now terms.now all result) }
{
    let mut sums = Sums::new(alloc, terms.len());
    for info in terms {
        match add_list(alloc, store, base, info, all, &mut sums) {
            Ok(()) => {}
            Err(refusal) => return Err(refusal),
        }
    }
    Ok(sums)
}

/// How many documents have sums.
fn count(sums: &Sums) -> Result<u32, PartErr>
    ensures is { length sums.now < 2 ^ 32 → result ≡ Ok (length sums.now) }
    ensures told { IfOk result (λ count. count ≡ length sums.now) }
    ensures calm { result ≢ Err PartErr.Device }
    ensures lexicon { IfErr result IsNotOfLex }
{
    let count = sums.len();
    if count > 4294967295 {
        return Err(PartErr::Bad(Bad {
            part: Part::Post,
            at: 0,
            low: 0,
            high: 4294967295,
            found: count as u64,
        }));
    }
    Ok(count as u32)
}

/// The first rows of the documents with these sums, and how many documents have one.
fn rank_sums<S: Store>(
    alloc: Global,
    store: &mut S,
    base: &str,
    sums: &Sums,
    all: u32,
    most: u32,
) -> Result<Ranked, PartErr>
    requires { AreSums all sums.now }
    ensures { Between S.files S.reads S.faults store.old store.new
        (RanksSums base.now sums.now all most result) }
{
    let total = match count(sums) {
        Ok(total) => total,
        Err(refusal) => return Err(refusal),
    };
    match first_rows(alloc, store, base, sums, all, most as usize) {
        Ok(rows) => Ok(Ranked {
            rows: RankRows { rows },
            total,
        }),
        Err(refusal) => Err(refusal),
    }
}

/// A ranked answer, where the weights have their size.
fn rank_sized<S: Store>(
    alloc: Global,
    store: &mut S,
    base: &str,
    terms: &[TermInfo],
    all: u32,
    most: u32,
) -> Result<Ranked, PartErr>
    requires few { length terms.now ≤ 64 }
    ensures { Between S.files S.reads S.faults store.old store.new
        (RanksTerms base.now terms.now all most result) }
{
    match sum_lists(alloc, store, base, terms, all) {
        Ok(sums) => rank_sums(alloc, store, base, &sums, all, most),
        Err(refusal) => Err(refusal),
    }
}

/// The first `most` documents with one of these terms, by falling score, ties by rising number, and
/// how many documents have one.
///
/// The terms are distinct and the lexicon has each; `all` is the number of documents. Each term's list
/// is read once, and the weights of the documents that were met; where no row is wanted, no weight is
/// read. Over any parts every call returns, and no sum passes its type: 64 terms add less than 2^35 to
/// a document. Whatever the parts have, an answer counts whole lists: each has as many postings as its
/// `TermInfo` tells, which are of 1 to `all` rising documents.
///
/// # Errors
///
/// `Bad` for weights of another size than 4 bytes a document, for lists and weights that are damaged,
/// and for the lexicon where a term's `TermInfo` tells no document or more than `all`: at the term's
/// number, with how many it tells. `Device` where the store failed; `Memory`.
pub fn rank<S: Store>(
    alloc: Global,
    store: &mut S,
    base: &str,
    terms: &[TermInfo],
    all: u32,
    most: u32,
) -> Result<Ranked, PartErr>
    requires few { length terms.now ≤ 64 }
    ensures answer { ForRanked base.now (S.files store.old) terms.now all
        (λ collection ts. AnswersTop result collection ts most) }
    ensures sized { IsSome (S.files store.old) →
        OnOk result (length (bytes_at (S.files store.old) (full_name base.now part.Weights))
        ≡ 4 * all) }
    ensures range { IfOk result (λ r. All (IsNumbered all) r.rows) }
    ensures whole { IfOk result (CountsWhole all terms.now) }
    ensures pages { ForTerms base.now (S.files store.old) terms.now all
        (λ collection ts. PostWithin S.reads store.old store.new (ranked_bound collection ts)) }
    ensures once { ForTerms base.now (S.files store.old) terms.now all (λ collection ts.
        PostWithin S.reads store.old store.new (sum_by (span_pages collection) ts)) }
    ensures skips { SkipWithin S.reads store.old store.new (sum_by list_entries terms.now) }
    ensures weights { WeightsWithin S.reads store.old store.new
        (length terms.now * weight_pages all) }
    ensures reads { ReadsRanked (S.reads store.old) (S.reads store.new) }
    ensures none { most ≡ 0 → S.reads store.new part.Weights ≡ S.reads store.old part.Weights }
    ensures files { S.files store.new ≡ S.files store.old }
    ensures cause { HasPartCause (S.faults store.old) (S.faults store.new) result }
    ensures lexicon { IsSome (S.files store.old) → IfErr result (TellsFirstOf all terms.now) }
{
    let weights = FileRef {
        base,
        part: Part::Weights,
    };
    match expect_size(store, weights, 4 * u64::from(all)) {
        Ok(()) => {}
        Err(refusal) => return Err(refusal),
    }
    rank_sized(alloc, store, base, terms, all, most)
}

//! What the first pass hands on: by what the second writes, and room for what it counts.
//!
//! Both are made before anything is written. So a build that lacks memory for them has left all files
//! as they were.
ghost use Rattle.std.specs.Prelude.{◌≡◌, ◌≤◌, ◌-◌, ◌^◌, ℕ, List, length, replicate, sum, IfOk};
ghost use Rattle.mg_defs.specs.Limits.{greatest_budget, least_budget};
ghost use Rattle.mg_count.specs.Counting.{IsCountOf};
ghost use Rattle.mg_count.specs.Entries.{AreEntries};
ghost use Rattle.mg_count.specs.Plans.{AreCountsOf, IsPlan, IsPlanOf, IsRoomFor, plan_by};

use crate::counts::Counts;
use crate::doc_counts::DocCounts;
use crate::pairs::pair;
use mg_laws::{few_of_each, limits_of_marks, marks_have_all};
use mg_model::{Stream, TermTable, TextModel, Vocab, codes_are_models, terms_are_the_dictionary};
use mg_runs::Pool;
use std::alloc::{AllocError, Global};
use std::marker::Model;

/// The models of both streams, their terms, the pairs of each document, and whether the last one is
/// open.
#[derive(Drop)]
pub struct Plan {
    pub model: TextModel,
    pub table: TermTable,
    pub pairs: Vec<u32>,
    pub open_end: bool,
}

/// How many documents, words, others and terms a plan has.
#[derive(Drop)]
pub struct Entries {
    pub documents: u32,
    pub words: u32,
    pub others: u32,
    pub terms: u32,
}

impl Model for Plan {
    ghost use Rattle.mg_count.specs.Plans.{Plan as Planned};

    ghost Value = { Planned };

    ghost view = { λ p. record { code = p.model; pairs = p.pairs.items; terms = p.table; open_end = p.open_end } };
}

impl Plan {
    /// How many documents, words, others and terms there are.
    pub fn entries(&self) -> Entries
        requires plan { IsPlan self.now }
        ensures { AreEntries result self.now }
    {
        Entries {
            documents: self.pairs.len() as u32,
            words: self.model.canon(Stream::Words).count(),
            others: self.model.canon(Stream::Others).count(),
            terms: self.table.count(),
        }
    }

    /// The plan of a collection of which these are the counts.
    pub(crate) fn of(alloc: Global, counts: Counts, open_end: bool) -> Result<Self, AllocError>
        requires counted { (collection : List ℕ) × IsCountOf counts open_end collection }
        ensures plan { IfOk result (λ plan. IsPlan plan) }
        ensures of { (collection : List ℕ) → IsCountOf counts open_end collection →
            IfOk result (λ plan. IsPlanOf plan collection) }
    {
        few_of_each();
        limits_of_marks();
        marks_have_all();
        codes_are_models();
        terms_are_the_dictionary();
        let (words, others, pairs) = counts.into_parts();
        let model = TextModel::of(alloc, words, others)?;
        match Plan::by(alloc, model, pairs, open_end) {
            Ok(plan) => Ok(plan),
            Err(refusal) => Err(refusal),
        }
    }

    // The plan of pieces and pairs that were counted so.
    fn of_counts(
        alloc: Global,
        words: Vocab,
        others: Vocab,
        pairs: Vec<u32>,
        open_end: bool,
    ) -> Result<Self, AllocError>
        requires few { length pairs.items ≤ 2 ^ 24 }
        requires small { sum pairs.items ≤ 2 ^ 32 - 1 }
        ensures plan { IfOk result (λ plan. IsPlan plan) }
        ensures of { (collection : List ℕ) →
            AreCountsOf words others pairs.items open_end collection →
            IfOk result (λ plan. IsPlanOf plan collection) }
    {
        terms_are_the_dictionary();
        let model = TextModel::of(alloc, words, others)?;
        // For the proof: the code of each stream of a model is one of a stream.
        let _ = model.canon(Stream::Words);
        let _ = model.canon(Stream::Others);
        match Plan::by(alloc, model, pairs, open_end) {
            Ok(plan) => Ok(plan),
            Err(refusal) => Err(refusal),
        }
    }

    // The plan by these models: its terms are those of the words.
    fn by(
        alloc: Global,
        model: TextModel,
        pairs: Vec<u32>,
        open_end: bool,
    ) -> Result<Self, AllocError>
        ensures { IfOk result (λ plan. plan ≡ plan_by model pairs.items open_end) }
    {
        let table = TermTable::of(alloc, &model);
        let (model, table) = pair(model, table)?;
        Ok(Plan {
            model,
            table,
            pairs,
            open_end,
        })
    }
}

/// The pool of the runs, and room for the documents of each term and the sums of squared weights of
/// each document.
#[derive(Drop)]
pub struct Room {
    pub pool: Pool,
    pub counts: DocCounts,
    pub sums: Vec<u64>,
}

impl Model for Room {
    ghost use Rattle.mg_count.specs.Plans.{Rooming};

    ghost Value = { Rooming };

    ghost view = { λ r. record { pool = r.pool; counts = r.counts; sums = r.sums.items } };
}

/// So many sums, of nothing yet.
fn no_sums(alloc: Global, count: usize) -> Result<Vec<u64>, AllocError>
    ensures { IfOk result (λ sums. sums.items ≡ replicate count 0) }
{
    vec![in alloc; 0; count]
}

impl Room {
    /// Room for what a plan's second pass counts, with a pool of so many bytes.
    pub(crate) fn new(alloc: Global, plan: &Plan, budget: u64) -> Result<Self, AllocError>
        requires least { least_budget ≤ budget }
        requires most { budget ≤ greatest_budget }
        ensures { IfOk result (λ room. IsRoomFor room plan.now budget) }
    {
        let sums = no_sums(alloc, plan.pairs.len())?;
        let counts = DocCounts::new(alloc, plan.table.count())?;
        let pool = Pool::new(alloc, budget)?;
        Ok(Room { pool, counts, sums })
    }
}

/// The plan of a collection of which these are the counts, and room for what its second pass counts.
pub(crate) fn plan_of(
    alloc: Global,
    counts: Counts,
    open_end: bool,
    budget: u64,
) -> Result<(Plan, Room), AllocError>
    requires least { least_budget ≤ budget }
    requires most { budget ≤ greatest_budget }
    requires counted { (collection : List ℕ) × IsCountOf counts open_end collection }
    ensures plan { IfOk result (λ r. IsPlan r.0) }
    ensures of { (collection : List ℕ) → IsCountOf counts open_end collection →
        IfOk result (λ r. IsPlanOf r.0 collection) }
    ensures room { IfOk result (λ r. IsRoomFor r.1 r.0 budget) }
{
    let plan = match Plan::of(alloc, counts, open_end) {
        Ok(plan) => plan,
        Err(refusal) => return Err(refusal),
    };
    let room = Room::new(alloc, &plan, budget);
    pair(plan, room)
}

/// The plan of pieces and pairs that were counted otherwise than byte by byte, and room for what its second pass counts.
pub fn plan_of_counts(
    alloc: Global,
    pieces: (Vocab, Vocab),
    pairs: Vec<u32>,
    open_end: bool,
    budget: u64,
) -> Result<(Plan, Room), AllocError>
    requires least { least_budget ≤ budget }
    requires most { budget ≤ greatest_budget }
    requires few { length pairs.items ≤ 2 ^ 24 }
    requires small { sum pairs.items ≤ 2 ^ 32 - 1 }
    ensures plan { IfOk result (λ r. IsPlan r.0) }
    ensures of { (collection : List ℕ) →
        AreCountsOf pieces.0 pieces.1 pairs.items open_end collection →
        IfOk result (λ r. IsPlanOf r.0 collection) }
    ensures room { IfOk result (λ r. IsRoomFor r.1 r.0 budget) }
{
    let (words, others) = pieces;
    let plan = match Plan::of_counts(alloc, words, others, pairs, open_end) {
        Ok(plan) => plan,
        Err(refusal) => return Err(refusal),
    };
    let room = Room::new(alloc, &plan, budget);
    pair(plan, room)
}

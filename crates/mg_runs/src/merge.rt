//! The postings of all runs.
ghost use Rattle.std.specs.Prelude.{◌≡◌, ◌≤◌, ◌<◌, ◌/◌, List, [], IfErr, IfOk, IfSome, OnOk, OnSome, IsSome, length, drop};
ghost use Rattle.mg_defs.specs.Limits.{greatest_budget};
ghost use Rattle.mg_defs.specs.declared.TermPosting.{TermPosting};
ghost use Rattle.mg_runs.specs.Cursors.{NoDamage, NoMemory};
ghost use Rattle.mg_runs.specs.Damages.{NamesPartOf, TellsBitIn};
ghost use Rattle.mg_runs.specs.Joins.{IsRunPart};
ghost use Rattle.mg_runs.specs.Left.{IsMerging, postings_left, ForMerging};
ghost use Rattle.mg_runs.specs.Merging.{first as first_of};
ghost use Rattle.mg_runs.specs.Merged.{MergeOpened};
ghost use Rattle.mg_runs.specs.Steps.{WorkStep};
ghost use Rattle.mg_dev.specs.Moments.{Between};

use crate::group::Group;
use crate::round::Round;
use mg_defs::TermPosting;
use mg_dev::{PartErr, Store};
use std::alloc::Global;
use std::marker::Model;

/// Stands before the next posting of all occurrences that were taken, by term and then by
/// document.
///
/// It keeps a slot of the pool and a cursor of each run in use, at most as many as the pool's
/// width. What they have agrees with the file as long as it isn't written to.
#[derive(Drop)]
pub struct Merge<'a> {
    group: Option<Group<'a>>,
    base: &'a str,
    runs: u32,
    peak: u64,
}

impl<'a> Model for Merge<'a> {
    ghost use Rattle.mg_runs.specs.Left.{Merging};

    ghost Value = { Merging };

    ghost view = { λ m. record { group = m.group; base = m.base.now; runs = m.runs; peak = m.peak } };
}

impl<'a> Merge<'a> {
    /// The runs of a part, each at its first posting. The pool has a slot for each.
    pub(crate) fn open<S: Store>(
        alloc: Global,
        store: &mut S,
        round: Round<'a>,
        runs: u32,
    ) -> Result<Self, PartErr>
        requires room { length round.places.items ≤ round.pool.limit / 64 }
        requires limit { round.pool.limit ≤ greatest_budget }
        requires entries { round.pool.entries ≡ [] }
        requires part { IsRunPart round.file.part }
        ensures opened { Between S.files S.reads S.faults store.old store.new
            (MergeOpened round.entry runs result) }
    {
        let Round { pool, places, file } = round;
        let base = file.base;
        if places.is_empty() {
            return Ok(Merge {
                group: None,
                base,
                runs,
                peak: pool.peak(),
            });
        }
        match Group::load(alloc, store, pool, file, &places) {
            Ok(group) => {
                let peak = group.pool.peak();
                Ok(Merge {
                    group: Some(group),
                    base,
                    runs,
                    peak,
                })
            }
            Err(refusal) => Err(refusal),
        }
    }

    /// The next posting of all occurrences, each term and document once; none where no posting is
    /// left.
    pub fn next<S: Store>(&mut self, store: &mut S) -> Result<Option<TermPosting>, PartErr>
        requires left { (left : List TermPosting) × IsMerging self.old (S.files store.old) left }
        ensures told { IsSome (S.files store.old) →
            ForMerging self.old (S.files store.old) (λ left.
            IfOk result (λ posting. posting ≡ first_of left)) }
        ensures left { ForMerging self.old (S.files store.old)
            (λ left. OnOk result (IsMerging self.new (S.files store.new) (drop 1 left))) }
        ensures doc { IfOk result (λ posting. IfSome posting (λ p. 1 ≤ p.doc)) }
        ensures count { IfOk result (λ posting. IfSome posting (λ p. 1 ≤ p.count)) }
        ensures fall { IfOk result (λ posting.
            OnSome posting (postings_left self.new < postings_left self.old)) }
        ensures rest { postings_left self.new ≤ postings_left self.old }
        ensures undamaged { IsSome (S.files store.old) → NoDamage result }
        ensures memory { NoMemory result }
        ensures part { IfErr result (NamesPartOf self.old.group) }
        ensures bit { IfErr result (TellsBitIn self.new.group) }
        ensures base { self.new.base ≡ self.old.base }
        ensures runs { self.new.runs ≡ self.old.runs }
        ensures peak { self.new.peak ≡ self.old.peak }
        ensures files { S.files store.new ≡ S.files store.old }
        ensures step { Between S.files S.reads S.faults store.old store.new
            (WorkStep self.old.base result) }
    {
        let group = match &mut self.group {
            Some(group) => group,
            None => return Ok(None),
        };
        group.next(store)
    }

    /// The number of the first runs, which were written from full pools and the last one.
    pub fn runs(&self) -> u32
        ensures { result ≡ self.now.runs }
    {
        self.runs
    }

    /// The greatest use of the pool, in bytes.
    pub fn peak(&self) -> u64
        ensures { result ≡ self.now.peak }
    {
        self.peak
    }
}

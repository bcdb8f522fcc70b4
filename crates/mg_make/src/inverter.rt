//! Occurrences in reading order, as runs, with the documents of each term counted.
//!
//! Runs know nothing of how many documents a term has, and a list begins with that number. So both are
//! fed together, one occurrence at a time.
ghost use Rattle.std.specs.Prelude.{◌≡◌, ℕ, List, [], IfOk, IsSome, OnOk};
ghost use Rattle.mg_dev.specs.Causes.{HasPutCause};
ghost use Rattle.mg_dev.specs.Files.{SameReads};
ghost use Rattle.mg_dev.specs.Moments.{Between};
ghost use Rattle.mg_dev.specs.PartCauses.{HasPartCause};
ghost use Rattle.mg_runs.specs.Cursors.{NoDamage};
ghost use Rattle.mg_runs.specs.Fed.{IsFed};
ghost use Rattle.mg_runs.specs.Joins.{Worked};
ghost use Rattle.mg_count.specs.DocCounting.{AreDocCounts};
ghost use Rattle.mg_make.specs.Finishing.{IsMergeOf};
ghost use Rattle.mg_make.specs.Indexes.{HasTaken, MayFollow, OfRuns, TakesOneMore};
ghost use Rattle.mg_index.specs.Written.{WroteParts};

use mg_count::DocCounts;
use mg_dev::{PartErr, PutErr, Store};
use mg_runs::{Merge, Pool, Runs};
use std::alloc::Global;
use std::marker::Model;

/// The runs of the occurrences, how many documents have each term, and how many occurrences there are.
#[derive(Drop)]
pub(crate) struct Inverter<'a> {
    pub(crate) runs: Runs<'a>,
    pub(crate) counts: DocCounts,
    pub(crate) occurrences: u64,
}

/// What is handed on behind a text of so many bytes: the merge of the runs, how many documents have each
/// term, and how many occurrences there are.
#[derive(Drop)]
pub(crate) struct Inverted<'a> {
    pub(crate) text_bytes: u64,
    pub(crate) merge: Merge<'a>,
    pub(crate) counts: DocCounts,
    pub(crate) occurrences: u64,
}

impl<'a> Model for Inverter<'a> {
    ghost use Rattle.mg_make.specs.Indexes.{Indexing};

    ghost Value = { Indexing };

    ghost view = { λ i. record { runs = i.runs; counts = i.counts; occurrences = i.occurrences } };
}

impl<'a> Inverter<'a> {
    /// No occurrence yet. It empties the parts of the runs.
    pub(crate) fn start<S: Store>(
        alloc: Global,
        store: &mut S,
        base: &'a str,
        pool: Pool,
        counts: DocCounts,
    ) -> Result<Self, PutErr>
        requires pool { pool ≡ record { entries = []; slots = []; peak = 0; limit = pool.limit } }
        ensures taken { IfOk result (λ index. (terms : ℕ) → AreDocCounts counts terms [] →
            HasTaken index (S.files store.new) terms []) }
        ensures base { IfOk result (λ index. index.runs.base ≡ base.entry.now) }
        ensures limit { IfOk result (λ index. index.runs.pool.limit ≡ pool.limit) }
        ensures wrote { WroteParts OfRuns base.entry.now (S.files store.old) (S.files store.new) }
        ensures reads { SameReads (S.reads store.old) (S.reads store.new) }
        ensures cause { HasPutCause (S.faults store.old) (S.faults store.new) result }
    {
        match Runs::start(alloc, store, base, pool) {
            Ok(runs) => Ok(Inverter {
                runs,
                counts,
                occurrences: 0,
            }),
            Err(refusal) => Err(refusal),
        }
    }

    /// Takes an occurrence of a term in a document, which is not before those of the other occurrences.
    pub(crate) fn add<S: Store>(&mut self, store: &mut S, term: u32, doc: u32) -> Result<(), PutErr>
        requires taken { (terms : ℕ) × (fed : List (ℕ × ℕ))
            × HasTaken self.old (S.files store.old) terms fed × MayFollow terms fed term doc }
        ensures taken { OnOk result (TakesOneMore self.old self.new (S.files store.old)
            (S.files store.new) term doc) }
        ensures base { self.new.runs.base ≡ self.old.runs.base }
        ensures limit { self.new.runs.pool.limit ≡ self.old.runs.pool.limit }
        ensures wrote { WroteParts OfRuns self.old.runs.base (S.files store.old)
            (S.files store.new) }
        ensures reads { SameReads (S.reads store.old) (S.reads store.new) }
        ensures cause { HasPutCause (S.faults store.old) (S.faults store.new) result }
    {
        match self.runs.add(store, term, doc) {
            Ok(()) => {}
            Err(refusal) => return Err(refusal),
        }
        self.counts.count(term, doc);
        self.occurrences += 1;
        Ok(())
    }

    /// Ends the runs, and hands on their merge behind a text of so many bytes. It reads the parts of the
    /// runs alone, and what it reads is damaged only where the store does not tell its files.
    pub(crate) fn merge<S: Store>(
        self,
        store: &mut S,
        text_bytes: u64,
    ) -> Result<Inverted<'a>, PartErr>
        requires taken { (terms : ℕ) × (fed : List (ℕ × ℕ))
            × HasTaken self (S.files store.old) terms fed }
        ensures merged { IfOk result (λ r. (fed : List (ℕ × ℕ)) →
            IsFed self.entry.runs (S.files store.old) fed →
            IsMergeOf self.entry.runs (S.files store.old) (S.files store.new) r.merge fed) }
        ensures bytes { IfOk result (λ r. r.text_bytes ≡ text_bytes) }
        ensures counts { IfOk result (λ r. r.counts ≡ self.entry.counts) }
        ensures occurrences { IfOk result (λ r. r.occurrences ≡ self.entry.occurrences) }
        ensures undamaged { IsSome (S.files store.old) → NoDamage result }
        ensures worked { Between S.files S.reads S.faults store.old store.new
            (Worked self.entry.runs.base) }
        ensures cause { HasPartCause (S.faults store.old) (S.faults store.new) result }
    {
        let Inverter {
            runs,
            counts,
            occurrences,
        } = self;
        match runs.merge(store) {
            Ok(merge) => Ok(Inverted {
                text_bytes,
                merge,
                counts,
                occurrences,
            }),
            Err(refusal) => Err(refusal),
        }
    }
}

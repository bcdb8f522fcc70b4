//! The runs of occurrences, compared with the part that has them.
//!
//! The occurrences go into a pool of as many entries as a run of the set is made of. A full pool is written as a run, and
//! its bytes are compared a page at a time with those of the part behind the runs before.
ghost use Rattle.std.specs.Prelude.{◌≡◌, ◌+◌, ◌-◌, ◌*◌, ◌<◌, ◌≤◌, ◌^◌, ℕ, List, [], length, IfOk, IsSome, Option, OnOk};
ghost use Rattle.mg_dev.specs.Files.{Files};
ghost use Rattle.mg_dev.specs.Names.{full_name};
ghost use Rattle.mg_dev.specs.Moments.{Between};
ghost use Rattle.mg_dev.specs.declared.part.Part.TheVariants as part;
ghost use Rattle.mg_runs.specs.Fed.{cap_of};
ghost use Rattle.mg_check_index.specs.Counting.{CanBeRun, ComparesPart, SameRun, HasTaken, WritesRun, run_of_pool, HasBegunMore, GoesOnOtherwise, HasTakenOne, HasTakenAll, RunsOtherwise, RunsOtherwiseOn, HasBegunRuns, AreItsRuns, AreOtherRuns};
ghost use Rattle.mg_defs.specs.Limits.{least_cap, greatest_cap};

use crate::comparison::Comparison;
use mg_defs::{LEAST_BUDGET, OCCURRENCE_BYTES, ranges_join};
use mg_dev::{Part, PartErr, Store};
use mg_runs::Pool;
use std::alloc::{AllocError, Global};
use std::marker::Model;

/// The comparison of the part of the runs, and the pool of the occurrences behind those that were compared.
#[derive(Drop)]
pub(crate) struct RunPart<'a> {
    alloc: Global,
    part: Comparison<'a>,
    pool: Pool,
}

impl<'a> Model for RunPart<'a> {
    ghost use Rattle.mg_check_index.specs.Counting.{RunReading};

    ghost Value = { RunReading };

    ghost view = { λ r. record { part = r.part; pool = r.pool } };
}

impl<'a> RunPart<'a> {
    /// No occurrence, to be taken in runs of so many; the pool takes no more.
    pub(crate) fn new(alloc: Global, base: &'a str, cap: u32) -> Result<Self, AllocError>
        requires least { least_cap ≤ cap }
        requires most { cap ≤ greatest_cap }
        ensures taken { IfOk result (λ runs. (files : Option Files) → HasTaken runs files []) }
        ensures name { IfOk result (λ runs. runs.part.name ≡ full_name base.entry.now part.Run) }
        ensures cap { IfOk result (λ runs. cap_of runs.pool ≡ cap) }
    {
        let budget = (OCCURRENCE_BYTES * u64::from(cap)).max(LEAST_BUDGET);
        let pool = Pool::new(alloc, budget)?;
        Ok(RunPart {
            alloc,
            part: Comparison::new(base, Part::Run),
            pool,
        })
    }

    // Writes the pool's entries as a run, compares it, and empties the pool.
    fn compare<S: Store>(&mut self, store: &mut S) -> Result<(), PartErr>
        requires run { CanBeRun self.old.pool }
        requires place { self.old.part.at ≤ 2 ^ 62 }
        ensures begun { Between S.files S.reads S.faults store.old store.new
            (ComparesPart (OnOk result (HasBegunMore S.files store.old store.new self.old.part
            self.new.part (run_of_pool self.old.pool)))
            (GoesOnOtherwise self.old.part (S.files store.old) (run_of_pool self.old.pool))
            result) }
        ensures place { OnOk result (self.new.part.at ≤ self.old.part.at + 16 + 32
            * length self.old.pool.entries) }
        ensures pool { WritesRun self.old.pool self.new.pool result }
        ensures name { self.new.part.name ≡ self.old.part.name }
    {
        self.part.expect_run(self.alloc, store, &mut self.pool)
    }

    /// Takes the next occurrence: a term's number, and a document's, from 1. A full pool is first compared as a run.
    pub(crate) fn push<S: Store>(
        &mut self,
        store: &mut S,
        term: u32,
        doc: u32,
    ) -> Result<(), PartErr>
        requires taken { (fed : List (ℕ × ℕ)) × (length fed < 2 ^ 32 - 1)
            × HasTaken self.old (S.files store.old) fed }
        requires doc { 1 ≤ doc }
        ensures taken { Between S.files S.reads S.faults store.old store.new
            (ComparesPart (OnOk result (HasTakenOne S.files store.old store.new self.old self.new
            (term, doc)))
            (RunsOtherwise self.old (S.files store.old)) result) }
        ensures same { SameRun self.old self.new }
    {
        // By this law runs are bytes one after the other.
        ranges_join();
        if self.pool.is_full() {
            match self.compare(store) {
                Ok(()) => {}
                Err(refusal) => return Err(refusal),
            }
        }
        self.pool.push(term, doc);
        Ok(())
    }

    /// Takes the occurrences of a document: the numbers of its terms in reading order.
    pub(crate) fn push_all<S: Store>(
        &mut self,
        store: &mut S,
        numbers: &[u32],
        doc: u32,
    ) -> Result<(), PartErr>
        requires taken { (fed : List (ℕ × ℕ)) × (length fed + length numbers.now < 2 ^ 32)
            × HasTaken self.old (S.files store.old) fed }
        requires doc { 1 ≤ doc }
        ensures taken { Between S.files S.reads S.faults store.old store.new
            (ComparesPart (OnOk result (HasTakenAll S.files store.old store.new self.old self.new
            doc numbers.now))
            (RunsOtherwiseOn self.old (S.files store.old) doc numbers.now) result) }
        ensures same { SameRun self.old self.new }
    {
        for number in numbers {
            match self.push(store, *number, doc) {
                Ok(()) => {}
                Err(refusal) => return Err(refusal),
            }
        }
        Ok(())
    }

    // Compares what is left in the pool as the last run.
    fn compare_rest<S: Store>(&mut self, store: &mut S) -> Result<(), PartErr>
        requires taken { (fed : List (ℕ × ℕ)) × HasTaken self.old (S.files store.old) fed }
        ensures begun { Between S.files S.reads S.faults store.old store.new
            (ComparesPart (OnOk result (HasBegunRuns S.files store.old store.new self.old
            self.new.part))
            (AreOtherRuns self.old (S.files store.old)) result) }
        ensures name { self.new.part.name ≡ self.old.part.name }
    {
        // By this law runs are bytes one after the other.
        ranges_join();
        if self.pool.used() == 0 {
            return Ok(());
        }
        match self.compare(store) {
            Ok(()) => Ok(()),
            Err(refusal) => Err(refusal),
        }
    }

    /// Compares what is left as the last run, and refuses a part with more bytes.
    pub(crate) fn finish<S: Store>(&mut self, store: &mut S) -> Result<(), PartErr>
        requires taken { (fed : List (ℕ × ℕ)) × HasTaken self.old (S.files store.old) fed }
        ensures ended { Between S.files S.reads S.faults store.old store.new
            (ComparesPart
            (IsSome (S.files store.old) → OnOk result (AreItsRuns self.old (S.files store.old)))
            (AreOtherRuns self.old (S.files store.old)) result) }
    {
        match self.compare_rest(store) {
            Ok(()) => {}
            Err(refusal) => return Err(refusal),
        }
        self.part.finish(store)
    }
}

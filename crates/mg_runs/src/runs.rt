//! Occurrences that are taken, and written as runs.
ghost use Rattle.std.specs.Prelude.{◌≡◌, ◌-◌, ◌*◌, ◌/◌, ◌≤◌, ◌<◌, ◌^◌, [], ℕ, List, Some, IfErr, IfOk, OnOk, IsSome, is_some, length};
ghost use Rattle.mg_dev.specs.Causes.{HasPutCause};
ghost use Rattle.mg_dev.specs.Files.{SameReads, file_at};
ghost use Rattle.mg_dev.specs.Names.{full_name};
ghost use Rattle.mg_dev.specs.PartCauses.{HasPartCause};
ghost use Rattle.mg_defs.specs.Postings.{term_postings};
ghost use Rattle.mg_defs.specs.Heads.{run_count};
ghost use Rattle.mg_defs.specs.Summaries.{pool_peak};
ghost use Rattle.mg_bits.specs.Writer.{WroteTo};
ghost use Rattle.mg_runs.specs.Bytes.{AreEntries};
ghost use Rattle.mg_runs.specs.Cursors.{NoDamage};
ghost use Rattle.mg_runs.specs.Damages.{NamesItsPart};
ghost use Rattle.mg_runs.specs.Fed.{IsFed, cap_of, ForFed, TookOne, HasRunBits, HasRunBytes};
ghost use Rattle.mg_runs.specs.Joins.{Worked};
ghost use Rattle.mg_runs.specs.Left.{IsMerging, postings_left};
ghost use Rattle.mg_runs.specs.Stays.{SameButRuns};
ghost use Rattle.mg_runs.specs.Merged.{EndsRun, MayEnd, RunsClosed, RunsFinished, RunsMerged, Spilled};
ghost use Rattle.mg_dev.specs.Moments.{Between};

use crate::join::refused;
use crate::round::Round;
use crate::run::write_entries;
use crate::{Merge, Pool};
use mg_bits::BitWriter;
use mg_dev::{FileRef, Part, PartErr, PutErr, Store};
use std::alloc::{AllocError, Global};
use std::marker::Model;

/// Takes the occurrences of a collection in reading order, and writes them as runs: a run is the
/// postings of as many occurrences as the pool holds.
///
/// It doesn't keep what it was handed. The finished runs are in the file and in the writer's
/// buffer, the occurrences behind them are in the pool, and of each finished run only its place is
/// kept.
#[derive(Drop)]
pub struct Runs<'a> {
    alloc: Global,
    pool: Pool,
    writer: BitWriter<'a>,
    places: Vec<u64>,
    base: &'a str,
}

impl<'a> Model for Runs<'a> {
    ghost use Rattle.mg_runs.specs.Fed.{Inverting};

    ghost Value = { Inverting };

    ghost view = { λ r. record { pool = r.pool; writer = r.writer; places = r.places.items; base = r.base.now } };
}

/// Leaves a part there and empty.
pub fn reset_part<S: Store>(store: &mut S, base: &str, part: Part) -> Result<(), PutErr>
    ensures empty { IsSome (S.files store.old) →
        OnOk result (file_at (S.files store.new) (full_name base.now part) ≡ Some []) }
    ensures wrote { WroteTo (full_name base.now part) (S.files store.old) (S.files store.new)
        (S.reads store.old) (S.reads store.new) }
    ensures cause { HasPutCause (S.faults store.old) (S.faults store.new) result }
{
    store.reset(&FileRef { base, part })
}

/// Writes the pool's entries as a run, and empties it.
pub fn spill<S: Store>(pool: &mut Pool, w: &mut BitWriter<'_>, store: &mut S) -> Result<(), PutErr>
    requires writer { MayEnd w.old (S.files store.old) }
    requires some { 1 ≤ length pool.old.entries }
    requires entries { AreEntries pool.old.entries }
    ensures { Between S.files S.reads S.faults store.old store.new (Spilled pool.old pool.new
        w.old w.new result) }
{
    let alloc = *pool.bytes.allocator();
    let count = pool.entries;
    match write_entries(alloc, w, store, &mut pool.bytes, count) {
        Ok(()) => {}
        Err(refusal) => return Err(refusal),
    }
    pool.entries = 0;
    Ok(())
}

/// Writes the pool's entries as a run, and keeps where it begins.
fn end_run<S: Store>(
    pool: &mut Pool,
    w: &mut BitWriter<'_>,
    places: &mut Vec<u64>,
    store: &mut S,
) -> Result<(), PutErr>
    requires writer { MayEnd w.old (S.files store.old) }
    requires some { 1 ≤ length pool.old.entries }
    requires entries { AreEntries pool.old.entries }
    ensures { Between S.files S.reads S.faults store.old store.new (EndsRun pool.old pool.new
        w.old w.new places.old.items places.new.items result) }
{
    match places.push(w.place()) {
        Ok(()) => spill(pool, w, store),
        Err(_) => Err(PutErr::Memory),
    }
}

impl<'a> Runs<'a> {
    /// Takes a pool into which nothing was put before. The parts of the runs are there and empty
    /// then.
    pub fn start<S: Store>(
        alloc: Global,
        store: &mut S,
        base: &'a str,
        pool: Pool,
    ) -> Result<Self, PutErr>
        requires entries { pool.entries ≡ [] }
        requires slots { pool.slots ≡ [] }
        requires peak { pool.peak ≡ 0 }
        ensures fed { IfOk result (λ runs. IsFed runs (S.files store.new) []) }
        ensures pool { IfOk result (λ runs. runs.pool ≡ pool) }
        ensures base { IfOk result (λ runs. runs.base ≡ base.entry.now) }
        ensures run { IsSome (S.files store.old) →
            OnOk result (file_at (S.files store.new) (full_name base.entry.now Part.Run)
            ≡ Some []) }
        ensures merge_a { IsSome (S.files store.old) →
            OnOk result (file_at (S.files store.new) (full_name base.entry.now Part.MergeA)
            ≡ Some []) }
        ensures merge_b { IsSome (S.files store.old) →
            OnOk result (file_at (S.files store.new) (full_name base.entry.now Part.MergeB)
            ≡ Some []) }
        ensures others { SameButRuns base.entry.now (S.files store.old) (S.files store.new) }
        ensures told { is_some (S.files store.new) ≡ is_some (S.files store.old) }
        ensures reads { SameReads (S.reads store.old) (S.reads store.new) }
        ensures cause { HasPutCause (S.faults store.old) (S.faults store.new) result }
    {
        let _ = pool.limit();
        match reset_part(store, base, Part::MergeA) {
            Ok(()) => {}
            Err(refusal) => return Err(refusal),
        }
        match reset_part(store, base, Part::MergeB) {
            Ok(()) => {}
            Err(refusal) => return Err(refusal),
        }
        let file = FileRef {
            base,
            part: Part::Run,
        };
        let writer = match BitWriter::start(alloc, store, file) {
            Ok(writer) => writer,
            Err(refusal) => return Err(refusal),
        };
        Ok(Runs {
            alloc,
            pool,
            writer,
            places: Vec::new(alloc),
            base,
        })
    }

    /// Takes one occurrence: a term's number, and a document's, from 1. A full pool is first
    /// written as a run.
    pub fn add<S: Store>(&mut self, store: &mut S, term: u32, doc: u32) -> Result<(), PutErr>
        requires fed { (fed : List (ℕ × ℕ)) × (length fed < 2 ^ 32 - 1)
            × IsFed self.old (S.files store.old) fed }
        requires doc { 1 ≤ doc }
        ensures fed { OnOk result (TookOne S.files store.old store.new self.old self.new
            (term, doc)) }
        ensures cap { cap_of self.new.pool ≡ cap_of self.old.pool }
        ensures limit { self.new.pool.limit ≡ self.old.pool.limit }
        ensures base { self.new.base ≡ self.old.base }
        ensures wrote { WroteTo self.old.writer.name (S.files store.old) (S.files store.new)
            (S.reads store.old) (S.reads store.new) }
        ensures cause { HasPutCause (S.faults store.old) (S.faults store.new) result }
    {
        if self.pool.is_full() {
            end_run(&mut self.pool, &mut self.writer, &mut self.places, store)?;
        }
        self.pool.push(term, doc);
        Ok(())
    }

    /// Writes the rest of the occurrences as the last run, and ends the part. No occurrence at all
    /// gives no run.
    fn close<S: Store>(&mut self, store: &mut S) -> Result<(), PutErr>
        requires fed { (fed : List (ℕ × ℕ)) × IsFed self.old (S.files store.old) fed }
        ensures closed { Between S.files S.reads S.faults store.old store.new
            (RunsClosed self.old self.new result) }
    {
        if self.pool.used() > 0 {
            match end_run(&mut self.pool, &mut self.writer, &mut self.places, store) {
                Ok(()) => {}
                Err(refusal) => return Err(refusal),
            }
        }
        match self.writer.finish(store) {
            Ok(()) => {}
            Err(refusal) => return Err(refusal),
        }
        Ok(())
    }

    /// The runs of all occurrences, in a part that is ended.
    fn finish<S: Store>(self, store: &mut S) -> Result<Round<'a>, PartErr>
        requires fed { (fed : List (ℕ × ℕ)) × IsFed self (S.files store.old) fed }
        ensures finished { Between S.files S.reads S.faults store.old store.new
            (RunsFinished self.entry result) }
    {
        let mut runs = self;
        match runs.close(store) {
            Ok(()) => Ok(Round {
                pool: runs.pool,
                places: runs.places,
                file: FileRef {
                    base: runs.base,
                    part: Part::Run,
                },
            }),
            Err(refusal) => Err(refused(refusal)),
        }
    }

    /// The same as `merge`, with at most so many runs in use.
    pub(crate) fn merge_by<S: Store>(
        self,
        store: &mut S,
        width: usize,
    ) -> Result<Merge<'a>, PartErr>
        requires fed { (fed : List (ℕ × ℕ)) × IsFed self (S.files store.old) fed }
        requires some { 2 ≤ width }
        requires room { width ≤ self.pool.limit / 64 }
        ensures merged { Between S.files S.reads S.faults store.old store.new
            (RunsMerged width self.entry result) }
    {
        let alloc = self.alloc;
        let first = match self.finish(store) {
            Ok(first) => first,
            Err(refusal) => return Err(refusal),
        };
        let runs = first.places.len() as u32;
        match first.rounds(alloc, store, width) {
            Ok(last) => Merge::open(alloc, store, last, runs),
            Err(refusal) => Err(refusal),
        }
    }

    /// Writes the last run, joins runs in rounds until no more are left than the pool's width, and
    /// stands before the first posting of all.
    ///
    /// The first round reads the part of the runs and writes a merge part. Each later one reads one
    /// merge part and writes the other.
    pub fn merge<S: Store>(self, store: &mut S) -> Result<Merge<'a>, PartErr>
        requires fed { (fed : List (ℕ × ℕ)) × IsFed self (S.files store.old) fed }
        ensures left { ForFed self.entry (S.files store.old)
            (λ fed. IfOk result (λ merge.
            IsMerging merge (S.files store.new) (term_postings fed))) }
        ensures run { IsSome (S.files store.old) → ForFed self.entry (S.files store.old)
            (λ fed. OnOk result (HasRunBits self.entry (S.files store.new) fed)) }
        ensures run_bytes { IsSome (S.files store.old) → ForFed self.entry (S.files store.old)
            (λ fed. OnOk result (HasRunBytes self.entry (S.files store.new) fed)) }
        ensures runs { ForFed self.entry (S.files store.old)
            (λ fed. IfOk result (λ merge.
            merge.runs ≡ run_count (length fed) (cap_of self.entry.pool))) }
        ensures peak { ForFed self.entry (S.files store.old)
            (λ fed. IfOk result (λ merge.
            merge.peak ≡ pool_peak (length fed) self.entry.pool.limit)) }
        ensures few { IfOk result (λ merge. postings_left merge ≤ 2 ^ 56) }
        ensures base { IfOk result (λ merge. merge.base ≡ self.entry.base) }
        ensures undamaged { IsSome (S.files store.old) → NoDamage result }
        ensures worked { Between S.files S.reads S.faults store.old store.new
            (Worked self.entry.base) }
        ensures cause { HasPartCause (S.faults store.old) (S.faults store.new) result }
        ensures names { IfErr result NamesItsPart }
    {
        let width = self.pool.width() as usize;
        self.merge_by(store, width)
    }
}

//! Runs that are merged.
ghost use Rattle.std.specs.Prelude.{◌≡◌, ◌≤◌, ◌<◌, ◌+◌, ◌-◌, ◌*◌, ◌^◌, ℕ, Some, IfOk, IfSome, OnOk, OnSome, length, slice_index, slice_index_or, drop};
ghost use Rattle.mg_defs.specs.declared.TermPosting.{TermPosting};
ghost use Rattle.mg_dev.specs.Moments.{Between};
ghost use Rattle.mg_runs.specs.Pooled.{SamePool};
ghost use Rattle.mg_runs.specs.Cursors.{NoDamage, Tells};
ghost use Rattle.mg_runs.specs.Decoding.{IsInDocument};
ghost use Rattle.mg_runs.specs.Merging.{AddsTo, AreBegun, IsAlike, IsHead, key_of as key, left_together, no_cursor, first as first_of, NoneBefore, AllOpen};
ghost use Rattle.mg_runs.specs.Reading.{GroupHas, GroupMerged, GroupShaped, GroupStands, ForLefts, ForRuns, ForStep, ForTaken, ForLeft};
ghost use Rattle.mg_runs.specs.Steps.{GroupLoaded, GroupStep, HasLeft, HasSlots, LookStep};

use crate::Pool;
use crate::cursor::Cursor;
use crate::tournament::Tournament;
use crate::walk::{advanced, damage, opened};
use mg_defs::TermPosting;
use mg_dev::{FileRef, PartErr, Store};
use std::alloc::{AllocError, Global};

/// Runs of one file that are merged: of each a cursor, a slot of the pool and a key.
#[derive(Drop)]
pub struct Group<'a> {
    pub pool: Pool,
    pub cursors: Vec<Cursor>,
    pub tournament: Tournament,
    pub file: FileRef<'a>,
}

/// A number that rises with the term and the document of a cursor's posting; the greatest where
/// the cursor's run has ended.
fn key_of(cursor: &Cursor) -> u64
    ensures { result ≡ key cursor.now }
{
    if cursor.left == 0 {
        return u64::MAX;
    }
    u64::from(cursor.posting.term) * 0x1_0000_0000 + u64::from(cursor.posting.doc.saturating_sub(1))
}

/// Cursors at the first postings of the runs that begin at these bit places.
fn open_all<S: Store>(
    alloc: Global,
    store: &mut S,
    pool: &mut Pool,
    file: &FileRef<'_>,
    places: &[u64],
) -> Result<Vec<Cursor>, PartErr>
    requires slots { length pool.old.slots ≡ length places.now }
    ensures slots { length pool.new.slots ≡ length places.now }
    ensures begun { IfOk result (λ made. AreBegun (length places.now) made.items) }
    ensures told { ForRuns file.now (S.files store.old) places.now
        (λ bytes runs. Tells result (λ made.
        AllOpen pool.new.slots made.items bytes runs places.now)) }
    ensures pool { SamePool pool.old pool.new }
    ensures read { Between S.files S.reads S.faults store.old store.new
        (LookStep file.now.part result) }
{
    let mut cursors = match Vec::with_capacity(alloc, places.len()) {
        Ok(made) => made,
        Err(_) => return Err(PartErr::Memory),
    };
    for k in 0..places.len() {
        match opened(pool, store, file, k, places[k]) {
            Ok(cursor) => match cursors.push(cursor) {
                Ok(()) => {}
                Err(_) => return Err(PartErr::Memory),
            },
            Err(refusal) => return Err(refusal),
        }
    }
    Ok(cursors)
}

/// The tournament of the cursors.
fn ranked(alloc: Global, cursors: &Vec<Cursor>) -> Result<Tournament, AllocError>
    requires some { 1 ≤ length cursors.now.items }
    requires few { length cursors.now.items < 2 ^ 31 }
    ensures len { IfOk result (λ t. length t ≡ length cursors.now.items) }
    ensures keys { IfOk result (λ t. (k : ℕ) → k < length cursors.now.items →
        slice_index t k ≡ key (slice_index_or cursors.now.items k no_cursor)) }
{
    let mut tournament = Tournament::new(alloc, cursors.len() as u32)?;
    for k in 0..cursors.len() {
        let cursor = cursors[k];
        tournament.set(k as u32, key_of(&cursor));
    }
    Ok(tournament)
}

impl<'a> Group<'a> {
    /// The runs that begin at these bit places of a file, each at its first posting. The pool holds
    /// no entry, and has a slot for each run.
    pub fn load<S: Store>(
        alloc: Global,
        store: &mut S,
        mut pool: Pool,
        file: FileRef<'a>,
        places: &[u64],
    ) -> Result<Self, PartErr>
        requires slots { HasSlots pool (length places.now) }
        ensures group { Between S.files S.reads S.faults store.old store.new
            (GroupLoaded pool file.entry places.now result) }
    {
        pool.use_slots(places.len());
        match open_all(alloc, store, &mut pool, &file, places) {
            Ok(cursors) => match ranked(alloc, &cursors) {
                Ok(tournament) => Ok(Group {
                    pool,
                    cursors,
                    tournament,
                    file,
                }),
                Err(_) => Err(PartErr::Memory),
            },
            Err(refusal) => Err(refusal),
        }
    }

    /// The pool, without the runs.
    pub fn into_pool(self) -> Pool
        ensures { result ≡ self.entry.pool }
    {
        self.pool
    }

    /// The least of the postings at which cursors are, and whose it is.
    fn head(&self) -> Option<(u32, TermPosting)>
        requires shape { GroupShaped self.now }
        ensures told { ForLefts self.now (λ lefts. IsHead result lefts) }
        ensures left { IfSome result (λ head. HasLeft self.now head.0) }
        ensures in_document { IfSome result (λ head. IsInDocument head.1) }
    {
        let run = self.tournament.least();
        let cursor = self.cursors[run as usize];
        if cursor.left == 0 {
            return None;
        }
        Some((run, cursor.posting))
    }

    /// Moves a cursor to the next posting of its run.
    fn step<S: Store>(&mut self, store: &mut S, run: u32) -> Result<(), PartErr>
        requires shape { GroupShaped self.old }
        requires left { HasLeft self.old run }
        ensures told { ForStep run self.old (S.files store.old)
            (λ bytes lefts. Tells result (λ _. GroupStands self.new bytes lefts)) }
        ensures total { OnOk result
            (left_together self.new.cursors.items + 1 ≡ left_together self.old.cursors.items) }
        ensures step { Between S.files S.reads S.faults store.old store.new
            (GroupStep self.old self.new result) }
    {
        let k = run as usize;
        let cursor = self.cursors[k];
        match advanced(&mut self.pool, store, &self.file, k, &cursor) {
            Ok(next) => {
                self.cursors[k] = next;
                self.tournament.set(run, key_of(&next));
                Ok(())
            }
            Err(refusal) => Err(refusal),
        }
    }

    /// The run whose posting has this term and document, and how much it counts there.
    fn alike(&self, posting: &TermPosting) -> Option<(u32, u32)>
        requires shape { GroupShaped self.now }
        ensures some { ForLefts self.now (λ lefts. NoneBefore posting.now lefts →
            IsAlike posting.now lefts result) }
        ensures left { IfSome result (λ found. HasLeft self.now found.0) }
    {
        match self.head() {
            Some((run, head)) if head.term == posting.term && head.doc == posting.doc => {
                Some((run, head.count))
            }
            _ => None,
        }
    }

    /// The posting with the counts of all runs, where its first count was taken from one of them.
    fn gathered<S: Store>(
        &mut self,
        store: &mut S,
        first: &TermPosting,
    ) -> Result<TermPosting, PartErr>
        requires shape { GroupShaped self.old }
        ensures told { ForTaken first.now self.old (S.files store.old)
            (λ bytes base. 1 ≤ first.now.count →
            Tells result (λ p. GroupMerged self.new bytes base p)) }
        ensures adds { IfOk result (λ p. AddsTo first.now p) }
        ensures step { Between S.files S.reads S.faults store.old store.new
            (GroupStep self.old self.new result) }
    {
        let mut count = first.count;
        while let Some((run, more)) = self.alike(first) {
            match count.checked_add(more) {
                Some(sum) => count = sum,
                None => return Err(damage(self.file.part, 0)),
            }
            match self.step(store, run) {
                Ok(()) => {}
                Err(refusal) => return Err(refusal),
            }
        }
        Ok(TermPosting {
            term: first.term,
            doc: first.doc,
            count,
        })
    }

    /// The next posting of all runs, with the counts of those that have its term and document.
    pub fn next<S: Store>(&mut self, store: &mut S) -> Result<Option<TermPosting>, PartErr>
        requires shape { GroupShaped self.old }
        ensures told { ForLeft self.old (S.files store.old)
            (λ bytes left. IfOk result (λ p. (p ≡ first_of left)
            × GroupHas self.new bytes (drop 1 left))) }
        ensures undamaged { ForLeft self.old (S.files store.old) (λ _ _. NoDamage result) }
        ensures doc { IfOk result (λ p. IfSome p (λ x. 1 ≤ x.doc)) }
        ensures count { IfOk result (λ p. IfSome p (λ x. 1 ≤ x.count)) }
        ensures fall { IfOk result (λ p. OnSome p
            (left_together self.new.cursors.items < left_together self.old.cursors.items)) }
        ensures step { Between S.files S.reads S.faults store.old store.new
            (GroupStep self.old self.new result) }
    {
        let (run, first) = match self.head() {
            Some(head) => head,
            None => return Ok(None),
        };
        match self.step(store, run) {
            Ok(()) => match self.gathered(store, &first) {
                Ok(posting) => Ok(Some(posting)),
                Err(refusal) => Err(refusal),
            },
            Err(refusal) => Err(refusal),
        }
    }
}

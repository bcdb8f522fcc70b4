//! Runs of one file that are joined into runs of another.
ghost use Rattle.std.specs.Prelude.{◌≡◌, ◌≤◌, ◌<◌, ◌+◌, ◌↔◌, ◌^◌, ℕ, Err, IfOk, OnOk, OnSome, IsTrue, length, ◌%◌};
ghost use Rattle.mg_dev.specs.declared.part.Part.{Part as AnyPart};
ghost use Rattle.mg_dev.specs.Causes.{HasPutCause};
ghost use Rattle.mg_dev.specs.Moments.{Between};
ghost use Rattle.mg_dev.specs.PartCauses.{HasPartCause};
ghost use Rattle.mg_defs.specs.Postings.{merged};
ghost use Rattle.mg_defs.specs.declared.TermPosting.{TermPosting};
ghost use Rattle.mg_runs.specs.Cursors.{NoDamage, Tells};
ghost use Rattle.mg_runs.specs.Damages.{NamesItsPart, NamesPart};
ghost use Rattle.mg_runs.specs.Merging.{AreRuns, left_together};
ghost use Rattle.mg_runs.specs.PostingOrder.{Follows};
ghost use Rattle.mg_runs.specs.Joins.{WrotePostings, WritesPostings, WritesRun, Counts};
ghost use Rattle.mg_runs.specs.Reading.{ForCounted, ForRuns, ForGroup, ForLeft, ForLeftRun, ForPutting, GroupShaped, PutSince};
ghost use Rattle.mg_runs.specs.Steps.{GroupLook, GroupWrite, HasSlots, LookStep, MayJoin, MayPut, PoolBack, RunStep};

use crate::Pool;
use crate::decode::MOST_LEFT;
use crate::group::Group;
use crate::posting::{put_number, put_posting};
use crate::walk::damage;
use mg_bits::BitWriter;
use mg_defs::TermPosting;
use mg_dev::{FileRef, PartErr, PutErr, Store};
use std::alloc::Global;

/// The most bits that runs have, where no more postings are put.
const MOST_BITS: u64 = 1 << 61;

/// A writer's refusal as a reader's.
pub fn refused(refusal: PutErr) -> PartErr
    ensures cause { (f g : ℕ) → HasPutCause {T = ℕ} f g (Err refusal) →
        HasPartCause {T = ℕ} f g (Err result) }
    ensures undamaged { NoDamage {T = ℕ} (Err result) }
    ensures names { (part : AnyPart) → NamesPart part result }
    ensures names_its { NamesItsPart result }
{
    match refusal {
        PutErr::Failed => PartErr::Device,
        PutErr::Memory => PartErr::Memory,
    }
}

/// How many postings the runs have.
fn count_postings<S: Store>(group: &mut Group<'_>, store: &mut S) -> Result<u64, PartErr>
    requires shape { GroupShaped group.old }
    ensures told { ForLeft group.old (S.files store.old)
        (λ _ left. IfOk result (λ count. count ≡ length left)) }
    ensures undamaged { ForLeft group.old (S.files store.old)
        (λ _ left. length left < 2 ^ 32 → NoDamage result) }
    ensures few { IfOk result (λ count. count < 2 ^ 32) }
    ensures read { Between S.files S.reads S.faults store.old store.new
        (GroupLook group.old group.new result) }
{
    let mut count = 0u64;
    loop {
        match group.next(store) {
            Ok(Some(_)) => {
                if count > MOST_LEFT {
                    return Err(damage(group.file.part, 0));
                }
                count += 1;
            }
            Ok(None) => return Ok(count),
            Err(refusal) => return Err(refusal),
        }
    }
}

/// Whether a posting may stand behind another one in a run.
fn can_follow(last: &TermPosting, posting: &TermPosting) -> bool
    ensures { IsTrue result ↔ Follows last.now posting.now }
{
    (posting.term > last.term || (posting.term == last.term && posting.doc > last.doc))
        && posting.doc >= 1
        && posting.count >= 1
}

/// Writes the next posting of the runs behind another one, and answers it.
fn put_next<S: Store>(
    group: &mut Group<'_>,
    store: &mut S,
    w: &mut BitWriter<'_>,
    last: &TermPosting,
) -> Result<Option<TermPosting>, PartErr>
    requires ready { MayPut group.old w.old (S.files store.old) }
    ensures shape { OnOk result (GroupShaped group.new) }
    ensures told { ForPutting last.now group.old (S.files store.old) w.old
        (λ from. Tells result (PutSince from group.new (S.files store.new) w.new)) }
    ensures total { IfOk result (λ put. OnSome put
        (left_together group.new.cursors.items < left_together group.old.cursors.items)) }
    ensures place { OnOk result (w.old.place ≤ 2 ^ 61 + 256 → w.new.place ≤ 2 ^ 61 + 256) }
    ensures step { Between S.files S.reads S.faults store.old store.new
        (GroupWrite group.old group.new w.old w.new result) }
{
    match group.next(store) {
        Ok(Some(posting)) => {
            if w.place() > MOST_BITS || !can_follow(last, &posting) {
                return Err(damage(group.file.part, 0));
            }
            match put_posting(w, store, last, &posting) {
                Ok(()) => Ok(Some(posting)),
                Err(refusal) => Err(refused(refusal)),
            }
        }
        Ok(None) => Ok(None),
        Err(refusal) => Err(refusal),
    }
}

/// Writes the postings of the runs, without the zero-bits behind them.
fn put_postings<S: Store>(
    group: &mut Group<'_>,
    store: &mut S,
    w: &mut BitWriter<'_>,
) -> Result<(), PartErr>
    requires ready { MayPut group.old w.old (S.files store.old) }
    requires place { w.old.place ≤ 2 ^ 61 + 256 }
    ensures told { ForLeftRun group.old (S.files store.old) w.old.place (λ left.
        Tells result (λ _. WrotePostings S.files store.old store.new w.old w.new left)) }
    ensures place { OnOk result (w.new.place ≤ 2 ^ 61 + 256) }
    ensures step { Between S.files S.reads S.faults store.old store.new
        (GroupWrite group.old group.new w.old w.new result) }
{
    let mut last = TermPosting {
        term: 0,
        doc: 0,
        count: 0,
    };
    loop {
        match put_next(group, store, w, &last) {
            Ok(Some(posting)) => last = posting,
            Ok(None) => return Ok(()),
            Err(refusal) => return Err(refusal),
        }
    }
}

/// A pool, and how many postings runs have that were read through it.
#[derive(Drop)]
struct Counted {
    pool: Pool,
    count: u64,
}

/// How many postings the runs have that begin at these bit places of a file.
fn count_runs<S: Store>(
    alloc: Global,
    store: &mut S,
    pool: Pool,
    file: FileRef<'_>,
    places: &[u64],
) -> Result<Counted, PartErr>
    requires slots { HasSlots pool (length places.now) }
    ensures told { ForRuns file.entry (S.files store.old) places.now
        (λ _ runs. AreRuns runs → IfOk result (λ made. Counts made runs)) }
    ensures undamaged { ForRuns file.entry (S.files store.old) places.now
        (λ _ runs. AreRuns runs → length (merged runs) < 2 ^ 32 → NoDamage result) }
    ensures few { IfOk result (λ made. made.count < 2 ^ 32) }
    ensures pool { IfOk result (λ made. PoolBack (length places.now) pool made.pool) }
    ensures read { Between S.files S.reads S.faults store.old store.new
        (LookStep file.entry.part result) }
{
    let mut group = match Group::load(alloc, store, pool, file, places) {
        Ok(group) => group,
        Err(refusal) => return Err(refusal),
    };
    match count_postings(&mut group, store) {
        Ok(count) => Ok(Counted {
            pool: group.into_pool(),
            count,
        }),
        Err(refusal) => Err(refusal),
    }
}

/// Writes the postings of the runs, which are so many, as one run, which ends at a byte.
fn put_run<S: Store>(
    group: &mut Group<'_>,
    store: &mut S,
    w: &mut BitWriter<'_>,
    count: u64,
) -> Result<(), PartErr>
    requires ready { MayPut group.old w.old (S.files store.old) }
    requires count_some { 1 ≤ count }
    requires count_few { count < 2 ^ 32 }
    requires whole { w.old.place % 8 ≡ 0 }
    requires place { w.old.place ≤ 2 ^ 61 }
    ensures told { ForLeftRun group.old (S.files store.old) (w.old.place + 66) (λ left.
        count ≡ length left →
        WritesPostings S.files store.old store.new w.old w.new result left) }
    ensures place { OnOk result (w.new.place ≤ 2 ^ 61 + 264) }
    ensures whole { OnOk result (w.new.place % 8 ≡ 0) }
    ensures step { Between S.files S.reads S.faults store.old store.new
        (GroupWrite group.old group.new w.old w.new result) }
{
    match put_number(w, store, count) {
        Ok(()) => {}
        Err(refusal) => return Err(refused(refusal)),
    }
    match put_postings(group, store, w) {
        Ok(()) => {}
        Err(refusal) => return Err(refusal),
    }
    match w.align(store) {
        Ok(()) => Ok(()),
        Err(refusal) => Err(refused(refusal)),
    }
}

/// Joins the runs that begin at these bit places of a file, which have so many postings, into one
/// run, which ends at a byte.
fn join_counted<S: Store>(
    alloc: Global,
    store: &mut S,
    counted: Counted,
    file: FileRef<'_>,
    places: &[u64],
    w: &mut BitWriter<'_>,
) -> Result<Pool, PartErr>
    requires ready { MayJoin counted.pool file places.now w.old (S.files store.old) }
    requires count_some { 1 ≤ counted.count }
    requires count_few { counted.count < 2 ^ 32 }
    requires place { w.old.place ≤ 2 ^ 61 }
    ensures told { ForCounted counted file.entry (S.files store.old) places.now w.old.place
        (WritesRun S.files store.old store.new w.old w.new result) }
    ensures pool { IfOk result (λ made. PoolBack (length places.now) counted.pool made) }
    ensures step { Between S.files S.reads S.faults store.old store.new
        (RunStep file.entry.part w.old w.new result) }
{
    let Counted { pool, count } = counted;
    let mut group = match Group::load(alloc, store, pool, file, places) {
        Ok(group) => group,
        Err(refusal) => return Err(refusal),
    };
    match put_run(&mut group, store, w, count) {
        Ok(()) => Ok(group.into_pool()),
        Err(refusal) => Err(refusal),
    }
}

/// Joins the runs that begin at these bit places of a file into one run, which ends at a byte.
/// The number of its postings stands before them, so these are read twice.
pub fn join<S: Store>(
    alloc: Global,
    store: &mut S,
    pool: Pool,
    file: FileRef<'_>,
    places: &[u64],
    w: &mut BitWriter<'_>,
) -> Result<Pool, PartErr>
    requires ready { MayJoin pool file places.now w.old (S.files store.old) }
    ensures told { ForGroup file.entry (S.files store.old) places.now w.old.place
        (WritesRun S.files store.old store.new w.old w.new result) }
    ensures pool { IfOk result (λ made. PoolBack (length places.now) pool made) }
    ensures step { Between S.files S.reads S.faults store.old store.new
        (RunStep file.entry.part w.old w.new result) }
{
    let counted = match count_runs(alloc, store, pool, file, places) {
        Ok(counted) => counted,
        Err(refusal) => return Err(refusal),
    };
    if counted.count == 0 || w.place() > MOST_BITS {
        return Err(damage(file.part, 0));
    }
    join_counted(alloc, store, counted, file, places, w)
}

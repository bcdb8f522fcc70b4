//! A run that is written anew and compared as it is written.
ghost use Rattle.std.specs.Prelude.{◌≡◌, ◌≤◌, ◌+◌, ◌*◌, ◌^◌, IfErr, IfOk, IsSome, OnOk, length, true};
ghost use Rattle.mg_dev.specs.Causes.{HasPutCause};
ghost use Rattle.mg_dev.specs.Files.{bytes_at, file_bytes};
ghost use Rattle.mg_dev.specs.Moments.{Between};
ghost use Rattle.mg_dev.specs.Names.{full_name};
ghost use Rattle.mg_bits.specs.Writer.{WroteTo};
ghost use Rattle.mg_layout.specs.Contents.{StandAt};
ghost use Rattle.mg_check_index.specs.Counting.{CanBeRun, SizesRun, run_of_pool};
ghost use Rattle.mg_check_index.specs.InStore.{followed, own_name};
ghost use Rattle.mg_check_parts.specs.Looks.{LooksAtSet, is_of_set, reads_outside};
ghost use Rattle.mg_check_parts.specs.Refusals.{Refutes};

use crate::comparing_store::{BASE, ComparingStore};
use mg_bits::BitWriter;
use mg_dev::{FileRef, Part, PartErr, PutErr, Store};
use mg_runs::{Pool, spill};
use std::alloc::Global;

// Writes a pool's entries as a run, and empties the pool. Answers how many bytes the run has.
fn write_into<S: Store>(alloc: Global, store: &mut S, pool: &mut Pool) -> Result<u64, PutErr>
    requires run { CanBeRun pool.old }
    ensures written { IsSome (S.files store.old) →
        OnOk result (bytes_at (S.files store.new) own_name ≡ run_of_pool pool.old) }
    ensures size { SizesRun pool.old pool.new result }
    ensures wrote { WroteTo own_name (S.files store.old) (S.files store.new) (S.reads store.old)
        (S.reads store.new) }
    ensures cause { HasPutCause (S.faults store.old) (S.faults store.new) result }
{
    let file = FileRef {
        base: BASE,
        part: Part::Plain,
    };
    let mut writer = match BitWriter::start(alloc, store, file) {
        Ok(writer) => writer,
        Err(refusal) => return Err(refusal),
    };
    match spill(pool, &mut writer, store) {
        Ok(()) => {}
        Err(refusal) => return Err(refusal),
    }
    let count = writer.place() / 8;
    match writer.finish(store) {
        Ok(()) => Ok(count),
        Err(refusal) => Err(refusal),
    }
}

// The same into a store that compares, told by the store with which it compares.
fn write_run<S: Store>(
    alloc: Global,
    into: &mut ComparingStore<'_, S>,
    pool: &mut Pool,
) -> Result<u64, PutErr>
    requires run { CanBeRun pool.old }
    requires unread { into.old.looked ≡ 0 }
    ensures same_reference { into.new.store.ghost_name ≡ into.old.store.ghost_name }
    ensures name { full_name into.new.file.base.now into.new.file.part
        ≡ full_name into.old.file.base.now into.old.file.part }
    ensures from { into.new.from ≡ into.old.from }
    ensures written { IsSome (S.files into.old.store.now) →
        OnOk result (followed (S.files into.old.store.now)
        (full_name into.old.file.base.now into.old.file.part) into.old.from into.new.standing
        into.new.rest.now.items ≡ run_of_pool pool.old) }
    ensures size { SizesRun pool.old pool.new result }
    ensures files { S.files into.new.store.now ≡ S.files into.old.store.now }
    ensures outside { reads_outside (S.reads into.new.store.now)
        ≡ reads_outside (S.reads into.old.store.now) }
    ensures cause { HasPutCause (S.faults into.old.store.now) (S.faults into.new.store.now)
        result }
{
    write_into(alloc, into, pool)
}

/// Sees that a pool's run stands in a part from a place on, and empties the pool. Answers how many bytes the run has; they
/// are compared a page at a time.
pub(crate) fn expect_run<S: Store>(
    alloc: Global,
    store: &mut S,
    file: FileRef<'_>,
    at: u64,
    pool: &mut Pool,
) -> Result<u64, PartErr>
    requires of_set { is_of_set file.part ≡ true }
    requires place { at ≤ 2 ^ 63 }
    requires run { CanBeRun pool.old }
    ensures stand { IsSome (S.files store.old) → OnOk result
        (StandAt at (run_of_pool pool.old) (file_bytes file.entry (S.files store.old))) }
    ensures other { IsSome (S.files store.old) → IfErr result (Refutes
        (StandAt at (run_of_pool pool.old) (file_bytes file.entry (S.files store.old)))) }
    ensures size { SizesRun pool.old pool.new result }
    ensures looks { Between S.files S.reads S.faults store.old store.new (LooksAtSet result) }
{
    let mut rest = Vec::new(alloc);
    let mut into = ComparingStore::new(store, file, at, &mut rest);
    let count = match write_run(alloc, &mut into, pool) {
        Ok(count) => count,
        Err(PutErr::Failed) => return Err(PartErr::Device),
        Err(PutErr::Memory) => return Err(PartErr::Memory),
    };
    match into.finish() {
        Ok(()) => Ok(count),
        Err(refusal) => Err(refusal),
    }
}

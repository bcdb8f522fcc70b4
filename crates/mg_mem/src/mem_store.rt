//! A store in memory whose calls fail where it is told to.
ghost use Rattle.std.specs.Prelude.{◌≡◌, ◌≢◌, ◌≤◌, ◌↔◌, ℕ, None, Some, IsSome, IsErr, IsErrOf, OnOk, OnErr};
ghost use Rattle.std.specs.Io.{ReadsAtMost};
ghost use Rattle.std.specs.Option.{option_copied};
ghost use Rattle.mg_dev.specs.Causes.{Rose, HasCause, HasPutCause};
ghost use Rattle.mg_dev.specs.Names.{file_name};
ghost use Rattle.mg_dev.specs.Files.{no_files, file_at, written, no_reads, OneRead, SameReads, IsSize, IsRead, AfterReset, AfterAppend};
ghost use Rattle.mg_mem.specs.Plans.{calls_of, keep_at, next_keep, AfterCall, FailsAt, FailsFrom, SamePlan};
ghost use Rattle.mg_mem.specs.Mem.{store_plan, AppendKept};

use crate::SureStore;
use crate::failure_plan::FailurePlan;
use mg_dev::{Failed, FileRef, Part, PutErr, Store};
use std::alloc::{AllocError, Global};

/// Files in memory, which the store tells, and calls that fail where a test planned it. The four
/// calls of the trait are numbered together, from 0.
#[derive(Drop)]
pub struct MemStore {
    inner: SureStore,
    plan: FailurePlan,
    faults: u64,
}

impl MemStore {
    /// A store with no files, of which no call is to fail.
    pub fn new(alloc: Global) -> Self
        ensures files { ⟦<MemStore as Store>⟧.files result ≡ Some no_files }
        ensures faults { ⟦<MemStore as Store>⟧.faults result ≡ 0 }
        ensures reads { SameReads no_reads (⟦<MemStore as Store>⟧.reads result) }
        ensures calls { calls_of (store_plan result) ≡ 0 }
        ensures plan { (n : ℕ) → keep_at (store_plan result) n ≡ None }
    {
        MemStore {
            inner: SureStore::new(alloc),
            plan: FailurePlan::new(alloc),
            faults: 0,
        }
    }

    /// Sets one file. After want of memory nothing changed.
    pub fn put_file(&mut self, name: &str, bytes: &[u8]) -> Result<(), AllocError>
        ensures ok { OnOk result (⟦<MemStore as Store>⟧.files self.new
            ≡ written (⟦<MemStore as Store>⟧.files self.old) name.now bytes.now) }
        ensures err { OnErr result (⟦<MemStore as Store>⟧.files self.new
            ≡ ⟦<MemStore as Store>⟧.files self.old) }
        ensures faults { ⟦<MemStore as Store>⟧.faults self.new
            ≡ ⟦<MemStore as Store>⟧.faults self.old }
        ensures reads { SameReads (⟦<MemStore as Store>⟧.reads self.old)
            (⟦<MemStore as Store>⟧.reads self.new) }
        ensures plan { store_plan self.new ≡ store_plan self.old }
    {
        self.inner.put_file(name, bytes)
    }

    /// The bytes of a file, or None where it is missing.
    pub fn file(&self, name: &str) -> Option<&[u8]>
        ensures { option_copied result ≡ file_at (⟦<MemStore as Store>⟧.files self.now) name.now }
    {
        self.inner.file(name)
    }

    /// Makes the call of this number fail. An append that fails keeps the first `keep` bytes of
    /// its piece, or all of a shorter one. After want of memory nothing changed.
    pub fn fail_at(&mut self, call: u64, keep: u64) -> Result<(), AllocError>
        ensures ok { OnOk result (FailsAt (store_plan self.old) (store_plan self.new) call keep) }
        ensures err { OnErr result (SamePlan (store_plan self.old) (store_plan self.new)) }
        ensures files { ⟦<MemStore as Store>⟧.files self.new
            ≡ ⟦<MemStore as Store>⟧.files self.old }
        ensures faults { ⟦<MemStore as Store>⟧.faults self.new
            ≡ ⟦<MemStore as Store>⟧.faults self.old }
        ensures reads { SameReads (⟦<MemStore as Store>⟧.reads self.old)
            (⟦<MemStore as Store>⟧.reads self.new) }
    {
        self.plan.fail_at(call, keep)
    }

    /// Makes each call from this number on fail, and keep nothing.
    pub fn fail_from(&mut self, call: u64)
        ensures plan { FailsFrom (store_plan self.old) (store_plan self.new) call }
        ensures files { ⟦<MemStore as Store>⟧.files self.new
            ≡ ⟦<MemStore as Store>⟧.files self.old }
        ensures faults { ⟦<MemStore as Store>⟧.faults self.new
            ≡ ⟦<MemStore as Store>⟧.faults self.old }
        ensures reads { SameReads (⟦<MemStore as Store>⟧.reads self.old)
            (⟦<MemStore as Store>⟧.reads self.new) }
    {
        self.plan.fail_from(call);
    }

    /// How many calls of the trait there were, up to 2^64 - 1.
    pub fn calls(&self) -> u64
        ensures { result ≡ calls_of (store_plan self.now) }
    {
        self.plan.calls()
    }

    /// How often a part was read.
    pub fn reads_of(&self, part: Part) -> u64
        ensures { result ≡ ⟦<MemStore as Store>⟧.reads self.now part }
    {
        self.inner.reads_of(part)
    }

    // Counts a failure.
    fn failed(&mut self) -> Failed
        ensures inner { self.new.inner ≡ self.old.inner }
        ensures plan { self.new.plan ≡ self.old.plan }
        ensures later { self.old.faults ≤ self.new.faults }
        ensures rose { Rose self.old.faults self.new.faults }
    {
        self.faults = self.faults.saturating_add(1);
        Failed
    }
}

impl Store for MemStore {
    ghost files = { λ s. ⟦<SureStore as Store>⟧.files s.inner };

    ghost faults = { λ s. s.faults };

    ghost reads = { λ s. ⟦<SureStore as Store>⟧.reads s.inner };

    fn size(&mut self, file: &FileRef<'_>) -> Result<Option<u64>, Failed>
        ensures answer { IsSize (⟦<MemStore as Store>⟧.files self.old) (file_name file.now) result }
        ensures files { ⟦<MemStore as Store>⟧.files self.new
            ≡ ⟦<MemStore as Store>⟧.files self.old }
        ensures reads { SameReads (⟦<MemStore as Store>⟧.reads self.old)
            (⟦<MemStore as Store>⟧.reads self.new) }
        ensures cause { HasCause (⟦<MemStore as Store>⟧.faults self.old)
            (⟦<MemStore as Store>⟧.faults self.new) result }
        ensures planned { IsErr result ↔ IsSome (next_keep (store_plan self.old)) }
        ensures counted { AfterCall (store_plan self.old) (store_plan self.new) }
        ensures calm { OnOk result (⟦<MemStore as Store>⟧.faults self.new
            ≡ ⟦<MemStore as Store>⟧.faults self.old) }
    {
        if self.plan.begin().is_some() {
            return Err(self.failed());
        }
        self.inner.size(file)
    }

    fn read_at(&mut self, file: &FileRef<'_>, at: u64, buf: &mut [u8]) -> Result<usize, Failed>
        ensures bound { ReadsAtMost result buf.new }
        ensures bytes { IsRead (⟦<MemStore as Store>⟧.files self.old) (file_name file.now) at
            buf.new result }
        ensures files { ⟦<MemStore as Store>⟧.files self.new
            ≡ ⟦<MemStore as Store>⟧.files self.old }
        ensures reads { OneRead (⟦<MemStore as Store>⟧.reads self.old)
            (⟦<MemStore as Store>⟧.reads self.new) file.now.part }
        ensures cause { HasCause (⟦<MemStore as Store>⟧.faults self.old)
            (⟦<MemStore as Store>⟧.faults self.new) result }
        ensures planned { IsErr result ↔ IsSome (next_keep (store_plan self.old)) }
        ensures counted { AfterCall (store_plan self.old) (store_plan self.new) }
        ensures calm { OnOk result (⟦<MemStore as Store>⟧.faults self.new
            ≡ ⟦<MemStore as Store>⟧.faults self.old) }
    {
        if self.plan.begin().is_some() {
            self.inner.count_failed_read(file.part);
            return Err(self.failed());
        }
        self.inner.read_at(file, at, buf)
    }

    fn reset(&mut self, file: &FileRef<'_>) -> Result<(), PutErr>
        ensures content { AfterReset (⟦<MemStore as Store>⟧.files self.old)
            (⟦<MemStore as Store>⟧.files self.new) (file_name file.now) result }
        ensures reads { SameReads (⟦<MemStore as Store>⟧.reads self.old)
            (⟦<MemStore as Store>⟧.reads self.new) }
        ensures cause { HasPutCause (⟦<MemStore as Store>⟧.faults self.old)
            (⟦<MemStore as Store>⟧.faults self.new) result }
        ensures planned { IsErrOf result PutErr.Failed ↔ IsSome (next_keep (store_plan self.old)) }
        ensures err { OnErr result (⟦<MemStore as Store>⟧.files self.new
            ≡ ⟦<MemStore as Store>⟧.files self.old) }
        ensures counted { AfterCall (store_plan self.old) (store_plan self.new) }
        ensures calm { result ≢ Err PutErr.Failed → ⟦<MemStore as Store>⟧.faults self.new
            ≡ ⟦<MemStore as Store>⟧.faults self.old }
    {
        if self.plan.begin().is_some() {
            self.failed();
            return Err(PutErr::Failed);
        }
        self.inner.reset(file)
    }

    /// Where the append is to fail and there is no memory for the bytes that it keeps, it answers
    /// `Memory` and keeps none.
    fn append(&mut self, file: &FileRef<'_>, piece: &[u8]) -> Result<(), PutErr>
        ensures content { AfterAppend (⟦<MemStore as Store>⟧.files self.old)
            (⟦<MemStore as Store>⟧.files self.new) (file_name file.now) piece.now result }
        ensures reads { SameReads (⟦<MemStore as Store>⟧.reads self.old)
            (⟦<MemStore as Store>⟧.reads self.new) }
        ensures cause { HasPutCause (⟦<MemStore as Store>⟧.faults self.old)
            (⟦<MemStore as Store>⟧.faults self.new) result }
        ensures refused { IsSome (next_keep (store_plan self.old)) → IsErr result }
        ensures failed { IsErrOf result PutErr.Failed → IsSome (next_keep (store_plan self.old)) }
        ensures kept { IsErrOf result PutErr.Failed →
            AppendKept ⟦<MemStore as Store>⟧.files self.old self.new (file_name file.now)
            piece.now }
        ensures memory { IsErrOf result PutErr.Memory → ⟦<MemStore as Store>⟧.files self.new
            ≡ ⟦<MemStore as Store>⟧.files self.old }
        ensures counted { AfterCall (store_plan self.old) (store_plan self.new) }
        ensures calm { result ≢ Err PutErr.Failed → ⟦<MemStore as Store>⟧.faults self.new
            ≡ ⟦<MemStore as Store>⟧.faults self.old }
    {
        match self.plan.begin() {
            None => self.inner.append(file, piece),
            Some(keep) => {
                let count = piece.len().min(keep as usize);
                if count > 0 {
                    self.inner.append(file, &piece[..count])?;
                }
                self.failed();
                Err(PutErr::Failed)
            }
        }
    }
}

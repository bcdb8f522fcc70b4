//! A store in memory that never fails.
ghost use Rattle.std.specs.Prelude.{◌≡◌, ◌≢◌, ◌+◌, ◌-◌, ◌^◌, ◌≤◌, [], IsOk, min, take, drop, length, unwrap_or, Some, OnOk, OnErr, slice_index};
ghost use Rattle.std.specs.Io.{ReadsAtMost};
ghost use Rattle.std.specs.Option.{option_copied};
ghost use Rattle.mg_dev.specs.Causes.{HasCause, HasPutCause};
ghost use Rattle.mg_dev.specs.Names.{file_name, full_name, number};
ghost use Rattle.mg_dev.specs.Files.{no_files, file_at, written, no_reads, OneRead, SameReads, IsSize, IsRead, AfterReset, AfterAppend};
ghost use Rattle.mg_mem.specs.Shelf.{files_of};
ghost use Rattle.mg_mem.specs.Mem.{store_calls};
ghost use Rattle.mg_dev.specs.declared.part.Part.{Part};

use crate::shelf::Shelf;
use mg_dev::{Failed, FileRef, Part, PutErr, Store, count_read};
use std::alloc::{AllocError, Global};

/// Files in memory, which the store tells. It never fails; only memory may be wanting, and then
/// all files are as before.
#[derive(Drop)]
pub struct SureStore {
    shelf: Shelf,
    reads: [u64; 14],
    calls: u64,
}

#[tactic(auto, unfolding(mg_dev::specs::Files::written, mg_dev::specs::Files::file_at))]
impl SureStore {
    /// A store with no files.
    pub fn new(alloc: Global) -> Self
        ensures files { ⟦<SureStore as Store>⟧.files result ≡ Some no_files }
        ensures reads { SameReads no_reads (⟦<SureStore as Store>⟧.reads result) }
        ensures calls { store_calls result ≡ 0 }
    {
        SureStore {
            shelf: Shelf::new(alloc),
            reads: [0; 14],
            calls: 0,
        }
    }

    /// Sets one file. After want of memory nothing changed.
    pub fn put_file(&mut self, name: &str, bytes: &[u8]) -> Result<(), AllocError>
        ensures ok { OnOk result (⟦<SureStore as Store>⟧.files self.new
            ≡ written (⟦<SureStore as Store>⟧.files self.old) name.now bytes.now) }
        ensures err { OnErr result (⟦<SureStore as Store>⟧.files self.new
            ≡ ⟦<SureStore as Store>⟧.files self.old) }
        ensures reads { SameReads (⟦<SureStore as Store>⟧.reads self.old)
            (⟦<SureStore as Store>⟧.reads self.new) }
        ensures calls { store_calls self.new ≡ store_calls self.old }
    {
        let file = whole(name);
        let bytes = bytes.to_vec(self.shelf.allocator())?;
        self.shelf.set(&file, bytes)
    }

    /// The bytes of a file, or None where it is missing.
    pub fn file(&self, name: &str) -> Option<&[u8]>
        ensures { option_copied result ≡ file_at (⟦<SureStore as Store>⟧.files self.now) name.now }
    {
        self.shelf.bytes(&whole(name))
    }

    /// How many calls of the trait there were, up to 2^64 - 1.
    pub fn calls(&self) -> u64
        ensures { result ≡ store_calls self.now }
    {
        self.calls
    }

    /// How often a part was read.
    pub fn reads_of(&self, part: Part) -> u64
        ensures { result ≡ ⟦<SureStore as Store>⟧.reads self.now part }
    {
        self.reads[part.number()]
    }

    // Counts a read that is not made.
    pub(crate) fn count_failed_read(&mut self, part: Part)
        ensures files { ⟦<SureStore as Store>⟧.files self.new
            ≡ ⟦<SureStore as Store>⟧.files self.old }
        ensures reads { OneRead (⟦<SureStore as Store>⟧.reads self.old)
            (⟦<SureStore as Store>⟧.reads self.new) part }
    {
        count_read(&mut self.reads, part);
    }
}

// The file that a whole name names.
#[tactic(auto, unfolding(mg_dev::specs::Names::full_name))]
fn whole(name: &str) -> FileRef<'_>
    ensures { full_name result.base.now result.part ≡ name.now }
{
    FileRef {
        base: name,
        part: Part::Plain,
    }
}

// As many bytes from a place on as there are and the buffer takes.
fn read_from(bytes: Option<&[u8]>, at: u64, buf: &mut [u8]) -> usize
    ensures bound { result ≤ length buf.new }
    ensures bytes { take result buf.new ≡ take (length buf.new)
        (drop at (unwrap_or (option_copied bytes.entry) [])) }
{
    let all = bytes.unwrap_or(&[]);
    let rest = all.get(at as usize..).unwrap_or(&[]);
    let count = rest.len().min(buf.len());
    buf[..count].copy_from_slice(&rest[..count]);
    count
}

#[tactic(auto, unfolding(mg_dev::specs::Files::written, mg_dev::specs::Files::file_at))]
impl Store for SureStore {
    ghost files = { λ s. Some (files_of s.shelf.files.items) };

    ghost faults = { λ _. 0 };

    ghost reads = { λ s p. slice_index s.reads (number p) };

    fn size(&mut self, file: &FileRef<'_>) -> Result<Option<u64>, Failed>
        ensures answer { IsSize (⟦<SureStore as Store>⟧.files self.old) (file_name file.now)
            result }
        ensures files { ⟦<SureStore as Store>⟧.files self.new
            ≡ ⟦<SureStore as Store>⟧.files self.old }
        ensures reads { SameReads (⟦<SureStore as Store>⟧.reads self.old)
            (⟦<SureStore as Store>⟧.reads self.new) }
        ensures cause { HasCause (⟦<SureStore as Store>⟧.faults self.old)
            (⟦<SureStore as Store>⟧.faults self.new) result }
        ensures sure { IsOk result }
        ensures calls { store_calls self.new ≡ min (store_calls self.old + 1) (2 ^ 64 - 1) }
    {
        self.calls = self.calls.saturating_add(1);
        Ok(self.shelf.bytes(file).map(|bytes| bytes.len() as u64))
    }

    fn read_at(&mut self, file: &FileRef<'_>, at: u64, buf: &mut [u8]) -> Result<usize, Failed>
        ensures bound { ReadsAtMost result buf.new }
        ensures bytes { IsRead (⟦<SureStore as Store>⟧.files self.old) (file_name file.now) at
            buf.new result }
        ensures files { ⟦<SureStore as Store>⟧.files self.new
            ≡ ⟦<SureStore as Store>⟧.files self.old }
        ensures reads { OneRead (⟦<SureStore as Store>⟧.reads self.old)
            (⟦<SureStore as Store>⟧.reads self.new) file.now.part }
        ensures cause { HasCause (⟦<SureStore as Store>⟧.faults self.old)
            (⟦<SureStore as Store>⟧.faults self.new) result }
        ensures sure { IsOk result }
        ensures calls { store_calls self.new ≡ min (store_calls self.old + 1) (2 ^ 64 - 1) }
    {
        self.calls = self.calls.saturating_add(1);
        count_read(&mut self.reads, file.part);
        Ok(read_from(self.shelf.bytes(file), at, buf))
    }

    fn reset(&mut self, file: &FileRef<'_>) -> Result<(), PutErr>
        ensures content { AfterReset (⟦<SureStore as Store>⟧.files self.old)
            (⟦<SureStore as Store>⟧.files self.new) (file_name file.now) result }
        ensures reads { SameReads (⟦<SureStore as Store>⟧.reads self.old)
            (⟦<SureStore as Store>⟧.reads self.new) }
        ensures cause { HasPutCause (⟦<SureStore as Store>⟧.faults self.old)
            (⟦<SureStore as Store>⟧.faults self.new) result }
        ensures sure { result ≢ Err PutErr.Failed }
        ensures err { OnErr result (⟦<SureStore as Store>⟧.files self.new
            ≡ ⟦<SureStore as Store>⟧.files self.old) }
        ensures calls { store_calls self.new ≡ min (store_calls self.old + 1) (2 ^ 64 - 1) }
    {
        self.calls = self.calls.saturating_add(1);
        let empty = Vec::new(self.shelf.allocator());
        self.shelf.set(file, empty)?;
        Ok(())
    }

    fn append(&mut self, file: &FileRef<'_>, piece: &[u8]) -> Result<(), PutErr>
        ensures content { AfterAppend (⟦<SureStore as Store>⟧.files self.old)
            (⟦<SureStore as Store>⟧.files self.new) (file_name file.now) piece.now result }
        ensures reads { SameReads (⟦<SureStore as Store>⟧.reads self.old)
            (⟦<SureStore as Store>⟧.reads self.new) }
        ensures cause { HasPutCause (⟦<SureStore as Store>⟧.faults self.old)
            (⟦<SureStore as Store>⟧.faults self.new) result }
        ensures sure { result ≢ Err PutErr.Failed }
        ensures err { OnErr result (⟦<SureStore as Store>⟧.files self.new
            ≡ ⟦<SureStore as Store>⟧.files self.old) }
        ensures calls { store_calls self.new ≡ min (store_calls self.old + 1) (2 ^ 64 - 1) }
    {
        self.calls = self.calls.saturating_add(1);
        self.shelf.extend(file, piece)?;
        Ok(())
    }
}

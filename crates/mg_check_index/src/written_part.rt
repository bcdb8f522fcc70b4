//! A part of a set that is written anew, and compared as its bytes come.
ghost use Rattle.std.specs.Prelude.{◌≡◌, ◌≢◌, ◌≤◌, ◌+◌, ◌++◌, ◌^◌, Err, IfErr, IfOk, IsSome, OnErr, OnOk, drop, length, true};
ghost use Rattle.std.specs.Str.{bytes_eq};
ghost use Rattle.mg_dev.specs.Causes.{HasCause};
ghost use Rattle.mg_dev.specs.Files.{SameReads, bytes_at, file_bytes};
ghost use Rattle.mg_dev.specs.Moments.{Between};
ghost use Rattle.mg_dev.specs.Names.{full_name};
ghost use Rattle.mg_layout.specs.Contents.{StandAt};
ghost use Rattle.mg_check_parts.specs.Looks.{LooksAtSet, is_of_set};
ghost use Rattle.mg_check_parts.specs.Refusals.{Refutes};

use mg_check_parts::expect_more;
use mg_dev::{Failed, FileRef, Part, PartErr, PutErr, Store};
use mg_layout::{expect_bytes, expect_size};
use std::alloc::Global;

/// No byte of a part has a place behind this one.
const LAST_PLACE: u64 = 1 << 63;

/// A part is compared in pages from where its bytes begin, so that a refusal tells the same whatever pieces come.
const PAGE: usize = 4096;

/// So many bytes of a part of a set from a place on, and the bytes behind them: less than two pages that were not yet
/// compared, or all from the page of the first other byte on. They are written to a file of another name.
#[derive(Drop)]
pub(crate) struct WrittenPart<'b> {
    base: &'b str,
    part: Part,
    own: &'b str,
    from: u64,
    standing: u64,
    rest: Vec<u8>,
    ghost of_set: { is_of_set part ≡ true },
    ghost place: { from + standing ≤ 2 ^ 63 },
    ghost short: { length own.now ≤ 8 },
}

// How many bytes a file has; a missing one has none.
pub(crate) fn size_of<S: Store>(store: &mut S, file: &FileRef<'_>) -> Result<u64, Failed>
    ensures size { IsSome (S.files store.old) → IfOk result (λ size.
        size ≡ length (file_bytes file.now (S.files store.old))) }
    ensures files { S.files store.new ≡ S.files store.old }
    ensures reads { SameReads (S.reads store.old) (S.reads store.new) }
    ensures cause { HasCause (S.faults store.old) (S.faults store.new) result }
{
    match store.size(file) {
        Ok(Some(size)) => Ok(size),
        Ok(None) => Ok(0),
        Err(failed) => Err(failed),
    }
}

// Whether a file has this full name.
fn is_named(name: &[u8], file: &FileRef<'_>) -> bool
    ensures { result ≡ bytes_eq name.now (full_name file.now.base.now file.now.part) }
{
    match name.strip_prefix(file.base.as_bytes()) {
        Some(rest) => rest == file.part.ending().as_bytes(),
        None => false,
    }
}

// Takes the first bytes away.
fn remove_front(bytes: &mut Vec<u8>, count: usize)
    requires { count ≤ length bytes.old.items }
    ensures { bytes.new.items ≡ drop count bytes.old.items }
{
    let all = bytes.len();
    bytes.as_mut_slice().copy_within(count..all, 0);
    bytes.truncate(all - count);
}

impl<'b> WrittenPart<'b> {
    ghost use Rattle.mg_check_index.specs.InPair.{PutsBeside, SamePlace, bytes_of, set_name};

    /// No byte of a part was written. They go to a file of this name, and are compared from a place on.
    pub(crate) fn new(alloc: Global, file: FileRef<'b>, from: u64, own: &'b str) -> Self
        requires of_set { is_of_set file.part ≡ true }
        requires place { from ≤ 2 ^ 63 }
        requires short { length own.now ≤ 8 }
        ensures name { set_name result ≡ full_name file.entry.base.now file.entry.part }
        ensures own { result.own.now ≡ own.now }
        ensures from { result.from ≡ from }
        ensures nothing { result.standing + length result.rest.items ≡ 0 }
    {
        WrittenPart {
            base: file.base,
            part: file.part,
            own,
            from,
            standing: 0,
            rest: Vec::new(alloc),
        }
    }

    /// Whether a file is the one that is written.
    pub(crate) fn is_own(&self, file: &FileRef<'_>) -> bool
        ensures { result ≡ bytes_eq self.now.own.now (full_name file.now.base.now file.now.part) }
    {
        is_named(self.own.as_bytes(), file)
    }

    /// How many bytes were written.
    pub(crate) fn size<S: Store>(&self, store: &mut S) -> Result<u64, Failed>
        ensures size { IsSome (S.files store.old) → IfOk result (λ size.
            size ≡ length (bytes_of (S.files store.old) self.now)) }
        ensures most { IfOk result (λ size.
            size ≤ self.now.standing + length self.now.rest.items) }
        ensures files { S.files store.new ≡ S.files store.old }
        ensures reads { SameReads (S.reads store.old) (S.reads store.new) }
        ensures cause { HasCause (S.faults store.old) (S.faults store.new) result }
    {
        let file = FileRef {
            base: self.base,
            part: self.part,
        };
        let found = match size_of(store, &file) {
            Ok(found) => found,
            Err(failed) => return Err(failed),
        };
        let standing = found.saturating_sub(self.from).min(self.standing);
        Ok(standing + self.rest.as_slice().len() as u64)
    }

    /// No byte was written.
    pub(crate) fn reset(&mut self)
        ensures nothing { self.new.standing + length self.new.rest.items ≡ 0 }
        ensures same { SamePlace self.old self.new }
    {
        self.standing = 0;
        self.rest.clear();
    }

    // Holds the next bytes.
    fn hold(&mut self, piece: &[u8]) -> Result<(), PutErr>
        ensures standing { self.new.standing ≡ self.old.standing }
        ensures held { OnOk result (self.new.rest.items ≡ self.old.rest.items ++ piece.now) }
        ensures kept { OnErr result (self.new.rest.items ≡ self.old.rest.items) }
        ensures same { SamePlace self.old self.new }
        ensures memory { result ≢ Err PutErr.Failed }
    {
        match self.rest.extend_from_slice(piece) {
            Ok(()) => Ok(()),
            Err(_) => Err(PutErr::Memory),
        }
    }

    // Compares the whole pages that are held, and lets them go where they stand.
    fn settle<S: Store>(&mut self, store: &mut S) -> Result<(), PutErr>
        ensures bytes { IsSome (S.files store.old) →
            bytes_of (S.files store.old) self.new ≡ bytes_of (S.files store.old) self.old }
        ensures same { SamePlace self.old self.new }
        ensures puts { Between S.files S.reads S.faults store.old store.new (PutsBeside result) }
    {
        let whole = self.rest.as_slice().len() / PAGE * PAGE;
        if whole == 0 {
            return Ok(());
        }
        let count = whole as u64;
        let at = self.from + self.standing;
        if count > LAST_PLACE - at {
            return Ok(());
        }
        let file = FileRef {
            base: self.base,
            part: self.part,
        };
        match expect_bytes(store, file, at, &self.rest.as_slice()[..whole]) {
            Ok(()) => {
                self.standing += count;
                remove_front(&mut self.rest, whole);
                Ok(())
            }
            Err(PartErr::Bad(_)) => Ok(()),
            Err(PartErr::Device) => Err(PutErr::Failed),
            Err(PartErr::Memory) => Err(PutErr::Memory),
        }
    }

    /// Takes the next bytes. The whole pages before them are compared, and are held where an earlier byte was another.
    pub(crate) fn append<S: Store>(&mut self, store: &mut S, piece: &[u8]) -> Result<(), PutErr>
        ensures more { IsSome (S.files store.old) → OnOk result
            (bytes_of (S.files store.old) self.new
            ≡ bytes_of (S.files store.old) self.old ++ piece.now) }
        ensures kept { IsSome (S.files store.old) → OnErr result
            (bytes_of (S.files store.old) self.new ≡ bytes_of (S.files store.old) self.old) }
        ensures same { SamePlace self.old self.new }
        ensures puts { Between S.files S.reads S.faults store.old store.new (PutsBeside result) }
    {
        match self.settle(store) {
            Ok(()) => {}
            Err(refusal) => return Err(refusal),
        }
        self.hold(piece)
    }

    /// Compares the bytes that are held. Answers the place behind all that was written.
    pub(crate) fn finish<S: Store>(&self, store: &mut S) -> Result<u64, PartErr>
        ensures within { IfOk result (λ end. end ≤ 2 ^ 63) }
        ensures end { IsSome (S.files store.old) → IfOk result (λ end.
            end ≡ self.now.from + length (bytes_of (S.files store.old) self.now)) }
        ensures stand { IsSome (S.files store.old) → OnOk result
            (StandAt self.now.from (bytes_of (S.files store.old) self.now)
            (bytes_at (S.files store.old) (set_name self.now))) }
        ensures other { IsSome (S.files store.old) → IfErr result (Refutes
            (StandAt self.now.from (bytes_of (S.files store.old) self.now)
            (bytes_at (S.files store.old) (set_name self.now)))) }
        ensures looks { Between S.files S.reads S.faults store.old store.new (LooksAtSet result) }
    {
        let at = self.from + self.standing;
        let file = FileRef {
            base: self.base,
            part: self.part,
        };
        match expect_more(store, file, at, self.rest.as_slice()) {
            Ok(_) => {}
            Err(refusal) => return Err(refusal),
        }
        match self.size(store) {
            Ok(size) => Ok(self.from + size),
            Err(_) => Err(PartErr::Device),
        }
    }

    /// Sees that the part has the bytes that were written, and no others.
    pub(crate) fn finish_whole<S: Store>(&self, store: &mut S) -> Result<(), PartErr>
        requires whole { self.now.from ≡ 0 }
        ensures stand { IsSome (S.files store.old) →
            OnOk result (bytes_at (S.files store.old) (set_name self.now)
            ≡ bytes_of (S.files store.old) self.now) }
        ensures other { IsSome (S.files store.old) →
            IfErr result (Refutes (bytes_at (S.files store.old) (set_name self.now)
            ≡ bytes_of (S.files store.old) self.now)) }
        ensures looks { Between S.files S.reads S.faults store.old store.new (LooksAtSet result) }
    {
        let end = match self.finish(store) {
            Ok(end) => end,
            Err(refusal) => return Err(refusal),
        };
        let file = FileRef {
            base: self.base,
            part: self.part,
        };
        expect_size(store, file, end)
    }
}

//! A store that compares what is written into it with what stands in a part.
//!
//! What is made anew goes through a page of its writer into this store, and is compared there, so it is never held whole.
//! Only behind the first byte that is another one the rest is held, and the part is refused once the writer is done.
ghost use Rattle.std.specs.Prelude.{◌≡◌, ◌≢◌, ◌≤◌, ◌+◌, ◌++◌, ◌^◌, IsTrue, IsFalse, IfErr, IfOk, IsSome, OnOk, OnErr, Err, length, true, []};
ghost use Rattle.mg_dev.specs.Causes.{HasCause};
ghost use Rattle.mg_dev.specs.Files.{SameReads, file_bytes};
ghost use Rattle.mg_dev.specs.Names.{full_name};
ghost use Rattle.mg_check_index.specs.InStore.{own_name, told_faults, told_files, told_reads};
ghost use Rattle.mg_dev.specs.Moments.{Between};
ghost use Rattle.mg_layout.specs.Contents.{StandAt};
ghost use Rattle.mg_check_parts.specs.Looks.{LooksAtSet, is_of_set};
ghost use Rattle.mg_check_parts.specs.Refusals.{Refutes};

use crate::written_part::size_of;
use mg_check_parts::expect_more;
use mg_dev::{Failed, FileRef, Part, PartErr, PutErr, Store};
use mg_layout::expect_bytes;

/// The base of the file that is written.
pub(crate) const BASE: &str = "w";

/// No byte of a part has a place behind this one.
const LAST_PLACE: u64 = 1 << 63;

/// A store that has one file: so many bytes of a part from a place on, and the bytes behind them, which do not stand there.
#[derive(Drop)]
pub(crate) struct ComparingStore<'s, S> {
    store: &'s mut S,
    file: FileRef<'s>,
    from: u64,
    standing: u64,
    rest: &'s mut Vec<u8>,
    /// How often it was read, which it does not allow.
    looked: u64,
    ghost of_set: { is_of_set file.part ≡ true },
    ghost place: { from + standing ≤ 2 ^ 63 },
}

// Whether a file is the one that is written.
fn is_own(file: &FileRef<'_>) -> bool
    ensures own { IsTrue result → full_name file.now.base.now file.now.part ≡ own_name }
    ensures other { IsFalse result → full_name file.now.base.now file.now.part ≢ own_name }
{
    if file.part.number() != Part::Plain.number() {
        return false;
    }
    file.base == BASE
}

impl<'s, S: Store> ComparingStore<'s, S> {
    /// What is written is compared with a part from a place on. The bytes behind the first that is another one are put into
    /// a vector that is lent for them.
    pub(crate) fn new(store: &'s mut S, file: FileRef<'s>, from: u64, rest: &'s mut Vec<u8>) -> Self
        requires of_set { is_of_set file.part ≡ true }
        requires place { from ≤ 2 ^ 63 }
        requires none { rest.old.items ≡ [] }
        ensures same_reference { result.store.ghost_name ≡ store.entry.ghost_name }
        ensures now { result.store.now ≡ store.old }
        ensures file { result.file ≡ file.entry }
        ensures from { result.from ≡ from }
        ensures nothing { result.standing + length result.rest.now.items ≡ 0 }
        ensures unread { result.looked ≡ 0 }
    {
        ComparingStore {
            store,
            file,
            from,
            standing: 0,
            rest,
            looked: 0,
        }
    }

    /// Compares the bytes behind the first that was another one, if there was one.
    pub(crate) fn finish(&mut self) -> Result<(), PartErr>
        ensures same_reference { self.new.store.ghost_name ≡ self.old.store.ghost_name }
        ensures stand { IsSome (S.files self.old.store.now) → OnOk result
            (StandAt (self.old.from + self.old.standing) self.old.rest.now.items
            (file_bytes self.old.file (S.files self.old.store.now))) }
        ensures other { IsSome (S.files self.old.store.now) → IfErr result (Refutes
            (StandAt (self.old.from + self.old.standing) self.old.rest.now.items
            (file_bytes self.old.file (S.files self.old.store.now)))) }
        ensures looks { Between S.files S.reads S.faults self.old.store.now self.new.store.now
            (LooksAtSet result) }
    {
        let at = self.from + self.standing;
        match expect_more(self.store, self.file, at, self.rest.as_slice()) {
            Ok(_) => Ok(()),
            Err(refusal) => Err(refusal),
        }
    }

    // Holds bytes behind the first that is another one.
    fn hold(&mut self, piece: &[u8]) -> Result<(), PutErr>
        ensures store { self.new.store.ghost_name ≡ self.old.store.ghost_name }
        ensures same { self.new.store.now ≡ self.old.store.now }
        ensures file { self.new.file ≡ self.old.file }
        ensures from { self.new.from ≡ self.old.from }
        ensures standing { self.new.standing ≡ self.old.standing }
        ensures looked { self.new.looked ≡ self.old.looked }
        ensures held { OnOk result
            (self.new.rest.now.items ≡ self.old.rest.now.items ++ piece.now) }
        ensures kept { OnErr result (self.new.rest.now.items ≡ self.old.rest.now.items) }
        ensures memory { result ≢ Err PutErr.Failed }
    {
        match self.rest.extend_from_slice(piece) {
            Ok(()) => Ok(()),
            Err(_) => Err(PutErr::Memory),
        }
    }
}

#[tactic(auto, unfolding(mg_dev::specs::Files::written))]
impl<'s, S: Store> Store for ComparingStore<'s, S> {
    ghost files = { λ s. told_files (S.files s.store.now) (full_name s.file.base.now s.file.part) s.from s.standing s.rest.now.items };

    ghost faults = { λ s. told_faults (S.faults s.store.now) s.looked };

    ghost reads = { λ s. told_reads s.store.ghost_name s.from (full_name s.file.base.now s.file.part) (S.files s.store.now) (S.reads s.store.now) s.looked };

    fn size(&mut self, file: &FileRef<'_>) -> Result<Option<u64>, Failed> {
        if !is_own(file) {
            return Ok(None);
        }
        let found = match size_of(self.store, &self.file) {
            Ok(found) => found,
            Err(failed) => return Err(failed),
        };
        let standing = found.saturating_sub(self.from).min(self.standing);
        Ok(Some(standing + self.rest.as_slice().len() as u64))
    }

    fn read_at(&mut self, file: &FileRef<'_>, at: u64, buf: &mut [u8]) -> Result<usize, Failed> {
        if file.part.number() != Part::Plain.number() {
            return Ok(0);
        }
        if self.looked < u64::MAX {
            self.looked += 1;
        }
        Err(Failed)
    }

    fn reset(&mut self, file: &FileRef<'_>) -> Result<(), PutErr> {
        if !is_own(file) {
            return Err(PutErr::Memory);
        }
        self.standing = 0;
        self.rest.clear();
        Ok(())
    }

    fn append(&mut self, file: &FileRef<'_>, piece: &[u8]) -> Result<(), PutErr> {
        if !is_own(file) {
            return Err(PutErr::Memory);
        }
        let held = self.rest.as_slice().len();
        if held > 0 {
            return self.hold(piece);
        }
        let count = piece.len() as u64;
        let at = self.from + self.standing;
        let room = LAST_PLACE - at;
        if count > room {
            return self.hold(piece);
        }
        match expect_bytes(self.store, self.file, at, piece) {
            Ok(()) => {
                self.standing += count;
                Ok(())
            }
            Err(PartErr::Bad(_)) => self.hold(piece),
            Err(PartErr::Device) => Err(PutErr::Failed),
            Err(PartErr::Memory) => Err(PutErr::Memory),
        }
    }
}

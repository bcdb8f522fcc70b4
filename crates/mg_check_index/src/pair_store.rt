//! A store of two files that compares what is written into them with two parts of a set.
//!
//! Lists and their skip entries, or a lexicon and its places, are written anew through pages of their writer into this
//! store, and are compared there. So they are never held whole, as long as they are those of the set.
ghost use Rattle.std.specs.Prelude.{◌≡◌, ◌≢◌, Err, Option};
ghost use Rattle.mg_dev.specs.Causes.{HasCause};
ghost use Rattle.mg_dev.specs.Files.{AfterAppend, AfterReset, Files, IsSize, SameReads};
ghost use Rattle.mg_dev.specs.Moments.{Between};
ghost use Rattle.mg_dev.specs.Names.{full_name};

use crate::written_part::WrittenPart;
use mg_dev::{Failed, FileRef, Part, PutErr, Store, count_read};

/// Two parts of a set that are written anew, to files of different names.
#[derive(Drop)]
pub(crate) struct WrittenPair<'b> {
    pub(crate) one: WrittenPart<'b>,
    pub(crate) other: WrittenPart<'b>,
    ghost apart: { one.own.now ≢ other.own.now },
}

impl<'b> WrittenPair<'b> {
    ghost use Rattle.mg_check_index.specs.InPair.{PutsBeside, SamePlaces, pair_files};

    /// These two parts, of which nothing was written.
    pub(crate) fn new(one: WrittenPart<'b>, other: WrittenPart<'b>) -> Self
        requires apart { one.own.now ≢ other.own.now }
        ensures one { result.one ≡ one.entry }
        ensures other { result.other ≡ other.entry }
    {
        WrittenPair { one, other }
    }

    // How many bytes a file has, where it is one of the two.
    fn size<S: Store>(&self, store: &mut S, file: &FileRef<'_>) -> Result<Option<u64>, Failed>
        ensures answer { IsSize (pair_files (S.files store.old) self.now)
            (full_name file.now.base.now file.now.part) result }
        ensures files { S.files store.new ≡ S.files store.old }
        ensures reads { SameReads (S.reads store.old) (S.reads store.new) }
        ensures cause { HasCause (S.faults store.old) (S.faults store.new) result }
    {
        if self.one.is_own(file) {
            return match self.one.size(store) {
                Ok(size) => Ok(Some(size)),
                Err(failed) => Err(failed),
            };
        }
        if self.other.is_own(file) {
            return match self.other.size(store) {
                Ok(size) => Ok(Some(size)),
                Err(failed) => Err(failed),
            };
        }
        Ok(None)
    }

    // Leaves one of the two empty. Another file is refused.
    fn reset(&mut self, file: &FileRef<'_>) -> Result<(), PutErr>
        ensures content { (files : Option Files) → AfterReset (pair_files files self.old)
            (pair_files files self.new) (full_name file.now.base.now file.now.part) result }
        ensures same { SamePlaces self.old self.new }
        ensures memory { result ≢ Err PutErr.Failed }
    {
        if self.one.is_own(file) {
            self.one.reset();
            return Ok(());
        }
        if self.other.is_own(file) {
            self.other.reset();
            return Ok(());
        }
        Err(PutErr::Memory)
    }

    // Adds a piece to one of the two. Another file is refused.
    fn append<S: Store>(
        &mut self,
        store: &mut S,
        file: &FileRef<'_>,
        piece: &[u8],
    ) -> Result<(), PutErr>
        ensures content { AfterAppend (pair_files (S.files store.old) self.old)
            (pair_files (S.files store.old) self.new) (full_name file.now.base.now file.now.part)
            piece.now result }
        ensures same { SamePlaces self.old self.new }
        ensures puts { Between S.files S.reads S.faults store.old store.new (PutsBeside result) }
    {
        if self.one.is_own(file) {
            return self.one.append(store, piece);
        }
        if self.other.is_own(file) {
            return self.other.append(store, piece);
        }
        Err(PutErr::Memory)
    }
}

/// A store that has two files: what was written of two parts of a set. They are compared with those of another store.
#[derive(Drop)]
pub(crate) struct PairStore<'s, 'p, 'b, S> {
    pub(crate) store: &'s mut S,
    pub(crate) pair: &'p mut WrittenPair<'b>,
    /// How often each part was read, which fails but for one that has no file.
    pub(crate) looks: [u64; 14],
}

#[tactic(auto, unfolding(mg_dev::specs::Files::written))]
impl<'s, 'p, 'b, S: Store> Store for PairStore<'s, 'p, 'b, S> {
    ghost use Rattle.mg_check_index.specs.InPair.{all_looks, code_of_pair, looks_in, pair_faults, pair_files, pair_reads};

    ghost files = { λ s. pair_files (S.files s.store.now) s.pair.now };

    ghost faults = { λ s. pair_faults (S.faults s.store.now) (all_looks (looks_in s.looks)) };

    ghost reads = { λ s. pair_reads (code_of_pair s.store.ghost_name s.pair.ghost_name s.pair.now (S.files s.store.now) (S.reads s.store.now)) (looks_in s.looks) };

    fn size(&mut self, file: &FileRef<'_>) -> Result<Option<u64>, Failed> {
        self.pair.size(self.store, file)
    }

    fn read_at(&mut self, file: &FileRef<'_>, at: u64, buf: &mut [u8]) -> Result<usize, Failed> {
        if file.part.number() == Part::Nonwords.number() {
            return Ok(0);
        }
        count_read(&mut self.looks, file.part);
        Err(Failed)
    }

    fn reset(&mut self, file: &FileRef<'_>) -> Result<(), PutErr> {
        self.pair.reset(file)
    }

    fn append(&mut self, file: &FileRef<'_>, piece: &[u8]) -> Result<(), PutErr> {
        self.pair.append(self.store, file, piece)
    }
}

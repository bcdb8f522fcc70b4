//! The weights of documents, compared with the part that has them.
ghost use Rattle.std.specs.Prelude.{◌≡◌, ◌+◌, ◌≤◌, ◌^◌, ◌++◌, ℕ, List, [], length, IsSome, Option, OnOk};
ghost use Rattle.mg_dev.specs.Files.{Files};
ghost use Rattle.mg_dev.specs.Names.{full_name};
ghost use Rattle.mg_dev.specs.Moments.{Between};
ghost use Rattle.mg_dev.specs.declared.part.Part.TheVariants as part;
ghost use Rattle.mg_defs.specs.Numbers.{four};
ghost use Rattle.mg_check_index.specs.Counting.{ComparesPart, HasWeighed, HasWeighedMore, WeighsOtherwise, WeighsOtherwiseOn, AreItsWeights, AreOtherWeights};

use crate::comparison::Comparison;
use mg_dev::{Part, PartErr, Store};
use mg_fields::four_bytes;
use std::alloc::{AllocError, Global};
use std::marker::Model;

/// From how many bytes on what is held is compared.
const PAGE: usize = 4096;

/// The weights of documents, four bytes each, some of which are held before they are compared.
#[derive(Drop)]
pub(crate) struct Weights<'a> {
    part: Comparison<'a>,
    held: Vec<u8>,
}

impl<'a> Model for Weights<'a> {
    ghost use Rattle.mg_check_index.specs.Counting.{Weighing};

    ghost Value = { Weighing };

    ghost view = { λ w. record { part = w.part; held = w.held.items } };
}

impl<'a> Weights<'a> {
    /// No weight.
    pub(crate) fn new(alloc: Global, base: &'a str) -> Self
        ensures weighed { (files : Option Files) → HasWeighed result files [] }
        ensures name { result.part.name ≡ full_name base.entry.now part.Weights }
        ensures size { result.part.at + length result.held ≡ 0 }
    {
        Weights {
            part: Comparison::new(base, Part::Weights),
            held: Vec::new(alloc),
        }
    }

    /// Takes the weight of the next document.
    pub(crate) fn push<S: Store>(&mut self, store: &mut S, weight: u32) -> Result<(), PartErr>
        requires place { self.old.part.at + length self.old.held + 4 ≤ 2 ^ 63 }
        ensures weighed { Between S.files S.reads S.faults store.old store.new
            (ComparesPart (OnOk result (HasWeighedMore S.files store.old store.new self.old self.new
            (four weight)))
            (WeighsOtherwiseOn self.old (S.files store.old) (four weight)) result) }
        ensures size { OnOk result (self.new.part.at + length self.new.held
            ≡ self.old.part.at + length self.old.held + 4) }
        ensures name { self.new.part.name ≡ self.old.part.name }
    {
        match self.hold(weight) {
            Ok(()) => {}
            Err(_) => return Err(PartErr::Memory),
        }
        if self.held.len() < PAGE {
            return Ok(());
        }
        self.compare(store)
    }

    // Holds the weight of the next document.
    fn hold(&mut self, weight: u32) -> Result<(), AllocError>
        ensures held { OnOk result (self.new.held ≡ self.old.held ++ four weight) }
        ensures size { OnOk result (length self.new.held ≡ length self.old.held + 4) }
        ensures part { self.new.part ≡ self.old.part }
    {
        self.held.extend_from_slice(&four_bytes(weight))
    }

    // Compares what is held.
    fn compare<S: Store>(&mut self, store: &mut S) -> Result<(), PartErr>
        requires place { self.old.part.at + length self.old.held ≤ 2 ^ 63 }
        ensures compared { Between S.files S.reads S.faults store.old store.new
            (ComparesPart (OnOk result ((bytes : List ℕ) →
            HasWeighed self.old (S.files store.old) bytes →
            HasWeighed self.new (S.files store.new) bytes))
            (WeighsOtherwise self.old (S.files store.old)) result) }
        ensures none { OnOk result (self.new.held ≡ []) }
        ensures size { OnOk result (self.new.part.at + length self.new.held
            ≡ self.old.part.at + length self.old.held) }
        ensures name { self.new.part.name ≡ self.old.part.name }
    {
        match self.part.expect(store, &self.held) {
            Ok(()) => {}
            Err(refusal) => return Err(refusal),
        }
        self.held.clear();
        Ok(())
    }

    /// Compares what is still held, and refuses a part with more bytes.
    pub(crate) fn finish<S: Store>(&mut self, store: &mut S) -> Result<(), PartErr>
        requires place { self.old.part.at + length self.old.held ≤ 2 ^ 63 }
        ensures ended { Between S.files S.reads S.faults store.old store.new
            (ComparesPart
            (IsSome (S.files store.old) → OnOk result (AreItsWeights self.old (S.files store.old)))
            (AreOtherWeights self.old (S.files store.old)) result) }
    {
        match self.compare(store) {
            Ok(()) => {}
            Err(refusal) => return Err(refusal),
        }
        self.part.finish(store)
    }
}

//! A part that is compared with the bytes that it is to have, as they come.
ghost use Rattle.std.specs.Prelude.{◌≡◌, ◌+◌, ◌*◌, ◌≤◌, ◌^◌, length, true, IsSome, OnOk};
ghost use Rattle.mg_dev.specs.Names.{full_name};
ghost use Rattle.mg_dev.specs.Moments.{Between};
ghost use Rattle.mg_check_index.specs.Counting.{CanBeRun, ComparesPart, HasBegunMore, GoesOnOtherwise, EndsThere, EndsElsewhere, WritesRun, run_of_pool};
ghost use Rattle.mg_check_parts.specs.Looks.{is_of_set};

use crate::run_written::expect_run;
use mg_dev::{FileRef, Part, PartErr, Store};
use mg_layout::{expect_bytes, expect_size};
use mg_runs::Pool;
use std::alloc::Global;
use std::marker::Model;

/// A part of a base, and how many of its bytes were compared.
#[derive(Drop)]
pub(crate) struct Comparison<'a> {
    base: &'a str,
    part: Part,
    at: u64,
}

impl<'a> Model for Comparison<'a> {
    ghost use Rattle.std.specs.Prelude.{◌≡◌, true};
    ghost use Rattle.mg_dev.specs.Names.{full_name};
    ghost use Rattle.mg_check_index.specs.Counting.{Comparing};
    ghost use Rattle.mg_check_parts.specs.Looks.{is_of_set};

    ghost Value = { Comparing };

    ghost view = { λ c. record { name = full_name c.base.now c.part; at = c.at } };

    ghost invariant = { λ c. is_of_set c.part ≡ true };
}

impl<'a> Comparison<'a> {
    /// No byte of a part was compared.
    pub(crate) fn new(base: &'a str, part: Part) -> Self
        requires { is_of_set part ≡ true }
        ensures name { result.name ≡ full_name base.entry.now part }
        ensures at { result.at ≡ 0 }
    {
        Comparison { base, part, at: 0 }
    }

    /// Compares the next bytes of the part with these.
    pub(crate) fn expect<S: Store>(&mut self, store: &mut S, wanted: &[u8]) -> Result<(), PartErr>
        requires place { self.old.at + length wanted.now ≤ 2 ^ 63 }
        ensures begun { Between S.files S.reads S.faults store.old store.new
            (ComparesPart
            (OnOk result (HasBegunMore S.files store.old store.new self.old self.new wanted.now))
            (GoesOnOtherwise self.old (S.files store.old) wanted.now) result) }
        ensures at { OnOk result (self.new.at ≡ self.old.at + length wanted.now) }
        ensures name { self.new.name ≡ self.old.name }
    {
        let file = FileRef {
            base: self.base,
            part: self.part,
        };
        match expect_bytes(store, file, self.at, wanted) {
            Ok(()) => {}
            Err(refusal) => return Err(refusal),
        }
        self.at += wanted.len() as u64;
        Ok(())
    }

    /// Compares the next bytes of the part with the run that a pool's entries make, and empties the pool. The run is compared
    /// as it is written.
    pub(crate) fn expect_run<S: Store>(
        &mut self,
        alloc: Global,
        store: &mut S,
        pool: &mut Pool,
    ) -> Result<(), PartErr>
        requires run { CanBeRun pool.old }
        requires place { self.old.at ≤ 2 ^ 62 }
        ensures begun { Between S.files S.reads S.faults store.old store.new
            (ComparesPart (OnOk result (HasBegunMore S.files store.old store.new self.old self.new
            (run_of_pool pool.old)))
            (GoesOnOtherwise self.old (S.files store.old) (run_of_pool pool.old)) result) }
        ensures place { OnOk result (self.new.at ≤ self.old.at + 16 + 32
            * length pool.old.entries) }
        ensures pool { WritesRun pool.old pool.new result }
        ensures name { self.new.name ≡ self.old.name }
    {
        let file = FileRef {
            base: self.base,
            part: self.part,
        };
        match expect_run(alloc, store, file, self.at, pool) {
            Ok(count) => self.at += count,
            Err(refusal) => return Err(refusal),
        }
        Ok(())
    }

    /// Refuses a part that has more bytes than were compared.
    pub(crate) fn finish<S: Store>(&self, store: &mut S) -> Result<(), PartErr>
        ensures ended { Between S.files S.reads S.faults store.old store.new
            (ComparesPart
            (IsSome (S.files store.old) → OnOk result (EndsThere self.now (S.files store.old)))
            (EndsElsewhere self.now (S.files store.old)) result) }
    {
        let file = FileRef {
            base: self.base,
            part: self.part,
        };
        expect_size(store, file, self.at)
    }
}

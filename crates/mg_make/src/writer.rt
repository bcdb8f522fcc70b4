//! The second pass over the bytes of a collection, and what follows it.
//!
//! The head is emptied first and appended last, so that whatever stops in between, the files stand for no
//! collection. The other parts are written as the bytes come: the models at once, text and runs byte by
//! byte, lists, lexicon and weights behind the last.
ghost use Rattle.std.specs.Prelude.{◌≡◌, ◌<◌, ◌≤◌, ◌+◌, ◌-◌, ◌^◌, ◌++◌, ◌∷◌, ℕ, List, [], length, take, IfOk, OnOk, Option, Some};
ghost use Rattle.std.specs.Option.{IsSome};
ghost use Rattle.mg_dev.specs.Causes.{HasPutCause};
ghost use Rattle.mg_dev.specs.Files.{Files, SameReads, file_at};
ghost use Rattle.mg_dev.specs.Moments.{Between};
ghost use Rattle.mg_dev.specs.Names.{full_name};
ghost use Rattle.mg_dev.specs.declared.part.Part.TheVariants as part;
ghost use Rattle.mg_index.specs.Steps.{ReadRuns};
ghost use Rattle.mg_layout.specs.Stands.{StandsForNone, StandsIn};
ghost use Rattle.mg_count.specs.Plans.{IsPlan, IsRoomFor};
ghost use Rattle.mg_make.specs.Putting.{ForPut, GrewByHead, HasPut, IsEmptied, IsUnbuilt, NextRefused, NextTells};
ghost use Rattle.mg_make.specs.Putting.{OthersSame, PutRefused, PutTells};
ghost use Rattle.mg_make.specs.Putting.{StandsForNoOther, WhereHeadLacks, with_head};
ghost use Rattle.mg_make.specs.Outcomes.{HasSummaryOf, MakesSet};
ghost use Rattle.mg_make.specs.SetSteps.{ByteStep, PartsStep, PieceStep, SliceStep, WentOn};

use crate::index::Rest;
use crate::mark_writer::{put_marks, put_piece};
use crate::second::SecondPass;
use crate::set_parts::{end_pass, open_parts, reset_head, write_rest};
use crate::summary::Summary;
use mg_count::{Plan, Room, Scanner};
use mg_dev::{Fault, PutErr, Store};
use mg_layout::Head;
use mg_model::Piece;
use mg_text_writer::text_has_its_documents;
use std::alloc::Global;
use std::marker::Model;

/// Writes the set of bytes that are given one by one or many at a time, as they were counted.
#[derive(Drop)]
pub struct SetWriter<'a> {
    base: &'a str,
    plan: &'a Plan,
    limit: u64,
    scanner: Scanner,
    pass: SecondPass<'a>,
    sums: Vec<u64>,
    size: u64,
}

impl<'a> Model for SetWriter<'a> {
    ghost use Rattle.mg_make.specs.Putting.{Putting};

    ghost Value = { Putting };

    ghost view = { λ w. record { base = w.base.now; plan = w.plan.now; limit = w.limit; scanning = w.scanner; pass = w.pass; sums = w.sums.items; size = w.size } };
}

impl<'a> SetWriter<'a> {
    /// Empties the head, which is the first write, writes the models, and begins the other parts.
    pub fn start<S: Store>(
        alloc: Global,
        store: &mut S,
        base: &'a str,
        plan: &'a Plan,
        room: Room,
    ) -> Result<Self, PutErr>
        requires plan { IsPlan plan.now }
        requires room { IsRoomFor room plan.now room.pool.limit }
        ensures put { IfOk result (λ w. HasPut w (S.files store.new) []) }
        ensures base { IfOk result (λ w. w.base ≡ base.entry.now) }
        ensures plan { IfOk result (λ w. w.plan ≡ plan.entry.now) }
        ensures limit { IfOk result (λ w. w.limit ≡ room.pool.limit) }
        ensures unbuilt { IsUnbuilt base.entry.now (S.files store.old) (S.files store.new) }
        ensures others { OthersSame base.entry.now (S.files store.old) (S.files store.new) }
        ensures reads { SameReads (S.reads store.old) (S.reads store.new) }
        ensures plain { S.reads store.old part.Plain ≤ S.reads store.new part.Plain }
        ensures cause { HasPutCause (S.faults store.old) (S.faults store.new) result }
    {
        let Room { pool, counts, sums } = room;
        let limit = pool.limit();
        match reset_head(store, base) {
            Ok(()) => {}
            Err(refusal) => return Err(refusal),
        }
        let pass = match open_parts(alloc, store, base, plan, pool, counts) {
            Ok(pass) => pass,
            Err(refusal) => return Err(refusal),
        };
        Ok(SetWriter {
            base,
            plan,
            limit,
            scanner: Scanner::new(),
            pass,
            sums,
            size: 0,
        })
    }

    /// Writes what one byte more makes. A refusal of `Changed` tells that the bytes begin no collection
    /// of the plan, and in which number they differ from it.
    #[inline]
    pub fn take<S: Store>(&mut self, store: &mut S, byte: u8) -> Result<(), Fault>
        requires put { (fed : List ℕ) × HasPut self.old (S.files store.old) fed
            × (length fed < 2 ^ 32 - 1) }
        ensures put { OnOk result ((fed : List ℕ) → HasPut self.old (S.files store.old) fed →
            HasPut self.new (S.files store.new) (fed ++ byte ∷ [])) }
        ensures base { self.new.base ≡ self.old.base }
        ensures plan { self.new.plan ≡ self.old.plan }
        ensures limit { self.new.limit ≡ self.old.limit }
        ensures head { IsSome (S.files store.old) →
            file_at (S.files store.new) (full_name self.old.base part.Head) ≡ Some [] }
        ensures others { OthersSame self.old.base (S.files store.old) (S.files store.new) }
        ensures reads { SameReads (S.reads store.old) (S.reads store.new) }
        ensures plain { S.reads store.old part.Plain ≤ S.reads store.new part.Plain }
        ensures later { S.faults store.old ≤ S.faults store.new }
        ensures refused { NextRefused self.old (λ more. byte ∷ more) S.files S.faults store.old
            store.new result }
        ensures tells { NextTells self.old (λ more. byte ∷ more) (S.files store.old) result }
    {
        if self.scanner.goes_on(byte) {
            self.size += 1;
            return Ok(());
        }
        self.take_other(store, byte)
    }

    /// Writes what the next bytes make, so that all are at most 2^32 - 1. It stops at the first of them that
    /// `take` refuses, and for its cause.
    pub fn take_all<S: Store>(&mut self, store: &mut S, bytes: &[u8]) -> Result<(), Fault>
        requires put { (fed : List ℕ) × HasPut self.old (S.files store.old) fed
            × (length fed + length bytes.now < 2 ^ 32) }
        ensures { Between S.files S.reads S.faults store.old store.new
            (SliceStep self.old self.new bytes.now result) }
    {
        let mut taken = 0;
        while taken < bytes.len() {
            taken += self.go_on(&bytes[taken..]);
            if taken == bytes.len() {
                return Ok(());
            }
            match self.take_other(store, bytes[taken]) {
                Ok(()) => {}
                Err(refusal) => return Err(refusal),
            }
            match self.take_pieces(store, bytes, taken) {
                Ok(last) => taken = last + 1,
                Err(refusal) => return Err(refusal),
            }
        }
        Ok(())
    }

    // Writes the bytes behind a place as long as each piece ends within them, and is followed by a byte of the
    // other kind; answers the place of the last byte that is taken. Of such a piece nothing is copied but its
    // first byte.
    fn take_pieces<S: Store>(
        &mut self,
        store: &mut S,
        bytes: &[u8],
        from: usize,
    ) -> Result<usize, Fault>
        requires within { from < length bytes.now }
        requires put { (fed : List ℕ) × HasPut self.old (S.files store.old) fed
            × (length fed + (length bytes.now - (from + 1)) < 2 ^ 32) }
        ensures { Between S.files S.reads S.faults store.old store.new
            (PieceStep self.old self.new bytes.now from result) }
    {
        let mut at = from;
        while at < bytes.len() {
            match self.take_piece(store, bytes, at) {
                Ok(next) => {
                    if next == at {
                        return Ok(at);
                    }
                    at = next;
                }
                Err(refusal) => return Err(refusal),
            }
        }
        Ok(at)
    }

    // Writes the bytes behind a place up to the one that ends the piece that began there, and with it; answers its
    // place. It takes none where the piece doesn't end within them, or otherwise than at a byte of the other kind.
    #[inline]
    fn take_piece<S: Store>(
        &mut self,
        store: &mut S,
        bytes: &[u8],
        at: usize,
    ) -> Result<usize, Fault>
        requires within { at < length bytes.now }
        requires put { (fed : List ℕ) × HasPut self.old (S.files store.old) fed
            × (length fed + (length bytes.now - (at + 1)) < 2 ^ 32) }
        ensures { Between S.files S.reads S.faults store.old store.new
            (PieceStep self.old self.new bytes.now at result) }
    {
        let stream = self.scanner.kind();
        let next = self.scanner.take_piece(bytes, at);
        if next == at {
            return Ok(at);
        }
        match put_piece(
            &mut self.pass,
            store,
            stream,
            &Piece::within(bytes, at, next),
        ) {
            Ok(()) => {}
            Err(refusal) => return Err(refusal),
        }
        self.size += (next - at) as u64;
        Ok(next)
    }

    // Takes the first bytes as far as they go on the piece that is read; answers how many.
    #[inline]
    fn go_on(&mut self, bytes: &[u8]) -> usize
        requires put { (files : Option Files) × (fed : List ℕ) × HasPut self.old files fed
            × (length fed + length bytes.now < 2 ^ 32) }
        ensures within { result ≤ length bytes.now }
        ensures went { WentOn self.old self.new (take result bytes.now) }
    {
        let count = self.scanner.go_on(bytes);
        self.size += count as u64;
        count
    }

    // Writes what a byte makes that may end a piece, or begin or end a document.
    #[inline(never)]
    fn take_other<S: Store>(&mut self, store: &mut S, byte: u8) -> Result<(), Fault>
        requires put { (fed : List ℕ) × HasPut self.old (S.files store.old) fed
            × (length fed < 2 ^ 32 - 1) }
        ensures { Between S.files S.reads S.faults store.old store.new
            (ByteStep self.old self.new byte result) }
    {
        self.scanner.take(byte);
        match put_marks(&mut self.pass, store, self.scanner.met()) {
            Ok(()) => {}
            Err(refusal) => return Err(refusal),
        }
        self.size += 1;
        Ok(())
    }

    // Writes all parts but the head, and makes the head that belongs to them, with the greatest use of the
    // pool.
    fn write_parts<S: Store>(self, alloc: Global, store: &mut S) -> Result<(Head, u64), Fault>
        requires put { (fed : List ℕ) × HasPut self (S.files store.old) fed
            × (length fed < 2 ^ 32) }
        ensures { Between S.files S.reads S.faults store.old store.new
            (PartsStep self.entry result) }
    {
        let SetWriter {
            base,
            plan,
            limit,
            scanner,
            pass,
            sums,
            size,
        } = self;
        // By this law Text and Places hold the documents that were written.
        text_has_its_documents();
        let mut inverted = match end_pass(store, scanner, pass) {
            Ok(inverted) => inverted,
            Err(refusal) => return Err(refusal),
        };
        let mut rest = Rest {
            plan,
            sums,
            size,
            limit,
        };
        write_rest(alloc, store, base, &mut inverted, &mut rest)
    }

    /// Ends the bytes, merges the runs, writes lists, lexicon and weights, and last appends the head.
    ///
    /// # Errors
    ///
    /// The store's faults, and want of memory. `Changed` and `Damaged` come only where the bytes are not those
    /// of the plan or the store does not tell its files. `Changed` tells in which number the bytes differ from
    /// the plan; of a word that they lack, 1 and 0.
    pub fn finish<S: Store>(self, alloc: Global, store: &mut S) -> Result<Summary, Fault>
        requires put { (fed : List ℕ) × HasPut self (S.files store.old) fed
            × (length fed < 2 ^ 32) }
        ensures stands { ForPut self.entry (S.files store.old)
            (MakesSet self.entry.limit (S.files store.new) self.entry.base result) }
        ensures summary { ForPut self.entry (S.files store.old)
            (HasSummaryOf self.entry.limit result) }
        ensures merge_a { ForPut self.entry (S.files store.old)
            (λ fed. OnOk result (IsEmptied (S.files store.new) self.entry.base part.MergeA)) }
        ensures merge_b { ForPut self.entry (S.files store.old)
            (λ fed. OnOk result (IsEmptied (S.files store.new) self.entry.base part.MergeB)) }
        ensures left { ForPut self.entry (S.files store.old)
            (StandsForNoOther (S.files store.new) self.entry.base) }
        ensures others { OthersSame self.entry.base (S.files store.old) (S.files store.new) }
        ensures reads { ReadRuns (S.reads store.old) (S.reads store.new) }
        ensures plain { S.reads store.old part.Plain ≤ S.reads store.new part.Plain }
        ensures later { S.faults store.old ≤ S.faults store.new }
        ensures refused { PutRefused self.entry S.files S.faults store.old store.new result }
        ensures tells { PutTells self.entry (S.files store.old) result }
    {
        let base = self.base;
        let limit = self.limit;
        let (head, peak) = match self.write_parts(alloc, store) {
            Ok(made) => made,
            Err(refusal) => return Err(refusal),
        };
        match head.write(store, base) {
            Ok(()) => Ok(Summary::of(&head, peak, limit)),
            Err(refusal) => Err(Fault::of_store(refusal)),
        }
    }
}

/// A set whose head is empty stands for no collection.
pub fn empty_heads_stand_for_none()
    ensures { (base : List ℕ) (now : Option Files) → file_at now (full_name base part.Head)
        ≡ Some [] → StandsForNone now base }
{}

/// Parts that are ready stand for their collection once their head is appended; with no more than a part of it
/// they stand for none, or for this one.
pub fn heads_make_sets()
    ensures whole { WhereHeadLacks (λ base collection cap code before now.
        now ≡ with_head before base cap code collection →
        StandsIn 2 cap now base collection) }
    ensures left { WhereHeadLacks (λ base collection cap code before now.
        GrewByHead before now base cap code collection →
        StandsForNoOther now base collection) }
{}

//! The first pass over the bytes of a collection.
ghost use Rattle.std.specs.Prelude.{◌<◌, ◌≤◌, ◌+◌, ◌-◌, ◌^◌, ◌++◌, ◌∷◌, ℕ, List, [], length, take, IfErr, IfOk, OnOk};
ghost use Rattle.mg_defs.specs.Limits.{greatest_budget, least_budget};
ghost use Rattle.mg_defs.specs.Marks.{Mark, marks};
ghost use Rattle.mg_count.specs.Counting.{AreFew, CountStops, EndStops, HasCounted, IsCountOf, CountStopsAmong};
ghost use Rattle.mg_count.specs.Plans.{IsPlan, IsPlanOf, IsRoomFor};
ghost use Rattle.mg_count.specs.Scanning.{HasMet, Scanning};
ghost use Rattle.mg_count.specs.Whole.{CountsBehind};

use crate::counts::{Counts, fault_of};
use crate::plan::{Plan, Room, plan_of};
use crate::scanner::Scanner;
use mg_dev::Fault;
use mg_laws::{few_of_each, marks_add_up, marks_have_all};
use mg_model::Piece;
use std::alloc::Global;
use std::marker::Model;

/// Counts the pieces and the pairs in the bytes of a collection, which are given one by one or many at
/// a time.
///
/// It keeps no byte but those of the distinct pieces and the one that is read. After a refusal nothing
/// more is to be given to it.
#[derive(Drop)]
pub struct Count {
    scanner: Scanner,
    counts: Counts,
}

impl Model for Count {
    ghost use Rattle.mg_count.specs.Counting.{FirstPass};

    ghost Value = { FirstPass };

    ghost view = { λ c. record { scanning = c.scanner; counting = c.counts } };
}

/// What is met in fewer than 2^32 bytes has so few pieces that their numbers fit in four bytes.
fn few_are_met()
    ensures met { (s : Scanning) (fed : List ℕ) (met : List Mark) → HasMet s fed met →
        length fed < 2 ^ 32 → AreFew met }
    ensures all { (collection : List ℕ) → length collection < 2 ^ 32 → AreFew (marks collection) }
{
    few_of_each();
    marks_add_up();
    marks_have_all();
}

impl Count {
    /// Nothing was given. The memory that it takes later is of this allocator.
    pub fn new(alloc: Global) -> Self
        ensures { HasCounted result [] }
    {
        Count {
            scanner: Scanner::new(),
            counts: Counts::new(alloc),
        }
    }

    /// Takes the next byte, of at most 2^32 - 1. `TooManyDocuments` comes exactly with the first byte
    /// of the 2^24 + 1st document, and `TooManyPieces` exactly with the byte that ends a piece which
    /// is new in its stream after 2^22 others, whatever bytes are to follow; else only `Memory` comes.
    #[inline]
    pub fn take(&mut self, byte: u8) -> Result<(), Fault>
        requires given { (fed : List ℕ) × HasCounted self.old fed × (length fed < 2 ^ 32 - 1) }
        ensures given { OnOk result ((fed : List ℕ) → HasCounted self.old fed →
            HasCounted self.new (fed ++ byte ∷ [])) }
        ensures refused { IfErr result (λ fault. (fed : List ℕ) → HasCounted self.old fed →
            CountStops (fed ++ byte ∷ []) fault) }
    {
        if self.scanner.goes_on(byte) {
            return Ok(());
        }
        self.take_other(byte)
    }

    /// Takes the next bytes, so that all are at most 2^32 - 1. It stops at the first of them that `take`
    /// refuses, and for its cause.
    pub fn take_all(&mut self, bytes: &[u8]) -> Result<(), Fault>
        requires given { (fed : List ℕ) × HasCounted self.old fed
            × (length fed + length bytes.now < 2 ^ 32) }
        ensures given { OnOk result ((fed : List ℕ) → HasCounted self.old fed →
            HasCounted self.new (fed ++ bytes.now)) }
        ensures refused { IfErr result (CountStopsAmong self.old bytes.now) }
    {
        let mut taken = 0;
        while taken < bytes.len() {
            taken += self.go_on(&bytes[taken..]);
            if taken == bytes.len() {
                return Ok(());
            }
            match self.take_other(bytes[taken]) {
                Ok(()) => {}
                Err(refusal) => return Err(refusal),
            }
            match self.take_pieces(bytes, taken) {
                Ok(last) => taken = last + 1,
                Err(refusal) => return Err(refusal),
            }
        }
        Ok(())
    }

    /// Takes the bytes behind a place as long as each piece ends within them, and is followed by a byte of
    /// the other kind; answers the place of the last byte that is taken. Of such a piece nothing is copied
    /// but its first byte.
    fn take_pieces(&mut self, bytes: &[u8], from: usize) -> Result<usize, Fault>
        requires within { from < length bytes.now }
        requires given { (fed : List ℕ) × HasCounted self.old fed
            × (length fed + (length bytes.now - (from + 1)) < 2 ^ 32) }
        ensures { CountsBehind self.old self.new bytes.now from result }
    {
        let mut at = from;
        while at < bytes.len() {
            match self.take_piece(bytes, at) {
                Ok(next) => {
                    if next == at {
                        return Ok(at);
                    }
                    at = next;
                }
                Err(refusal) => return Err(refusal),
            }
        }
        Ok(at)
    }

    /// Takes the bytes behind a place up to the one that ends the piece that began there, and with it; answers
    /// its place. It takes none where the piece doesn't end within them, or otherwise than at a byte of the
    /// other kind.
    #[inline]
    fn take_piece(&mut self, bytes: &[u8], at: usize) -> Result<usize, Fault>
        requires within { at < length bytes.now }
        requires given { (fed : List ℕ) × HasCounted self.old fed
            × (length fed + (length bytes.now - (at + 1)) < 2 ^ 32) }
        ensures { CountsBehind self.old self.new bytes.now at result }
    {
        few_are_met();
        let stream = self.scanner.kind();
        let next = self.scanner.take_piece(bytes, at);
        if next == at {
            return Ok(at);
        }
        match self.counts.add(stream, &Piece::within(bytes, at, next)) {
            Ok(()) => {}
            Err(refusal) => return Err(fault_of(stream, refusal)),
        }
        Ok(next)
    }

    /// Takes the first bytes as far as they go on the piece that is read; answers how many.
    #[inline]
    fn go_on(&mut self, bytes: &[u8]) -> usize
        ensures within { result ≤ length bytes.now }
        ensures given { (fed : List ℕ) → HasCounted self.old fed →
            HasCounted self.new (fed ++ take result bytes.now) }
    {
        self.scanner.go_on(bytes)
    }

    /// Takes the next byte where it may end a piece, or begin or end a document.
    #[inline(never)]
    fn take_other(&mut self, byte: u8) -> Result<(), Fault>
        requires given { (fed : List ℕ) × HasCounted self.old fed × (length fed < 2 ^ 32 - 1) }
        ensures given { OnOk result ((fed : List ℕ) → HasCounted self.old fed →
            HasCounted self.new (fed ++ byte ∷ [])) }
        ensures refused { IfErr result (λ fault. (fed : List ℕ) → HasCounted self.old fed →
            CountStops (fed ++ byte ∷ []) fault) }
    {
        few_are_met();
        self.scanner.take(byte);
        self.counts.take(self.scanner.met())
    }

    /// Takes the end of the collection, and makes what the second pass needs of memory, with a pool of
    /// `budget` bytes, from 4,096 to 2^30. The last piece may be one too many; else only `Memory` is
    /// refused.
    pub fn finish(self, alloc: Global, budget: u64) -> Result<(Plan, Room), Fault>
        requires least { least_budget ≤ budget }
        requires most { budget ≤ greatest_budget }
        requires given { (fed : List ℕ) × HasCounted self fed × (length fed < 2 ^ 32) }
        ensures plan { IfOk result (λ r. IsPlan r.0) }
        ensures of { (fed : List ℕ) → HasCounted self fed → length fed < 2 ^ 32 →
            IfOk result (λ r. IsPlanOf r.0 fed) }
        ensures room { IfOk result (λ r. IsRoomFor r.1 r.0 budget) }
        ensures refused { IfErr result (λ fault. (fed : List ℕ) → HasCounted self fed →
            EndStops fed fault) }
    {
        let (counts, open_end) = self.end()?;
        match plan_of(alloc, counts, open_end, budget) {
            Ok(made) => Ok(made),
            Err(_) => Err(Fault::Memory),
        }
    }

    /// Takes the end of the collection: what is counted in all of it, and whether its end is open.
    fn end(self) -> Result<(Counts, bool), Fault>
        requires given { (fed : List ℕ) × HasCounted self fed × (length fed < 2 ^ 32) }
        ensures counted { (fed : List ℕ) → HasCounted self fed → length fed < 2 ^ 32 →
            IfOk result (λ r. IsCountOf r.0 r.1 fed) }
        ensures refused { IfErr result (λ fault. (fed : List ℕ) → HasCounted self fed →
            EndStops fed fault) }
    {
        let mut given = self;
        match given.take_end() {
            Ok(open_end) => {
                let Count { counts, .. } = given;
                Ok((counts, open_end))
            }
            Err(refusal) => Err(refusal),
        }
    }

    /// Takes the end of the collection; answers whether a document is open there.
    fn take_end(&mut self) -> Result<bool, Fault>
        requires given { (fed : List ℕ) × HasCounted self.old fed × (length fed < 2 ^ 32) }
        ensures counted { (fed : List ℕ) → HasCounted self.old fed → length fed < 2 ^ 32 →
            IfOk result (λ open_end. IsCountOf self.new.counting open_end fed) }
        ensures refused { IfErr result (λ fault. (fed : List ℕ) → HasCounted self.old fed →
            EndStops fed fault) }
    {
        few_are_met();
        let open_end = self.scanner.is_open();
        self.scanner.finish();
        match self.counts.take(self.scanner.met()) {
            Ok(()) => {}
            Err(refusal) => return Err(refusal),
        }
        Ok(open_end)
    }
}

//! Memory of fixed size.
ghost use Rattle.std.specs.Prelude.{◌≡◌, ◌≤◌, ◌<◌, ◌+◌, ◌*◌, ◌/◌, ◌++◌, ◌↔◌, [], ◌∷◌, IfOk, IsTrue, length, max, slice_index_or};
ghost use Rattle.mg_defs.specs.Limits.{least_budget, greatest_budget};
ghost use Rattle.mg_runs.specs.Pooled.{SamePool, used, slot_bytes};
ghost use Rattle.mg_runs.specs.Slots.{FillLook, FillsFrom, ChangesOneSlot};
ghost use Rattle.mg_runs.specs.Steps.{PoolBack};
ghost use Rattle.mg_dev.specs.Moments.{Between};

use crate::entry::put_entry;
use crate::slot::{fill_slot, slot_of};
use mg_dev::{Failed, FileRef, Store};
use std::alloc::{AllocError, Global};
use std::marker::Model;

/// Memory of a budget, reserved once, which is used either for entries, 12 bytes for each, or as
/// slots of 64 bytes.
///
/// Eight bytes of the 12 hold the entry. The other four stand behind all entries and serve to sort
/// them.
///
/// Both uses lie in one vector of bytes, so that no more than the budget is ever reserved. The
/// greatest use so far is its peak, and `used <= peak <= limit` holds of every pool, where the
/// limit is the budget.
#[derive(Drop)]
pub struct Pool {
    pub(crate) bytes: Vec<u8>,
    pub(crate) entries: usize,
    pub(crate) slots: usize,
    pub(crate) peak: u64,
}

impl Model for Pool {
    ghost use Rattle.std.specs.Prelude.{length};
    ghost use Rattle.std.specs.Simd.{first_chunks};
    ghost use Rattle.mg_runs.specs.Pooled.{Pooled, IsWithin};
    ghost use Rattle.mg_runs.specs.Bytes.{entries_in};

    ghost Value = { Pooled };

    ghost view = { λ p. record {
      entries = entries_in p.entries p.bytes.items;
      slots = first_chunks 64 p.slots p.bytes.items;
      peak = p.peak;
      limit = length p.bytes.items;
    } };

    ghost invariant = { λ p. IsWithin p.entries p.slots p.peak (length p.bytes.items) };
}

impl Pool {
    /// A pool of so many bytes, from 4,096 to 2^30.
    pub fn new(alloc: Global, budget: u64) -> Result<Self, AllocError>
        requires least { least_budget ≤ budget }
        requires most { budget ≤ greatest_budget }
        ensures { IfOk result (λ p. p
            ≡ record { entries = []; slots = []; peak = 0; limit = budget }) }
    {
        let bytes = vec![in alloc; 0; budget as usize]?;
        Ok(Pool {
            bytes,
            entries: 0,
            slots: 0,
            peak: 0,
        })
    }

    /// How many entries it holds at most.
    pub fn cap(&self) -> u32
        ensures { result ≡ self.now.limit / 12 }
    {
        (self.bytes.len() / 12) as u32
    }

    /// How many slots it holds at most.
    pub fn width(&self) -> u32
        ensures { result ≡ self.now.limit / 64 }
    {
        (self.bytes.len() / 64) as u32
    }

    /// Whether it holds as many entries as it can.
    pub fn is_full(&self) -> bool
        ensures { IsTrue result ↔ (length self.now.entries ≡ self.now.limit / 12) }
    {
        self.entries == self.bytes.len() / 12
    }

    /// The bytes in use: 12 for each entry, or 64 for each slot.
    pub fn used(&self) -> u64
        ensures value { result ≡ used self.now }
        ensures below { result ≤ self.now.peak }
    {
        12 * self.entries as u64 + 64 * self.slots as u64
    }

    /// The greatest use so far, in bytes.
    pub fn peak(&self) -> u64
        ensures value { result ≡ self.now.peak }
        ensures above { used self.now ≤ result }
        ensures below { result ≤ self.now.limit }
    {
        self.peak
    }

    /// The budget, in bytes.
    pub fn limit(&self) -> u64
        ensures value { result ≡ self.now.limit }
        ensures least { least_budget ≤ result }
        ensures most { result ≤ greatest_budget }
    {
        self.bytes.len() as u64
    }

    /// Adds an entry that counts one. The pool holds entries, and has room.
    pub fn push(&mut self, term: u32, doc: u32)
        requires room { length self.old.entries < self.old.limit / 12 }
        requires entries { self.old.slots ≡ [] }
        ensures entries { self.new.entries ≡ self.old.entries
            ++ (record { term = term; doc = doc; count = 1 }) ∷ [] }
        ensures slots { self.new.slots ≡ [] }
        ensures peak { self.new.peak ≡ max self.old.peak (used self.new) }
        ensures limit { self.new.limit ≡ self.old.limit }
    {
        put_entry(&mut self.bytes, self.entries, term, doc);
        self.entries += 1;
        let now = 12 * self.entries as u64;
        self.peak = self.peak.max(now);
    }

    /// Takes so many slots into use. The pool holds no entry.
    pub(crate) fn use_slots(&mut self, count: usize)
        requires entries { self.old.entries ≡ [] }
        requires room { count ≤ self.old.limit / 64 }
        ensures slots { length self.new.slots ≡ count }
        ensures back { PoolBack count self.old self.new }
    {
        self.slots = count;
        self.peak = self.peak.max(64 * count as u64);
    }

    /// Reads a file's bytes from a place on into a slot, and answers how many these are.
    pub(crate) fn fill<S: Store>(
        &mut self,
        store: &mut S,
        file: &FileRef<'_>,
        at: u64,
        slot: usize,
    ) -> Result<usize, Failed>
        requires { slot < length self.old.slots }
        ensures slots { ChangesOneSlot slot self.old.slots self.new.slots }
        ensures same { SamePool self.old self.new }
        ensures filled { FillsFrom file.now (S.files store.old) at (slot_bytes self.new slot)
            result }
        ensures look { Between S.files S.reads S.faults store.old store.new
            (FillLook file.now.part result) }
    {
        fill_slot(store, file, at, &mut self.bytes, slot)
    }

    /// The bytes of a slot in use.
    pub(crate) fn slot(&self, slot: usize) -> &[u8]
        requires { slot < length self.now.slots }
        ensures { result.now ≡ slice_index_or self.now.slots slot [] }
    {
        slot_of(&self.bytes, slot)
    }
}

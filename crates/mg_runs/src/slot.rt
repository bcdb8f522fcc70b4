//! Slots of 64 bytes, as buffers of a file.
ghost use Rattle.std.specs.Prelude.{◌≡◌, ◌≤◌, ◌<◌, ◌*◌, ◌+◌, ℕ, [], length, slice_index_or};
ghost use Rattle.std.specs.Simd.{first_chunks};
ghost use Rattle.mg_runs.specs.Slots.{FillLook, FillsFrom, slots_in, slot_at, ChangesOneSlot, ForSlots};
ghost use Rattle.mg_dev.specs.Moments.{Between};

use mg_dev::{Failed, FileRef, Store};

/// Reads a file's bytes from a place on into a buffer of 64 bytes, and answers how many these are.
fn read_slot<S: Store>(
    store: &mut S,
    file: &FileRef<'_>,
    at: u64,
    slot: &mut [u8],
) -> Result<usize, Failed>
    requires { length slot.old ≡ 64 }
    ensures filled { FillsFrom file.now (S.files store.old) at slot.new result }
    ensures look { Between S.files S.reads S.faults store.old store.new
        (FillLook file.now.part result) }
{
    store.read_at(file, at, slot)
}

/// The same into one of the slots of bytes.
fn fill_in<S: Store>(
    store: &mut S,
    file: &FileRef<'_>,
    at: u64,
    bytes: &mut [u8],
    slot: usize,
) -> Result<usize, Failed>
    requires room { 64 * slot + 64 ≤ length bytes.old }
    ensures slots { ForSlots slot bytes.old
        (λ count. ChangesOneSlot slot (slots_in count bytes.old) (slots_in count bytes.new)) }
    ensures filled { ForSlots slot bytes.old
        (λ count. FillsFrom file.now (S.files store.old) at
        (slot_at (slots_in count bytes.new) slot) result) }
    ensures look { Between S.files S.reads S.faults store.old store.new
        (FillLook file.now.part result) }
{
    let from = 64 * slot;
    let part = &mut bytes[from..from + 64];
    read_slot(store, file, at, part)
}

/// The same in a `Vec`.
pub fn fill_slot<S: Store>(
    store: &mut S,
    file: &FileRef<'_>,
    at: u64,
    bytes: &mut Vec<u8>,
    slot: usize,
) -> Result<usize, Failed>
    requires room { 64 * slot + 64 ≤ length bytes.old.items }
    ensures len { length bytes.new.items ≡ length bytes.old.items }
    ensures slots { ForSlots slot bytes.old.items (λ count.
        ChangesOneSlot slot (slots_in count bytes.old.items) (slots_in count bytes.new.items)) }
    ensures filled { ForSlots slot bytes.old.items (λ count.
        FillsFrom file.now (S.files store.old) at (slot_at (slots_in count bytes.new.items) slot)
        result) }
    ensures look { Between S.files S.reads S.faults store.old store.new
        (FillLook file.now.part result) }
{
    fill_in(store, file, at, bytes, slot)
}

/// The bytes of a slot of bytes.
fn slot_in(bytes: &[u8], slot: usize) -> &[u8]
    requires { 64 * slot + 64 ≤ length bytes.now }
    ensures { (count : ℕ) → slot < count → 64 * count ≤ length bytes.now →
        result.now ≡ slice_index_or (first_chunks 64 count bytes.now) slot [] }
{
    &bytes[64 * slot..64 * slot + 64]
}

/// The bytes of a slot.
pub fn slot_of(bytes: &Vec<u8>, slot: usize) -> &[u8]
    requires { 64 * slot + 64 ≤ length bytes.now.items }
    ensures { (count : ℕ) → slot < count → 64 * count ≤ length bytes.now.items →
        result.now ≡ slice_index_or (first_chunks 64 count bytes.now.items) slot [] }
{
    slot_in(bytes, slot)
}

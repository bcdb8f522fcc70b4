//! The postings of a run, one after the other.
ghost use Rattle.std.specs.Prelude.{◌≤◌, ◌<◌, ◌+◌, ◌^◌, ℕ, Err, IfErr, IfOk, IsOkAnd, length};
ghost use Rattle.mg_dev.specs.Moments.{Between};
ghost use Rattle.mg_dev.specs.PartCauses.{IsCaused};
ghost use Rattle.mg_defs.specs.RunBits.{before_first};
ghost use Rattle.mg_runs.specs.Pooled.{slot_bytes};
ghost use Rattle.mg_runs.specs.Damages.{NamesPart, TellsBit};
ghost use Rattle.mg_runs.specs.Cursors.{HasMoved, IsBegun, IsKept, IsNear, NoDamage, NoMemory, Tells, ForNextAt, ForHeader, IsAtPostingBy, IsAtBy};
ghost use Rattle.mg_runs.specs.Reading.{ForPosting, ForRun};
ghost use Rattle.mg_runs.specs.Slots.{FillsFrom};
ghost use Rattle.mg_runs.specs.Steps.{RefusesAt, SlotStep};

use crate::Pool;
use crate::cursor::Cursor;
use crate::decode::{MOST_LEFT, number_in, posting_in};
use mg_defs::TermPosting;
use mg_dev::{Bad, FileRef, Part, PartErr, Store};

/// No run has its bits at this place.
pub fn damage(part: Part, at: u64) -> PartErr
    ensures caused { (f g : ℕ) → IsCaused {T = ℕ} f g (Err result) }
    ensures memory { NoMemory {T = ℕ} (Err result) }
    ensures names { NamesPart part result }
    ensures bit { TellsBit at result }
{
    PartErr::Bad(Bad {
        part,
        at,
        low: 1,
        high: 1 << 32,
        found: 0,
    })
}

/// Reads a file's bytes from a place on into a slot, and answers how many these are.
fn read_bytes<S: Store>(
    pool: &mut Pool,
    store: &mut S,
    file: &FileRef<'_>,
    at: u64,
    slot: usize,
) -> Result<usize, PartErr>
    requires { slot < length pool.old.slots }
    ensures filled { FillsFrom file.now (S.files store.old) at (slot_bytes pool.new slot) result }
    ensures undamaged { NoDamage result }
    ensures step { Between S.files S.reads S.faults store.old store.new
        (SlotStep slot file.now.part pool.old pool.new result) }
{
    match pool.fill(store, file, at, slot) {
        Ok(count) => Ok(count),
        Err(_) => Err(PartErr::Device),
    }
}

/// The cursor, with a slot that has the bytes of the next posting.
fn refreshed<S: Store>(
    pool: &mut Pool,
    store: &mut S,
    file: &FileRef<'_>,
    slot: usize,
    cursor: &Cursor,
) -> Result<Cursor, PartErr>
    requires { slot < length pool.old.slots }
    ensures at { ForPosting cursor.now pool.old slot file.now (S.files store.old)
        (λ bytes x xs. IfOk result (IsAtPostingBy pool.new slot bytes x xs)) }
    ensures kept { IfOk result (IsKept cursor.now) }
    ensures undamaged { NoDamage result }
    ensures step { Between S.files S.reads S.faults store.old store.new
        (SlotStep slot file.now.part pool.old pool.new result) }
{
    let byte = cursor.place / 8;
    if byte >= cursor.start && byte - cursor.start <= 32 {
        return Ok(*cursor);
    }
    match read_bytes(pool, store, file, byte, slot) {
        Ok(count) => Ok(Cursor {
            posting: cursor.posting,
            left: cursor.left,
            place: cursor.place,
            start: byte,
            count,
        }),
        Err(refusal) => Err(refusal),
    }
}

/// The cursor at the next posting, whose bytes its slot has.
fn read_behind(pool: &Pool, part: Part, slot: usize, cursor: &Cursor) -> Result<Cursor, PartErr>
    requires slot { slot < length pool.now.slots }
    requires near { IsNear cursor.now }
    requires left { 1 ≤ cursor.now.left }
    ensures told { ForNextAt cursor.now (slot_bytes pool.now slot)
        (λ file y ys. IsOkAnd result (IsAtPostingBy pool.now slot file y ys)) }
    ensures moved { IfOk result (HasMoved cursor.now) }
    ensures refuses { RefusesAt part cursor.now.place result }
{
    let all = pool.slot(slot);
    let bytes = &all[..cursor.count.min(all.len())];
    let offset = cursor.place - 8 * cursor.start;
    if cursor.place > 1 << 62 {
        return Err(damage(part, cursor.place));
    }
    match posting_in(bytes, offset, &cursor.posting) {
        Some(found) => Ok(Cursor {
            posting: found.posting,
            left: cursor.left - 1,
            place: cursor.place + (found.next - offset),
            start: cursor.start,
            count: cursor.count,
        }),
        None => Err(damage(part, cursor.place)),
    }
}

/// The cursor at the next posting of its run.
pub fn advanced<S: Store>(
    pool: &mut Pool,
    store: &mut S,
    file: &FileRef<'_>,
    slot: usize,
    cursor: &Cursor,
) -> Result<Cursor, PartErr>
    requires slot { slot < length pool.old.slots }
    requires left { 1 ≤ cursor.now.left }
    ensures told { ForPosting cursor.now pool.old slot file.now (S.files store.old)
        (λ bytes _ xs. Tells result (IsAtBy pool.new slot bytes xs)) }
    ensures moved { IfOk result (HasMoved cursor.now) }
    ensures step { Between S.files S.reads S.faults store.old store.new
        (SlotStep slot file.now.part pool.old pool.new result) }
    ensures bit { IfErr result (TellsBit cursor.now.place) }
{
    if cursor.left == 1 {
        return Ok(Cursor {
            posting: cursor.posting,
            left: 0,
            place: cursor.place,
            start: cursor.start,
            count: cursor.count,
        });
    }
    match refreshed(pool, store, file, slot, cursor) {
        Ok(near) => read_behind(pool, file.part, slot, &near),
        Err(refusal) => Err(refusal),
    }
}

/// The cursor before the first posting of a run, whose first bytes the slot has.
fn read_header(
    pool: &Pool,
    part: Part,
    slot: usize,
    place: u64,
    count: usize,
) -> Result<Cursor, PartErr>
    requires slot { slot < length pool.now.slots }
    ensures told { ForHeader place count (slot_bytes pool.now slot)
        (λ file xs. IsOkAnd result (IsAtPostingBy pool.now slot file before_first xs)) }
    ensures some { IfOk result (λ c. 1 ≤ c.left) }
    ensures few { IfOk result (λ c. c.left < 2 ^ 32) }
    ensures refuses { RefusesAt part place result }
{
    let all = pool.slot(slot);
    let bytes = &all[..count.min(all.len())];
    let offset = place % 8;
    if place > 1 << 62 {
        return Err(damage(part, place));
    }
    match number_in(bytes, offset, MOST_LEFT) {
        Some(number) => Ok(Cursor {
            posting: TermPosting {
                term: 0,
                doc: 0,
                count: 0,
            },
            left: number.value as u32 + 1,
            place: place + (number.next - offset),
            start: place / 8,
            count,
        }),
        None => Err(damage(part, place)),
    }
}

/// The cursor at the first posting of the run that begins at a bit place.
pub fn opened<S: Store>(
    pool: &mut Pool,
    store: &mut S,
    file: &FileRef<'_>,
    slot: usize,
    place: u64,
) -> Result<Cursor, PartErr>
    requires slot { slot < length pool.old.slots }
    ensures told { ForRun place file.now (S.files store.old)
        (λ bytes xs. Tells result (IsAtBy pool.new slot bytes xs)) }
    ensures begun { IfOk result IsBegun }
    ensures step { Between S.files S.reads S.faults store.old store.new
        (SlotStep slot file.now.part pool.old pool.new result) }
{
    match read_bytes(pool, store, file, place / 8, slot) {
        Ok(count) => match read_header(pool, file.part, slot, place, count) {
            Ok(cursor) => advanced(pool, store, file, slot, &cursor),
            Err(refusal) => Err(refusal),
        },
        Err(refusal) => Err(refusal),
    }
}

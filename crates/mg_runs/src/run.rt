//! The entries of a pool as a run.
ghost use Rattle.std.specs.Prelude.{◌≡◌, ◌+◌, ◌*◌, ◌%◌, ◌≤◌, ◌<◌, ◌^◌, ℕ, OnOk, length, map, slice_index};
ghost use Rattle.mg_defs.specs.Limits.{greatest_cap};
ghost use Rattle.mg_defs.specs.Bits.{filled};
ghost use Rattle.mg_defs.specs.Postings.{gathered};
ghost use Rattle.mg_defs.specs.RunBits.{run_bits};
ghost use Rattle.mg_bits.specs.BitWriting.{Holds};
ghost use Rattle.mg_codes.specs.Writers.{PutsBits};
ghost use Rattle.mg_runs.specs.Bytes.{AreTaken, entry_in, entries_in};
ghost use Rattle.mg_runs.specs.Groups.{InOrder};

use crate::entry::number_at;
use crate::groups::{group_end, sort_entries};
use crate::posting::{put_number, put_posting};
use mg_bits::BitWriter;
use mg_defs::TermPosting;
use mg_dev::{PutErr, Store};
use std::alloc::Global;

/// A law: each number of a slice of bytes is one.
fn bytes_fit(bytes: &[u8])
    ensures { (i : ℕ) → slice_index bytes.now i < 2 ^ 8 }
{}

/// How many postings sorted entries have.
fn distinct(entries: &[[u8; 8]]) -> u32
    requires { InOrder entries.now }
    ensures value { result ≡ length (gathered (map entry_in entries.now)) }
    ensures few { result ≤ greatest_cap }
{
    let mut count = 0u32;
    let mut from = 0;
    while from < entries.len() {
        from = group_end(entries, from);
        count += 1;
    }
    count
}

/// Writes the postings of sorted entries, without the last zero-bits.
fn put_list<S: Store>(
    w: &mut BitWriter<'_>,
    store: &mut S,
    entries: &[[u8; 8]],
) -> Result<(), PutErr>
    requires holds { Holds w.old (S.files store.old) }
    requires place { w.old.place + 256 * length entries.now + 1024 ≤ 2 ^ 63 }
    requires some { 1 ≤ length entries.now }
    requires order { InOrder entries.now }
    ensures puts { PutsBits (run_bits (gathered (map entry_in entries.now)))
        S.files S.reads S.faults w.old w.new store.old store.new result }
    ensures place { OnOk result (w.new.place ≤ w.old.place + 66 + 256 * length entries.now) }
{
    let count = distinct(entries);
    match put_number(w, store, u64::from(count)) {
        Ok(()) => {}
        Err(refusal) => return Err(refusal),
    }
    let mut last = TermPosting {
        term: 0,
        doc: 0,
        count: 0,
    };
    let mut from = 0;
    while from < entries.len() {
        let next = group_end(entries, from);
        let posting = TermPosting {
            term: number_at(&entries[from], 0),
            doc: number_at(&entries[from], 4),
            count: (next - from) as u32,
        };
        match put_posting(w, store, &last, &posting) {
            Ok(()) => {}
            Err(refusal) => return Err(refusal),
        }
        last = posting;
        from = next;
    }
    Ok(())
}

/// Sorts the first entries in their place, with the four bytes for each that stand behind them, and
/// writes them as a run, which ends at a byte.
pub fn write_entries<S: Store>(
    alloc: Global,
    w: &mut BitWriter<'_>,
    store: &mut S,
    bytes: &mut [u8],
    count: usize,
) -> Result<(), PutErr>
    requires holds { Holds w.old (S.files store.old) }
    requires place { w.old.place + 256 * count + 2048 ≤ 2 ^ 63 }
    requires whole { w.old.place % 8 ≡ 0 }
    requires entries { AreTaken count bytes.old }
    ensures puts { PutsBits (filled (run_bits (gathered (entries_in count bytes.old))))
        S.files S.reads S.faults w.old w.new store.old store.new result }
    ensures place { OnOk result (w.new.place ≤ w.old.place + 128 + 256 * count) }
    ensures whole { OnOk result (w.new.place % 8 ≡ 0) }
{
    bytes_fit(bytes);
    let (front, back) = bytes.split_at_mut(8 * count);
    let (entries, _) = front.as_chunks_mut::<8>();
    let (docs, _) = back[..4 * count].as_chunks_mut::<4>();
    sort_entries(alloc, entries, docs);
    put_list(w, store, entries)?;
    w.align(store)?;
    Ok(())
}

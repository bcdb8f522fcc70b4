//! The postings of entries, sorted in their place.
ghost use Rattle.std.specs.Prelude.{◌≡◌, ◌≤◌, ◌<◌, ◌+◌, ◌-◌, ◌*◌, ◌^◌, length, map};
ghost use Rattle.std.specs.List.{All};
ghost use Rattle.std.specs.List.Sorted.{IsPermutation};
ghost use Rattle.mg_runs.specs.PostingOrder.{NotFalling};
ghost use Rattle.mg_runs.specs.Bytes.{entry_in, number_in};
ghost use Rattle.mg_runs.specs.Counting.{HasRoom};
ghost use Rattle.mg_runs.specs.Groups.{InOrder, IsGroup};

use crate::counting::group_by_term;
use crate::entry::number_at;
use mg_fields::eight_at;
use std::alloc::Global;

/// The term and the document of an entry as one number. By it entries are in order of their terms,
/// and those of a term in order of their documents.
fn key_of(entry: &[u8; 8]) -> u64
    ensures { result ≡ number_in 0 entry.now * 2 ^ 32 + number_in 4 entry.now }
{
    eight_at(entry, 0)
}

/// Sorts entries by term and document, with four bytes for each.
///
/// Those that come by rising document are in order once they stand by their terms. The sort that
/// compares them finds that by looking through them once.
pub fn sort_entries(alloc: Global, entries: &mut [[u8; 8]], docs: &mut [[u8; 4]])
    requires room { HasRoom entries.old docs.old }
    requires small { All (λ e. number_in 4 e < 2 ^ 32) entries.old }
    ensures same { IsPermutation (map entry_in entries.old) (map entry_in entries.new) }
    ensures order { NotFalling (map entry_in entries.new) }
{
    group_by_term(alloc, entries, docs);
    entries.sort_unstable_by_key(|e| key_of(e));
}

/// Where the entries end that are like this one.
pub fn group_end(entries: &[[u8; 8]], from: usize) -> usize
    requires from { from < length entries.now }
    requires order { InOrder entries.now }
    ensures after { from < result }
    ensures within { result ≤ length entries.now }
    ensures group { IsGroup entries.now from result }
{
    let term = number_at(&entries[from], 0);
    let doc = number_at(&entries[from], 4);
    let mut next = from + 1;
    while next < entries.len()
        && number_at(&entries[next], 0) == term
        && number_at(&entries[next], 4) == doc
    {
        next += 1;
    }
    next
}

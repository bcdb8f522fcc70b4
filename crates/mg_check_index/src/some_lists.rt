//! Some of the lists of a range, which are written anew and compared at once.
//!
//! The lists of a range are compared as they are written. Where a part has another byte, what is written behind it is held.
//! So at most so many lists are held twice as have 2^16 postings together, and one more.
ghost use Rattle.std.specs.Prelude.{◌≡◌, ◌<◌, ◌≤◌, ◌+◌, ◌-◌, ◌^◌, length, slice_index};
ghost use Rattle.mg_check_index.specs.Listing.{IsLaidOut, list_at, room_at, some_of};

use crate::packed_postings::Postings;
use crate::range_lists::RangeLists;
use std::marker::Model;

/// Lists of a range from one on, so many of them.
#[derive(Drop)]
pub(crate) struct SomeLists<'r> {
    lists: &'r RangeLists,
    first: usize,
    count: usize,
}

impl<'r> Model for SomeLists<'r> {
    ghost use Rattle.std.specs.Prelude.{◌≤◌, ◌+◌, length};
    ghost use Rattle.mg_check_index.specs.Listing.{IsLaidOut, Ranged, some_of};

    ghost Value = { Ranged };

    ghost view = { λ s. some_of s.lists.now s.first s.count };

    ghost invariant = { λ s. (s.first + s.count ≤ length s.lists.now.next) × IsLaidOut s.lists.now };
}

/// A list of a range: its term's number, how many documents have the term, and the postings that it holds.
#[derive(Drop)]
pub(crate) struct TermList<'r> {
    pub(crate) number: u32,
    pub(crate) docs: u32,
    pub(crate) postings: Postings<'r>,
}

impl<'r> SomeLists<'r> {
    /// The lists of a range from one on that are written anew at once: without the last of them they have room for fewer
    /// than 2^16 postings.
    pub(crate) fn of_range(lists: &'r RangeLists, first: usize) -> Self
        requires laid { IsLaidOut lists.now }
        requires within { first < length lists.now.next }
        ensures lists { result ≡ some_of lists.entry.now first (length result.next) }
        ensures some { 1 ≤ length result.next }
        ensures within { first + length result.next ≤ length lists.entry.now.next }
        ensures few { slice_index lists.entry.now.starts (first + length result.next - 1)
            < slice_index lists.entry.now.starts first + 2 ^ 16 }
    {
        let end = lists.end_from(first);
        SomeLists {
            lists,
            first,
            count: end - first,
        }
    }

    /// How many lists there are.
    pub(crate) fn count(&self) -> usize
        ensures { result ≡ length self.now.next }
    {
        self.count
    }

    /// The list at a place among them, from 0.
    pub(crate) fn list(&self, index: usize) -> TermList<'_>
        requires within { index < length self.now.next }
        requires few { self.now.first + index < 2 ^ 32 }
        ensures number { result.number ≡ self.now.first + index }
        ensures docs { result.docs ≡ room_at self.now index }
        ensures fits { slice_index self.now.starts (index + 1) < 2 ^ 32 }
        ensures postings { result.postings ≡ list_at self.now index }
    {
        let place = self.first + index;
        TermList {
            number: self.lists.number(place),
            docs: self.lists.room(place),
            postings: self.lists.list(place),
        }
    }
}

//! Pieces in entries of sixteen bytes, and the bytes of the longer ones in one block.
ghost use Rattle.std.specs.Prelude.{◌≡◌, ℕ, List, ◌+◌, ◌<◌, ◌≤◌, ◌^◌, ◌++◌, ◌∷◌, [], length, map, position, slice_get, slice_index, slice_index_or, take, Some, IfOk, IfSome, OnOk, OnErr};
ghost use Rattle.std.specs.List.{AllByRecursion, dedup};
ghost use Rattle.std.specs.List.Sorted.{IsPermutation, IsSorted, IsStrictlySortedBy};
ghost use Rattle.std.specs.Ordering.{nat_cmp};
ghost use Rattle.std.specs.Cmp.Lexicographic.{slice_cmp};
ghost use Rattle.std.specs.Str.{bytes_eq};
ghost use Rattle.mg_defs.specs.Numbers.{four_at};
ghost use Rattle.mg_defs.specs.Sorted.{sorted_distinct};
ghost use Rattle.mg_model.specs.Blocks.{short_piece, long_piece, piece_of, same_piece, IsPieceEntry};

use crate::room::{make_room, make_room_for};
use mg_fields::{four_at, four_bytes};
use std::alloc::{AllocError, Global};
use std::cmp::Ordering;
use std::marker::Model;

/// The most bytes of a piece that its entry or its key holds.
pub(crate) const SHORT: usize = 15;

/// Pieces in entries of sixteen bytes.
///
/// The first byte of an entry is the piece's length. A piece of at most fifteen bytes stands behind
/// it, so that one read of memory finds it; of a longer piece the entry tells in four bytes where it
/// begins among the bytes of the longer pieces, which stand one after another.
#[derive(Drop)]
pub struct PieceBlock {
    entries: Vec<[u8; 16]>,
    long: Vec<u8>,
}

impl Model for PieceBlock {
    ghost use Rattle.std.specs.Prelude.{ℕ, List, map};
    ghost use Rattle.mg_model.specs.Blocks.{piece_of, IsBlock};

    ghost Value = { List (List ℕ) };

    ghost view = { λ b. map (piece_of b.long.items) b.entries.items };

    ghost invariant = { λ b. IsBlock b.entries.items b.long.items };
}

/// The entry of a piece that it holds. Zero-bytes stand behind the piece, as in its key, so that a
/// vocabulary finds it by the entry.
fn short_entry(piece: &[u8]) -> [u8; 16]
    requires { length piece.now ≤ 15 }
    ensures length { slice_index result 0 ≡ length piece.now }
    ensures piece { short_piece result ≡ piece.now }
{
    let mut entry = [0u8; 16];
    entry[0] = piece.len() as u8;
    entry[1..piece.len() + 1].copy_from_slice(piece);
    entry
}

/// The entry of a piece of so many bytes that begins at a place.
fn long_entry(length: u8, place: u32) -> [u8; 16]
    ensures length { slice_index result 0 ≡ length }
    ensures place { four_at result 1 ≡ place }
{
    let [a, b, c, d] = four_bytes(place);
    [length, a, b, c, d, 0, 0, 0, 0, 0, 0, 0, 0, 0, 0, 0]
}

/// The entry at a place.
#[inline]
fn entry_at(entries: &[[u8; 16]], place: usize) -> &[u8; 16]
    requires { place < length entries.now }
    ensures { result.now ≡ slice_index_or entries.now place [] }
{
    &entries[place]
}

/// The piece that an entry holds: the first byte is its length, and the piece stands behind.
pub fn short_piece(entry: &[u8; 16]) -> &[u8]
    requires { slice_index entry.now 0 ≤ 15 }
    ensures { result.now ≡ short_piece entry.now }
{
    &entry[1..usize::from(entry[0]) + 1]
}

/// The piece of which an entry tells, among the bytes of the longer pieces.
fn long_piece<'a>(entry: &[u8; 16], long: &'a [u8]) -> &'a [u8]
    requires { four_at entry.now 1 + slice_index entry.now 0 ≤ length long.now }
    ensures { result.now ≡ long_piece long.now entry.now }
{
    let start = four_at(entry, 1) as usize;
    &long[start..start + usize::from(entry[0])]
}

/// The piece of an entry.
fn piece_of<'a>(entry: &'a [u8; 16], long: &'a [u8]) -> &'a [u8]
    requires { IsPieceEntry (length long.now) entry.now }
    ensures piece { result.now ≡ piece_of long.now entry.now }
    ensures short { length result.now ≤ 255 }
{
    if usize::from(entry[0]) <= SHORT {
        short_piece(entry)
    } else {
        long_piece(entry, long)
    }
}

/// The piece of an entry, or as much of it as is there: so it asks for nothing, and serves to compare.
fn piece_there<'a>(entry: &'a [u8; 16], long: &'a [u8]) -> &'a [u8]
    ensures { result.now ≡ piece_of long.now entry.now }
{
    let length = usize::from(entry[0]);
    if length <= SHORT {
        return short_piece(entry);
    }
    let start = long.len().min(four_at(entry, 1) as usize);
    let end = long.len().min(start + length);
    &long[start..end]
}

/// The order of the pieces of two entries.
fn order(long: &[u8], one: &[u8; 16], other: &[u8; 16]) -> Ordering
    ensures { result ≡ slice_cmp nat_cmp (piece_of long.now one.now) (piece_of long.now other.now) }
{
    piece_there(one, long).cmp(piece_there(other, long))
}

/// Whether two entries have the same piece.
fn same_piece(long: &[u8], one: &[u8; 16], other: &[u8; 16]) -> bool
    ensures { result ≡ same_piece long.now one.now other.now }
{
    piece_there(one, long) == piece_there(other, long)
}

/// Sorts entries by the bytes of their pieces.
fn sort_entries(entries: &mut Vec<[u8; 16]>, long: &[u8])
    ensures permutation { IsPermutation entries.old.items entries.new.items }
    ensures sorted { IsSorted (slice_cmp nat_cmp) (map (piece_of long.now) entries.new.items) }
{
    entries.sort_unstable_by(|one, other| order(long, one, other));
}

/// Takes the entries away whose piece is that of the entry before.
fn leave_each_once(entries: &mut Vec<[u8; 16]>, long: &[u8])
    ensures entries { entries.new.items ≡ dedup (same_piece long.now) entries.old.items }
    ensures fewer { length entries.new.items ≤ length entries.old.items }
{
    entries.dedup_by(|one, before| same_piece(long, one, before));
}

impl PieceBlock {
    /// A block of no piece.
    pub fn new(alloc: Global) -> Self
        ensures { result ≡ [] }
    {
        PieceBlock {
            entries: Vec::new(alloc),
            long: Vec::new(alloc),
        }
    }

    /// A block of no piece, with room for the entries of so many.
    pub fn with_capacity(alloc: Global, pieces: u32) -> Result<Self, AllocError>
        ensures { IfOk result (λ block. block ≡ []) }
    {
        let entries = Vec::with_capacity(alloc, pieces as usize)?;
        Ok(PieceBlock {
            entries,
            long: Vec::new(alloc),
        })
    }

    /// The number of pieces.
    pub fn len(&self) -> u32
        ensures len { result ≡ length self.now }
        ensures few { length self.now ≤ 2 ^ 22 }
        ensures short { AllByRecursion (λ (p : List ℕ). length p ≤ 255) self.now }
    {
        self.entries.len() as u32
    }

    /// Adds a piece of at most 255 bytes. After a refusal nothing changed.
    pub fn push(&mut self, piece: &[u8]) -> Result<(), AllocError>
        requires few { length self.old < 2 ^ 22 }
        requires short { length piece.now ≤ 255 }
        ensures ok { OnOk result (self.new ≡ self.old ++ piece.now ∷ []) }
        ensures err { OnErr result (self.new ≡ self.old) }
    {
        make_room(&mut self.entries)?;
        if piece.len() <= SHORT {
            self.entries.push_reserved(short_entry(piece));
            return Ok(());
        }
        let Ok(place) = u32::try_from(self.long.len()) else {
            return Err(AllocError);
        };
        make_room_for(&mut self.long, piece.len())?;
        let entry = long_entry(piece.len() as u8, place);
        self.long.extend_from_slice(piece)?;
        self.entries.push_reserved(entry);
        Ok(())
    }

    /// Adds the piece that the first bytes of a string are. After a refusal nothing changed.
    pub fn push_of(&mut self, string: &[u8; 255], count: u8) -> Result<(), AllocError>
        requires { length self.old < 2 ^ 22 }
        ensures ok { OnOk result (self.new ≡ self.old ++ take count string.now ∷ []) }
        ensures err { OnErr result (self.new ≡ self.old) }
    {
        self.push(&string[..usize::from(count)])
    }

    /// Sorts the pieces by their bytes, and leaves each once. It takes no memory.
    pub fn sort_distinct(&mut self)
        ensures { self.new ≡ sorted_distinct self.old }
    {
        sort_entries(&mut self.entries, &self.long);
        leave_each_once(&mut self.entries, &self.long);
    }

    /// Gives back the memory that the pieces do not need.
    pub fn shrink(&mut self)
        ensures { self.new ≡ self.old }
    {
        self.entries.shrink_to_fit();
        self.long.shrink_to_fit();
    }

    /// The piece at a place.
    pub fn piece(&self, place: u32) -> &[u8]
        requires { place < length self.now }
        ensures piece { slice_get self.now place ≡ Some result.now }
        ensures short { length result.now ≤ 255 }
    {
        piece_of(entry_at(&self.entries, place as usize), &self.long)
    }

    /// The entry of the piece at a place, where it holds the piece.
    #[inline]
    pub fn short_piece(&self, place: u32) -> Option<&[u8; 16]>
        requires { place < length self.now }
        ensures piece { IfSome result (λ entry. slice_get self.now place
            ≡ Some (short_piece entry.now)) }
        ensures length { IfSome result (λ entry. slice_index entry.now 0 ≤ 15) }
    {
        let entry = entry_at(&self.entries, place as usize);
        if usize::from(entry[0]) <= SHORT {
            Some(entry)
        } else {
            None
        }
    }

    /// The place of a piece, where the pieces rise. It is sought by halving.
    pub fn place_of(&self, piece: &[u8]) -> Option<u32>
        requires { IsStrictlySortedBy (slice_cmp nat_cmp) self.now }
        ensures { result ≡ position (bytes_eq piece.now) self.now }
    {
        let mut low = 0;
        let mut high = self.len();
        while low < high {
            let middle = low + (high - low) / 2;
            match piece.cmp(self.piece(middle)) {
                Ordering::Less => high = middle,
                Ordering::Equal => return Some(middle),
                Ordering::Greater => low = middle + 1,
            }
        }
        None
    }
}

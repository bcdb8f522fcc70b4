//! A vocabulary: distinct pieces, each with its count.
ghost use Rattle.std.specs.Prelude.{◌≡◌, ◌+◌, ◌-◌, ◌<◌, ◌≤◌, ◌^◌, ◌↔◌, [], length, position, slice_get, Some, false, true, IfOk, IsOk, OnOk, OnErr, IsErrOf};
ghost use Rattle.std.specs.List.Sorted.{IsStrictlySortedBy};
ghost use Rattle.std.specs.Ordering.{nat_cmp};
ghost use Rattle.std.specs.Cmp.Lexicographic.{slice_cmp};
ghost use Rattle.std.specs.Str.{bytes_eq};
ghost use Rattle.indexmap.specs.IndexMap.{keys};
ghost use Rattle.mg_defs.specs.Vocabulary.{has_piece, counted, total, sorted_of, counts_of};
ghost use Rattle.mg_model.specs.Vocabularies.{IsVocabulary, counted_times, pieces_of, entry_counts};

use crate::block::SHORT;
use crate::piece_key::{PieceKey, key_of, new_key, order, piece_of};
use crate::recent::Recent;
use crate::{Piece, VocabErr};
use indexmap::{IndexMap, IndexSet};
use std::alloc::{AllocError, Global};
use std::marker::Model;

/// The most entries of a vocabulary.
const MOST_PIECES: usize = 1 << 22;

/// The distinct pieces of a stream in the order of their first appearance, each with how often it
/// came.
///
/// A count takes four bytes, for fewer than 2^32 pieces are counted. The map has a key of sixteen
/// bytes for each piece, which holds the piece where it has at most fifteen. The longer pieces stand
/// in a set of their own.
#[derive(Drop)]
pub struct Vocab {
    counts: IndexMap<PieceKey, u32>,
    longer: IndexSet<Vec<u8>>,
    recent: Recent,
}

impl Model for Vocab {
    ghost use Rattle.std.specs.Prelude.{ℕ, List};
    ghost use Rattle.mg_model.specs.Vocabularies.{IsKept, entries_of};

    ghost Value = { List (List ℕ × ℕ) };

    ghost view = { λ v. entries_of v.longer.keys v.counts.entries };

    ghost invariant = { λ v. IsKept v.longer.keys v.counts.entries };
}

/// The place of a key in a map of at most 2^22.
fn place_in(counts: &IndexMap<PieceKey, u32>, key: &PieceKey) -> Option<u32>
    requires { length counts.now.entries ≤ 2 ^ 22 }
    ensures { result ≡ position (λ k. bytes_eq key.now.entry k.entry) (keys counts.now) }
{
    match counts.get_index_of(key) {
        Some(place) => Some(place as u32),
        None => None,
    }
}

/// Whether the entry at a place has a key.
#[inline]
fn has_at(counts: &IndexMap<PieceKey, u32>, key: &PieceKey, place: u32) -> bool
    ensures { result ≡ true →
        position (λ k. bytes_eq key.now.entry k.entry) (keys counts.now) ≡ Some place }
{
    // For the proof: no two entries have the same key.
    let _ = counts.len();
    match counts.get_index(place as usize) {
        Some((there, _)) => *there == *key,
        None => false,
    }
}

/// The place of a key in a map of at most 2^22, looked for first where one was found last.
#[inline]
fn place_near(counts: &IndexMap<PieceKey, u32>, key: &PieceKey, recent: &mut Recent) -> Option<u32>
    requires { length counts.now.entries ≤ 2 ^ 22 }
    ensures { result ≡ position (λ k. bytes_eq key.now.entry k.entry) (keys counts.now) }
{
    let kept = recent.place(key);
    if has_at(counts, key, kept) {
        return Some(kept);
    }
    let found = place_in(counts, key);
    if let Some(place) = found {
        recent.keep(key, place);
    }
    found
}

impl Vocab {
    /// A vocabulary with no entry.
    pub fn new(alloc: Global) -> Self
        ensures { result ≡ [] }
    {
        Vocab {
            counts: IndexMap::new(alloc),
            longer: IndexSet::new(alloc),
            recent: Recent::new(alloc),
        }
    }

    /// The number of entries, which have distinct pieces of at most 255 bytes: at most 2^22, each
    /// counted at least once, and all together fewer than 2^32 times.
    pub fn len(&self) -> u32
        ensures len { result ≡ length self.now }
        ensures keeps { IsVocabulary self.now }
    {
        self.counts.len() as u32
    }

    /// Adds one to the count of a piece of at most 255 bytes, or adds the piece last. Fewer than
    /// 2^32 - 1 pieces were counted before. A piece that is there takes no memory, and is never
    /// refused. Another is refused as one too many exactly where there are 2^22 entries, and else
    /// only where there is no memory for it. After a refusal nothing changed.
    pub fn count(&mut self, piece: &Piece<'_>) -> Result<(), VocabErr>
        requires total { total self.old < 2 ^ 32 - 1 }
        requires short { length piece.now ≤ 255 }
        ensures counted { OnOk result (self.new ≡ counted piece.now self.old) }
        ensures total { OnOk result (total self.new ≡ total self.old + 1) }
        ensures full { IsErrOf result VocabErr.TooMany ↔
            ((has_piece self.old piece.now ≡ false) × (length self.old ≡ 2 ^ 22)) }
        ensures known { has_piece self.old piece.now ≡ true → IsOk result }
        ensures err { OnErr result (self.new ≡ self.old) }
    {
        self.count_times(piece, 1)
    }

    /// Adds so many times, one or more, to the count of a piece of at most 255 bytes, or adds the piece
    /// last with this count. With them fewer than 2^32 pieces are counted. It refuses what `count` does,
    /// and after a refusal nothing changed.
    #[inline]
    pub fn count_times(&mut self, piece: &Piece<'_>, times: u32) -> Result<(), VocabErr>
        requires some { 1 ≤ times }
        requires total { total self.old + times < 2 ^ 32 }
        requires short { length piece.now ≤ 255 }
        ensures counted { OnOk result (self.new ≡ counted_times piece.now times self.old) }
        ensures total { OnOk result (total self.new ≡ total self.old + times) }
        ensures full { IsErrOf result VocabErr.TooMany ↔
            ((has_piece self.old piece.now ≡ false) × (length self.old ≡ 2 ^ 22)) }
        ensures known { has_piece self.old piece.now ≡ true → IsOk result }
        ensures err { OnErr result (self.new ≡ self.old) }
    {
        match self.place_again(piece) {
            Some(place) => {
                self.count_again(place as usize, piece, times);
                Ok(())
            }
            None => self.add(piece, times),
        }
    }

    // The place of a piece among the entries. It is kept for the next time.
    #[inline]
    fn place_again(&mut self, piece: &Piece<'_>) -> Option<u32>
        ensures place { result ≡ position (bytes_eq piece.now) (pieces_of self.old) }
        ensures same { self.new ≡ self.old }
    {
        if piece.len() <= SHORT {
            return place_near(&self.counts, &PieceKey::of(piece), &mut self.recent);
        }
        self.place_by_key(piece.bytes())
    }

    // Adds so many times to the count of a piece that is there, at its place.
    #[inline]
    fn count_again(&mut self, place: usize, _piece: &Piece<'_>, times: u32)
        requires place { position (bytes_eq _piece.now) (pieces_of self.old) ≡ Some place }
        requires some { 1 ≤ times }
        requires total { total self.old + times < 2 ^ 32 }
        requires short { length _piece.now ≤ 255 }
        ensures { self.new ≡ counted_times _piece.now times self.old }
    {
        let Some(count) = self.counts.get_index_mut(place) else {
            return;
        };
        *count += times;
    }

    // Adds a piece that is not there, last, with this count.
    fn add(&mut self, piece: &Piece<'_>, times: u32) -> Result<(), VocabErr>
        requires absent { has_piece self.old piece.now ≡ false }
        requires some { 1 ≤ times }
        requires total { total self.old + times < 2 ^ 32 }
        requires short { length piece.now ≤ 255 }
        ensures counted { OnOk result (self.new ≡ counted_times piece.now times self.old) }
        ensures full { IsErrOf result VocabErr.TooMany ↔ (length self.old ≡ 2 ^ 22) }
        ensures err { OnErr result (self.new ≡ self.old) }
    {
        let place = self.counts.len();
        if place >= MOST_PIECES {
            return Err(VocabErr::TooMany);
        }
        let key = new_key(*self.counts.allocator(), &mut self.longer, piece)?;
        self.counts.insert(key, times)?;
        Ok(())
    }

    /// Sorts the entries by the bytes of their pieces.
    pub(crate) fn sort(&mut self) -> Result<(), AllocError>
        ensures pieces { OnOk result (pieces_of self.new ≡ sorted_of self.old) }
        ensures counts { OnOk result (entry_counts self.new ≡ counts_of self.old) }
        ensures rising { OnOk result (IsStrictlySortedBy (slice_cmp nat_cmp) (pieces_of self.new)) }
    {
        let longer = &self.longer;
        self.counts.sort_unstable_by(|one, _count, other, _other_count| order(longer, one, other))
    }

    /// The counts, in the order of the entries.
    pub(crate) fn counts(&self) -> Result<Vec<u64>, AllocError>
        ensures counts { IfOk result (λ counts. counts.items ≡ entry_counts self.now) }
        ensures keeps { IsVocabulary self.now }
    {
        let mut counts = Vec::with_capacity(*self.counts.allocator(), self.counts.len())?;
        for place in 0..self.counts.len() {
            counts.push(u64::from(self.count_at(place)))?;
        }
        Ok(counts)
    }

    /// The count at a place.
    fn count_at(&self, place: usize) -> u32
        requires { place < length self.now }
        ensures { slice_get (entry_counts self.now) place ≡ Some result }
    {
        match self.counts.get_index(place) {
            Some((_, count)) => *count,
            None => 0,
        }
    }

    /// The place of a piece among the entries.
    pub(crate) fn place_of(&self, piece: &[u8]) -> Option<u32>
        ensures { result ≡ position (bytes_eq piece.now) (pieces_of self.now) }
    {
        if piece.len() <= SHORT {
            return place_in(&self.counts, &PieceKey::short(piece));
        }
        self.place_by_key(piece)
    }

    // The same, of a longer piece too. It stands apart, so that above the key of a short piece stays a
    // number.
    #[inline(never)]
    fn place_by_key(&self, piece: &[u8]) -> Option<u32>
        ensures { result ≡ position (bytes_eq piece.now) (pieces_of self.now) }
    {
        match key_of(&self.longer, piece) {
            Some(key) => place_in(&self.counts, &key),
            None => None,
        }
    }

    /// The piece at a place, of at most 255 bytes.
    pub(crate) fn piece(&self, place: u32) -> &[u8]
        requires { place < length self.now }
        ensures piece { slice_get (pieces_of self.now) place ≡ Some result.now }
        ensures short { length result.now ≤ 255 }
    {
        match self.counts.get_index(place as usize) {
            Some((key, _)) => piece_of(&self.longer, key),
            None => &[],
        }
    }
}

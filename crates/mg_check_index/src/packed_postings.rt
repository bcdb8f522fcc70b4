//! Postings of four bytes each.
//!
//! The postings of a range are the most that a check holds. The number of a document has at most 24 bits, and mostly it has
//! a term fewer than 256 times. A posting that has no room so is kept beside, and the four bytes tell which one it is. Room for
//! such postings is reserved at first. Only where that is used up, a posting that is put takes memory.
ghost use Rattle.std.specs.Prelude.{◌≡◌, ◌≢◌, ◌<◌, ◌≤◌, ◌-◌, ◌/◌, ◌%◌, ◌^◌, ℕ, List, IfNone, IfOk, IfSome, IsOk, OnErr, OnOk, OnSome, length, take, drop, get_or, min};
ghost use Rattle.mg_defs.specs.declared.Posting.{Posting};
ghost use Rattle.mg_check_index.specs.Packing.{Puts, beside_of, nothing, unpacked};

use mg_defs::{DOCUMENTS, Posting};
use std::alloc::{AllocError, Global};
use std::marker::Model;

/// What a low byte of a packed posting is below.
const LOW: u32 = 256;

/// No more places beside are told by four bytes.
const MOST_BESIDE: u64 = 1 << 24;

/// A posting that is replaced by another one before it is read.
const UNUSED: u32 = 1;

/// Postings, of four bytes each but for a few that are kept beside.
#[derive(Drop)]
pub(crate) struct PackedPostings {
    packed: Vec<u32>,
    beside: Vec<Posting>,
}

impl Model for PackedPostings {
    ghost use Rattle.std.specs.Prelude.{◌-◌, ◌^◌, All, length, map, min, vec_capacity, vec_len};
    ghost use Rattle.mg_check_index.specs.Packing.{IsKnown, Packed, unpacked};

    ghost Value = { Packed };

    ghost view = { λ p. record { all = map (unpacked p.beside.items) p.packed.items; left = min (vec_capacity p.beside) (2 ^ 24) - vec_len p.beside } };

    ghost invariant = { λ p. All (IsKnown (length p.beside.items)) p.packed.items };
}

/// Some of the postings that are packed.
#[derive(Drop)]
pub(crate) struct Postings<'p> {
    packed: &'p [u32],
    beside: &'p [Posting],
}

impl<'p> Model for Postings<'p> {
    ghost use Rattle.std.specs.Prelude.{List, map};
    ghost use Rattle.mg_defs.specs.declared.Posting.{Posting};
    ghost use Rattle.mg_check_index.specs.Packing.{unpacked};

    ghost Value = { List Posting };

    ghost view = { λ p. map (unpacked p.beside.now) p.packed.now };
}

// The four bytes of a posting; None where it has no room in them.
fn pack(posting: Posting) -> Option<u32>
    ensures posting { IfSome result (λ word. (beside : List Posting) →
        unpacked beside word ≡ posting) }
    ensures own { IfSome result (λ word. word % 256 ≢ 0) }
    ensures small { OnSome result (beside_of posting ≡ 0) }
    ensures other { IfNone result (beside_of posting ≡ 1) }
{
    if posting.doc == 0 || posting.doc > DOCUMENTS {
        return None;
    }
    if posting.freq == 0 || posting.freq >= LOW {
        return None;
    }
    Some((posting.doc - 1) * LOW + posting.freq)
}

// The posting of four bytes.
fn unpack(word: u32, beside: &[Posting]) -> Posting
    ensures { result ≡ unpacked beside.now word }
{
    let freq = word % LOW;
    if freq > 0 {
        return Posting {
            doc: word / LOW + 1,
            freq,
        };
    }
    let place = (word / LOW) as usize;
    if place >= beside.len() {
        return Posting { doc: 0, freq: 0 };
    }
    beside[place]
}

impl PackedPostings {
    /// So many postings, which are to be put, and room beside for as many as a collection of so many occurrences may have
    /// there: each of them counts at least 256 occurrences.
    pub(crate) fn new(alloc: Global, count: usize, occurrences: u64) -> Result<Self, AllocError>
        ensures count { IfOk result (λ postings. length postings.all ≡ count) }
        ensures left { IfOk result (λ postings. postings.left ≡ min (occurrences / 256) (2 ^ 24)) }
    {
        let packed = vec![in alloc; UNUSED; count]?;
        let most = (occurrences / u64::from(LOW)).min(MOST_BESIDE);
        let beside = Vec::with_capacity(alloc, most as usize)?;
        Ok(PackedPostings { packed, beside })
    }

    // Puts a posting in a place, and keeps it beside. After want of memory nothing changed.
    fn put_beside(&mut self, place: usize, posting: Posting) -> Result<(), AllocError>
        requires within { place < length self.old.all }
        ensures put { OnOk result (Puts place posting 1 self.old self.new) }
        ensures same { OnErr result (self.new ≡ self.old) }
        ensures sure { 1 ≤ self.old.left → IsOk result }
    {
        let kept = self.beside.len();
        if kept as u64 >= MOST_BESIDE {
            return Err(AllocError);
        }
        match self.beside.reserve(1) {
            Ok(()) => {}
            Err(AllocError) => return Err(AllocError),
        }
        self.beside.push_reserved(posting);
        self.packed[place] = kept as u32 * LOW;
        Ok(())
    }

    /// Puts a posting in a place. After want of memory nothing changed. None is wanted for a posting of four bytes, nor
    /// where room is left beside.
    pub(crate) fn put(&mut self, place: usize, posting: Posting) -> Result<(), AllocError>
        requires within { place < length self.old.all }
        ensures put { OnOk result (Puts place posting (beside_of posting) self.old self.new) }
        ensures same { OnErr result (self.new ≡ self.old) }
        ensures sure { beside_of posting ≤ self.old.left → IsOk result }
    {
        match pack(posting) {
            Some(word) => {
                self.packed[place] = word;
                Ok(())
            }
            None => self.put_beside(place, posting),
        }
    }

    /// The postings from a place on to before another one.
    pub(crate) fn between(&self, from: usize, to: usize) -> Postings<'_>
        requires order { from ≤ to }
        requires within { to ≤ length self.now.all }
        ensures { result ≡ take (to - from) (drop from self.now.all) }
    {
        Postings {
            packed: &self.packed[from..to],
            beside: &self.beside,
        }
    }
}

impl<'p> Postings<'p> {
    /// How many there are.
    pub(crate) fn count(&self) -> usize
        ensures { result ≡ length self.now }
    {
        self.packed.len()
    }

    /// The one at a place.
    pub(crate) fn at(&self, place: usize) -> Posting
        requires within { place < length self.now }
        ensures { result ≡ get_or self.now place nothing }
    {
        let packed = self.packed;
        unpack(packed[place], self.beside)
    }
}

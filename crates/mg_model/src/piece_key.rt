//! The keys by which a vocabulary's map finds its pieces.
ghost use Rattle.std.specs.Prelude.{◌≡◌, ◌<◌, ◌≤◌, ◌^◌, ◌∷◌, [], length, take, IfOk, IfSome, IfNone};
ghost use Rattle.std.specs.Ordering.{nat_cmp};
ghost use Rattle.std.specs.Cmp.Lexicographic.{slice_cmp, bytes_decides};
ghost use Rattle.std.specs.Cmp.Rules.{comparing};
ghost use Rattle.std.specs.Str.{bytes_eq};
ghost use Rattle.std.proofs.Common.{ap, rules};
ghost use Rattle.mg_model.specs.Keys.{filled, longer_key, short_key, piece_in, Extends, HasNoNumber, IsKeyOf};

use crate::Piece;
use crate::block::{SHORT, short_piece};
use indexmap::IndexSet;
use mg_fields::{eight_at, eight_bytes};
use std::alloc::{AllocError, Global};
use std::cmp::Ordering;
use std::hash::{Hash, Hasher};

/// The first byte of a longer piece's key: no short piece has that length.
const LONGER: u8 = 16;

/// The first byte of the key of no piece.
const NO_LENGTH: u8 = 255;

/// What the last of sixteen bytes is worth where the lowest comes first.
const TOP: u128 = 1 << 120;

/// An odd number near 2^64 over the golden ratio: its products spread over their high bits.
const SPREAD: u64 = 0x9E37_79B9_7F4A_7C15;

/// A key of sixteen bytes.
///
/// The key of a piece of at most fifteen bytes is the piece's length and the piece, so that a look-up
/// reads nothing beside the key. The longer pieces have numbers, and the key of one is its number.
#[derive(Clone, Copy)]
pub(crate) struct PieceKey {
    entry: [u8; 16],
}

// Whether two keys are the same: two numbers are compared, where sixteen bytes would be put together.
#[inline]
fn same_entries(one: &[u8; 16], other: &[u8; 16]) -> bool
    ensures { result ≡ bytes_eq one.now other.now }
{
    let low = eight_at(one, 0) == eight_at(other, 0);
    let high = eight_at(one, 8) == eight_at(other, 8);
    low & high
}

impl PartialEq for PieceKey {
    ghost eq = { λ one other. bytes_eq one.entry other.entry };

    ghost laws = { Prim.search (comparing, rules) };

    fn eq(&self, other: &PieceKey) -> bool {
        same_entries(&self.entry, &other.entry)
    }
}

impl Eq for PieceKey {
    ghost laws = { Prim.search (comparing, rules) };
}

impl Hash for PieceKey {
    ghost hash_input = { λ key. key.entry ∷ [] };

    ghost respects_eq = { λ one other same.
        ap (λ bytes. bytes ∷ []) ((bytes_decides one.entry other.entry).0 same) };

    // All bytes in one call, for which the hasher multiplies once.
    fn hash<H: Hasher>(&self, state: &mut H) {
        state.write(&self.entry);
    }
}

impl PieceKey {
    // A first byte, and bytes behind it.
    fn filled(first: u8, bytes: &[u8]) -> PieceKey
        requires { length bytes.now ≤ 15 }
        ensures { result.entry ≡ filled first bytes.now }
    {
        // Bytes that are written one by one and read as a word make the processor wait, so they are
        // put into a number first.
        let mut number = u128::from(first) * TOP;
        for byte in bytes {
            number = number / 256 + u128::from(*byte) * TOP;
        }
        let number = number >> (8 * (15 - bytes.len()));
        PieceKey {
            entry: number.to_le_bytes(),
        }
    }

    /// The key of a piece that it holds.
    #[inline]
    pub(crate) fn of(piece: &Piece<'_>) -> PieceKey
        requires { length piece.now ≤ 15 }
        ensures { result.entry ≡ short_key piece.now }
    {
        match piece.sixteen() {
            Some(bytes) => PieceKey::first_of(&bytes, piece.len()),
            None => PieceKey::short(piece.bytes()),
        }
    }

    // The key of the piece that the first bytes are, at most fifteen. How many they are decides no
    // branch, for the processor would seldom guess it.
    #[inline]
    fn first_of(bytes: &[u8; 16], length: usize) -> PieceKey
        requires { length ≤ 15 }
        ensures { result.entry ≡ short_key (take length bytes.now) }
    {
        let kept = u128::from_le_bytes(*bytes) & ((1 << (8 * length)) - 1);
        let number = kept * 256 + length as u128;
        PieceKey {
            entry: number.to_le_bytes(),
        }
    }

    /// The same of a piece alone, byte by byte. It stands apart, for it is seldom asked for.
    #[inline(never)]
    pub(crate) fn short(piece: &[u8]) -> PieceKey
        requires { length piece.now ≤ 15 }
        ensures { result.entry ≡ short_key piece.now }
    {
        PieceKey::filled(piece.len() as u8, piece)
    }

    // The key of no piece: a short one has not this length, and a longer one not this first byte.
    pub(crate) fn none() -> PieceKey
        ensures { result.entry ≡ filled 255 [] }
    {
        PieceKey::filled(NO_LENGTH, &[])
    }

    /// So many bits, from 1 to 32, in which the bytes of the key are mixed.
    #[inline]
    pub(crate) fn mixed(&self, bits: u32) -> usize
        requires least { 1 ≤ bits }
        requires most { bits ≤ 32 }
    {
        let low = eight_at(&self.entry, 0);
        let high = eight_at(&self.entry, 8);
        let mixed = (low ^ high.rotate_left(29)).wrapping_mul(SPREAD);
        (mixed >> (64 - bits)) as usize
    }

    // The key of the longer piece with this number.
    fn longer(number: usize) -> PieceKey
        ensures key { result.entry ≡ longer_key number }
        ensures fits { number < 2 ^ 64 }
    {
        PieceKey::filled(LONGER, &eight_bytes(number as u64))
    }
}

/// The key of a piece. One of more than fifteen bytes has none where it is not among the longer ones.
pub(crate) fn key_of(longer: &IndexSet<Vec<u8>>, piece: &[u8]) -> Option<PieceKey>
    ensures key { IfSome result (λ key. IsKeyOf longer.now.keys key.entry piece.now) }
    ensures none { IfNone result (HasNoNumber longer.now.keys piece.now) }
{
    if piece.len() <= SHORT {
        return Some(PieceKey::short(piece));
    }
    match longer.get_index_of(piece) {
        Some(number) => Some(PieceKey::longer(number)),
        None => None,
    }
}

/// The key of a piece, which is added to the longer ones where it is one and not there.
pub(crate) fn new_key(
    alloc: Global,
    longer: &mut IndexSet<Vec<u8>>,
    piece: &Piece<'_>,
) -> Result<PieceKey, AllocError>
    ensures key { IfOk result (λ key. IsKeyOf longer.new.keys key.entry piece.now) }
    ensures extends { Extends longer.old.keys longer.new.keys }
{
    if piece.len() <= SHORT {
        return Ok(PieceKey::of(piece));
    }
    let kept = Vec::from_slice(alloc, piece.bytes())?;
    let Ok((number, _)) = longer.insert_full(kept) else {
        return Err(AllocError);
    };
    Ok(PieceKey::longer(number))
}

/// The piece of a key.
pub(crate) fn piece_of<'a>(longer: &'a IndexSet<Vec<u8>>, key: &'a PieceKey) -> &'a [u8]
    ensures { result.now ≡ piece_in longer.now.keys key.now.entry }
{
    if usize::from(key.entry[0]) <= SHORT {
        return short_piece(&key.entry);
    }
    match longer.get_index(eight_at(&key.entry, 1) as usize) {
        Some(piece) => piece,
        None => &[],
    }
}

/// The order of the pieces of two keys.
pub(crate) fn order(longer: &IndexSet<Vec<u8>>, one: &PieceKey, other: &PieceKey) -> Ordering
    ensures { result ≡ slice_cmp nat_cmp (piece_in longer.now.keys one.now.entry)
        (piece_in longer.now.keys other.now.entry) }
{
    piece_of(longer, one).cmp(piece_of(longer, other))
}

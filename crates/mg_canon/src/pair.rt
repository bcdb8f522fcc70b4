//! Symbols of two codes in turn, from one look at the bits.
ghost use Rattle.std.specs.Prelude.{◌≡◌, ◌*◌, ◌/◌, ◌%◌, ◌^◌, ◌<◌, ◌≤◌, Option, length, IfSome, IsSome};
ghost use Rattle.mg_dev.specs.Files.{Files};
ghost use Rattle.mg_bits.specs.Feed.{HasBits};
ghost use Rattle.mg_canon.specs.Pairs.{AreShort, FirstTwoFound, HeldSymbols, standing};

use crate::canon::Canon;
use crate::found::{size_in, symbol_in};
use mg_bits::{BitReader, Feed};

/// A symbol of each of two codes, the second behind the first, and the place behind both codewords,
/// where the reader holds the bits of both: what `get_held` of the one and then of the other answer at
/// this place, from one look at 57 bits. It answers wherever the page that is held has the eight bytes
/// from the place's byte on, unless a code has a single symbol, or a codeword of each have more than 57
/// bits together. The reader stays where it is, so that whoever reads many pairs keeps the place of his
/// own, in a register. Each code has a symbol.
#[inline(always)]
pub fn pair_at<F: Feed>(
    first: &Canon,
    second: &Canon,
    reader: &BitReader<F>,
    place: u64,
) -> Option<(u32, u32, u64)>
    requires first { 0 < length first.now }
    requires second { 0 < length second.now }
    requires place { place ≤ 2 ^ 63 }
    ensures pair { IfSome result (λ found. HeldSymbols F.fits F.feeding first.now second.now
        (standing reader.now.feed place) (standing reader.now.feed found.2) (found.0, found.1)) }
    ensures some { (files : Option Files) → F.fits reader.now.feed files →
        AreShort first.now second.now →
        HasBits (F.feeding reader.now.feed) files (8 * (place / 8)) 64 → IsSome result }
{
    let next = match reader.peek_at(place) {
        Some(next) => next,
        None => return None,
    };
    match first_two(first, second, next) {
        Some((one, two)) => {
            let behind = place + u64::from(size_in(one) + size_in(two));
            Some((symbol_in(one), symbol_in(two), behind))
        }
        None => None,
    }
}

/// The entry of the symbol whose codeword 57 bits begin with, and that of the other code behind it, if
/// both codewords are among these bits.
#[inline(always)]
fn first_two(first: &Canon, second: &Canon, next: u64) -> Option<(u32, u32)>
    requires next { next < 2 ^ 57 }
    requires first { 0 < length first.now }
    requires second { 0 < length second.now }
    ensures { FirstTwoFound first.now second.now next result }
{
    let one = first.first_of(next);
    if size_in(one) == 0 {
        return None;
    }
    let two = second.first_of(behind(next, size_in(one)));
    if size_in(two) == 0 {
        return None;
    }
    if size_in(one) + size_in(two) > 57 {
        return None;
    }
    Some((one, two))
}

/// The bits of 57 behind the first ones, and zero-bits in their place.
#[inline(always)]
fn behind(next: u64, size: u32) -> u64
    requires { size ≤ 48 }
    ensures value { result ≡ next * 2 ^ size % 2 ^ 57 }
    ensures below { result < 2 ^ 57 }
{
    (next << size) % (1u64 << 57)
}

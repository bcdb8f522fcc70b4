//! Short codes up to a bound, which are the second part of the gamma and Golomb codes.
ghost use Rattle.std.specs.Prelude.{◌≡◌, ◌+◌, ◌*◌, ◌≤◌, ◌<◌, ◌^◌, Option, IfSome, MatchOption, if◌then◌else◌};
ghost use Rattle.mg_defs.specs.Codes.{short, shorter, ceil_log2};
ghost use Rattle.mg_defs.specs.Answers.{Below};
ghost use Rattle.mg_codes.specs.Held.{IsFirstCode};
ghost use Rattle.mg_bits.specs.CodeReads.{ReadsCode};
ghost use Rattle.mg_codes.specs.Readers.{CanRead, IsHeldCode, IsParameter};
ghost use Rattle.mg_codes.specs.Remainders.{IsBound, IsWholeAt, IsOpenAt, least_of};
ghost use Rattle.mg_codes.specs.Refusals.{OverBelow};

use crate::held::HeldCode;
use mg_bits::{BitReader, CodeErr, Feed, refused};

/// The greatest length of a short code.
pub fn code_size(b: u64) -> u32
    requires parameter { IsParameter b }
    ensures size { result ≡ ceil_log2 b }
    ensures small { result ≤ 48 }
{
    if b <= 1 { 0 } else { 1 + (b - 1).ilog2() }
}

/// How many remainders have a code of one bit less.
pub fn shorter_codes(b: u64, size: u32) -> u64
    requires parameter { IsParameter b }
    requires size { size ≡ ceil_log2 b }
    ensures few { result ≡ shorter b }
    ensures small { result < 2 ^ 48 }
{
    (1u64 << size) - b
}

/// The remainder whose code was read, if it was read whole.
fn whole(size: u32, few: u64, done: u32, high: u64) -> Option<u64>
    requires done { done ≤ size }
    requires size { size ≤ 48 }
    requires last { done ≡ size → 2 * few ≤ high }
    ensures { MatchOption result (IsOpenAt size few done high)
        (λ v. IsWholeAt size few done high v) }
{
    if done == size {
        return Some(high - few);
    }
    if done + 1 == size && high < few {
        return Some(high);
    }
    None
}

/// The least remainder whose code begins with the bits that were read.
fn least(size: u32, few: u64, done: u32, high: u64) -> u64
    requires done { done ≤ size }
    requires size { size ≤ 48 }
    requires few { few < 2 ^ 48 }
    requires high { high < 2 ^ done }
    requires last { done ≡ size → 2 * few ≤ high }
    ensures { result ≡ least_of size few done high }
{
    if done == size {
        return high - few;
    }
    let first = shifted(high, done, size - 1 - done);
    if first < few { first } else { 2 * first - few }
}

/// A number with zero-bits behind it.
fn shifted(high: u64, done: u32, more: u32) -> u64
    requires high { high < 2 ^ done }
    requires more { done + more < 48 }
    ensures value { result ≡ high * 2 ^ more }
    ensures small { result < 2 ^ 48 }
{
    high << more
}

/// The number of one bit.
fn number_of(bit: bool) -> u64
    ensures value { result ≡ (if bit then 1 else 0) }
    ensures small { result ≤ 1 }
{
    if bit { 1 } else { 0 }
}

/// Reads the short code with parameter `b` of a remainder below a bound.
pub fn get_below<F: Feed>(
    r: &mut BitReader<F>,
    dev: &mut F::Dev,
    b: u64,
    bound: u64,
) -> Result<u64, CodeErr>
    requires reader { CanRead (2 ^ 63 + 2 ^ 49) bound F.fits F.device r.old dev.old }
    requires within { bound ≤ b }
    requires small { b < 2 ^ 48 }
    ensures code { ReadsCode Below bound (short b) F.fits F.feeding F.device
        r.old r.new dev.old dev.new result }
    ensures over { OverBelow result bound b }
{
    if let Some(code) = short_here(r, b, bound) {
        r.seek(r.place() + u64::from(code.size));
        return Ok(code.value);
    }
    below_by_bits(r, dev, b, bound)
}

/// The remainder below a bound whose short code begins the bits at the place, if the page that is
/// held has the 57 bits from there on.
#[inline]
fn short_here<F: Feed>(r: &BitReader<F>, b: u64, bound: u64) -> Option<HeldCode>
    requires place { r.now.place ≤ 2 ^ 63 + 2 ^ 49 }
    requires parameter { IsParameter b }
    ensures { IfSome result
        (λ code. IsHeldCode Below bound (short b) F.fits F.feeding r.now code.value code.size) }
{
    let size = code_size(b);
    if size == 0 {
        return None;
    }
    let few = shorter_codes(b, size);
    let next = match r.peek() {
        Some(next) => next,
        None => return None,
    };
    let code = first_short(next, b, size, few);
    if code.value < bound { Some(code) } else { None }
}

/// The remainder whose short code 57 bits begin with.
#[inline]
pub fn first_short(next: u64, b: u64, size: u32, few: u64) -> HeldCode
    requires next { next < 2 ^ 57 }
    requires parameter { IsParameter b }
    requires size { size ≡ ceil_log2 b }
    requires few { few ≡ shorter b }
    requires some { 1 ≤ size }
    requires most { size ≤ 48 }
    ensures code { IsFirstCode (short b result.value) next result.size }
    ensures below { result.value < b }
{
    let high = next >> (58 - size);
    if high < few {
        return HeldCode {
            value: high,
            size: size - 1,
        };
    }
    HeldCode {
        value: (next >> (57 - size)) - few,
        size,
    }
}

/// Reads the short code with parameter `b` of a remainder below a bound, bit by bit.
fn below_by_bits<F: Feed>(
    r: &mut BitReader<F>,
    dev: &mut F::Dev,
    b: u64,
    bound: u64,
) -> Result<u64, CodeErr>
    requires reader { CanRead (2 ^ 63 + 2 ^ 49) bound F.fits F.device r.old dev.old }
    requires within { bound ≤ b }
    requires small { b < 2 ^ 48 }
    ensures code { ReadsCode Below bound (short b) F.fits F.feeding F.device
        r.old r.new dev.old dev.new result }
    ensures over { OverBelow result bound b }
{
    let start = r.place();
    let size = code_size(b);
    let few = shorter_codes(b, size);
    let mut high = 0u64;
    let mut done = 0u32;
    loop {
        match whole(size, few, done, high) {
            Some(value) => return Ok(value),
            None => match r.bit(dev) {
                Ok(bit) => {
                    let low = number_of(bit);
                    high = 2 * high + low;
                    done += 1;
                    if least(size, few, done, high) >= bound {
                        r.seek(start);
                        return Err(CodeErr::Over {
                            at: start,
                            limit: bound,
                        });
                    }
                }
                Err(refusal) => {
                    r.seek(start);
                    return Err(refused(refusal, start));
                }
            },
        }
    }
}

/// The bound of the remainders after a quotient: all below `b`, and after the greatest quotient
/// those up to the last.
pub fn bound_of(quotient: u64, top: u64, b: u64, last: u64) -> u64
    requires most { quotient ≤ top }
    requires last { quotient ≡ top → last < b }
    requires some { 1 ≤ b }
    ensures bound { IsBound b top last quotient result }
    ensures some { 1 ≤ result }
    ensures within { result ≤ b }
{
    if quotient < top { b } else { last + 1 }
}

//! Codes that stand whole on the page that is held.
//!
//! A code of two parts is read from 57 bits at once, with no division: a value's quotient is counted,
//! and the value is compared with the limit.
ghost use Rattle.std.specs.Prelude.{◌≡◌, ◌-◌, ◌*◌, ◌≤◌, ◌<◌, ◌^◌, ◌%◌, Option, IfSome};
ghost use Rattle.mg_defs.specs.Codes.{gamma, golomb};
ghost use Rattle.mg_defs.specs.Answers.{UpTo};
ghost use Rattle.mg_codes.specs.Held.{IsFirstCode};
ghost use Rattle.mg_codes.specs.Readers.{IsHeldCode, IsParameter};

use crate::remainder::{code_size, first_short, shorter_codes};
use crate::unary::ones_before_zero;
use mg_bits::{BitReader, Feed};

/// A number and how many bits its code has.
#[derive(Clone, Copy)]
pub struct HeldCode {
    pub value: u64,
    pub size: u32,
}

/// A power of two.
#[inline]
fn power(exponent: u32) -> u64
    requires { exponent ≤ 57 }
    ensures { result ≡ 2 ^ exponent }
{
    1u64 << exponent
}

/// The bits behind the first of 57, and as many zero-bits after them.
#[inline]
fn behind(next: u64, size: u32) -> u64
    requires size { size ≤ 57 }
    ensures value { result ≡ next % 2 ^ (57 - size) * 2 ^ size }
    ensures below { result < 2 ^ 57 }
{
    next % power(57 - size) * power(size)
}

/// The number whose Golomb code with parameter `b` 57 bits begin with, if they have all of it.
#[inline]
fn first_golomb(next: u64, b: u64) -> Option<HeldCode>
    requires next { next < 2 ^ 57 }
    requires parameter { IsParameter b }
    ensures code { IfSome result (λ code. IsFirstCode (golomb b code.value) next code.size) }
    ensures some { IfSome result (λ code. 1 ≤ code.value) }
{
    let Some(ones) = ones_before_zero(next) else {
        return None;
    };
    let lead = ones as u32 + 1;
    let size = code_size(b);
    if size == 0 {
        return Some(HeldCode {
            value: ones + 1,
            size: lead,
        });
    }
    let code = first_short(behind(next, lead), b, size, shorter_codes(b, size));
    if lead + code.size > 57 {
        return None;
    }
    Some(HeldCode {
        value: ones * b + code.value + 1,
        size: lead + code.size,
    })
}

/// The number whose gamma code 57 bits begin with, if they have all of it.
#[inline]
fn first_gamma(next: u64) -> Option<HeldCode>
    requires next { next < 2 ^ 57 }
    ensures code { IfSome result (λ code. IsFirstCode (gamma code.value) next code.size) }
    ensures some { IfSome result (λ code. 1 ≤ code.value) }
{
    let Some(ones) = ones_before_zero(next) else {
        return None;
    };
    if ones > 28 {
        return None;
    }
    let more = ones as u32;
    let highest = power(more);
    Some(HeldCode {
        value: highest + (next >> (56 - 2 * more)) % highest,
        size: 2 * more + 1,
    })
}

/// The number of at most `limit` whose Golomb code begins the bits at the place, if the page that is
/// held has the 57 bits from there on and its code is among them.
#[inline]
pub fn golomb_here<F: Feed>(r: &BitReader<F>, b: u64, limit: u64) -> Option<HeldCode>
    requires place { r.now.place ≤ 2 ^ 63 }
    requires parameter { IsParameter b }
    ensures { IfSome result
        (λ code. IsHeldCode UpTo limit (golomb b) F.fits F.feeding r.now code.value code.size) }
{
    let Some(next) = r.peek() else {
        return None;
    };
    match first_golomb(next, b) {
        Some(code) if code.value <= limit => Some(code),
        _ => None,
    }
}

/// The number of at most `limit` whose gamma code begins the bits at the place, if the page that is
/// held has the 57 bits from there on and its code is among them.
#[inline]
pub fn gamma_here<F: Feed>(r: &BitReader<F>, limit: u64) -> Option<HeldCode>
    requires place { r.now.place ≤ 2 ^ 63 }
    ensures { IfSome result
        (λ code. IsHeldCode UpTo limit gamma F.fits F.feeding r.now code.value code.size) }
{
    let Some(next) = r.peek() else {
        return None;
    };
    match first_gamma(next) {
        Some(code) if code.value <= limit => Some(code),
        _ => None,
    }
}

//! The Golomb code.
ghost use Rattle.std.specs.Prelude.{◌≡◌, ◌+◌, ◌*◌, ◌≤◌, ◌<◌, ◌^◌};
ghost use Rattle.mg_defs.specs.Codes.{golomb};
ghost use Rattle.mg_defs.specs.Answers.{UpTo};
ghost use Rattle.mg_bits.specs.BitWriting.{Holds};
ghost use Rattle.mg_bits.specs.CodeReads.{ReadsCode};
ghost use Rattle.mg_codes.specs.Readers.{CanRead, IsParameter};
ghost use Rattle.mg_codes.specs.Writers.{PutsBits};

use crate::held::golomb_here;
use crate::refusals::refused_whole;
use crate::remainder::{bound_of, get_below};
use crate::short::put_short;
use crate::unary::{get_unary, put_unary};
use mg_bits::{BitReader, BitWriter, CodeErr, Feed};
use mg_dev::{PutErr, Store};

/// The value with a quotient and a remainder.
fn joined(quotient: u64, b: u64, low: u64) -> u64
    requires small { quotient * b + low + 1 < 2 ^ 48 }
    ensures { result ≡ quotient * b + low + 1 }
{
    quotient * b + low + 1
}

/// The quotient and the remainder of a number. The quotient is counted, since it is written bit by
/// bit anyway and mostly 0 or 1, and a division takes longer.
#[inline]
fn parted(number: u64, b: u64) -> (u64, u64)
    requires { 1 ≤ b }
    ensures whole { number ≡ result.0 * b + result.1 }
    ensures below { result.1 < b }
    ensures most { result.0 ≤ number }
{
    let mut quotient = 0;
    let mut rest = number;
    while rest >= b {
        rest -= b;
        quotient += 1;
    }
    (quotient, rest)
}

/// Writes a number, of at least 1, in the Golomb code with parameter `b`.
pub fn put_golomb<S: Store>(
    w: &mut BitWriter<'_>,
    store: &mut S,
    b: u64,
    x: u64,
) -> Result<(), PutErr>
    requires holds { Holds w.old (S.files store.old) }
    requires place { w.old.place ≤ 2 ^ 63 }
    requires parameter { 1 ≤ b }
    requires limit { b < 2 ^ 48 }
    requires some { 1 ≤ x }
    requires small { x < 2 ^ 48 }
    ensures { PutsBits (golomb b x) S.files S.reads S.faults w.old w.new store.old store.new
        result }
{
    let (quotient, rest) = parted(x - 1, b);
    put_unary(w, store, 1 + quotient)?;
    put_short(w, store, b, rest)?;
    Ok(())
}

/// Reads a number in the Golomb code with parameter `b`, of at most `limit`.
pub fn get_golomb<F: Feed>(
    r: &mut BitReader<F>,
    dev: &mut F::Dev,
    b: u64,
    limit: u64,
) -> Result<u64, CodeErr>
    requires reader { CanRead (2 ^ 63) limit F.fits F.device r.old dev.old }
    requires parameter { IsParameter b }
    ensures { ReadsCode UpTo limit (golomb b) F.fits F.feeding F.device
        r.old r.new dev.old dev.new result }
{
    if let Some(code) = golomb_here(r, b, limit) {
        r.seek(r.place() + u64::from(code.size));
        return Ok(code.value);
    }
    golomb_by_parts(r, dev, b, limit)
}

/// The same, one part of the code after the other. It stands apart so that what is read from the
/// held page at once is short.
#[inline(never)]
fn golomb_by_parts<F: Feed>(
    r: &mut BitReader<F>,
    dev: &mut F::Dev,
    b: u64,
    limit: u64,
) -> Result<u64, CodeErr>
    requires reader { CanRead (2 ^ 63) limit F.fits F.device r.old dev.old }
    requires parameter { IsParameter b }
    ensures { ReadsCode UpTo limit (golomb b) F.fits F.feeding F.device
        r.old r.new dev.old dev.new result }
{
    let start = r.place();
    let top = (limit - 1) / b;
    match get_unary(r, dev, top + 1) {
        Ok(lead) => {
            let bound = bound_of(lead - 1, top, b, (limit - 1) % b);
            match get_below(r, dev, b, bound) {
                Ok(low) => Ok(joined(lead - 1, b, low)),
                Err(refusal) => {
                    r.seek(start);
                    Err(refused_whole(refusal, start, limit))
                }
            }
        }
        Err(refusal) => Err(refused_whole(refusal, start, limit)),
    }
}

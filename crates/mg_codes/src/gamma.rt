//! The gamma code.
ghost use Rattle.std.specs.Prelude.{◌≡◌, ◌+◌, ◌*◌, ◌≤◌, ◌<◌, ◌^◌};
ghost use Rattle.mg_defs.specs.Bits.{digits};
ghost use Rattle.mg_defs.specs.Codes.{gamma};
ghost use Rattle.mg_defs.specs.Answers.{UpTo};
ghost use Rattle.mg_bits.specs.BitWriting.{Holds};
ghost use Rattle.mg_bits.specs.CodeReads.{ReadsCode};
ghost use Rattle.mg_codes.specs.Readers.{CanRead};
ghost use Rattle.mg_codes.specs.Writers.{PutsBits};

use crate::held::gamma_here;
use crate::refusals::refused_whole;
use crate::remainder::{bound_of, get_below};
use crate::unary::{get_unary, ones_and_zero};
use mg_bits::{BitReader, BitWriter, CodeErr, Feed};
use mg_dev::{PutErr, Store};

/// The whole part of a number's logarithm.
fn log_of(x: u64) -> u64
    requires { 1 ≤ x }
    ensures low { 2 ^ result ≤ x }
    ensures high { x < 2 * 2 ^ result }
    ensures small { result < 64 }
{
    u64::from(x.ilog2())
}

/// A power of two.
fn power_of(exponent: u64) -> u64
    requires { exponent < 48 }
    ensures value { result ≡ 2 ^ exponent }
    ensures some { 1 ≤ result }
    ensures small { result < 2 ^ 48 }
{
    1u64 << exponent
}

/// A number with its highest bit.
fn with_highest(power: u64, low: u64) -> u64
    requires { power + low < 2 ^ 48 }
    ensures { result ≡ power + low }
{
    power + low
}

/// The code of a number whose logarithm has this whole part, as one number: nearly all are so short.
fn code_of(x: u64, size: u32) -> u64
    requires low { 2 ^ size ≤ x }
    requires high { x < 2 * 2 ^ size }
    requires short { size < 32 }
    ensures { digits (2 * size + 1) result ≡ gamma x }
{
    let power = power_of(u64::from(size));
    ones_and_zero(size) * power + (x - power)
}

/// Writes a number, of at least 1, in the gamma code.
pub fn put_gamma<S: Store>(w: &mut BitWriter<'_>, store: &mut S, x: u64) -> Result<(), PutErr>
    requires holds { Holds w.old (S.files store.old) }
    requires place { w.old.place ≤ 2 ^ 63 + 2 ^ 49 }
    requires some { 1 ≤ x }
    ensures { PutsBits (gamma x) S.files S.reads S.faults w.old w.new store.old store.new result }
{
    let size = x.ilog2();
    if size >= 32 {
        return put_by_parts(w, store, x);
    }
    w.put(store, code_of(x, size), 2 * size + 1)?;
    Ok(())
}

/// The same, one part of the code after the other.
#[inline(never)]
fn put_by_parts<S: Store>(w: &mut BitWriter<'_>, store: &mut S, x: u64) -> Result<(), PutErr>
    requires holds { Holds w.old (S.files store.old) }
    requires place { w.old.place ≤ 2 ^ 63 + 2 ^ 49 }
    requires some { 1 ≤ x }
    ensures { PutsBits (gamma x) S.files S.reads S.faults w.old w.new store.old store.new result }
{
    let size = x.ilog2();
    w.put(store, ones_and_zero(size), size + 1)?;
    w.put(store, x, size)?;
    Ok(())
}

/// Reads a number in the gamma code, of at most `limit`.
pub fn get_gamma<F: Feed>(
    r: &mut BitReader<F>,
    dev: &mut F::Dev,
    limit: u64,
) -> Result<u64, CodeErr>
    requires { CanRead (2 ^ 63) limit F.fits F.device r.old dev.old }
    ensures { ReadsCode UpTo limit gamma F.fits F.feeding F.device
        r.old r.new dev.old dev.new result }
{
    if let Some(code) = gamma_here(r, limit) {
        r.seek(r.place() + u64::from(code.size));
        return Ok(code.value);
    }
    gamma_by_parts(r, dev, limit)
}

/// The same, one part of the code after the other. It stands apart so that what is read from the
/// held page at once is short.
#[inline(never)]
fn gamma_by_parts<F: Feed>(
    r: &mut BitReader<F>,
    dev: &mut F::Dev,
    limit: u64,
) -> Result<u64, CodeErr>
    requires { CanRead (2 ^ 63) limit F.fits F.device r.old dev.old }
    ensures { ReadsCode UpTo limit gamma F.fits F.feeding F.device
        r.old r.new dev.old dev.new result }
{
    let start = r.place();
    let top = log_of(limit);
    match get_unary(r, dev, top + 1) {
        Ok(lead) => {
            let power = power_of(lead - 1);
            let highest = power_of(top);
            let bound = bound_of(lead - 1, top, power, limit - highest);
            match get_below(r, dev, power, bound) {
                Ok(low) => Ok(with_highest(power, low)),
                Err(refusal) => {
                    r.seek(start);
                    Err(refused_whole(refusal, start, limit))
                }
            }
        }
        Err(refusal) => Err(refused_whole(refusal, start, limit)),
    }
}

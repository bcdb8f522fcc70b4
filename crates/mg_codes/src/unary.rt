//! The unary code.
ghost use Rattle.std.specs.Prelude.{◌≡◌, ◌+◌, ◌≤◌, ◌<◌, ◌^◌, ◌-◌, ◌*◌, Option, IfSome};
ghost use Rattle.mg_defs.specs.Codes.{unary};
ghost use Rattle.mg_defs.specs.Answers.{UpTo};
ghost use Rattle.mg_codes.specs.Held.{IsOnesBeforeZero};
ghost use Rattle.mg_bits.specs.CodeReads.{ReadsCode};
ghost use Rattle.mg_codes.specs.Readers.{CanRead, IsHeldCode};
ghost use Rattle.mg_codes.specs.Writers.{PutsBits};
ghost use Rattle.mg_bits.specs.BitWriting.{Holds};

use mg_bits::{BitReader, BitWriter, CodeErr, Feed, refused};
use mg_dev::{PutErr, Store};

/// So many one-bits and a zero-bit, as a number.
pub fn ones_and_zero(count: u32) -> u64
    requires { count < 64 }
    ensures { result ≡ (2 ^ count - 1) * 2 }
{
    ((1u64 << count) - 1) * 2
}

/// Writes a number, of at least 1, in unary.
pub fn put_unary<S: Store>(w: &mut BitWriter<'_>, store: &mut S, x: u64) -> Result<(), PutErr>
    requires holds { Holds w.old (S.files store.old) }
    requires place { w.old.place ≤ 2 ^ 63 }
    requires some { 1 ≤ x }
    requires small { x < 2 ^ 48 }
    ensures { PutsBits (unary x) S.files S.reads S.faults w.old w.new store.old store.new result }
{
    let mut left = x - 1;
    while left >= 32 {
        w.put(store, 0xffff_ffff, 32)?;
        left -= 32;
    }
    w.put(store, ones_and_zero(left as u32), left as u32 + 1)?;
    Ok(())
}

/// Reads a number in unary, of at most `limit`.
pub fn get_unary<F: Feed>(
    r: &mut BitReader<F>,
    dev: &mut F::Dev,
    limit: u64,
) -> Result<u64, CodeErr>
    requires { CanRead (2 ^ 63) limit F.fits F.device r.old dev.old }
    ensures { ReadsCode UpTo limit unary F.fits F.feeding F.device
        r.old r.new dev.old dev.new result }
{
    if let Some(x) = unary_here(r, limit) {
        r.seek(r.place() + x);
        return Ok(x);
    }
    unary_by_bits(r, dev, limit)
}

/// The number in unary that begins the bits at the place, if the page that is held has the 57 bits
/// from there on and its code is among them, and if it is at most `limit`.
#[inline]
fn unary_here<F: Feed>(r: &BitReader<F>, limit: u64) -> Option<u64>
    requires { r.now.place ≤ 2 ^ 63 }
    ensures { IfSome result (λ x. IsHeldCode UpTo limit unary F.fits F.feeding r.now x x) }
{
    let next = match r.peek() {
        Some(next) => next,
        None => return None,
    };
    match ones_before_zero(next) {
        Some(ones) if ones < limit => Some(ones + 1),
        _ => None,
    }
}

/// How many of 57 bits are one-bits before the first zero-bit, if there is one.
#[inline]
pub fn ones_before_zero(next: u64) -> Option<u64>
    requires { next < 2 ^ 57 }
    ensures { IfSome result (λ ones. IsOnesBeforeZero next ones) }
{
    let rest = (1u64 << 57) - 1 - next;
    if rest == 0 {
        return None;
    }
    Some(56 - u64::from(rest.ilog2()))
}

/// Reads a number in unary, of at most `limit`, bit by bit.
fn unary_by_bits<F: Feed>(
    r: &mut BitReader<F>,
    dev: &mut F::Dev,
    limit: u64,
) -> Result<u64, CodeErr>
    requires { CanRead (2 ^ 63) limit F.fits F.device r.old dev.old }
    ensures { ReadsCode UpTo limit unary F.fits F.feeding F.device
        r.old r.new dev.old dev.new result }
{
    let start = r.place();
    let mut ones = 0u64;
    while ones < limit {
        match r.bit(dev) {
            Ok(true) => {
                ones += 1;
            }
            Ok(false) => return Ok(ones + 1),
            Err(refusal) => {
                r.seek(start);
                return Err(refused(refusal, start));
            }
        }
    }
    r.seek(start);
    Err(CodeErr::Over { at: start, limit })
}

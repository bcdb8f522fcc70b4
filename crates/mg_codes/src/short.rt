//! The short code of a remainder.
ghost use Rattle.std.specs.Prelude.{◌≡◌, ◌+◌, ◌≤◌, ◌<◌, ◌^◌};
ghost use Rattle.mg_defs.specs.Codes.{short};
ghost use Rattle.mg_defs.specs.Answers.{Below};
ghost use Rattle.mg_bits.specs.CodeReads.{ReadsCode};
ghost use Rattle.mg_codes.specs.Readers.{CanRead};
ghost use Rattle.mg_codes.specs.Writers.{PutsBits};
ghost use Rattle.mg_codes.specs.Refusals.{IsNotOver, as_bits, as_code};
ghost use Rattle.mg_bits.specs.BitWriting.{Holds};

use crate::remainder::{code_size, get_below, shorter_codes};
use mg_bits::{BitErr, BitReader, BitWriter, CodeErr, Feed};
use mg_dev::{PutErr, Store};

/// A refusal as that of a code without a limit.
fn without_limit(refusal: CodeErr) -> BitErr
    requires { IsNotOver refusal }
    ensures { result ≡ as_bits refusal }
{
    match refusal {
        CodeErr::Device => BitErr::Device,
        CodeErr::End { at } => BitErr::End { at },
        CodeErr::Over { .. } => unreachable!(),
    }
}

/// Writes a remainder below `b` in the short code with parameter `b`.
pub fn put_short<S: Store>(
    w: &mut BitWriter<'_>,
    store: &mut S,
    b: u64,
    r: u64,
) -> Result<(), PutErr>
    requires holds { Holds w.old (S.files store.old) }
    requires place { w.old.place ≤ 2 ^ 63 + 2 ^ 49 }
    requires parameter { b < 2 ^ 48 }
    requires below { r < b }
    ensures { PutsBits (short b r) S.files S.reads S.faults w.old w.new store.old store.new result }
{
    let size = code_size(b);
    let few = shorter_codes(b, size);
    if r < few {
        w.put(store, r, size - 1)?;
        return Ok(());
    }
    w.put(store, r + few, size)?;
    Ok(())
}

/// Reads a remainder below `b` in the short code with parameter `b`.
pub fn get_short<F: Feed>(r: &mut BitReader<F>, dev: &mut F::Dev, b: u64) -> Result<u64, BitErr>
    requires { CanRead (2 ^ 63 + 2 ^ 49) b F.fits F.device r.old dev.old }
    ensures { ReadsCode Below b (short b) F.fits F.feeding F.device
        r.old r.new dev.old dev.new (as_code result) }
{
    match get_below(r, dev, b, b) {
        Ok(value) => Ok(value),
        Err(refusal) => Err(without_limit(refusal)),
    }
}

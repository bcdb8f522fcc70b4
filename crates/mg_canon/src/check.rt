//! Whether lengths are those of a code that leaves no string of bits over.
ghost use Rattle.std.specs.Prelude.{◌≡◌, ◌-◌, ◌^◌, ◌≤◌, ◌↔◌, length, IsTrue, IfErr, OnOk};
ghost use Rattle.std.specs.List.{All};
ghost use Rattle.mg_defs.specs.Canon.{kraft, AreGood};
ghost use Rattle.mg_canon.specs.Refusals.{IsLength, Refuses, HaveLengths};

use crate::CanonErr;

/// Whether a codeword among those of so many symbols may have so many bits.
fn is_length(symbols: usize, length: u8) -> bool
    ensures { IsTrue result ↔ IsLength symbols length }
{
    let most = if symbols == 1 { 1 } else { 48 };
    1 <= length && length <= most
}

/// What a codeword of this length takes of the strings of 48 bits.
fn share(length: u8) -> u64
    requires { length ≤ 48 }
    ensures share { result ≡ 2 ^ (48 - length) }
    ensures most { result ≤ 2 ^ 48 }
{
    1 << (48 - length)
}

/// What codewords of these lengths take of the strings of 48 bits.
fn kraft_sum(lengths: &[u8]) -> u128
    requires within { All (λ l. l ≤ 48) lengths.now }
    requires few { length lengths.now ≤ 2 ^ 22 }
    ensures { result ≡ kraft lengths.now }
{
    let mut sum = 0u128;
    for length in lengths {
        sum += u128::from(share(*length));
    }
    sum
}

/// Refuses lengths that have no canonical code.
pub fn check(lengths: &[u8]) -> Result<(), CanonErr>
    requires { length lengths.now ≤ 2 ^ 22 }
    ensures good { OnOk result (AreGood lengths.now) }
    ensures all { OnOk result (HaveLengths (length lengths.now) lengths.now) }
    ensures refused { IfErr result (Refuses lengths.now) }
{
    for (symbol, length) in lengths.iter().enumerate() {
        if !is_length(lengths.len(), *length) {
            return Err(CanonErr::BadLength {
                symbol: symbol as u32,
                length: *length,
            });
        }
    }
    if lengths.len() < 2 {
        return Ok(());
    }
    let sum = kraft_sum(lengths);
    if sum != 1 << 48 {
        return Err(CanonErr::Kraft { sum });
    }
    Ok(())
}

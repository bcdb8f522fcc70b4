//! A codeword that was found, in one number: its symbol times 64, and its bits.
//!
//! A table of codewords holds it so, and it is handed on so, since a number stays in a register. No
//! bits stand for no codeword.
ghost use Rattle.std.specs.Prelude.{◌≡◌, ◌^◌, ◌<◌};
ghost use Rattle.mg_canon.specs.Tables.{found_in};

/// The entry of a symbol and of the bits of its codeword.
#[inline(always)]
pub fn entry_of(symbol: u32, size: u32) -> u32
    requires symbol { symbol < 2 ^ 26 }
    requires size { size < 64 }
    ensures symbol { (found_in result).symbol ≡ symbol }
    ensures size { (found_in result).size ≡ size }
{
    symbol * 64 + size
}

/// The symbol of an entry.
#[inline(always)]
pub fn symbol_in(entry: u32) -> u32
    ensures { result ≡ (found_in entry).symbol }
{
    entry / 64
}

/// How many bits the codeword of an entry has.
#[inline(always)]
pub fn size_in(entry: u32) -> u32
    ensures is { result ≡ (found_in entry).size }
    ensures few { result < 64 }
{
    entry % 64
}

//! Numbers in the bytes of a part, the highest byte first.
//!
//! Every field of fixed width, in whatever part, is written and read here, with `byteorder`.
#![tactic(auto)]

ghost use Rattle.std.specs.Prelude.{◌≡◌, ◌+◌, ◌≤◌, length};
ghost use Rattle.mg_defs.specs.Numbers.{eight, eight_at, four, four_at};

use byteorder::{BigEndian, ByteOrder};

/// A number in four bytes.
#[tactic(auto, unfolding(mg_defs::specs::Numbers::four))]
#[inline]
pub fn four_bytes(number: u32) -> [u8; 4]
    ensures { result ≡ four number }
{
    let mut bytes = [0u8; 4];
    BigEndian::write_u32(&mut bytes, number);
    bytes
}

/// A number in eight bytes.
#[tactic(auto, unfolding(mg_defs::specs::Numbers::eight))]
#[inline]
pub fn eight_bytes(number: u64) -> [u8; 8]
    ensures { result ≡ eight number }
{
    let mut bytes = [0u8; 8];
    BigEndian::write_u64(&mut bytes, number);
    bytes
}

/// The number in the four bytes from a place on.
#[tactic(auto, unfolding(mg_defs::specs::Numbers::four_at))]
#[inline]
pub fn four_at(bytes: &[u8], at: usize) -> u32
    requires { at + 4 ≤ length bytes.now }
    ensures { result ≡ four_at bytes.now at }
{
    BigEndian::read_u32(&bytes[at..])
}

/// The number in the eight bytes from a place on.
#[tactic(auto, unfolding(mg_defs::specs::Numbers::eight_at))]
#[inline]
pub fn eight_at(bytes: &[u8], at: usize) -> u64
    requires { at + 8 ≤ length bytes.now }
    ensures { result ≡ eight_at bytes.now at }
{
    BigEndian::read_u64(&bytes[at..])
}

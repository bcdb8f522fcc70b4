//! A piece, and the bytes that stand behind it.
ghost use Rattle.std.specs.Prelude.{◌≡◌, ◌-◌, ◌≤◌, drop, length, take, IfSome};

use std::marker::Model;

/// How many bytes are read at once.
const WIDE: usize = 16;

/// A piece, and the bytes that stand behind it on its page.
///
/// The key of a short piece is made of sixteen bytes that are read at once. That many stand from the
/// first byte of almost every piece on, where those behind it may be read too.
#[derive(Drop)]
pub struct Piece<'a> {
    bytes: &'a [u8],
    len: usize,
}

impl<'a> Model for Piece<'a> {
    ghost use Rattle.std.specs.Prelude.{ℕ, List, ◌≤◌, length, take};

    ghost Value = { List ℕ };

    ghost view = { λ p. take p.len p.bytes.now };

    ghost invariant = { λ p. p.len ≤ length p.bytes.now };
}

impl<'a> Piece<'a> {
    /// A piece behind which nothing may be read.
    #[inline]
    pub fn alone(bytes: &'a [u8]) -> Piece<'a>
        ensures { result ≡ bytes.now }
    {
        Piece {
            bytes,
            len: bytes.len(),
        }
    }

    /// The piece from a place of these bytes to another: what stands behind it may be read.
    #[inline]
    pub fn within(bytes: &'a [u8], from: usize, to: usize) -> Piece<'a>
        requires rises { from ≤ to }
        requires within { to ≤ length bytes.now }
        ensures { result ≡ take (to - from) (drop from bytes.now) }
    {
        Piece {
            bytes: &bytes[from..],
            len: to - from,
        }
    }

    /// The number of its bytes.
    #[inline]
    pub fn len(&self) -> usize
        ensures { result ≡ length self.now }
    {
        self.len
    }

    /// The piece without what stands behind it.
    #[inline]
    pub fn bytes(&self) -> &'a [u8]
        ensures { result.now ≡ self.now }
    {
        &self.bytes[..self.len]
    }

    /// Sixteen bytes that begin with the piece, where it is not longer and so many stand there.
    #[inline]
    pub(crate) fn sixteen(&self) -> Option<[u8; 16]>
        ensures { IfSome result (λ sixteen. length self.now ≤ 16 →
            take (length self.now) sixteen ≡ self.now) }
    {
        if self.bytes.len() < WIDE {
            return None;
        }
        let mut sixteen = [0u8; 16];
        sixteen.copy_from_slice(&self.bytes[..WIDE]);
        Some(sixteen)
    }
}

//! Numbers behind each other, the highest byte first.
ghost use Rattle.std.specs.Prelude.{◌≡◌, ◌+◌, ◌≤◌, ◌++◌, [], length, take};
ghost use Rattle.mg_defs.specs.Numbers.{four, eight};

use mg_fields::{eight_bytes, four_bytes};
use std::marker::Model;

const MOST: usize = 80;

/// The fields of one head, as far as they are written.
#[derive(Drop)]
pub(crate) struct FieldWriter {
    bytes: [u8; 80],
    length: usize,
}

impl Model for FieldWriter {
    ghost use Rattle.std.specs.Prelude.{◌≤◌, ℕ, List, take};

    ghost Value = { List ℕ };

    ghost view = { λ w. take w.length w.bytes };

    ghost invariant = { λ w. w.length ≤ 80 };
}

impl FieldWriter {
    pub(crate) fn new() -> Self
        ensures { result ≡ [] }
    {
        FieldWriter {
            bytes: [0; MOST],
            length: 0,
        }
    }

    /// What was written.
    pub(crate) fn bytes(&self) -> &[u8]
        ensures { result.now ≡ self.now }
    {
        &self.bytes[..self.length]
    }

    pub(crate) fn put(&mut self, piece: &[u8])
        requires room { length self.old + length piece.now ≤ 80 }
        ensures bytes { self.new ≡ self.old ++ piece.now }
    {
        let at = self.length;
        put_at(&mut self.bytes, at, piece);
        self.length = at + piece.len();
    }

    pub(crate) fn put_u32(&mut self, number: u32)
        requires room { length self.old ≤ 72 }
        ensures bytes { self.new ≡ self.old ++ four number }
        ensures length { length self.new ≡ length self.old + 4 }
    {
        self.put(&four_bytes(number));
    }

    pub(crate) fn put_u64(&mut self, number: u64)
        requires room { length self.old ≤ 72 }
        ensures bytes { self.new ≡ self.old ++ eight number }
        ensures length { length self.new ≡ length self.old + 8 }
    {
        self.put(&eight_bytes(number));
    }
}

// The piece from an index on.
fn put_at(bytes: &mut [u8; 80], at: usize, piece: &[u8])
    requires { at + length piece.now ≤ 80 }
    ensures { take (at + length piece.now) bytes.new ≡ take at bytes.old ++ piece.now }
{
    bytes[at..at + piece.len()].copy_from_slice(piece);
}

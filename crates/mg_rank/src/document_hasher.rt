//! Where the map of sums looks for a document.
ghost use Rattle.std.specs.Prelude.{◌≡◌, ◌+◌, ◌*◌, ◌/◌, ◌%◌, ◌^◌, fold, bit_and, bit_xor};

use std::hash::Hasher;

/// A hash of a document's number that leaves documents which follow one another side by side.
///
/// A map finds the slots of a key by the low bits of its hash, and tells the keys there apart by the
/// highest byte. A list names its documents in rising order, so with the number itself in the low bits
/// the slots are gone through from front to back, where a hash that scatters them would wait for
/// memory at each posting. The highest byte is mixed from the whole number.
#[derive(Clone, Copy)]
pub struct DocumentHasher {
    document: u32,
}

impl Default for DocumentHasher {
    ghost is_default = { λ h. h.document ≡ 0 };

    fn default() -> DocumentHasher {
        DocumentHasher { document: 0 }
    }
}

impl Hasher for DocumentHasher {
    ghost write = { λ h bytes. record { document = fold (λ number byte. number / 2 ^ 8 + byte * 2 ^ 24) h.document bytes } };

    ghost finish = { λ h. bit_xor h.document (bit_and (h.document * 0x9e37_79b9 % 2 ^ 32) 0xff00_0000) };

    fn finish(&self) -> u64 {
        let mixed = self.document.wrapping_mul(0x9e37_79b9);
        u64::from(self.document ^ (mixed & 0xff00_0000))
    }

    // The bytes of a number come the lowest first; four of them fill it.
    fn write(&mut self, bytes: &[u8]) {
        for byte in bytes {
            self.document = self.document / 256 + u32::from(*byte) * 16777216;
        }
    }
}

//! Bits that a bit reader keeps.
ghost use Rattle.std.specs.Prelude.{◌≡◌};

/// Bits that a bit reader keeps of the page that its feed holds.
#[derive(Clone, Copy)]
pub struct KeptBits {
    /// The place of the first of them.
    pub start: u64,
    /// How many they are: 64, or the 8 of one byte near the page's end, or none.
    pub count: u32,
    /// The number that they write.
    pub word: u64,
}

impl KeptBits {
    /// No bits.
    pub fn none() -> Self
        ensures { result.count ≡ 0 }
    {
        KeptBits {
            start: 0,
            count: 0,
            word: 0,
        }
    }
}

//! The generator of numbers.
ghost use Rattle.std.specs.Prelude.{◌≡◌, ◌<◌};
ghost use Rattle.mg_defs.specs.Generator.{draw as draw_of, pick as pick_of, stepped};

use crate::syllable::{Word, word};

/// Numbers that look drawn by chance and follow from the seed: a linear congruential generator
/// modulo 2^64, of whose state the 31 highest bits are used.
#[derive(Clone, Copy)]
pub(crate) struct Generator {
    pub(crate) state: u64,
}

impl Generator {
    /// A number below `n`.
    pub(crate) fn draw(&mut self, n: u32) -> u32
        requires { 0 < n }
        ensures is { result ≡ draw_of n self.old.state }
        ensures below { result < n }
        ensures state { self.new.state ≡ stepped self.old.state }
    {
        // Arithmetic modulo 2^64 is what the generator is defined by.
        self.state = self
            .state
            .wrapping_mul(6364136223846793005)
            .wrapping_add(1442695040888963407);
        ((self.state >> 33) % u64::from(n)) as u32
    }

    /// A word.
    pub(crate) fn pick(&mut self) -> Word
        ensures word { result.items ≡ (pick_of self.old.state).bytes }
        ensures state { self.new.state ≡ (pick_of self.old.state).state }
    {
        let most = self.draw(2000);
        let number = self.draw(most + 1);
        word(number)
    }
}

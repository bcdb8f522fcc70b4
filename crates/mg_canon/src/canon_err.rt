//! Why a list of lengths has no canonical code.
ghost use Rattle.std.specs.Prelude.{◌≡◌};
ghost use Rattle.mg_canon.specs.declared.canon_err.CanonErr.TheVariants.{Memory};

use std::alloc::{AllocError, AllocFailed};
use thiserror::Error;

/// Why a list of lengths has no canonical code.
#[derive(Clone, Copy, Debug, PartialEq, Eq, Error)]
pub enum CanonErr {
    /// The first symbol whose length is no length of a codeword: 0 or above 48, or not 1 where the
    /// symbol is the only one.
    #[error("symbol {symbol} has a codeword of {length} bits")]
    BadLength { symbol: u32, length: u8 },
    /// The codewords take more or less than all strings of 48 bits. `sum` is what they take: the
    /// sum of 2^(48 - length).
    #[error("the codewords take {sum} of 2^48 strings of 48 bits")]
    Kraft { sum: u128 },
    #[error("out of memory")]
    Memory,
}

impl From<AllocError> for CanonErr {
    ghost from_gives = { λ _ e. e ≡ Memory };

    fn from(_cause: AllocError) -> CanonErr {
        CanonErr::Memory
    }
}

impl<T: Drop> From<AllocFailed<T>> for CanonErr {
    ghost from_gives = { λ _ e. e ≡ Memory };

    fn from(_cause: AllocFailed<T>) -> CanonErr {
        CanonErr::Memory
    }
}

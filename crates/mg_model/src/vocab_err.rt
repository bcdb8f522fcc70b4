//! Why a piece was not counted.
ghost use Rattle.std.specs.Prelude.{◌≡◌};
ghost use Rattle.mg_model.specs.declared.vocab_err.VocabErr.TheVariants.{Memory};

use std::alloc::{AllocError, AllocFailed};
use thiserror::Error;

/// Why a piece was not counted.
#[derive(Clone, Copy, Debug, PartialEq, Eq, Error)]
pub enum VocabErr {
    /// The vocabulary has as many entries as it may have, and the piece is none of them.
    #[error("too many distinct pieces")]
    TooMany,
    #[error("out of memory")]
    Memory,
}

impl From<AllocError> for VocabErr {
    ghost from_gives = { λ _ e. e ≡ Memory };

    fn from(_cause: AllocError) -> VocabErr {
        VocabErr::Memory
    }
}

impl<T: Drop> From<AllocFailed<T>> for VocabErr {
    ghost from_gives = { λ _ e. e ≡ Memory };

    fn from(_cause: AllocFailed<T>) -> VocabErr {
        VocabErr::Memory
    }
}

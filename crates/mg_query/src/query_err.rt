//! Why a line is no query.
ghost use Rattle.std.specs.Prelude.{◌≡◌};
ghost use Rattle.mg_query.specs.declared.query_err.QueryErr.TheVariants.{Memory};

use std::alloc::{AllocError, AllocFailed};
use thiserror::Error;

/// The refusal of a line. A place is that of a token's first byte, counted from 0, or the line's
/// length.
#[derive(Debug, Drop, Error)]
pub enum QueryErr {
    /// The tokens up to this place begin no query, or the line ends here and is no query.
    #[error("syntax at {at}")]
    Syntax { at: u32 },
    /// The 33rd parenthesis is opened here.
    #[error("too deep at {at}")]
    TooDeep { at: u32 },
    /// A word of more than 255 bytes begins here.
    #[error("word too long at {at}")]
    TermTooLong { at: u32 },
    /// The 65th distinct term of a ranked line begins here.
    #[error("too many words at {at}")]
    TooManyTerms { at: u32 },
    #[error("out of memory")]
    Memory,
}

impl From<AllocError> for QueryErr {
    ghost from_gives = { λ _ e. e ≡ Memory };

    fn from(_cause: AllocError) -> QueryErr {
        QueryErr::Memory
    }
}

impl<T: Drop> From<AllocFailed<T>> for QueryErr {
    ghost from_gives = { λ _ e. e ≡ Memory };

    fn from(_cause: AllocFailed<T>) -> QueryErr {
        QueryErr::Memory
    }
}

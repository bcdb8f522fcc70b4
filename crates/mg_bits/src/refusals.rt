//! A bit reader's refusal as that of a reader of a code.
ghost use Rattle.std.specs.Prelude.{◌≡◌};
ghost use Rattle.mg_bits.specs.CodeAnswers.{of_bit};

use crate::{BitErr, CodeErr};

/// A bit reader's refusal as that of a code which begins at `start`.
pub fn refused(refusal: BitErr, start: u64) -> CodeErr
    ensures { result ≡ of_bit refusal start }
{
    match refusal {
        BitErr::Device => CodeErr::Device,
        BitErr::End { .. } => CodeErr::End { at: start },
    }
}

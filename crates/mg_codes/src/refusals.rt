//! Refusals of a part of a code as those of the whole.
ghost use Rattle.std.specs.Prelude.{◌≡◌};
ghost use Rattle.mg_codes.specs.Refusals.{of_whole};

use mg_bits::CodeErr;

/// The refusal of a part of a code as that of the whole, which begins at `start` and has a limit.
pub fn refused_whole(refusal: CodeErr, start: u64, limit: u64) -> CodeErr
    ensures { result ≡ of_whole refusal start limit }
{
    match refusal {
        CodeErr::Device => CodeErr::Device,
        CodeErr::End { .. } => CodeErr::End { at: start },
        CodeErr::Over { .. } => CodeErr::Over { at: start, limit },
    }
}

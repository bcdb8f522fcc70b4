//! Why a part of a list was not read.
ghost use Rattle.std.specs.Prelude.{◌≡◌};
ghost use Rattle.mg_post.specs.Answers.{of_bits, of_code, IsRefused};

use mg_bits::{BitErr, CodeErr};
use mg_dev::{Bad, Part, PartErr};

/// Why a part of a list was not read. Which part it is, the caller knows.
#[derive(Clone, Copy, Debug, PartialEq, Eq)]
pub enum Refusal {
    /// The store failed.
    Device,
    /// What is wanted doesn't stand at this bit place.
    Damaged { at: u64 },
}

/// A bit reader's refusal, told of a bit place.
pub fn refused_bits(refusal: BitErr, at: u64) -> Refusal
    ensures { result ≡ of_bits refusal at }
{
    match refusal {
        BitErr::Device => Refusal::Device,
        BitErr::End { .. } => Refusal::Damaged { at },
    }
}

/// A refusal of a reader of a code, told of a bit place.
pub fn refused_code(refusal: CodeErr, at: u64) -> Refusal
    ensures { result ≡ of_code refusal at }
{
    match refusal {
        CodeErr::Device => Refusal::Device,
        CodeErr::End { .. } => Refusal::Damaged { at },
        CodeErr::Over { .. } => Refusal::Damaged { at },
    }
}

/// A refusal, told of its part: none of what may stand at the place was found there.
pub fn refused_part(refusal: Refusal, part: Part) -> PartErr
    ensures { IsRefused refusal part result }
{
    match refusal {
        Refusal::Device => PartErr::Device,
        Refusal::Damaged { at } => PartErr::Bad(Bad {
            part,
            at,
            low: 1,
            high: 1,
            found: 0,
        }),
    }
}

//! Why a document could not be shown.
ghost use Rattle.std.specs.Prelude.{◌≡◌};
ghost use Rattle.mg_dev.specs.Faults.{show_of_put};
ghost use Rattle.mg_dev.specs.declared.part_err.PartErr.TheVariants as part_refused;
ghost use Rattle.mg_dev.specs.declared.show_err.ShowErr.TheVariants.{Part};

use crate::{PartErr, PutErr};
use std::alloc::{AllocError, AllocFailed};

/// Why a document could not be shown. Want of memory while a part is read is `Part` with
/// `PartErr::Memory`; `Memory` is the sink's own.
#[derive(Clone, Copy, Debug, PartialEq, Eq)]
pub enum ShowErr {
    /// A part could not be read.
    Part(PartErr),
    /// The sink failed.
    Write,
    /// The sink lacked memory.
    Memory,
}

impl From<PartErr> for ShowErr {
    ghost from_gives = { λ p e. e ≡ Part p };

    fn from(error: PartErr) -> Self {
        ShowErr::Part(error)
    }
}

impl From<PutErr> for ShowErr {
    ghost from_gives = { λ p e. e ≡ show_of_put p };

    fn from(error: PutErr) -> Self {
        match error {
            PutErr::Failed => ShowErr::Write,
            PutErr::Memory => ShowErr::Memory,
        }
    }
}

impl From<AllocError> for ShowErr {
    ghost from_gives = { λ _ e. e ≡ Part part_refused.Memory };

    fn from(_: AllocError) -> Self {
        ShowErr::Part(PartErr::Memory)
    }
}

impl<T: Drop> From<AllocFailed<T>> for ShowErr {
    ghost from_gives = { λ _ e. e ≡ Part part_refused.Memory };

    fn from(_: AllocFailed<T>) -> Self {
        ShowErr::Part(PartErr::Memory)
    }
}

/// A sink's refusal as that of a document which could not be shown.
pub fn refused_put(refusal: PutErr) -> ShowErr
    ensures { result ≡ show_of_put refusal }
{
    ShowErr::from(refusal)
}

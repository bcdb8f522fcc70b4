//! Why a part could not be read.
ghost use Rattle.std.specs.Prelude.{◌≡◌};
ghost use Rattle.mg_dev.specs.declared.part_err.PartErr.TheVariants.{Device, Memory};

use crate::{Bad, Failed};
use std::alloc::{AllocError, AllocFailed};

/// Why a part could not be read.
#[derive(Clone, Copy, Debug, PartialEq, Eq)]
pub enum PartErr {
    /// The store failed.
    Device,
    /// There was no memory for it.
    Memory,
    /// Its bytes are those of no set of files.
    Bad(Bad),
}

impl From<Failed> for PartErr {
    ghost from_gives = { λ _ e. e ≡ Device };

    fn from(_: Failed) -> Self {
        PartErr::Device
    }
}

impl From<AllocError> for PartErr {
    ghost from_gives = { λ _ e. e ≡ Memory };

    fn from(_: AllocError) -> Self {
        PartErr::Memory
    }
}

impl<T: Drop> From<AllocFailed<T>> for PartErr {
    ghost from_gives = { λ _ e. e ≡ Memory };

    fn from(_: AllocFailed<T>) -> Self {
        PartErr::Memory
    }
}

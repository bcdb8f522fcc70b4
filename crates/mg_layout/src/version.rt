//! The versions of a set.

/// The version of the sets that are built.
pub const BUILT: u8 = 2;

/// The versions that are read.
pub(crate) const FIRST: u8 = 1;

pub(crate) const LAST: u8 = 2;

//! Why a code was not read.

/// Why a code was not read. `at` is the bit place where the code begins.
#[derive(Clone, Copy, Debug, PartialEq, Eq)]
pub enum CodeErr {
    /// The device failed.
    Device,
    /// The file ends within a code of a value that the reader takes.
    End { at: u64 },
    /// No code of a value up to the limit stands there, and the bits are the front of none.
    Over { at: u64, limit: u64 },
}

//! Why a bit was not read.

/// Why a bit was not read.
#[derive(Clone, Copy, Debug, PartialEq, Eq)]
pub enum BitErr {
    /// The device failed.
    Device,
    /// The file ends before the last bit asked for. `at` is the place where the call began.
    End { at: u64 },
}

//! What was found wrong in a part.
ghost use Rattle.std.specs.Prelude.{◌<◌, ◌≤◌};

use crate::Part;

/// A number in a part's file that no set of files has there: `found` is none of `low` to `high`.
#[derive(Clone, Copy, Debug, PartialEq, Eq)]
pub struct Bad {
    pub part: Part,
    /// Where it was found, as the reader of that part counts its places.
    pub at: u64,
    /// The least number that may stand there.
    pub low: u64,
    /// The greatest number that may stand there.
    pub high: u64,
    pub found: u64,
    ghost outside: { low ≤ found → high < found },
}

//! Where bytes come from.
ghost use Rattle.std.specs.Prelude.{ℕ, List, Option};
ghost use Rattle.std.specs.Io.{ReadsAtMost};
ghost use Rattle.mg_dev.specs.Causes.{HasCause};
ghost use Rattle.mg_dev.specs.Streams.{AfterRead};

use crate::Failed;

/// Bytes that are read once, from the first to the last.
pub trait Source {
    /// The bytes that are left, where the source tells them.
    ghost left: { Self → Option (List ℕ) };

    /// How often the source has failed.
    ghost faults: { Self → ℕ };

    /// Moves the first bytes that are left into the front of the buffer, and answers how many. It
    /// answers 0 for a buffer that is not empty only at the end. After a failure all that was
    /// left is still left.
    fn read(&mut self, buf: &mut [u8]) -> Result<usize, Failed>
        ensures bound { ReadsAtMost result buf.new }
        ensures bytes { AfterRead (left self.old) (left self.new) buf.new result }
        ensures cause { HasCause (faults self.old) (faults self.new) result };
}

//! Where bytes go.
ghost use Rattle.std.specs.Prelude.{ℕ, List, Option};
ghost use Rattle.mg_dev.specs.Causes.{HasPutCause, HasLack};
ghost use Rattle.mg_dev.specs.Streams.{AfterPut};

use crate::PutErr;

/// Bytes that are written one after the other. Besides its failures a sink counts how often it
/// lacked memory, so that a caller that takes no memory of its own can say whose lack it answers.
pub trait Sink {
    /// The bytes that were written, where the sink tells them.
    ghost written: { Self → Option (List ℕ) };

    /// How often the sink has failed.
    ghost faults: { Self → ℕ };

    /// How often the sink has lacked memory.
    ghost lacks: { Self → ℕ };

    /// Writes the piece. After a refusal a prefix of it was written.
    fn put(&mut self, piece: &[u8]) -> Result<(), PutErr>
        ensures content { AfterPut (written self.old) (written self.new) piece.now result }
        ensures cause { HasPutCause (faults self.old) (faults self.new) result }
        ensures lack { HasLack (lacks self.old) (lacks self.new) result };
}

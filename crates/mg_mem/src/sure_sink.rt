//! A sink in memory that never fails.
ghost use Rattle.std.specs.Prelude.{◌≡◌, ◌≢◌, [], Some, OnOk, OnErr};
ghost use Rattle.mg_dev.specs.Causes.{HasPutCause, HasLack};
ghost use Rattle.mg_dev.specs.Streams.{AfterPut};

use mg_dev::{PutErr, Sink};
use std::alloc::{AllocError, Global};

/// Bytes that are kept in memory, which the sink tells. It never fails; only memory may be
/// wanting, and then nothing of the piece was written.
#[derive(Drop)]
pub struct SureSink {
    bytes: Vec<u8>,
    lacks: u64,
}

impl SureSink {
    /// An empty sink.
    pub fn new(alloc: Global) -> Self
        ensures written { ⟦<SureSink as Sink>⟧.written result ≡ Some [] }
        ensures lacks { ⟦<SureSink as Sink>⟧.lacks result ≡ 0 }
    {
        SureSink {
            bytes: Vec::new(alloc),
            lacks: 0,
        }
    }

    /// What was written.
    pub fn bytes(&self) -> &[u8]
        ensures { ⟦<SureSink as Sink>⟧.written self.now ≡ Some result.now }
    {
        self.bytes.as_slice()
    }
}

#[tactic(auto, using(mg_dev::specs::StreamLaws::stream_laws), unfolding(mg_dev::specs::Streams::appended))]
impl Sink for SureSink {
    ghost written = { λ s. Some s.bytes.items };

    ghost faults = { λ _. 0 };

    ghost lacks = { λ s. s.lacks };

    fn put(&mut self, piece: &[u8]) -> Result<(), PutErr>
        ensures content { AfterPut (⟦<SureSink as Sink>⟧.written self.old)
            (⟦<SureSink as Sink>⟧.written self.new) piece.now result }
        ensures cause { HasPutCause (⟦<SureSink as Sink>⟧.faults self.old)
            (⟦<SureSink as Sink>⟧.faults self.new) result }
        ensures lack { HasLack (⟦<SureSink as Sink>⟧.lacks self.old)
            (⟦<SureSink as Sink>⟧.lacks self.new) result }
        ensures sure { result ≢ Err PutErr.Failed }
        ensures calm { OnOk result (⟦<SureSink as Sink>⟧.lacks self.new
            ≡ ⟦<SureSink as Sink>⟧.lacks self.old) }
        ensures err { OnErr result (⟦<SureSink as Sink>⟧.written self.new
            ≡ ⟦<SureSink as Sink>⟧.written self.old) }
    {
        match self.bytes.extend_from_slice(piece) {
            Ok(()) => Ok(()),
            Err(AllocError) => {
                self.lacks = self.lacks.saturating_add(1);
                Err(PutErr::Memory)
            }
        }
    }
}

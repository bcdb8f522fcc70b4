//! A writer of the system as a sink.
ghost use Rattle.std.specs.Prelude.{None};

use crate::host_io::write_whole;
use mg_dev::{PutErr, Sink};
use std::io::Write;

/// A writer of the system, as standard output. It tells no bytes, and takes no memory.
///
/// It hands each piece to the writer at once and flushes nothing, so the writer should have no
/// buffer of its own, and the pieces should be large. That the writer's bytes reach the system is
/// trusted and not proved.
#[derive(Drop)]
pub struct HostSink<W: Write + Drop> {
    writer: W,
    faults: u64,
}

impl<W: Write + Drop> HostSink<W> {
    pub fn new(writer: W) -> Self {
        HostSink { writer, faults: 0 }
    }
}

#[tactic(auto, using(mg_dev::specs::StreamLaws::stream_laws), unfolding(mg_dev::specs::Streams::appended))]
impl<W: Write + Drop> Sink for HostSink<W> {
    ghost written = { λ _. None };

    ghost faults = { λ s. s.faults };

    ghost lacks = { λ _. 0 };

    fn put(&mut self, piece: &[u8]) -> Result<(), PutErr> {
        match write_whole(&mut self.writer, piece) {
            Ok(()) => Ok(()),
            Err(_) => {
                self.faults = self.faults.saturating_add(1);
                Err(PutErr::Failed)
            }
        }
    }
}

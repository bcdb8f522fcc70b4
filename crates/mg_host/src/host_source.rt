//! A reader of the system as a source.
ghost use Rattle.std.specs.Prelude.{None};

use crate::host_io::read_some;
use mg_dev::{Failed, Source};
use std::io::Read;

/// A reader of the system, as standard input. It tells no bytes.
///
/// That its reads give the bytes of the system is trusted and not proved.
#[derive(Drop)]
pub struct HostSource<R: Read + Drop> {
    reader: R,
    faults: u64,
}

impl<R: Read + Drop> HostSource<R> {
    pub fn new(reader: R) -> Self {
        HostSource { reader, faults: 0 }
    }
}

#[tactic(auto, unfolding(mg_dev::specs::Streams::prepended))]
impl<R: Read + Drop> Source for HostSource<R> {
    ghost left = { λ _. None };

    ghost faults = { λ s. s.faults };

    fn read(&mut self, buf: &mut [u8]) -> Result<usize, Failed> {
        match read_some(&mut self.reader, buf) {
            Ok(count) => Ok(count),
            Err(_) => {
                self.faults = self.faults.saturating_add(1);
                Err(Failed)
            }
        }
    }
}

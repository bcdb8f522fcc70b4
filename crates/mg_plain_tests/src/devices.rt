//! An output that lacks memory, and a store that claims the size of its files.
ghost use Rattle.std.specs.Prelude.{None};

use mg_dev::{Failed, FileRef, PutErr, Sink, Store};
use mg_mem::SureStore;

/// A sink that takes nothing, since it lacks memory, and counts how often.
#[derive(Drop)]
pub struct Lacking {
    pub lacks: u64,
}

#[tactic(auto, using(mg_dev::specs::StreamLaws::stream_laws))]
impl Sink for Lacking {
    ghost written = { λ _. None };

    ghost faults = { λ _. 0 };

    ghost lacks = { λ s. s.lacks };

    fn put(&mut self, _piece: &[u8]) -> Result<(), PutErr> {
        self.lacks = self.lacks.saturating_add(1);
        Err(PutErr::Memory)
    }
}

/// A store that claims a size of each of its files, and tells none of them.
#[derive(Drop)]
pub struct Claims {
    pub size: u64,
    pub held: SureStore,
}

#[tactic(auto, unfolding(mg_dev::specs::Files::written))]
impl Store for Claims {
    ghost files = { λ _. None };

    ghost faults = { λ _. 0 };

    ghost reads = { λ s. ⟦<SureStore as Store>⟧.reads s.held };

    fn size(&mut self, _file: &FileRef<'_>) -> Result<Option<u64>, Failed> {
        Ok(Some(self.size))
    }

    fn read_at(&mut self, file: &FileRef<'_>, at: u64, buf: &mut [u8]) -> Result<usize, Failed> {
        self.held.read_at(file, at, buf)
    }

    fn reset(&mut self, file: &FileRef<'_>) -> Result<(), PutErr> {
        match self.held.reset(file) {
            Ok(()) => Ok(()),
            Err(refusal) => Err(refusal),
        }
    }

    fn append(&mut self, file: &FileRef<'_>, piece: &[u8]) -> Result<(), PutErr> {
        match self.held.append(file, piece) {
            Ok(()) => Ok(()),
            Err(refusal) => Err(refusal),
        }
    }
}

//! A store that tells nothing of its files, and lies about one of them.
ghost use Rattle.std.specs.Prelude.{◌≡◌, None};
ghost use Rattle.mg_dev.specs.Files.{Files};

use mg_dev::{Failed, FileRef, Part, PutErr, Store};
use mg_mem::SureStore;

/// A store that claims a size of collections, if it is told one, and that gives other bytes of one part: from the read of a
/// number on, counted from 0, those of the file of that part under `other`.
#[derive(Drop)]
pub(crate) struct OtherStore {
    pub(crate) held: SureStore,
    pub(crate) claimed: Option<u64>,
    pub(crate) changes: Part,
    pub(crate) from: u64,
    /// The most bytes that were asked for in one read of a collection.
    pub(crate) longest: usize,
    /// How often a collection was read before the first byte was appended to a part of runs.
    pub(crate) before_runs: Option<u64>,
    /// How many calls there were that write.
    pub(crate) puts: u64,
}

impl OtherStore {
    /// A store that does not lie.
    pub(crate) fn new(held: SureStore) -> Self {
        OtherStore {
            held,
            claimed: None,
            changes: Part::Plain,
            from: u64::MAX,
            longest: 0,
            before_runs: None,
            puts: 0,
        }
    }

    // Counts a call that writes.
    fn count_put(&mut self)
        ensures { self.new.held ≡ self.old.held }
    {
        self.puts = self.puts.saturating_add(1);
    }
}

#[tactic(auto, unfolding(mg_dev::specs::Files::written))]
impl Store for OtherStore {
    ghost files = { λ _. None };

    ghost faults = { λ _. 0 };

    ghost reads = { λ s. ⟦<SureStore as Store>⟧.reads s.held };

    fn size(&mut self, file: &FileRef<'_>) -> Result<Option<u64>, Failed> {
        match (file.part, self.claimed) {
            (Part::Plain, Some(size)) => Ok(Some(size)),
            _ => self.held.size(file),
        }
    }

    fn read_at(&mut self, file: &FileRef<'_>, at: u64, buf: &mut [u8]) -> Result<usize, Failed> {
        if file.part == Part::Plain {
            self.longest = self.longest.max(buf.len());
        }
        let base = if file.part == self.changes && self.held.reads_of(file.part) >= self.from {
            "other"
        } else {
            file.base
        };
        let part = file.part;
        self.held.read_at(&FileRef { base, part }, at, buf)
    }

    fn reset(&mut self, file: &FileRef<'_>) -> Result<(), PutErr> {
        self.count_put();
        match self.held.reset(file) {
            Ok(()) => Ok(()),
            Err(refusal) => Err(refusal),
        }
    }

    fn append(&mut self, file: &FileRef<'_>, piece: &[u8]) -> Result<(), PutErr> {
        self.count_put();
        if file.part == Part::Run && !piece.is_empty() && self.before_runs.is_none() {
            self.before_runs = Some(self.held.reads_of(Part::Plain));
        }
        match self.held.append(file, piece) {
            Ok(()) => Ok(()),
            Err(refusal) => Err(refusal),
        }
    }
}

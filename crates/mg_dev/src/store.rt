//! Files by name.
ghost use Rattle.std.specs.Prelude.{◌≡◌, ℕ, Option};
ghost use Rattle.std.specs.Io.{ReadsAtMost};
ghost use Rattle.mg_dev.specs.Causes.{HasCause, HasPutCause};
ghost use Rattle.mg_dev.specs.Names.{full_name};
ghost use Rattle.mg_dev.specs.Files.{Files, Reads, AfterReset, AfterAppend, SameReads, OneRead, IsSize, IsRead};

use crate::{Failed, FileRef, PutErr};

/// Files by their full names, each read at any place and written at its end alone.
///
/// A store may tell its files, as those in memory do, or not, as the file system does: clauses on
/// content hold where it tells them, and no call changes whether it does. It counts its own
/// failures and, for each part, the reads; both counts stand still at 2^64 - 1 and never fall. So
/// a caller's contract can say that `Failed` comes only where the device failed, and how many
/// reads an answer took.
pub trait Store {
    /// The files, where the store tells them.
    ghost files: { Self → Option Files };

    /// How often the store has failed.
    ghost faults: { Self → ℕ };

    /// How often each part was read.
    ghost reads: { Self → Reads };

    /// The file's size in bytes, or None where it is missing.
    fn size(&mut self, file: &FileRef<'_>) -> Result<Option<u64>, Failed>
        ensures answer { IsSize (files self.old) (full_name file.now.base.now file.now.part)
            result }
        ensures files { files self.new ≡ files self.old }
        ensures reads { SameReads (reads self.old) (reads self.new) }
        ensures cause { HasCause (faults self.old) (faults self.new) result };

    /// Reads from the byte `at` on, and answers how many bytes it read: fewer than the buffer
    /// takes only at the file's end. A missing file reads as an empty one. A read is counted
    /// whether it succeeds or fails.
    fn read_at(&mut self, file: &FileRef<'_>, at: u64, buf: &mut [u8]) -> Result<usize, Failed>
        ensures bound { ReadsAtMost result buf.new }
        ensures bytes { IsRead (files self.old) (full_name file.now.base.now file.now.part) at
            buf.new result }
        ensures files { files self.new ≡ files self.old }
        ensures reads { OneRead (reads self.old) (reads self.new) file.now.part }
        ensures cause { HasCause (faults self.old) (faults self.new) result };

    /// Leaves the file there and empty. After a refusal it is as before, or there and empty.
    fn reset(&mut self, file: &FileRef<'_>) -> Result<(), PutErr>
        ensures content { AfterReset (files self.old) (files self.new)
            (full_name file.now.base.now file.now.part) result }
        ensures reads { SameReads (reads self.old) (reads self.new) }
        ensures cause { HasPutCause (faults self.old) (faults self.new) result };

    /// Adds the piece at the file's end, and makes a missing file. After a refusal the file grew
    /// by a prefix of the piece; a missing one may have been made.
    fn append(&mut self, file: &FileRef<'_>, piece: &[u8]) -> Result<(), PutErr>
        ensures content { AfterAppend (files self.old) (files self.new)
            (full_name file.now.base.now file.now.part) piece.now result }
        ensures reads { SameReads (reads self.old) (reads self.new) }
        ensures cause { HasPutCause (faults self.old) (faults self.new) result };
}

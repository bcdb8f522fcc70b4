//! The files of the system as a store.
ghost use Rattle.std.specs.Prelude.{◌≡◌, ◌≤◌, ◌<◌, None, slice_index, vec_len, IfSome, IfOk};
ghost use Rattle.std.specs.Io.{ReadsAtMost};
ghost use Rattle.mg_dev.specs.Causes.{Rose, HasPutCause};
ghost use Rattle.mg_dev.specs.Names.{number};

use crate::host_io::{read_full, write_whole};
use mg_dev::{Failed, FileRef, Part, PutErr, Store, count_read};
use std::alloc::{AllocError, Global};
use std::fs::{Files, OpenFile, OpenOptions};
use std::io;
use std::io::{ErrorKind, Read, Seek, SeekFrom};

/// The files of the system, which the store does not tell.
///
/// What is no regular file has no size: a folder, a pipe, a socket and a device count as failures,
/// since a build reads its collection twice and from any place.
///
/// Up to 48 files that were read or added to stay open. A read seeks only where its place is
/// another than the one behind the last read, and a reset closes all files.
///
/// In `size` and `read_at`, where want of memory has no answer of its own, a lack of memory for
/// the file's name counts as a failure. That the calls of the system do what a store does is
/// trusted and not proved.
#[derive(Drop)]
pub struct HostStore<R: Files + Drop> {
    rt: R,
    alloc: Global,
    reads: [u64; 14],
    faults: u64,
    kept: Vec<Open<R::File>>,
}

/// A file that is kept open.
#[derive(Drop)]
struct Open<F> {
    base: String,
    part: Part,
    appends: bool,
    place: Option<u64>,
    file: F,
}

impl<F: Read + Seek> Open<F> {
    /// Reads from a place of the file. It seeks only where the file stands elsewhere.
    fn read_at(&mut self, at: u64, buf: &mut [u8]) -> io::Result<usize>
        ensures bound { ReadsAtMost result buf.new }
    {
        if self.place != Some(at) {
            match self.file.seek(SeekFrom::Start(at)) {
                Ok(_) => {}
                // No file reaches to a place that the system does not take.
                Err(e) if e.kind() == ErrorKind::InvalidInput => return Ok(0),
                Err(e) => return Err(e),
            }
        }
        self.place = None;
        let count = read_full(&mut self.file, buf)?;
        self.place = at.checked_add(count as u64);
        Ok(count)
    }
}

/// That there is no file is an answer, and other failures are none.
fn none_found<T>(e: io::Error) -> io::Result<Option<T>> {
    match e.kind() {
        ErrorKind::NotFound => Ok(None),
        _ => Err(e),
    }
}

/// The most files that are kept open: all parts of three sets, as a merge has them, and those of
/// its working files that are read and added to.
const MOST_OPEN: usize = 48;

impl<R: Files + Drop> HostStore<R> {
    pub fn new(alloc: Global, rt: R) -> Self {
        HostStore {
            rt,
            alloc,
            reads: [0; 14],
            faults: 0,
            kept: Vec::new(alloc),
        }
    }

    /// Counts a failure.
    fn failed(&mut self) -> Failed
        ensures reads { self.new.reads ≡ self.old.reads }
        ensures later { self.old.faults ≤ self.new.faults }
        ensures rose { Rose self.old.faults self.new.faults }
    {
        self.faults = self.faults.saturating_add(1);
        Failed
    }

    fn name(&self, file: &FileRef<'_>) -> Result<String, AllocError> {
        let mut name = String::from_str(self.alloc, file.base)?;
        name.push_str(file.part.ending())?;
        Ok(name)
    }

    fn try_size(&self, file: &FileRef<'_>) -> io::Result<Option<u64>> {
        let name = self.name(file)?;
        match self.rt.metadata(name.as_str()) {
            Ok(metadata) if !metadata.is_file() => Err(io::Error::from(ErrorKind::InvalidInput)),
            Ok(metadata) => Ok(Some(metadata.len())),
            Err(e) => none_found(e),
        }
    }

    /// The place of a file that is kept open.
    fn find(&self, file: &FileRef<'_>, appends: bool) -> Option<usize>
        ensures { IfSome result (λ i. i < vec_len self.now.kept) }
    {
        for i in 0..self.kept.len() {
            let there = &self.kept[i];
            if there.part.number() == file.part.number()
                && there.appends == appends
                && there.base.as_str() == file.base
            {
                return Some(i);
            }
        }
        None
    }

    /// Closes the file that was opened first where there are many.
    fn leave_room(&mut self)
        ensures faults { self.new.faults ≡ self.old.faults }
        ensures reads { self.new.reads ≡ self.old.reads }
    {
        if self.kept.len() >= MOST_OPEN {
            let _ = self.kept.remove(0);
        }
    }

    /// Keeps a file open, in place of the one that was opened first where there are many.
    fn keep(
        &mut self,
        file: &FileRef<'_>,
        appends: bool,
        opened: R::File,
    ) -> Result<usize, AllocError>
        ensures within { IfOk result (λ i. i < vec_len self.new.kept) }
        ensures faults { self.new.faults ≡ self.old.faults }
        ensures reads { self.new.reads ≡ self.old.reads }
    {
        self.leave_room();
        let base = String::from_str(self.alloc, file.base)?;
        self.kept.push(Open {
            base,
            part: file.part,
            appends,
            place: Some(0),
            file: opened,
        })?;
        Ok(self.kept.len() - 1)
    }

    /// Opens a file to be read. None where there is none.
    fn open_to_read(&self, file: &FileRef<'_>) -> io::Result<Option<R::File>> {
        let name = self.name(file)?;
        match OpenOptions::new().read(true).open(&self.rt, name.as_str()) {
            Ok(opened) => Ok(Some(opened)),
            Err(e) => none_found(e),
        }
    }

    /// The place of the file that is open to be read. None where there is no file.
    fn opened_to_read(&mut self, file: &FileRef<'_>) -> io::Result<Option<usize>>
        ensures within { IfOk result (λ found. IfSome found (λ i. i < vec_len self.new.kept)) }
        ensures faults { self.new.faults ≡ self.old.faults }
        ensures reads { self.new.reads ≡ self.old.reads }
    {
        if let Some(i) = self.find(file, false) {
            return Ok(Some(i));
        }
        match self.open_to_read(file)? {
            Some(opened) => Ok(Some(self.keep(file, false, opened)?)),
            None => Ok(None),
        }
    }

    fn try_read(&mut self, file: &FileRef<'_>, at: u64, buf: &mut [u8]) -> io::Result<usize>
        ensures bound { ReadsAtMost result buf.new }
        ensures faults { self.new.faults ≡ self.old.faults }
        ensures reads { self.new.reads ≡ self.old.reads }
    {
        match self.opened_to_read(file)? {
            Some(i) => self.kept[i].read_at(at, buf),
            None => Ok(0),
        }
    }

    fn try_reset(&self, name: &str) -> io::Result<()> {
        let _file = OpenOptions::new()
            .write(true)
            .create(true)
            .truncate(true)
            .open(&self.rt, name)?;
        Ok(())
    }

    /// Opens a file to be added to, and makes it where there is none.
    fn open_to_append(&self, file: &FileRef<'_>) -> Result<io::Result<R::File>, AllocError> {
        let name = self.name(file)?;
        Ok(
            OpenOptions::new()
                .append(true)
                .create(true)
                .open(&self.rt, name.as_str()),
        )
    }

    /// Opens a file to be added to, and keeps it open; answers its place.
    fn keep_to_append(&mut self, file: &FileRef<'_>) -> Result<io::Result<usize>, AllocError>
        ensures within { IfOk result (λ kept. IfOk kept (λ i. i < vec_len self.new.kept)) }
        ensures faults { self.new.faults ≡ self.old.faults }
        ensures reads { self.new.reads ≡ self.old.reads }
    {
        match self.open_to_append(file)? {
            Ok(opened) => Ok(Ok(self.keep(file, true, opened)?)),
            Err(e) => Ok(Err(e)),
        }
    }

    /// The place of the file that is open to be added to.
    fn opened_to_append(&mut self, file: &FileRef<'_>) -> Result<usize, PutErr>
        ensures within { IfOk result (λ i. i < vec_len self.new.kept) }
        ensures reads { self.new.reads ≡ self.old.reads }
        ensures cause { HasPutCause self.old.faults self.new.faults result }
    {
        if let Some(i) = self.find(file, true) {
            return Ok(i);
        }
        match self.keep_to_append(file)? {
            Ok(i) => Ok(i),
            Err(_) => Err(self.failed().into()),
        }
    }
}

#[tactic(auto, unfolding(mg_dev::specs::Files::written))]
impl<R: Files + Drop> Store for HostStore<R> {
    ghost files = { λ _. None };

    ghost faults = { λ s. s.faults };

    ghost reads = { λ s p. slice_index s.reads (number p) };

    fn size(&mut self, file: &FileRef<'_>) -> Result<Option<u64>, Failed> {
        match self.try_size(file) {
            Ok(size) => Ok(size),
            Err(_) => Err(self.failed()),
        }
    }

    fn read_at(&mut self, file: &FileRef<'_>, at: u64, buf: &mut [u8]) -> Result<usize, Failed> {
        count_read(&mut self.reads, file.part);
        match self.try_read(file, at, buf) {
            Ok(count) => Ok(count),
            Err(_) => Err(self.failed()),
        }
    }

    fn reset(&mut self, file: &FileRef<'_>) -> Result<(), PutErr> {
        self.kept.clear();
        let name = self.name(file)?;
        match self.try_reset(name.as_str()) {
            Ok(()) => Ok(()),
            Err(_) => Err(self.failed().into()),
        }
    }

    fn append(&mut self, file: &FileRef<'_>, piece: &[u8]) -> Result<(), PutErr> {
        let i = self.opened_to_append(file)?;
        match write_whole(&mut self.kept[i].file, piece) {
            Ok(()) => Ok(()),
            Err(_) => Err(self.failed().into()),
        }
    }
}

//! Named files in memory.
ghost use Rattle.std.specs.Prelude.{◌≡◌, [], Some, None, IfOk, OnOk, OnErr, Option};
ghost use Rattle.std.specs.Option.{option_copied};
ghost use Rattle.std.specs.Str.{bytes_eq};
ghost use Rattle.std.specs.FinMap.{get};
ghost use Rattle.mg_dev.specs.Names.{file_name};
ghost use Rattle.mg_dev.specs.Files.{put, grown};
ghost use Rattle.mg_mem.specs.Shelf.{files_of, is_at};

use mg_dev::FileRef;
use std::alloc::{AllocError, Global};

/// A file in memory, under its full name.
#[derive(Drop)]
pub struct MemFile {
    name: Vec<u8>,
    bytes: Vec<u8>,
}

/// Files in memory, each made only where there is none of its name. They stand in the order in which they were made, since
/// a set has no more than fourteen files and a search through them is short.
#[derive(Drop)]
pub struct Shelf {
    alloc: Global,
    files: Vec<MemFile>,
}

fn is_named(name: &[u8], file: &FileRef<'_>) -> bool
    ensures { result ≡ bytes_eq name.now (file_name file.now) }
{
    match name.strip_prefix(file.base.as_bytes()) {
        Some(rest) => rest == file.part.ending().as_bytes(),
        None => false,
    }
}

fn name_of(alloc: Global, file: &FileRef<'_>) -> Result<Vec<u8>, AllocError>
    ensures { IfOk result (λ name. name.items ≡ file_name file.now) }
{
    let mut name = file.base.as_bytes().to_vec(alloc)?;
    name.extend_from_slice(file.part.ending().as_bytes())?;
    Ok(name)
}

impl Shelf {
    pub fn new(alloc: Global) -> Self
        ensures { result.files.items ≡ [] }
    {
        Shelf {
            alloc,
            files: Vec::new(alloc),
        }
    }

    pub fn allocator(&self) -> Global
        ensures { result ≡ self.now.alloc }
    {
        self.alloc
    }

    fn find(&self, file: &FileRef<'_>) -> Option<usize>
        ensures { result ≡ is_at (file_name file.now) self.now.files.items }
    {
        self.files
            .iter()
            .position(|f| is_named(f.name.as_slice(), file))
    }

    pub fn bytes(&self, file: &FileRef<'_>) -> Option<&[u8]>
        ensures { option_copied result ≡ get (files_of self.now.files.items) (file_name file.now) }
    {
        match self.find(file) {
            Some(i) => Some(self.files[i].bytes.as_slice()),
            None => None,
        }
    }

    /// The file has these bytes. After want of memory nothing changed.
    pub fn set(&mut self, file: &FileRef<'_>, bytes: Vec<u8>) -> Result<(), AllocError>
        ensures ok { OnOk result (files_of self.new.files.items
            ≡ put (files_of self.old.files.items) (file_name file.now) bytes.items) }
        ensures err { OnErr result (files_of self.new.files.items ≡ files_of self.old.files.items) }
    {
        match self.find(file) {
            Some(i) => {
                self.files[i].bytes = bytes;
            }
            None => {
                let name = name_of(self.alloc, file)?;
                self.files.push(MemFile { name, bytes })?;
            }
        }
        Ok(())
    }

    /// The file has grown by the piece. After want of memory nothing changed.
    pub fn extend(&mut self, file: &FileRef<'_>, piece: &[u8]) -> Result<(), AllocError>
        ensures ok { OnOk result (Some (files_of self.new.files.items)
            ≡ grown (Some (files_of self.old.files.items)) (file_name file.now) piece.now) }
        ensures err { OnErr result (files_of self.new.files.items ≡ files_of self.old.files.items) }
    {
        match self.find(file) {
            Some(i) => {
                self.files[i].bytes.extend_from_slice(piece)?;
            }
            None => {
                let bytes = piece.to_vec(self.alloc)?;
                self.set(file, bytes)?;
            }
        }
        Ok(())
    }
}

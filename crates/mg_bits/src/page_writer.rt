//! Bytes into a file, through one page.
ghost use Rattle.std.specs.Prelude.{◌≡◌, ◌<◌, ◌+◌, ◌++◌, ◌∷◌, [], IfOk, length, take, IsSome};
ghost use Rattle.std.specs.Bool.{OnFalse, OnTrue};
ghost use Rattle.std.specs.Int.{bytes_high_first};
ghost use Rattle.mg_dev.specs.Names.{full_name};
ghost use Rattle.mg_dev.specs.Causes.{HasPutCause};
ghost use Rattle.mg_dev.specs.Files.{AfterReset};
ghost use Rattle.mg_dev.specs.Moments.{Between};
ghost use Rattle.mg_bits.specs.Writer.{Appends, PutsBytes, SendsBytes, Writing, WroteTo, put_to};

use mg_dev::{FileRef, PutErr, Store};
use std::alloc::Global;
use std::marker::Model;

const PAGE: usize = 4096;

/// Writes bytes behind each other into a file.
///
/// It holds back fewer bytes than a page has. A call appends to its file alone, and whatever it
/// answers the file grew by the first of the bytes that were held or handed over.
#[derive(Drop)]
pub struct PageWriter<'a> {
    file: FileRef<'a>,
    page: Vec<u8>,
    used: usize,
}

impl<'a> Model for PageWriter<'a> {
    ghost use Rattle.std.specs.Prelude.{◌≡◌, ◌<◌, take, length};
    ghost use Rattle.mg_dev.specs.Names.{full_name};
    ghost use Rattle.mg_bits.specs.Writer.{Writing};

    ghost Value = { Writing };

    ghost view = { λ w. record { name = full_name w.file.base.now w.file.part; buffered = take w.used w.page.items } };

    ghost invariant = { λ w. (length w.page.items ≡ 4096) × (w.used < 4096) };
}

/// Adds bytes at a file's end.
fn append<S: Store>(store: &mut S, file: &FileRef<'_>, piece: &[u8]) -> Result<(), PutErr>
    ensures { Between S.files S.reads S.faults store.old store.new
        (Appends (full_name file.now.base.now file.now.part) piece.now result) }
{
    store.append(file, piece)
}

impl<'a> PageWriter<'a> {
    /// A writer of a file, which it empties.
    pub fn start<S: Store>(alloc: Global, store: &mut S, file: FileRef<'a>) -> Result<Self, PutErr>
        ensures name { IfOk result (λ w. w.name ≡ full_name file.entry.base.now file.entry.part) }
        ensures empty { IsSome (S.files store.old) →
            IfOk result (λ w. put_to w (S.files store.new) ≡ []) }
        ensures page { IfOk result (λ w. length w.buffered < 4096) }
        ensures started { AfterReset (S.files store.old) (S.files store.new)
            (full_name file.entry.base.now file.entry.part) result }
        ensures wrote { WroteTo (full_name file.entry.base.now file.entry.part) (S.files store.old)
            (S.files store.new)
            (S.reads store.old) (S.reads store.new) }
        ensures cause { HasPutCause (S.faults store.old) (S.faults store.new) result }
    {
        let page = vec![in alloc; 0; PAGE]?;
        match store.reset(&file) {
            Ok(()) => Ok(PageWriter {
                file,
                page,
                used: 0,
            }),
            Err(refusal) => Err(refusal),
        }
    }

    /// Writes one byte.
    pub fn put<S: Store>(&mut self, store: &mut S, byte: u8) -> Result<(), PutErr>
        ensures { Between S.files S.reads S.faults store.old store.new
            (PutsBytes self.old self.new (byte ∷ []) result) }
    {
        let used = self.used;
        self.page[used] = byte;
        if used + 1 < PAGE {
            self.used = used + 1;
            return Ok(());
        }
        match append(store, &self.file, &self.page) {
            Ok(()) => {
                self.used = 0;
                Ok(())
            }
            Err(refusal) => Err(refusal),
        }
    }

    /// Holds the first bytes of a number, fewer than eight, the highest of them first, where all eight
    /// have room on the page. False where they have none, and then nothing changed.
    #[inline(always)]
    pub(crate) fn keep_first(&mut self, number: u64, count: usize) -> bool
        requires few { count < 8 }
        ensures kept { OnTrue result (self.new.buffered ≡ self.old.buffered
            ++ take count (bytes_high_first 8 number)) }
        ensures name { self.new.name ≡ self.old.name }
        ensures page { length self.new.buffered < 4096 }
        ensures same { OnFalse result (self.new ≡ self.old) }
    {
        let used = self.used;
        if used + 8 >= PAGE {
            return false;
        }
        self.page[used..used + 8].copy_from_slice(&number.to_be_bytes());
        self.used = used + count;
        true
    }

    /// Writes the bytes of a piece.
    pub fn put_all<S: Store>(&mut self, store: &mut S, piece: &[u8]) -> Result<(), PutErr>
        ensures { Between S.files S.reads S.faults store.old store.new
            (PutsBytes self.old self.new piece.now result) }
    {
        if piece.len() < PAGE - self.used {
            self.keep(piece);
            return Ok(());
        }
        match self.finish(store) {
            Ok(()) => {}
            Err(refusal) => return Err(refusal),
        }
        if piece.len() < PAGE {
            self.keep(piece);
            return Ok(());
        }
        append(store, &self.file, piece)
    }

    /// Holds bytes that leave room in the page.
    fn keep(&mut self, piece: &[u8])
        requires room { length self.old.buffered + length piece.now < 4096 }
        ensures bytes { self.new.buffered ≡ self.old.buffered ++ piece.now }
        ensures name { self.new.name ≡ self.old.name }
    {
        let end = self.used + piece.len();
        self.page[self.used..end].copy_from_slice(piece);
        self.used = end;
    }

    /// Appends what is held; then the file holds all bytes that were written.
    pub fn finish<S: Store>(&mut self, store: &mut S) -> Result<(), PutErr>
        ensures { Between S.files S.reads S.faults store.old store.new
            (SendsBytes self.old self.new result) }
    {
        let used = self.used;
        match append(store, &self.file, &self.page[..used]) {
            Ok(()) => {
                self.used = 0;
                Ok(())
            }
            Err(refusal) => Err(refusal),
        }
    }
}

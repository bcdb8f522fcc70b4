//! A feed over a file, through one page of 4,096 bytes.
ghost use Rattle.std.specs.Prelude.{◌≡◌, ◌≤◌, ◌<◌, ◌+◌, ◌*◌, ◌^◌, ℕ, Option, Some, None, IfOk, IfSome, OnSome, slice_get, take, drop, length, IsSome, true};
ghost use Rattle.std.proofs.Common.{rules};
ghost use Rattle.mg_dev.specs.Files.{Files, SameReads, bytes_at};
ghost use Rattle.mg_dev.specs.Names.{full_name};
ghost use Rattle.mg_dev.specs.Causes.{HasCause};
ghost use Rattle.mg_defs.specs.Bits.{Begins, digits};
ghost use Rattle.mg_bits.specs.ByteReads.{AsksByte};
ghost use Rattle.mg_bits.specs.Feed.{HasBits, HoldsBits, ReadPart, of_store, held_after, page_of, ToldBytes, OnRange, ToldBits};
ghost use Rattle.mg_bits.specs.FeedLaws.{same_page};
ghost use Rattle.mg_bits.specs.Pages.{Fits, SameFile, Looked, IsFilled, feeding_of, CopiedBehind, AsFeed};
ghost use Rattle.mg_dev.specs.Moments.{Between};

use crate::Feed;
use crate::window::{Window, byte_in, window_byte, word_in};
use mg_dev::{Failed, FileRef, Part, Store};
use std::alloc::{AllocError, Global};
use std::marker::{Model, PhantomData};

const PAGE: usize = 4096;

/// A feed over one file of a store, which keeps one page of it.
///
/// It is seen as the file's full name and part, and the page that it holds. Its calls take the
/// store, so that many feeds can stand over one.
#[derive(Drop)]
pub struct PageFeed<'a, S> {
    file: FileRef<'a>,
    page: Vec<u8>,
    window: Window,
    of: PhantomData<S>,
}

impl<'a, S> Model for PageFeed<'a, S> {
    ghost use Rattle.std.specs.Prelude.{◌≡◌, ◌≢◌, ◌≤◌, take, length};
    ghost use Rattle.mg_dev.specs.Names.{full_name};
    ghost use Rattle.mg_bits.specs.Pages.{IsFirst, Paging};

    ghost Value = { Paging };

    ghost view = { λ f. record { name = full_name f.file.base.now f.file.part; part = f.file.part; held = f.window.held; page = take f.window.count f.page.items; count = f.window.reads } };

    ghost invariant = { λ f. (length f.page.items ≡ 4096) × (f.window.count ≤ 4096) × IsFirst f.window.held 4096 f.window.first f.window.count };
}

impl<'a, S: Store> PageFeed<'a, S> {
    /// A feed that holds no page.
    pub fn new(alloc: Global, file: FileRef<'a>) -> Result<Self, AllocError>
        ensures name { IfOk result (λ feed.
            feed.name ≡ full_name file.entry.base.now file.entry.part) }
        ensures part { IfOk result (λ feed. feed.part ≡ file.entry.part) }
        ensures held { IfOk result (λ feed. feed.held ≡ None) }
        ensures count { IfOk result (λ feed. feed.count ≡ 0) }
        ensures fits { IfOk result (λ feed. (files : Option Files) → Fits feed files) }
    {
        Ok(PageFeed {
            file,
            page: vec![in alloc; 0; PAGE]?,
            window: Window::empty(),
            of: PhantomData,
        })
    }

    /// The byte at a place, or None at and past the end.
    #[inline]
    pub fn byte(&mut self, store: &mut S, at: u64) -> Result<Option<u8>, Failed>
        requires fits { Fits self.old (S.files store.old) }
        ensures { Between S.files S.reads S.faults store.old store.new
            (AsksByte self.old self.new at result) }
    {
        if self.window.has(at) {
            let index = (at - self.window.first) as usize;
            let byte = byte_in(&self.page[..self.window.count], index);
            return Ok(byte);
        }
        self.turn(store, at)
    }

    /// The byte at a place of any page. It stands apart so that `byte` is short where the page is
    /// held.
    #[inline(never)]
    fn turn(&mut self, store: &mut S, at: u64) -> Result<Option<u8>, Failed>
        requires { Fits self.old (S.files store.old) }
        ensures { Between S.files S.reads S.faults store.old store.new
            (AsksByte self.old self.new at result) }
    {
        let file = self.file;
        let mut window = self.window;
        let answer = window_byte(
            store,
            &file,
            &mut self.page,
            &mut window,
            at / 4096,
            (at % 4096) as usize,
        );
        self.window = window;
        answer
    }

    /// The byte at a place, if the page that is held has it.
    #[inline]
    fn held_byte(&self, at: u64) -> Option<u8>
        ensures told { ToldBytes (feeding_of 4096 self.now) (Fits self.now) result
            (λ byte bytes. Some byte ≡ slice_get bytes at) }
        ensures held { OnSome result (self.now.held ≡ Some (page_of 4096 (8 * at))) }
        ensures some { (files : Option Files) → Fits self.now files →
            HasBits (feeding_of 4096 self.now) files (8 * at) 8 → IsSome result }
    {
        if !self.window.has(at) {
            return None;
        }
        let index = (at - self.window.first) as usize;
        byte_in(&self.page[..self.window.count], index)
    }

    /// The eight bytes from a place on as a number, if the page that is held has them all.
    #[inline]
    fn held_word(&self, at: u64) -> Option<u64>
        ensures told { ToldBits (feeding_of 4096 self.now) (Fits self.now) (8 * at) result
            (λ word. Begins (digits 64 word)) }
        ensures held { IfSome result (λ word. HoldsBits (feeding_of 4096 self.now) (8 * at) 64) }
        ensures some { (files : Option Files) → Fits self.now files →
            HasBits (feeding_of 4096 self.now) files (8 * at) 64 → IsSome result }
    {
        if !self.window.has(at) {
            return None;
        }
        let index = (at - self.window.first) as usize;
        word_in(&self.page[..self.window.count], index)
    }

    /// The bytes that the page that is held has from a place on: none where it has not the place. No
    /// device is asked.
    #[inline(always)]
    pub fn held_from(&self, at: u64) -> &[u8]
        ensures told { (files : Option Files) → Fits self.now files → IsSome files →
            result.now ≡ take (length result.now) (drop at (bytes_at files self.now.name)) }
        ensures held { 0 < length result.now →
            HoldsBits (feeding_of 4096 self.now) (8 * at) (8 * length result.now) }
        ensures all { (files : Option Files) (count : ℕ) → Fits self.now files → 0 < count →
            HasBits (feeding_of 4096 self.now) files (8 * at) (8 * count) →
            count ≤ length result.now }
    {
        if !self.window.has(at) {
            return &[];
        }
        let index = (at - self.window.first) as usize;
        &self.page[index..self.window.count]
    }

    /// The number of bytes of the file; a missing one has none.
    pub fn size(&mut self, store: &mut S) -> Result<u64, Failed>
        ensures same { self.new ≡ self.old }
        ensures looked { Between S.files S.reads S.faults store.old store.new
            (Looked self.old.part) }
        ensures reads { SameReads (S.reads store.old) (S.reads store.new) }
        ensures told { IsSome (S.files store.old) →
            IfOk result (λ size. size ≡ length (bytes_at (S.files store.old) self.old.name)) }
        ensures cause { HasCause (S.faults store.old) (S.faults store.new) result }
    {
        let file = self.file;
        match store.size(&file) {
            Ok(Some(size)) => Ok(size),
            Ok(None) => Ok(0),
            Err(failed) => Err(failed),
        }
    }

    /// The part that it reads.
    pub fn part(&self) -> Part
        ensures { result ≡ self.now.part }
    {
        self.file.part
    }

    /// How often it read a page, up to the number's end.
    pub fn reads(&self) -> u64
        ensures { result ≡ self.now.count }
    {
        self.window.reads
    }

    /// Fills the buffer with the bytes from a place on; false where they end before it is full.
    pub fn fill(&mut self, store: &mut S, at: u64, buf: &mut [u8]) -> Result<bool, Failed>
        requires fits { Fits self.old (S.files store.old) }
        requires place { at + length buf.old < 2 ^ 64 }
        ensures fits { Fits self.new (S.files store.new) }
        ensures file { SameFile self.old self.new }
        ensures looked { Between S.files S.reads S.faults store.old store.new
            (Looked self.old.part) }
        ensures told { IsSome (S.files store.old) →
            IfOk result (λ whole. IsFilled whole buf.new at
            (bytes_at (S.files store.old) self.old.name)) }
        ensures part { AsFeed S.files S.reads S.faults self.old self.new store.old store.new
            (OnRange (8 * at) (8 * (at + length buf.old)) ReadPart) }
        ensures held { IfOk result (λ whole. whole ≡ true →
            self.new.held ≡ held_after 4096 self.old.held (8 * at) (8 * (at + length buf.old))) }
        ensures cause { HasCause (S.faults store.old) (S.faults store.new) result }
    {
        let mut done = 0;
        while done < buf.len() {
            match self.byte(store, at + done as u64) {
                Ok(Some(byte)) => {
                    buf[done] = byte;
                    done += 1;
                    done += self.copy_held(at + done as u64, buf, done);
                }
                Ok(None) => return Ok(false),
                Err(failed) => return Err(failed),
            }
        }
        Ok(true)
    }

    /// Copies the bytes that the page that is held has from a place on, behind the first `from` of the
    /// buffer. Answers how many: none where the page has not the place, fewer than there is room for
    /// where the page ends.
    fn copy_held(&self, at: u64, buf: &mut [u8], from: usize) -> usize
        requires from { from ≤ length buf.old }
        ensures length { length buf.new ≡ length buf.old }
        ensures within { from + result ≤ length buf.old }
        ensures told { (files : Option Files) → Fits self.now files → IsSome files →
            CopiedBehind from result buf.old buf.new (drop at (bytes_at files self.now.name)) }
        ensures held { 0 < result → HoldsBits (feeding_of 4096 self.now) (8 * at) (8 * result) }
    {
        if !self.window.has(at) {
            return 0;
        }
        let index = (at - self.window.first) as usize;
        let count = (self.window.count - index).min(buf.len() - from);
        buf[from..from + count].copy_from_slice(&self.page[index..index + count]);
        count
    }
}

impl<'a, S: Store> Feed for PageFeed<'a, S> {
    type Dev = S;

    ghost device = { λ d. of_store (S.files d) (S.faults d) (S.reads d) };

    ghost feeding = { λ feed. feeding_of 4096 feed };

    ghost fits = { λ feed files. Fits feed files };

    #[inline]
    fn byte(&mut self, dev: &mut S, at: u64) -> Result<Option<u8>, Failed> {
        PageFeed::byte(self, dev, at)
    }

    #[inline]
    fn held_byte(&self, at: u64) -> Option<u8> {
        PageFeed::held_byte(self, at)
    }

    #[inline]
    fn word(&self, at: u64) -> Option<u64> {
        self.held_word(at)
    }

    ghost whole_pages = { λ s. Prim.search rules };

    ghost fits_source = { λ s f g same fit. record { held = same_page 4096 s.held s.page s.name f g same fit.held } };
}

//! The bytes of a collection's file, a page at a time.
//!
//! A page is kept, so the store is asked once a page. The size is asked once: where the file ends before
//! it, the collection changed while it was read.
ghost use Rattle.std.specs.Prelude.{◌≡◌, ◌+◌, ◌-◌, ◌*◌, ◌<◌, ◌≤◌, ◌^◌, true, None, IfOk, IfErr, IsSome, OnOk, length, take};
ghost use Rattle.mg_dev.specs.Causes.{HasCause, Rose};
ghost use Rattle.mg_dev.specs.Files.{HasSize, SameReads, bytes_at};
ghost use Rattle.mg_dev.specs.declared.part.Part.TheVariants.{Plain};
ghost use Rattle.mg_dev.specs.Moments.{Between};
ghost use Rattle.mg_bits.specs.Feed.{held_after};
ghost use Rattle.mg_bits.specs.Pages.{Fits, Looked, SameFile};
ghost use Rattle.mg_make.specs.Outcomes.{BetweenMoments};
ghost use Rattle.mg_build.specs.Sources.{FillsFront, IsFrom, IsOfOnePage, OpenStops};
ghost use Rattle.mg_build.specs.Steps.{TurnsPage};

use mg_bits::{Feed, PageFeed};
use mg_dev::{Failed, Fault, FileRef, Part, Store, What};
use std::alloc::Global;
use std::marker::Model;

/// The most bytes of a collection that is built.
const MOST: u64 = 0xffff_ffff;

/// The bytes of a page.
const PAGE: u64 = 4096;

/// A collection's file, which keeps a page of it, and a block of bytes that were read.
#[derive(Drop)]
pub(crate) struct Source<'a, S> {
    feed: PageFeed<'a, S>,
    block: Vec<u8>,
    count: usize,
    size: u64,
}

impl<'a, S> Model for Source<'a, S> {
    ghost use Rattle.std.specs.Prelude.{◌≡◌, ◌<◌, ◌≤◌, ◌^◌, length, take};
    ghost use Rattle.mg_dev.specs.declared.part.Part.TheVariants.{Plain};
    ghost use Rattle.mg_build.specs.Sources.{Sourcing};

    ghost Value = { Sourcing };

    ghost view = { λ s. record { feed = s.feed; block = take s.count s.block.items; size = s.size } };

    ghost invariant = { λ s. (s.feed.part ≡ Plain) × (s.size < 2 ^ 32) × (length s.block.items ≡ 4096) × (s.count ≤ 4096) };
}

impl<'a, S: Store> Source<'a, S> {
    /// The file of this name, of at most 2^32 - 1 bytes.
    #[tactic(auto, using(mg_dev::specs::Laws::file_laws))]
    pub(crate) fn open(alloc: Global, store: &mut S, name: &'a str) -> Result<Self, Fault>
        ensures name { IfOk result (λ s. s.feed.name ≡ name.entry.now) }
        ensures fits { IfOk result (λ s. Fits s.feed (S.files store.new)) }
        ensures size { IfOk result (λ s. HasSize (S.files store.old) name.entry.now s.size) }
        ensures held { IfOk result (λ s. s.feed.held ≡ None) }
        ensures refused { IfErr result
            (OpenStops (Rose (S.faults store.old) (S.faults store.new)) (S.files store.old)
            name.entry.now) }
        ensures files { S.files store.new ≡ S.files store.old }
        ensures reads { SameReads (S.reads store.old) (S.reads store.new) }
        ensures later { S.faults store.old ≤ S.faults store.new }
    {
        let file = FileRef {
            base: name,
            part: Part::Plain,
        };
        let size = match store.size(&file) {
            Ok(Some(size)) => size,
            Ok(None) => return Err(Fault::NoCollection),
            Err(_) => return Err(Fault::StoreFault),
        };
        if size > MOST {
            return Err(Fault::TooLarge { size, most: MOST });
        }
        let feed = match PageFeed::new(alloc, file) {
            Ok(feed) => feed,
            Err(_) => return Err(Fault::Memory),
        };
        match vec![in alloc; 0; PAGE as usize] {
            Ok(block) => Ok(Source {
                feed,
                block,
                count: 0,
                size,
            }),
            Err(_) => Err(Fault::Memory),
        }
    }

    /// How many bytes it had when it was opened.
    pub(crate) fn size(&self) -> u64
        ensures size { result ≡ self.now.size }
        ensures small { result < 2 ^ 32 }
    {
        self.size
    }

    /// Reads its block anew: the bytes from a place below its size on, as far as they lie on a page.
    pub(crate) fn turn(&mut self, store: &mut S, at: u64) -> Result<(), Fault>
        requires fits { Fits self.old.feed (S.files store.old) }
        requires within { at < self.old.size }
        ensures size { self.new.size ≡ self.old.size }
        ensures block { OnOk result (IsOfOnePage at (length self.new.block) self.old.size) }
        ensures told { IsSome (S.files store.old) → OnOk result
            (IsFrom at (bytes_at (S.files store.old) self.old.feed.name) self.new.block) }
        ensures turns { BetweenMoments S.files S.reads S.faults store.old store.new (λ before now.
            TurnsPage at self.old.size self.old.feed self.new.feed before now result) }
    {
        match read_block(&mut self.feed, store, at, self.size, &mut self.block) {
            Ok(count) => {
                self.count = count;
                Ok(())
            }
            Err(refusal) => Err(refusal),
        }
    }

    /// The bytes that were read last.
    #[inline]
    pub(crate) fn block(&self) -> &[u8]
        ensures { result.now ≡ self.now.block }
    {
        &self.block[..self.count]
    }
}

/// How many bytes from a place below a size on lie on its page.
fn rest_of_page(at: u64, size: u64) -> usize
    requires { at < size }
    ensures page { IsOfOnePage at result size }
    ensures few { result ≤ 4096 }
{
    let count = (PAGE - at % PAGE).min(size - at);
    count as usize
}

/// Reads the page of a place below a size.
fn read_page<S: Store>(
    feed: &mut PageFeed<'_, S>,
    store: &mut S,
    at: u64,
    size: u64,
) -> Result<(), Fault>
    requires part { feed.old.part ≡ Plain }
    requires fits { Fits feed.old (S.files store.old) }
    requires within { at < size }
    ensures turns { BetweenMoments S.files S.reads S.faults store.old store.new
        (λ before now. TurnsPage at size feed.old feed.new before now result) }
{
    match feed.byte(store, at) {
        Ok(Some(_)) => Ok(()),
        Ok(None) => Err(Fault::Changed {
            what: What::Size,
            first: size,
            second: at,
        }),
        Err(_) => Err(Fault::StoreFault),
    }
}

/// Fills the front of a block with so many bytes from a place on; false where the file ends before.
fn fill_front<S: Store>(
    feed: &mut PageFeed<'_, S>,
    store: &mut S,
    at: u64,
    block: &mut [u8],
    count: usize,
) -> Result<bool, Failed>
    requires fits { Fits feed.old (S.files store.old) }
    requires place { at < 2 ^ 32 }
    requires room { count ≤ length block.old }
    requires few { count ≤ 4096 }
    ensures fits { Fits feed.new (S.files store.new) }
    ensures file { SameFile feed.old feed.new }
    ensures told { IsSome (S.files store.old) → IfOk result (λ whole.
        FillsFront whole at count (bytes_at (S.files store.old) feed.old.name) block.new) }
    ensures held { IfOk result (λ whole. whole ≡ true →
        feed.new.held ≡ held_after 4096 feed.old.held (8 * at) (8 * (at + count))) }
    ensures looked { Between S.files S.reads S.faults store.old store.new (Looked feed.old.part) }
    ensures cause { HasCause (S.faults store.old) (S.faults store.new) result }
{
    feed.fill(store, at, &mut block[..count])
}

/// The first of so many places that the page which is held has no byte of, else the last of them.
fn missing<S: Store>(feed: &PageFeed<'_, S>, at: u64, count: usize) -> u64
    requires some { 0 < count }
    requires place { at + count < 2 ^ 63 }
    ensures { result < at + count }
{
    let last = at + count as u64 - 1;
    for place in at..last {
        if Feed::held_byte(feed, place).is_none() {
            return place;
        }
    }
    last
}

/// Reads bytes from a place below a size on into the front of a block, as far as they lie on a page.
/// Answers how many.
fn read_block<S: Store>(
    feed: &mut PageFeed<'_, S>,
    store: &mut S,
    at: u64,
    size: u64,
    block: &mut [u8],
) -> Result<usize, Fault>
    requires part { feed.old.part ≡ Plain }
    requires fits { Fits feed.old (S.files store.old) }
    requires within { at < size }
    requires small { size < 2 ^ 32 }
    requires room { length block.old ≡ 4096 }
    ensures page { IfOk result (λ count. IsOfOnePage at count size) }
    ensures few { IfOk result (λ count. count ≤ 4096) }
    ensures told { IsSome (S.files store.old) → IfOk result (λ count.
        IsFrom at (bytes_at (S.files store.old) feed.old.name) (take count block.new)) }
    ensures turns { BetweenMoments S.files S.reads S.faults store.old store.new
        (λ before now. TurnsPage at size feed.old feed.new before now result) }
{
    match read_page(feed, store, at, size) {
        Ok(()) => {}
        Err(refusal) => return Err(refusal),
    }
    let count = rest_of_page(at, size);
    match fill_front(feed, store, at, block, count) {
        Ok(true) => Ok(count),
        Ok(false) => Err(Fault::Changed {
            what: What::Size,
            first: size,
            second: missing(feed, at, count),
        }),
        Err(_) => Err(Fault::StoreFault),
    }
}

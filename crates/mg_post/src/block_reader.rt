//! A reader of the blocks of a list.
ghost use Rattle.std.specs.Prelude.{◌≡◌, ◌*◌, ◌<◌, ◌≤◌, IfOk, OnErr};
ghost use Rattle.mg_bits.specs.Feed.{device_of};
ghost use Rattle.mg_bits.specs.Pages.{Fits, feeding_of};
ghost use Rattle.mg_post.specs.Entering.{BeginsBlocks, CountsPages, EntersFound, IsUnread};
ghost use Rattle.mg_post.specs.Reading.{ReadsFeed};

use crate::block::Block;
use crate::enter::{Inside, ListPlace, enter};
use crate::find::Found;
use crate::refusal::Refusal;
use mg_bits::{BitReader, PageFeed};
use mg_dev::{FileRef, Part, Store};
use std::alloc::{AllocError, Global};
use std::mem::swap;

/// Reads the blocks of a list that a cursor enters: the reader of Post, the block that was entered
/// last, room for the next one, and the pages of the blocks that were entered.
#[derive(Drop)]
pub struct BlockReader<'a, S: Store> {
    pub reader: BitReader<PageFeed<'a, S>>,
    pub block: Block,
    pub spare: Block,
    pub entered: u64,
}

/// A reader of a part of a set, which has read nothing.
pub fn part_reader<'a, S: Store>(
    alloc: Global,
    base: &'a str,
    part: Part,
) -> Result<BitReader<PageFeed<'a, S>>, AllocError>
    ensures { IfOk result (λ r. IsUnread base.entry.now part r.feed) }
{
    match PageFeed::new(alloc, FileRef { base, part }) {
        Ok(feed) => Ok(BitReader::new(feed, 0)),
        Err(lack) => Err(lack),
    }
}

impl<'a, S: Store> BlockReader<'a, S> {
    /// A reader of blocks of Post that has entered none.
    pub fn start(alloc: Global, base: &'a str) -> Result<Self, AllocError>
        ensures { IfOk result (λ r.
            BeginsBlocks base.entry.now r.reader.feed r.block r.entered) }
    {
        let reader = match part_reader(alloc, base, Part::Post) {
            Ok(reader) => reader,
            Err(lack) => return Err(lack),
        };
        let block = match Block::new(alloc) {
            Ok(block) => block,
            Err(lack) => return Err(lack),
        };
        match Block::new(alloc) {
            Ok(spare) => Ok(BlockReader {
                reader,
                block,
                spare,
                entered: 0,
            }),
            Err(lack) => Err(lack),
        }
    }

    /// Enters the block that was found for a document, at its first posting from the document on. A
    /// refusal leaves the block that was entered before.
    pub fn enter(
        &mut self,
        store: &mut S,
        list: &ListPlace,
        found: Found,
        doc: u32,
    ) -> Result<Inside, Refusal>
        requires fits { Fits self.old.reader.feed (S.files store.old) }
        requires before { found.before ≤ list.now.all }
        requires there { 64 * found.block < list.now.docs }
        ensures read { ReadsFeed (EntersFound list.now found doc self.new.block) Fits
            (feeding_of 4096) (device_of S.files S.reads S.faults) self.old.reader self.new.reader
            store.old store.new result }
        ensures kept { OnErr result (self.new.block ≡ self.old.block) }
        ensures counted { CountsPages result self.old.reader.feed self.new.reader.feed
            self.old.entered self.new.entered }
    {
        let before = self.reader.feed().reads();
        match enter(&mut self.reader, store, &mut self.spare, list, found, doc) {
            Err(refusal) => {
                let read = self.reader.feed().reads() - before;
                self.entered = self.entered.saturating_add(read);
                Err(refusal)
            }
            Ok(inside) => {
                swap(&mut self.block, &mut self.spare);
                self.entered = self.entered.saturating_add(inside.pages);
                Ok(inside)
            }
        }
    }
}

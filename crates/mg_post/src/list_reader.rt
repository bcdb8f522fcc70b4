//! A reader of whole lists.
ghost use Rattle.std.specs.Prelude.{◌≡◌, ◌+◌, ◌-◌, ◌*◌, ◌<◌, ◌≤◌, ◌^◌, Option, IfOk, length, min};
ghost use Rattle.mg_dev.specs.Files.{Files};
ghost use Rattle.mg_dev.specs.Moments.{Between};
ghost use Rattle.mg_dev.specs.Names.{full_name};
ghost use Rattle.mg_dev.specs.declared.part.Part.TheVariants as part;
ghost use Rattle.mg_bits.specs.Pages.{Fits};
ghost use Rattle.mg_post.specs.ListReading.{OpensList, ReadStep};

use crate::block::Block;
use crate::block_reader::part_reader;
use crate::bounds::DocBounds;
use crate::enter::place_or_most;
use crate::parameter::{Parameter, parameter_for};
use crate::refusal::refused_part;
use mg_bits::{BitReader, PageFeed};
use mg_defs::Posting;
use mg_dev::{Part, PartErr, Store};
use mg_layout::TermInfo;
use std::alloc::{AllocError, Global};
use std::marker::Model;

/// Reads whole lists of a set, one list after the other.
///
/// The blocks of a list follow one another, so no skip entry is asked. It keeps one page of Post and
/// the postings of one block from list to list: of lists that lie on one page, the page is read once,
/// and a list more takes no memory.
///
/// Contracts see the bit behind the blocks that were read, the last document of these, and the
/// postings at hand. A damage is told of Post, at the first bit of a gap or a count that isn't there.
#[derive(Drop)]
pub struct ListReader<'a, S: Store> {
    post: BitReader<PageFeed<'a, S>>,
    docs: u32,
    parameter: Parameter,
    all: u32,
    reached: u32,
    last: u32,
    block: Block,
}

impl<'a, S: Store> Model for ListReader<'a, S> {
    ghost use Rattle.std.specs.Prelude.{◌≡◌, ◌≤◌, ◌<◌, ◌^◌};
    ghost use Rattle.mg_dev.specs.declared.part.Part.TheVariants as part;
    ghost use Rattle.mg_defs.specs.Lists.{block_count};
    ghost use Rattle.mg_post.specs.Cursor.{HeldRises};
    ghost use Rattle.mg_post.specs.ListReading.{ListReading};

    ghost Value = { ListReading };

    ghost view = { λ r. record {
      post = r.post.feed;
      place = r.post.place;
      docs = r.docs;
      parameter = r.parameter.value;
      all = r.all;
      reached = r.reached;
      last = r.last;
      held = r.block;
    } };

    ghost invariant = { λ r. (r.last ≤ r.all) × (r.reached ≤ block_count r.docs) ×
        (r.post.feed.part ≡ part.Post) × HeldRises r.all r.last r.block };
}

impl<'a, S: Store> ListReader<'a, S> {
    /// A reader of the lists of a base, in a set with so many documents. It is over no list yet.
    pub fn start(alloc: Global, base: &'a str, all: u32) -> Result<Self, AllocError>
        ensures post { IfOk result (λ r. r.post.name ≡ full_name base.entry.now part.Post) }
        ensures all { IfOk result (λ r. r.all ≡ all) }
        ensures fits { IfOk result (λ r. (files : Option Files) → Fits r.post files) }
    {
        let post = part_reader(alloc, base, Part::Post)?;
        let block = Block::new(alloc)?;
        Ok(ListReader {
            post,
            docs: 0,
            parameter: parameter_for(all, 0),
            all,
            reached: 0,
            last: 0,
            block,
        })
    }

    /// Stands before the first posting of the list that the lexicon tells of. Nothing is read.
    pub fn open(&mut self, info: &TermInfo)
        ensures { OpensList info.now self.old self.new }
    {
        self.post.seek(place_or_most(info.post_at, 0));
        self.docs = info.docs;
        self.parameter = parameter_for(self.all, info.docs);
        self.reached = 0;
        self.last = 0;
        self.block.clear();
    }

    /// Goes to the next posting: the first one before any was asked for. None after the last.
    #[inline]
    pub fn next(&mut self, store: &mut S) -> Result<Option<Posting>, PartErr>
        requires fits { Fits self.old.post (S.files store.old) }
        ensures { Between S.files S.reads S.faults store.old store.new
            (ReadStep self.old self.new result) }
    {
        match self.block.step() {
            Some(posting) => Ok(Some(posting)),
            None => self.read_next(store),
        }
    }

    /// Goes to the first posting of the next block. It stands apart so that `next` is short within a
    /// block.
    #[inline(never)]
    fn read_next(&mut self, store: &mut S) -> Result<Option<Posting>, PartErr>
        requires fits { Fits self.old.post (S.files store.old) }
        requires few { length self.old.held ≤ 1 }
        ensures { Between S.files S.reads S.faults store.old store.new
            (ReadStep self.old self.new result) }
    {
        let docs = u64::from(self.docs);
        let passed = 64 * u64::from(self.reached);
        if docs <= passed {
            return Ok(None);
        }
        let count = (docs - passed).min(64) as usize;
        let bounds = DocBounds {
            after: self.last,
            most: self.all,
        };
        match self
            .block
            .fill(&mut self.post, store, self.parameter, bounds, count)
        {
            Ok(last) => {
                self.reached += 1;
                self.last = last;
                Ok(self.block.current())
            }
            Err(refusal) => {
                self.block.clear();
                Err(refused_part(refusal, Part::Post))
            }
        }
    }
}

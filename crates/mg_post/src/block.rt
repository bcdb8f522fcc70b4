//! The postings of one block, from the current one on.
ghost use Rattle.std.specs.Prelude.{◌≡◌, ◌-◌, ◌<◌, ◌≤◌, ◌^◌, List, [], length, take, drop, IfOk};
ghost use Rattle.mg_defs.specs.declared.Posting.{Posting};
ghost use Rattle.mg_post.specs.Cursor.{head_of, forward_to, GoesOn};
ghost use Rattle.mg_post.specs.Reading.{FillsBlock};

use crate::bounds::DocBounds;
use crate::parameter::Parameter;
use crate::read::read_block;
use crate::refusal::Refusal;
use mg_bits::{BitReader, Feed};
use mg_defs::Posting;
use std::alloc::{AllocError, Global};
use std::marker::Model;

/// The postings of a block, of which those before the current one were passed.
#[derive(Drop)]
pub struct Block {
    postings: Vec<Posting>,
    len: usize,
    index: usize,
}

impl Model for Block {
    ghost use Rattle.std.specs.Prelude.{◌≡◌, ◌≤◌, take, drop, length, List};
    ghost use Rattle.mg_defs.specs.declared.Posting.{Posting};

    ghost Value = { List Posting };

    ghost view = { λ b. drop b.index (take b.len b.postings.items) };

    ghost invariant = { λ b. (length b.postings.items ≡ 64) × (b.len ≤ 64) × (b.index ≤ b.len) };
}

/// The first place, from `from` on, whose document is at least `doc`.
fn first_from(postings: &Vec<Posting>, len: usize, from: usize, doc: u32) -> usize
    requires len { len ≤ length postings.now.items }
    requires from { from ≤ len }
    ensures within { result ≤ len }
    ensures left { drop result (take len postings.now.items)
        ≡ forward_to doc (drop from (take len postings.now.items)) }
{
    for i in from..len {
        if doc <= postings[i].doc {
            return i;
        }
    }
    len
}

impl Block {
    pub fn new(alloc: Global) -> Result<Self, AllocError>
        ensures { IfOk result (λ b. b ≡ []) }
    {
        let postings = vec![in alloc; Posting { doc: 0, freq: 0 }; 64]?;
        Ok(Block {
            postings,
            len: 0,
            index: 0,
        })
    }

    /// The current posting.
    pub fn current(&self) -> Option<Posting>
        ensures { result ≡ head_of self.now }
    {
        if self.index < self.len {
            Some(self.postings[self.index])
        } else {
            None
        }
    }

    /// Leaves no posting.
    pub fn clear(&mut self)
        ensures { self.new ≡ [] }
    {
        self.index = self.len;
    }

    /// Goes to the posting after the current one, where the block has one.
    pub fn step(&mut self) -> Option<Posting>
        ensures { GoesOn result self.old self.new }
    {
        if self.index + 1 < self.len {
            self.index += 1;
            Some(self.postings[self.index])
        } else {
            None
        }
    }

    /// Goes to the first posting whose document is at least `doc`.
    pub fn forward(&mut self, doc: u32)
        ensures { self.new ≡ forward_to doc self.old }
    {
        self.index = first_from(&self.postings, self.len, self.index, doc);
    }

    /// Reads so many postings of documents within bounds. Answers the last document.
    pub fn fill<F: Feed>(
        &mut self,
        r: &mut BitReader<F>,
        dev: &mut F::Dev,
        parameter: Parameter,
        bounds: DocBounds,
        count: usize,
    ) -> Result<u32, Refusal>
        requires fits { F.fits r.old.feed (F.device dev.old).files }
        requires room { count ≤ 64 }
        ensures { FillsBlock bounds.most parameter.value bounds.after count self.new F.fits
            F.feeding F.device r.old r.new dev.old dev.new result }
    {
        match read_block(r, dev, parameter, bounds, count, &mut self.postings) {
            Ok(last) => {
                self.len = count;
                self.index = 0;
                Ok(last)
            }
            Err(refusal) => Err(refusal),
        }
    }
}

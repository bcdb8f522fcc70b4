//! Entering a block.
ghost use Rattle.std.specs.Prelude.{◌≡◌, ◌+◌, ◌-◌, ◌*◌, ◌<◌, ◌≤◌, ◌^◌, min};
ghost use Rattle.mg_defs.specs.PagesOf.{pages};
ghost use Rattle.mg_post.specs.Cursor.{IsPlace};
ghost use Rattle.mg_post.specs.Reading.{FeedsPages, ReadsFeed};
ghost use Rattle.mg_post.specs.Entering.{EntersFound, IsListTold};

use crate::block::Block;
use crate::bounds::DocBounds;
use crate::find::Found;
use crate::parameter::{Parameter, parameter_for};
use crate::refusal::Refusal;
use mg_bits::{BitReader, Feed};
use mg_defs::Posting;
use mg_layout::TermInfo;

/// The posting where a block was entered, and the pages of the block.
#[derive(Clone, Copy, Debug, PartialEq, Eq)]
pub struct Inside {
    pub posting: Posting,
    pub pages: u64,
}

/// A list: the byte of Post where it begins, the number of its first skip entry, how many postings it
/// has, its parameter, and the number of documents.
#[derive(Clone, Copy)]
pub struct ListPlace {
    pub post_at: u64,
    pub skip_at: u32,
    pub docs: u32,
    pub parameter: Parameter,
    pub all: u32,
}

/// The list that the lexicon tells of, in a set with so many documents.
pub fn list_told(info: &TermInfo, all: u32) -> ListPlace
    ensures { IsListTold info.now all result }
{
    ListPlace {
        post_at: info.post_at,
        skip_at: info.skip_at,
        docs: info.docs,
        parameter: parameter_for(all, info.docs),
        all,
    }
}

/// How many pages of 4,096 bytes have a bit of a range.
fn pages_of(from: u64, to: u64) -> u64
    ensures { result ≡ pages from to }
{
    if from < to {
        (to - 1) / 32768 - from / 32768 + 1
    } else {
        0
    }
}

/// The place of so many bits behind a byte.
fn place_of(byte: u64, bits: u64) -> Option<u64>
    ensures { IsPlace result byte bits }
{
    if byte > 1 << 60 {
        return None;
    }
    (8 * byte).checked_add(bits)
}

/// The place of so many bits behind a byte, or 2^64 - 1 where it is more.
pub fn place_or_most(byte: u64, bits: u64) -> u64
    ensures { result ≡ min (8 * byte + bits) (2 ^ 64 - 1) }
{
    byte.saturating_mul(8).saturating_add(bits)
}

/// Reads the block that was found of a list, and goes to its first posting whose document is at least
/// `doc`. A block that doesn't end with the document that its skip entry tells is refused, so that
/// documents rise from block to block over any parts.
pub fn enter<F: Feed>(
    r: &mut BitReader<F>,
    dev: &mut F::Dev,
    block: &mut Block,
    list: &ListPlace,
    found: Found,
    doc: u32,
) -> Result<Inside, Refusal>
    requires feed { FeedsPages F.fits F.feeding F.device r.old dev.old }
    requires before { found.before ≤ list.now.all }
    requires there { 64 * found.block < list.now.docs }
    ensures { ReadsFeed (EntersFound list.now found doc block.new) F.fits F.feeding F.device
        r.old r.new dev.old dev.new result }
{
    let Some(place) = place_of(list.post_at, found.at) else {
        return Err(Refusal::Damaged {
            at: place_or_most(list.post_at, found.at),
        });
    };
    r.seek(place);
    let left = (list.docs - 64 * found.block) as usize;
    let bounds = DocBounds {
        after: found.before,
        most: list.all,
    };
    match block.fill(r, dev, list.parameter, bounds, left.min(64)) {
        Ok(last) => {
            if last != found.last {
                return Err(Refusal::Damaged { at: place });
            }
            block.forward(doc);
            match block.current() {
                Some(posting) => {
                    let pages = pages_of(place, r.place());
                    Ok(Inside { posting, pages })
                }
                None => Err(Refusal::Damaged { at: place }),
            }
        }
        Err(refusal) => Err(refusal),
    }
}

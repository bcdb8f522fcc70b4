//! The block of a document, by the skip entries.
//!
//! The entries of a list rise, so a page of them is passed by a look at its last one, and within a
//! page the entry is found by halves. Each page is read at most once, and in rising order: over a
//! cursor's life the reads of Skip are at most the pages of the list's entries.
//!
//! An entry that is read and does not rise is damage. So a search for the next document finds the
//! next block over any entries, and none only where all blocks were reached.
ghost use Rattle.std.specs.Prelude.{◌≡◌, ◌+◌, ◌*◌, ◌%◌, ◌<◌, ◌≤◌, ◌^◌, Some};
ghost use Rattle.mg_post.specs.Finding.{SkipReads, entry_page};
ghost use Rattle.mg_post.specs.Reading.{FeedsPages, ReadsFeed};
ghost use Rattle.mg_post.specs.Searching.{ReadsBits, ReadsLast, ReadsNumber, SearchesBlock, SearchesPage};

use crate::bounds::DocBounds;
use crate::refusal::{Refusal, refused_bits};
use mg_bits::{BitReader, Feed};

/// A block, with the last document before it, its own last document, and the bits of the list
/// before it.
#[derive(Clone, Copy, Debug, PartialEq, Eq)]
pub struct Found {
    pub block: u32,
    pub before: u32,
    pub last: u32,
    pub at: u64,
}

/// The search for the block of a document: the number of the list's first skip entry, how many
/// blocks the list has, those from `reached` on that are searched, the last document before these,
/// the number of documents, and the document, which may be one more than a list can have.
#[derive(Clone, Copy)]
pub struct SkipSearch {
    pub skip_at: u32,
    pub blocks: u32,
    pub reached: u32,
    pub last: u32,
    pub all: u32,
    pub doc: u64,
}

/// The blocks from `low` to `high`, whose entries lie on one page, with the last document before
/// them and their own last document.
#[derive(Clone, Copy)]
pub struct PageBlocks {
    pub low: u32,
    pub high: u32,
    pub before: u32,
    pub last: u32,
}

/// The number of 8 bytes at a place.
fn number_at<F: Feed>(r: &mut BitReader<F>, dev: &mut F::Dev, place: u64) -> Result<u64, Refusal>
    requires feed { FeedsPages F.fits F.feeding F.device r.old dev.old }
    requires place { place < 2 ^ 42 }
    requires whole { place % 64 ≡ 0 }
    ensures { ReadsFeed (ReadsNumber place) F.fits F.feeding F.device r.old r.new dev.old dev.new
        result }
{
    r.seek(place);
    match r.bits(dev, 64) {
        Ok(number) => Ok(number),
        Err(refusal) => Err(refused_bits(refusal, place)),
    }
}

/// The place of the skip entry of a block.
fn entry_place(skip_at: u32, block: u32) -> u64
    ensures value { result ≡ 128 * (skip_at + block) }
{
    128 * (u64::from(skip_at) + u64::from(block))
}

/// The last document of a block, by its skip entry. One that is not within the bounds is refused.
fn last_of<F: Feed>(
    r: &mut BitReader<F>,
    dev: &mut F::Dev,
    skip_at: u32,
    block: u32,
    bounds: DocBounds,
) -> Result<u32, Refusal>
    requires { FeedsPages F.fits F.feeding F.device r.old dev.old }
    ensures { ReadsFeed (ReadsLast skip_at block bounds.after bounds.most) F.fits F.feeding F.device
        r.old r.new dev.old dev.new result }
{
    let place = entry_place(skip_at, block);
    match number_at(r, dev, place) {
        Ok(last) => {
            if last <= u64::from(bounds.after) {
                return Err(Refusal::Damaged { at: place });
            }
            if last > u64::from(bounds.most) {
                return Err(Refusal::Damaged { at: place });
            }
            Ok(last as u32)
        }
        Err(refusal) => Err(refusal),
    }
}

/// The bits of a list before a block, by the block's skip entry.
fn bits_of<F: Feed>(
    r: &mut BitReader<F>,
    dev: &mut F::Dev,
    skip_at: u32,
    block: u32,
) -> Result<u64, Refusal>
    requires { FeedsPages F.fits F.feeding F.device r.old dev.old }
    ensures { ReadsFeed (ReadsBits skip_at block) F.fits F.feeding F.device
        r.old r.new dev.old dev.new result }
{
    let place = entry_place(skip_at, block) + 64;
    number_at(r, dev, place)
}

/// The last block whose entry lies on the page of a block's entry.
fn page_end(skip_at: u32, block: u32, blocks: u32) -> u32
    requires { block < blocks }
    ensures from { block ≤ result }
    ensures there { result < blocks }
    ensures page { entry_page (skip_at + result) ≡ entry_page (skip_at + block) }
{
    let behind = 255 - (u64::from(skip_at) + u64::from(block)) % 256;
    let end = u64::from(block) + behind;
    let most = u64::from(blocks - 1);
    if end < most { end as u32 } else { blocks - 1 }
}

/// The first of the blocks of a page whose last document is at least that which is searched. The
/// page with their entries is held. An entry that is read has to tell a document behind those of the
/// blocks that are passed, and before that of a later block that was read.
fn search_page<F: Feed>(
    r: &mut BitReader<F>,
    dev: &mut F::Dev,
    search: &SkipSearch,
    page: PageBlocks,
) -> Result<Found, Refusal>
    requires feed { FeedsPages F.fits F.feeding F.device r.old dev.old }
    requires order { page.low ≤ page.high }
    requires one_page { entry_page (search.now.skip_at + page.low)
        ≡ entry_page (search.now.skip_at + page.high) }
    requires held { (F.feeding r.old.feed).held
        ≡ Some (entry_page (search.now.skip_at + page.high)) }
    requires known { page.before ≤ search.now.all }
    requires below { page.before < search.now.doc }
    requires within { search.now.doc ≤ page.last }
    requires most { page.last ≤ search.now.all }
    ensures { ReadsFeed (SearchesPage search.now page) F.fits F.feeding F.device
        r.old r.new dev.old dev.new result }
{
    let mut from = page.low;
    let mut to = page.high;
    let mut passed = page.before;
    let mut end = page.last;
    let mut middle = page.low;
    while from < to {
        let bounds = DocBounds {
            after: passed,
            most: end - 1,
        };
        match last_of(r, dev, search.skip_at, middle, bounds) {
            Ok(here) => {
                if search.doc <= u64::from(here) {
                    to = middle;
                    end = here;
                } else {
                    from = middle + 1;
                    passed = here;
                }
            }
            Err(refusal) => return Err(refusal),
        }
        middle = from + (to - from) / 2;
    }
    match bits_of(r, dev, search.skip_at, to) {
        Ok(at) => Ok(Found {
            block: to,
            before: passed,
            last: end,
            at,
        }),
        Err(refusal) => Err(refusal),
    }
}

/// The block whose range holds the document that is searched; None where all blocks end before it.
pub fn find_block<F: Feed>(
    r: &mut BitReader<F>,
    dev: &mut F::Dev,
    search: &SkipSearch,
) -> Result<Option<Found>, Refusal>
    requires feed { FeedsPages F.fits F.feeding F.device r.old dev.old }
    requires reached { search.now.reached ≤ search.now.blocks }
    requires known { search.now.last ≤ search.now.all }
    requires below { search.now.last < search.now.doc }
    requires reads { SkipReads search.now.skip_at search.now.reached
        (F.feeding r.old.feed).held (F.feeding r.old.feed).count }
    ensures { ReadsFeed (SearchesBlock search.now) F.fits F.feeding F.device
        r.old r.new dev.old dev.new result }
{
    let mut low = search.reached;
    let mut before = search.last;
    while low < search.blocks {
        let high = page_end(search.skip_at, low, search.blocks);
        let bounds = DocBounds {
            after: before,
            most: search.all,
        };
        match last_of(r, dev, search.skip_at, high, bounds) {
            Ok(last) => {
                if search.doc <= u64::from(last) {
                    let page = PageBlocks {
                        low,
                        high,
                        before,
                        last,
                    };
                    return match search_page(r, dev, search, page) {
                        Ok(found) => Ok(Some(found)),
                        Err(refusal) => Err(refusal),
                    };
                }
                low = high + 1;
                before = last;
            }
            Err(refusal) => return Err(refusal),
        }
    }
    Ok(None)
}

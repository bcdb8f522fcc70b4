//! How far a cursor went in its list, and what is searched from there.
ghost use Rattle.std.specs.Prelude.{◌≡◌};
ghost use Rattle.mg_defs.specs.Lists.{block_count};
ghost use Rattle.mg_post.specs.Searching.{search_in};

use crate::enter::ListPlace;
use crate::find::SkipSearch;

/// How far a cursor went: how many blocks it passed or entered, the last document of these, and whether
/// it went past the last posting.
#[derive(Clone, Copy)]
pub struct Progress {
    pub reached: u32,
    pub last: u32,
    pub ended: bool,
}

/// How many blocks so many postings have.
fn count_blocks(docs: u32) -> u32
    ensures { result ≡ block_count docs }
{
    ((u64::from(docs) + 63) / 64) as u32
}

/// The search for the block of a document among those of a list that were not reached.
pub fn search_from(list: &ListPlace, progress: &Progress, doc: u64) -> SkipSearch
    ensures { result ≡ search_in list.now progress.now doc }
{
    SkipSearch {
        skip_at: list.skip_at,
        blocks: count_blocks(list.docs),
        reached: progress.reached,
        last: progress.last,
        all: list.all,
        doc,
    }
}

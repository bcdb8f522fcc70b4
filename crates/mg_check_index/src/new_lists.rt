//! Lists that are written anew, and compared with Post and Skip as they are written.
ghost use Rattle.std.specs.Prelude.{◌≤◌, List, [], IfOk};
ghost use Rattle.mg_dev.specs.Moments.{Between};
ghost use Rattle.mg_defs.specs.Limits.{version_2};
ghost use Rattle.mg_defs.specs.declared.Posting.{Posting};
ghost use Rattle.mg_post.specs.Writing.{Took};
ghost use Rattle.mg_check_parts.specs.Looks.{LooksAtSet};
ghost use Rattle.mg_check_index.specs.PairCalls.{LooksOnly};

use crate::lists::Places;
use crate::pair_lists::{finish_compared, lists_pair, start_compared};
use crate::pair_store::WrittenPair;
use mg_dev::{PartErr, Store};
use mg_post::ListWriter;
use std::alloc::Global;

/// Lists that are written anew, and what was written of Post and of Skip.
#[derive(Drop)]
pub(crate) struct NewLists<'a> {
    pub(crate) pair: WrittenPair<'a>,
    pub(crate) writer: ListWriter<'static>,
}

impl<'a> NewLists<'a> {
    ghost use Rattle.mg_check_index.specs.Anew.{EndsFollowing, FindsFollowing, FollowsPlaces, ForWritten, GoesToPair, IsNewLists, RefutesFollowing};
    ghost use Rattle.mg_check_index.specs.InPair.{pair_files};
    ghost use Rattle.mg_check_index.specs.Listing.{ArePlaces};

    /// No list among so many documents, to be compared with Post and Skip from two places on.
    pub(crate) fn start<S: Store>(
        alloc: Global,
        store: &mut S,
        base: &'a str,
        before: Places,
        all: u32,
    ) -> Result<Self, PartErr>
        requires all { all ≤ version_2.documents }
        requires places { ArePlaces before }
        ensures new { IfOk result
            (IsNewLists (S.files store.old) all base.entry.now before) }
        ensures looks { Between S.files S.reads S.faults store.old store.new (LooksOnly result) }
    {
        let mut pair = lists_pair(alloc, base, before);
        match start_compared(alloc, store, &mut pair, all) {
            Ok(writer) => Ok(NewLists { pair, writer }),
            Err(refusal) => Err(refusal),
        }
    }

    /// Writes what is held, and sees that the lists stand in Post and Skip from two places on. Answers the places behind
    /// them.
    pub(crate) fn compare<S: Store>(
        &mut self,
        store: &mut S,
        base: &str,
        before: Places,
    ) -> Result<Places, PartErr>
        requires took { (done : List (List Posting))
            × Took self.old.writer (pair_files (S.files store.old) self.old.pair) done [] }
        requires goes { GoesToPair self.old.writer self.old.pair }
        requires follows { FollowsPlaces self.old.pair base.now before }
        ensures stand { ForWritten self.old.writer (pair_files (S.files store.old) self.old.pair)
            (FindsFollowing (S.files store.old) base.now self.old.writer.all before result) }
        ensures other { ForWritten self.old.writer (pair_files (S.files store.old) self.old.pair)
            (RefutesFollowing (S.files store.old) base.now self.old.writer.all before result) }
        ensures behind { ForWritten self.old.writer (pair_files (S.files store.old) self.old.pair)
            (EndsFollowing (S.files store.old) self.old.writer.all before result) }
        ensures places { IfOk result (λ after. ArePlaces after) }
        ensures looks { Between S.files S.reads S.faults store.old store.new (LooksAtSet result) }
    {
        match finish_compared(store, &mut self.pair, &mut self.writer) {
            Ok(()) => {}
            Err(refusal) => return Err(refusal),
        }
        let post = match self.pair.one.finish(store) {
            Ok(post) => post,
            Err(refusal) => return Err(refusal),
        };
        match self.pair.other.finish(store) {
            Ok(skip) => Ok(Places { post, skip }),
            Err(refusal) => Err(refusal),
        }
    }
}

//! Lists into a store that compares them, told by the store with which it compares.
ghost use Rattle.std.specs.Prelude.{◌≡◌, ◌≤◌, List, []};
ghost use Rattle.mg_dev.specs.Moments.{Between};
ghost use Rattle.mg_defs.specs.Limits.{version_2};
ghost use Rattle.mg_defs.specs.declared.Posting.{Posting};
ghost use Rattle.mg_post.specs.Writing.{Took};
ghost use Rattle.mg_check_index.specs.Anew.{FollowsPlaces, GoesToPair};
ghost use Rattle.mg_check_index.specs.InPair.{all_looks, looks_in, pair_files};
ghost use Rattle.mg_check_index.specs.Listing.{ArePlaces};
ghost use Rattle.mg_check_index.specs.PairCalls.{AreListFiles, CanWriteList, ComparesList, FinishesLists, SameReferences, StartsLists};

use crate::list_written::{refusal_of, write_list};
use crate::lists::Places;
use crate::packed_postings::Postings;
use crate::pair_store::{PairStore, WrittenPair};
use crate::written_part::WrittenPart;
use mg_dev::{FileRef, Part, PartErr, Store};
use mg_post::ListWriter;
use std::alloc::Global;

/// The base of the files that are written.
const BASE: &str = "w";

/// Post and Skip from two places on, of which nothing was written.
pub(crate) fn lists_pair<'b>(alloc: Global, base: &'b str, before: Places) -> WrittenPair<'b>
    requires places { ArePlaces before }
    ensures follows { FollowsPlaces result base.entry.now before }
    ensures files { AreListFiles result }
{
    let post = FileRef {
        base,
        part: Part::Post,
    };
    let skip = FileRef {
        base,
        part: Part::Skip,
    };
    WrittenPair::new(
        WrittenPart::new(alloc, post, before.post, "w.post"),
        WrittenPart::new(alloc, skip, before.skip, "w.skip"),
    )
}

// A writer of lists among so many documents, into a store that compares them.
fn start_into<S: Store>(
    alloc: Global,
    into: &mut PairStore<'_, '_, '_, S>,
    all: u32,
) -> Result<ListWriter<'static>, PartErr>
    requires unread { all_looks (looks_in into.old.looks) ≡ 0 }
    requires all { all ≤ version_2.documents }
    requires files { AreListFiles into.old.pair.now }
    ensures same { SameReferences into.old.store.ghost_name into.old.pair.ghost_name
        into.new.store.ghost_name into.new.pair.ghost_name }
    ensures started { Between S.files S.reads S.faults into.old.store.now into.new.store.now
        (StartsLists all into.old.pair.now into.new.pair.now result) }
{
    match ListWriter::start(alloc, into, BASE, all) {
        Ok(writer) => Ok(writer),
        Err(refusal) => Err(refusal_of(refusal)),
    }
}

// A whole list of so many postings, into a store that compares it.
fn write_into<S: Store>(
    into: &mut PairStore<'_, '_, '_, S>,
    writer: &mut ListWriter<'_>,
    postings: &Postings<'_>,
    count: u32,
    all: u32,
) -> Result<(u64, u32), PartErr>
    requires unread { all_looks (looks_in into.old.looks) ≡ 0 }
    requires can { CanWriteList writer.old
        (pair_files (S.files into.old.store.now) into.old.pair.now) count all }
    ensures same { SameReferences into.old.store.ghost_name into.old.pair.ghost_name
        into.new.store.ghost_name into.new.pair.ghost_name }
    ensures compared { Between S.files S.reads S.faults into.old.store.now into.new.store.now
        (ComparesList postings.now count all writer.old writer.new into.old.pair.now
        into.new.pair.now result) }
{
    write_list(writer, into, postings, count, all)
}

// Writes what a writer holds into a store that compares it.
fn finish_into<S: Store>(
    into: &mut PairStore<'_, '_, '_, S>,
    writer: &mut ListWriter<'_>,
) -> Result<(), PartErr>
    requires unread { all_looks (looks_in into.old.looks) ≡ 0 }
    requires took { (done : List (List Posting)) × Took writer.old
        (pair_files (S.files into.old.store.now) into.old.pair.now) done [] }
    requires goes { GoesToPair writer.old into.old.pair.now }
    ensures same { SameReferences into.old.store.ghost_name into.old.pair.ghost_name
        into.new.store.ghost_name into.new.pair.ghost_name }
    ensures finished { Between S.files S.reads S.faults into.old.store.now into.new.store.now
        (FinishesLists writer.old writer.new into.old.pair.now into.new.pair.now result) }
{
    match writer.finish(into) {
        Ok(_) => Ok(()),
        Err(refusal) => Err(refusal_of(refusal)),
    }
}

/// A writer of lists among so many documents, which are compared with two parts as they are written.
pub(crate) fn start_compared<S: Store>(
    alloc: Global,
    store: &mut S,
    pair: &mut WrittenPair<'_>,
    all: u32,
) -> Result<ListWriter<'static>, PartErr>
    requires all { all ≤ version_2.documents }
    requires files { AreListFiles pair.old }
    ensures started { Between S.files S.reads S.faults store.old store.new
        (StartsLists all pair.old pair.new result) }
{
    let mut into = PairStore {
        store,
        pair,
        looks: [0; 14],
    };
    start_into(alloc, &mut into, all)
}

/// A whole list of so many postings, which is compared as it is written. Answers the byte where it begins and the number of
/// its first skip entry.
pub(crate) fn write_compared<S: Store>(
    store: &mut S,
    pair: &mut WrittenPair<'_>,
    writer: &mut ListWriter<'_>,
    postings: &Postings<'_>,
    count: u32,
    all: u32,
) -> Result<(u64, u32), PartErr>
    requires can { CanWriteList writer.old (pair_files (S.files store.old) pair.old) count all }
    ensures compared { Between S.files S.reads S.faults store.old store.new
        (ComparesList postings.now count all writer.old writer.new pair.old pair.new result) }
{
    let mut into = PairStore {
        store,
        pair,
        looks: [0; 14],
    };
    write_into(&mut into, writer, postings, count, all)
}

/// Writes what a writer holds, and compares it as it is written.
pub(crate) fn finish_compared<S: Store>(
    store: &mut S,
    pair: &mut WrittenPair<'_>,
    writer: &mut ListWriter<'_>,
) -> Result<(), PartErr>
    requires took { (done : List (List Posting))
        × Took writer.old (pair_files (S.files store.old) pair.old) done [] }
    requires goes { GoesToPair writer.old pair.old }
    ensures finished { Between S.files S.reads S.faults store.old store.new
        (FinishesLists writer.old writer.new pair.old pair.new result) }
{
    let mut into = PairStore {
        store,
        pair,
        looks: [0; 14],
    };
    finish_into(&mut into, writer)
}

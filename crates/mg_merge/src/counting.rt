//! The first pass over two texts.
//!
//! The pieces of a text are told by its symbols, so that no byte has to be looked at. That is so of texts that stand, and is
//! promised of them alone. Where such a count does not come to its end, the bytes are counted: then it is told why.
ghost use Rattle.std.specs.Prelude.{◌≤◌, ℕ, List, [], IfOk, IfSome, OnOk};
ghost use Rattle.mg_defs.specs.Limits.{greatest_budget, least_budget};
ghost use Rattle.mg_make.specs.Counting.{HasCounted};
ghost use Rattle.mg_make.specs.Outcomes.{BetweenMoments};
ghost use Rattle.mg_make.specs.Plans.{IsPlan, IsPlanOf, IsRoomFor};
ghost use Rattle.mg_merge.specs.Counted.{CountsTexts, TalliesTexts};
ghost use Rattle.mg_merge.specs.Passes.{AreAllGiven};
ghost use Rattle.mg_merge.specs.Texts.{TextsFit, TextsStand};

use crate::documents::Documents;
use crate::retelling::{too_long, too_short};
use mg_count::plan_of_counts;
use mg_dev::{Failed, Fault, Store};
use mg_make::{Count, Plan, Room};
use mg_text::PieceCounts;
use std::alloc::Global;

// Whether so many documents, whose pieces have so many bytes, have the size that the heads tell; and whether the last one
// has a pair where no byte closes it. Nothing is promised of it.
fn has_size(documents: u32, bytes: u64, open_end: bool, last: u32, size: u64) -> bool {
    let closed = bytes.saturating_add(u64::from(documents));
    if open_end {
        return last > 0 && closed == size.saturating_add(1);
    }
    closed == size
}

// The plan of two texts by the symbols of their pieces, and its room. None where these are not counted to the end, or where
// the documents have another size than the heads tell.
fn tallied<'a, S: Store, D: Documents<'a, S>>(
    alloc: Global,
    store: &mut S,
    texts: &mut D,
    budget: u64,
) -> Result<Option<(Plan, Room)>, Failed>
    requires least { least_budget ≤ budget }
    requires most { budget ≤ greatest_budget }
    requires fits { TextsFit (D.texts texts.old) (S.files store.old) }
    ensures plan { IfOk result (λ found. IfSome found (λ made. IsPlan made.0)) }
    ensures room { IfOk result (λ found. IfSome found (λ made. IsRoomFor made.1 made.0 budget)) }
    ensures of { (collection : List ℕ) → TextsStand (D.texts texts.old)
        (S.files store.old) collection →
        IfOk result (λ found. IfSome found (λ made. IsPlanOf made.0 collection)) }
    ensures tallies { BetweenMoments S.files S.reads S.faults store.old store.new (λ before now.
        TalliesTexts (D.texts texts.old) (D.texts texts.new) before now result) }
{
    let pieces = texts.have_pieces();
    if !pieces {
        return Ok(None);
    }
    let (all, size, open_end) = (texts.documents(), texts.size(), texts.has_open_end());
    let mut counts = PieceCounts::new(alloc);
    let done = match texts.count(alloc, store, &mut counts) {
        Ok(done) => done,
        Err(failed) => return Err(failed),
    };
    if !done {
        return Ok(None);
    }
    let whole = has_size(all, counts.bytes(), open_end, counts.last_pairs(), size);
    if !whole {
        return Ok(None);
    }
    let (pieces, pairs) = counts.into_parts();
    match plan_of_counts(alloc, pieces, pairs, open_end, budget) {
        Ok(made) => Ok(Some(made)),
        Err(_) => Ok(None),
    }
}

// Counts each document of the texts.
fn count_documents<'a, S: Store, D: Documents<'a, S>>(
    store: &mut S,
    texts: &mut D,
    count: &mut Count,
) -> Result<(), Fault>
    requires fits { TextsFit (D.texts texts.old) (S.files store.old) }
    requires nothing { HasCounted count.old [] }
    ensures counted { OnOk result ((fed : List ℕ) × AreAllGiven (D.texts texts.old)
        (S.files store.old) fed × HasCounted count.new fed) }
    ensures counts { BetweenMoments S.files S.reads S.faults store.old store.new (λ before now.
        CountsTexts (D.texts texts.old) (D.texts texts.new) before now result) }
{
    let size = texts.size();
    let mut left = size;
    for index in 0..texts.documents() {
        match texts.read(store, index + 1, left) {
            Ok(()) => {}
            Err(refusal) => return Err(refusal),
        }
        let found = texts.bytes().len() as u64;
        if found > left {
            return Err(Fault::Damaged(too_long(size - left, left, found)));
        }
        match count.take_all(texts.bytes()) {
            Ok(()) => {}
            Err(refusal) => return Err(refusal),
        }
        left -= found;
    }
    if left > 0 {
        return Err(Fault::Damaged(too_short(size - left, left)));
    }
    Ok(())
}

// What is counted in all documents of the texts.
fn counted<'a, S: Store, D: Documents<'a, S>>(
    alloc: Global,
    store: &mut S,
    texts: &mut D,
) -> Result<Count, Fault>
    requires fits { TextsFit (D.texts texts.old) (S.files store.old) }
    ensures counted { IfOk result (λ count. (fed : List ℕ) × AreAllGiven (D.texts texts.old)
        (S.files store.old) fed × HasCounted count fed) }
    ensures counts { BetweenMoments S.files S.reads S.faults store.old store.new (λ before now.
        CountsTexts (D.texts texts.old) (D.texts texts.new) before now result) }
{
    let mut count = Count::new(alloc);
    count_documents(store, texts, &mut count).and(Ok(count))
}

// Counts the bytes of two texts, and makes all that the second pass takes of memory, with a pool of so many bytes.
fn count_bytes<'a, S: Store, D: Documents<'a, S>>(
    alloc: Global,
    store: &mut S,
    texts: &mut D,
    budget: u64,
) -> Result<(Plan, Room), Fault>
    requires least { least_budget ≤ budget }
    requires most { budget ≤ greatest_budget }
    requires fits { TextsFit (D.texts texts.old) (S.files store.old) }
    ensures plan { IfOk result (λ made. IsPlan made.0) }
    ensures room { IfOk result (λ made. IsRoomFor made.1 made.0 budget) }
    ensures of { (collection : List ℕ) → TextsStand (D.texts texts.old)
        (S.files store.old) collection → IfOk result (λ made. IsPlanOf made.0 collection) }
    ensures counts { BetweenMoments S.files S.reads S.faults store.old store.new (λ before now.
        CountsTexts (D.texts texts.old) (D.texts texts.new) before now result) }
{
    match counted(alloc, store, texts) {
        Ok(count) => count.finish(alloc, budget),
        Err(refusal) => Err(refusal),
    }
}

/// Counts two texts, and makes all that the second pass takes of memory, with a pool of so many bytes.
pub(crate) fn count_all<'a, S: Store, D: Documents<'a, S>>(
    alloc: Global,
    store: &mut S,
    texts: &mut D,
    budget: u64,
) -> Result<(Plan, Room), Fault>
    requires least { least_budget ≤ budget }
    requires most { budget ≤ greatest_budget }
    requires fits { TextsFit (D.texts texts.old) (S.files store.old) }
    ensures plan { IfOk result (λ made. IsPlan made.0) }
    ensures room { IfOk result (λ made. IsRoomFor made.1 made.0 budget) }
    ensures of { (collection : List ℕ) → TextsStand (D.texts texts.old)
        (S.files store.old) collection → IfOk result (λ made. IsPlanOf made.0 collection) }
    ensures counts { BetweenMoments S.files S.reads S.faults store.old store.new (λ before now.
        CountsTexts (D.texts texts.old) (D.texts texts.new) before now result) }
{
    let found = match tallied(alloc, store, texts, budget) {
        Ok(found) => found,
        Err(_) => return Err(Fault::StoreFault),
    };
    match found {
        Some(made) => Ok(made),
        None => count_bytes(alloc, store, texts, budget),
    }
}

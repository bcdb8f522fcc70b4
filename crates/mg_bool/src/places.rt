//! All places of a query.
ghost use Rattle.std.specs.Prelude.{◌≡◌, ℕ, ◌≤◌, ◌<◌, true, false, List, Option, None, IfOk, IfSome};
ghost use Rattle.std.specs.Prelude.{get_or, length, slice_index_or, slice_set};
ghost use Rattle.mg_dev.specs.Files.{Files};
ghost use Rattle.mg_dev.specs.Moments.{Between};
ghost use Rattle.mg_bool.specs.Calls.{PlacesCall, SkipsWithin, skips_read};
ghost use Rattle.mg_bool.specs.Places.{IsInRange, PlaceOn, PlacesFit, PlacesOn, pages_read, PlaceAnswers, PlaceReads, nth_place};
ghost use Rattle.mg_bool.specs.Places.{StartPlaces, PlacesAnswer, PlacesRead, FindsFirst, TakesFound, comes_sooner, is_first};
ghost use Rattle.mg_bool.specs.Shown.{AllAsked, AreLists, FirstAsked, PlaceAsked, PlacesStand};

use crate::laws::cursors_are_within;
use crate::place::Place;
use mg_dev::{PartErr, Store};
use mg_layout::TermInfo;
use std::alloc::{AllocError, Global};

/// Whether it is this document.
fn is_at(found: Option<u32>, doc: u32) -> bool
    ensures { result ≡ is_first (Some doc) found }
{
    match found {
        Some(found) => found == doc,
        None => false,
    }
}

/// Asks one place for a document.
#[inline]
pub(crate) fn ask_at<S: Store>(
    places: &mut Vec<Place<'_, S>>,
    store: &mut S,
    i: usize,
    doc: u32,
) -> Result<Option<u32>, PartErr>
    requires there { i < length places.old.items }
    requires fits { PlacesFit (S.files store.old) places.old.items }
    requires some { 1 ≤ doc }
    ensures places { places.new.items ≡ slice_set places.old.items i
        (slice_index_or places.new.items i None) }
    ensures call { Between S.files S.reads S.faults store.old store.new
        (PlacesCall places.old.items places.new.items result) }
    ensures answer { PlaceAnswers doc (S.files store.old) (nth_place places.old.items i)
        (nth_place places.new.items i) result }
    ensures pages { PlaceReads doc (S.files store.old) (nth_place places.old.items i)
        (nth_place places.new.items i) (S.reads store.old) (S.reads store.new) }
    ensures shows { PlaceAsked (nth_place places.old.items i) (nth_place places.new.items i)
        (S.files store.old) (S.files store.new) doc result }
    ensures range { (base : List ℕ) (all : ℕ) → PlaceOn base all (nth_place places.old.items i) →
        IfOk result (λ found. IfSome found (IsInRange doc all)) }
{
    let place = &mut places[i];
    place.ask(store, doc)
}

/// Asks every place for a document, and leaves in `there` whether the place's list has it.
pub(crate) fn ask_all<S: Store>(
    places: &mut Vec<Place<'_, S>>,
    store: &mut S,
    doc: u32,
    there: &mut Vec<bool>,
) -> Result<(), PartErr>
    requires size { length there.old.items ≡ length places.old.items }
    requires fits { PlacesFit (S.files store.old) places.old.items }
    requires some { 1 ≤ doc }
    ensures size { length there.new.items ≡ length there.old.items }
    ensures call { Between S.files S.reads S.faults store.old store.new
        (PlacesCall places.old.items places.new.items result) }
    ensures answer { PlacesAnswer doc (S.files store.old) places.old.items places.new.items
        there.new.items result }
    ensures pages { PlacesRead doc (S.files store.old) places.old.items places.new.items
        (S.reads store.old) (S.reads store.new) }
    ensures shows { AllAsked places.old.items places.new.items (S.files store.old)
        (S.files store.new) doc there.new.items result }
{
    cursors_are_within();
    for i in 0..places.len() {
        match ask_at(places, store, i, doc) {
            Ok(found) => there[i] = is_at(found, doc),
            Err(refusal) => return Err(refusal),
        }
    }
    Ok(())
}

/// Whether a document was found, and comes before the first one so far.
fn is_sooner(found: Option<u32>, first: Option<u32>) -> bool
    ensures { result ≡ comes_sooner found first }
{
    match (found, first) {
        (Some(found), Some(first)) => found < first,
        (Some(_), None) => true,
        (None, _) => false,
    }
}

/// Whether the document that was found is the first one.
fn is_same(found: Option<u32>, first: Option<u32>) -> bool
    ensures { result ≡ is_first first found }
{
    match first {
        Some(first) => is_at(found, first),
        None => false,
    }
}

/// Says of the first so many lists that they have no such document.
fn clear_first(there: &mut Vec<bool>, count: usize)
    requires { count ≤ length there.old.items }
    ensures size { length there.new.items ≡ length there.old.items }
    ensures none { (k : ℕ) → k < count → get_or there.new.items k true ≡ false }
{
    for i in 0..count {
        there[i] = false;
    }
}

/// The first document of all lists up to `i`, by that of those before and the one that was found in
/// list `i`; and in `there` which of these lists have it.
#[inline]
fn take_found(
    found: Option<u32>,
    first: Option<u32>,
    i: usize,
    there: &mut Vec<bool>,
) -> Option<u32>
    requires { i < length there.old.items }
    ensures size { length there.new.items ≡ length there.old.items }
    ensures first { TakesFound found i first there.old.items result there.new.items }
    ensures range { (doc all : ℕ) → IfSome found (IsInRange doc all) →
        IfSome first (IsInRange doc all) → IfSome result (IsInRange doc all) }
{
    if is_sooner(found, first) {
        clear_first(there, i);
        there[i] = true;
        return found;
    }
    there[i] = is_same(found, first);
    first
}

/// Asks every place for its first document from one on. The least of these is the answer, and
/// `there` tells which lists have it.
pub(crate) fn ask_first<S: Store>(
    places: &mut Vec<Place<'_, S>>,
    store: &mut S,
    from: u32,
    there: &mut Vec<bool>,
) -> Result<Option<u32>, PartErr>
    requires size { length there.old.items ≡ length places.old.items }
    requires fits { PlacesFit (S.files store.old) places.old.items }
    requires some { 1 ≤ from }
    ensures size { length there.new.items ≡ length there.old.items }
    ensures call { Between S.files S.reads S.faults store.old store.new
        (PlacesCall places.old.items places.new.items result) }
    ensures range { (base : List ℕ) (all : ℕ) → PlacesOn base all places.old.items →
        IfOk result (λ first. IfSome first (IsInRange from all)) }
    ensures answer { FindsFirst from (S.files store.old) places.old.items places.new.items
        there.new.items result }
    ensures pages { PlacesRead from (S.files store.old) places.old.items places.new.items
        (S.reads store.old) (S.reads store.new) }
    ensures shows { FirstAsked places.old.items places.new.items (S.files store.old)
        (S.files store.new) from there.new.items result }
{
    cursors_are_within();
    let mut first = None;
    for i in 0..places.len() {
        match ask_at(places, store, i, from) {
            Ok(found) => first = take_found(found, first, i, there),
            Err(refusal) => return Err(refusal),
        }
    }
    Ok(first)
}

/// A place for each term of which these are told, each before the first posting of its list.
pub(crate) fn start_all<'a, S: Store>(
    alloc: Global,
    base: &'a str,
    infos: &[Option<TermInfo>],
    all: u32,
) -> Result<Vec<Place<'a, S>>, AllocError>
    ensures size { IfOk result (λ places. length places.items ≡ length infos.now) }
    ensures over { IfOk result (λ places. StartPlaces base.entry.now infos.now all places.items) }
    ensures on { IfOk result (λ places. PlacesOn base.entry.now all places.items) }
    ensures fits { IfOk result (λ places. (files : Option Files) → PlacesFit files places.items) }
    ensures lists { IfOk result (λ places. AreLists base.entry.now infos.now all places.items) }
    ensures stands { IfOk result (λ places. (files : Option Files) (n : ℕ) →
        PlacesStand files places.items n) }
    ensures nothing { IfOk result (λ places. pages_read places.items ≡ 0) }
    ensures unread { IfOk result (λ places. skips_read places.items ≡ 0) }
    ensures within { IfOk result (λ places. SkipsWithin places.items) }
{
    let mut places = Vec::new(alloc);
    for info in infos {
        let place = Place::start(alloc, base, info, all)?;
        places.push(place)?;
    }
    Ok(places)
}

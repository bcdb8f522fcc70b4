//! The next document that satisfies a query.
ghost use Rattle.std.specs.Prelude.{◌≡◌, ℕ, ◌+◌, ◌<◌, List, IfOk, IfSome, length};
ghost use Rattle.mg_dev.specs.Moments.{Between};
ghost use Rattle.mg_defs.specs.Sat.{Query as Meant};
ghost use Rattle.mg_query.specs.QueryOf.{query_of};
ghost use Rattle.mg_bool.specs.Calls.{PlacesCall};
ghost use Rattle.mg_bool.specs.Places.{IsInRange, PlacesFit, PlacesOn};
ghost use Rattle.mg_bool.specs.Matches.{IsWithin, FindsCandidate, ReadsNext};
ghost use Rattle.mg_bool.specs.Shown.{PlacesStand, ShowsCandidate};
ghost use Rattle.mg_bool.specs.Walked.{IsReady, Walked, spot};

use crate::any::next_of_any;
use crate::laws::cursors_are_within;
use crate::place::Place;
use crate::places::{ask_all, ask_at};
use crate::walk::{Asks, Walk};
use crate::word::next_of_word;
use mg_dev::{PartErr, Store};
use mg_query::Query;

/// The next document that may satisfy the query: of the list that leads, or any where none does.
fn candidate<S: Store>(
    places: &mut Vec<Place<'_, S>>,
    store: &mut S,
    lead: Option<usize>,
    decided: u32,
    all: u32,
) -> Result<Option<u32>, PartErr>
    requires fits { PlacesFit (S.files store.old) places.old.items }
    requires on { (base : List ℕ) × PlacesOn base all places.old.items }
    requires lead { IsWithin lead (length places.old.items) }
    requires more { decided < all }
    ensures range { IfOk result (λ found. IfSome found (IsInRange (decided + 1) all)) }
    ensures call { Between S.files S.reads S.faults store.old store.new
        (PlacesCall places.old.items places.new.items result) }
    ensures answer { (q : Meant) → FindsCandidate q (S.files store.old) lead all places.old.items
        places.new.items decided result }
    ensures pages { (q : Meant) → ReadsNext q S.files S.reads store.old store.new lead all
        places.old.items places.new.items decided }
    ensures shows { PlacesStand (S.files store.old) places.old.items (decided + 1) →
        IfOk result (λ found. ShowsCandidate (S.files store.old) places.old.items lead decided found
        × PlacesStand (S.files store.new) places.new.items (decided + 1)) }
{
    cursors_are_within();
    let Some(place) = lead else {
        return Ok(Some(decided + 1));
    };
    ask_at(places, store, place, decided + 1)
}

/// The next document that satisfies a query, each candidate asked of every place.
#[inline(never)]
fn next_asked<S: Store>(
    asks: &Asks<'_>,
    walk: &mut Walk<'_, S>,
    store: &mut S,
) -> Result<Option<u32>, PartErr>
    requires { IsReady (S.files store.old) asks.now.lead asks.now.all (spot walk.old) }
    ensures { Between S.files S.reads S.faults store.old store.new
        (Walked (query_of asks.now.query.now) asks.now.lead asks.now.all (spot walk.old)
        (spot walk.new) result) }
{
    cursors_are_within();
    while walk.decided < asks.all {
        let doc = match candidate(&mut walk.places, store, asks.lead, walk.decided, asks.all) {
            Ok(Some(doc)) => doc,
            Ok(None) => {
                walk.decided = asks.all;
                return Ok(None);
            }
            Err(refusal) => return Err(refusal),
        };
        match ask_all(&mut walk.places, store, doc, &mut walk.there) {
            Ok(()) => {}
            Err(refusal) => return Err(refusal),
        }
        walk.decided = doc;
        if asks.query.holds(&walk.there) {
            return Ok(Some(doc));
        }
    }
    Ok(None)
}

/// The next document from 1 to all that satisfies the query.
#[inline]
pub(crate) fn next_match<S: Store>(
    asks: &Asks<'_>,
    walk: &mut Walk<'_, S>,
    store: &mut S,
) -> Result<Option<u32>, PartErr>
    requires { IsReady (S.files store.old) asks.now.lead asks.now.all (spot walk.old) }
    ensures { Between S.files S.reads S.faults store.old store.new
        (Walked (query_of asks.now.query.now) asks.now.lead asks.now.all (spot walk.old)
        (spot walk.new) result) }
{
    if let (Query::Term(_), Some(place)) = (asks.query, asks.lead) {
        if walk.decided < asks.all {
            let found = match next_of_word(&mut walk.places, store, place, asks.all, walk.decided) {
                Ok(found) => found,
                Err(refusal) => return Err(refusal),
            };
            walk.decided = found.unwrap_or(asks.all);
            return Ok(found);
        }
    }
    if asks.lead.is_none() && !asks.query.holds(&[]) {
        return next_of_any(asks, walk, store);
    }
    next_asked(asks, walk, store)
}

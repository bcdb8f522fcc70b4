//! The next document of a query of one word.
ghost use Rattle.std.specs.Prelude.{◌≡◌, ℕ, ◌+◌, ◌<◌, List, Some, IfOk, IfSome, length};
ghost use Rattle.mg_dev.specs.Moments.{Between};
ghost use Rattle.mg_defs.specs.Sat.{term};
ghost use Rattle.mg_bool.specs.Calls.{PlacesCall};
ghost use Rattle.mg_bool.specs.Places.{IsInRange, PlacesFit, PlacesOn};
ghost use Rattle.mg_bool.specs.Matches.{decided_by, FindsNext, ReadsNext};
ghost use Rattle.mg_bool.specs.Shown.{PlacesStand, ShowsCandidate};

use crate::laws::cursors_are_within;
use crate::place::Place;
use crate::places::ask_at;
use mg_dev::{PartErr, Store};

/// The next document of the only list of a query of one word: it is the next one that satisfies the
/// query, so that nothing is asked twice. Where none is left all are decided.
#[inline]
pub(crate) fn next_of_word<S: Store>(
    places: &mut Vec<Place<'_, S>>,
    store: &mut S,
    place: usize,
    all: u32,
    decided: u32,
) -> Result<Option<u32>, PartErr>
    requires fits { PlacesFit (S.files store.old) places.old.items }
    requires on { (base : List ℕ) × PlacesOn base all places.old.items }
    requires place { place < length places.old.items }
    requires more { decided < all }
    ensures range { IfOk result (λ found. IfSome found (IsInRange (decided + 1) all)) }
    ensures call { Between S.files S.reads S.faults store.old store.new
        (PlacesCall places.old.items places.new.items result) }
    ensures answer { (t : List ℕ) → FindsNext (term t) (S.files store.old) (Some place) all
        places.old.items places.new.items decided (decided_by all) result }
    ensures pages { (t : List ℕ) → ReadsNext (term t) S.files S.reads store.old store.new
        (Some place) all places.old.items places.new.items decided }
    ensures shows { PlacesStand (S.files store.old) places.old.items (decided + 1) →
        IfOk result (λ found. ShowsCandidate (S.files store.old) places.old.items (Some place)
        decided found × PlacesStand (S.files store.new) places.new.items (decided + 1)) }
{
    cursors_are_within();
    ask_at(places, store, place, decided + 1)
}

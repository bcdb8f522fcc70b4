//! Where documents begin in the text.
ghost use Rattle.std.specs.Prelude.{◌≡◌, ◌*◌, ◌≤◌, ◌<◌, ◌^◌, IfOk, IsSome, Some};
ghost use Rattle.mg_dev.specs.Causes.{HasCause};
ghost use Rattle.mg_dev.specs.Files.{bytes_at};
ghost use Rattle.mg_bits.specs.Pages.{Fits};
ghost use Rattle.mg_defs.specs.Numbers.{eight, four};
ghost use Rattle.mg_text.specs.Decoding.{IsReadCaused, Takes};
ghost use Rattle.mg_text.specs.Places.{place_width, ForPlace, AnswersNumber, LooksUp, NumberStands, StoodNumber};

use mg_bits::PageFeed;
use mg_dev::{Bad, Failed, Part, PartErr, Store};
use mg_fields::{eight_at, four_at};

// The last byte from which a document is read.
const LAST: u64 = 1 << 60;

/// How many bytes a place has in a version of the files.
pub fn width_of(version: u8) -> u64
    ensures { result ≡ place_width version }
{
    if version == 1 { 4 } else { 8 }
}

// A place of four bytes; None where the part ends before it.
fn narrow_place<S: Store>(
    places: &mut PageFeed<'_, S>,
    store: &mut S,
    index: u32,
) -> Result<Option<u64>, Failed>
    requires fits { Fits places.old (S.files store.old) }
    ensures read { LooksUp
        (AnswersNumber places.old (S.files store.old) 4 index four (2 ^ 32) result)
        (λ before now. HasCause before now result) places.old places.new S.files S.reads S.faults
        store.old store.new }
    ensures stood { StoodNumber places.old (S.files store.old) 4 index result }
{
    let mut bytes = [0u8; 4];
    match places.fill(store, 4 * u64::from(index), &mut bytes) {
        Ok(true) => Ok(Some(u64::from(four_at(&bytes, 0)))),
        Ok(false) => Ok(None),
        Err(failed) => Err(failed),
    }
}

// A place of eight bytes; None where the part ends before it.
fn wide_place<S: Store>(
    places: &mut PageFeed<'_, S>,
    store: &mut S,
    index: u32,
) -> Result<Option<u64>, Failed>
    requires fits { Fits places.old (S.files store.old) }
    ensures read { LooksUp
        (AnswersNumber places.old (S.files store.old) 8 index eight (2 ^ 64) result)
        (λ before now. HasCause before now result) places.old places.new S.files S.reads S.faults
        store.old store.new }
    ensures stood { StoodNumber places.old (S.files store.old) 8 index result }
{
    let mut bytes = [0u8; 8];
    match places.fill(store, 8 * u64::from(index), &mut bytes) {
        Ok(true) => Ok(Some(eight_at(&bytes, 0))),
        Ok(false) => Ok(None),
        Err(failed) => Err(failed),
    }
}

// The place of a number, counted from 0; None where the part ends before it.
fn read_place<S: Store>(
    places: &mut PageFeed<'_, S>,
    store: &mut S,
    version: u8,
    index: u32,
) -> Result<Option<u64>, Failed>
    requires fits { Fits places.old (S.files store.old) }
    ensures read { LooksUp (ForPlace places.old (S.files store.old) version index
        (λ p. IfOk result (λ place. place ≡ Some p)))
        (λ before now. HasCause before now result) places.old places.new S.files S.reads S.faults
        store.old store.new }
    ensures stood { StoodNumber places.old (S.files store.old) (place_width version) index result }
{
    if version == 1 {
        return narrow_place(places, store, index);
    }
    wide_place(places, store, index)
}

/// The byte of a text of so many bytes where a document begins, counted from 0.
pub fn first_byte<S: Store>(
    places: &mut PageFeed<'_, S>,
    store: &mut S,
    version: u8,
    size: u64,
    index: u32,
) -> Result<u64, PartErr>
    requires fits { Fits places.old (S.files store.old) }
    ensures read { LooksUp (ForPlace places.old (S.files store.old) version index
        (λ p. p ≤ size → p ≤ 2 ^ 60 → Takes result (λ from. from ≡ p) (Unit {0})))
        (IsReadCaused result) places.old places.new S.files S.reads S.faults store.old store.new }
    ensures small { IfOk result (λ from. from ≤ 2 ^ 60) }
    ensures stood { IsSome (S.files store.old) → IfOk result (λ from.
        NumberStands (place_width version) index from
        (bytes_at (S.files store.old) places.old.name)) }
    ensures within { IfOk result (λ from. from ≤ size) }
{
    let high = size.min(LAST);
    match read_place(places, store, version, index) {
        Ok(Some(from)) => {
            if from <= high {
                return Ok(from);
            }
            Err(PartErr::Bad(Bad {
                part: Part::Places,
                at: width_of(version) * u64::from(index),
                low: 0,
                high,
                found: from,
            }))
        }
        Ok(None) => Err(PartErr::Bad(Bad {
            part: Part::Places,
            at: width_of(version) * u64::from(index),
            low: 1,
            high: 1,
            found: 0,
        })),
        Err(_) => Err(PartErr::Device),
    }
}

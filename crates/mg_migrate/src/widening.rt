//! Numbers of four bytes as numbers of eight.
ghost use Rattle.std.specs.Prelude.{◌≡◌, ◌≢◌, OnOk};
ghost use Rattle.mg_dev.specs.Names.{full_name};
ghost use Rattle.mg_dev.specs.declared.part.Part.TheVariants.{Places};
ghost use Rattle.mg_bits.specs.Pages.{Fits, SameFile};
ghost use Rattle.mg_migrate.specs.Copying.{AreSomeNarrow, AreWide, ForNumberAt, ForNarrow, HasSomeFour, PutsEight, PutsEights};
ghost use Rattle.mg_migrate.specs.Writing.{WritesFile};

use crate::bases::Bases;
use mg_bits::{PageFeed, PageWriter};
use mg_dev::{Bad, Fault, FileRef, Part, Store};
use mg_fields::{eight_bytes, four_at};
use mg_layout::expect_size;
use std::alloc::Global;

// Writes the number in the four bytes at an index in eight.
fn widen_one<S: Store>(
    store: &mut S,
    places: &mut PageFeed<'_, S>,
    wide: &mut PageWriter<'_>,
    index: u32,
) -> Result<(), Fault>
    requires fits { Fits places.old (S.files store.old) }
    requires apart { places.old.name ≢ wide.old.name }
    ensures written { ForNumberAt (S.files store.old) places.old.name index
        (PutsEight wide.old wide.new (S.files store.old) (S.files store.new) result) }
    ensures fits { Fits places.new (S.files store.new) }
    ensures file { SameFile places.old places.new }
    ensures name { wide.new.name ≡ wide.old.name }
    ensures writes { WritesFile wide.old.name
        (HasSomeFour (S.files store.old) places.old.name index) result S.Store store.old
        store.new }
{
    let mut bytes = [0u8; 4];
    let place = 4 * u64::from(index);
    match places.fill(store, place, &mut bytes) {
        Ok(true) => {}
        Ok(false) => {
            return Err(Fault::Damaged(Bad {
                part: Part::Places,
                at: place,
                low: 1,
                high: 1,
                found: 0,
            }));
        }
        Err(_) => return Err(Fault::StoreFault),
    }
    let number = u64::from(four_at(&bytes, 0));
    match wide.put_all(store, &eight_bytes(number)) {
        Ok(()) => Ok(()),
        Err(refusal) => Err(Fault::of_store(refusal)),
    }
}

// Writes so many numbers of a file, four bytes each, in eight.
fn widen_all<S: Store>(
    store: &mut S,
    places: &mut PageFeed<'_, S>,
    wide: &mut PageWriter<'_>,
    count: u32,
) -> Result<(), Fault>
    requires fits { Fits places.old (S.files store.old) }
    requires apart { places.old.name ≢ wide.old.name }
    ensures written { ForNarrow (S.files store.old) places.old.name count
        (PutsEights wide.old wide.new (S.files store.old) (S.files store.new) result) }
    ensures name { wide.new.name ≡ wide.old.name }
    ensures writes { WritesFile wide.old.name
        (AreSomeNarrow (S.files store.old) places.old.name count) result S.Store store.old
        store.new }
{
    for index in 0..count {
        match widen_one(store, places, wide, index) {
            Ok(()) => {}
            Err(refusal) => return Err(refusal),
        }
    }
    Ok(())
}

// Makes a file of so many numbers, eight bytes each, from one that was opened, four bytes each.
fn widen_to<S: Store>(
    alloc: Global,
    store: &mut S,
    places: &mut PageFeed<'_, S>,
    to: FileRef<'_>,
    count: u32,
) -> Result<(), Fault>
    requires fits { Fits places.old (S.files store.old) }
    requires apart { places.old.name ≢ full_name to.base.now to.part }
    ensures widened { ForNarrow (S.files store.old) places.old.name count (λ numbers.
        OnOk result
        (AreWide (S.files store.new) (full_name to.entry.base.now to.entry.part) numbers)) }
    ensures writes { WritesFile (full_name to.entry.base.now to.entry.part)
        (AreSomeNarrow (S.files store.old) places.old.name count) result S.Store store.old
        store.new }
{
    let mut wide = match PageWriter::start(alloc, store, to) {
        Ok(wide) => wide,
        Err(refusal) => return Err(Fault::of_store(refusal)),
    };
    match widen_all(store, places, &mut wide, count) {
        Ok(()) => {}
        Err(refusal) => return Err(refusal),
    }
    match wide.finish(store) {
        Ok(()) => Ok(()),
        Err(refusal) => Err(Fault::of_store(refusal)),
    }
}

/// Makes the places of a base, eight bytes each, from so many of another, four bytes each.
pub(crate) fn widen_places<S: Store>(
    alloc: Global,
    store: &mut S,
    bases: &Bases<'_>,
    count: u32,
) -> Result<(), Fault>
    ensures widened { ForNarrow (S.files store.old) (full_name bases.now.name.now Places) count
        (λ numbers. OnOk result
        (AreWide (S.files store.new) (full_name bases.now.new.now Places) numbers)) }
    ensures writes { WritesFile (full_name bases.now.new.now Places)
        (AreSomeNarrow (S.files store.old) (full_name bases.now.name.now Places) count) result
        S.Store store.old store.new }
{
    let from = FileRef {
        base: bases.name,
        part: Part::Places,
    };
    let to = FileRef {
        base: bases.new,
        part: Part::Places,
    };
    match expect_size(store, from, 4 * u64::from(count)) {
        Ok(()) => {}
        Err(refusal) => return Err(Fault::from(refusal)),
    }
    let mut places = match PageFeed::new(alloc, from) {
        Ok(places) => places,
        Err(_) => return Err(Fault::Memory),
    };
    widen_to(alloc, store, &mut places, to, count)
}

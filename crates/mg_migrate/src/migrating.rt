//! A set of either version made anew in version 2, without its collection.
//!
//! Every part but the head and the places is the same in both versions and is copied. The head of the new set is
//! emptied first and appended last, so that what is left in between stands for no collection.
ghost use Rattle.std.specs.Prelude.{◌≡◌, ◌≤◌, ℕ, List, IfErr, IfOk, OnOk, IsSome, length};
ghost use Rattle.mg_dev.specs.Causes.{Rose};
ghost use Rattle.mg_dev.specs.Faults.{ReadStops};
ghost use Rattle.mg_dev.specs.Files.{file_at};
ghost use Rattle.mg_dev.specs.Names.{full_name};
ghost use Rattle.mg_dev.specs.Runs.{status_of};
ghost use Rattle.mg_dev.specs.declared.part.Part.{Part as AnyPart};
ghost use Rattle.mg_dev.specs.declared.part.Part.TheVariants as part;
ghost use Rattle.mg_defs.specs.Heads.{IsWithin};
ghost use Rattle.mg_defs.specs.Split.{documents};
ghost use Rattle.mg_layout.specs.HeadAnswers.{fields_of};
ghost use Rattle.mg_layout.specs.Stands.{ForSetBy, IsSetBy, Stands};
ghost use Rattle.mg_make.specs.Putting.{IsUnbuilt};
ghost use Rattle.mg_make.specs.Outcomes.{BetweenMoments};
ghost use Rattle.mg_migrate.specs.MadeAnew.{MadeAnew};
ghost use Rattle.mg_migrate.specs.MadeFrom.{MadeFrom};
ghost use Rattle.mg_migrate.specs.Migrating.{AreCopied, AreEmptied, HasWidePlaces, IsCopied, IsMadeAnew, LacksHead, ReadyForHead};
ghost use Rattle.mg_migrate.specs.Writing.{WritesFile, WritesSet};

use crate::bases::Bases;
use crate::copying::{Block, copy_part, empty_part};
use crate::sizes::load_sized;
use crate::widening::widen_places;
use mg_dev::{Fault, Part, Store, names_apart};
use mg_layout::{BUILT, Head, sets_stand};
use mg_make::{empty_heads_stand_for_none, heads_make_sets};
use std::alloc::Global;

/// The parts that are the same in both versions.
const COPIED: [Part; 9] = [
    Part::Words,
    Part::Nonwords,
    Part::Text,
    Part::Lex,
    Part::LexAt,
    Part::Post,
    Part::Skip,
    Part::Weights,
    Part::Run,
];

/// Makes a set of version 2 under one base from the set under another, of either version, and answers how many
/// documents it has. The other set stays as it is. The sizes that follow from its head are compared before anything
/// is written; what its parts mean is not looked at.
///
/// # Errors
///
/// `SameName` where both bases are the same, `NotBuilt` where the set has no head, `Damaged` where a part has another
/// size than follows from the head; then nothing was written. `Damaged` only where the set stands for no collection;
/// the store's faults, and want of memory.
pub fn migrate<S: Store>(alloc: Global, store: &mut S, name: &str, new: &str) -> Result<u32, Fault>
    ensures made_anew { BetweenMoments S.files S.reads S.faults store.old store.new
        (λ before now. MadeAnew name.now new.now before now (status_of result)) }
    // At `Ok` it answers how many documents the collection has.
    ensures documents { (collection : List ℕ) → Stands (S.files store.old) name.now collection →
        IfOk result (λ count. count ≡ length (documents collection)) }
    ensures later { S.faults store.old ≤ S.faults store.new }
{
    if new == name {
        return Err(Fault::SameName);
    }
    let head = match load_sized(store, name) {
        Ok(head) => head,
        Err(fault) => return Err(fault),
    };
    let bases = Bases { name, new };
    match make_set(alloc, store, &bases, &head) {
        Ok(()) => Ok(head.documents),
        Err(fault) => Err(fault),
    }
}

// Copies the parts that are the same in both versions.
fn copy_parts<S: Store>(store: &mut S, bases: &Bases<'_>, block: &mut Block) -> Result<(), Fault>
    ensures copied { IsSome (S.files store.old) →
        OnOk result (AreCopied bases.now.name.now bases.now.new.now (S.files store.old)
        (S.files store.new)) }
    ensures kept { (p : AnyPart) → IsMadeAnew p →
        file_at (S.files store.new) (full_name bases.now.new.now p)
        ≡ file_at (S.files store.old) (full_name bases.now.new.now p) }
    ensures writes { WritesSet bases.now.new.now (IsSome (S.files store.old)) result S.Store
        store.old store.new }
{
    // By this law no part of one base is a part of the other.
    names_apart();
    let mut index = 0;
    while index < COPIED.len() {
        match copy_part(store, bases, COPIED[index], block) {
            Ok(()) => {}
            Err(refusal) => return Err(refusal),
        }
        index += 1;
    }
    Ok(())
}

// Makes the places: copied in version 2, and in version 1 widened.
fn copy_places<S: Store>(
    alloc: Global,
    store: &mut S,
    bases: &Bases<'_>,
    head: &Head,
    block: &mut Block,
) -> Result<(), Fault>
    requires { IsWithin (fields_of head.now) }
    ensures places { ForSetBy head.now (S.files store.old) bases.now.name.now
        (λ code collection. OnOk result
        (HasWidePlaces (S.files store.new) bases.now.new.now code collection)) }
    ensures copied { IsSome (S.files store.old) → head.now.version ≡ 2 →
        OnOk result (IsCopied bases.now.name.now bases.now.new.now (S.files store.old)
        (S.files store.new) part.Places) }
    ensures writes { WritesFile (full_name bases.now.new.now part.Places)
        (IsSetBy head.now (S.files store.old) bases.now.name.now) result S.Store store.old
        store.new }
{
    if head.version == 1 {
        return widen_places(alloc, store, bases, head.documents + 1);
    }
    copy_part(store, bases, Part::Places, block)
}

// Empties the head first, and the working parts.
#[tactic(auto, using(mg_dev::specs::Laws::file_laws))]
fn empty_parts<S: Store>(store: &mut S, new: &str) -> Result<(), Fault>
    ensures emptied { IsSome (S.files store.old) →
        OnOk result (AreEmptied (S.files store.new) new.now) }
    ensures unbuilt { IsUnbuilt new.now (S.files store.old) (S.files store.new) }
    ensures writes { WritesSet new.now (Unit {0}) result S.Store store.old store.new }
{
    match empty_part(store, new, Part::Head) {
        Ok(()) => {}
        Err(refusal) => return Err(refusal),
    }
    match empty_part(store, new, Part::MergeA) {
        Ok(()) => {}
        Err(refusal) => return Err(refusal),
    }
    empty_part(store, new, Part::MergeB)
}

// Makes every part but the head, which is emptied first.
fn make_parts<S: Store>(
    alloc: Global,
    store: &mut S,
    bases: &Bases<'_>,
    head: &Head,
    block: &mut Block,
) -> Result<(), Fault>
    requires { IsWithin (fields_of head.now) }
    ensures ready { ForSetBy head.now (S.files store.old) bases.now.name.now
        (ReadyForHead bases.now.new.now head.now.cap (S.files store.new) result) }
    ensures lacks { IsSome (S.files store.old) →
        OnOk result (LacksHead (fields_of head.now) bases.now.name.now bases.now.new.now
        (S.files store.old) (S.files store.new)) }
    ensures unbuilt { IsUnbuilt bases.now.new.now (S.files store.old) (S.files store.new) }
    ensures writes { WritesSet bases.now.new.now
        (IsSetBy head.now (S.files store.old) bases.now.name.now) result S.Store store.old
        store.new }
{
    // By these laws the set under the other base stays as it is.
    names_apart();
    sets_stand();
    match empty_parts(store, bases.new) {
        Ok(()) => {}
        Err(refusal) => return Err(refusal),
    }
    match copy_places(alloc, store, bases, head, block) {
        Ok(()) => {}
        Err(refusal) => return Err(refusal),
    }
    copy_parts(store, bases, block)
}

// Makes a set under a base from one with this head.
fn make_set<S: Store>(
    alloc: Global,
    store: &mut S,
    bases: &Bases<'_>,
    head: &Head,
) -> Result<(), Fault>
    requires { IsWithin (fields_of head.now) }
    ensures made { MadeFrom head.now bases.now.name.now bases.now.new.now (S.files store.old)
        (S.files store.new) (status_of result) }
    ensures refused { IfErr result (ReadStops (Rose (S.faults store.old) (S.faults store.new))
        (IsSetBy head.now (S.files store.old) bases.now.name.now)) }
    ensures later { S.faults store.old ≤ S.faults store.new }
{
    // By these laws a set stands with its whole head, and with an empty one for no collection.
    empty_heads_stand_for_none();
    heads_make_sets();
    let mut block = match Block::new(alloc) {
        Ok(block) => block,
        Err(_) => return Err(Fault::Memory),
    };
    match make_parts(alloc, store, bases, head, &mut block) {
        Ok(()) => {}
        Err(refusal) => return Err(refusal),
    }
    let wide = Head {
        version: BUILT,
        ..*head
    };
    match wide.write(store, bases.new) {
        Ok(()) => Ok(()),
        Err(refusal) => Err(Fault::of_store(refusal)),
    }
}

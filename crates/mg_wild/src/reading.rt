//! The terms in a lexicon's entries.
ghost use Rattle.std.specs.Prelude.{◌≡◌, ◌≤◌, ◌+◌, ◌*◌, [], IfOk, OnOk, IsSome};
ghost use Rattle.mg_defs.specs.Rotations.{most_rotations};
ghost use Rattle.mg_dev.specs.Files.{bytes_at};
ghost use Rattle.mg_dev.specs.Moments.{Between};
ghost use Rattle.mg_dev.specs.Names.{full_name};
ghost use Rattle.mg_front.specs.Walk.{Gave};
ghost use Rattle.mg_wild.specs.Loading.{AnswersTermsWithin, AnswersTotal, PartRead};
ghost use Rattle.mg_wild.specs.Terms.{AreNumbered};

use crate::term_block::{TermBlock, string_in};
use mg_dev::{Bad, FileRef, Part, PartErr, Store};
use mg_front::{FrontEntry, FrontWalk};
use std::alloc::Global;

/// The bytes of a field of the lexicon.
const FIELD: usize = 16;

/// How many bytes the strings of a lexicon have together. It reads the entries, and keeps none.
pub(crate) fn total_size<S: Store>(
    alloc: Global,
    store: &mut S,
    file: FileRef<'_>,
    count: u32,
) -> Result<u64, PartErr>
    ensures answer { IsSome (S.files store.old) →
        AnswersTotal (bytes_at (S.files store.old) (full_name file.entry.base.now file.entry.part))
        count result }
    ensures most { IfOk result (λ size. size ≤ 255 * count) }
    ensures read { Between S.files S.reads S.faults store.old store.new
        (PartRead file.entry.part result) }
{
    let mut walk = match FrontWalk::load(alloc, store, file, FIELD, count) {
        Ok(walk) => walk,
        Err(refusal) => return Err(refusal),
    };
    let mut entry = FrontEntry::new();
    let mut size = 0;
    while walk.next(store, &mut entry)? {
        size += string_in(&entry).len() as u64;
    }
    Ok(size)
}

/// Takes the terms of a walk that has given no entry to a block of none. It is damaged where their
/// strings have more than so many bytes together.
fn take_terms<S: Store>(
    walk: &mut FrontWalk<'_, S>,
    store: &mut S,
    part: Part,
    most: u32,
    terms: &mut TermBlock,
) -> Result<(), PartErr>
    requires gave { Gave walk.old (S.files store.old) [] }
    requires width { walk.old.width ≡ 16 }
    requires most { most + walk.old.count ≤ most_rotations }
    requires terms { terms.old.terms ≡ [] }
    requires infos { terms.old.infos ≡ [] }
    ensures answer { IsSome (S.files store.old) →
        AnswersTermsWithin (λ _. terms.new) (bytes_at (S.files store.old) walk.old.feed.name)
        walk.old.count most result }
    ensures numbered { OnOk result (AreNumbered 0 terms.new.infos) }
    ensures read { Between S.files S.reads S.faults store.old store.new
        (PartRead walk.old.feed.part result) }
{
    let mut entry = FrontEntry::new();
    while walk.next(store, &mut entry)? {
        let grown = terms.size() + string_in(&entry).len() as u32;
        if grown > most {
            return Err(PartErr::Bad(Bad {
                part,
                at: 0,
                low: 0,
                high: u64::from(most),
                found: u64::from(grown),
            }));
        }
        terms.push(&entry)?;
    }
    Ok(())
}

/// The terms of a lexicon whose strings have no more than so many bytes together. It is damaged where
/// they have more. No room is taken before the entries are read.
pub(crate) fn read_terms<S: Store>(
    alloc: Global,
    store: &mut S,
    file: FileRef<'_>,
    count: u32,
    most: u32,
) -> Result<TermBlock, PartErr>
    requires { most + count ≤ most_rotations }
    ensures answer { IsSome (S.files store.old) →
        AnswersTermsWithin (λ terms. terms)
        (bytes_at (S.files store.old) (full_name file.entry.base.now file.entry.part))
        count most result }
    ensures numbered { IfOk result (λ terms. AreNumbered 0 terms.infos) }
    ensures read { Between S.files S.reads S.faults store.old store.new
        (PartRead file.entry.part result) }
{
    let mut walk = match FrontWalk::load(alloc, store, file, FIELD, count) {
        Ok(walk) => walk,
        Err(refusal) => return Err(refusal),
    };
    let mut terms = TermBlock::new(alloc);
    match take_terms(&mut walk, store, file.part, most, &mut terms) {
        Ok(()) => Ok(terms),
        Err(refusal) => Err(refusal),
    }
}

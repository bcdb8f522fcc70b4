//! Inverted lists and their skip entries against those that are written anew.
//!
//! Some lists of a range at a time are written into a store that compares them with Post and Skip, behind what was compared
//! before. On the way the lexicon gets what is to stand of each term.
ghost use Rattle.std.specs.Prelude.{◌≡◌, ◌<◌, ◌+◌, ◌/◌, ◌^◌, IfErr, IfOk, IfSome, IsSome, length};
ghost use Rattle.mg_dev.specs.Bads.{IsNotBad};
ghost use Rattle.mg_check_parts.specs.Looks.{LooksAtSet};
ghost use Rattle.mg_dev.specs.Moments.{Between};
ghost use Rattle.mg_layout.specs.Infos.{info_of};
ghost use Rattle.mg_check_index.specs.Anew.{CanListTerms, IsNewLists, ListsTerms};
ghost use Rattle.mg_check_index.specs.Listing.{CanCompareRange, IsStart, RangeCompared};

use crate::indexed::Indexed;
use crate::lexicon::Lexicon;
use crate::list_written::other_list;
use crate::new_lists::NewLists;
use crate::pair_lists::write_compared;
use crate::some_lists::SomeLists;
use mg_dev::{PartErr, Store};
use mg_layout::TermInfo;
use std::alloc::Global;

/// The bytes of Post and of Skip that were compared.
#[derive(Clone, Copy, Debug)]
pub struct Places {
    pub post: u64,
    pub skip: u64,
}

/// The bytes of a skip entry.
pub const SKIP_ENTRY_BYTES: u64 = 16;

// What is to stand of a term whose list begins so far behind the places that were compared; None where there are too
// many skip entries before it.
fn info_behind(number: u32, docs: u32, before: Places, at: (u64, u32)) -> Option<TermInfo>
    requires post { before.post + at.0 < 2 ^ 64 }
    ensures number { IfSome result (λ info. info.number ≡ number) }
    ensures info { IfSome result (λ info. info_of info ≡
        record { docs = docs; post_at = before.post + at.0; skip_at = before.skip / 16 + at.1 }) }
    ensures some { before.skip / 16 + at.1 < 2 ^ 32 → IsSome result }
{
    match u32::try_from(before.skip / SKIP_ENTRY_BYTES + u64::from(at.1)) {
        Ok(skip_at) => Some(TermInfo {
            number,
            docs,
            post_at: before.post + at.0,
            skip_at,
        }),
        Err(_) => None,
    }
}

impl<'a> NewLists<'a> {
    // Writes the list of a term of a range, and pushes what is to stand of the term. The lists before the range were
    // compared as far as these places.
    fn push_term<S: Store>(
        &mut self,
        store: &mut S,
        lists: &SomeLists<'_>,
        index: usize,
        of: &Indexed<'_>,
        before: Places,
        lexicon: &mut Lexicon<'_>,
    ) -> Result<(), PartErr>
        requires list { CanListTerms (S.files store.old) self.old lists.now of.now before index
            lexicon.old }
        requires index { index < length lists.now.next }
        ensures listed { Between S.files S.reads S.faults store.old store.new
            (ListsTerms lists.now
            of.now before index (index + 1) self.old self.new lexicon.old lexicon.new result) }
    {
        let list = lists.list(index);
        let all = of.documents;
        let (pair, writer) = (&mut self.pair, &mut self.writer);
        let at = match write_compared(store, pair, writer, &list.postings, list.docs, all) {
            Ok(at) => at,
            Err(refusal) => return Err(refusal),
        };
        let info = match info_behind(list.number, list.docs, before, at) {
            Some(info) => info,
            None => return Err(PartErr::Bad(other_list(1 << 32, 0, u64::from(u32::MAX)))),
        };
        match lexicon.push(store, of.table, &info) {
            Ok(()) => Ok(()),
            Err(refusal) => Err(refusal),
        }
    }

    // Writes all lists of a range, and pushes what is to stand of their terms.
    fn push_terms<S: Store>(
        &mut self,
        store: &mut S,
        lists: &SomeLists<'_>,
        of: &Indexed<'_>,
        before: Places,
        lexicon: &mut Lexicon<'_>,
    ) -> Result<(), PartErr>
        requires list { CanListTerms (S.files store.old) self.old lists.now of.now before 0
            lexicon.old }
        ensures listed { Between S.files S.reads S.faults store.old store.new
            (ListsTerms lists.now
            of.now before 0 (length lists.now.next) self.old self.new lexicon.old lexicon.new
            result) }
    {
        for index in 0..lists.count() {
            match self.push_term(store, lists, index, of, before, lexicon) {
                Ok(()) => {}
                Err(refusal) => return Err(refusal),
            }
        }
        Ok(())
    }

    /// Writes lists of a range, sees that Post and Skip go on with them, and pushes what is to stand of their terms.
    pub(crate) fn check<S: Store>(
        &mut self,
        store: &mut S,
        lists: &SomeLists<'_>,
        of: &Indexed<'_>,
        compared: &mut Compared<'_>,
    ) -> Result<(), PartErr>
        requires new { IsNewLists (S.files store.old) of.now.documents of.now.base.now
            compared.old.places self.old }
        requires range { CanCompareRange (S.files store.old) of.now lists.now
            compared.old }
        ensures range { Between S.files S.reads S.faults store.old store.new
            (RangeCompared of.now lists.now compared.old compared.new
            result) }
    {
        let before = compared.places;
        match self.push_terms(store, lists, of, before, &mut compared.lexicon) {
            Ok(()) => {}
            Err(refusal) => return Err(refusal),
        }
        match self.compare(store, of.base, before) {
            Ok(after) => {
                compared.places = after;
                Ok(())
            }
            Err(refusal) => Err(refusal),
        }
    }
}

/// What of the index was compared, as far as the terms below a number.
#[derive(Drop)]
pub struct Compared<'a> {
    pub places: Places,
    pub lexicon: Lexicon<'a>,
}

impl<'a> Compared<'a> {
    /// Nothing was compared.
    pub fn start<S: Store>(alloc: Global, store: &mut S, base: &'a str) -> Result<Self, PartErr>
        ensures start { IfOk result (IsStart (S.files store.old) base.entry.now) }
        ensures never_bad { IfErr result IsNotBad }
        ensures looks { Between S.files S.reads S.faults store.old store.new (LooksAtSet result) }
    {
        match Lexicon::start(alloc, store, base) {
            Ok(lexicon) => Ok(Compared {
                places: Places { post: 0, skip: 0 },
                lexicon,
            }),
            Err(refusal) => Err(refusal),
        }
    }
}

//! The place of a term in a query.
ghost use Rattle.std.specs.Prelude.{◌≡◌, ℕ, ◌≤◌, List, Option, Some, IfOk, IfSome};
ghost use Rattle.mg_dev.specs.Files.{Files};
ghost use Rattle.mg_dev.specs.Moments.{Between};
ghost use Rattle.mg_post.specs.Cursor.{CursorFits};
ghost use Rattle.mg_bool.specs.Calls.{PlaceCall, place_skips};
ghost use Rattle.mg_bool.specs.Places.{IsInRange, PlaceFits, PlaceOn, place_pages};
ghost use Rattle.mg_bool.specs.Places.{StartsPlace, CursorAnswers, CursorReads, PlaceAnswers, PlaceReads};
ghost use Rattle.mg_bool.specs.Shown.{IsListOf, PlaceAsked, PlaceStands};

use mg_dev::{PartErr, Store};
use mg_layout::TermInfo;
use mg_post::Cursor;
use std::alloc::{AllocError, Global};
use std::marker::Model;

/// The place of a term: a cursor over its list, or none where no document has the term.
#[derive(Drop)]
pub(crate) struct Place<'a, S: Store> {
    cursor: Option<Cursor<'a, S>>,
}

impl<'a, S: Store> Model for Place<'a, S> {
    ghost use Rattle.std.specs.Prelude.{Option};
    ghost use Rattle.mg_post.specs.Cursor.{Cursoring};

    ghost Value = { Option Cursoring };

    ghost view = { λ p. p.cursor };
}

/// The first document of a cursor's list from `doc` on.
#[inline]
fn ask_cursor<S: Store>(
    cursor: &mut Cursor<'_, S>,
    store: &mut S,
    doc: u32,
) -> Result<Option<u32>, PartErr>
    requires fits { CursorFits cursor.old (S.files store.old) }
    requires some { 1 ≤ doc }
    ensures call { Between S.files S.reads S.faults store.old store.new
        (PlaceCall (Some cursor.old) (Some cursor.new) result) }
    ensures answer { CursorAnswers doc (S.files store.old) cursor.old cursor.new result }
    ensures pages { CursorReads doc (S.files store.old) cursor.old cursor.new (S.reads store.old)
        (S.reads store.new) }
    ensures shows { PlaceAsked (Some cursor.old) (Some cursor.new) (S.files store.old)
        (S.files store.new) doc result }
    ensures range { IfOk result (λ found. IfSome found (IsInRange doc cursor.old.all)) }
{
    match cursor.ask(store, doc) {
        Ok(Some(posting)) => Ok(Some(posting.doc)),
        Ok(None) => Ok(None),
        Err(refusal) => Err(refusal),
    }
}

impl<'a, S: Store> Place<'a, S> {
    /// Before the first posting of the list of which the lexicon tells. Nothing is read.
    pub(crate) fn start(
        alloc: Global,
        base: &'a str,
        info: &Option<TermInfo>,
        all: u32,
    ) -> Result<Self, AllocError>
        ensures place { IfOk result (StartsPlace base.entry.now info.now all) }
        ensures on { IfOk result (PlaceOn base.entry.now all) }
        ensures fits { IfOk result (λ p. (files : Option Files) → PlaceFits files p) }
        ensures list { IfOk result (IsListOf base.entry.now info.now all) }
        ensures stands { IfOk result (λ p. (files : Option Files) (n : ℕ) → PlaceStands p files n) }
        ensures nothing { IfOk result (λ p. place_pages p ≡ 0) }
        ensures unread { IfOk result (λ p. place_skips p ≡ 0) }
    {
        match info {
            Some(info) => match Cursor::start(alloc, base, info, all) {
                Ok(cursor) => Ok(Place {
                    cursor: Some(cursor),
                }),
                Err(error) => Err(error),
            },
            None => Ok(Place { cursor: None }),
        }
    }

    /// The first document of the list from `doc` on.
    #[inline]
    pub(crate) fn ask(&mut self, store: &mut S, doc: u32) -> Result<Option<u32>, PartErr>
        requires fits { PlaceFits (S.files store.old) self.old }
        requires some { 1 ≤ doc }
        ensures call { Between S.files S.reads S.faults store.old store.new
            (PlaceCall self.old self.new result) }
        ensures answer { PlaceAnswers doc (S.files store.old) self.old self.new result }
        ensures pages { PlaceReads doc (S.files store.old) self.old self.new (S.reads store.old)
            (S.reads store.new) }
        ensures shows { PlaceAsked self.old self.new (S.files store.old) (S.files store.new) doc
            result }
        ensures range { (base : List ℕ) (all : ℕ) → PlaceOn base all self.old →
            IfOk result (λ found. IfSome found (IsInRange doc all)) }
    {
        let Some(cursor) = &mut self.cursor else {
            return Ok(None);
        };
        ask_cursor(cursor, store, doc)
    }
}

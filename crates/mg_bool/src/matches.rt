//! The documents that satisfy a query, one after another.
ghost use Rattle.std.specs.Prelude.{◌≡◌, ◌≢◌, ℕ, ◌≤◌, ◌<◌, List, Option, None, Ok, Err, IfErr, IfOk, IfSome, OnOk, length};
ghost use Rattle.mg_dev.specs.Files.{Files};
ghost use Rattle.mg_dev.specs.PartCauses.{HasPartCause};
ghost use Rattle.mg_defs.specs.QueryTerms.{query_terms};
ghost use Rattle.mg_query.specs.QueryOf.{query_of};
ghost use Rattle.mg_post.specs.Answers.{AnswersList};
ghost use Rattle.mg_post.specs.Cursor.{NamesItsPart};
ghost use Rattle.mg_post.specs.TermLists.{ReadsLists};
ghost use Rattle.mg_bool.specs.Calls.{PlacesSkip, SkipsWithin, skips_read};
ghost use Rattle.mg_bool.specs.Places.{pages_read};
ghost use Rattle.mg_bool.specs.Matches.{MatchesFit, SameMatches, StartsMatches, ForMatches, MatchesGoOn, MatchesRead, query_bound};
ghost use Rattle.mg_bool.specs.Leads.{NeedsPlace};
ghost use Rattle.mg_bool.specs.Shown.{AnswersShown, AreLists, MatchesStand, SameLists};

use crate::laws::{cursors_are_within, query_bound_is_the_lesser};
use crate::lead::lead_place;
use crate::next::next_match;
use crate::places::start_all;
use crate::walk::{Asks, Walk};
use mg_dev::{PartErr, Store};
use mg_layout::TermInfo;
use mg_query::Query;
use std::alloc::{AllocError, Global};
use std::marker::Model;

/// Goes over the documents that satisfy a Boolean query, rising, by the inverted lists of its terms.
///
/// It keeps a cursor for each place of a term in the query, and nothing else but a bit for each
/// place. Where the query holds only in documents of one of its terms, the list of the one with the
/// fewest documents leads: only its documents are asked of the other lists. Where none leads, and
/// the query holds in no document without its terms, only the documents of some list are asked.
/// Contracts see what is still to come of a collection as `left_of`; the answer at each call is its
/// first.
///
/// Whatever the parts have, a document is decided only by blocks of the lists that stand. So a damage
/// that is met is told. It is taken neither for the end of a list nor for a term that a document lacks.
#[derive(Drop)]
pub struct Matches<'a, S: Store> {
    asks: Asks<'a>,
    walk: Walk<'a, S>,
}

impl<'a, S: Store> Model for Matches<'a, S> {
    ghost use Rattle.std.specs.Prelude.{◌≡◌, ◌≤◌, length};
    ghost use Rattle.std.specs.Coded.{codes};
    ghost use Rattle.mg_query.specs.contracts.query.Query.{the_row};
    ghost use Rattle.mg_bool.specs.Matches.{IsWithin, Matching};

    ghost Value = { Matching };

    ghost coded = { Prim.hlevel (codes, the_row.coded) };

    ghost view = { λ m. record { asks = m.asks.query.now; places = m.walk.places.items; lead = m.asks.lead; all = m.asks.all; decided = m.walk.decided } };

    ghost invariant = { λ m. (length m.walk.there.items ≡ length m.walk.places.items) × (m.walk.decided ≤ m.asks.all) × IsWithin m.asks.lead (length m.walk.places.items) };
}

/// Which of so many terms a document has: none yet.
fn none_there(alloc: Global, size: usize) -> Result<Vec<bool>, AllocError>
    ensures { IfOk result (λ there. length there.items ≡ size) }
{
    vec![in alloc; false; size]
}

impl<'a, S: Store> Matches<'a, S> {
    /// Before the first document that satisfies the query. `infos` is what the lexicon tells of the
    /// query's terms, from left to right, and None for a term that no document has; `all` is the
    /// number of documents. Nothing is read.
    pub fn start(
        alloc: Global,
        base: &'a str,
        query: &'a Query,
        infos: &[Option<TermInfo>],
        all: u32,
    ) -> Result<Self, AllocError>
        requires size { length infos.now ≡ length (query_terms (query_of query.now)) }
        ensures over { IfOk result (StartsMatches base.entry.now (query_of query.entry.now)
            infos.now all) }
        ensures asks { IfOk result (λ m. m.asks ≡ query.entry.now) }
        ensures all { IfOk result (λ m. m.all ≡ all) }
        ensures before { IfOk result (λ m. m.decided ≡ 0) }
        ensures fits { IfOk result (λ m. (files : Option Files) →
            MatchesFit base.entry.now files m) }
        ensures lists { IfOk result (λ m. AreLists base.entry.now infos.now all m.places) }
        ensures needs { IfOk result (λ m. IfSome m.lead (NeedsPlace (query_of query.entry.now))) }
        ensures stands { IfOk result (λ m. (files : Option Files) → MatchesStand files m) }
        ensures nothing { IfOk result (λ m. pages_read m.places ≡ 0) }
        ensures unread { IfOk result (λ m. skips_read m.places ≡ 0) }
        ensures within { IfOk result (λ m. SkipsWithin m.places) }
    {
        let places = start_all(alloc, base, infos, all)?;
        let there = none_there(alloc, infos.len())?;
        let lead = lead_place(query, infos);
        Ok(Matches {
            asks: Asks { query, lead, all },
            walk: Walk {
                places,
                there,
                decided: 0,
            },
        })
    }

    /// The next document, from 1 to the number of all, that satisfies the query; None where none is
    /// left, and at every further call, which reads nothing.
    #[inline]
    pub fn next(&mut self, store: &mut S) -> Result<Option<u32>, PartErr>
        requires fits { (base : List ℕ) × MatchesFit base (S.files store.old) self.old }
        ensures fits { OnOk result ((base : List ℕ) → MatchesFit base (S.files store.old) self.old →
            MatchesFit base (S.files store.new) self.new) }
        ensures same { SameMatches self.old self.new }
        ensures lists { SameLists self.old self.new }
        ensures answer { ForMatches (S.files store.old) self.old
            (λ base collection. AnswersList result
            (MatchesGoOn base collection self.old self.new)) }
        ensures pages { ForMatches (S.files store.old) self.old
            (λ _ collection. MatchesRead collection self.old self.new (S.reads store.old)
            (S.reads store.new)) }
        // Nor more than at each place the lesser of these and the pages on which its list lies.
        ensures least { ForMatches (S.files store.old) self.old
            (λ _ collection. pages_read self.new.places
            ≤ query_bound collection (query_of self.old.asks)) }
        // Whatever the parts have, of Skip no more is read than the lists' entries lie on.
        ensures skips { PlacesSkip self.old.places self.new.places (S.reads store.old)
            (S.reads store.new) }
        // Whatever the parts have, each document is decided by blocks that stand.
        ensures shows { AnswersShown (S.files store.old) (S.files store.new) self.old self.new
            result }
        ensures range { IfOk result (λ found.
            IfSome found (λ doc. (self.old.decided < doc) × (doc ≤ self.old.all)
            × (self.new.decided ≡ doc))) }
        ensures later { self.old.decided ≤ self.new.decided }
        ensures last { result ≡ Ok None → self.new.decided ≡ self.new.all }
        ensures ended { self.old.decided ≡ self.old.all →
            (result ≡ Ok None) × (self.new ≡ self.old) × (store.new ≡ store.old) }
        ensures part { IfErr result NamesItsPart }
        ensures reads { ReadsLists (S.reads store.old) (S.reads store.new) }
        ensures files { S.files store.new ≡ S.files store.old }
        ensures memory { result ≢ Err PartErr.Memory }
        ensures cause { HasPartCause (S.faults store.old) (S.faults store.new) result }
    {
        cursors_are_within();
        query_bound_is_the_lesser();
        if self.walk.decided == self.asks.all {
            return Ok(None);
        }
        next_match(&self.asks, &mut self.walk, store)
    }
}

//! The lexicon against one that is written anew.
ghost use Rattle.std.specs.Prelude.{◌≡◌, ◌<◌, ◌≤◌, ◌+◌, ℕ, List, [], IfOk, OnOk, length};
ghost use Rattle.std.specs.Cmp.Lexicographic.{slice_cmp};
ghost use Rattle.std.specs.List.Sorted.{IsStrictlySortedBy};
ghost use Rattle.std.specs.Ordering.{nat_cmp};
ghost use Rattle.mg_dev.specs.Moments.{Between};
ghost use Rattle.mg_lex.specs.Writing.{TookTerms};
ghost use Rattle.mg_check_parts.specs.Looks.{LooksAtSet};
ghost use Rattle.mg_check_index.specs.PairCalls.{LooksOnly};
ghost use Rattle.mg_defs.specs.Limits.{version_2};

use crate::pair_lexicon::{finish_terms, lexicon_pair, push_term, start_terms};
use crate::pair_store::WrittenPair;
use mg_check_parts::WordTable;
use mg_dev::{PartErr, Store};
use mg_layout::TermInfo;
use mg_lex::{LexWriter, lexicon_has_its_terms};
use std::alloc::Global;

/// The lexicon of the terms so far, written anew, and what was written of its two parts.
#[derive(Drop)]
pub struct Lexicon<'a> {
    pub(crate) pair: WrittenPair<'a>,
    pub(crate) writer: LexWriter<'static>,
}

impl<'a> Lexicon<'a> {
    ghost use Rattle.mg_check_index.specs.Anew.{FindsLexicon, RefusesLexicon, SameLexicon, TakesTerm};
    ghost use Rattle.mg_check_index.specs.InPair.{pair_files};
    ghost use Rattle.mg_check_index.specs.Listing.{CanPush, GoesToLexicon};

    /// The lexicon of no term, to be compared with that of a base.
    pub(crate) fn start<S: Store>(
        alloc: Global,
        store: &mut S,
        base: &'a str,
    ) -> Result<Self, PartErr>
        ensures took { IfOk result (λ lexicon.
            TookTerms lexicon.writer (pair_files (S.files store.old) lexicon.pair) []) }
        ensures can { IfOk result (λ lexicon. (terms : List (List ℕ)) →
            CanPush terms 0 lexicon.writer (pair_files (S.files store.old) lexicon.pair)) }
        ensures goes { IfOk result (λ lexicon.
            GoesToLexicon lexicon.writer lexicon.pair base.entry.now) }
        ensures looks { Between S.files S.reads S.faults store.old store.new (LooksOnly result) }
    {
        let mut pair = lexicon_pair(alloc, base);
        match start_terms(alloc, store, &mut pair) {
            Ok(writer) => Ok(Lexicon { pair, writer }),
            Err(refusal) => Err(refusal),
        }
    }

    /// Writes what is to stand of the next term of a table.
    pub(crate) fn push<S: Store>(
        &mut self,
        store: &mut S,
        table: &WordTable,
        info: &TermInfo,
    ) -> Result<(), PartErr>
        requires can { CanPush table.now.terms info.now.number self.old.writer
            (pair_files (S.files store.old) self.old.pair) }
        requires number { info.now.number < length table.now.terms }
        requires few { length table.now.terms ≤ version_2.pieces }
        requires rising { IsStrictlySortedBy (slice_cmp nat_cmp) table.now.terms }
        ensures can { OnOk result (CanPush table.now.terms (info.now.number + 1) self.new.writer
            (pair_files (S.files store.old) self.new.pair)) }
        ensures took { TakesTerm (S.files store.old) table.now.terms info.now self.old self.new
            result }
        ensures same { SameLexicon self.old self.new }
        ensures looks { Between S.files S.reads S.faults store.old store.new (LooksOnly result) }
    {
        let term = table.terms().term(info.number);
        push_term(store, &mut self.pair, &mut self.writer, term, info)
    }

    /// Sees that Lex and LexAt are the lexicon of the terms that were pushed, and nothing else.
    pub fn check<S: Store>(&mut self, store: &mut S, base: &str) -> Result<(), PartErr>
        requires can { (terms : List (List ℕ)) × (number : ℕ) × CanPush terms number
            self.old.writer (pair_files (S.files store.old) self.old.pair) }
        requires goes { GoesToLexicon self.old.writer self.old.pair base.now }
        ensures stand { FindsLexicon self.old (S.files store.old) base.now result }
        ensures other { RefusesLexicon self.old (S.files store.old) base.now result }
        ensures looks { Between S.files S.reads S.faults store.old store.new (LooksAtSet result) }
    {
        // By this law the entries of a collection's terms are its lexicon.
        lexicon_has_its_terms();
        match finish_terms(store, &mut self.pair, &mut self.writer) {
            Ok(()) => {}
            Err(refusal) => return Err(refusal),
        }
        match self.pair.one.finish_whole(store) {
            Ok(()) => {}
            Err(refusal) => return Err(refusal),
        }
        match self.pair.other.finish_whole(store) {
            Ok(()) => Ok(()),
            Err(refusal) => Err(refusal),
        }
    }
}

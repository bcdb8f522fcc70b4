//! The terms of a lexicon, which are loaded when they are first asked for.
//!
//! Loading reads all of the lexicon, which takes longer than a line that is no pattern is worth. So a
//! session without a pattern never loads them; one that has patterns loads them once.
ghost use Rattle.std.specs.Prelude.{◌≡◌, None};
ghost use Rattle.mg_wild.specs.Patterns.{sides_of};
ghost use Rattle.mg_session.specs.WildTerms.{AsksPattern, TermsFit};

use crate::document_set::DocumentSet;
use crate::lists::Lists;
use crate::texts::keep;
use crate::wild_answer::answer_pattern;
use mg_dev::{ShowErr, Sink, Store};
use mg_wild::{Pattern, Rotated, TermsToLoad};
use std::marker::Model;

/// The terms of a lexicon, and what loads them when the first pattern asks for them.
///
/// Contracts see what is told of the lexicon before, and the terms once they are loaded.
#[derive(Drop)]
pub(crate) struct LexiconTerms<'a> {
    lex: TermsToLoad<'a>,
    loaded: Option<Rotated>,
}

impl<'a> Model for LexiconTerms<'a> {
    ghost use Rattle.mg_session.specs.WildTerms.{WildTerms};

    ghost Value = { WildTerms };

    ghost view = { λ t. record { lex = t.lex; loaded = t.loaded } };
}

impl<'a> LexiconTerms<'a> {
    /// Of a lexicon whose terms are not loaded.
    pub(crate) fn new(lex: TermsToLoad<'a>) -> Self
        ensures { result ≡ record { lex = lex.entry; loaded = None } }
    {
        LexiconTerms { lex, loaded: None }
    }

    // Loads the terms, answers a pattern by them, and keeps them for the next.
    fn answer_first<S: Store, O: Sink>(
        &mut self,
        lists: &Lists<'_>,
        store: &mut S,
        marked: &mut DocumentSet,
        pattern: &Pattern,
        out: &mut O,
    ) -> Result<(), ShowErr>
        requires fits { TermsFit (S.files store.old) self.old }
        requires unloaded { self.old.loaded ≡ None }
        requires room { marked.old.all ≡ lists.now.all }
        ensures asked { AsksPattern S.Store O.Sink store.old store.new out.old out.new result
            lists.now.base.now lists.now.all (sides_of pattern.now) self.old self.new }
        ensures room { marked.new.all ≡ lists.now.all }
    {
        let mut terms = match self.lex.load(lists.alloc, store) {
            Ok(terms) => terms,
            Err(refusal) => return Err(ShowErr::Part(refusal)),
        };
        let answered = answer_pattern(lists, store, &mut terms, marked, pattern, out);
        keep(&mut self.loaded, terms);
        answered
    }

    /// Shows what matches a pattern, and the documents that have one of these terms. The terms are loaded
    /// if no pattern asked for them before.
    ///
    /// `marked` has room for all documents, and is cleared first.
    pub(crate) fn answer<S: Store, O: Sink>(
        &mut self,
        lists: &Lists<'_>,
        store: &mut S,
        marked: &mut DocumentSet,
        pattern: &Pattern,
        out: &mut O,
    ) -> Result<(), ShowErr>
        requires fits { TermsFit (S.files store.old) self.old }
        requires room { marked.old.all ≡ lists.now.all }
        ensures asked { AsksPattern S.Store O.Sink store.old store.new out.old out.new result
            lists.now.base.now lists.now.all (sides_of pattern.now) self.old self.new }
        ensures room { marked.new.all ≡ lists.now.all }
    {
        match &mut self.loaded {
            Some(terms) => answer_pattern(lists, store, terms, marked, pattern, out),
            None => self.answer_first(lists, store, marked, pattern, out),
        }
    }
}

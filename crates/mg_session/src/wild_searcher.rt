//! An answerer of patterns over the open parts of a set.
ghost use Rattle.std.specs.Prelude.{◌≡◌, ◌≤◌, ◌^◌, ℕ, List, None, IfOk, IfSome, IsSome, length};
ghost use Rattle.mg_defs.specs.Patterns.{pattern_of};
ghost use Rattle.mg_defs.specs.WildSession.{bad_pattern};
ghost use Rattle.mg_dev.specs.Each.{ForEach};
ghost use Rattle.mg_dev.specs.Files.{SameReads};
ghost use Rattle.mg_dev.specs.Moments.{store_at};
ghost use Rattle.mg_dev.specs.Runs.{RefusedFor};
ghost use Rattle.mg_dev.specs.declared.fault.Fault.TheVariants.{TooManyRotations};
ghost use Rattle.mg_rank.specs.Ranked.{PostWithin};
ghost use Rattle.mg_reply.specs.Pending.{PutsText};
ghost use Rattle.mg_wild.specs.Patterns.{bad_of};
ghost use Rattle.mg_session.specs.Calls.{WritesAlone};
ghost use Rattle.mg_session.specs.Opening.{KeptByPatterns, SetOpened};
ghost use Rattle.mg_session.specs.WildAnswers.{StepsPattern, wild_pages};
ghost use Rattle.mg_session.specs.Replying.{RepliesToPattern};
ghost use Rattle.mg_session.specs.WildSearching.{IsNoPattern, IsReady, LoadsNone, PartsAreBy, PartsAreOf, SameWild, WildAsked, WildBy, WildFits, WildMayStop, WildPrints, WildState, wild_state};
ghost use Rattle.mg_session.specs.WildServes.{CountedBy, TooManyBy, fault_of_rotated as fault_of_rotated_spec};
ghost use Rattle.mg_session.specs.WildSearchLaws.{wild_later, wild_more, wild_none, wild_printed, wild_stop};
ghost use Rattle.mg_session.specs.WildTerms.{ReadsLists};

use crate::document_set::DocumentSet;
use crate::lexicon_terms::LexiconTerms;
use crate::lists::Lists;
use mg_defs::Settings;
use mg_dev::{Fault, PartErr, PutErr, ShowErr, Sink, Store};
use mg_layout::Head;
use mg_reply::{Answerer, Pending};
use mg_wild::{PatternErr, RotErr, TermsToLoad, read_pattern};
use std::alloc::Global;
use std::marker::{Model, PhantomData};

/// Answers the lines of a session of patterns from the parts of a base.
///
/// The terms are held once a pattern asked for them, with all their rotations once patterns are many, and
/// a bit for each document. Contracts see the base, the terms, how many documents there are and how many
/// can be marked.
#[derive(Drop)]
pub(crate) struct WildSearcher<'a, S: Store> {
    lists: Lists<'a>,
    terms: LexiconTerms<'a>,
    marked: DocumentSet,
    store: PhantomData<S>,
}

impl<'a, S: Store> Model for WildSearcher<'a, S> {
    ghost use Rattle.mg_session.specs.WildSearching.{WildParts};

    ghost Value = { WildParts };

    ghost view = { λ s. record { base = s.lists.base.now; terms = s.terms; all = s.lists.all; room = s.marked.all } };
}

/// The fault of a lexicon whose terms cannot be held.
fn fault_of_rotated(error: RotErr) -> Fault
    ensures { result ≡ fault_of_rotated_spec error }
{
    match error {
        RotErr::Part(refusal) => Fault::from(refusal),
        RotErr::TooMany { count } => Fault::TooManyRotations { count },
    }
}

/// Writes that a line is no pattern, and from which place on.
fn put_bad_pattern<O: Sink>(out: &mut O, at: u32) -> Result<(), PutErr>
    ensures { PutsText O.Sink out.old out.new result (bad_pattern at) }
{
    let mut pending = Pending::new();
    match pending.put(out, b"? bad pattern at ") {
        Ok(()) => {}
        Err(error) => return Err(error),
    }
    // A row without a score is a number and the line's end.
    match pending.row(out, at, None) {
        Ok(()) => pending.flush(out),
        Err(error) => Err(error),
    }
}

/// Writes why a line is no pattern, where that is known.
fn refuse_pattern<O: Sink>(out: &mut O, why: PatternErr) -> Result<(), ShowErr>
    ensures replied { (line : List ℕ) → IfSome (bad_of why) (λ bad. pattern_of line ≡ bad) →
        (collection : List ℕ) →
        RepliesToPattern O.written out.old out.new result line collection }
    ensures alone { WritesAlone O.Sink out.old out.new result }
{
    match why {
        PatternErr::Bad { at } => match put_bad_pattern(out, at) {
            Ok(()) => Ok(()),
            Err(refusal) => Err(ShowErr::from(refusal)),
        },
        PatternErr::Memory => Err(ShowErr::Part(PartErr::Memory)),
    }
}

impl<'a, S: Store> WildSearcher<'a, S> {
    /// Over a base with the terms of this lexicon, of which none is loaded, and so many documents, which
    /// are marked in this set.
    pub(crate) fn new(
        alloc: Global,
        base: &'a str,
        lex: TermsToLoad<'a>,
        all: u32,
        marked: DocumentSet,
    ) -> Self
        ensures { result ≡ record {
          base = base.entry.now;
          terms = record { lex = lex.entry; loaded = None };
          all = all;
          room = marked.all;
        } }
    {
        WildSearcher {
            lists: Lists { alloc, base, all },
            terms: LexiconTerms::new(lex),
            marked,
            store: PhantomData,
        }
    }

    /// Opens the parts of a set with this head: whether it has too many rotations is known then, and room
    /// is taken for a bit for each document. No term is loaded; up to 2^19 terms nothing is read.
    pub(crate) fn open(
        alloc: Global,
        store: &mut S,
        base: &'a str,
        head: &Head,
    ) -> Result<Self, Fault>
        ensures ready { IfOk result (IsReady (S.files store.new)) }
        ensures opened { SetOpened (PartsAreBy (S.files store.new)) KeptByPatterns
            (CountedBy head.now (S.files store.old) base.entry.now) head.now base.entry.now
            (store_at S.files S.reads S.faults store.old)
            (store_at S.files S.reads S.faults store.new) result }
        ensures many { IsSome (S.files store.old) → (count : ℕ) →
            TooManyBy head.now (S.files store.old) base.entry.now count →
            RefusedFor result (TooManyRotations count) }
        ensures unread { head.now.terms ≤ 2 ^ 19 →
            SameReads (S.reads store.old) (S.reads store.new) }
    {
        let lex = match TermsToLoad::of(alloc, store, base, head) {
            Ok(lex) => lex,
            Err(refusal) => return Err(fault_of_rotated(refusal)),
        };
        let marked = match DocumentSet::new(alloc, head.documents) {
            Ok(marked) => marked,
            Err(_) => return Err(Fault::Memory),
        };
        let searcher = WildSearcher::new(alloc, base, lex, head.documents, marked);
        Ok(searcher)
    }

    /// Writes the reply to a line. The terms are loaded for the first that is a pattern.
    fn answer_question<O: Sink>(
        &mut self,
        store: &mut S,
        line: &[u8],
        out: &mut O,
    ) -> Result<(), ShowErr>
        requires short { length line.now ≤ 1024 }
        requires ready { IsReady (S.files store.old) self.old }
        ensures ready { IsReady (S.files store.new) self.new }
        ensures same { SameWild self.old self.new }
        ensures replied { ForEach (PartsAreOf (S.files store.old) self.old)
            (RepliesToPattern O.written out.old out.new result line.now) }
        ensures pages { ForEach (PartsAreOf (S.files store.old) self.old)
            (λ collection. PostWithin S.reads store.old store.new
            (wild_pages collection line.now)) }
        ensures stepped { StepsPattern S.Store O.Sink store.old store.new out.old out.new result
            (ReadsLists (LoadsNone self.old (IsNoPattern line.now))) }
    {
        let pattern = match read_pattern(self.lists.alloc, line) {
            Ok(pattern) => pattern,
            Err(why) => return refuse_pattern(out, why),
        };
        self.terms
            .answer(&self.lists, store, &mut self.marked, &pattern, out)
    }
}

impl<'a, S: Store> Answerer for WildSearcher<'a, S> {
    type Dev = S;

    ghost State = { WildState };

    ghost state = { λ s d. wild_state (S.files d) (S.reads d) (S.faults d) s };

    ghost fits = { λ s. WildFits s };

    ghost answers = { λ s by. WildBy s by };

    ghost after = { λ s t questions. WildAsked s t questions };

    ghost prints = { λ s question before now. WildPrints s question before now };

    ghost may_stop = { λ s t error. WildMayStop s t error };

    fn answer_line<O: Sink>(
        &mut self,
        dev: &mut S,
        line: &[u8],
        _now: &Settings,
        out: &mut O,
    ) -> Result<(), ShowErr> {
        self.answer_question(dev, line, out)
    }

    ghost after_none = { λ s. wild_none s };

    ghost after_more = { λ s t u xs ys first more. wild_more s t u xs ys first more };

    ghost same_reply = { λ s t xs by after answers. wild_later s t xs by after answers };

    ghost same_prints = { λ s t xs question before now after printed. wild_printed s t xs question before now after printed };

    ghost stops_later = { λ s t u xs error after stops. wild_stop s t u xs error after stops };
}

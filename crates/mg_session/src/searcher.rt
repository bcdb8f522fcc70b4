//! An answerer over the open parts of a set.
ghost use Rattle.std.specs.Prelude.{◌≡◌, ◌≤◌, false, true, length};
ghost use Rattle.std.specs.List.{IsDistinct};
ghost use Rattle.std.specs.Str.{bytes_eq};
ghost use Rattle.mg_defs.specs.QueryTerms.{query_terms};
ghost use Rattle.mg_dev.specs.Moments.{sink_at, store_at};
ghost use Rattle.mg_query.specs.QueryOf.{query_of};
ghost use Rattle.mg_session.specs.Decided.{SearchOpened};
ghost use Rattle.mg_session.specs.Replying.{AsksLine, AsksQuery, AsksTerms};
ghost use Rattle.mg_session.specs.Served.{LineAnswered};
ghost use Rattle.mg_session.specs.Searching.{AnswersBy, Asked, CanAnswer, Fits, MayStop, SearchFits, Searching, opened_at, state_of};
ghost use Rattle.mg_session.specs.PrintedLaws.{Prints, prints_later};
ghost use Rattle.mg_session.specs.SearchLaws.{answers_later, asked_more, asked_none, stops_later};
ghost use Rattle.mg_session.specs.Texts.{HasFewPieces};

use crate::boolean_answer::answer_query;
use crate::lists::Lists;
use crate::lookup::{Sought, find_terms};
use crate::ranked_answer::answer_terms;
use crate::texts::Texts;
use mg_defs::Settings;
use mg_dev::{Fault, PartErr, ShowErr, Sink, Store};
use mg_layout::Head;
use mg_lex::Lex;
use mg_query::{Query, Terms, parse_boolean, parse_ranked};
use mg_reply::{Answerer, answer_refused};
use std::alloc::Global;
use std::marker::Model;

/// Answers the query lines of a session from the parts of a base.
#[derive(Drop)]
pub(crate) struct Searcher<'a, S: Store> {
    lists: Lists<'a>,
    lex: Lex<'a, S>,
    texts: Texts<'a, S>,
}

impl<'a, S: Store> Model for Searcher<'a, S> {
    ghost use Rattle.mg_session.specs.Searching.{Opened};

    ghost Value = { Opened };

    ghost view = { λ s. record { base = s.lists.base.now; lex = s.lex; texts = s.texts; all = s.lists.all } };
}

impl<'a, S: Store> Searcher<'a, S> {
    /// Over the parts of a base: its lexicon, which is loaded, and what its head tells of.
    pub(crate) fn new(alloc: Global, base: &'a str, lex: Lex<'a, S>, head: &Head) -> Self
        ensures { result ≡ opened_at base.entry.now lex.entry head.now }
    {
        let lists = Lists {
            alloc,
            base,
            all: head.documents,
        };
        Searcher {
            lists,
            lex,
            texts: Texts::new(alloc, base, head),
        }
    }

    /// Opens the parts of a set with this head: its lexicon's places are loaded, and nothing of the text.
    pub(crate) fn open(
        alloc: Global,
        store: &mut S,
        base: &'a str,
        head: &Head,
    ) -> Result<Self, Fault>
        requires { HasFewPieces head.now }
        ensures { SearchOpened head.now base.entry.now
            (store_at S.files S.reads S.faults store.old)
            (store_at S.files S.reads S.faults store.new) result }
    {
        let lex = match Lex::load(alloc, store, base, head) {
            Ok(lex) => lex,
            Err(refusal) => return Err(Fault::from(refusal)),
        };
        let searcher = Searcher::new(alloc, base, lex, head);
        Ok(searcher)
    }

    /// Writes the reply to a Boolean line.
    fn answer_boolean<O: Sink>(
        &mut self,
        store: &mut S,
        line: &[u8],
        now: &Settings,
        out: &mut O,
    ) -> Result<(), ShowErr>
        requires { CanAnswer (S.files store.old) self.old line.now }
        ensures { AsksLine S.Store O.Sink store.old store.new out.old out.new result
            self.old self.new false now.now line.now }
    {
        match parse_boolean(self.lists.alloc, line) {
            Ok(query) => self.answer_parsed(store, &query, now, out),
            Err(why) => answer_refused(out, why),
        }
    }

    /// Writes the reply to a Boolean query.
    fn answer_parsed<O: Sink>(
        &mut self,
        store: &mut S,
        query: &Query,
        now: &Settings,
        out: &mut O,
    ) -> Result<(), ShowErr>
        requires fits { SearchFits (S.files store.old) self.old }
        ensures { AsksQuery S.Store O.Sink store.old store.new out.old out.new result
            self.old self.new now.now (query_of query.now) }
    {
        match query.terms(self.lists.alloc) {
            Ok(terms) => self.answer_known(store, query, &terms, now, out),
            Err(_) => Err(ShowErr::Part(PartErr::Memory)),
        }
    }

    /// Writes the reply to a query with these terms.
    fn answer_known<O: Sink>(
        &mut self,
        store: &mut S,
        query: &Query,
        terms: &Terms,
        now: &Settings,
        out: &mut O,
    ) -> Result<(), ShowErr>
        requires terms { terms.now ≡ query_terms (query_of query.now) }
        requires fits { SearchFits (S.files store.old) self.old }
        ensures { AsksQuery S.Store O.Sink store.old store.new out.old out.new result
            self.old self.new now.now (query_of query.now) }
    {
        let infos = match find_terms(self.lists.alloc, store, &mut self.lex, terms.as_slice()) {
            Ok(infos) => infos,
            Err(refusal) => return Err(ShowErr::from(refusal)),
        };
        let sought = Sought {
            query,
            infos: &infos,
        };
        answer_query(&self.lists, store, &mut self.texts, &sought, now, out)
    }

    /// Writes the reply to a ranked line.
    fn answer_ranked<O: Sink>(
        &mut self,
        store: &mut S,
        line: &[u8],
        now: &Settings,
        out: &mut O,
    ) -> Result<(), ShowErr>
        requires { CanAnswer (S.files store.old) self.old line.now }
        ensures { AsksLine S.Store O.Sink store.old store.new out.old out.new result
            self.old self.new true now.now line.now }
    {
        match parse_ranked(self.lists.alloc, line) {
            Ok(terms) => self.answer_distinct(store, &terms, now, out),
            Err(why) => answer_refused(out, why),
        }
    }

    /// Writes the ranking by distinct terms.
    fn answer_distinct<O: Sink>(
        &mut self,
        store: &mut S,
        terms: &Terms,
        now: &Settings,
        out: &mut O,
    ) -> Result<(), ShowErr>
        requires few { length terms.now ≤ 64 }
        requires apart { IsDistinct bytes_eq terms.now }
        requires fits { SearchFits (S.files store.old) self.old }
        ensures { AsksTerms S.Store O.Sink store.old store.new out.old out.new result
            self.old self.new now.now terms.now }
    {
        let infos = match find_terms(self.lists.alloc, store, &mut self.lex, terms.as_slice()) {
            Ok(infos) => infos,
            Err(refusal) => return Err(ShowErr::from(refusal)),
        };
        answer_terms(&self.lists, store, &mut self.texts, &infos, now, out)
    }

    /// Writes the reply to a query line, ranked or Boolean as the settings say.
    fn answer_question<O: Sink>(
        &mut self,
        store: &mut S,
        line: &[u8],
        now: &Settings,
        out: &mut O,
    ) -> Result<(), ShowErr>
        requires { CanAnswer (S.files store.old) self.old line.now }
        ensures { AsksLine S.Store O.Sink store.old store.new out.old out.new result
            self.old self.new now.now.ranked now.now line.now }
    {
        if now.ranked {
            self.answer_ranked(store, line, now, out)
        } else {
            self.answer_boolean(store, line, now, out)
        }
    }
}

impl<'a, S: Store> Answerer for Searcher<'a, S> {
    type Dev = S;

    ghost State = { Searching };

    ghost state = { λ s d. state_of (S.files d) (S.reads d) (S.faults d) s };

    ghost fits = { λ s. Fits s };

    ghost answers = { λ s by. AnswersBy s by };

    ghost after = { λ s t questions. Asked s t questions };

    ghost prints = { λ s question before now. Prints s question before now };

    ghost may_stop = { λ s t error. MayStop s t error };

    fn answer_line<O: Sink>(
        &mut self,
        dev: &mut S,
        line: &[u8],
        now: &Settings,
        out: &mut O,
    ) -> Result<(), ShowErr>
        requires short { length line.now ≤ 1024 }
        requires fits { SearchFits (S.files dev.old) self.old }
        // What each answerer promises of a line.
        ensures answered { LineAnswered Fits AnswersBy Asked Prints MayStop
            (state_of (S.files dev.old) (S.reads dev.old) (S.faults dev.old) self.old)
            (state_of (S.files dev.new) (S.reads dev.new) (S.faults dev.new) self.new)
            (sink_at O.written O.faults O.lacks out.old)
            (sink_at O.written O.faults O.lacks out.new) result now.now line.now }
    {
        self.answer_question(dev, line, now, out)
    }

    ghost after_none = { λ s. asked_none s };

    ghost after_more = { λ s t u xs ys first more. asked_more s t u xs ys first more };

    ghost same_reply = { λ s t xs by after answers. answers_later s t xs by after answers };

    ghost same_prints = { λ s t xs question before now after printed. prints_later s t xs question before now after printed };

    ghost stops_later = { λ s t u xs error after stops. stops_later s t u xs error after stops };
}

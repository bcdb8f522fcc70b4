//! An answerer of phrases over the open parts of a set.
ghost use Rattle.std.specs.Prelude.{◌≡◌, ◌≤◌, Some, length};
ghost use Rattle.mg_defs.specs.Texts.{count as count_text};
ghost use Rattle.mg_dev.specs.Moments.{sink_at, store_at};
ghost use Rattle.mg_dev.specs.Streams.{AfterPut};
ghost use Rattle.mg_query.specs.AllOf.{IsAllOf};
ghost use Rattle.mg_session.specs.Calls.{WritesAlone};
ghost use Rattle.mg_session.specs.Decided.{SearchOpened};
ghost use Rattle.mg_session.specs.PhraseSearching.{CanSeek, PhrasesAsked, PhrasesBy};
ghost use Rattle.mg_session.specs.PhraseSearchLaws.{phrases_later, phrases_more, phrases_none, phrases_stop};
ghost use Rattle.mg_session.specs.Replying.{AsksPhrase, AsksWords};
ghost use Rattle.mg_session.specs.Served.{LineAnswered};
ghost use Rattle.mg_session.specs.PrintedLaws.{PhraseRule as Prints, phrase_later as prints_later};
ghost use Rattle.mg_session.specs.Searching.{CanAnswer, Fits, MayStop, SearchFits, Searching, opened_at, state_of};
ghost use Rattle.mg_session.specs.Texts.{HasFewPieces};

use crate::lists::Lists;
use crate::lookup::{Sought, find_terms};
use crate::phrase_answer::answer_phrase;
use crate::word_texts::WordTexts;
use mg_defs::Settings;
use mg_dev::{Fault, PartErr, ShowErr, Sink, Store};
use mg_layout::Head;
use mg_lex::Lex;
use mg_phrase::parse_phrase;
use mg_query::{Query, Terms};
use mg_reply::{Answerer, answer_refused, put_count};
use std::alloc::Global;
use std::marker::Model;

/// Answers the lines of a session of phrases from the parts of a base.
///
/// The words of one document are held at a time, by their symbols, and of none that is longer than the
/// collection by its head. Contracts see the parts that are open.
#[derive(Drop)]
pub(crate) struct PhraseSearcher<'a, S: Store> {
    lists: Lists<'a>,
    lex: Lex<'a, S>,
    texts: WordTexts<'a, S>,
}

impl<'a, S: Store> Model for PhraseSearcher<'a, S> {
    ghost use Rattle.mg_session.specs.Searching.{Opened};

    ghost Value = { Opened };

    ghost view = { λ s. record { base = s.lists.base.now; lex = s.lex; texts = s.texts; all = s.lists.all } };
}

impl<'a, S: Store> PhraseSearcher<'a, S> {
    /// Over the parts of a base: its lexicon, which is loaded, and what its head tells of.
    pub(crate) fn new(alloc: Global, base: &'a str, lex: Lex<'a, S>, head: &Head) -> Self
        ensures { result ≡ opened_at base.entry.now lex.entry head.now }
    {
        let lists = Lists {
            alloc,
            base,
            all: head.documents,
        };
        PhraseSearcher {
            lists,
            lex,
            texts: WordTexts::new(alloc, base, head),
        }
    }

    /// Opens the parts of a set with this head: its lexicon's places are loaded, and nothing of the text.
    pub(crate) fn open(
        alloc: Global,
        store: &mut S,
        base: &'a str,
        head: &Head,
    ) -> Result<Self, Fault>
        requires { HasFewPieces head.now }
        ensures { SearchOpened head.now base.entry.now
            (store_at S.files S.reads S.faults store.old)
            (store_at S.files S.reads S.faults store.new) result }
    {
        let lex = match Lex::load(alloc, store, base, head) {
            Ok(lex) => lex,
            Err(refusal) => return Err(Fault::from(refusal)),
        };
        let searcher = PhraseSearcher::new(alloc, base, lex, head);
        Ok(searcher)
    }

    /// Writes the reply to a line.
    fn answer_question<O: Sink>(
        &mut self,
        store: &mut S,
        line: &[u8],
        out: &mut O,
    ) -> Result<(), ShowErr>
        requires { CanAnswer (S.files store.old) self.old line.now }
        ensures { AsksPhrase S.Store O.Sink store.old store.new out.old out.new result
            self.old self.new line.now }
    {
        match parse_phrase(self.lists.alloc, line) {
            Ok(phrase) => self.answer_parsed(store, &phrase, out),
            Err(why) => answer_refused(out, why),
        }
    }

    /// Writes the reply to a phrase of these words.
    fn answer_parsed<O: Sink>(
        &mut self,
        store: &mut S,
        phrase: &Terms,
        out: &mut O,
    ) -> Result<(), ShowErr>
        requires { CanSeek (S.files store.old) self.old phrase.now }
        ensures { AsksWords S.Store O.Sink store.old store.new out.old out.new result
            self.old self.new phrase.now }
    {
        match Query::all_of(self.lists.alloc, phrase) {
            Ok(query) => self.answer_joined(store, phrase, &query, out),
            Err(_) => Err(ShowErr::Part(PartErr::Memory)),
        }
    }

    /// Writes the reply to a phrase of these words, which the query joins if there is a word.
    fn answer_joined<O: Sink>(
        &mut self,
        store: &mut S,
        phrase: &Terms,
        query: &Option<Query>,
        out: &mut O,
    ) -> Result<(), ShowErr>
        requires can { CanSeek (S.files store.old) self.old phrase.now }
        requires joined { IsAllOf phrase.now query.now }
        ensures { AsksWords S.Store O.Sink store.old store.new out.old out.new result
            self.old self.new phrase.now }
    {
        match query {
            Some(query) => self.answer_words(store, phrase, query, out),
            // No document has a phrase without words.
            None => answer_none(out),
        }
    }

    /// Writes the reply to a phrase of these words, which the query joins.
    fn answer_words<O: Sink>(
        &mut self,
        store: &mut S,
        phrase: &Terms,
        query: &Query,
        out: &mut O,
    ) -> Result<(), ShowErr>
        requires can { CanSeek (S.files store.old) self.old phrase.now }
        requires joined { IsAllOf phrase.now (Some query.now) }
        ensures { AsksWords S.Store O.Sink store.old store.new out.old out.new result
            self.old self.new phrase.now }
    {
        let infos = match find_terms(self.lists.alloc, store, &mut self.lex, phrase.as_slice()) {
            Ok(infos) => infos,
            Err(refusal) => return Err(ShowErr::from(refusal)),
        };
        let sought = Sought {
            query,
            infos: &infos,
        };
        answer_phrase(&self.lists, store, &mut self.texts, phrase, &sought, out)
    }
}

/// Writes that no document was found.
fn answer_none<O: Sink>(out: &mut O) -> Result<(), ShowErr>
    ensures content { AfterPut (O.written out.old) (O.written out.new) (count_text 0) result }
    ensures alone { WritesAlone O.Sink out.old out.new result }
{
    match put_count(out, 0) {
        Ok(()) => Ok(()),
        Err(refusal) => Err(ShowErr::from(refusal)),
    }
}

impl<'a, S: Store> Answerer for PhraseSearcher<'a, S> {
    type Dev = S;

    ghost State = { Searching };

    ghost state = { λ s d. state_of (S.files d) (S.reads d) (S.faults d) s };

    ghost fits = { λ s. Fits s };

    ghost answers = { λ s by. PhrasesBy s by };

    ghost after = { λ s t questions. PhrasesAsked s t questions };

    ghost prints = { λ s question before now. Prints s question before now };

    ghost may_stop = { λ s t error. MayStop s t error };

    fn answer_line<O: Sink>(
        &mut self,
        dev: &mut S,
        line: &[u8],
        _now: &Settings,
        out: &mut O,
    ) -> Result<(), ShowErr>
        requires short { length line.now ≤ 1024 }
        requires fits { SearchFits (S.files dev.old) self.old }
        // What each answerer promises of a line.
        ensures answered { LineAnswered Fits PhrasesBy PhrasesAsked Prints MayStop
            (state_of (S.files dev.old) (S.reads dev.old) (S.faults dev.old) self.old)
            (state_of (S.files dev.new) (S.reads dev.new) (S.faults dev.new) self.new)
            (sink_at O.written O.faults O.lacks out.old)
            (sink_at O.written O.faults O.lacks out.new) result _now.now line.now }
    {
        self.answer_question(dev, line, out)
    }

    ghost after_none = { λ s. phrases_none s };

    ghost after_more = { λ s t u xs ys first more. phrases_more s t u xs ys first more };

    ghost same_reply = { λ s t xs by after answers. phrases_later s t xs by after answers };

    ghost same_prints = { λ s t xs question before now after printed. prints_later s t xs question before now after printed };

    ghost stops_later = { λ s t u xs error after stops. phrases_stop s t u xs error after stops };
}

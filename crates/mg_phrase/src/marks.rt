//! What words are for a phrase, told by small numbers.
ghost use Rattle.std.specs.Prelude.{◌≡◌, ◌≢◌, ◌≤◌, ◌<◌, ℕ, List, [], Some, IfSome, get_or, length, slice_get};
ghost use Rattle.mg_defs.specs.Terms.{folded};
ghost use Rattle.mg_phrase.specs.Marks.{KeepsMark, MarksFit, mark_of as mark_of_spec, place_in as place_in_spec};

use mg_parse::is_term;
use mg_query::{Term, Terms};
use std::alloc::Global;
use std::marker::Model;

/// The mark of an empty word, which stands between no two words of a phrase.
const EMPTY: u8 = 1;

/// The mark of the phrase's first term. The others follow, and behind them all other terms have one mark.
pub(crate) const FIRST: u8 = 2;

/// The first place of a word's term among those of a phrase; how many they are, where it is none of them.
fn place_in(phrase: &[Term], word: &[u8]) -> u8
    requires { length phrase.now ≤ 64 }
    ensures place { result ≡ place_in_spec phrase.now (folded word.now) }
    ensures within { result ≤ 64 }
{
    for (i, term) in phrase.iter().enumerate() {
        if is_term(word, term.as_bytes()) {
            return i as u8;
        }
    }
    phrase.len() as u8
}

/// The mark of a word.
fn mark_of(phrase: &Terms, word: &[u8]) -> u8
    requires { length phrase.now ≤ 64 }
    ensures { result ≡ mark_of_spec phrase.now word.now }
{
    if word.is_empty() {
        return EMPTY;
    }
    FIRST + place_in(phrase.as_slice(), word)
}

/// The marks of words by their symbols, as far as they were asked for.
///
/// A mark tells which term of the phrase a word is, so a word is compared with the phrase at its first
/// meeting alone. They take a byte a symbol, as far as the greatest symbol that was met.
#[derive(Drop)]
pub struct Marks<'p> {
    phrase: &'p Terms,
    known: Vec<u8>,
}

impl<'p> Model for Marks<'p> {
    ghost use Rattle.std.specs.Prelude.{◌≤◌, length};
    ghost use Rattle.mg_phrase.specs.Marks.{Marking};

    ghost Value = { Marking };

    ghost view = { λ m. record { phrase = m.phrase.now; marks = m.known.items } };

    ghost invariant = { λ m. length m.phrase.now ≤ 64 };
}

impl<'p> Marks<'p> {
    /// No mark of a phrase yet.
    pub fn new(alloc: Global, phrase: &'p Terms) -> Self
        requires { length phrase.now ≤ 64 }
        ensures { result ≡ record { phrase = phrase.entry.now; marks = [] } }
    {
        Marks {
            phrase,
            known: Vec::new(alloc),
        }
    }

    /// The phrase.
    pub fn phrase(&self) -> &'p Terms
        ensures phrase { result.now ≡ self.now.phrase }
        ensures few { length result.now ≤ 64 }
    {
        self.phrase
    }

    /// The mark that is kept of a symbol, which is none before the first meeting.
    #[inline]
    pub fn known(&self, symbol: u32) -> Option<u8>
        ensures { IfSome result (λ mark. (mark ≡ get_or self.now.marks symbol 0) × (mark ≢ 0)) }
    {
        match self.known.get(symbol as usize) {
            Some(mark) if *mark != 0 => Some(*mark),
            _ => None,
        }
    }

    /// The mark of a word, which is kept by its symbol. Where memory is wanted for it, it is not kept.
    #[inline(never)]
    pub fn learn(&mut self, symbol: u32, word: &[u8]) -> u8
        ensures mark { result ≡ mark_of_spec self.old.phrase word.now }
        ensures phrase { self.new.phrase ≡ self.old.phrase }
        ensures fit { (pieces : List (List ℕ)) → slice_get pieces symbol ≡ Some word.now →
            MarksFit pieces self.old → MarksFit pieces self.new }
    {
        let mark = mark_of(self.phrase, word);
        keep(&mut self.known, symbol, mark);
        mark
    }
}

/// Keeps the mark of a symbol, where there is memory for it.
fn keep(known: &mut Vec<u8>, symbol: u32, mark: u8)
    ensures { KeepsMark symbol mark known.old.items known.new.items }
{
    let place = symbol as usize;
    if place >= known.len() {
        match known.resize(place + 1, 0) {
            Ok(()) => {}
            Err(_) => return,
        }
    }
    known[place] = mark;
}

//! The places of a phrase among words that are told by their marks.
ghost use Rattle.std.specs.Prelude.{◌≡◌, ◌≤◌, ◌<◌, ◌+◌, ◌^◌, ◌∷◌, ℕ, List, [], length};
ghost use Rattle.mg_defs.specs.Phrases.{phrase_places};
ghost use Rattle.mg_phrase.specs.Marks.{mark_of, places_with, words_of};

use crate::marks::FIRST;
use crate::places::{MOST_WORDS, carry_on};
use mg_query::{Term, Terms};
use std::marker::Model;

/// In how many places a phrase stood among the words that were taken, and where it may go on.
///
/// What goes from word to word is a flag for each word of the phrase.
#[derive(Drop)]
pub struct PhraseCount<'p> {
    phrase: &'p [Term],
    begun: [bool; MOST_WORDS],
    places: u64,
}

impl<'p> Model for PhraseCount<'p> {
    ghost use Rattle.std.specs.Prelude.{◌≤◌, length};
    ghost use Rattle.mg_phrase.specs.Flags.{to_come};
    ghost use Rattle.mg_phrase.specs.Marks.{Counting};

    ghost Value = { Counting };

    ghost view = { λ c. record { phrase = c.phrase.now; begun = to_come c.phrase.now c.begun; places = c.places } };

    ghost invariant = { λ c. length c.phrase.now ≤ 64 };
}

impl<'p> PhraseCount<'p> {
    /// No word was taken. Behind all words of a document, what was counted is the phrase's places there.
    pub fn new(phrase: &'p Terms) -> Self
        requires { length phrase.now ≤ 64 }
        ensures phrase { result.phrase ≡ phrase.entry.now }
        ensures none { result.places ≡ 0 }
        ensures begun { result.begun ≡ [] }
        ensures count { (doc : List ℕ) →
            places_with result (words_of doc) ≡ phrase_places phrase.entry.now doc }
    {
        PhraseCount {
            phrase: phrase.as_slice(),
            begun: [false; MOST_WORDS],
            places: 0,
        }
    }

    /// Goes on by the word of a mark.
    #[inline]
    pub fn take(&mut self, mark: u8)
        requires { self.old.places < 2 ^ 63 }
        ensures phrase { self.new.phrase ≡ self.old.phrase }
        ensures most { self.new.places ≤ self.old.places + 1 }
        ensures count { (word : List ℕ) (words : List (List ℕ)) →
            mark ≡ mark_of self.old.phrase word →
            places_with self.new words ≡ places_with self.old (word ∷ words) }
    {
        if mark < FIRST {
            return;
        }
        let phrase = self.phrase;
        let place = usize::from(mark - FIRST);
        if place >= phrase.len() {
            self.begun = [false; MOST_WORDS];
            return;
        }
        if carry_on(&mut self.begun, phrase, phrase[place].as_bytes()) {
            self.places += 1;
        }
    }

    /// How many places were counted.
    pub fn places(&self) -> u64
        ensures is { result ≡ self.now.places }
        ensures all { result ≡ places_with self.now [] }
    {
        self.places
    }
}

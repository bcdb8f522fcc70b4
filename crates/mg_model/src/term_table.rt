//! The numbers of terms.
ghost use Rattle.std.specs.Prelude.{◌≡◌, ◌-◌, ◌<◌, ◌≤◌, ◌^◌, ◌++◌, [], length, take, slice_get, Some, IfOk, IfSome, OnOk, ◌∷◌};
ghost use Rattle.std.specs.List.Sorted.{IsStrictlySortedBy};
ghost use Rattle.std.specs.Ordering.{nat_cmp};
ghost use Rattle.std.specs.Cmp.Lexicographic.{slice_cmp};
ghost use Rattle.mg_defs.specs.Terms.{folded, is_empty, terms_of_words};
ghost use Rattle.mg_model.specs.Terms.{number_kept, numbers_kept, place_in, terms_and_numbers};

use crate::block::PieceBlock;
use crate::dropping::without;
use crate::{Stream, TextModel};
use mg_parse::{PIECE_BYTES, fold};
use std::alloc::{AllocError, Global};
use std::marker::Model;

/// What is kept of a word without a term: no term has this number.
const NO_TERM: u32 = u32::MAX;

/// The distinct terms of a model's words in the order of their bytes, numbered from 0, and the
/// number of each word's term. Words that fold together have one term, and the empty word has none.
///
/// A term takes an entry of sixteen bytes, and its own bytes beside it where it has more than
/// fifteen. A word takes four. While the table is made, each word has an entry.
#[derive(Drop)]
pub struct TermTable {
    terms: PieceBlock,
    numbers: Vec<u32>,
}

impl Model for TermTable {
    ghost use Rattle.mg_model.specs.Terms.{TermNumbers, numbers_kept};

    ghost Value = { TermNumbers };

    ghost use Rattle.std.specs.Cmp.Lexicographic.{slice_cmp};
    ghost use Rattle.std.specs.List.Sorted.{IsStrictlySortedBy};
    ghost use Rattle.std.specs.Ordering.{nat_cmp};

    ghost view = { λ t. record { terms = t.terms; numbers = numbers_kept t.numbers.items } };

    ghost invariant = { λ t. IsStrictlySortedBy (slice_cmp nat_cmp) t.terms };
}

/// Whether a word is empty.
fn is_empty(word: &[u8]) -> bool
    ensures { result ≡ is_empty word.now }
{
    match word {
        [] => true,
        _ => false,
    }
}

/// Writes the term of a word at the front of a buffer, and answers its length.
fn fold_into(word: &[u8], term: &mut [u8; PIECE_BYTES]) -> usize
    requires { length word.now ≤ 255 }
    ensures term { take result term.new ≡ folded word.now }
    ensures short { result ≤ 255 }
{
    fold(word, term)
}

/// Adds the term of a word, which is not empty, behind others. There are fewer than 2^22 before.
fn push_term(terms: &mut PieceBlock, word: &[u8]) -> Result<(), AllocError>
    requires few { length terms.old < 2 ^ 22 }
    requires short { length word.now ≤ 255 }
    ensures { OnOk result (terms.new ≡ terms.old ++ terms_of_words (word.now ∷ [])) }
{
    if is_empty(word) {
        return Ok(());
    }
    let mut term = [0; PIECE_BYTES];
    let length = fold_into(word, &mut term);
    terms.push(&term[..length])
}

/// The place of a word's term among the terms.
fn number_of(terms: &PieceBlock, word: &[u8]) -> Option<u32>
    requires rising { IsStrictlySortedBy (slice_cmp nat_cmp) terms.now }
    requires short { length word.now ≤ 255 }
    ensures { result ≡ place_in terms.now word.now }
{
    if is_empty(word) {
        return None;
    }
    let mut term = [0; PIECE_BYTES];
    let length = fold_into(word, &mut term);
    terms.place_of(&term[..length])
}

/// What is kept of the number of a word's term.
fn kept(number: Option<u32>) -> u32
    requires { IfSome number (λ number. number < 2 ^ 22) }
    ensures { number_kept result ≡ number }
{
    match number {
        Some(number) => number,
        None => NO_TERM,
    }
}

/// The number by what is kept of it.
#[inline]
fn number_kept(kept: u32) -> Option<u32>
    ensures { result ≡ number_kept kept }
{
    if kept == NO_TERM { None } else { Some(kept) }
}

impl TermTable {
    /// The terms of a model's words.
    pub fn of(alloc: Global, model: &TextModel) -> Result<Self, AllocError>
        ensures { IfOk result (λ table. table ≡ terms_and_numbers model.now.words.pieces) }
    {
        let terms = match sorted_terms(alloc, model) {
            Ok(terms) => terms,
            Err(refusal) => return Err(refusal),
        };
        match term_numbers(alloc, model, &terms) {
            Ok(numbers) => Ok(TermTable { terms, numbers }),
            Err(refusal) => Err(without(terms, refusal)),
        }
    }

    /// The number of terms, at most 2^22. They are distinct, and rise by their bytes.
    pub fn count(&self) -> u32
        ensures count { result ≡ length self.now.terms }
        ensures few { length self.now.terms ≤ 2 ^ 22 }
        ensures keeps { IsStrictlySortedBy (slice_cmp nat_cmp) self.now.terms }
    {
        self.terms.len()
    }

    /// The term of a number, which is below the count. It has at most 255 bytes.
    pub fn term(&self, number: u32) -> &[u8]
        requires { number < length self.now.terms }
        ensures term { slice_get self.now.terms number ≡ Some result.now }
        ensures short { length result.now ≤ 255 }
    {
        self.terms.piece(number)
    }

    /// The number of the term of a word's symbol; None exactly for the empty word.
    pub fn term_of(&self, symbol: u32) -> Option<u32>
        requires { symbol < length self.now.numbers }
        ensures { slice_get self.now.numbers symbol ≡ Some result }
    {
        number_kept(self.numbers[symbol as usize])
    }
}

/// The terms of a model's words, in the order of their bytes.
fn sorted_terms(alloc: Global, model: &TextModel) -> Result<PieceBlock, AllocError>
    ensures { IfOk result (λ terms. terms ≡ (terms_and_numbers model.now.words.pieces).terms) }
{
    let words = model.canon(Stream::Words).count();
    let mut terms = match PieceBlock::with_capacity(alloc, words) {
        Ok(terms) => terms,
        Err(refusal) => return Err(refusal),
    };
    match put_terms(&mut terms, model) {
        Ok(()) => Ok(terms),
        Err(refusal) => Err(without(terms, refusal)),
    }
}

/// Puts the terms of a model's words where there are none, in the order of their bytes.
fn put_terms(terms: &mut PieceBlock, model: &TextModel) -> Result<(), AllocError>
    requires none { terms.old ≡ [] }
    ensures { OnOk result (terms.new ≡ (terms_and_numbers model.now.words.pieces).terms) }
{
    let words = model.canon(Stream::Words).count();
    for symbol in 0..words {
        match push_term(terms, model.piece(Stream::Words, symbol)) {
            Ok(()) => {}
            Err(refusal) => return Err(refusal),
        }
    }
    terms.sort_distinct();
    terms.shrink();
    Ok(())
}

/// What is kept of the number of the term of each of a model's words.
fn term_numbers(
    alloc: Global,
    model: &TextModel,
    terms: &PieceBlock,
) -> Result<Vec<u32>, AllocError>
    requires { terms.now ≡ (terms_and_numbers model.now.words.pieces).terms }
    ensures { IfOk result (λ numbers.
        numbers_kept numbers.items ≡ (terms_and_numbers model.now.words.pieces).numbers) }
{
    let words = model.canon(Stream::Words).count();
    let mut numbers = Vec::with_capacity(alloc, words as usize)?;
    for symbol in 0..words {
        let number = number_of(terms, model.piece(Stream::Words, symbol));
        // For the proof: there are at most 2^22 terms.
        let _ = terms.len();
        numbers.push(kept(number))?;
    }
    Ok(numbers)
}

//! The words of a line, one after another.
ghost use Rattle.std.specs.Prelude.{◌≡◌, ◌≤◌, [], length};
ghost use Rattle.mg_defs.specs.Limits.{line_bytes};
ghost use Rattle.mg_query.specs.Words.{ReadsWords, terms_of, with_word};

use crate::lexer::{Lexer, Token};
use crate::parser::WORD_LIMIT;
use crate::query_err::QueryErr;
use crate::term::Term;
use crate::terms::Terms;
use std::alloc::Global;

/// The most terms of a ranked line or a phrase.
const TERM_LIMIT: usize = 64;

/// Whether a word that came before counts again.
#[derive(Clone, Copy, PartialEq, Eq)]
pub(crate) enum Repeats {
    /// In a ranked line it doesn't.
    Dropped,
    /// In a phrase it does.
    Kept,
}

/// Puts the terms of a line's words behind one another. Every token that is no word only separates.
pub(crate) fn read_words(
    alloc: Global,
    line: &[u8],
    repeats: Repeats,
    terms: &mut Terms,
) -> Result<(), QueryErr>
    requires line { length line.now ≤ line_bytes }
    requires empty { terms.old ≡ [] }
    ensures read { ReadsWords (terms_of repeats line.now) terms.new result }
{
    let mut lexer = Lexer::new(line);
    'tokens: while let Some(next) = lexer.next() {
        if let Token::Word(word) = next.token {
            add_word(alloc, word, next.at, repeats, terms)?;
        }
    }
    Ok(())
}

/// Adds the term of a word at a place, unless it is there and repeats are dropped.
fn add_word(
    alloc: Global,
    word: &[u8],
    at: u32,
    repeats: Repeats,
    terms: &mut Terms,
) -> Result<(), QueryErr>
    ensures read { ReadsWords (with_word repeats terms.old at word.now) terms.new result }
{
    if word.len() > WORD_LIMIT {
        return Err(QueryErr::TermTooLong { at });
    }
    let term = Term::of_word(alloc, word)?;
    if repeats == Repeats::Dropped && terms.has(&term) {
        return Ok(());
    }
    if terms.len() >= TERM_LIMIT {
        return Err(QueryErr::TooManyTerms { at });
    }
    terms.push(term)?;
    Ok(())
}

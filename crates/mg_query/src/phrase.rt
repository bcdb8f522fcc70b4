//! Phrases: the words of a line in order.
ghost use Rattle.std.specs.Prelude.{◌≡◌, ◌≢◌, ◌≤◌, ℕ, length, IfOk, IfErr, IfSome};
ghost use Rattle.mg_defs.specs.Limits.{line_bytes};
ghost use Rattle.mg_defs.specs.Phrases.{phrase_of};
ghost use Rattle.mg_defs.specs.Refusals.{reads, refused};
ghost use Rattle.mg_query.specs.RefusalOf.{refusal_of};

use crate::query_err::QueryErr;
use crate::terms::Terms;
use crate::words::{Repeats, read_words};
use std::alloc::Global;

/// The words of a line in order, folded, repeats kept.
///
/// A line has at most [`LINE_LIMIT`](crate::LINE_LIMIT) bytes; one without words is a phrase of
/// none. Every token that is no word only separates.
///
/// # Errors
///
/// The first token that is a word of more than 255 bytes, or else the 65th word.
pub fn parse_phrase(alloc: Global, line: &[u8]) -> Result<Terms, QueryErr>
    requires { length line.now ≤ line_bytes }
    ensures reads { IfOk result (λ phrase. phrase_of line.now ≡ reads phrase) }
    ensures refused { IfErr result (λ e.
        IfSome (refusal_of e) (λ why. phrase_of line.now ≡ refused why)) }
    ensures never_syntax { (at : ℕ) → result ≢ Err (QueryErr.Syntax at) }
    ensures never_deep { (at : ℕ) → result ≢ Err (QueryErr.TooDeep at) }
{
    let mut phrase = Terms::new(alloc);
    read_words(alloc, line, Repeats::Kept, &mut phrase)?;
    Ok(phrase)
}

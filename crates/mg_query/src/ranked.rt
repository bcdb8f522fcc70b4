//! Ranked lines.
ghost use Rattle.std.specs.Prelude.{◌≡◌, ◌≢◌, ◌≤◌, ℕ, length, IfOk, IfErr, IfSome};
ghost use Rattle.mg_defs.specs.Limits.{line_bytes};
ghost use Rattle.mg_defs.specs.Read.{ranked};
ghost use Rattle.mg_defs.specs.Refusals.{reads, refused};
ghost use Rattle.mg_query.specs.RefusalOf.{refusal_of};

use crate::query_err::QueryErr;
use crate::terms::Terms;
use crate::words::{Repeats, read_words};
use std::alloc::Global;

/// The distinct terms of a ranked line, in order of first appearance.
///
/// A line has at most [`LINE_LIMIT`](crate::LINE_LIMIT) bytes; one without words has no terms.
///
/// # Errors
///
/// The first token that is a word of more than 255 bytes, or that makes a 65th distinct term.
pub fn parse_ranked(alloc: Global, line: &[u8]) -> Result<Terms, QueryErr>
    requires { length line.now ≤ line_bytes }
    ensures reads { IfOk result (λ terms. ranked line.now ≡ reads terms) }
    ensures refused { IfErr result (λ e.
        IfSome (refusal_of e) (λ why. ranked line.now ≡ refused why)) }
    ensures never_syntax { (at : ℕ) → result ≢ Err (QueryErr.Syntax at) }
    ensures never_deep { (at : ℕ) → result ≢ Err (QueryErr.TooDeep at) }
{
    let mut terms = Terms::new(alloc);
    read_words(alloc, line, Repeats::Dropped, &mut terms)?;
    Ok(terms)
}

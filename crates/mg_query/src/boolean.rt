//! Boolean lines.
ghost use Rattle.std.specs.Prelude.{◌≡◌, ◌≢◌, ◌≤◌, ℕ, length, IfOk, IfErr, IfSome};
ghost use Rattle.mg_defs.specs.Limits.{line_bytes};
ghost use Rattle.mg_defs.specs.Read.{boolean};
ghost use Rattle.mg_defs.specs.Refusals.{reads, refused};
ghost use Rattle.mg_query.specs.QueryOf.{query_of};
ghost use Rattle.mg_query.specs.RefusalOf.{refusal_of};

use crate::parser::Parser;
use crate::query::Query;
use crate::query_err::QueryErr;
use std::alloc::Global;

/// The query of a Boolean line, its words folded.
///
/// `!` binds tightest, then `&`, then `|`; operands side by side mean and, and equal signs group
/// from the left. A line has at most [`LINE_LIMIT`](crate::LINE_LIMIT) bytes.
///
/// # Errors
///
/// The first token that no query goes on with, that opens a 33rd parenthesis, or that is a word
/// of more than 255 bytes; `Syntax` at the line's length where the line ends too early.
pub fn parse_boolean(alloc: Global, line: &[u8]) -> Result<Query, QueryErr>
    requires { length line.now ≤ line_bytes }
    ensures reads { IfOk result (λ q. boolean line.now ≡ reads (query_of q)) }
    ensures refused { IfErr result (λ e.
        IfSome (refusal_of e) (λ why. boolean line.now ≡ refused why)) }
    ensures never_many { (at : ℕ) → result ≢ Err (QueryErr.TooManyTerms at) }
{
    let mut parser = Parser::new(alloc, line);
    let query = parser.or(0)?;
    match parser.hand {
        None => Ok(query),
        Some(next) => Err(QueryErr::Syntax { at: next.at }),
    }
}

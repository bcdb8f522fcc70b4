//! Query lines: from a line's bytes to a Boolean query, to a list of distinct terms, or to a phrase.
//!
//! A line is read in one pass, with one token in hand: no list of its tokens is kept, and a
//! query's terms are the only copies of its bytes. The parser descends once for each open
//! parenthesis, of which a line has at most 32, and counts the signs `!` in a loop, so that the
//! stack it takes does not grow with the line. The query itself is at most as deep as its line is
//! long.
//!
//! Each line has exactly one answer, which the definitions of `mg_defs` give: the query that the
//! grammar reads from its tokens, or the first token at which the line is refused. The contracts
//! here say that the answer is that one, and leave open only a want of memory.
#![tactic(auto)]

mod blanks;
mod boolean;
mod lexer;
mod parser;
mod phrase;
mod query;
mod query_err;
mod ranked;
mod term;
mod terms;
mod words;

pub use blanks::{blank_len, is_blank};
pub use boolean::parse_boolean;
pub use phrase::parse_phrase;
pub use query::Query;
pub use query_err::QueryErr;
pub use ranked::parse_ranked;
pub use term::Term;
pub use terms::Terms;

/// The most bytes of a line.
pub const LINE_LIMIT: usize = 1024;

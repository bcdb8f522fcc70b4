//! The parser of Boolean lines.
ghost use Rattle.std.specs.Prelude.{◌≡◌, ℕ, ◌≤◌, [], ◌∷◌, length, drop, nat_lt, IfNone, IfSome};
ghost use Rattle.std.specs.Bool.{OnTrue, OnFalse};
ghost use Rattle.mg_defs.specs.Grammar.{or_level, and_level, not_level};
ghost use Rattle.mg_defs.specs.Limits.{line_bytes, open_parentheses};
ghost use Rattle.mg_defs.specs.Tokens.{tokens, bang};
ghost use Rattle.mg_query.specs.Ahead.{StopsAnd, IsNotAhead, JoinsTo};
ghost use Rattle.mg_query.specs.Parsed.{Parses, Takes};
ghost use Rattle.mg_query.specs.TokenOf.{sign_token};

use crate::lexer::{Lexer, Placed, Sign, Token};
use crate::query::Query;
use crate::query_err::QueryErr;
use crate::term::Term;
use std::alloc::Global;

/// The most parentheses that are open at once.
const DEPTH_LIMIT: u32 = 32;

/// The most bytes of a word.
pub(crate) const WORD_LIMIT: usize = 255;

/// Descends over a line with one token in hand.
#[derive(Drop)]
pub(crate) struct Parser<'a> {
    alloc: Global,
    lexer: Lexer<'a>,
    pub(crate) hand: Option<Placed<'a>>,
    // the line's length
    end: u32,
}

impl<'a> Parser<'a> {
    ghost use Rattle.mg_query.specs.AheadOf.{ahead};
    ghost use Rattle.mg_query.specs.TokensLeft.{placed_of};

    pub(crate) fn new(alloc: Global, line: &'a [u8]) -> Parser<'a>
        requires { length line.now ≤ line_bytes }
        ensures tokens { ahead result ≡ tokens line.now }
        ensures end { result.end ≡ length line.now }
    {
        let mut lexer = Lexer::new(line);
        let hand = lexer.next();
        Parser {
            alloc,
            lexer,
            hand,
            end: line.len() as u32,
        }
    }

    /// A query with its signs `|`, up to a closing parenthesis or the end.
    #[cycle(parser)]
    pub(crate) fn or(&mut self, depth: u32) -> Result<Query, QueryErr>
        requires { depth ≤ open_parentheses }
        ensures parsed { Parses or_level depth self.old self.new result }
    {
        let mut query = self.and(depth)?;
        'operands: while self.takes(Sign::Bar) {
            let right = self.and(depth)?;
            query = Query::or(self.alloc, query, right)?;
        }
        Ok(query)
    }

    /// Operands side by side, or with signs `&` between them.
    #[cycle(parser)]
    fn and(&mut self, depth: u32) -> Result<Query, QueryErr>
        requires { depth ≤ open_parentheses }
        ensures parsed { Parses and_level depth self.old self.new result }
    {
        let mut query = self.not(depth)?;
        'operands: while self.joins() {
            let right = self.not(depth)?;
            query = Query::and(self.alloc, query, right)?;
        }
        Ok(query)
    }

    /// An operand and the signs `!` before it.
    #[cycle(parser)]
    fn not(&mut self, depth: u32) -> Result<Query, QueryErr>
        requires { depth ≤ open_parentheses }
        ensures parsed { Parses not_level depth self.old self.new result }
    {
        let mut signs = 0u32;
        'signs: while self.takes(Sign::Bang) {
            signs += 1;
        }
        let query = self.operand(depth)?;
        let negated = Query::negated(self.alloc, query, signs)?;
        Ok(negated)
    }

    /// A word, or a query between parentheses.
    #[cycle(parser)]
    fn operand(&mut self, depth: u32) -> Result<Query, QueryErr>
        requires shallow { depth ≤ open_parentheses }
        requires no_bang { IsNotAhead bang (ahead self.old) }
        ensures parsed { Parses not_level depth self.old self.new result }
    {
        let Some(first) = self.take() else {
            return Err(QueryErr::Syntax { at: self.end });
        };
        match first.token {
            Token::Word(word) => {
                if word.len() > WORD_LIMIT {
                    return Err(QueryErr::TermTooLong { at: first.at });
                }
                let term = Term::of_word(self.alloc, word)?;
                Ok(Query::Term(term))
            }
            Token::Sign(sign) => match sign {
                Sign::Opening => {
                    if !may_open(depth) {
                        return Err(QueryErr::TooDeep { at: first.at });
                    }
                    let inner = self.or(depth + 1)?;
                    if !self.takes(Sign::Closing) {
                        return Err(QueryErr::Syntax { at: self.end });
                    }
                    Ok(inner)
                }
                Sign::Bar => Err(QueryErr::Syntax { at: first.at }),
                Sign::Amp => Err(QueryErr::Syntax { at: first.at }),
                Sign::Bang => Err(QueryErr::Syntax { at: first.at }),
                Sign::Closing => Err(QueryErr::Syntax { at: first.at }),
            },
        }
    }

    /// Whether one more operand of an and follows. A sign `&` before it is taken.
    fn joins(&mut self) -> bool
        ensures yes { OnTrue result (JoinsTo (ahead self.old) (ahead self.new)) }
        ensures no { OnFalse result (StopsAnd (ahead self.old)) }
        ensures same { OnFalse result (ahead self.new ≡ ahead self.old) }
        ensures end { self.new.end ≡ self.old.end }
    {
        let Some(next) = self.hand else {
            return false;
        };
        match next.token {
            Token::Word(_) => true,
            Token::Sign(Sign::Bang) => true,
            Token::Sign(Sign::Opening) => true,
            Token::Sign(Sign::Amp) => {
                self.advance();
                true
            }
            Token::Sign(Sign::Bar) => false,
            Token::Sign(Sign::Closing) => false,
        }
    }

    /// Takes a sign, if it is in hand.
    fn takes(&mut self, sign: Sign) -> bool
        ensures taken { Takes (sign_token sign) self.old self.new result }
    {
        let Some(next) = self.hand else {
            return false;
        };
        let is_it = next.is_sign(sign);
        if is_it {
            self.advance();
        }
        is_it
    }

    /// The token in hand; the next one takes its place.
    fn take(&mut self) -> Option<Placed<'a>>
        ensures some { IfSome result (λ t. ahead self.old ≡ placed_of t ∷ ahead self.new) }
        ensures none { IfNone result (ahead self.old ≡ []) }
        ensures end { self.new.end ≡ self.old.end }
    {
        let taken = self.hand?;
        self.advance();
        Some(taken)
    }

    /// Takes the next token in hand.
    fn advance(&mut self)
        ensures tokens { ahead self.new ≡ drop 1 (ahead self.old) }
        ensures end { self.new.end ≡ self.old.end }
    {
        if self.hand.is_some() {
            self.hand = self.lexer.next();
        }
    }
}

/// Whether one more parenthesis may be opened where so many are open.
fn may_open(depth: u32) -> bool
    ensures is { result ≡ nat_lt depth open_parentheses }
{
    depth < DEPTH_LIMIT
}

//! The tokens of a line, one after another.
ghost use Rattle.std.specs.Prelude.{◌≡◌, ◌≢◌, ℕ, ◌+◌, ◌<◌, ◌≤◌, [], ◌∷◌, length, drop, IfNone, IfSome};
ghost use Rattle.std.specs.Bool.{OnTrue, OnFalse};
ghost use Rattle.std.specs.Option.{option_map};
ghost use Rattle.mg_defs.specs.Limits.{line_bytes};
ghost use Rattle.mg_defs.specs.Tokens.{tokens_from, tokens, onto_sign, sign_of as sign_of_spec};
ghost use Rattle.mg_query.specs.TokenOf.{token_of, sign_token};

use mg_parse::{is_word_byte, word_len};

/// A sign of a query.
#[derive(Clone, Copy, PartialEq, Eq)]
pub(crate) enum Sign {
    Bar,
    Amp,
    Bang,
    Opening,
    Closing,
}

/// A token of a line.
#[derive(Clone, Copy)]
pub(crate) enum Token<'a> {
    Word(&'a [u8]),
    Sign(Sign),
}

/// A token and the place of its first byte.
#[derive(Clone, Copy)]
pub(crate) struct Placed<'a> {
    pub(crate) token: Token<'a>,
    pub(crate) at: u32,
}

impl Placed<'_> {
    /// Whether it is this sign.
    pub(crate) fn is_sign(self, sign: Sign) -> bool
        ensures yes { OnTrue result (token_of self.entry.token ≡ sign_token sign) }
        ensures no { OnFalse result (token_of self.entry.token ≢ sign_token sign) }
    {
        match self.token {
            Token::Word(_) => false,
            Token::Sign(own) => own == sign,
        }
    }
}

/// Gives the tokens of a line from the front, and holds the bytes that are left.
#[derive(Drop)]
pub(crate) struct Lexer<'a> {
    pub(crate) rest: &'a [u8],
    // the place of the first of them
    pub(crate) at: u32,
    ghost within: { at + length rest.now ≤ line_bytes },
}

impl<'a> Lexer<'a> {
    ghost use Rattle.mg_query.specs.TokensLeft.{tokens_left, placed_of};

    pub(crate) fn new(line: &'a [u8]) -> Lexer<'a>
        requires { length line.now ≤ line_bytes }
        ensures { tokens_left result ≡ tokens line.now }
    {
        Lexer { rest: line, at: 0 }
    }

    /// The next token.
    pub(crate) fn next(&mut self) -> Option<Placed<'a>>
        ensures some { IfSome result (λ t. tokens_left self.old ≡ placed_of t ∷
            tokens_left self.new) }
        ensures none { IfNone result (tokens_left self.old ≡ []) }
    {
        'bytes: while !self.rest.is_empty() {
            let at = self.at;
            let (token, used) = lex(self.rest);
            let (_, after) = self.rest.split_at(used);
            self.rest = after;
            self.at += used as u32;
            if let Some(token) = token {
                return Some(Placed { token, at });
            }
        }
        None
    }
}

/// The token at the front, if one begins there, and how many bytes it takes.
fn lex<'a>(text: &'a [u8]) -> (Option<Token<'a>>, usize)
    requires { 0 < length text.now }
    ensures tokens { (p : ℕ) → tokens_from p text.now ≡ onto_sign p (option_map token_of result.0)
        (tokens_from (p + result.1) (drop result.1 text.now)) }
    ensures used { (0 < result.1) × (result.1 ≤ length text.now) }
{
    if !is_word_byte(text[0]) {
        return (sign_of(text[0]), 1);
    }
    let len = word_len(text);
    let (word, _) = text.split_at(len);
    (Some(Token::Word(word)), len)
}

/// The sign that a byte is.
#[tactic(auto, unfolding(mg_defs::specs::Tokens::sign_of))]
fn sign_of<'a>(byte: u8) -> Option<Token<'a>>
    ensures { option_map token_of result ≡ sign_of_spec byte }
{
    match byte {
        b'|' => Some(Token::Sign(Sign::Bar)),
        b'&' => Some(Token::Sign(Sign::Amp)),
        b'!' => Some(Token::Sign(Sign::Bang)),
        b'(' => Some(Token::Sign(Sign::Opening)),
        b')' => Some(Token::Sign(Sign::Closing)),
        _ => None,
    }
}

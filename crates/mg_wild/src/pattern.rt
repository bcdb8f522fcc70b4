//! The pattern of a line.
ghost use Rattle.std.specs.Prelude.{◌≡◌, ◌≤◌, ◌<◌, ◌+◌, ◌-◌, length, take, IfOk, IfErr, IfSome};
ghost use Rattle.std.specs.Bool.{OnTrue, OnFalse};
ghost use Rattle.mg_defs.specs.Patterns.{body, pattern_at, pattern_of, right_of, sides, star_of, without_end_blanks};
ghost use Rattle.mg_defs.specs.Terms.{folded};
ghost use Rattle.mg_wild.specs.Patterns.{bad_of, sides_of};

use mg_parse::word_len;
use mg_query::{Term, blank_len, is_blank};
use std::alloc::{AllocError, Global};

/// What stands before a pattern's star and behind it, folded.
///
/// Contracts see both as the lists of their bytes.
#[derive(Debug, Drop)]
pub struct Pattern {
    pub left: Term,
    pub right: Term,
}

/// Why a line is no pattern.
#[derive(Clone, Copy, Debug, PartialEq, Eq)]
pub enum PatternErr {
    /// The byte at this place of the line, counted from 0, can't go on a pattern; or the pattern
    /// ends here, and no star came.
    Bad { at: u32 },
    Memory,
}

/// Whether the last of so many bytes is a blank.
#[tactic(auto, using(crate::proofs::PatternLaws::lost_at, crate::proofs::PatternLaws::kept_at, crate::proofs::PatternLaws::empty_at))]
fn ends_in_blank(text: &[u8], len: usize) -> bool
    requires { len ≤ length text.now }
    ensures some { OnTrue result (0 < len) }
    ensures blank { OnTrue result (without_end_blanks (take (len - 1) text.now)
        ≡ without_end_blanks (take len text.now)) }
    ensures none { OnFalse result (without_end_blanks (take len text.now) ≡ take len text.now) }
{
    if len == 0 {
        return false;
    }
    is_blank(text[len - 1])
}

/// How many bytes stand before the blanks at the end.
fn trimmed_len(text: &[u8]) -> usize
    ensures is { take result text.now ≡ without_end_blanks text.now }
    ensures within { result ≤ length text.now }
{
    let mut len = text.len();
    while ends_in_blank(text, len) {
        len -= 1;
    }
    len
}

/// The pattern of a line, which stands between the line's blanks. The line has at most
/// [`LINE_LIMIT`](mg_query::LINE_LIMIT) bytes.
///
/// # Errors
///
/// The first byte that is no word byte and no star, or that is a second star; where there is none
/// and no star came, the pattern's end. The end of an empty pattern is the line's end.
pub fn read_pattern(alloc: Global, line: &[u8]) -> Result<Pattern, PatternErr>
    requires { length line.now ≤ 1024 }
    ensures reads { IfOk result (λ p. pattern_of line.now ≡ sides (sides_of p)) }
    ensures refused { IfErr result (λ e. IfSome (bad_of e) (λ why. pattern_of line.now ≡ why)) }
{
    let start = blank_len(line);
    let (_, from) = line.split_at(start);
    let (body, _) = from.split_at(trimmed_len(from));
    read_body(alloc, start as u32, body)
}

/// The pattern of the bytes between a line's blanks, which begin at a place of the line.
fn read_body(alloc: Global, at: u32, body: &[u8]) -> Result<Pattern, PatternErr>
    requires { at + length body.now ≤ 1024 }
    ensures reads { IfOk result (λ p. pattern_at at body.now ≡ sides (sides_of p)) }
    ensures refused { IfErr result (λ e. IfSome (bad_of e) (λ why. pattern_at at body.now ≡ why)) }
{
    let size = word_len(body);
    let (left, rest) = body.split_at(size);
    read_star(alloc, left, at + size as u32, rest)
}

/// The pattern that goes on with a star at a place, after its left side.
fn read_star(alloc: Global, left: &[u8], at: u32, rest: &[u8]) -> Result<Pattern, PatternErr>
    requires { at + length rest.now ≤ 1024 }
    ensures reads { IfOk result (λ p. star_of left.now at rest.now ≡ sides (sides_of p)) }
    ensures refused { IfErr result (λ e.
        IfSome (bad_of e) (λ why. star_of left.now at rest.now ≡ why)) }
{
    match rest {
        [b'*', right @ ..] => read_right(alloc, left, at, right),
        _ => Err(PatternErr::Bad { at }),
    }
}

/// The pattern that goes on behind a star, which has a place, after its left side.
fn read_right(alloc: Global, left: &[u8], at: u32, right: &[u8]) -> Result<Pattern, PatternErr>
    requires { at + length right.now ≤ 1024 }
    ensures reads { IfOk result (λ p. right_of left.now at right.now ≡ sides (sides_of p)) }
    ensures refused { IfErr result (λ e.
        IfSome (bad_of e) (λ why. right_of left.now at right.now ≡ why)) }
{
    let size = word_len(right);
    if size < right.len() {
        return Err(PatternErr::Bad {
            at: at + 1 + size as u32,
        });
    }
    match pattern_with(alloc, left, right) {
        Ok(pattern) => Ok(pattern),
        Err(_) => Err(PatternErr::Memory),
    }
}

/// A pattern with these sides.
fn pattern_with(alloc: Global, left: &[u8], right: &[u8]) -> Result<Pattern, AllocError>
    ensures { IfOk result (λ p. sides_of p
        ≡ record { left = folded left.now; right = folded right.now }) }
{
    let left = Term::of_word(alloc, left)?;
    let right = Term::of_word(alloc, right)?;
    Ok(Pattern { left, right })
}

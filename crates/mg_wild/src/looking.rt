//! The terms that match a pattern, by a look at each term.
ghost use Rattle.std.specs.Prelude.{◌≡◌, IfOk};
ghost use Rattle.mg_defs.specs.Patterns.{matches};
ghost use Rattle.mg_defs.specs.Rotations.{matching_numbers};
ghost use Rattle.mg_wild.specs.Patterns.{sides_of};

use crate::pattern::Pattern;
use crate::term_block::TermBlock;
use std::alloc::{AllocError, Global};

/// Whether a term matches a pattern. Most terms are passed by their first byte or their last.
fn is_match(term: &[u8], pattern: &Pattern) -> bool
    ensures { result ≡ matches (sides_of pattern.now) term.now }
{
    let left = pattern.left.as_bytes();
    let right = pattern.right.as_bytes();
    if term.len() < left.len() + right.len() {
        return false;
    }
    if left.len() > 0 && term[0] != left[0] {
        return false;
    }
    if right.len() > 0 && term[term.len() - 1] != right[right.len() - 1] {
        return false;
    }
    term.starts_with(left) && term.ends_with(right)
}

/// The numbers of the terms that match, rising. Each term is looked at.
pub(crate) fn numbers_by_looking(
    alloc: Global,
    terms: &TermBlock,
    pattern: &Pattern,
) -> Result<Vec<u32>, AllocError>
    ensures { IfOk result (λ numbers.
        numbers.items ≡ matching_numbers (sides_of pattern.now) 0 terms.now.terms) }
{
    let mut numbers = Vec::new(alloc);
    for number in 0..terms.len() {
        if is_match(terms.term(number), pattern) {
            numbers.push(number)?;
        }
    }
    Ok(numbers)
}

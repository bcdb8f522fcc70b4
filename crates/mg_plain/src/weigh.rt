//! The weight of a document.
ghost use Rattle.std.specs.Prelude.{◌≡◌, ◌≤◌, ◌^◌, length, IfOk, OnOk};
ghost use Rattle.std.specs.Cmp.Lexicographic.{slice_cmp};
ghost use Rattle.std.specs.Ordering.{nat_cmp};
ghost use Rattle.std.specs.List.Sorted.{IsPermutation};
ghost use Rattle.mg_defs.specs.Terms.{folded, terms};
ghost use Rattle.mg_defs.specs.Weights.{weight};
ghost use Rattle.mg_plain.specs.EqualTerms.{terms_of, Ascends, goes_on, square, squares};

use mg_fixed::{doc_term_weight, isqrt};
use mg_parse::Pairs;
use std::alloc::AllocError;
use std::cmp::Ordering;

/// How the terms of two words stand in the order of their bytes.
#[inline]
fn compare_terms(left: &[u8], right: &[u8]) -> Ordering
    ensures { result ≡ slice_cmp nat_cmp (folded left.now) (folded right.now) }
{
    for (i, byte) in left.iter().enumerate() {
        if i == right.len() {
            return Ordering::Greater;
        }
        match byte
            .to_ascii_lowercase()
            .cmp(&right[i].to_ascii_lowercase())
        {
            Ordering::Equal => {}
            order => return order,
        }
    }
    if left.len() < right.len() {
        Ordering::Less
    } else {
        Ordering::Equal
    }
}

/// Puts the document's words that are not empty in the place of what `words` held.
fn collect_words<'a>(doc: &'a [u8], words: &mut Vec<&'a [u8]>) -> Result<(), AllocError>
    ensures { OnOk result (terms_of words.new.items ≡ terms doc.now) }
{
    words.clear();
    for pair in Pairs::new(doc) {
        if !pair.word.is_empty() {
            words.push(pair.word)?;
        }
    }
    Ok(())
}

/// Puts words in the order of their terms.
fn sort_words<'a>(words: &mut Vec<&'a [u8]>)
    ensures same { IsPermutation words.old.items words.new.items }
    ensures sorted { Ascends (terms_of words.new.items) }
{
    words.sort_unstable_by(|left, right| compare_terms(left, right));
}

/// Whether the next word is the same term.
#[inline]
fn is_followed<'a>(word: &[u8], after: &[&'a [u8]]) -> bool
    ensures { result ≡ goes_on (folded word.now) (terms_of after.now) }
{
    match after.first() {
        Some(next) => compare_terms(word, next).is_eq(),
        None => false,
    }
}

/// The square of a term's weight in a document that has it so often.
fn squared(freq: u32) -> u64
    requires { 1 ≤ freq }
    ensures is { result ≡ square freq }
    ensures small { result ≤ 2 ^ 30 }
{
    let weight = u64::from(doc_term_weight(freq));
    weight * weight
}

/// The sum of the squares of the terms' weights, of words in the order of their terms.
fn sum_of_squares<'a>(words: &[&'a [u8]]) -> u64
    requires { length words.now ≤ 2 ^ 28 }
    ensures { result ≡ squares 0 (terms_of words.now) }
{
    let mut sum = 0u64;
    let mut count = 0u32;
    for (i, word) in words.iter().enumerate() {
        count += 1;
        if !is_followed(word, &words[i + 1..]) {
            sum += squared(count);
            count = 0;
        }
    }
    sum
}

/// The weight of a document. `words` is room for its words, which is used again by the next one.
pub(crate) fn document_weight<'a>(
    doc: &'a [u8],
    words: &mut Vec<&'a [u8]>,
) -> Result<u32, AllocError>
    requires { length doc.now ≤ 2 ^ 28 }
    ensures { IfOk result (λ w. w ≡ weight doc.now) }
{
    collect_words(doc, words)?;
    sort_words(words);
    Ok(isqrt(sum_of_squares(words)))
}

//! The score of a document.
ghost use Rattle.std.specs.Prelude.{◌≡◌, ℕ, ◌*◌, ◌^◌, ◌<◌, ◌≤◌, length, get_or, nat_lt, cond, IfOk};
ghost use Rattle.mg_defs.specs.Weights.{weight, weight_in_doc};
ghost use Rattle.mg_plain.specs.Products.{products};
ghost use Rattle.mg_plain.specs.Scores.{IsScoreBy};

use crate::weigh::document_weight;
use mg_fixed::{doc_term_weight, score};
use std::alloc::AllocError;

/// What a term adds: the product of its weight in the document and its own, and nothing where the
/// document does not have it.
#[inline]
fn product(count: u32, weight: u32) -> u64
    requires { weight < 2 ^ 14 }
    ensures is { result ≡ cond (nat_lt 0 count) (weight_in_doc count * weight) 0 }
    ensures small { result ≤ 2 ^ 29 }
{
    if count == 0 {
        return 0;
    }
    u64::from(doc_term_weight(count)) * u64::from(weight)
}

/// The sum of the products of weights over the terms that a document has, from how often it has
/// each term and from the terms' weights.
fn sum_of_products(counts: &[u32], weights: &[u32]) -> u64
    requires same { length weights.now ≡ length counts.now }
    requires few { length counts.now ≤ 2 ^ 10 }
    requires light { (k : ℕ) → k < length weights.now → get_or weights.now k 0 < 2 ^ 14 }
    ensures is { result ≡ products counts.now weights.now }
    ensures small { result < 2 ^ 56 }
{
    let mut sum = 0u64;
    for (i, count) in counts.iter().enumerate() {
        sum += product(*count, weights[i]);
    }
    sum
}

/// The score of a document that has some of a query's terms, from how often it has each of them and
/// from the terms' weights. `words` is room for the document's words.
pub(crate) fn document_score<'a>(
    doc: &'a [u8],
    counts: &[u32],
    weights: &[u32],
    words: &mut Vec<&'a [u8]>,
) -> Result<u64, AllocError>
    requires size { length doc.now ≤ 2 ^ 28 }
    requires some { 1 ≤ weight doc.now }
    requires same { length weights.now ≡ length counts.now }
    requires few { length counts.now ≤ 2 ^ 10 }
    requires light { (k : ℕ) → k < length weights.now → get_or weights.now k 0 < 2 ^ 14 }
    ensures { IfOk result (IsScoreBy doc.now counts.now weights.now) }
{
    let weight = document_weight(doc, words)?;
    Ok(score(sum_of_products(counts, weights), weight))
}

//! The documents of a ranked answer, found and scored in two passes over the collection.
ghost use Rattle.std.specs.Prelude.{◌≡◌, ℕ, ◌+◌, ◌^◌, ◌<◌, ◌≤◌, length, get_or, nat_lt, cond, All, IfOk};
ghost use Rattle.std.specs.List.{list_any};
ghost use Rattle.mg_defs.specs.Limits.{held_bytes, ranked_terms};
ghost use Rattle.mg_defs.specs.Split.{documents};
ghost use Rattle.mg_defs.specs.Terms.{docs};
ghost use Rattle.mg_defs.specs.Weights.{hits_over, weight_of_term, wt};
ghost use Rattle.mg_plain.specs.Counts.{AreCounts};
ghost use Rattle.mg_plain.specs.RankedRows.{hits_of, IsPlaced};
ghost use Rattle.mg_plain.specs.Scores.{IsScoreFor};

use crate::counts::count_terms;
use crate::docs::Docs;
use crate::order::Row;
use crate::score::document_score;
use mg_fixed::term_weight;
use mg_query::{Term, Terms};
use std::alloc::{AllocError, Global};

/// Adds a document, which has the terms so often, at each term that it has.
#[inline]
fn add_document(counts: &[u32], found: &mut [u32])
    requires same { length found.old ≡ length counts.now }
    requires small { (k : ℕ) → k < length counts.now → get_or found.old k 0 < 2 ^ 31 }
    ensures same { length found.new ≡ length counts.now }
    ensures each { (k : ℕ) → k < length counts.now → get_or found.new k 0
        ≡ get_or found.old k 0 + cond (nat_lt 0 (get_or counts.now k 0)) 1 0 }
{
    for (i, count) in counts.iter().enumerate() {
        if *count > 0 {
            found[i] += 1;
        }
    }
}

/// How many documents there are; `found` is left with how many of them have each term. `counts` is
/// room for the counts of one document.
fn count_documents(bytes: &[u8], terms: &[Term], counts: &mut [u32], found: &mut [u32]) -> u32
    requires small { length bytes.now ≤ held_bytes }
    requires counts { length counts.old ≡ length terms.now }
    requires found { length found.old ≡ length terms.now }
    ensures all { result ≡ length (documents bytes.now) }
    ensures found { AreCounts (docs bytes.now) terms.now found.new }
    ensures counts { length counts.new ≡ length terms.now }
{
    for one in found.iter_mut() {
        *one = 0;
    }
    let mut docs = Docs::new(bytes);
    let mut number = 0u32;
    'docs: while let Some(doc) = docs.next_doc() {
        number += 1;
        count_terms(doc, terms, counts);
        add_document(counts, found);
    }
    number
}

/// The weight of a term that so many of all documents have. One that none has weighs nothing.
#[inline]
fn weight_of(found: u32, all: u32) -> u32
    requires { found ≤ all }
    ensures is { result ≡ weight_of_term found all }
    ensures light { result < 2 ^ 14 }
{
    if found == 0 {
        return 0;
    }
    term_weight(found, all)
}

/// Puts each term's weight in the place of how many of all documents have it.
fn weigh_each(found: &mut [u32], all: u32)
    requires { (k : ℕ) → k < length found.old → get_or found.old k 0 ≤ all }
    ensures same { length found.new ≡ length found.old }
    ensures each { (k : ℕ) → k < length found.old → get_or found.new k 0
        ≡ weight_of_term (get_or found.old k 0) all }
    ensures light { (k : ℕ) → k < length found.old → get_or found.new k 0 < 2 ^ 14 }
{
    for one in found.iter_mut() {
        *one = weight_of(*one, all);
    }
}

/// Whether some count is not 0.
#[inline]
fn has_some(counts: &[u32]) -> bool
    ensures { result ≡ list_any (nat_lt 0) counts.now }
{
    counts.iter().any(|count| *count > 0)
}

/// The score of a document that has one of the terms. `counts` and `words` are room for the counts
/// and the words of one document.
fn score_where_found<'a>(
    doc: &'a [u8],
    terms: &[Term],
    counts: &mut [u32],
    weights: &[u32],
    words: &mut Vec<&'a [u8]>,
) -> Result<Option<u64>, AllocError>
    requires small { length doc.now ≤ held_bytes }
    requires few { length terms.now ≤ 2 ^ 10 }
    requires counts { length counts.old ≡ length terms.now }
    requires weights { length weights.now ≡ length terms.now }
    requires light { (k : ℕ) → k < length weights.now → get_or weights.now k 0 < 2 ^ 14 }
    ensures score { IfOk result (IsScoreFor doc.now terms.now weights.now) }
    ensures counts { length counts.new ≡ length terms.now }
{
    count_terms(doc, terms, counts);
    if !has_some(counts) {
        return Ok(None);
    }
    let score = document_score(doc, counts, weights, words)?;
    Ok(Some(score))
}

/// The documents with a term, rising, each with its score by the terms' weights.
fn rows_by(
    alloc: Global,
    bytes: &[u8],
    terms: &[Term],
    counts: &mut [u32],
    weights: &[u32],
) -> Result<Vec<Row>, AllocError>
    requires small { length bytes.now ≤ held_bytes }
    requires few { length terms.now ≤ 2 ^ 10 }
    requires counts { length counts.old ≡ length terms.now }
    requires weights { AreCounts (wt bytes.now) terms.now weights.now }
    requires light { (k : ℕ) → k < length weights.now → get_or weights.now k 0 < 2 ^ 14 }
    ensures hits { IfOk result (λ rows. hits_of rows.items ≡ hits_over bytes.now terms.now) }
    ensures placed { IfOk result (λ rows. All (IsPlaced bytes.now) rows.items) }
{
    let mut rows = Vec::new(alloc);
    let mut words = Vec::new(alloc);
    let mut docs = Docs::new(bytes);
    let mut number = 0u32;
    let mut place = 0usize;
    'docs: while let Some(doc) = docs.next_doc() {
        number += 1;
        if let Some(score) = score_where_found(doc, terms, counts, weights, &mut words)? {
            rows.push(Row {
                number,
                place: place as u32,
                score,
            })?;
        }
        // The byte that closes the document is passed too.
        place += doc.len() + 1;
    }
    Ok(rows)
}

/// The documents with a term of the query, rising, each with its score and where it begins.
pub(crate) fn rows_of(alloc: Global, bytes: &[u8], terms: &Terms) -> Result<Vec<Row>, AllocError>
    requires small { length bytes.now ≤ held_bytes }
    requires few { length terms.now ≤ ranked_terms }
    ensures hits { IfOk result (λ rows. hits_of rows.items ≡ hits_over bytes.now terms.now) }
    ensures placed { IfOk result (λ rows. All (IsPlaced bytes.now) rows.items) }
{
    let mut room = vec![in alloc; 0u32; terms.len()]?;
    let mut found = vec![in alloc; 0u32; terms.len()]?;
    let terms = terms.as_slice();
    let counts = room.as_mut_slice();
    let weights = found.as_mut_slice();
    let all = count_documents(bytes, terms, counts, weights);
    weigh_each(weights, all);
    rows_by(alloc, bytes, terms, counts, weights)
}

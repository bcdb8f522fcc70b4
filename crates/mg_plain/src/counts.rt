//! How often the terms of a query come in a document.
ghost use Rattle.std.specs.Prelude.{◌≡◌, ℕ, ◌+◌, ◌^◌, ◌<◌, [], length, get_or, true, nat_lt, cond};
ghost use Rattle.mg_defs.specs.Terms.{same_term, folded, freq_in};
ghost use Rattle.mg_plain.specs.Counts.{AreCounts};

use mg_parse::{Pairs, is_term};
use mg_query::Term;

/// Counts a word at each term that it is.
#[inline]
fn count_word(word: &[u8], terms: &[Term], counts: &mut [u32])
    requires size { length counts.old ≡ length terms.now }
    requires small { (k : ℕ) → k < length terms.now → get_or counts.old k 0 < 2 ^ 31 }
    ensures size { length counts.new ≡ length terms.now }
    ensures each { (k : ℕ) → k < length terms.now →
        get_or counts.new k 0 ≡ get_or counts.old k 0 + cond
        (same_term (get_or terms.now k []) (folded word.now)) 1 0 }
{
    for (i, term) in terms.iter().enumerate() {
        if is_term(word, term.as_bytes()) {
            counts[i] += 1;
        }
    }
}

/// Counts each term in a document, which is read once.
pub(crate) fn count_terms(doc: &[u8], terms: &[Term], counts: &mut [u32])
    requires size { length counts.old ≡ length terms.now }
    requires small { length doc.now < 2 ^ 31 }
    ensures { AreCounts (freq_in doc.now) terms.now counts.new }
{
    for count in counts.iter_mut() {
        *count = 0;
    }
    for pair in Pairs::new(doc) {
        if !pair.word.is_empty() {
            count_word(pair.word, terms, counts);
        }
    }
}

/// Marks the terms that are counted at all.
pub(crate) fn mark_counted(counts: &[u32], there: &mut [bool])
    requires { length there.old ≡ length counts.now }
    ensures size { length there.new ≡ length counts.now }
    ensures each { (k : ℕ) → k < length counts.now → get_or there.new k true
        ≡ nat_lt 0 (get_or counts.now k 0) }
{
    for (i, count) in counts.iter().enumerate() {
        there[i] = *count > 0;
    }
}

//! Weights and scores.
ghost use Rattle.std.specs.Prelude.{◌≡◌, ◌^◌, ◌<◌, ◌≤◌};
ghost use Rattle.mg_defs.specs.Weights.{weight_of_term, weight_in_doc, score_of};

use crate::lg;

/// The weight of a term that `docs` of `all` documents have, in units of 1/256: the logarithm of
/// 1 + all / docs.
#[tactic(auto, unfolding(mg_defs::specs::Weights::weight_of_term))]
pub fn term_weight(docs: u32, all: u32) -> u32
    requires some { 1 ≤ docs }
    requires part { docs ≤ all }
    ensures is { result ≡ weight_of_term docs all }
    ensures low { 256 ≤ result }
    ensures high { result < 2 ^ 14 }
{
    let docs = u64::from(docs);
    let all = u64::from(all);
    // 65,536 keeps sixteen binary digits of the quotient, and 16 is subtracted again.
    lg(65536 * (all + docs) / docs) - 4096
}

/// The weight of a term that comes `freq` times in a document, in units of 1/256: 1 and the
/// logarithm of `freq`.
#[tactic(auto, unfolding(mg_defs::specs::Weights::weight_in_doc))]
pub fn doc_term_weight(freq: u32) -> u32
    requires { 1 ≤ freq }
    ensures is { result ≡ weight_in_doc freq }
    ensures low { 256 ≤ result }
    ensures high { result < 2 ^ 15 }
{
    256 + lg(u64::from(freq))
}

/// The score of a document of this weight: `sum` has for each term of the query that is in it the
/// product of the term's weight and its weight in the document.
#[tactic(auto, unfolding(mg_defs::specs::Weights::score_of))]
pub fn score(sum: u64, weight: u32) -> u64
    requires some { 1 ≤ weight }
    requires small { sum < 2 ^ 56 }
    ensures { result ≡ score_of sum weight }
{
    256 * sum / u64::from(weight)
}

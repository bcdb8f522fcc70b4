//! Logarithms, roots, weights and scores in whole numbers.
//!
//! Ranking by cosine needs logarithms and square roots. Here both are whole numbers, so a weight
//! that is stored in a file and one that is computed at a query are the same on every machine, and
//! each call's contract gives its exact value: [`lg`] is 256 times the logarithm to base 2, cut to
//! eight binary digits, and [`isqrt`] the root rounded down. `mg_defs::logarithm_rises` says what
//! `lg` keeps of a logarithm.
//!
//! No call takes memory or refuses. After the cosine rule of *Managing Gigabytes*, chapter 4.
#![tactic(auto)]

mod logarithm;
mod root;
mod weights;

pub use logarithm::lg;
pub use root::isqrt;
pub use weights::{doc_term_weight, score, term_weight};

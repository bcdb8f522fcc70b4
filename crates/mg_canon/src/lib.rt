//! Canonical prefix codes (*Managing Gigabytes*, chapter 2).
//!
//! A canonical code follows from the lengths of its codewords alone: those of one length are
//! consecutive numbers in the order of their symbols, and longer codewords have the smaller
//! values, as fractions. So a [`Canon`] keeps no tree, and a file need keep no more than the
//! lengths. [`Canon::new`] takes the lengths of two or more symbols only where they leave no string
//! of bits over, so whatever bits follow, some codeword stands there unless the file ends within
//! one.
#![tactic(auto)]

mod bits;
mod canon;
mod canon_err;
mod check;
mod found;
mod pair;
mod tables;

pub use canon::Canon;
pub use canon_err::CanonErr;
pub use pair::pair_at;

//! Patterns, and the terms of a lexicon that match them.
//!
//! A pattern is a word with one star. A [`Rotated`] keeps every term of a lexicon in memory. Whether the
//! terms have too many rotations is known before they are loaded, by [`TermsToLoad`]; where they are few
//! enough, nothing is read for that.
//!
//! What is unusual: a pattern is at first held against each term, and rotations are sorted only once the
//! looks at terms took as long as that would. So a session of few patterns sorts nothing, one of many
//! sorts once, and neither takes much more than twice the time of the better way.
//!
//! All rotations of a term are made by a cut at each place from its front to its end, and they are
//! ordered by the bytes behind the cut and then by those before it. The rotations with the pattern's
//! right side behind the cut and its left side at the front of what stands before it are then a range,
//! which is found by halving. A rotation takes 8 bytes and no mark stands between its two parts, so that
//! no byte is barred from terms.
//!
//! See Witten, Moffat and Bell, *Managing Gigabytes*, chapter 4.
#![tactic(auto)]

mod fronts;
mod halving;
mod looking;
mod numbers;
mod packed;
mod pattern;
mod reading;
mod rotated;
mod rotation;
mod term_block;
mod terms_to_load;

pub use numbers::Numbers;
pub use pattern::{Pattern, PatternErr, read_pattern};
pub use rotated::Rotated;
pub use terms_to_load::{RotErr, TermsToLoad};

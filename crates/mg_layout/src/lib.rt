//! The head of a set, and the sizes and fields that several parts share.
//!
//! A head is a fixed number of bytes with big-endian numbers: 64 in version 1, 80 in version 2.
//! Whoever loads one need not trust it: every field of a head that is answered is in the range of
//! its version, so that what the layers above reserve is bounded by the head, and each damage is
//! told with its place, the range and what was found there.
#![tactic(auto)]

mod check;
mod contents;
mod field_writer;
mod head;
pub mod numbers;
mod read;
mod sets;
mod size;
mod term_info;
mod version;

pub use contents::expect_bytes;
pub use head::Head;
pub use sets::{heads_tell_sets, sets_stand};
pub use size::expect_size;
pub use term_info::TermInfo;
pub use version::BUILT;

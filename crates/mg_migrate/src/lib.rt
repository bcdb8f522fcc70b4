//! Sets of either version, made anew in version 2.
//!
//! A set is made anew under another base without its collection: most parts are copied a block at a time, the places are
//! widened, and the head is written last. Nothing that the files hold is trusted.
#![tactic(auto)]

mod bases;
mod copying;
mod migrating;
mod sizes;
mod widening;

pub use migrating::migrate;

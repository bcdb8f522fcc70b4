//! The lists that a session answers from.
use std::alloc::Global;

/// The lists of a base, and how many documents there are; none of it changes in a session.
#[derive(Clone, Copy, Drop)]
pub(crate) struct Lists<'a> {
    pub(crate) alloc: Global,
    pub(crate) base: &'a str,
    pub(crate) all: u32,
}

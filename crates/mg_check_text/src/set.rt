//! A set whose head is known.
use mg_layout::Head;

/// The base of a set, and its head.
#[derive(Clone, Copy)]
pub(crate) struct Set<'s> {
    pub(crate) base: &'s str,
    pub(crate) head: &'s Head,
}

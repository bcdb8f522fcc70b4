//! A place in a run.
use mg_defs::TermPosting;

/// A place in a run, and the posting before it.
#[derive(Clone, Copy)]
pub struct Cursor {
    /// The posting that was read last.
    pub posting: TermPosting,
    /// How many postings are left, from that posting on.
    pub left: u32,
    /// The bit of the file behind that posting.
    pub place: u64,
    /// The byte of the file with which the cursor's slot begins.
    pub start: u64,
    /// How many bytes of the file the slot has.
    pub count: usize,
}

//! What the index of a set is compared with.
use mg_check_parts::WordTable;

/// The base of a set, the terms of its text, how many documents have each, and how many documents and occurrences there are.
#[derive(Drop)]
pub struct Indexed<'t> {
    pub base: &'t str,
    pub table: &'t WordTable,
    pub docs: &'t [u32],
    pub documents: u32,
    pub occurrences: u64,
}

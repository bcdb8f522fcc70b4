//! What a trial finds.
/// The numbers of a collection and of its set, and how what was asked both ways compares.
#[derive(Clone, Copy, Debug, PartialEq, Eq)]
pub(crate) struct TrialSummary {
    /// The documents that were asked for.
    pub documents: u32,
    /// The size of the collection.
    pub bytes: u64,
    pub terms: u32,
    pub occurrences: u64,
    /// The size of the replies.
    pub replies: u64,
    /// Whether the set was decoded to the collection.
    pub is_decoded: bool,
    /// Whether the set answered as the collection's text.
    pub is_answered: bool,
}

//! The name of a file, in two halves.
use crate::Part;

/// A file: the part of the set that a base names. Its full name is the base and then the part's
/// ending; it is kept in two halves so that no call has to join them where it needs no memory.
#[derive(Clone, Copy, Debug)]
pub struct FileRef<'a> {
    pub base: &'a str,
    pub part: Part,
}

//! Bounds of a document's number.
ghost use Rattle.std.specs.Prelude.{◌≤◌};

/// What bounds a document: it is behind one, and at most another.
#[derive(Clone, Copy)]
pub struct DocBounds {
    pub after: u32,
    pub most: u32,
    ghost order: { after ≤ most },
}

//! What one byte of a collection gives.
//!
//! A byte may begin a document, end the piece before it and the document too. So at most four things
//! are met with it, always in the same order, and the second of two pieces is empty: the other of a
//! pair that the document's end leaves without one. One block of bytes serves for every piece.
ghost use Rattle.std.specs.Prelude.{◌≡◌, ◌≤◌, ◌∷◌, [], true, length, take};
ghost use Rattle.mg_defs.specs.Marks.{piece as piece_mark};
ghost use Rattle.mg_defs.specs.Pieces.{other_kind};
ghost use Rattle.mg_count.specs.Meeting.{marks_of, restarted, with_end, with_other, with_piece};

use mg_parse::{PIECE_BYTES, Stream};
use std::marker::Model;

/// The start of a document, a piece, an empty piece of the other kind, and the end of a document:
/// those of the four that are met with one byte.
#[derive(Drop)]
pub struct Met {
    pub(crate) begins: bool,
    pub(crate) has_piece: bool,
    pub(crate) has_other: bool,
    pub(crate) ends: bool,
    pub(crate) kind: Stream,
    pub(crate) piece: [u8; PIECE_BYTES],
    pub(crate) len: usize,
}

impl Model for Met {
    ghost use Rattle.std.specs.Prelude.{◌≤◌, take};
    ghost use Rattle.mg_count.specs.Meeting.{Meeting};

    ghost Value = { Meeting };

    ghost view = { λ m. record {
      begins = m.begins;
      has_piece = m.has_piece;
      has_other = m.has_other;
      ends = m.ends;
      kind = m.kind;
      bytes = take m.len m.piece;
    } };

    ghost invariant = { λ m. m.len ≤ 255 };
}

/// The bytes at the front of a buffer; answers how many these are.
fn copy_into(bytes: &[u8], buffer: &mut [u8; PIECE_BYTES]) -> usize
    requires { length bytes.now ≤ 255 }
    ensures bytes { take result buffer.new ≡ bytes.now }
    ensures short { result ≤ 255 }
{
    buffer[..bytes.len()].copy_from_slice(bytes);
    bytes.len()
}

impl Met {
    /// Nothing is met.
    pub(crate) fn new() -> Self
        ensures { marks_of result ≡ [] }
    {
        Met {
            begins: false,
            has_piece: false,
            has_other: false,
            ends: false,
            kind: Stream::Words,
            piece: [0; PIECE_BYTES],
            len: 0,
        }
    }

    /// Forgets what was met, for the next byte, with which a document may begin.
    pub(crate) fn restart(&mut self, begins: bool)
        ensures { self.new ≡ restarted begins self.old }
    {
        self.begins = begins;
        self.has_piece = false;
        self.has_other = false;
        self.ends = false;
    }

    /// A piece ends, of at most 255 bytes.
    pub(crate) fn tell(&mut self, kind: Stream, piece: &[u8])
        requires { length piece.now ≤ 255 }
        ensures { self.new ≡ with_piece kind piece.now self.old }
    {
        self.has_piece = true;
        self.kind = kind;
        self.len = copy_into(piece, &mut self.piece);
    }

    /// An empty piece of the other kind follows.
    pub(crate) fn tell_other(&mut self)
        ensures { self.new ≡ with_other self.old }
    {
        self.has_other = true;
    }

    /// The document ends.
    pub(crate) fn end(&mut self)
        ensures { self.new ≡ with_end self.old }
    {
        self.ends = true;
    }

    /// Whether a document begins.
    pub fn begins(&self) -> bool
        ensures { result ≡ self.now.begins }
    {
        self.begins
    }

    /// Whether a piece ends.
    pub fn has_piece(&self) -> bool
        ensures { result ≡ self.now.has_piece }
    {
        self.has_piece
    }

    /// Whether a piece ends and nothing else is met, as mostly where one ends.
    #[inline]
    pub fn is_piece_alone(&self) -> bool
        ensures { result ≡ true → marks_of self.now ≡ piece_mark self.now.kind self.now.bytes ∷ [] }
    {
        self.has_piece & !self.begins & !self.has_other & !self.ends
    }

    /// Whether an empty piece of the other kind follows.
    pub fn has_other(&self) -> bool
        ensures { result ≡ self.now.has_other }
    {
        self.has_other
    }

    /// Whether a document ends.
    pub fn ends(&self) -> bool
        ensures { result ≡ self.now.ends }
    {
        self.ends
    }

    /// The stream of the piece.
    pub fn kind(&self) -> Stream
        ensures { result ≡ self.now.kind }
    {
        self.kind
    }

    /// The other stream.
    pub fn other_kind(&self) -> Stream
        ensures { result ≡ other_kind self.now.kind }
    {
        match self.kind {
            Stream::Words => Stream::Others,
            Stream::Others => Stream::Words,
        }
    }

    /// The bytes of the piece, at most 255.
    pub fn piece(&self) -> &[u8]
        ensures bytes { result.now ≡ self.now.bytes }
        ensures short { length result.now ≤ 255 }
    {
        &self.piece[..self.len]
    }
}

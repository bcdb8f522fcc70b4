//! The pieces of a document that comes one byte at a time.
ghost use Rattle.std.specs.Prelude.{◌≡◌, ◌≤◌, ℕ, List, [], ◌∷◌, ◌++◌, length};
ghost use Rattle.mg_defs.specs.Pieces.{Reads, other_kind as other_kind_spec, left_at_end, pieces};
ghost use Rattle.mg_parse.specs.Offered.{Offered, Ends, ReadsEnded};

use crate::Stream;
use crate::bytes::{PIECE_BYTES, is_of_kind};
use std::marker::Model;

/// Whether a byte joined the current piece.
#[derive(Clone, Copy, Debug, PartialEq, Eq)]
pub enum Offer {
    /// It is of the piece's kind and the piece had room: it is the piece's last byte now.
    Taken,
    /// The piece ends before it, and nothing changed: turn to the next piece, and offer it again.
    Ended,
}

/// Reads the pieces of a document, words and others in turn, one byte at a time.
///
/// It keeps the current piece alone, in 255 bytes of its own. Whether a piece is whole is known only
/// when the next byte is offered, so the caller drives it: while an offer answers [`Offer::Ended`], it
/// takes the piece and turns; after the last byte [`PieceReader::ends`] says how many pieces are still
/// to be taken. The pieces that are taken so are those that [`crate::Pairs`] gives of the document.
#[derive(Drop)]
pub struct PieceReader {
    kind: Stream,
    len: usize,
    buffer: [u8; PIECE_BYTES],
}

impl Model for PieceReader {
    ghost use Rattle.std.specs.Prelude.{◌≤◌, take};
    ghost use Rattle.mg_defs.specs.Pieces.{OpenPiece};

    ghost Value = { OpenPiece };

    ghost view = { λ r. record { kind = r.kind; piece = take r.len r.buffer } };

    ghost invariant = { λ r. r.len ≤ 255 };
}

fn other_kind(kind: Stream) -> Stream
    ensures { result ≡ other_kind_spec kind }
{
    match kind {
        Stream::Words => Stream::Others,
        Stream::Others => Stream::Words,
    }
}

impl PieceReader {
    /// Begins a document with an empty word.
    pub fn new() -> PieceReader
        ensures empty { result ≡ record { kind = Stream.Words; piece = [] } }
        ensures reads { Reads result [] [] [] }
    {
        PieceReader {
            kind: Stream::Words,
            len: 0,
            buffer: [0; PIECE_BYTES],
        }
    }

    /// Offers the document's next byte to the current piece.
    #[inline]
    pub fn offer(&mut self, byte: u8) -> Offer
        ensures offered { Offered self.old byte result self.new }
        ensures reads { result ≡ Offer.Taken → (told : List (List ℕ)) (doc : List ℕ) →
            Reads self.old told doc (byte ∷ []) → Reads self.new told (doc ++ byte ∷ []) [] }
    {
        if self.len < PIECE_BYTES && is_of_kind(self.kind, byte) {
            self.buffer[self.len] = byte;
            self.len += 1;
            Offer::Taken
        } else {
            Offer::Ended
        }
    }

    /// The current piece, of at most 255 bytes.
    #[inline]
    pub fn piece(&self) -> &[u8]
        ensures value { result.now ≡ self.now.piece }
        ensures short { length result.now ≤ 255 }
    {
        &self.buffer[..self.len]
    }

    /// The stream of the current piece.
    #[inline]
    pub fn kind(&self) -> Stream
        ensures { result ≡ self.now.kind }
    {
        self.kind
    }

    /// Ends the current piece, and begins the next of the other kind.
    #[inline]
    pub fn turn(&mut self)
        ensures turned { self.new ≡ record { kind = other_kind_spec self.old.kind; piece = [] } }
        ensures reads { (told : List (List ℕ)) (doc : List ℕ) (byte : ℕ) → Ends self.old byte →
            ReadsEnded self.old self.new told doc byte }
    {
        self.kind = other_kind(self.kind);
        self.len = 0;
    }

    /// How many pieces are still to be taken at the document's end: none at an empty word, two at a
    /// word that is not empty (the other is empty), and one at an other.
    pub fn ends(&self) -> u8
        ensures left { result ≡ length (left_at_end self.now.kind self.now.piece) }
        ensures pieces { (told : List (List ℕ)) (doc : List ℕ) → Reads self.now told doc [] →
            pieces doc ≡ told ++ left_at_end self.now.kind self.now.piece }
    {
        match self.kind {
            Stream::Words => { if self.len == 0 { 0 } else { 2 } }
            Stream::Others => 1,
        }
    }
}

//! The pieces of a stream in the order of their bytes.
ghost use Rattle.std.specs.Prelude.{◌≡◌, ◌<◌, ◌≤◌, length, position, slice_get, slice_index, Some, IfSome};
ghost use Rattle.std.specs.List.Sorted.{IsStrictlySortedBy};
ghost use Rattle.std.specs.Ordering.{nat_cmp};
ghost use Rattle.std.specs.Cmp.Lexicographic.{slice_cmp};
ghost use Rattle.std.specs.Str.{bytes_eq};
ghost use Rattle.mg_model.specs.Blocks.{short_piece};
ghost use Rattle.mg_model.specs.Pieces.{pieces_in};

use crate::Vocab;
use crate::block::PieceBlock;

/// The pieces of a stream in the order of their bytes: a place is a symbol.
#[derive(Drop)]
pub enum Pieces {
    /// Those that were counted; a symbol is looked up with one hash.
    Counted(Vocab),
    /// Those that were loaded; a symbol is sought by halving.
    Loaded(PieceBlock),
}

impl Pieces {
    /// The symbol of a piece.
    pub fn symbol(&self, piece: &[u8]) -> Option<u32>
        requires { IsStrictlySortedBy (slice_cmp nat_cmp) (pieces_in self.now) }
        ensures { result ≡ position (bytes_eq piece.now) (pieces_in self.now) }
    {
        match self {
            Pieces::Counted(vocab) => vocab.place_of(piece),
            Pieces::Loaded(block) => block.place_of(piece),
        }
    }

    /// The piece of a symbol.
    pub fn piece(&self, symbol: u32) -> &[u8]
        requires { symbol < length (pieces_in self.now) }
        ensures { slice_get (pieces_in self.now) symbol ≡ Some result.now }
    {
        match self {
            Pieces::Counted(vocab) => vocab.piece(symbol),
            Pieces::Loaded(block) => block.piece(symbol),
        }
    }
    /// The entry of the piece of a symbol, where the entry holds the piece: its length, at most 15,
    /// and the piece behind it. Counted pieces have none.
    #[inline]
    pub fn short_piece(&self, symbol: u32) -> Option<&[u8; 16]>
        requires { symbol < length (pieces_in self.now) }
        ensures piece { IfSome result (λ entry. slice_get (pieces_in self.now) symbol
            ≡ Some (short_piece entry.now)) }
        ensures length { IfSome result (λ entry. slice_index entry.now 0 ≤ 15) }
    {
        match self {
            Pieces::Counted(_) => None,
            Pieces::Loaded(block) => block.short_piece(symbol),
        }
    }
}

//! The symbols of the pieces that were looked up last.
//!
//! A loaded model seeks a piece by halving. Most pieces of a text came shortly before, so a table keeps symbols at places
//! that the bytes of their pieces tell. Of the words of 52.7 MB 95 in 100 are found so, where a table of a fourth as many
//! places had 92. Nothing is promised of what it keeps: a kept symbol is answered only where
//! the model's piece of that symbol has the bytes that are looked up.
ghost use Rattle.std.specs.Prelude.{◌≡◌, IfSome, Some, position};
ghost use Rattle.std.specs.Str.{bytes_eq};
ghost use Rattle.mg_defs.specs.Marks.{code_of};

use mg_fields::{eight_at, four_at};
use mg_model::{Stream, TextModel, symbol_and_piece};
use std::alloc::{AllocError, Global};

// How many symbols are kept, and by how many bits a place is told.
const PLACES: usize = 1 << PLACE_BITS;

const PLACE_BITS: u32 = 16;

// An odd number near 2^64 over the golden ratio: its products spread over their high bits.
const SPREAD: u64 = 0x9E37_79B9_7F4A_7C15;

/// Symbols of one stream, each at the place of the piece that was looked up there last.
#[derive(Drop)]
pub(crate) struct Recent {
    symbols: Vec<u32>,
}

// The first and the last bytes of a piece in one number: two reads tell a place, where a byte at a time waits for the one
// before.
#[inline]
fn joined(piece: &[u8]) -> u64 {
    let length = piece.len();
    if length >= 8 {
        let first = eight_at(piece, 0);
        let last = eight_at(piece, length - 8);
        return first ^ last.rotate_left(29);
    }
    if length >= 4 {
        let first = u64::from(four_at(piece, 0));
        let last = u64::from(four_at(piece, length - 4));
        return (first << 32) | last;
    }
    if length == 0 {
        return 0;
    }
    let first = u64::from(piece[0]);
    let middle = u64::from(piece[length / 2]);
    let last = u64::from(piece[length - 1]);
    (first << 16) | (middle << 8) | last
}

// The place of a piece.
#[inline]
fn place_of(piece: &[u8]) -> usize {
    let mixed = (joined(piece) ^ ((piece.len() as u64) << 56)).wrapping_mul(SPREAD);
    (mixed >> (64 - PLACE_BITS)) as usize
}

impl Recent {
    /// No piece was looked up.
    pub(crate) fn new(alloc: Global) -> Result<Self, AllocError> {
        Ok(Recent {
            symbols: vec![in alloc; 0; PLACES]?,
        })
    }

    // The symbol that is kept at a place, if it is that of the piece.
    fn kept(&self, model: &TextModel, stream: Stream, piece: &[u8], place: usize) -> Option<u32>
        ensures { IfSome result (λ symbol.
            position (bytes_eq piece.now) (code_of stream model.now).pieces ≡ Some symbol) }
    {
        // By this law a piece has one symbol.
        symbol_and_piece();
        if place >= self.symbols.len() {
            return None;
        }
        let symbol = self.symbols[place];
        if symbol >= model.canon(stream).count() {
            return None;
        }
        if model.piece(stream, symbol) != piece {
            return None;
        }
        Some(symbol)
    }

    /// The symbol of a piece of the stream, as the model tells it.
    pub(crate) fn symbol(&mut self, model: &TextModel, stream: Stream, piece: &[u8]) -> Option<u32>
        ensures { result ≡ position (bytes_eq piece.now) (code_of stream model.now).pieces }
    {
        let place = place_of(piece);
        if let Some(symbol) = self.kept(model, stream, piece, place) {
            return Some(symbol);
        }
        let found = model.symbol(stream, piece);
        if let Some(symbol) = found {
            if place < self.symbols.len() {
                self.symbols[place] = symbol;
            }
        }
        found
    }
}

//! Whether the pieces of a model are such as documents have.
//!
//! No other ones are in the model of a collection. Whoever counts pieces by their symbols asks before, since the bytes of
//! other ones have other pieces.

use mg_model::{Stream, TextModel};
use mg_parse::{CLOSE, is_word_byte};

// Whether a byte may stand in a piece of the stream.
fn is_byte_of(stream: Stream, byte: u8) -> bool {
    match stream {
        Stream::Words => is_word_byte(byte),
        Stream::Others => !is_word_byte(byte) && byte != CLOSE,
    }
}

// Whether a piece has no other bytes than pieces of the stream have.
fn is_piece_of(stream: Stream, piece: &[u8]) -> bool {
    for byte in piece {
        if !is_byte_of(stream, *byte) {
            return false;
        }
    }
    true
}

/// Whether all pieces of the stream are such. Nothing is promised of it.
pub fn has_pieces_of(model: &TextModel, stream: Stream) -> bool {
    for symbol in 0..model.canon(stream).count() {
        if !is_piece_of(stream, model.piece(stream, symbol)) {
            return false;
        }
    }
    true
}

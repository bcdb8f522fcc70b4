//! Pieces that end within the bytes in which they began: of such a piece nothing is copied but its first
//! byte.
ghost use Rattle.std.specs.Prelude.{◌≡◌, ◌≢◌, ◌<◌, ◌≤◌, ◌∷◌, [], true, false, not, get_or, length};
ghost use Rattle.mg_defs.specs.declared.Stream.TheVariants.{Words, Others};
ghost use Rattle.mg_defs.specs.Parse.{is_of_kind};
ghost use Rattle.mg_count.specs.Whole.{GoesOnNoFurther, GoesOnTo, TurnsAt};

use mg_parse::{CLOSE, PIECE_BYTES, PieceReader, Stream, is_word_byte};

/// Whether the piece that is read is the one byte at a place.
#[inline]
pub(crate) fn is_byte_at(reader: &PieceReader, bytes: &[u8], at: usize) -> bool
    ensures within { result ≡ true → at < length bytes.now }
    ensures piece { result ≡ true → reader.now.piece ≡ get_or bytes.now at 0 ∷ [] }
    ensures whenever { at < length bytes.now → reader.now.piece ≡ get_or bytes.now at 0 ∷ [] →
        result ≡ true }
{
    let piece = reader.piece();
    if at >= bytes.len() || piece.len() != 1 {
        return false;
    }
    piece[0] == bytes[at]
}

/// Where the word bytes end that stand from a place on, at most 254.
#[inline]
fn word_end(bytes: &[u8], from: usize) -> usize
    requires { from ≤ length bytes.now }
    ensures goes { GoesOnTo Words bytes.now from result }
    ensures far { GoesOnNoFurther Words bytes.now from result }
{
    let most = bytes.len().min(from + (PIECE_BYTES - 1));
    let mut at = from;
    while at < most && is_word_byte(bytes[at]) {
        at += 1;
    }
    at
}

/// Where the other bytes of a document end that stand from a place on, at most 254.
#[inline]
fn other_end(bytes: &[u8], from: usize) -> usize
    requires { from ≤ length bytes.now }
    ensures goes { GoesOnTo Others bytes.now from result }
    ensures far { GoesOnNoFurther Others bytes.now from result }
{
    let most = bytes.len().min(from + (PIECE_BYTES - 1));
    let mut at = from;
    while at < most && bytes[at] != CLOSE && !is_word_byte(bytes[at]) {
        at += 1;
    }
    at
}

/// Where the bytes end that go on a piece of the stream from a place on, at most 254.
#[inline]
pub(crate) fn piece_end(kind: Stream, bytes: &[u8], from: usize) -> usize
    requires { from ≤ length bytes.now }
    ensures goes { GoesOnTo kind bytes.now from result }
    ensures far { GoesOnNoFurther kind bytes.now from result }
{
    match kind {
        Stream::Words => word_end(bytes, from),
        Stream::Others => other_end(bytes, from),
    }
}

/// Whether a byte is none of the kind.
#[inline]
fn is_other(kind: Stream, byte: u8) -> bool
    ensures { result ≡ not (is_of_kind kind byte) }
{
    match kind {
        Stream::Words => !is_word_byte(byte),
        Stream::Others => is_word_byte(byte),
    }
}

/// Ends the piece that is read at a byte of the other kind, which begins the next one. A byte of its own
/// kind, or one that closes the document, changes nothing.
#[inline]
pub(crate) fn turn_at(reader: &mut PieceReader, byte: u8) -> bool
    ensures turns { result ≡ true → TurnsAt reader.old reader.new byte }
    ensures whenever { byte ≢ 2 → is_of_kind reader.old.kind byte ≡ false → result ≡ true }
    ensures same { result ≡ false → reader.new ≡ reader.old }
{
    if byte == CLOSE || !is_other(reader.kind(), byte) {
        return false;
    }
    reader.turn();
    let _ = reader.offer(byte);
    true
}

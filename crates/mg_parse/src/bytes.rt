//! Bytes of words and of others.
ghost use Rattle.std.specs.Prelude.{◌≡◌, ◌≤◌, ◌++◌, length, drop};
ghost use Rattle.std.specs.List.{prefix_len};
ghost use Rattle.mg_defs.specs.Parse.{is_word_byte as is_word_byte_spec, is_of_kind as is_of_kind_spec, piece_len as piece_len_spec};
ghost use Rattle.mg_defs.specs.Terms.{folded, same_term};

use mg_defs::Stream;

// Each word byte stands for itself or, from 128 on, as an x; a full stop stands at every other place.
static WORD_BYTES: [u8; 256] = *b"\
    ................................\
    ................0123456789......\
    .ABCDEFGHIJKLMNOPQRSTUVWXYZ.....\
    .abcdefghijklmnopqrstuvwxyz.....\
    xxxxxxxxxxxxxxxxxxxxxxxxxxxxxxxx\
    xxxxxxxxxxxxxxxxxxxxxxxxxxxxxxxx\
    xxxxxxxxxxxxxxxxxxxxxxxxxxxxxxxx\
    xxxxxxxxxxxxxxxxxxxxxxxxxxxxxxxx";

/// The most bytes of a piece.
pub const PIECE_BYTES: usize = 255;

/// Whether a byte belongs in a word: ASCII letters, ASCII digits and the bytes from 128 on do.
#[inline]
pub fn is_word_byte(byte: u8) -> bool
    ensures { result ≡ is_word_byte_spec byte }
{
    WORD_BYTES[byte as usize] != b'.'
}

/// Whether a byte belongs in a piece of the stream.
#[inline]
pub fn is_of_kind(kind: Stream, byte: u8) -> bool
    ensures { result ≡ is_of_kind_spec kind byte }
{
    match kind {
        Stream::Words => is_word_byte(byte),
        Stream::Others => !is_word_byte(byte),
    }
}

/// How many word bytes stand at the front.
pub fn word_len(text: &[u8]) -> usize
    ensures is { result ≡ prefix_len is_word_byte_spec text.now }
    ensures within { result ≤ length text.now }
{
    let mut len = 0;
    for byte in text {
        if !is_word_byte(*byte) {
            break;
        }
        len += 1;
    }
    len
}

/// How many bytes at the front are a piece of the stream.
#[inline]
pub fn piece_len(kind: Stream, text: &[u8]) -> usize
    ensures is { result ≡ piece_len_spec kind text.now }
    ensures within { result ≤ length text.now }
{
    let mut len = 0;
    for byte in text {
        if len == PIECE_BYTES || !is_of_kind(kind, *byte) {
            break;
        }
        len += 1;
    }
    len
}

/// Writes the folded word at the front of `out`, A to Z as a to z and every other byte as it is, and
/// answers its length. `out` is at least as long as `word`; what stands behind the word there stays.
pub fn fold(word: &[u8], out: &mut [u8]) -> usize
    requires { length word.now ≤ length out.old }
    ensures written { out.new ≡ folded word.now ++ drop (length word.now) out.old }
    ensures length { result ≡ length word.now }
{
    for (i, byte) in word.iter().enumerate() {
        out[i] = byte.to_ascii_lowercase();
    }
    word.len()
}

/// Whether a word is the term, once it is folded.
#[inline]
pub fn is_term(word: &[u8], term: &[u8]) -> bool
    ensures { result ≡ same_term term.now (folded word.now) }
{
    if word.len() != term.len() {
        return false;
    }
    for (i, byte) in word.iter().enumerate() {
        if byte.to_ascii_lowercase() != term[i] {
            return false;
        }
    }
    true
}

//! Counts of the pieces of one stream.
ghost use Rattle.std.specs.Prelude.{◌≡◌, ◌<◌, ◌≤◌, ◌+◌, ◌^◌, ℕ, List, [], length};
ghost use Rattle.std.specs.Bool.{OnTrue};
ghost use Rattle.mg_defs.specs.Marks.{code_of};
ghost use Rattle.mg_text.specs.CountedText.{AllCame, ComeMore, ComesMore};

use mg_model::{Piece, Stream, TextModel, Vocab};
use std::alloc::Global;
use std::marker::Model;

/// The most pieces of a stream that are counted: fewer than 2^32.
const MOST: u32 = u32::MAX;

/// The pieces of a stream, each with how often it came.
#[derive(Drop)]
pub struct StreamCounts {
    vocab: Vocab,
    // How many more may come.
    left: u32,
    // How many bytes all pieces have. Nothing is promised of it.
    bytes: u64,
}

impl Model for StreamCounts {
    ghost use Rattle.std.specs.Prelude.{ℕ, List, ◌<◌, ◌+◌, ◌^◌};
    ghost use Rattle.mg_defs.specs.Vocabulary.{total};

    ghost Value = { List (List ℕ × ℕ) };

    ghost view = { λ c. c.vocab };

    ghost invariant = { λ c. total c.vocab + c.left < 2 ^ 32 };
}

impl StreamCounts {
    /// No piece was counted.
    pub(crate) fn new(alloc: Global) -> Self
        ensures { result ≡ [] }
    {
        StreamCounts {
            vocab: Vocab::new(alloc),
            left: MOST,
            bytes: 0,
        }
    }

    // Counts a piece of at most 255 bytes that came so many times. False where there are too many
    // pieces, or no memory.
    fn put(&mut self, piece: &[u8], times: u32) -> bool
        requires short { length piece.now ≤ 255 }
        ensures { OnTrue result (ComesMore piece.now times self.old self.new) }
    {
        if times == 0 {
            return true;
        }
        if times > self.left {
            return false;
        }
        self.left -= times;
        let bytes = u64::from(times) * piece.len() as u64;
        self.bytes = self.bytes.saturating_add(bytes);
        let put = self.vocab.count_times(&Piece::alone(piece), times);
        put.is_ok()
    }

    /// How many bytes all pieces have. Nothing is promised of it.
    pub(crate) fn bytes(&self) -> u64 {
        self.bytes
    }

    /// The vocabulary.
    pub(crate) fn into_vocab(self) -> Vocab
        ensures same { result ≡ self }
        ensures came { AllCame self }
    {
        let StreamCounts { vocab, .. } = self;
        // For the proof: each piece of a vocabulary came.
        let _ = vocab.len();
        vocab
    }
}

/// Counts the piece of each symbol of a model as often as the symbol came. False where there are too
/// many pieces, or no memory, or not as many symbols as the model has.
pub fn put_all(
    counts: &mut StreamCounts,
    model: &TextModel,
    stream: Stream,
    symbols: &[u32],
) -> bool
    ensures { OnTrue result (ComeMore (code_of stream model.now).pieces symbols.now
        counts.old counts.new) }
{
    let count = model.canon(stream).count();
    if symbols.len() != count as usize {
        return false;
    }
    for symbol in 0..count {
        let put = counts.put(model.piece(stream, symbol), symbols[symbol as usize]);
        if !put {
            return false;
        }
    }
    true
}

//! Whether the words of a model are words.
ghost use Rattle.std.specs.Prelude.{◌≡◌, ◌==◌, length, OnErr, OnOk};
ghost use Rattle.std.specs.List.{prefix_len};
ghost use Rattle.mg_defs.specs.Parse.{is_word_byte};
ghost use Rattle.mg_check_parts.specs.Words.{AreWords};

use mg_dev::{Bad, Part};
use mg_model::{Stream, TextModel};
use mg_parse::word_len;

// Whether a piece has bytes of words alone.
fn is_word(piece: &[u8]) -> bool
    ensures { result ≡ (prefix_len is_word_byte piece.now == length piece.now) }
{
    word_len(piece) == piece.len()
}

// The word of this symbol has another byte than words have.
fn other_word(symbol: u32) -> Bad {
    Bad {
        part: Part::Words,
        at: u64::from(symbol),
        low: 1,
        high: 1,
        found: 0,
    }
}

/// Refuses a model one of whose words has a byte that no word has. No model of a collection has one.
pub(crate) fn expect_words(model: &TextModel) -> Result<(), Bad>
    ensures words { OnOk result (AreWords model.now.words.pieces) }
    ensures other { OnErr result (AreWords model.now.words.pieces → ⊥) }
{
    for symbol in 0..model.canon(Stream::Words).count() {
        if !is_word(model.piece(Stream::Words, symbol)) {
            return Err(other_word(symbol));
        }
    }
    Ok(())
}

//! How often each symbol of one stream came.
ghost use Rattle.std.specs.Prelude.{◌≡◌, IfOk, length, replicate};
ghost use Rattle.std.specs.Bool.{OnTrue};
ghost use Rattle.mg_defs.specs.Marks.{code_of};
ghost use Rattle.mg_text.specs.PieceCounts.{one_more};

use mg_model::{Stream, TextModel};
use std::alloc::{AllocError, Global};
use std::marker::Model;

/// How often each symbol of a stream came, and how many bytes its piece has.
///
/// It takes five bytes a symbol and asks no map, so counting one more stays within the processor's
/// caches. Nothing is promised of the numbers of bytes.
#[derive(Drop)]
pub struct StreamTally {
    counts: Vec<u32>,
    lengths: Vec<u8>,
}

impl Model for StreamTally {
    ghost use Rattle.std.specs.Prelude.{ℕ, List};

    ghost Value = { List ℕ };

    ghost view = { λ t. t.counts.items };
}

// How many bytes the piece of each symbol has.
fn lengths_of(alloc: Global, model: &TextModel, stream: Stream) -> Result<Vec<u8>, AllocError> {
    let symbols = model.canon(stream).count();
    let mut lengths = Vec::with_capacity(alloc, symbols as usize)?;
    for symbol in 0..symbols {
        lengths.push(model.piece(stream, symbol).len() as u8)?;
    }
    Ok(lengths)
}

impl StreamTally {
    /// No symbol of a model's stream came.
    pub(crate) fn of(alloc: Global, model: &TextModel, stream: Stream) -> Result<Self, AllocError>
        ensures { IfOk result (λ t. t ≡ replicate (length (code_of stream model.now).pieces) 0) }
    {
        let symbols = model.canon(stream).count();
        let counts = vec![in alloc; 0; symbols as usize]?;
        let lengths = lengths_of(alloc, model, stream)?;
        Ok(StreamTally { counts, lengths })
    }

    /// How many bytes the piece of a symbol has. Nothing is promised of it.
    #[inline(always)]
    pub(crate) fn bytes_of(&self, symbol: u32) -> usize {
        let at = symbol as usize;
        if at < self.lengths.len() {
            usize::from(self.lengths[at])
        } else {
            0
        }
    }

    /// Counts a symbol. False where there is none such, or it came too often.
    #[inline(always)]
    pub(crate) fn count(&mut self, symbol: u32) -> bool
        ensures { OnTrue result (self.new ≡ one_more symbol self.old) }
    {
        let at = symbol as usize;
        if at >= self.counts.len() {
            return false;
        }
        let count = self.counts[at];
        if count == u32::MAX {
            return false;
        }
        self.counts[at] = count + 1;
        true
    }

    /// How often each symbol came.
    pub(crate) fn counts(&self) -> &[u32]
        ensures { result.now ≡ self.now }
    {
        &self.counts
    }
}

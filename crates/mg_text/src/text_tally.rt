//! How often each symbol of a text came.
ghost use Rattle.std.specs.Prelude.{◌≡◌, IfOk};
ghost use Rattle.std.specs.Bool.{OnTrue};
ghost use Rattle.mg_text.specs.PieceCounts.{IsNoTally, with_symbol};

use crate::stream_tally::StreamTally;
use mg_model::{Stream, TextModel};
use std::alloc::{AllocError, Global};
use std::marker::Model;

/// The bytes of a full piece: a byte of its kind may follow it.
const FULL: usize = 255;

// Which piece may come next in a document, by the lengths of those before it.
//
// An empty piece stands only first, behind a full one, or last behind a shorter one; and no two empty ones stand together.
// Pieces that come otherwise are those of no document: their bytes have other pieces.
#[derive(Drop)]
struct NextPiece {
    // How many bytes the piece before has.
    before: usize,
    // Whether the piece before was the last one.
    ended: bool,
}

impl NextPiece {
    // At the start of a document, where an empty piece may come.
    fn new() -> Self {
        NextPiece {
            before: FULL,
            ended: false,
        }
    }

    // Whether a piece of so many bytes may come next. Nothing is promised of it.
    #[inline]
    fn may_have(&mut self, length: usize) -> bool {
        if self.ended {
            return false;
        }
        if length == 0 {
            if self.before == 0 {
                return false;
            }
            self.ended = self.before < FULL;
        }
        self.before = length;
        true
    }
}

/// How often each symbol of either stream came in the documents of a text.
///
/// After a piece that was not counted it is of no use.
#[derive(Drop)]
pub struct TextTally {
    words: StreamTally,
    others: StreamTally,
    next: NextPiece,
}

impl Model for TextTally {
    ghost use Rattle.mg_text.specs.PieceCounts.{PieceTally};

    ghost Value = { PieceTally };

    ghost view = { λ t. record { words = t.words; others = t.others } };
}

impl TextTally {
    /// No symbol of a model came.
    pub(crate) fn of(alloc: Global, model: &TextModel) -> Result<Self, AllocError>
        ensures { IfOk result (λ t. IsNoTally model.now t) }
    {
        let words = StreamTally::of(alloc, model, Stream::Words)?;
        let others = StreamTally::of(alloc, model, Stream::Others)?;
        Ok(TextTally {
            words,
            others,
            next: NextPiece::new(),
        })
    }

    /// Begins a document.
    pub(crate) fn begin(&mut self)
        ensures { self.new ≡ self.old }
    {
        self.next = NextPiece::new();
    }

    // How many bytes the piece of a symbol has. Nothing is promised of it.
    #[inline(always)]
    fn bytes_of(&self, stream: Stream, symbol: u32) -> usize {
        match stream {
            Stream::Words => self.words.bytes_of(symbol),
            Stream::Others => self.others.bytes_of(symbol),
        }
    }

    /// Counts the piece of a symbol. False where there is none such, where it came too often, or where
    /// no document has the piece behind those before.
    #[inline(always)]
    pub(crate) fn count(&mut self, stream: Stream, symbol: u32) -> bool
        ensures { OnTrue result (self.new ≡ with_symbol stream symbol self.old) }
    {
        let length = self.bytes_of(stream, symbol);
        if !self.next.may_have(length) {
            return false;
        }
        match stream {
            Stream::Words => self.words.count(symbol),
            Stream::Others => self.others.count(symbol),
        }
    }

    /// How often each word came, by symbols.
    pub(crate) fn words(&self) -> &[u32]
        ensures { result.now ≡ self.now.words }
    {
        self.words.counts()
    }

    /// How often each other came, by symbols.
    pub(crate) fn others(&self) -> &[u32]
        ensures { result.now ≡ self.now.others }
    {
        self.others.counts()
    }
}

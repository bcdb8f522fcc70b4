//! The symbols of the words of a document.
ghost use Rattle.std.specs.Prelude.{◌≡◌, ◌≤◌, ◌<◌, ◌+◌, [], Err};
ghost use Rattle.std.specs.Bool.{OnTrue, OnFalse};
ghost use Rattle.mg_text.specs.Listing.{Adds, AddsTo, IsAddRefused, symbol_if};

use mg_dev::{Bad, Part, PartErr};
use std::alloc::Global;
use std::marker::Model;

/// The symbols of the words of a document that are not empty, and how many bytes its other pieces may have:
/// damaged text can tell of a document of any length.
///
/// So there are no more symbols than bytes. The memory for them grows with them, never with the bound, and
/// is kept for the next document.
#[derive(Drop)]
pub struct WordList {
    symbols: Vec<u32>,
    most: u64,
    left: u64,
    // Where the document begins, of which a refusal tells.
    at: u64,
}

impl Model for WordList {
    ghost use Rattle.mg_text.specs.Listing.{Listing};

    ghost Value = { Listing };

    ghost view = { λ l. record { symbols = l.symbols.items; left = l.left } };
}

impl WordList {
    /// No symbol.
    pub fn new(alloc: Global) -> Self
        ensures { result ≡ record { symbols = []; left = 0 } }
    {
        WordList {
            symbols: Vec::new(alloc),
            most: 0,
            left: 0,
            at: 0,
        }
    }

    /// The symbols.
    pub fn symbols(&self) -> &[u32]
        ensures { result.now ≡ self.now.symbols }
    {
        self.symbols.as_slice()
    }

    /// Forgets the symbols. A document begins at this bit of Text, of which so many bytes may come.
    pub(crate) fn begin(&mut self, most: u64, at: u64)
        ensures { self.new ≡ record { symbols = []; left = most } }
    {
        self.symbols.clear();
        self.most = most;
        self.left = most;
        self.at = at;
    }

    /// Counts the bytes of a piece, of which there are at most 255.
    #[inline]
    pub(crate) fn pass(&mut self, size: usize) -> Result<(), PartErr>
        requires { size ≤ 255 }
        ensures { AddsTo [] size result self.old self.new }
    {
        if size as u64 > self.left {
            return Err(self.beyond(size));
        }
        self.left -= size as u64;
        Ok(())
    }

    /// Adds the symbol of a word that is not empty, and counts its bytes, of which there are at most 255.
    pub(crate) fn add(&mut self, symbol: u32, size: usize) -> Result<(), PartErr>
        requires { size ≤ 255 }
        ensures { AddsTo (symbol_if symbol size) size result self.old self.new }
    {
        match self.pass(size) {
            Ok(()) => {}
            Err(refusal) => return Err(refusal),
        }
        if size == 0 {
            return Ok(());
        }
        match self.symbols.push(symbol) {
            Ok(()) => Ok(()),
            Err(_) => Err(PartErr::Memory),
        }
    }

    /// Adds the symbol of a word that is not empty, and counts the bytes of the word and its other. False,
    /// and nothing changed, where memory has to be taken, or where there are more bytes than there may be.
    #[inline]
    pub(crate) fn hold(&mut self, symbol: u32, word: usize, other: usize) -> bool
        requires word { word ≤ 15 }
        requires other { other ≤ 15 }
        ensures held { OnTrue result
            (Adds (symbol_if symbol word) (word + other) self.old self.new) }
        ensures kept { OnFalse result (self.new ≡ self.old) }
    {
        let size = (word + other) as u64;
        if size > self.left || self.symbols.len() == self.symbols.capacity() {
            return false;
        }
        self.left -= size;
        if word != 0 {
            self.symbols.push_reserved(symbol);
        }
        true
    }

    // A piece of so many bytes goes beyond what may come: it tells where the document begins, how many bytes might come,
    // and how many do, as far as the piece.
    #[inline(never)]
    fn beyond(&self, size: usize) -> PartErr
        requires more { self.now.left < size }
        requires short { size ≤ 255 }
        ensures { IsAddRefused (Err result) (self.now.left < size) }
    {
        let came = self.most.saturating_sub(self.left).min(1 << 62);
        PartErr::Bad(Bad {
            part: Part::Text,
            at: self.at,
            low: 0,
            high: came + self.left,
            found: came + size as u64,
        })
    }
}

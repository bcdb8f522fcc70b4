//! Documents of a collection that comes one byte at a time.
ghost use Rattle.std.specs.Prelude.{◌≡◌, ℕ, ◌<◌, ◌^◌, ◌↔◌, List, [], ◌∷◌, ◌++◌, length};
ghost use Rattle.mg_defs.specs.Split.{closed_count, has_open_end};
ghost use Rattle.mg_parse.specs.Seen.{StandsFor};

use std::marker::Model;

/// The byte that closes a document, control-B.
pub const CLOSE: u8 = 2;

/// What a byte of a collection does.
#[derive(Clone, Copy, Debug, PartialEq, Eq)]
pub enum SplitEvent {
    /// It closes a document.
    Close,
    /// It belongs to a document.
    Byte,
}

/// Tells the documents of a collection, one byte at a time.
///
/// It keeps no bytes: it stands for all that it was fed by a count and a flag. What each byte does is
/// told when it comes, so a caller sees where documents end and holds as much of them as it wants.
#[derive(Debug, Drop)]
pub struct Splitter {
    closed: u64,
    is_open: bool,
}

impl Model for Splitter {
    ghost use Rattle.mg_parse.specs.Seen.{Seen};

    ghost Value = { Seen };

    ghost view = { λ s. record { closed = s.closed; open_end = s.is_open } };
}

impl Splitter {
    /// Has seen nothing.
    pub fn new() -> Splitter
        ensures { StandsFor result [] }
    {
        Splitter {
            closed: 0,
            is_open: false,
        }
    }

    /// Takes the next byte. At most 2^63 bytes are fed to one splitter.
    #[inline]
    pub fn feed(&mut self, byte: u8) -> SplitEvent
        requires { (fed : List ℕ) × (length fed < 2 ^ 63) × StandsFor self.old fed }
        ensures stands { (fed : List ℕ) → StandsFor self.old fed →
            StandsFor self.new (fed ++ byte ∷ []) }
        ensures event { (result ≡ SplitEvent.Close) ↔ (byte ≡ 2) }
    {
        if byte == CLOSE {
            self.closed += 1;
            self.is_open = false;
            SplitEvent::Close
        } else {
            self.is_open = true;
            SplitEvent::Byte
        }
    }

    /// How many documents were closed.
    pub fn documents(&self) -> u64
        ensures { (fed : List ℕ) → StandsFor self.now fed → result ≡ closed_count fed }
    {
        self.closed
    }

    /// Whether bytes came after the last control-B: the collection has an open end, and one document
    /// more than were closed.
    pub fn finish(self) -> bool
        ensures { (fed : List ℕ) → StandsFor self fed → result ≡ has_open_end fed }
    {
        self.is_open
    }
}

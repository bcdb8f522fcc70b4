//! What is met in a collection, byte by byte.
ghost use Rattle.std.specs.Prelude.{◌≡◌, ◌≢◌, ◌<◌, ◌≤◌, ◌++◌, ◌∷◌, ◌^◌, ℕ, List, [], true, false, length, take};
ghost use Rattle.mg_defs.specs.declared.Stream.TheVariants.{Words};
ghost use Rattle.mg_defs.specs.Marks.{Mark, marks};
ghost use Rattle.mg_defs.specs.Pieces.{left_at_end};
ghost use Rattle.mg_defs.specs.Split.{has_open_end};
ghost use Rattle.mg_count.specs.Meeting.{marks_of};
ghost use Rattle.mg_count.specs.Scanning.{HasMet, HasRead, HasReadOn, closing_marks, joined_marks};
ghost use Rattle.mg_count.specs.Whole.{EndsPiece, IsWholePiece};

use crate::met::Met;
use crate::whole::{is_byte_at, piece_end, turn_at};
use mg_parse::{CLOSE, Offer, PieceReader, SplitEvent, Splitter, Stream};
use std::marker::Model;

/// Takes the bytes of a collection, and tells of each what is met with it.
///
/// It keeps the piece that is read and the one that ended, and nothing of what came before: what is
/// met stands until the next byte is taken.
#[derive(Drop)]
pub struct Scanner {
    splitter: Splitter,
    reader: PieceReader,
    is_open: bool,
    met: Met,
}

impl Model for Scanner {
    ghost use Rattle.mg_count.specs.Scanning.{Scanning};

    ghost Value = { Scanning };

    ghost view = { λ s. record { seen = s.splitter; reading = s.reader; is_open = s.is_open; met = s.met } };
}

/// Reads a byte of a document. Up to two pieces end before it, of which the second is empty: it lies
/// between a full piece and a byte of the same kind.
fn read_byte(reader: &mut PieceReader, byte: u8, met: &mut Met, begins: bool)
    ensures met { (ended : List (List ℕ)) × HasRead reader.old reader.new byte ended
        × (marks_of met.new ≡ joined_marks begins reader.old.kind ended) }
{
    met.restart(begins);
    match reader.offer(byte) {
        Offer::Taken => return,
        Offer::Ended => {}
    }
    met.tell(reader.kind(), reader.piece());
    reader.turn();
    match reader.offer(byte) {
        Offer::Taken => return,
        Offer::Ended => {}
    }
    met.tell_other();
    reader.turn();
    let _ = reader.offer(byte);
}

/// Reads the first bytes on into the piece that is read, as far as they are of it; answers how many.
#[inline]
fn read_on(reader: &mut PieceReader, bytes: &[u8]) -> usize
    ensures within { result ≤ length bytes.now }
    ensures read { HasReadOn reader.old reader.new (take result bytes.now) }
{
    for (count, byte) in bytes.iter().enumerate() {
        if *byte == CLOSE {
            return count;
        }
        match reader.offer(*byte) {
            Offer::Taken => {}
            Offer::Ended => return count,
        }
    }
    bytes.len()
}

/// Tells the pieces that are left at a document's end.
fn tell_left(reader: &PieceReader, met: &mut Met, begins: bool)
    ensures met { marks_of met.new ≡ joined_marks begins reader.now.kind
        (left_at_end reader.now.kind reader.now.piece) }
    ensures ends { met.new.ends ≡ false }
{
    met.restart(begins);
    match reader.ends() {
        0 => {}
        1 => met.tell(reader.kind(), reader.piece()),
        _ => {
            met.tell(reader.kind(), reader.piece());
            met.tell_other();
        }
    }
}

/// Ends a document, and begins to read another.
fn end_document(reader: &mut PieceReader, met: &mut Met, begins: bool)
    ensures met { marks_of met.new ≡ closing_marks begins reader.old }
    ensures reader { reader.new ≡ record { kind = Words; piece = [] } }
{
    tell_left(reader, met, begins);
    met.end();
    *reader = PieceReader::new();
}

impl Scanner {
    /// Has taken nothing.
    pub fn new() -> Self
        ensures { HasMet result [] [] }
    {
        Scanner {
            splitter: Splitter::new(),
            reader: PieceReader::new(),
            is_open: false,
            met: Met::new(),
        }
    }

    /// Takes the next byte where it goes on the piece that is read, as most bytes do: then nothing is
    /// met with it. Else it is not taken.
    #[inline]
    pub fn goes_on(&mut self, byte: u8) -> bool
        requires some { (fed : List ℕ) × (met : List Mark) × HasMet self.old fed met
            × (length fed < 2 ^ 32) }
        ensures met { result ≡ true → (fed : List ℕ) (met : List Mark) → HasMet self.old fed met →
            HasMet self.new (fed ++ byte ∷ []) met }
        ensures same { result ≡ false → self.new ≡ self.old }
    {
        if !self.is_open || byte == CLOSE {
            return false;
        }
        match self.reader.offer(byte) {
            Offer::Taken => {}
            Offer::Ended => return false,
        }
        let _ = self.splitter.feed(byte);
        true
    }

    /// Takes the first bytes as far as they go on the piece that is read: nothing is met with them.
    /// Answers how many.
    #[inline]
    pub fn go_on(&mut self, bytes: &[u8]) -> usize
        ensures within { result ≤ length bytes.now }
        ensures met { (fed : List ℕ) (met : List Mark) → HasMet self.old fed met →
            HasMet self.new (fed ++ take result bytes.now) met }
    {
        if !self.is_open {
            return 0;
        }
        read_on(&mut self.reader, bytes)
    }

    /// Takes the bytes behind a place up to the one that ends the piece that is read, where this piece is the
    /// byte at the place and ends at a byte of the other kind; answers the place of that byte. Else it takes
    /// none, and answers the place that was given. The piece alone is met with them, and it is no copy: its
    /// bytes stand from the one place to the other, and `met` doesn't tell it.
    #[inline]
    pub fn take_piece(&mut self, bytes: &[u8], at: usize) -> usize
        ensures none { result ≡ at → self.new ≡ self.old }
        ensures some { result ≢ at → EndsPiece self.old self.new bytes.now at result }
        ensures whole { (next : ℕ) → IsWholePiece self.old bytes.now at next → result ≡ next }
    {
        if !self.is_open || !is_byte_at(&self.reader, bytes, at) {
            return at;
        }
        let next = piece_end(self.reader.kind(), bytes, at + 1);
        if next >= bytes.len() {
            return at;
        }
        if !turn_at(&mut self.reader, bytes[next]) {
            return at;
        }
        next
    }

    /// The stream of the piece that is read.
    #[inline]
    pub fn kind(&self) -> Stream
        ensures { result ≡ self.now.reading.kind }
    {
        self.reader.kind()
    }

    /// Takes the next byte, of fewer than 2^32 in all before it.
    pub fn take(&mut self, byte: u8)
        requires some { (fed : List ℕ) × (met : List Mark) × HasMet self.old fed met
            × (length fed < 2 ^ 32) }
        ensures met { (fed : List ℕ) (met : List Mark) → HasMet self.old fed met →
            HasMet self.new (fed ++ byte ∷ []) (met ++ marks_of self.new.met) }
    {
        let begins = !self.is_open;
        match self.splitter.feed(byte) {
            SplitEvent::Close => {
                end_document(&mut self.reader, &mut self.met, begins);
                self.is_open = false;
            }
            SplitEvent::Byte => {
                read_byte(&mut self.reader, byte, &mut self.met, begins);
                self.is_open = true;
            }
        }
    }

    /// Takes the end of the collection, where a document may be open.
    pub fn finish(&mut self)
        ensures met { (fed : List ℕ) (met : List Mark) → HasMet self.old fed met →
            marks fed ≡ met ++ marks_of self.new.met }
    {
        if self.is_open {
            end_document(&mut self.reader, &mut self.met, false);
        } else {
            self.met.restart(false);
        }
    }

    /// Whether bytes came after the last document that was closed.
    pub fn is_open(&self) -> bool
        ensures { (fed : List ℕ) (met : List Mark) → HasMet self.now fed met →
            result ≡ has_open_end fed }
    {
        self.is_open
    }

    /// What is met with the last byte, or with the end.
    pub fn met(&self) -> &Met
        ensures { result.now ≡ self.now.met }
    {
        &self.met
    }
}

//! The pairs of a document that is held.
ghost use Rattle.std.specs.Prelude.{◌≡◌, ◌≤◌, length};
ghost use Rattle.mg_defs.specs.Parse.{piece_of, after_piece, parse};

use crate::Stream;
use crate::bytes::piece_len;
use std::marker::Model;

/// A word and the other bytes after it. One of the two may be empty, and not both.
#[derive(Clone, Copy, Debug, PartialEq, Eq)]
pub struct Pair<'a> {
    pub word: &'a [u8],
    pub other: &'a [u8],
}

/// The pairs of a document, one after another, borrowed from it.
///
/// The pieces in order are the document's bytes. A piece has at most 255 bytes: where the same kind
/// goes on after that many, an empty piece of the other kind follows.
#[derive(Drop)]
pub struct Pairs<'a> {
    rest: &'a [u8],
}

impl<'a> Model for Pairs<'a> {
    ghost use Rattle.std.specs.Prelude.{List};
    ghost use Rattle.mg_defs.specs.Parse.{Pair, parse};

    ghost Value = { List Pair };

    ghost view = { λ s. parse s.rest.now };
}

impl<'a> Pairs<'a> {
    /// The pairs of a document.
    #[tactic(auto, using(mg_defs::proofs::ParseLaws::parse_short))]
    pub fn new(doc: &'a [u8]) -> Pairs<'a>
        ensures pairs { result ≡ parse doc.now }
        ensures short { length result ≤ length doc.now }
    {
        Pairs { rest: doc }
    }
}

/// The piece of the stream at the front, and what follows it.
#[inline]
fn cut<'a>(kind: Stream, text: &'a [u8]) -> (&'a [u8], &'a [u8])
    ensures piece { result.0.now ≡ piece_of kind text.now }
    ensures rest { result.1.now ≡ after_piece kind text.now }
{
    text.split_at(piece_len(kind, text))
}

impl<'a> Iterator for Pairs<'a> {
    ghost use Rattle.std.specs.Iterator.{YieldsFirstBy, item_count};
    ghost use Rattle.mg_parse.specs.Lent.{pair_of};

    type Item = Pair<'a>;

    ghost next_gives = { YieldsFirstBy pair_of (λ s. s) };

    ghost remaining = { item_count (λ s. s) };

    #[inline]
    fn next(&mut self) -> Option<Pair<'a>> {
        if self.rest.is_empty() {
            return None;
        }
        let (word, tail) = cut(Stream::Words, self.rest);
        let (other, rest) = cut(Stream::Others, tail);
        self.rest = rest;
        Some(Pair { word, other })
    }
}

//! The documents of a collection, one after another.
ghost use Rattle.std.specs.Prelude.{◌≡◌, ℕ, ◌<◌, ◌≤◌, List, [], ◌∷◌, length, drop, MatchOption};
ghost use Rattle.std.specs.List.{prefix_len};
ghost use Rattle.mg_defs.specs.Split.{documents};
ghost use Rattle.mg_plain.specs.Inside.{is_inside};

use memchr::memchr;
use mg_parse::CLOSE;
use std::marker::Model;

/// The documents that are left.
#[derive(Drop)]
pub struct Docs<'a> {
    rest: &'a [u8],
}

impl<'a> Model for Docs<'a> {
    ghost use Rattle.std.specs.Prelude.{List, ℕ};
    ghost use Rattle.mg_defs.specs.Split.{documents};

    ghost Value = { List (List ℕ) };

    ghost view = { λ d. documents d.rest.now };
}

/// How many bytes the first document has.
pub(crate) fn doc_len(bytes: &[u8]) -> usize
    ensures is { result ≡ prefix_len is_inside bytes.now }
    ensures within { result ≤ length bytes.now }
{
    match memchr(CLOSE, bytes) {
        Some(len) => len,
        None => bytes.len(),
    }
}

fn after_first(bytes: &[u8]) -> &[u8]
    ensures { result.now ≡ drop 1 bytes.now }
{
    match bytes.split_first() {
        Some((_, rest)) => rest,
        None => bytes,
    }
}

/// The first document, and the bytes after the byte that closes it.
fn cut_doc<'a>(bytes: &'a [u8]) -> (&'a [u8], &'a [u8])
    requires { 0 < length bytes.now }
    ensures { documents bytes.now ≡ result.0.now ∷ documents result.1.now }
{
    let (doc, closed) = bytes.split_at(doc_len(bytes));
    (doc, after_first(closed))
}

impl<'a> Docs<'a> {
    pub fn new(bytes: &'a [u8]) -> Docs<'a>
        ensures { result ≡ documents bytes.now }
    {
        Docs { rest: bytes }
    }

    pub fn next_doc(&mut self) -> Option<&'a [u8]>
        ensures { MatchOption result ((self.old ≡ []) × (self.new ≡ []))
            (λ doc. self.old ≡ doc.now ∷ self.new) }
    {
        if self.rest.is_empty() {
            return None;
        }
        let (doc, rest) = cut_doc(self.rest);
        self.rest = rest;
        Some(doc)
    }
}

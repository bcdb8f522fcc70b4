//! Bytes on the way to a sink.
ghost use Rattle.std.specs.Prelude.{◌≡◌, ◌+◌, ◌≤◌, List, [], ◌++◌, length, take, OnOk, decimal, codes, None};
ghost use Rattle.mg_defs.specs.Texts.{numbered as numbered_text, row as row_text, header as header_text, close as close_text, count as count_text};
ghost use Rattle.mg_reply.specs.Pending.{PassesText, PutsText};

use itoa::Buffer;
use mg_dev::{PutErr, Sink};
use std::marker::Model;

/// How many bytes may wait.
const SIZE: usize = 8192;

/// Bytes that wait for a sink, so that it gets many at once.
///
/// It is no sink of its own: each call names the sink, and what was passed on is only there after
/// `flush`. After a refused call it is not used again.
#[derive(Drop)]
pub struct Pending {
    buffer: [u8; 8192],
    len: usize,
}

impl Model for Pending {
    ghost use Rattle.std.specs.Prelude.{List, ℕ, take, ◌≤◌};

    ghost Value = { List ℕ };

    ghost view = { λ p. take p.len p.buffer };

    ghost invariant = { λ p. p.len ≤ 8192 };
}

impl Pending {
    /// Nothing waits.
    pub fn new() -> Pending
        ensures { result ≡ [] }
    {
        Pending {
            buffer: [0; 8192],
            len: 0,
        }
    }

    /// Hands over all that waits.
    pub fn flush<O: Sink>(&mut self, out: &mut O) -> Result<(), PutErr>
        ensures put { PutsText O.Sink out.old out.new result self.old }
        ensures empty { OnOk result (self.new ≡ []) }
    {
        let len = self.len;
        self.len = 0;
        out.put(&self.buffer[..len])
    }

    /// Lets the bytes wait after those that do.
    fn keep(&mut self, bytes: &[u8])
        requires { length self.old + length bytes.now ≤ 8192 }
        ensures { self.new ≡ self.old ++ bytes.now }
    {
        let end = self.len + bytes.len();
        self.buffer[self.len..end].copy_from_slice(bytes);
        self.len = end;
    }

    fn room(&self) -> usize
        ensures { result + length self.now ≡ 8192 }
    {
        SIZE - self.len
    }

    /// Passes the bytes on, after those that wait.
    pub fn put<O: Sink>(&mut self, out: &mut O, bytes: &[u8]) -> Result<(), PutErr>
        ensures { PassesText O.Sink out.old out.new self.old self.new result bytes.now }
    {
        if bytes.len() <= self.room() {
            self.keep(bytes);
            return Ok(());
        }
        match self.flush(out) {
            Ok(()) => {}
            Err(error) => return Err(error),
        }
        if bytes.len() > SIZE {
            return out.put(bytes);
        }
        self.keep(bytes);
        Ok(())
    }

    fn number<O: Sink>(&mut self, out: &mut O, number: u64) -> Result<(), PutErr>
        ensures { PassesText O.Sink out.old out.new self.old self.new result (decimal number) }
    {
        let mut buffer = Buffer::new();
        self.put(out, buffer.format(number).as_bytes())
    }

    /// A blank and a score.
    fn score<O: Sink>(&mut self, out: &mut O, score: u64) -> Result<(), PutErr>
        ensures { PassesText O.Sink out.old out.new self.old self.new result
            (codes " " ++ decimal score) }
    {
        match self.put(out, b" ") {
            Ok(()) => self.number(out, score),
            Err(error) => Err(error),
        }
    }

    /// A number, and its score where there is one.
    fn numbered<O: Sink>(
        &mut self,
        out: &mut O,
        number: u32,
        score: Option<u64>,
    ) -> Result<(), PutErr>
        ensures { PassesText O.Sink out.old out.new self.old self.new result
            (numbered_text number score) }
    {
        let Some(score) = score else {
            return self.number(out, number as u64);
        };
        match self.number(out, number as u64) {
            Ok(()) => self.score(out, score),
            Err(error) => Err(error),
        }
    }

    /// The row of a document: its number, and its score where the answer is ranked.
    pub fn row<O: Sink>(
        &mut self,
        out: &mut O,
        number: u32,
        score: Option<u64>,
    ) -> Result<(), PutErr>
        ensures { PassesText O.Sink out.old out.new self.old self.new result
            (row_text number score) }
    {
        match self.numbered(out, number, score) {
            Ok(()) => self.put(out, b"\n"),
            Err(error) => Err(error),
        }
    }

    /// What stands before a document that is shown.
    pub fn header<O: Sink>(
        &mut self,
        out: &mut O,
        number: u32,
        score: Option<u64>,
    ) -> Result<(), PutErr>
        ensures { PassesText O.Sink out.old out.new self.old self.new result
            (header_text number score) }
    {
        match self.put(out, b"-- ") {
            Ok(()) => self.row(out, number, score),
            Err(error) => Err(error),
        }
    }

    /// What stands after a document that is shown.
    #[tactic(auto, unfolding(mg_defs::specs::Texts::close))]
    pub fn close<O: Sink>(&mut self, out: &mut O) -> Result<(), PutErr>
        ensures { PassesText O.Sink out.old out.new self.old self.new result close_text }
    {
        self.put(out, b"\x02\n")
    }

    /// The last line of a reply: how many documents the answer has.
    pub fn count<O: Sink>(&mut self, out: &mut O, total: u32) -> Result<(), PutErr>
        ensures { PassesText O.Sink out.old out.new self.old self.new result (count_text total) }
    {
        match self.put(out, b"= ") {
            Ok(()) => self.row(out, total, None),
            Err(error) => Err(error),
        }
    }
}

//! Bytes on their way to a sink, of which there may be so many at most.
ghost use Rattle.std.specs.Prelude.{◌≡◌, ◌≤◌, ◌<◌, ◌+◌, ◌++◌, ℕ, List, [], Err, IfOk, length, slice_index};
ghost use Rattle.std.specs.Bool.{OnTrue, OnFalse};
ghost use Rattle.mg_dev.specs.Causes.{HasLack, HasPutCause};
ghost use Rattle.mg_dev.specs.Streams.{AfterPut};
ghost use Rattle.mg_model.specs.Blocks.{short_piece};
ghost use Rattle.mg_dev.specs.Moments.{sink_at};
ghost use Rattle.mg_text.specs.Decoding.{AddsOf, ForShown, IsPutCaused, Keeps, PutsPiece, bytes_to_come};

use mg_dev::{Bad, Part, PartErr, PutErr, ShowErr, Sink, refused_put};
use std::alloc::{AllocError, Global};
use std::marker::Model;

const SIZE: usize = 16384;

// The most bytes of a piece in an entry.
const MOST: usize = 15;

/// Holds bytes until there are enough of them for one put of a sink, 16,384.
///
/// It takes no more bytes than it was started with, so that a damaged text, which can tell of any
/// number of them, prints no more. Whoever gathers documents in it flushes it at last; what it holds
/// when it is dropped is lost.
#[derive(Drop)]
pub struct ShowBuffer {
    bytes: Vec<u8>,
    used: usize,
    // How far `bytes` may be filled: it is compared at each piece, so it is kept.
    room: usize,
    // How many bytes might come when it was emptied last.
    most: u64,
    // Where the document begins of which bytes come, and how many might come there.
    at: u64,
    there: u64,
}

impl Model for ShowBuffer {
    ghost use Rattle.std.specs.Prelude.{◌≡◌, ◌≤◌, ◌-◌, min, take, length, List, ℕ};
    ghost use Rattle.mg_text.specs.Decoding.{Gathering};

    ghost Value = { Gathering };

    ghost view = { λ b. record { held = take b.used b.bytes.items; left = b.most - b.used } };

    ghost invariant = { λ b. (length b.bytes.items ≡ 16384) × (b.used ≤ b.room)
        × (b.room ≡ min b.most 16384) };
}

impl ShowBuffer {
    /// A buffer that holds no byte, and takes at most so many. It takes room for 16,384 of them, and
    /// no memory afterwards.
    ///
    /// # Errors
    ///
    /// Want of memory.
    pub fn new(alloc: Global, most: u64) -> Result<Self, AllocError>
        ensures { IfOk result (λ b. b ≡ record { held = []; left = most }) }
    {
        Ok(ShowBuffer {
            bytes: vec![in alloc; 0; SIZE]?,
            used: 0,
            room: most.min(SIZE as u64) as usize,
            most,
            at: 0,
            there: 0,
        })
    }

    /// Forgets what it holds. From here on it takes at most so many bytes.
    pub fn start(&mut self, most: u64)
        ensures { self.new ≡ record { held = []; left = most } }
    {
        self.used = 0;
        self.room = most.min(SIZE as u64) as usize;
        self.most = most;
    }

    /// A document begins at this bit of Text: of it a refusal tells if more bytes come than it takes.
    pub(crate) fn begin(&mut self, at: u64)
        ensures { self.new ≡ self.old }
    {
        self.at = at;
        self.there = self.left();
    }

    // How many bytes it still takes.
    fn left(&self) -> u64
        ensures { result ≡ self.now.left }
    {
        self.most - self.used as u64
    }

    /// Adds the bytes of a piece of at most 255. What was held before goes to the sink where there
    /// is no room. What the sink took and what is held together grow by the piece; after a refusal
    /// the sink took a prefix of both.
    ///
    /// # Errors
    ///
    /// `Part` with `Bad` where the piece has more bytes than the buffer takes, and then nothing was
    /// done. The sink's: `Write` where it failed, `Memory` where it lacked memory.
    #[inline(never)]
    pub fn put<O: Sink>(&mut self, out: &mut O, piece: &[u8]) -> Result<(), ShowErr>
        requires short { length piece.now ≤ 255 }
        ensures { PutsPiece piece.now result self.old self.new
            (sink_at O.written O.faults O.lacks out.old)
            (sink_at O.written O.faults O.lacks out.new) }
    {
        if piece.len() <= self.room - self.used {
            self.keep(piece);
            return Ok(());
        }
        if piece.len() as u64 > self.left() {
            return Err(self.beyond(piece.len()));
        }
        match self.flush(out) {
            Ok(()) => {
                self.keep(piece);
                Ok(())
            }
            Err(refusal) => Err(refused_put(refusal)),
        }
    }

    /// Adds the piece of an entry: its length, at most 15, and then the piece. It does what `put` does
    /// for that piece. Where there is room for fifteen bytes, it copies fifteen, however short the
    /// piece is, since so many are copied with no call.
    ///
    /// # Errors
    ///
    /// Those of [`ShowBuffer::put`].
    #[inline]
    pub fn put_short<O: Sink>(&mut self, out: &mut O, entry: &[u8; 16]) -> Result<(), ShowErr>
        requires short { slice_index entry.now 0 ≤ 15 }
        ensures { PutsPiece (short_piece entry.now) result self.old self.new
            (sink_at O.written O.faults O.lacks out.old)
            (sink_at O.written O.faults O.lacks out.new) }
    {
        if MOST <= self.room - self.used {
            self.keep_short(entry);
            return Ok(());
        }
        self.put(out, &entry[1..1 + usize::from(entry[0])])
    }

    /// Holds the pieces of two entries, one behind the other. False, and nothing changed, where there
    /// is no room for thirty bytes.
    #[inline(always)]
    pub(crate) fn hold_pair(&mut self, first: &[u8; 16], second: &[u8; 16]) -> bool
        requires first { slice_index first.now 0 ≤ 15 }
        requires second { slice_index second.now 0 ≤ 15 }
        ensures held { OnTrue result (Keeps self.old self.new
            (short_piece first.now ++ short_piece second.now)) }
        ensures kept { OnFalse result (self.new ≡ self.old) }
        ensures most { bytes_to_come self.new ≤ bytes_to_come self.old }
    {
        if 2 * MOST > self.room - self.used {
            return false;
        }
        self.keep_short(first);
        self.keep_short(second);
        true
    }

    /// Holds the piece of an entry, where there is room for fifteen bytes.
    #[inline(always)]
    fn keep_short(&mut self, entry: &[u8; 16])
        requires room { length self.old.held + 15 ≤ 16384 }
        requires left { 15 ≤ self.old.left }
        requires short { slice_index entry.now 0 ≤ 15 }
        ensures { Keeps self.old self.new (short_piece entry.now) }
    {
        let used = self.used;
        // The bytes are taken first and written then, so that no test is made of whether they overlap.
        let mut piece = [0; MOST];
        piece.copy_from_slice(&entry[1..]);
        self.bytes[used..used + MOST].copy_from_slice(&piece);
        self.used = used + usize::from(entry[0]);
    }

    /// Holds bytes for which there is room.
    fn keep(&mut self, piece: &[u8])
        requires room { length self.old.held + length piece.now ≤ 16384 }
        requires left { length piece.now ≤ self.old.left }
        ensures { Keeps self.old self.new piece.now }
    {
        let end = self.used + piece.len();
        self.bytes[self.used..end].copy_from_slice(piece);
        self.used = end;
    }

    // A piece of so many bytes goes beyond what it takes: it tells where the document begins, how many bytes might come
    // there, and how many do, as far as the piece.
    #[inline(never)]
    fn beyond(&self, size: usize) -> ShowErr
        requires more { self.now.left < size }
        requires short { size ≤ 255 }
        ensures { (f g l m : ℕ) → IsPutCaused (Err result) self.now.left size f g l m }
    {
        let left = self.left();
        // Of a document that was begun no more came than might.
        let came = self.there.saturating_sub(left).min(1 << 62);
        ShowErr::Part(PartErr::Bad(Bad {
            part: Part::Text,
            at: self.at,
            low: 0,
            high: came + left,
            found: came + size as u64,
        }))
    }

    /// Puts what is held to the sink, and then holds nothing. After a refusal the sink took a prefix
    /// of it.
    ///
    /// # Errors
    ///
    /// The sink's: `Failed` where it failed, `Memory` where it lacked memory.
    pub fn flush<O: Sink>(&mut self, out: &mut O) -> Result<(), PutErr>
        ensures content { AfterPut (O.written out.old) (O.written out.new) self.old.held result }
        ensures shown { ForShown (O.written out.old) self.old
            (λ before bytes _. AfterPut before (O.written out.new) bytes result) }
        ensures empty { self.new ≡ record { held = []; left = self.old.left } }
        ensures added { AddsOf O.written O.faults O.lacks out.old out.new (bytes_to_come self.old)
            (bytes_to_come self.new) }
        ensures cause { HasPutCause (O.faults out.old) (O.faults out.new) result }
        ensures lack { HasLack (O.lacks out.old) (O.lacks out.new) result }
    {
        let (used, left) = (self.used, self.left());
        let sent = out.put(&self.bytes[..used]);
        self.start(left);
        sent
    }
}

//! Lines of an input that is read a buffer at a time.
ghost use Rattle.std.specs.Prelude.{◌≡◌, ◌+◌, ◌-◌, ◌<◌, ◌≤◌, [], IsErrOf, length};
ghost use Rattle.mg_dev.specs.Causes.{Rose};
ghost use Rattle.mg_dev.specs.Streams.{prepended};
ghost use Rattle.mg_defs.specs.Lines.{without_return};
ghost use Rattle.mg_reply.specs.Reading.{AfterLine, IsEvent, buffer_bytes};
ghost use Rattle.mg_reply.specs.declared.reader.LineErr.TheVariants.{Read};

use crate::input_buffer::InputBuffer;
use crate::line::{LineBuf, cut_return};
use mg_dev::Source;
use std::marker::Model;

/// What came next in an input.
#[derive(Clone, Copy, Debug, PartialEq, Eq)]
pub enum LineEvent {
    /// A line of at most 1,024 bytes.
    Line,
    /// A longer line, which was passed over.
    TooLong,
    /// The end of the input.
    End,
}

/// Why there is no next line.
#[derive(Clone, Copy, Debug, PartialEq, Eq)]
pub enum LineErr {
    /// The input failed.
    Read,
    /// The line does not end within the first 2^32 bytes of the input.
    TooMuch,
}

/// How many bytes of an input are read.
const LIMIT: u64 = 1 << 32;

/// The most bytes of a line, its end not among them.
const MOST: u64 = 1024;

/// Reads the lines of an input, in fixed memory.
///
/// A line ends at byte 0x0A, or at the end of the input where it is not empty. The reader fills its
/// buffer by one read of the input and keeps what is past a line's end for the next
/// call, so the input itself may be ahead of the lines. Contracts see it as the bytes that it holds,
/// the first 1,024 bytes of the line, and the number of bytes of all lines so far. After a refusal
/// it is not used again.
#[derive(Drop)]
pub struct LineReader {
    held: InputBuffer,
    line: LineBuf,
    used: u64,
}

impl Model for LineReader {
    ghost use Rattle.std.specs.Prelude.{◌≤◌};
    ghost use Rattle.mg_defs.specs.Limits.{input_limit};
    ghost use Rattle.mg_reply.specs.Reading.{Reading};

    ghost Value = { Reading };

    ghost view = { λ r. record { held = r.held; line = r.line; used = r.used } };

    ghost invariant = { λ r. r.used ≤ input_limit };
}

fn event_of(size: u64) -> LineEvent
    ensures { IsEvent size result }
{
    if size <= MOST {
        LineEvent::Line
    } else {
        LineEvent::TooLong
    }
}

impl LineReader {
    /// Holds nothing yet.
    pub fn new() -> LineReader
        ensures { result ≡ record { held = []; line = []; used = 0 } }
    {
        LineReader {
            held: InputBuffer::new(),
            line: LineBuf::new(),
            used: 0,
        }
    }

    /// Goes to the next line of the input.
    ///
    /// Every call names the same input.
    pub fn next<I: Source>(&mut self, input: &mut I) -> Result<LineEvent, LineErr>
        ensures line { AfterLine self.old self.new (prepended self.old.held (I.left input.old))
            (prepended self.new.held (I.left input.new)) result }
        ensures few { length self.new.held ≤ buffer_bytes }
        ensures broken { IsErrOf result LineErr.Read → self.new.held ≡ [] }
        ensures later { I.faults input.old ≤ I.faults input.new }
        ensures read { IsErrOf result LineErr.Read →
            Rose (I.faults input.old) (I.faults input.new) }
    {
        let room = LIMIT - self.used;
        let mut size = 0u64;
        self.line.clear();
        'bytes: loop {
            let byte = match self.held.byte(input) {
                Ok(Some(byte)) => byte,
                Ok(None) => {
                    if size == 0 {
                        return Ok(LineEvent::End);
                    }
                    self.used += size;
                    return Ok(event_of(size));
                }
                Err(_) => return Err(LineErr::Read),
            };
            if size == room {
                return Err(LineErr::TooMuch);
            }
            if byte == b'\n' {
                self.used += size + 1;
                return Ok(event_of(size));
            }
            self.line.keep(byte);
            size += 1;
        }
    }

    /// The line that was read last, without one last byte 0x0D.
    pub fn line(&self) -> &[u8]
        ensures { result.now ≡ without_return self.now.line }
    {
        cut_return(self.line.bytes())
    }
}

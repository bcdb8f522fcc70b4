//! Reads and writes of the system, tried again where they were interrupted.
ghost use Rattle.std.specs.Io.{ReadsAtMost};

use std::io;
use std::io::{ErrorKind, Read, Write};

// One read, tried again where it was interrupted.
pub(crate) fn read_some<R: Read>(reader: &mut R, buf: &mut [u8]) -> io::Result<usize>
    ensures bound { ReadsAtMost result buf.new }
{
    for _ in 0..u64::MAX {
        match reader.read(buf) {
            Err(e) if e.kind() == ErrorKind::Interrupted => {}
            answer => return answer,
        }
    }
    Err(io::Error::from(ErrorKind::Interrupted))
}

// Fills the buffer as far as the reader goes: a short read is followed by another.
pub(crate) fn read_full<R: Read>(reader: &mut R, buf: &mut [u8]) -> io::Result<usize>
    ensures bound { ReadsAtMost result buf.new }
{
    let mut count = 0;
    for _ in 0..u64::MAX {
        if count == buf.len() {
            break;
        }
        let more = read_some(reader, &mut buf[count..])?;
        if more == 0 {
            break;
        }
        count += more;
    }
    Ok(count)
}

// Writes a whole piece. A write that takes nothing is a failure.
pub(crate) fn write_whole<W: Write>(writer: &mut W, piece: &[u8]) -> io::Result<()> {
    let mut rest = piece;
    for _ in 0..u64::MAX {
        if rest.is_empty() {
            return Ok(());
        }
        match writer.write(rest) {
            Ok(0) => return Err(io::Error::from(ErrorKind::WriteZero)),
            Ok(count) => rest = &rest[count..],
            Err(e) if e.kind() == ErrorKind::Interrupted => {}
            Err(e) => return Err(e),
        }
    }
    Err(io::Error::from(ErrorKind::WriteZero))
}

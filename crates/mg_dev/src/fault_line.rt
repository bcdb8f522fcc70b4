//! The line of a fault.
ghost use Rattle.std.specs.Prelude.{◌≡◌, IfSome, None};
ghost use Rattle.std.specs.List.{flat_map};
ghost use Rattle.mg_dev.specs.Streams.{AfterPut};
ghost use Rattle.mg_dev.specs.Causes.{HasPutCause, HasLack};
ghost use Rattle.mg_dev.specs.FaultLines.{piece_text, fault_line, stream_name, HasPieces};

use crate::{Bad, Fault, Part, PutErr, Sink, What};
use itoa::Buffer;
use mg_defs::{DOCUMENTS, INPUT_BYTES, PIECES, ROTATIONS, Stream};

/// A piece of a line.
#[derive(Clone, Copy)]
pub enum Piece<'a> {
    Text(&'a str),
    Number(u64),
}

fn put_piece<O: Sink>(out: &mut O, piece: Piece<'_>) -> Result<(), PutErr>
    ensures content { AfterPut (O.written out.old) (O.written out.new) (piece_text piece.entry)
        result }
    ensures cause { HasPutCause (O.faults out.old) (O.faults out.new) result }
    ensures lack { HasLack (O.lacks out.old) (O.lacks out.new) result }
{
    match piece {
        Piece::Text(text) => out.put(text.as_bytes()),
        Piece::Number(number) => {
            let mut buffer = Buffer::new();
            out.put(buffer.format(number).as_bytes())
        }
    }
}

/// Puts the pieces of a line, one after the other, so that none takes memory.
#[tactic(auto, using(crate::specs::StreamLaws::stream_laws))]
pub fn put_pieces<O: Sink>(out: &mut O, pieces: &[Piece<'_>]) -> Result<(), PutErr>
    ensures content { AfterPut (O.written out.old) (O.written out.new)
        (flat_map piece_text pieces.now) result }
    ensures cause { HasPutCause (O.faults out.old) (O.faults out.new) result }
    ensures lack { HasLack (O.lacks out.old) (O.lacks out.new) result }
{
    match pieces {
        [] => Ok(()),
        [first, rest @ ..] => {
            put_piece(out, *first)?;
            put_pieces(out, rest)
        }
    }
}

fn stream_name(stream: Stream) -> &'static str
    ensures { result.now ≡ stream_name stream }
{
    match stream {
        Stream::Words => "words",
        Stream::Others => "non-words",
    }
}

#[tactic(auto, unfolding(crate::specs::FaultLines::fault_line))]
fn put_damaged<O: Sink>(out: &mut O, bad: Bad) -> Result<(), PutErr>
    ensures content { AfterPut (O.written out.old) (O.written out.new)
        (fault_line (Fault.Damaged bad)) result }
    ensures cause { HasPutCause (O.faults out.old) (O.faults out.new) result }
    ensures lack { HasLack (O.lacks out.old) (O.lacks out.new) result }
{
    let pieces = [
        Piece::Text("mg: damaged: part "),
        Piece::Text(bad.part.name()),
        Piece::Text(" at "),
        Piece::Number(bad.at),
        Piece::Text(": found "),
        Piece::Number(bad.found),
        Piece::Text(", wanted "),
        Piece::Number(bad.low),
        Piece::Text(" to "),
        Piece::Number(bad.high),
        Piece::Text("\n"),
    ];
    put_pieces(out, &pieces)
}

#[tactic(auto, unfolding(crate::specs::FaultLines::fault_line))]
fn put_changed<O: Sink>(out: &mut O, what: What, first: u64, second: u64) -> Result<(), PutErr>
    ensures content { AfterPut (O.written out.old) (O.written out.new)
        (fault_line (Fault.Changed what first second)) result }
    ensures cause { HasPutCause (O.faults out.old) (O.faults out.new) result }
    ensures lack { HasLack (O.lacks out.old) (O.lacks out.new) result }
{
    let pieces = [
        Piece::Text("mg: the collection changed while it was read: "),
        Piece::Text(what.name()),
        Piece::Text(" was "),
        Piece::Number(first),
        Piece::Text(", then "),
        Piece::Number(second),
        Piece::Text("\n"),
    ];
    put_pieces(out, &pieces)
}

#[tactic(auto, unfolding(crate::specs::FaultLines::fault_line))]
fn put_too_large<O: Sink>(out: &mut O, size: u64, most: u64) -> Result<(), PutErr>
    ensures content { AfterPut (O.written out.old) (O.written out.new)
        (fault_line (Fault.TooLarge size most)) result }
    ensures cause { HasPutCause (O.faults out.old) (O.faults out.new) result }
    ensures lack { HasLack (O.lacks out.old) (O.lacks out.new) result }
{
    let pieces = [
        Piece::Text("mg: the collection has "),
        Piece::Number(size),
        Piece::Text(" bytes, more than "),
        Piece::Number(most),
        Piece::Text("\n"),
    ];
    put_pieces(out, &pieces)
}

#[tactic(auto, unfolding(crate::specs::FaultLines::fault_line))]
fn put_too_many_documents<O: Sink>(out: &mut O) -> Result<(), PutErr>
    ensures content { AfterPut (O.written out.old) (O.written out.new)
        (fault_line Fault.TooManyDocuments) result }
    ensures cause { HasPutCause (O.faults out.old) (O.faults out.new) result }
    ensures lack { HasLack (O.lacks out.old) (O.lacks out.new) result }
{
    let pieces = [
        Piece::Text("mg: more than "),
        Piece::Number(DOCUMENTS as u64),
        Piece::Text(" documents\n"),
    ];
    put_pieces(out, &pieces)
}

#[tactic(auto, unfolding(crate::specs::FaultLines::fault_line))]
fn put_too_many_pieces<O: Sink>(out: &mut O, stream: Stream) -> Result<(), PutErr>
    ensures content { AfterPut (O.written out.old) (O.written out.new)
        (fault_line (Fault.TooManyPieces stream)) result }
    ensures cause { HasPutCause (O.faults out.old) (O.faults out.new) result }
    ensures lack { HasLack (O.lacks out.old) (O.lacks out.new) result }
{
    let pieces = [
        Piece::Text("mg: more than "),
        Piece::Number(PIECES as u64),
        Piece::Text(" distinct "),
        Piece::Text(stream_name(stream)),
        Piece::Text("\n"),
    ];
    put_pieces(out, &pieces)
}

#[tactic(auto, unfolding(crate::specs::FaultLines::fault_line))]
fn put_name_clash<O: Sink>(out: &mut O, part: Part) -> Result<(), PutErr>
    ensures content { AfterPut (O.written out.old) (O.written out.new)
        (fault_line (Fault.NameClash part)) result }
    ensures cause { HasPutCause (O.faults out.old) (O.faults out.new) result }
    ensures lack { HasLack (O.lacks out.old) (O.lacks out.new) result }
{
    let pieces = [
        Piece::Text("mg: the collection has the name of part "),
        Piece::Text(part.name()),
        Piece::Text("\n"),
    ];
    put_pieces(out, &pieces)
}

#[tactic(auto, unfolding(crate::specs::FaultLines::fault_line))]
fn put_input_too_long<O: Sink>(out: &mut O) -> Result<(), PutErr>
    ensures content { AfterPut (O.written out.old) (O.written out.new)
        (fault_line Fault.InputTooLong) result }
    ensures cause { HasPutCause (O.faults out.old) (O.faults out.new) result }
    ensures lack { HasLack (O.lacks out.old) (O.lacks out.new) result }
{
    let pieces = [
        Piece::Text("mg: the input is longer than "),
        Piece::Number(INPUT_BYTES),
        Piece::Text(" bytes\n"),
    ];
    put_pieces(out, &pieces)
}

#[tactic(auto, unfolding(crate::specs::FaultLines::fault_line))]
fn put_too_many_rotations<O: Sink>(out: &mut O, count: u64) -> Result<(), PutErr>
    ensures content { AfterPut (O.written out.old) (O.written out.new)
        (fault_line (Fault.TooManyRotations count)) result }
    ensures cause { HasPutCause (O.faults out.old) (O.faults out.new) result }
    ensures lack { HasLack (O.lacks out.old) (O.lacks out.new) result }
{
    let pieces = [
        Piece::Text("mg: the terms have "),
        Piece::Number(count),
        Piece::Text(" rotations, more than "),
        Piece::Number(ROTATIONS),
        Piece::Text("\n"),
    ];
    put_pieces(out, &pieces)
}

/// The line of a fault in which no limit, number or name stands.
#[tactic(auto, unfolding(crate::specs::FaultLines::fault_line))]
fn fixed_line(fault: &Fault) -> Option<&'static str>
    ensures is { IfSome result (λ line. line.now ≡ fault_line fault.now) }
    ensures none { result ≡ None → HasPieces fault.now }
{
    match *fault {
        Fault::Usage => Some("mg: the words are not understood\n"),
        Fault::StoreFault => Some("mg: the store failed\n"),
        Fault::ReadFault => Some("mg: the input could not be read\n"),
        Fault::WriteFault => Some("mg: the output could not be written\n"),
        Fault::NotBuilt => Some("mg: nothing is built under this name\n"),
        Fault::NoCollection => Some("mg: there is no such collection\n"),
        Fault::Memory => Some("mg: out of memory\n"),
        Fault::SameName => Some("mg: both names are the same\n"),
        _ => None,
    }
}

/// Writes the line of a fault by its pieces.
fn put_by_pieces<O: Sink>(out: &mut O, fault: &Fault) -> Result<(), PutErr>
    requires { HasPieces fault.now }
    ensures content { AfterPut (O.written out.old) (O.written out.new)
        (fault_line fault.now) result }
    ensures cause { HasPutCause (O.faults out.old) (O.faults out.new) result }
    ensures lack { HasLack (O.lacks out.old) (O.lacks out.new) result }
{
    match *fault {
        Fault::Damaged(bad) => put_damaged(out, bad),
        Fault::TooLarge { size, most } => put_too_large(out, size, most),
        Fault::TooManyDocuments => put_too_many_documents(out),
        Fault::TooManyPieces { stream } => put_too_many_pieces(out, stream),
        Fault::Changed {
            what,
            first,
            second,
        } => put_changed(out, what, first, second),
        Fault::NameClash { part } => put_name_clash(out, part),
        Fault::InputTooLong => put_input_too_long(out),
        Fault::TooManyRotations { count } => put_too_many_rotations(out, count),
        _ => unreachable!(),
    }
}

/// Writes the fault's line, with its line feed.
pub fn put_fault_line<O: Sink>(out: &mut O, fault: &Fault) -> Result<(), PutErr>
    ensures content { AfterPut (O.written out.old) (O.written out.new) (fault_line fault.now)
        result }
    ensures cause { HasPutCause (O.faults out.old) (O.faults out.new) result }
    ensures lack { HasLack (O.lacks out.old) (O.lacks out.new) result }
{
    match fixed_line(fault) {
        Some(line) => out.put(line.as_bytes()),
        None => put_by_pieces(out, fault),
    }
}

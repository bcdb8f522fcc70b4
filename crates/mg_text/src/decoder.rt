//! The bytes of a document, decoded piece by piece.
ghost use Rattle.std.specs.Prelude.{◌≡◌, [], IfNone, IfSome};
ghost use Rattle.mg_canon.specs.Pairs.{standing};
ghost use Rattle.mg_defs.specs.Marks.{code_of};
ghost use Rattle.mg_text.specs.Decoding.{Decodes, DocumentCame, DocumentSent, PairCame, PairsCame, PieceCame, ShowsPiece, ShowsPairs, ShowsWhole, ShowsPair, ShowsDoc};
ghost use Rattle.mg_text.specs.HeldPairs.{HoldsPair};

use crate::show_buffer::ShowBuffer;
use crate::symbols::{get_count, get_symbol, symbols_at};
use mg_bits::{BitReader, Feed};
use mg_dev::{ShowErr, Sink, refused_put};
use mg_model::{Stream, TextModel};

/// Shows the piece of the stream whose codeword stands at the place.
#[inline]
fn show_piece<F: Feed, O: Sink>(
    model: &TextModel,
    stream: Stream,
    r: &mut BitReader<F>,
    dev: &mut F::Dev,
    buffer: &mut ShowBuffer,
    out: &mut O,
) -> Result<(), ShowErr>
    requires fits { F.fits r.old.feed (F.device dev.old).files }
    ensures { Decodes (ShowsPiece (code_of stream model.now)) (PieceCame (code_of stream model.now)) result
        F.feeding F.fits F.device O.written O.faults O.lacks r.old r.new dev.old dev.new
        buffer.old buffer.new out.old out.new }
{
    match get_symbol(model.canon(stream), r, dev) {
        Ok(symbol) => match model.short_piece(stream, symbol) {
            Some(entry) => buffer.put_short(out, entry),
            None => buffer.put(out, model.piece(stream, symbol)),
        },
        Err(refusal) => Err(ShowErr::Part(refusal)),
    }
}

/// Shows the word and the other of a pair. It stands apart so that `show_pairs` is short where
/// `hold_at` holds them.
#[inline(never)]
fn show_pair<F: Feed, O: Sink>(
    model: &TextModel,
    r: &mut BitReader<F>,
    dev: &mut F::Dev,
    buffer: &mut ShowBuffer,
    out: &mut O,
) -> Result<(), ShowErr>
    requires fits { F.fits r.old.feed (F.device dev.old).files }
    ensures { Decodes (ShowsPair model.now) (PairCame model.now) result
        F.feeding F.fits F.device O.written O.faults O.lacks r.old r.new dev.old dev.new
        buffer.old buffer.new out.old out.new }
{
    match show_piece(model, Stream::Words, r, dev, buffer, out) {
        Ok(()) => {}
        Err(refusal) => return Err(refusal),
    }
    show_piece(model, Stream::Others, r, dev, buffer, out)
}

/// Holds the word and the other of the pair at this place, where the reader holds the bits of both
/// codewords, the model has entries of both pieces and the buffer has room for them, which is so of most
/// pairs. The place behind it stands for what `show_pair` does at `Ok`; neither the device nor the sink
/// is asked. At `None` nothing changed.
#[inline(always)]
fn hold_at<F: Feed>(
    model: &TextModel,
    r: &BitReader<F>,
    place: u64,
    buffer: &mut ShowBuffer,
) -> Option<u64>
    ensures held { IfSome result (λ behind. HoldsPair F.feeding F.fits
        (standing r.now.feed place) (standing r.now.feed behind) buffer.old buffer.new model.now) }
    ensures kept { IfNone result (buffer.new ≡ buffer.old) }
{
    let words = model.canon(Stream::Words);
    let others = model.canon(Stream::Others);
    let (first, second, behind) = match symbols_at(words, others, r, place) {
        Some(found) => found,
        None => return None,
    };
    let word = match model.short_piece(Stream::Words, first) {
        Some(entry) => entry,
        None => return None,
    };
    let other = match model.short_piece(Stream::Others, second) {
        Some(entry) => entry,
        None => return None,
    };
    if buffer.hold_pair(word, other) {
        Some(behind)
    } else {
        None
    }
}

/// Shows so many pairs. The place of each is kept here, and the reader is sought where it is asked.
fn show_pairs<F: Feed, O: Sink>(
    model: &TextModel,
    r: &mut BitReader<F>,
    dev: &mut F::Dev,
    buffer: &mut ShowBuffer,
    out: &mut O,
    count: u32,
) -> Result<(), ShowErr>
    requires fits { F.fits r.old.feed (F.device dev.old).files }
    ensures { Decodes (ShowsPairs model.now count) (PairsCame model.now count) result
        F.feeding F.fits F.device O.written O.faults O.lacks r.old r.new dev.old dev.new
        buffer.old buffer.new out.old out.new }
{
    let mut place = r.place();
    for _i in 0..count {
        if let Some(behind) = hold_at(model, r, place, buffer) {
            place = behind;
            continue;
        }
        r.seek(place);
        match show_pair(model, r, dev, buffer, out) {
            Ok(()) => place = r.place(),
            Err(refusal) => return Err(refusal),
        }
    }
    r.seek(place);
    Ok(())
}

/// Gathers the document whose bits stand at the place, behind what the buffer holds.
pub fn gather_doc<F: Feed, O: Sink>(
    model: &TextModel,
    r: &mut BitReader<F>,
    dev: &mut F::Dev,
    buffer: &mut ShowBuffer,
    out: &mut O,
) -> Result<(), ShowErr>
    requires fits { F.fits r.old.feed (F.device dev.old).files }
    ensures { Decodes (ShowsDoc model.now) (DocumentCame model.now) result
        F.feeding F.fits F.device O.written O.faults O.lacks r.old r.new dev.old dev.new
        buffer.old buffer.new out.old out.new }
{
    let count = match get_count(r, dev) {
        Ok(count) => count,
        Err(refusal) => return Err(ShowErr::Part(refusal)),
    };
    show_pairs(model, r, dev, buffer, out, count)
}

/// Shows the document whose bits stand at the place, and no byte behind it. The buffer holds
/// nothing, and takes as many bytes as the document may have.
pub fn show_doc<F: Feed, O: Sink>(
    model: &TextModel,
    r: &mut BitReader<F>,
    dev: &mut F::Dev,
    buffer: &mut ShowBuffer,
    out: &mut O,
) -> Result<(), ShowErr>
    requires fits { F.fits r.old.feed (F.device dev.old).files }
    requires empty { buffer.old.held ≡ [] }
    ensures { Decodes (ShowsWhole model.now) (DocumentSent model.now) result
        F.feeding F.fits F.device O.written O.faults O.lacks r.old r.new dev.old dev.new
        buffer.old buffer.new out.old out.new }
{
    match gather_doc(model, r, dev, buffer, out) {
        Ok(()) => {}
        Err(refusal) => return Err(refusal),
    }
    match buffer.flush(out) {
        Ok(()) => Ok(()),
        Err(refusal) => Err(refused_put(refusal)),
    }
}

//! The pieces of a document, counted by their symbols, pair by pair.
//!
//! Nothing is told of a document that is not counted to its end: who counts so has another way to be told why. Only a
//! failure of the store is told at once.
ghost use Rattle.std.specs.Prelude.{◌≡◌, ◌≢◌};
ghost use Rattle.std.specs.Bool.{OnFalse, OnTrue};
ghost use Rattle.mg_dev.specs.declared.part_err.PartErr.TheVariants.{Device};
ghost use Rattle.mg_text.specs.PieceCounts.{CountsDoc, CountsIf, CountsPair, CountsPairs, CountsPiece, CountsSome};

use crate::symbols::{get_count, get_symbol, held_symbols};
use crate::text_tally::TextTally;
use mg_bits::{BitReader, Feed};
use mg_dev::{Failed, PartErr};
use mg_model::{Stream, TextModel};

/// Whether the store failed.
pub fn is_failure(refusal: &PartErr) -> bool
    ensures failed { OnTrue result (refusal.now ≡ Device) }
    ensures other { OnFalse result (refusal.now ≢ Device) }
{
    match refusal {
        PartErr::Device => true,
        _ => false,
    }
}

/// Counts the piece of the stream whose codeword stands at the place.
#[inline]
fn count_piece<F: Feed>(
    model: &TextModel,
    stream: Stream,
    r: &mut BitReader<F>,
    dev: &mut F::Dev,
    counts: &mut TextTally,
) -> Result<bool, Failed>
    requires fits { F.fits r.old.feed (F.device dev.old).files }
    ensures { CountsIf result (CountsPiece model.now stream) F.feeding F.fits F.device
        r.old r.new dev.old dev.new counts.old counts.new }
{
    let symbol = match get_symbol(model.canon(stream), r, dev) {
        Ok(symbol) => symbol,
        Err(refusal) => {
            let failed = is_failure(&refusal);
            if failed {
                return Err(Failed);
            }
            return Ok(false);
        }
    };
    Ok(counts.count(stream, symbol))
}

/// Counts the word and the other of a pair. It stands apart so that `count_pairs` is short where
/// `count_next` counts them.
#[inline(never)]
fn count_pair<F: Feed>(
    model: &TextModel,
    r: &mut BitReader<F>,
    dev: &mut F::Dev,
    counts: &mut TextTally,
) -> Result<bool, Failed>
    requires fits { F.fits r.old.feed (F.device dev.old).files }
    ensures { CountsIf result (CountsPair model.now) F.feeding F.fits F.device
        r.old r.new dev.old dev.new counts.old counts.new }
{
    let is_word = match count_piece(model, Stream::Words, r, dev, counts) {
        Ok(done) => done,
        Err(failed) => return Err(failed),
    };
    if !is_word {
        return Ok(false);
    }
    count_piece(model, Stream::Others, r, dev, counts)
}

/// Counts the word and the other of a pair, as symbols where the reader holds the bits of both
/// codewords, which is so of most.
#[inline(always)]
fn count_next<F: Feed>(
    model: &TextModel,
    r: &mut BitReader<F>,
    dev: &mut F::Dev,
    counts: &mut TextTally,
) -> Result<bool, Failed>
    requires fits { F.fits r.old.feed (F.device dev.old).files }
    ensures { CountsIf result (CountsPair model.now) F.feeding F.fits F.device
        r.old r.new dev.old dev.new counts.old counts.new }
{
    let words = model.canon(Stream::Words);
    let others = model.canon(Stream::Others);
    let (first, second) = match held_symbols(words, others, r) {
        Some(symbols) => symbols,
        None => return count_pair(model, r, dev, counts),
    };
    if !counts.count(Stream::Words, first) {
        return Ok(false);
    }
    Ok(counts.count(Stream::Others, second))
}

/// Counts so many pairs.
fn count_pairs<F: Feed>(
    model: &TextModel,
    r: &mut BitReader<F>,
    dev: &mut F::Dev,
    counts: &mut TextTally,
    count: u32,
) -> Result<bool, Failed>
    requires fits { F.fits r.old.feed (F.device dev.old).files }
    ensures { CountsIf result (CountsPairs model.now count) F.feeding F.fits F.device
        r.old r.new dev.old dev.new counts.old counts.new }
{
    for _i in 0..count {
        let done = match count_next(model, r, dev, counts) {
            Ok(done) => done,
            Err(failed) => return Err(failed),
        };
        if !done {
            return Ok(false);
        }
    }
    Ok(true)
}

/// Counts the pairs of the document whose bits stand at the place, and answers how many there are.
pub fn count_doc<F: Feed>(
    model: &TextModel,
    r: &mut BitReader<F>,
    dev: &mut F::Dev,
    counts: &mut TextTally,
) -> Result<Option<u32>, Failed>
    requires fits { F.fits r.old.feed (F.device dev.old).files }
    ensures { CountsSome result (CountsDoc model.now) F.feeding F.fits F.device
        r.old r.new dev.old dev.new counts.old counts.new }
{
    counts.begin();
    let count = match get_count(r, dev) {
        Ok(count) => count,
        Err(refusal) => {
            let failed = is_failure(&refusal);
            if failed {
                return Err(Failed);
            }
            return Ok(None);
        }
    };
    let done = match count_pairs(model, r, dev, counts, count) {
        Ok(done) => done,
        Err(failed) => return Err(failed),
    };
    if !done {
        return Ok(None);
    }
    Ok(Some(count))
}

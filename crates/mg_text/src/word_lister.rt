//! The words of a document, listed by their symbols, pair by pair. No byte of a piece is read but its length.
ghost use Rattle.std.specs.Prelude.{◌≡◌, IfNone, IfSome};
ghost use Rattle.mg_canon.specs.Pairs.{standing};
ghost use Rattle.mg_text.specs.Listing.{DocumentListed, ListsBy, ListsDoc, ListsNext, ListsPair, ListsPairs, ListsWord, OtherPassed, PairListed, PairsListed, PassesOther, WordCame};

use crate::symbols::{get_count, get_symbol, symbols_at};
use crate::word_list::WordList;
use mg_bits::{BitReader, Feed};
use mg_dev::PartErr;
use mg_model::{Stream, TextModel};

/// Lists the word whose codeword stands at the place.
fn list_word<F: Feed>(
    model: &TextModel,
    r: &mut BitReader<F>,
    dev: &mut F::Dev,
    list: &mut WordList,
) -> Result<(), PartErr>
    requires fits { F.fits r.old.feed (F.device dev.old).files }
    ensures { ListsBy model.now (ListsWord model.now) (WordCame model.now) result
        F.feeding F.fits F.device r.old r.new dev.old dev.new list.old list.new }
{
    match get_symbol(model.canon(Stream::Words), r, dev) {
        Ok(symbol) => list.add(symbol, model.piece(Stream::Words, symbol).len()),
        Err(refusal) => Err(refusal),
    }
}

/// Counts the bytes of the other whose codeword stands at the place.
fn pass_other<F: Feed>(
    model: &TextModel,
    r: &mut BitReader<F>,
    dev: &mut F::Dev,
    list: &mut WordList,
) -> Result<(), PartErr>
    requires fits { F.fits r.old.feed (F.device dev.old).files }
    ensures { ListsBy model.now (PassesOther model.now) (OtherPassed model.now) result
        F.feeding F.fits F.device r.old r.new dev.old dev.new list.old list.new }
{
    match get_symbol(model.canon(Stream::Others), r, dev) {
        Ok(symbol) => list.pass(model.piece(Stream::Others, symbol).len()),
        Err(refusal) => Err(refusal),
    }
}

/// Lists the word of a pair. It stands apart so that `list_pairs` is short where `hold_at` lists them.
#[inline(never)]
fn list_pair<F: Feed>(
    model: &TextModel,
    r: &mut BitReader<F>,
    dev: &mut F::Dev,
    list: &mut WordList,
) -> Result<(), PartErr>
    requires fits { F.fits r.old.feed (F.device dev.old).files }
    ensures { ListsBy model.now (ListsPair model.now) (PairListed model.now) result
        F.feeding F.fits F.device r.old r.new dev.old dev.new list.old list.new }
{
    match list_word(model, r, dev, list) {
        Ok(()) => {}
        Err(refusal) => return Err(refusal),
    }
    pass_other(model, r, dev, list)
}

/// Lists the word of the pair at this place, where the reader holds the bits of both codewords, the model
/// has entries of both pieces and no memory has to be taken, which is so of most pairs. The place behind
/// it stands for what `list_pair` does at `Ok`; no device is asked. At `None` nothing changed.
#[inline(always)]
fn hold_at<F: Feed>(
    model: &TextModel,
    r: &BitReader<F>,
    place: u64,
    list: &mut WordList,
) -> Option<u64>
    ensures held { IfSome result (λ behind. ListsNext F.feeding F.fits (standing r.now.feed place)
        (standing r.now.feed behind) list.old list.new model.now) }
    ensures kept { IfNone result (list.new ≡ list.old) }
{
    let words = model.canon(Stream::Words);
    let others = model.canon(Stream::Others);
    let (first, second, behind) = match symbols_at(words, others, r, place) {
        Some(found) => found,
        None => return None,
    };
    let word = match model.short_piece(Stream::Words, first) {
        Some(entry) => entry[0],
        None => return None,
    };
    let other = match model.short_piece(Stream::Others, second) {
        Some(entry) => entry[0],
        None => return None,
    };
    if list.hold(first, usize::from(word), usize::from(other)) {
        Some(behind)
    } else {
        None
    }
}

/// Lists the words of so many pairs. The place of each is kept here, and the reader is sought where it is asked.
fn list_pairs<F: Feed>(
    model: &TextModel,
    r: &mut BitReader<F>,
    dev: &mut F::Dev,
    list: &mut WordList,
    count: u32,
) -> Result<(), PartErr>
    requires fits { F.fits r.old.feed (F.device dev.old).files }
    ensures { ListsBy model.now (ListsPairs model.now count) (PairsListed model.now count) result
        F.feeding F.fits F.device r.old r.new dev.old dev.new list.old list.new }
{
    let mut place = r.place();
    for _i in 0..count {
        if let Some(behind) = hold_at(model, r, place, list) {
            place = behind;
            continue;
        }
        r.seek(place);
        match list_pair(model, r, dev, list) {
            Ok(()) => place = r.place(),
            Err(refusal) => return Err(refusal),
        }
    }
    r.seek(place);
    Ok(())
}

/// Lists the words of the document whose bits stand at the place.
pub fn list_doc<F: Feed>(
    model: &TextModel,
    r: &mut BitReader<F>,
    dev: &mut F::Dev,
    list: &mut WordList,
) -> Result<(), PartErr>
    requires fits { F.fits r.old.feed (F.device dev.old).files }
    ensures { ListsBy model.now (ListsDoc model.now) (DocumentListed model.now) result
        F.feeding F.fits F.device r.old r.new dev.old dev.new list.old list.new }
{
    let count = match get_count(r, dev) {
        Ok(count) => count,
        Err(refusal) => return Err(refusal),
    };
    list_pairs(model, r, dev, list, count)
}

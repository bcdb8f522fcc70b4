//! The pieces of a text, counted by their symbols, document by document.
ghost use Rattle.mg_dev.specs.Moments.{Between};
ghost use Rattle.mg_text.specs.CountedText.{CountsText, TalliesDocument, TalliesText};
ghost use Rattle.mg_text.specs.Reading.{CanRead, TextFits};

use crate::piece_counts::PieceCounts;
use crate::text_reader::TextReader;
use crate::text_tally::TextTally;
use mg_dev::{Failed, Store};
use std::alloc::Global;

// Tallies the pieces of a document, from 1 to the number of documents, and keeps how many pairs it has.
fn tally_document<S: Store>(
    reader: &mut TextReader<'_, S>,
    store: &mut S,
    number: u32,
    tally: &mut TextTally,
    counts: &mut PieceCounts,
) -> Result<bool, Failed>
    requires { CanRead reader.old (S.files store.old) number }
    ensures { Between S.files S.reads S.faults store.old store.new (TalliesDocument number result
        reader.old reader.new tally.old tally.new counts.old counts.new) }
{
    let found = match reader.tally(store, number, tally) {
        Ok(found) => found,
        Err(failed) => return Err(failed),
    };
    match found {
        Some(count) => Ok(counts.keep_pairs(count)),
        None => Ok(false),
    }
}

// Tallies the pieces of all documents, and keeps how many pairs each has.
fn tally_text<S: Store>(
    reader: &mut TextReader<'_, S>,
    store: &mut S,
    tally: &mut TextTally,
    counts: &mut PieceCounts,
) -> Result<bool, Failed>
    requires fits { TextFits reader.old (S.files store.old) }
    ensures { Between S.files S.reads S.faults store.old store.new (TalliesText result
        reader.old reader.new tally.old tally.new counts.old counts.new) }
{
    let all = reader.documents();
    for index in 0..all {
        let done = match tally_document(reader, store, index + 1, tally, counts) {
            Ok(done) => done,
            Err(failed) => return Err(failed),
        };
        if !done {
            return Ok(false);
        }
    }
    Ok(true)
}

/// Counts the pieces of all documents of a text by their symbols, and how many pairs each document has, behind what was
/// counted before. False where the text is damaged or its pieces come as in no document, memory is wanted or there are too
/// many pieces: then the counts are of no use, and it is not told why. The reader stays of use whatever it answers.
///
/// # Errors
///
/// `Failed` where the store failed.
pub fn count_text<S: Store>(
    alloc: Global,
    reader: &mut TextReader<'_, S>,
    store: &mut S,
    counts: &mut PieceCounts,
) -> Result<bool, Failed>
    requires fits { TextFits reader.old (S.files store.old) }
    ensures { Between S.files S.reads S.faults store.old store.new (CountsText result
        reader.old reader.new counts.old counts.new) }
{
    let mut tally = match TextTally::of(alloc, reader.model()) {
        Ok(tally) => tally,
        Err(_) => return Ok(false),
    };
    let done = match tally_text(reader, store, &mut tally, counts) {
        Ok(done) => done,
        Err(failed) => return Err(failed),
    };
    if !done {
        return Ok(false);
    }
    Ok(counts.put(reader.model(), &tally))
}

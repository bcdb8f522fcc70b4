//! A session of phrases over built files, from their head to the last reply.
ghost use Rattle.std.specs.Prelude.{◌≤◌};
ghost use Rattle.mg_reply.specs.Printed.{Runs};
ghost use Rattle.mg_session.specs.Phrased.{Phrased};

use crate::phrase_searcher::PhraseSearcher;
use crate::serving::{answer_lines, load_head};
use mg_defs::Hearing;
use mg_dev::{Fault, Sink, Source, Store};
use std::alloc::Global;

/// Prints the session that the input asks of the files under a base, each line a phrase.
///
/// The head and the lexicon's places are loaded before the first line; nothing is printed where one of
/// them is refused. A document is read only where it has all words of the phrase, and the models are
/// loaded when there is a first one. The words of one document are held at a time, by their symbols, and
/// one of more bytes than the head tells of the collection is refused. Where the files stand for a
/// collection, the output is the session over its documents, and where the session stops early, a prefix
/// of it.
///
/// # Errors
///
/// `NotBuilt` where the head is missing or empty, `Damaged` where the files stand for no collection,
/// `InputTooLong` where the input has more than 2^32 bytes and no line `.quit` within them,
/// `StoreFault`, `ReadFault` and `WriteFault` where a device failed, and `Memory`. The replies up to
/// there are printed.
pub fn serve_phrase<S: Store, I: Source, O: Sink>(
    alloc: Global,
    store: &mut S,
    base: &str,
    input: &mut I,
    out: &mut O,
) -> Result<(), Fault>
    // What a run does that asks a session of phrases, whatever its error output is.
    ensures phrased { Runs S.Store I.Source O.Sink store.old store.new input.old input.new out.old
        out.new result (Phrased base.now) }
    ensures later { S.faults store.old ≤ S.faults store.new }
{
    let head = match load_head(store, base) {
        Ok(head) => head,
        Err(fault) => return Err(fault),
    };
    let searcher = match PhraseSearcher::open(alloc, store, base, &head) {
        Ok(searcher) => searcher,
        Err(fault) => return Err(fault),
    };
    answer_lines(Hearing::Questions, searcher, store, input, out)
}

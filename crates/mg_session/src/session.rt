//! A session over built files, from their head to the last reply.
ghost use Rattle.std.specs.Prelude.{◌≤◌};
ghost use Rattle.mg_reply.specs.Printed.{Runs};
ghost use Rattle.mg_session.specs.Queried.{Queried};

use crate::searcher::Searcher;
use crate::serving::{answer_lines, load_head};
use mg_defs::Hearing;
use mg_dev::{Fault, Sink, Source, Store};
use std::alloc::Global;

/// Prints the session that the input asks of the files under a base.
///
/// The head and the lexicon's places are loaded before the first line; nothing is printed where one of
/// them is refused. The models are loaded when a document is first shown with its text. Where the files
/// stand for a collection, the output is the session over its documents, and where the session stops
/// early, a prefix of it.
///
/// # Errors
///
/// `NotBuilt` where the head is missing or empty, `Damaged` where the files stand for no collection,
/// `InputTooLong` where the input has more than 2^32 bytes and no line `.quit` within them,
/// `StoreFault`, `ReadFault` and `WriteFault` where a device failed, and `Memory`. The replies up to
/// there are printed.
pub fn serve<S: Store, I: Source, O: Sink>(
    alloc: Global,
    store: &mut S,
    base: &str,
    input: &mut I,
    out: &mut O,
) -> Result<(), Fault>
    // What a run does that asks a session, whatever its error output is.
    ensures queried { Runs S.Store I.Source O.Sink store.old store.new input.old input.new out.old
        out.new result (Queried base.now) }
    ensures later { S.faults store.old ≤ S.faults store.new }
{
    let head = match load_head(store, base) {
        Ok(head) => head,
        Err(fault) => return Err(fault),
    };
    let searcher = match Searcher::open(alloc, store, base, &head) {
        Ok(searcher) => searcher,
        Err(fault) => return Err(fault),
    };
    answer_lines(Hearing::Commands, searcher, store, input, out)
}

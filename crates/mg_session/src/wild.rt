//! A session of patterns over built files, from their head to the last reply.
ghost use Rattle.std.specs.Prelude.{◌≤◌};
ghost use Rattle.mg_reply.specs.Printed.{Runs};
ghost use Rattle.mg_session.specs.Matched.{Matched};

use crate::serving::{answer_lines, load_head};
use crate::wild_searcher::WildSearcher;
use mg_defs::Hearing;
use mg_dev::{Fault, Sink, Source, Store};
use std::alloc::Global;

/// Prints the session that the input asks of the files under a base, each line a pattern.
///
/// The head is loaded before the first line, and room is taken for a bit for each document; nothing is
/// printed and no input is taken where the head is missing or the rotations are too many. These are
/// counted where there are more than 2^19 terms, for fewer cannot have too many. The terms are loaded at
/// the first line that is a pattern, once, and the rotations are sorted once patterns are many. No text
/// is read. Where the files stand for a collection, the output is the session over its terms and
/// documents, and where the session stops early, a prefix of it.
///
/// # Errors
///
/// `NotBuilt` where the head is missing or empty, `Damaged` where the files stand for no collection,
/// `TooManyRotations` where the terms have more than 2^27 rotations, `InputTooLong` where the input has
/// more than 2^32 bytes and no line `.quit` within them, `StoreFault`, `ReadFault` and `WriteFault`
/// where a device failed, and `Memory`. The replies up to there are printed.
pub fn serve_wild<S: Store, I: Source, O: Sink>(
    alloc: Global,
    store: &mut S,
    base: &str,
    input: &mut I,
    out: &mut O,
) -> Result<(), Fault>
    // What a run does that asks a session of patterns, whatever its error output is.
    ensures matched { Runs S.Store I.Source O.Sink store.old store.new input.old input.new out.old
        out.new result (Matched base.now) }
    ensures later { S.faults store.old ≤ S.faults store.new }
{
    let head = match load_head(store, base) {
        Ok(head) => head,
        Err(fault) => return Err(fault),
    };
    let searcher = match WildSearcher::open(alloc, store, base, &head) {
        Ok(searcher) => searcher,
        Err(fault) => return Err(fault),
    };
    answer_lines(Hearing::Questions, searcher, store, input, out)
}

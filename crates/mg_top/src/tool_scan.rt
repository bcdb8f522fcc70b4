//! The tool `scan`.
ghost use Rattle.mg_reply.specs.Printed.{Runs};
ghost use Rattle.mg_plain.specs.Scanned.{Scanned};

use mg_dev::{Fault, Sink, Source, Store};
use mg_plain::scan;
use std::alloc::Global;

/// `scan COLLECTION`: prints the session that the input asks of the collection's documents.
pub(crate) fn run_scan<S: Store, I: Source, O: Sink>(
    alloc: Global,
    name: &str,
    store: &mut S,
    input: &mut I,
    out: &mut O,
) -> Result<(), Fault>
    ensures does { Runs S.Store I.Source O.Sink store.old store.new input.old input.new out.old
        out.new result (Scanned name.now) }
{
    match scan(alloc, store, name, input, out) {
        Ok(()) => Ok(()),
        Err(fault) => Err(fault),
    }
}

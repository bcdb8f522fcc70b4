//! The tool `wild`.
ghost use Rattle.mg_reply.specs.Printed.{Runs};
ghost use Rattle.mg_session.specs.Matched.{Matched};

use mg_dev::{Fault, Sink, Source, Store};
use mg_session::serve_wild;
use std::alloc::Global;

/// `wild NAME`: prints the session of patterns that the input asks of a set.
pub(crate) fn run_wild<S: Store, I: Source, O: Sink>(
    alloc: Global,
    name: &str,
    store: &mut S,
    input: &mut I,
    out: &mut O,
) -> Result<(), Fault>
    ensures does { Runs S.Store I.Source O.Sink store.old store.new input.old input.new out.old
        out.new result (Matched name.now) }
{
    match serve_wild(alloc, store, name, input, out) {
        Ok(()) => Ok(()),
        Err(fault) => Err(fault),
    }
}

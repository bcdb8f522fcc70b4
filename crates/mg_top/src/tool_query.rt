//! The tool `query`.
ghost use Rattle.mg_reply.specs.Printed.{Runs};
ghost use Rattle.mg_session.specs.Queried.{Queried};

use mg_dev::{Fault, Sink, Source, Store};
use mg_session::serve;
use std::alloc::Global;

/// `query NAME`: prints the session that the input asks of a set.
pub(crate) fn run_query<S: Store, I: Source, O: Sink>(
    alloc: Global,
    name: &str,
    store: &mut S,
    input: &mut I,
    out: &mut O,
) -> Result<(), Fault>
    ensures does { Runs S.Store I.Source O.Sink store.old store.new input.old input.new out.old
        out.new result (Queried name.now) }
{
    match serve(alloc, store, name, input, out) {
        Ok(()) => Ok(()),
        Err(fault) => Err(fault),
    }
}

//! The tool `phrase`.
ghost use Rattle.mg_reply.specs.Printed.{Runs};
ghost use Rattle.mg_session.specs.Phrased.{Phrased};

use mg_dev::{Fault, Sink, Source, Store};
use mg_session::serve_phrase;
use std::alloc::Global;

/// `phrase NAME`: prints the session of phrases that the input asks of a set.
pub(crate) fn run_phrase<S: Store, I: Source, O: Sink>(
    alloc: Global,
    name: &str,
    store: &mut S,
    input: &mut I,
    out: &mut O,
) -> Result<(), Fault>
    ensures does { Runs S.Store I.Source O.Sink store.old store.new input.old input.new out.old
        out.new result (Phrased name.now) }
{
    match serve_phrase(alloc, store, name, input, out) {
        Ok(()) => Ok(()),
        Err(fault) => Err(fault),
    }
}

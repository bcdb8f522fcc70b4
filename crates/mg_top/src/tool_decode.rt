//! The tool `decode`.
ghost use Rattle.mg_top.specs.Running.{RunsByStore};
ghost use Rattle.mg_decode.specs.Decoded.{Decoded};

use mg_decode::decode;
use mg_dev::{Fault, Sink, Store};
use std::alloc::Global;

/// `decode NAME`: prints the collection of a set.
pub(crate) fn run_decode<S: Store, O: Sink>(
    alloc: Global,
    name: &str,
    store: &mut S,
    out: &mut O,
) -> Result<(), Fault>
    ensures does { RunsByStore S.Store O.Sink store.old store.new out.old out.new result
        (Decoded name.now) }
{
    match decode(alloc, store, name, out) {
        Ok(()) => Ok(()),
        Err(fault) => Err(fault),
    }
}

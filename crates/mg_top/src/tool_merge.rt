//! The tool `merge`.
ghost use Rattle.mg_top.specs.Running.{RunsByStore};
ghost use Rattle.mg_top.specs.Merged.{Merged};

use crate::lines::put_summary;
use mg_dev::{Fault, Sink, Store};
use mg_merge::merge;
use std::alloc::Global;

/// `merge A B NEW`: makes the set of the documents of two sets, and prints its summary.
pub(crate) fn run_merge<S: Store, O: Sink>(
    alloc: Global,
    first: &str,
    second: &str,
    new: &str,
    store: &mut S,
    out: &mut O,
) -> Result<(), Fault>
    ensures does { RunsByStore S.Store O.Sink store.old store.new out.old out.new result
        (Merged first.now second.now new.now) }
{
    match merge(alloc, store, first, second, new) {
        Ok(summary) => match put_summary(out, &summary) {
            Ok(()) => Ok(()),
            Err(refusal) => Err(Fault::of_output(refusal)),
        },
        Err(fault) => Err(fault),
    }
}

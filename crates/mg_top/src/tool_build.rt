//! The tool `build`.
ghost use Rattle.std.specs.Prelude.{◌≤◌};
ghost use Rattle.mg_defs.specs.Limits.{greatest_budget, least_budget};
ghost use Rattle.mg_top.specs.Running.{RunsByStore};
ghost use Rattle.mg_top.specs.Built.{Built};

use crate::lines::put_summary;
use mg_build::build;
use mg_dev::{Fault, Sink, Store};
use std::alloc::Global;

/// `build COLLECTION NAME [--budget BYTES]`: makes the set of a collection, by a pool of so many
/// bytes, and prints the summary.
pub(crate) fn run_build<S: Store, O: Sink>(
    alloc: Global,
    collection: &str,
    name: &str,
    budget: u64,
    store: &mut S,
    out: &mut O,
) -> Result<(), Fault>
    requires least { least_budget ≤ budget }
    requires most { budget ≤ greatest_budget }
    ensures does { RunsByStore S.Store O.Sink store.old store.new out.old out.new result
        (Built collection.now name.now budget) }
{
    match build(alloc, store, collection, name, budget) {
        Ok(summary) => match put_summary(out, &summary) {
            Ok(()) => Ok(()),
            Err(refusal) => Err(Fault::of_output(refusal)),
        },
        Err(fault) => Err(fault),
    }
}

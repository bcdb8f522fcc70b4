//! The tool `check`.
ghost use Rattle.mg_top.specs.Running.{RunsByStore};
ghost use Rattle.mg_top.specs.Checked.{Checked};

use crate::lines::put_standing;
use mg_check::check;
use mg_defs::one_collection;
use mg_dev::{Fault, Sink, Store};
use std::alloc::Global;

/// `check NAME`: prints how many documents and bytes the collection has for which the files stand.
pub(crate) fn run_check<S: Store, O: Sink>(
    alloc: Global,
    name: &str,
    store: &mut S,
    out: &mut O,
) -> Result<(), Fault>
    ensures does { RunsByStore S.Store O.Sink store.old store.new out.old out.new result
        (Checked name.now) }
{
    // By this law the collection that is found is the only one.
    one_collection();
    match check(alloc, store, name) {
        Ok(found) => match put_standing(out, found.documents, found.bytes) {
            Ok(()) => Ok(()),
            Err(refusal) => Err(Fault::of_output(refusal)),
        },
        Err(fault) => Err(fault),
    }
}

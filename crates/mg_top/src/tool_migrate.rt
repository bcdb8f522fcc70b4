//! The tool `migrate`.
ghost use Rattle.mg_top.specs.Running.{RunsByStore};
ghost use Rattle.mg_top.specs.Migrated.{Migrated};

use crate::lines::put_documents;
use mg_dev::{Fault, Sink, Store};
use mg_migrate::migrate;
use std::alloc::Global;

/// `migrate NAME NEW`: makes a set of version 2 from a set of either version, and prints how many
/// documents it has.
pub(crate) fn run_migrate<S: Store, O: Sink>(
    alloc: Global,
    name: &str,
    new: &str,
    store: &mut S,
    out: &mut O,
) -> Result<(), Fault>
    ensures does { RunsByStore S.Store O.Sink store.old store.new out.old out.new result
        (Migrated name.now new.now) }
{
    match migrate(alloc, store, name, new) {
        Ok(documents) => match put_documents(out, documents) {
            Ok(()) => Ok(()),
            Err(refusal) => Err(Fault::of_output(refusal)),
        },
        Err(fault) => Err(fault),
    }
}

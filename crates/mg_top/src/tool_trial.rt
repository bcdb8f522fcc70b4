//! The tool `trial`.
ghost use Rattle.std.specs.Prelude.{◌≤◌};
ghost use Rattle.mg_defs.specs.Limits.{trial_documents};
ghost use Rattle.mg_top.specs.Running.{RunsAlone};
ghost use Rattle.mg_top.specs.Tried.{Tried};

use crate::trials::trial;
use mg_dev::{Fault, Sink};
use mg_mem::SureStore;
use std::alloc::Global;

/// `trial SEED DOCS`: tries the whole work in a store of its own, and prints what it found.
pub(crate) fn run_trial<O: Sink>(
    alloc: Global,
    seed: u64,
    docs: u32,
    out: &mut O,
) -> Result<(), Fault>
    requires some { 1 ≤ docs }
    requires most { docs ≤ trial_documents }
    ensures does { RunsAlone O.Sink out.old out.new result (Tried seed docs) }
{
    let mut store = SureStore::new(alloc);
    trial(alloc, &mut store, seed, docs, out)
}

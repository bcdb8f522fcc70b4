//! Lists, lexicon and weights, from what was inverted.
ghost use Rattle.std.specs.Prelude.{◌≡◌, List, length, replicate};
ghost use Rattle.mg_dev.specs.Moments.{Between};
ghost use Rattle.mg_defs.specs.declared.TermPosting.{TermPosting};
ghost use Rattle.mg_runs.specs.Left.{IsMerging};
ghost use Rattle.mg_index.specs.Listing.{AreListSizes};
ghost use Rattle.mg_make.specs.SetSteps.{WeighedStep};

use crate::inverter::Inverted;
use mg_count::Plan;
use mg_dev::{Fault, Store};
use mg_index::{Sizes, Terms, write_lists, write_weights_part};
use mg_laws::{documents_are_counted, lists_are_whole, postings_are_lists, squares_weigh};
use std::alloc::Global;

/// What a set is made from, beside what was inverted: the plan, the sums of the squared weights of each
/// document, the number of bytes, and the size of the pool.
#[derive(Drop)]
pub(crate) struct Rest<'p> {
    pub(crate) plan: &'p Plan,
    pub(crate) sums: Vec<u64>,
    pub(crate) size: u64,
    pub(crate) limit: u64,
}

/// Writes lists, lexicon and weights of what was inverted, and empties the working parts of merging.
///
/// # Errors
///
/// The store's faults, and want of memory. Where the runs give back other postings than those of a
/// collection that was read the same twice, damage of the runs or a changed collection.
pub(crate) fn write_all<S: Store>(
    alloc: Global,
    store: &mut S,
    base: &str,
    inverted: &mut Inverted<'_>,
    rest: &mut Rest<'_>,
) -> Result<Sizes, Fault>
    requires base { inverted.old.merge.base ≡ base.now }
    requires sizes { AreListSizes inverted.old.counts.docs (length rest.old.plan.now.terms.terms)
        (length rest.old.plan.now.pairs) }
    requires left { (left : List TermPosting) ×
        IsMerging inverted.old.merge (S.files store.old) left }
    requires zero { rest.old.sums.items ≡ replicate (length rest.old.plan.now.pairs) 0 }
    ensures { Between S.files S.reads S.faults store.old store.new
        (WeighedStep rest.old.plan.now inverted.old inverted.new base.now result) }
{
    postings_are_lists();
    documents_are_counted();
    let plan = rest.plan;
    let terms = Terms {
        table: &plan.table,
        docs: inverted.counts.docs(),
    };
    let sizes = match write_lists(
        alloc,
        store,
        base,
        &mut inverted.merge,
        &terms,
        &mut rest.sums,
    ) {
        Ok(sizes) => sizes,
        Err(refusal) => return Err(refusal),
    };
    squares_weigh();
    lists_are_whole();
    match write_weights_part(alloc, store, base, &rest.sums) {
        Ok(()) => Ok(sizes),
        Err(refusal) => Err(Fault::of_store(refusal)),
    }
}

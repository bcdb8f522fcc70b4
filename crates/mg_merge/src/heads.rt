//! The heads of two sets.
ghost use Rattle.std.specs.Prelude.{◌≡◌, IfErr, IfOk, IsSome, Err};
ghost use Rattle.mg_dev.specs.Moments.{Between};
ghost use Rattle.mg_dev.specs.Causes.{Rose};
ghost use Rattle.mg_dev.specs.declared.fault.Fault.TheVariants as fault;
ghost use Rattle.mg_defs.specs.Heads.{IsWithin};
ghost use Rattle.mg_layout.specs.HeadAnswers.{fields_of};
ghost use Rattle.mg_layout.specs.Stands.{HasNoHead};
ghost use Rattle.mg_dev.specs.Runs.{RefusedFor};
ghost use Rattle.mg_merge.specs.Looks.{LooksAtTexts};
ghost use Rattle.mg_merge.specs.Merging.{budget_of, joined_size};
ghost use Rattle.mg_merge.specs.Stops.{AreHeads, HeadStops, IsOneMissing, IsRefusedFirst, IsToldFirst};

use mg_defs::{LEAST_BUDGET, OCCURRENCE_BYTES};
use mg_dev::{Fault, PartErr, Store};
use mg_layout::Head;

/// Loads the heads of two bases. Where one is missing, that is told, whatever the other holds.
pub(crate) fn load_heads<S: Store>(
    store: &mut S,
    first: &str,
    second: &str,
) -> Result<(Head, Head), Fault>
    ensures heads { IsSome (S.files store.old) →
        IfOk result (λ heads. AreHeads (S.files store.old) first.now second.now (fields_of heads.0)
        (fields_of heads.1)) }
    ensures first { IfOk result (λ heads. IsWithin (fields_of heads.0)) }
    ensures second { IfOk result (λ heads. IsWithin (fields_of heads.1)) }
    ensures missing { IsSome (S.files store.old) → IsOneMissing
        (S.files store.old) first.now second.now → RefusedFor result fault.NotBuilt }
    ensures refused { IfErr result (HeadStops (Rose (S.faults store.old) (S.faults store.new))
        (S.files store.old) first.now second.now) }
    ensures looks { Between S.files S.reads S.faults store.old store.new LooksAtTexts }
{
    let loaded = match Head::load(store, first) {
        Ok(loaded) => loaded,
        Err(refusal) => return Err(refused_first(store, second, refusal)),
    };
    let one = match loaded {
        Some(head) => head,
        None => return Err(Fault::NotBuilt),
    };
    let loaded_too = match Head::load(store, second) {
        Ok(loaded) => loaded,
        Err(refusal) => return Err(Fault::from(refusal)),
    };
    match loaded_too {
        Some(other) => Ok((one, other)),
        None => Err(Fault::NotBuilt),
    }
}

// What is told where the first head was not loaded: before damage, whether the second one is missing.
fn refused_first<S: Store>(store: &mut S, second: &str, refusal: PartErr) -> Fault
    ensures missing { IsSome (S.files store.old) → HasNoHead (S.files store.old) second.now →
        IsRefusedFirst result }
    ensures cause { IsToldFirst (Rose (S.faults store.old) (S.faults store.new))
        (S.files store.old) second.now refusal result }
    ensures looks { Between S.files S.reads S.faults store.old store.new LooksAtTexts }
{
    let bad = match refusal {
        PartErr::Bad(bad) => bad,
        PartErr::Device => return Fault::StoreFault,
        PartErr::Memory => return Fault::Memory,
    };
    match Head::load(store, second) {
        Ok(None) => Fault::NotBuilt,
        Ok(Some(_)) => Fault::Damaged(bad),
        Err(PartErr::Bad(_)) => Fault::Damaged(bad),
        Err(PartErr::Device) => Fault::StoreFault,
        Err(PartErr::Memory) => Fault::Memory,
    }
}

/// The bytes of both collections, with the one that closes the first.
pub(crate) fn joined_size(first: &Head, second: &Head) -> u64
    requires first { IsWithin (fields_of first.now) }
    requires second { IsWithin (fields_of second.now) }
    ensures { result ≡ joined_size (fields_of first.now) (fields_of second.now) }
{
    let closing = if first.open_end { 1 } else { 0 };
    first.collection + second.collection + closing
}

/// The size of the pool in which runs have as many occurrences as those of a set with this cap.
pub(crate) fn budget_of(cap: u32) -> u64
    ensures { result ≡ budget_of cap }
{
    LEAST_BUDGET.max(OCCURRENCE_BYTES * u64::from(cap))
}

//! The parts of a set: those that are written before the first byte comes, and those that follow the
//! last.
//!
//! What is written here may be parts of no collection, where the bytes are not those that were counted or
//! where a store gives back other bytes than it got. So each step says what it wrote for the bytes that
//! came, and which numbers it hands on whatever comes.
ghost use Rattle.std.specs.Prelude.{◌≡◌, ◌<◌, ◌^◌, ℕ, List, [], Option, length, replicate, IfOk, OnOk, Some};
ghost use Rattle.std.specs.Option.{IsSome};
ghost use Rattle.mg_dev.specs.Causes.{HasPutCause};
ghost use Rattle.mg_dev.specs.Files.{Files, SameReads, file_at};
ghost use Rattle.mg_dev.specs.Names.{full_name};
ghost use Rattle.mg_dev.specs.declared.part.Part.TheVariants as part;
ghost use Rattle.mg_dev.specs.Moments.{Between};
ghost use Rattle.mg_defs.specs.Marks.{Mark};
ghost use Rattle.mg_model.specs.Models.{PartsHold};
ghost use Rattle.mg_count.specs.DocCounting.{AreDocCounts};
ghost use Rattle.mg_make.specs.Finishing.{budget_of};
ghost use Rattle.mg_count.specs.Plans.{IsPlan};
ghost use Rattle.mg_make.specs.Putting.{ForScanned, HandsFor, IsHanded, IsUnbuilt, OfPass};
ghost use Rattle.mg_make.specs.Putting.{ScannedRefused, ScannedTells};
ghost use Rattle.mg_count.specs.Scanning.{HasMet};
ghost use Rattle.mg_make.specs.Second.{HasWritten};
ghost use Rattle.mg_make.specs.SetSteps.{RestStep};
ghost use Rattle.mg_index.specs.Steps.{PutStep};
ghost use Rattle.mg_make.specs.Steps.{SortStep};
ghost use Rattle.mg_index.specs.Written.{WroteParts};
ghost use Rattle.mg_make.specs.Written.{OfSecond};

use crate::index::{Rest, write_all};
use crate::inverter::Inverted;
use crate::mark_writer::{MarkWriter, end_marks, put_marks};
use crate::second::SecondPass;
use mg_count::{DocCounts, Plan, Scanner};
use mg_dev::{Fault, FileRef, Part, PutErr, Store};
use mg_layout::{BUILT, Head};
use mg_runs::Pool;
use mg_text_writer::text_has_its_documents;
use std::alloc::Global;

/// Empties the head, so that the files stand for no collection.
#[tactic(auto, using(mg_dev::specs::Laws::file_laws))]
pub(crate) fn reset_head<S: Store>(store: &mut S, base: &str) -> Result<(), PutErr>
    ensures empty { IsSome (S.files store.old) →
        OnOk result (file_at (S.files store.new) (full_name base.now part.Head) ≡ Some []) }
    ensures unbuilt { IsUnbuilt base.now (S.files store.old) (S.files store.new) }
    ensures wrote { WroteParts (λ p. p ≡ part.Head) base.now (S.files store.old)
        (S.files store.new) }
    ensures reads { SameReads (S.reads store.old) (S.reads store.new) }
    ensures cause { HasPutCause (S.faults store.old) (S.faults store.new) result }
{
    let head = FileRef {
        base,
        part: Part::Head,
    };
    store.reset(&head)
}

/// Writes the models, and begins text and runs.
pub(crate) fn open_parts<'a, S: Store>(
    alloc: Global,
    store: &mut S,
    base: &'a str,
    plan: &'a Plan,
    pool: Pool,
    counts: DocCounts,
) -> Result<SecondPass<'a>, PutErr>
    requires plan { IsPlan plan.now }
    requires pool { pool ≡ record { entries = []; slots = []; peak = 0; limit = pool.limit } }
    requires counts { AreDocCounts counts (length plan.now.terms.terms) [] }
    ensures written { IfOk result (λ pass. HasWritten pass (S.files store.new) []) }
    ensures base { IfOk result (λ pass. pass.base ≡ base.entry.now) }
    ensures plan { IfOk result (λ pass. pass.plan ≡ plan.entry.now) }
    ensures limit { IfOk result (λ pass. budget_of pass ≡ pool.limit) }
    ensures models { IsSome (S.files store.old) →
        OnOk result (PartsHold (S.files store.new) base.entry.now plan.entry.now.code) }
    ensures step { Between S.files S.reads S.faults store.old store.new
        (PutStep OfPass base.entry.now result) }
{
    match plan.model.write(alloc, store, base) {
        Ok(()) => {}
        Err(refusal) => return Err(refusal),
    }
    SecondPass::start(alloc, store, base, plan, pool, counts)
}

/// Ends what was put: what is met at the end is written, and then text and runs are ended.
pub(crate) fn end_pass<'a, S: Store, W: MarkWriter<'a, S> + Drop>(
    store: &mut S,
    scanner: Scanner,
    writer: W,
) -> Result<Inverted<'a>, Fault>
    requires put { (fed : List ℕ) × (met : List Mark) × HasMet scanner fed met
        × HasWritten (W.pass writer) (S.files store.old) met × (length fed < 2 ^ 32) }
    ensures handed { ForScanned scanner (W.pass writer) (S.files store.old)
        (HandsFor (W.pass writer) (S.files store.old) (S.files store.new) result) }
    ensures step { Between S.files S.reads S.faults store.old store.new
        (SortStep OfSecond (W.pass writer).base) }
    ensures refused { ScannedRefused scanner (W.pass writer) S.files S.faults store.old
        store.new result }
    ensures tells { ScannedTells scanner (W.pass writer) (S.files store.old) result }
{
    let mut scanner = scanner;
    let mut writer = writer;
    scanner.finish();
    match put_marks(&mut writer, store, scanner.met()) {
        Ok(()) => {}
        Err(refusal) => return Err(refusal),
    }
    end_marks(store, writer)
}

/// Writes lists, lexicon and weights, and makes the head that belongs to the set, with the greatest use of
/// the pool.
pub(crate) fn write_rest<S: Store>(
    alloc: Global,
    store: &mut S,
    base: &str,
    inverted: &mut Inverted<'_>,
    rest: &mut Rest<'_>,
) -> Result<(Head, u64), Fault>
    requires handed { (fed : List ℕ) × (before : Option Files) ×
        IsHanded rest.old.plan.now rest.old.limit base.now fed before (S.files store.old)
        inverted.old × (rest.old.size ≡ length fed) }
    requires plan { IsPlan rest.old.plan.now }
    requires zero { rest.old.sums.items ≡ replicate (length rest.old.plan.now.pairs) 0 }
    ensures { Between S.files S.reads S.faults store.old store.new
        (RestStep rest.old.plan.now rest.old.limit rest.old.size base.now inverted.old result) }
{
    // By this law a text has as many bytes as its documents' codes make.
    text_has_its_documents();
    let text_bytes = inverted.text_bytes;
    let occurrences = inverted.occurrences;
    let plan = rest.plan;
    let cap = (rest.limit / 12) as u32;
    let collection = rest.size;
    let sizes = match write_all(alloc, store, base, inverted, rest) {
        Ok(sizes) => sizes,
        Err(refusal) => return Err(refusal),
    };
    let entries = plan.entries();
    let head = Head {
        version: BUILT,
        documents: entries.documents,
        words: entries.words,
        others: entries.others,
        terms: entries.terms,
        cap,
        open_end: plan.open_end,
        collection,
        occurrences,
        runs: inverted.merge.runs(),
        text_bytes,
        post_bytes: sizes.post_bytes,
        skip_count: sizes.skip_count,
    };
    Ok((head, inverted.merge.peak()))
}

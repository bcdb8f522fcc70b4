//! A trial of the whole work on a collection that is made from a number.
ghost use Rattle.std.specs.Prelude.{◌≡◌, ◌≤◌, ◌<◌, ℕ, List, length, IfErr, OnOk, Some};
ghost use Rattle.mg_dev.specs.Causes.{Rose};
ghost use Rattle.mg_dev.specs.Files.{file_at, no_files};
ghost use Rattle.mg_dev.specs.Streams.{AfterPut};
ghost use Rattle.mg_dev.specs.declared.fault.Fault.TheVariants as fault;
ghost use Rattle.mg_defs.specs.declared.Stream.{Stream as Kind};
ghost use Rattle.mg_defs.specs.Generator.{made_collection, made_session};
ghost use Rattle.mg_defs.specs.Limits.{held_bytes, trial_documents};
ghost use Rattle.mg_defs.specs.Marks.{start as start_mark, piece as piece_mark};
ghost use Rattle.mg_defs.specs.Summaries.{trial_text};
ghost use Rattle.mg_dev.specs.Runs.{IsDone, RefusedFor};
ghost use Rattle.mg_top.specs.Ends.{SilentAfter};
ghost use Rattle.mg_top.specs.Trials.{HoldsText, IsBuilt, Lacks, StopsLacking, TrialStopsBy, WhereAllowed, WhereBeyond, WorkEnds, text_name};

use crate::comparing::{ask_both, is_decoded};
use crate::lines::put_trial_summary;
use crate::trial_summary::TrialSummary;
use mg_build::build;
use mg_defs::{DEFAULT_BUDGET, HELD_BYTES};
use mg_dev::{Fault, FileRef, Part, Sink, Store};
use mg_gen::make_collection;
use mg_mem::SureSink;
use std::alloc::Global;

/// The file of the collection.
pub(crate) const TEXT: &str = "text";

/// The base of the set.
pub(crate) const SET: &str = "set";

/// The collection of a trial.
fn made_text(alloc: Global, seed: u64, docs: u32) -> Result<SureSink, Fault>
    ensures text { HoldsText ⟦<SureSink as Sink>⟧.written result (made_collection seed docs) }
    ensures cause { IfErr result (Lacks ⊥) }
{
    let mut out = SureSink::new(alloc);
    match make_collection(seed, docs, &mut out) {
        Ok(()) => Ok(out),
        Err(_) => Err(Fault::Memory),
    }
}

/// Puts a collection into its file.
fn put_text<S: Store>(store: &mut S, text: &[u8]) -> Result<(), Fault>
    requires none { S.files store.old ≡ Some no_files }
    ensures there { OnOk result (file_at (S.files store.new) text_name ≡ Some text.now) }
    ensures stops { StopsLacking result S.Store store.old store.new }
{
    let file = FileRef {
        base: TEXT,
        part: Part::Plain,
    };
    match store.append(&file, text) {
        Ok(()) => Ok(()),
        Err(refusal) => Err(Fault::of_store(refusal)),
    }
}

/// Does the work of a trial on this collection, and tells what it found; nothing is printed.
fn try_text<S: Store>(
    alloc: Global,
    store: &mut S,
    seed: u64,
    docs: u32,
    text: &[u8],
) -> Result<TrialSummary, Fault>
    requires none { S.files store.old ≡ Some no_files }
    requires made { text.now ≡ made_collection seed docs }
    ensures ends { WorkEnds (Rose (S.faults store.old) (S.faults store.new)) docs
        (made_collection seed docs) (made_session seed) result }
    ensures built { OnOk result (IsBuilt (S.files store.new) (made_collection seed docs)) }
    ensures later { S.faults store.old ≤ S.faults store.new }
{
    let bytes = text.len() as u64;
    if bytes > HELD_BYTES {
        return Err(Fault::TooLarge {
            size: bytes,
            most: HELD_BYTES,
        });
    }
    match put_text(store, text) {
        Ok(()) => {}
        Err(fault) => return Err(fault),
    }
    let summary = match build(alloc, store, TEXT, SET, DEFAULT_BUDGET) {
        Ok(summary) => summary,
        Err(fault) => return Err(fault),
    };
    let decoded = match is_decoded(alloc, store, text) {
        Ok(same) => same,
        Err(fault) => return Err(fault),
    };
    let replies = match ask_both(alloc, store, seed) {
        Ok(replies) => replies,
        Err(fault) => return Err(fault),
    };
    Ok(TrialSummary {
        documents: docs,
        bytes,
        terms: summary.terms,
        occurrences: summary.occurrences,
        replies: replies.bytes,
        is_decoded: decoded,
        is_answered: replies.are_same,
    })
}

/// Makes the collection of a trial, and does the work on it.
fn try_all<S: Store>(
    alloc: Global,
    store: &mut S,
    seed: u64,
    docs: u32,
) -> Result<TrialSummary, Fault>
    requires none { S.files store.old ≡ Some no_files }
    ensures ends { WorkEnds (Rose (S.faults store.old) (S.faults store.new)) docs
        (made_collection seed docs) (made_session seed) result }
    ensures built { OnOk result (IsBuilt (S.files store.new) (made_collection seed docs)) }
    ensures later { S.faults store.old ≤ S.faults store.new }
{
    let made = match made_text(alloc, seed, docs) {
        Ok(made) => made,
        Err(fault) => return Err(fault),
    };
    try_text(alloc, store, seed, docs, made.bytes())
}

/// Tries the whole work on a collection of so many documents, from 1 to 20,000, that is made from
/// the seed, and prints seven lines.
///
/// The collection goes into the file `text`, and the set of the base `set` is built of it. The set
/// is decoded and compared with the collection; forty questions are asked of the set and of the
/// text, and the replies are compared. The lines come after both comparisons, and tell how they
/// came out: the same, as the clause `text` says.
pub fn trial<S: Store, O: Sink>(
    alloc: Global,
    store: &mut S,
    seed: u64,
    docs: u32,
    out: &mut O,
) -> Result<(), Fault>
    requires some { 1 ≤ docs }
    requires most { docs ≤ trial_documents }
    requires none { S.files store.old ≡ Some no_files }
    // The seven lines are printed, or after a refusal a prefix; after most refusals nothing.
    ensures text { AfterPut (O.written out.old) (O.written out.new) (trial_text seed docs) result }
    // Then the store has the collection in its file, and the set.
    ensures built { OnOk result (IsBuilt (S.files store.new) (made_collection seed docs)) }
    ensures silent { IfErr result (SilentAfter (O.written out.old) (O.written out.new)
        (O.lacks out.old) (O.lacks out.new)) }
    // The cause of each refusal.
    ensures cause { TrialStopsBy S.faults O.faults store.old store.new out.old out.new result
        (made_collection seed docs) }
    ensures later { S.faults store.old ≤ S.faults store.new }
    // What the collection has too much of is told, in this order.
    ensures large { held_bytes < length (made_collection seed docs) →
        RefusedFor result (fault.TooLarge (length (made_collection seed docs)) held_bytes) }
    ensures documents { WhereBeyond seed docs start_mark
        (RefusedFor result fault.TooManyDocuments) }
    ensures pieces { (stream : Kind) (piece : List ℕ) →
        WhereBeyond seed docs (piece_mark stream piece)
        (RefusedFor result (fault.TooManyPieces stream)) }
    // Within the limits it is done, or memory lacks.
    ensures complete { WhereAllowed seed docs
        (¬ Rose (S.faults store.old) (S.faults store.new) →
        ¬ Rose (O.faults out.old) (O.faults out.new) → IsDone result) }
{
    match try_all(alloc, store, seed, docs) {
        Ok(summary) => match put_trial_summary(out, &summary) {
            Ok(()) => Ok(()),
            Err(refusal) => Err(Fault::of_output(refusal)),
        },
        Err(fault) => Err(fault),
    }
}

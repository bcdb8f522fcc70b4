//! The two passes over a collection.
ghost use Rattle.std.specs.Prelude.{◌<◌, ◌≤◌, ◌^◌, ℕ, List, [], IfErr, IfOk, OnOk};
ghost use Rattle.std.specs.Option.{IsSome};
ghost use Rattle.mg_defs.specs.Limits.{greatest_budget, least_budget};
ghost use Rattle.mg_bits.specs.Pages.{Fits};
ghost use Rattle.mg_make.specs.Counting.{HasCounted};
ghost use Rattle.mg_make.specs.Outcomes.{BetweenMoments, Fails};
ghost use Rattle.mg_make.specs.Plans.{IsPlan, IsPlanOf, IsRoomFor};
ghost use Rattle.mg_make.specs.Putting.{HasPut};
ghost use Rattle.mg_build.specs.Building.{HasItsSize, IsPlanAt, TellsRead, WriteStops};
ghost use Rattle.mg_build.specs.Sources.{AreRead, IsSourceApart};
ghost use Rattle.mg_build.specs.Steps.{CountsSource, WritesOn, WritesSource};

use crate::source::Source;
use mg_dev::{Fault, Store};
use mg_make::{Count, Plan, Room, SetWriter, Summary, empty_heads_stand_for_none};
use std::alloc::Global;

// Counts the bytes of a collection, a page after another.
fn count_bytes<S: Store>(
    store: &mut S,
    source: &mut Source<'_, S>,
    count: &mut Count,
) -> Result<(), Fault>
    requires fits { Fits source.old.feed (S.files store.old) }
    requires nothing { HasCounted count.old [] }
    ensures counted { OnOk result ((fed : List ℕ) × AreRead (S.files store.old) source.old.feed.name
        source.old.size fed × HasCounted count.new fed) }
    ensures counts { BetweenMoments S.files S.reads S.faults store.old store.new
        (λ before now. CountsSource source.old source.new before now result) }
{
    let size = source.size();
    let mut at = 0;
    while at < size {
        match source.turn(store, at) {
            Ok(()) => {}
            Err(refusal) => return Err(refusal),
        }
        let bytes = source.block();
        match count.take_all(bytes) {
            Ok(()) => {}
            Err(refusal) => return Err(refusal),
        }
        at += bytes.len() as u64;
    }
    Ok(())
}

// What is counted in all bytes of a collection.
fn counted<S: Store>(
    alloc: Global,
    store: &mut S,
    source: &mut Source<'_, S>,
) -> Result<Count, Fault>
    requires fits { Fits source.old.feed (S.files store.old) }
    ensures counted { IfOk result (λ count. (fed : List ℕ) × AreRead (S.files store.old)
        source.old.feed.name source.old.size fed × HasCounted count fed) }
    ensures counts { BetweenMoments S.files S.reads S.faults store.old store.new
        (λ before now. CountsSource source.old source.new before now result) }
{
    let mut count = Count::new(alloc);
    count_bytes(store, source, &mut count).and(Ok(count))
}

/// Counts a collection, and makes all that the second pass takes of memory, with a pool of so many bytes.
pub(crate) fn count_all<S: Store>(
    alloc: Global,
    store: &mut S,
    source: &mut Source<'_, S>,
    budget: u64,
) -> Result<(Plan, Room), Fault>
    requires least { least_budget ≤ budget }
    requires most { budget ≤ greatest_budget }
    requires fits { Fits source.old.feed (S.files store.old) }
    ensures plan { IfOk result (λ made. IsPlan made.0) }
    ensures room { IfOk result (λ made. IsRoomFor made.1 made.0 budget) }
    ensures of { IsSome (S.files store.old) → HasItsSize (S.files store.old) source.old →
        IfOk result (λ made. IsPlanAt made.0 (S.files store.old) source.old) }
    ensures read { IfOk result (λ made. (fed : List ℕ) × AreRead (S.files store.old)
        source.old.feed.name source.old.size fed × IsPlanOf made.0 fed) }
    ensures counts { BetweenMoments S.files S.reads S.faults store.old store.new
        (λ before now. CountsSource source.old source.new before now result) }
{
    match counted(alloc, store, source) {
        Ok(count) => count.finish(alloc, budget),
        Err(refusal) => Err(refusal),
    }
}

// Gives the bytes of a collection to the writer of its set, a page after another.
fn put_bytes<S: Store>(
    store: &mut S,
    source: &mut Source<'_, S>,
    writer: &mut SetWriter<'_>,
) -> Result<(), Fault>
    requires source { IsSourceApart writer.old.base source.old (S.files store.old) }
    requires nothing { HasPut writer.old (S.files store.old) [] }
    ensures put { OnOk result ((fed : List ℕ) × AreRead (S.files store.old) source.old.feed.name
        source.old.size fed ×
        HasPut writer.new (S.files store.new) fed) }
    ensures small { source.old.size < 2 ^ 32 }
    ensures goes { BetweenMoments S.files S.reads S.faults store.old store.new
        (WritesOn writer.old writer.new) }
    ensures refused { IfErr result (WriteStops (Fails S.faults store.old store.new)
        (IsPlanAt writer.old.plan (S.files store.old) source.old)) }
    ensures tells { IfErr result
        (TellsRead writer.old.plan (S.files store.old) source.old.feed.name source.old.size) }
{
    let size = source.size();
    let mut at = 0;
    while at < size {
        match source.turn(store, at) {
            Ok(()) => {}
            Err(refusal) => return Err(refusal),
        }
        let bytes = source.block();
        match writer.take_all(store, bytes) {
            Ok(()) => {}
            Err(refusal) => return Err(refusal),
        }
        at += bytes.len() as u64;
    }
    Ok(())
}

/// Writes the set of a collection by a plan: the head is emptied first and appended last.
pub(crate) fn write_set<'a, S: Store>(
    alloc: Global,
    store: &mut S,
    source: &mut Source<'_, S>,
    base: &'a str,
    plan: &'a Plan,
    room: Room,
) -> Result<Summary, Fault>
    requires plan { IsPlan plan.now }
    requires room { IsRoomFor room plan.now room.pool.limit }
    requires source { IsSourceApart base.now source.old (S.files store.old) }
    ensures writes { BetweenMoments S.files S.reads S.faults store.old store.new
        (λ before now. WritesSource plan.entry.now room.pool.limit base.entry.now source.old
        before now result) }
{
    empty_heads_stand_for_none();
    match SetWriter::start(alloc, store, base, plan, room) {
        Ok(writer) => write_started(alloc, store, source, writer),
        Err(refusal) => Err(Fault::of_store(refusal)),
    }
}

// Gives the bytes of a collection to a writer whose head is emptied, and ends it.
fn write_started<S: Store>(
    alloc: Global,
    store: &mut S,
    source: &mut Source<'_, S>,
    writer: SetWriter<'_>,
) -> Result<Summary, Fault>
    requires source { IsSourceApart writer.base source.old (S.files store.old) }
    requires nothing { HasPut writer (S.files store.old) [] }
    ensures writes { BetweenMoments S.files S.reads S.faults store.old store.new
        (λ before now. WritesSource writer.entry.plan writer.entry.limit writer.entry.base source.old
        before now result) }
{
    empty_heads_stand_for_none();
    let mut writer = writer;
    match put_bytes(store, source, &mut writer) {
        Ok(()) => writer.finish(alloc, store),
        Err(refusal) => {
            drop(writer);
            Err(refusal)
        }
    }
}

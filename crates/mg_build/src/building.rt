//! The build of a set.
ghost use Rattle.std.specs.Prelude.{◌≡◌, ◌≤◌, IfErr, None};
ghost use Rattle.std.specs.Option.{IsSome};
ghost use Rattle.mg_defs.specs.Limits.{greatest_budget, least_budget};
ghost use Rattle.mg_dev.specs.Files.{HasSize, bytes_at};
ghost use Rattle.mg_dev.specs.Runs.{status_of};
ghost use Rattle.mg_make.specs.Outcomes.{BetweenMoments, HasSummaryOf};
ghost use Rattle.mg_make.specs.Plans.{IsPlan, IsRoomFor};
ghost use Rattle.mg_build.specs.Building.{TellsTwoReadings};
ghost use Rattle.mg_build.specs.Made.{Made};
ghost use Rattle.mg_build.specs.Sources.{IsSourceApart};
ghost use Rattle.mg_build.specs.Steps.{BuildsSet, WritesSource};

use crate::names::part_named;
use crate::passes::{count_all, write_set};
use crate::source::Source;
use mg_dev::{Fault, Store};
use mg_make::{Plan, Room, Summary};
use std::alloc::Global;

/// Makes the set of a collection under a base, by a pool of so many bytes, from 4,096 to 2^30.
///
/// The first pass counts; nothing is written before it has read the whole collection. Then the head is
/// emptied, the other parts are written, and last the head, so that a set without a head is no set: what
/// a build that stops leaves stands for no collection.
pub fn build<S: Store>(
    alloc: Global,
    store: &mut S,
    collection: &str,
    base: &str,
    budget: u64,
) -> Result<Summary, Fault>
    requires least { least_budget ≤ budget }
    requires most { budget ≤ greatest_budget }
    ensures made { BetweenMoments S.files S.reads S.faults store.old store.new
        (λ before now. Made collection.now base.now budget before now (status_of result)) }
    // At `Ok` the summary has the numbers of the collection.
    ensures summary { IsSome (S.files store.old) →
        HasSummaryOf budget result (bytes_at (S.files store.old) collection.now) }
    // What a refusal of `Changed` tells.
    ensures tells { IfErr result (TellsTwoReadings (S.files store.old) collection.now) }
    ensures later { S.faults store.old ≤ S.faults store.new }
{
    if let Some(part) = part_named(base, collection) {
        return Err(Fault::NameClash { part });
    }
    let mut source = match Source::open(alloc, store, collection) {
        Ok(source) => source,
        Err(refusal) => return Err(refusal),
    };
    build_opened(alloc, store, &mut source, base, budget)
}

// Makes the set of a collection that was opened and of which nothing was read.
fn build_opened<S: Store>(
    alloc: Global,
    store: &mut S,
    source: &mut Source<'_, S>,
    base: &str,
    budget: u64,
) -> Result<Summary, Fault>
    requires least { least_budget ≤ budget }
    requires most { budget ≤ greatest_budget }
    requires source { IsSourceApart base.now source.old (S.files store.old) }
    requires size { HasSize (S.files store.old) source.old.feed.name source.old.size }
    requires unread { source.old.feed.held ≡ None }
    ensures builds { BetweenMoments S.files S.reads S.faults store.old store.new
        (λ before now. BuildsSet source.old.feed.name base.now budget before now result) }
{
    match count_all(alloc, store, source, budget) {
        Ok(made) => write_planned(alloc, store, source, base, made.0, made.1),
        Err(refusal) => Err(refusal),
    }
}

// Writes the set of a collection by a plan, of which nothing more is wanted.
fn write_planned<S: Store>(
    alloc: Global,
    store: &mut S,
    source: &mut Source<'_, S>,
    base: &str,
    plan: Plan,
    room: Room,
) -> Result<Summary, Fault>
    requires plan { IsPlan plan }
    requires room { IsRoomFor room plan room.pool.limit }
    requires source { IsSourceApart base.now source.old (S.files store.old) }
    ensures writes { BetweenMoments S.files S.reads S.faults store.old store.new
        (λ before now. WritesSource plan room.pool.limit base.now source.old before now result) }
{
    let answer = write_set(alloc, store, source, base, &plan, room);
    drop(plan);
    answer
}

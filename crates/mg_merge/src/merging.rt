//! The merge of two sets.
ghost use Rattle.std.specs.Prelude.{◌≢◌, ◌≤◌};
ghost use Rattle.mg_defs.specs.Limits.{greatest_budget, least_budget};
ghost use Rattle.mg_dev.specs.Runs.{status_of};
ghost use Rattle.mg_merge.specs.Joined.{Joined};
ghost use Rattle.mg_make.specs.Outcomes.{BetweenMoments, HasSummaryOf};
ghost use Rattle.mg_make.specs.Plans.{IsPlan, IsRoomFor};
ghost use Rattle.mg_merge.specs.Merging.{ForBoth, budget_of};
ghost use Rattle.mg_merge.specs.Passes.{AreTextsApart};
ghost use Rattle.mg_merge.specs.Written.{MergesTexts, WritesTexts};

use crate::counting::count_all;
use crate::documents::Documents;
use crate::dropping::without;
use crate::heads::{budget_of, joined_size, load_heads};
use crate::retelling::answer_by_heads;
use crate::texts::Texts;
use crate::writing::write_set;
use mg_defs::COLLECTION_BYTES;
use mg_dev::{Fault, Store, names_apart};
use mg_make::{Plan, Room, Summary};
use std::alloc::Global;

/// Makes the set of the documents of two sets under a third base, in version 2 and with the first one's cap. The two may be
/// one, and of either version.
///
/// Both texts are read twice: first they are counted, and nothing is written before that is done; then the head is
/// emptied, the other parts are written, and last the head. So what a merge that stops leaves stands for no collection.
/// It takes the memory of a build of the joined collection, and that of its longest document.
///
/// # Errors
///
/// Before the first write, and in this order: `SameName` where the new base is one of the two, `NotBuilt` where one has no
/// head, `TooLarge` where both have too many bytes by their heads, and `TooManyDocuments` or `TooManyPieces`, whichever
/// is met first, and that only where the heads together tell too many: else a set holds more than its head tells, which
/// is damage. `Damaged` only where one of the sets stands for no collection, also where it changes while it is read. The
/// store's faults, and want of memory.
pub fn merge<S: Store>(
    alloc: Global,
    store: &mut S,
    first: &str,
    second: &str,
    new: &str,
) -> Result<Summary, Fault>
    ensures joined { BetweenMoments S.files S.reads S.faults store.old store.new
        (λ before now. Joined first.now second.now new.now before now (status_of result)) }
    // At `Ok` the summary has the numbers of both collections in one.
    ensures summary { ForBoth (S.files store.old) first.now second.now
        (λ cap joined. HasSummaryOf (budget_of cap) result joined) }
    ensures later { S.faults store.old ≤ S.faults store.new }
{
    if new == first {
        return Err(Fault::SameName);
    }
    if new == second {
        return Err(Fault::SameName);
    }
    merge_apart::<S, Texts<'_, S>>(alloc, store, first, second, new)
}

// Makes the set of the documents of two sets under a base that is none of theirs. What reads the documents is a
// parameter, so that nothing is seen of it here but what it promises.
fn merge_apart<'a, S: Store, D: Documents<'a, S> + Drop>(
    alloc: Global,
    store: &mut S,
    first: &'a str,
    second: &'a str,
    new: &str,
) -> Result<Summary, Fault>
    requires one { new.now ≢ first.now }
    requires other { new.now ≢ second.now }
    ensures joined { BetweenMoments S.files S.reads S.faults store.old store.new
        (λ before now. Joined first.now second.now new.now before now (status_of result)) }
    ensures summary { ForBoth (S.files store.old) first.now second.now
        (λ cap joined. HasSummaryOf (budget_of cap) result joined) }
    ensures later { S.faults store.old ≤ S.faults store.new }
{
    let heads = match load_heads(store, first, second) {
        Ok(heads) => heads,
        Err(refusal) => return Err(refusal),
    };
    let size = joined_size(&heads.0, &heads.1);
    if size > COLLECTION_BYTES {
        return Err(Fault::TooLarge {
            size,
            most: COLLECTION_BYTES,
        });
    }
    // By this law no part of the new set is one that is read.
    names_apart();
    let mut texts = match D::load(alloc, store, first, second, &heads) {
        Ok(texts) => texts,
        Err(refusal) => return Err(refusal),
    };
    let budget = budget_of(heads.0.cap);
    let answer = merge_texts(alloc, store, &mut texts, new, budget);
    answer_by_heads(answer, &heads)
}

// Makes the set of two texts, by a pool of so many bytes.
fn merge_texts<'a, S: Store, D: Documents<'a, S>>(
    alloc: Global,
    store: &mut S,
    texts: &mut D,
    new: &str,
    budget: u64,
) -> Result<Summary, Fault>
    requires least { least_budget ≤ budget }
    requires most { budget ≤ greatest_budget }
    requires texts { AreTextsApart new.now (D.texts texts.old) (S.files store.old) }
    ensures merged { BetweenMoments S.files S.reads S.faults store.old store.new
        (λ before now. MergesTexts budget new.now (D.texts texts.old) before now result) }
{
    match count_all(alloc, store, texts, budget) {
        Ok(made) => write_planned(alloc, store, texts, new, made.0, made.1),
        Err(refusal) => Err(refusal),
    }
}

// Writes the set of two texts by a plan, of which nothing more is wanted.
fn write_planned<'a, S: Store, D: Documents<'a, S>>(
    alloc: Global,
    store: &mut S,
    texts: &mut D,
    new: &str,
    plan: Plan,
    room: Room,
) -> Result<Summary, Fault>
    requires plan { IsPlan plan }
    requires room { IsRoomFor room plan room.pool.limit }
    requires texts { AreTextsApart new.now (D.texts texts.old) (S.files store.old) }
    ensures written { BetweenMoments S.files S.reads S.faults store.old store.new
        (λ before now. WritesTexts plan room.pool.limit new.now (D.texts texts.old) before now
        result) }
{
    let answer = write_set(alloc, store, texts, new, &plan, room);
    without(plan, answer)
}

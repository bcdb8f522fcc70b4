//! The second pass over two texts.
ghost use Rattle.std.specs.Prelude.{◌≡◌, ◌<◌, ◌≤◌, ◌^◌, ℕ, List, [], IfErr, OnOk, Some};
ghost use Rattle.std.specs.Option.{IsSome};
ghost use Rattle.mg_dev.specs.Causes.{Rose};
ghost use Rattle.mg_dev.specs.Faults.{ReadStops};
ghost use Rattle.mg_dev.specs.Files.{file_at};
ghost use Rattle.mg_dev.specs.Names.{full_name};
ghost use Rattle.mg_dev.specs.declared.part.Part.TheVariants as part;
ghost use Rattle.mg_make.specs.Outcomes.{BetweenMoments};
ghost use Rattle.mg_make.specs.Plans.{IsPlan, IsRoomFor};
ghost use Rattle.mg_make.specs.Putting.{HasPut, OthersSame};
ghost use Rattle.mg_merge.specs.Looks.{reads_index};
ghost use Rattle.mg_merge.specs.Passes.{AreAllGiven, ArePlanned, AreTextsApart};
ghost use Rattle.mg_merge.specs.Written.{WritesTexts};

use crate::documents::Documents;
use crate::dropping::without;
use crate::retelling::{retold, too_long};
use mg_dev::{Fault, Store};
use mg_make::{Plan, Room, SetWriter, Summary, empty_heads_stand_for_none};
use std::alloc::Global;

// Gives each document of the texts to the writer of their set.
fn put_documents<'a, S: Store, D: Documents<'a, S>>(
    store: &mut S,
    texts: &mut D,
    writer: &mut SetWriter<'_>,
) -> Result<(), Fault>
    requires texts { AreTextsApart writer.old.base (D.texts texts.old) (S.files store.old) }
    requires nothing { HasPut writer.old (S.files store.old) [] }
    ensures put { OnOk result ((fed : List ℕ) × AreAllGiven (D.texts texts.old)
        (S.files store.old) fed × HasPut writer.new (S.files store.new) fed) }
    ensures few { (D.texts texts.old).size < 2 ^ 32 }
    ensures base { writer.new.base ≡ writer.old.base }
    ensures plan { writer.new.plan ≡ writer.old.plan }
    ensures limit { writer.new.limit ≡ writer.old.limit }
    ensures head { IsSome (S.files store.old) →
        file_at (S.files store.new) (full_name writer.old.base part.Head) ≡ Some [] }
    ensures others { OthersSame writer.old.base (S.files store.old) (S.files store.new) }
    ensures index { reads_index (S.reads store.new) ≡ reads_index (S.reads store.old) }
    ensures later { S.faults store.old ≤ S.faults store.new }
    ensures refused { IfErr result (ReadStops (Rose (S.faults store.old) (S.faults store.new))
        (ArePlanned writer.old.plan (D.texts texts.old) (S.files store.old))) }
{
    let size = texts.size();
    let mut left = size;
    for index in 0..texts.documents() {
        match texts.read(store, index + 1, left) {
            Ok(()) => {}
            Err(refusal) => return Err(refusal),
        }
        let found = texts.bytes().len() as u64;
        if found > left {
            return Err(Fault::Damaged(too_long(size - left, left, found)));
        }
        match writer.take_all(store, texts.bytes()) {
            Ok(()) => {}
            Err(refusal) => return Err(retold(refusal)),
        }
        left -= found;
    }
    Ok(())
}

/// Writes the set of two texts by a plan: the head is emptied first and appended last.
pub(crate) fn write_set<'a, 'b, S: Store, D: Documents<'b, S>>(
    alloc: Global,
    store: &mut S,
    texts: &mut D,
    base: &'a str,
    plan: &'a Plan,
    room: Room,
) -> Result<Summary, Fault>
    requires plan { IsPlan plan.now }
    requires room { IsRoomFor room plan.now room.pool.limit }
    requires texts { AreTextsApart base.now (D.texts texts.old) (S.files store.old) }
    ensures written { BetweenMoments S.files S.reads S.faults store.old store.new
        (λ before now. WritesTexts plan.entry.now room.pool.limit base.entry.now
        (D.texts texts.old) before now result) }
{
    empty_heads_stand_for_none();
    match SetWriter::start(alloc, store, base, plan, room) {
        Ok(writer) => write_started(alloc, store, texts, writer),
        Err(refusal) => Err(Fault::of_store(refusal)),
    }
}

// Gives the texts to a writer whose head is emptied, and ends it.
fn write_started<'b, S: Store, D: Documents<'b, S>>(
    alloc: Global,
    store: &mut S,
    texts: &mut D,
    writer: SetWriter<'_>,
) -> Result<Summary, Fault>
    requires texts { AreTextsApart writer.base (D.texts texts.old) (S.files store.old) }
    requires nothing { HasPut writer (S.files store.old) [] }
    ensures written { BetweenMoments S.files S.reads S.faults store.old store.new
        (λ before now. WritesTexts writer.entry.plan writer.entry.limit writer.entry.base
        (D.texts texts.old) before now result) }
{
    empty_heads_stand_for_none();
    let mut writer = writer;
    match put_documents(store, texts, &mut writer) {
        Ok(()) => {}
        Err(refusal) => return Err(without(writer, refusal)),
    }
    match writer.finish(alloc, store) {
        Ok(summary) => Ok(summary),
        Err(refusal) => Err(retold(refusal)),
    }
}

//! Rounds: the runs of one part, joined into fewer runs of another.
ghost use Rattle.std.specs.Prelude.{◌≡◌, ◌≤◌, ◌<◌, ◌+◌, ◌-◌, ◌/◌, ◌++◌, [], ◌∷◌, IfOk, length};
ghost use Rattle.mg_dev.specs.Moments.{Between};
ghost use Rattle.mg_runs.specs.Cursors.{Tells};
ghost use Rattle.mg_runs.specs.Joins.{IsRunPart, WritesRun, other, GroupsJoined};
ghost use Rattle.mg_runs.specs.Reading.{ForGroup, ForStored};
ghost use Rattle.mg_runs.specs.Steps.{HasMore, HasSlots, IsMade, MayBegin, MayJoin, PoolBack, RoundJoined, RoundWritten, RoundsDone, RunStep};

use crate::Pool;
use crate::join::{join, refused};
use mg_bits::BitWriter;
use mg_dev::{FileRef, Part, PartErr, Store};
use std::alloc::Global;

/// The runs of a part, which begin at these bit places, and the pool through which they are read.
#[derive(Drop)]
pub struct Round<'a> {
    pub pool: Pool,
    pub places: Vec<u64>,
    pub file: FileRef<'a>,
}

/// Runs of a file, which begin at these bit places.
#[derive(Clone, Copy)]
struct Stored<'a> {
    file: FileRef<'a>,
    places: &'a [u64],
}

/// A pool, and where runs begin that were joined through it.
#[derive(Drop)]
struct Joined {
    pool: Pool,
    places: Vec<u64>,
}

/// The merge part that the next round writes, where the runs stand in this part.
fn other_part(part: Part) -> Part
    ensures { result ≡ other part }
{
    match part {
        Part::MergeA => Part::MergeB,
        _ => Part::MergeA,
    }
}

/// Joins the runs that begin at these bit places of a file behind those that were joined before,
/// and keeps where the new run begins.
fn join_next<S: Store>(
    alloc: Global,
    store: &mut S,
    mut made: Joined,
    file: FileRef<'_>,
    places: &[u64],
    w: &mut BitWriter<'_>,
) -> Result<Joined, PartErr>
    requires ready { MayJoin made.pool file places.now w.old (S.files store.old) }
    ensures told { ForGroup file.entry (S.files store.old) places.now w.old.place
        (WritesRun S.files store.old store.new w.old w.new result) }
    ensures pool { IfOk result (λ next. PoolBack (length places.now) made.pool next.pool) }
    ensures places { IfOk result (λ next. next.places.items
        ≡ made.places.items ++ w.old.place ∷ []) }
    ensures step { Between S.files S.reads S.faults store.old store.new
        (RunStep file.entry.part w.old w.new result) }
{
    match made.places.push(w.place()) {
        Ok(()) => {}
        Err(_) => return Err(PartErr::Memory),
    }
    match join(alloc, store, made.pool, file, places, w) {
        Ok(pool) => Ok(Joined {
            pool,
            places: made.places,
        }),
        Err(refusal) => Err(refusal),
    }
}

/// Joins runs, so many at a time, into runs that follow one another, and answers where these
/// begin.
fn join_groups<S: Store>(
    alloc: Global,
    store: &mut S,
    pool: Pool,
    stored: Stored<'_>,
    width: usize,
    w: &mut BitWriter<'_>,
) -> Result<Joined, PartErr>
    requires more { HasMore pool width stored.places.now }
    requires begun { MayBegin stored.file w.old (S.files store.old) }
    ensures told { ForStored stored.entry.file (S.files store.old) stored.entry.places.now
        (λ runs. Tells result (GroupsJoined width runs S.files store.old store.new w.old w.new)) }
    ensures made { IfOk result (λ made. IsMade width (length stored.entry.places.now) pool made) }
    ensures step { Between S.files S.reads S.faults store.old store.new
        (RunStep stored.entry.file.part w.old w.new result) }
{
    let Stored { file, places } = stored;
    let starts = match Vec::with_capacity(alloc, places.len() / width + 1) {
        Ok(starts) => starts,
        Err(_) => return Err(PartErr::Memory),
    };
    let mut made = Joined {
        pool,
        places: starts,
    };
    let mut at = 0;
    while at < places.len() {
        let end = at + width.min(places.len() - at);
        match join_next(alloc, store, made, file, &places[at..end], w) {
            Ok(next) => made = next,
            Err(refusal) => return Err(refusal),
        }
        at = end;
    }
    Ok(made)
}

impl<'a> Round<'a> {
    /// Joins the runs, so many at a time, into a file to which its writer has put nothing yet, and
    /// ends the file.
    fn join_into<S: Store>(
        self,
        alloc: Global,
        store: &mut S,
        width: usize,
        w: &mut BitWriter<'_>,
    ) -> Result<Joined, PartErr>
        requires more { HasMore self.pool width self.places.items }
        requires begun { MayBegin self.file w.old (S.files store.old) }
        ensures written { Between S.files S.reads S.faults store.old store.new
            (RoundWritten width self.entry w.old.name result) }
    {
        let Round { pool, places, file } = self;
        let stored = Stored {
            file,
            places: &places,
        };
        match join_groups(alloc, store, pool, stored, width, w) {
            Ok(made) => match w.finish(store) {
                Ok(()) => Ok(made),
                Err(refusal) => Err(refused(refusal)),
            },
            Err(refusal) => Err(refusal),
        }
    }

    /// The runs, so many at a time, joined into runs of another merge part, which held nothing
    /// that is still needed.
    fn joined<S: Store>(
        self,
        alloc: Global,
        store: &mut S,
        width: usize,
    ) -> Result<Round<'a>, PartErr>
        requires more { HasMore self.pool width self.places.items }
        requires part { IsRunPart self.file.part }
        ensures joined { Between S.files S.reads S.faults store.old store.new
            (RoundJoined width self.entry result) }
    {
        let to = FileRef {
            base: self.file.base,
            part: other_part(self.file.part),
        };
        let mut w = match BitWriter::start(alloc, store, to) {
            Ok(w) => w,
            Err(refusal) => return Err(refused(refusal)),
        };
        match self.join_into(alloc, store, width, &mut w) {
            Ok(made) => Ok(Round {
                pool: made.pool,
                places: made.places,
                file: to,
            }),
            Err(refusal) => Err(refusal),
        }
    }

    /// As many rounds as leave no more runs than this width.
    pub fn rounds<S: Store>(
        self,
        alloc: Global,
        store: &mut S,
        width: usize,
    ) -> Result<Round<'a>, PartErr>
        requires some { 2 ≤ width }
        requires slots { HasSlots self.pool width }
        requires part { IsRunPart self.file.part }
        ensures done { Between S.files S.reads S.faults store.old store.new
            (RoundsDone width self.entry result) }
    {
        let mut round = self;
        while round.places.len() > width {
            match round.joined(alloc, store, width) {
                Ok(next) => round = next,
                Err(refusal) => return Err(refusal),
            }
        }
        Ok(round)
    }
}

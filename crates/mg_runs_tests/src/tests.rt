//! What no clause says: bytes of runs that are joined, which parts that takes, and which damage is met first. The bytes of a
//! first run stand with the builds, failing devices with the tools.
ghost use Rattle.std.specs.Prelude.{◌≡◌, ◌≤◌, ◌^◌, ℕ, List, IfOk, None};
ghost use Rattle.mg_runs.specs.Fed.{IsFed};
ghost use Rattle.mg_runs.specs.Left.{IsMerging};
ghost use Rattle.mg_defs.specs.declared.TermPosting.{TermPosting};

use mg_dev::{Bad, Failed, FileRef, Part, PartErr, PutErr, Store};
use mg_mem::SureStore;
use mg_runs::{Merge, Pool, Runs};
use std::alloc::Global;
use std::test::Fail;

/// A writer's refusal as a reader's.
fn refused(refusal: PutErr) -> PartErr {
    match refusal {
        PutErr::Failed => PartErr::Device,
        PutErr::Memory => PartErr::Memory,
    }
}

/// So many occurrences, each of one of so many terms, and so many a document.
struct Sample {
    count: u32,
    terms: u32,
    a_document: u32,
}

/// Takes scattered occurrences with the smallest pool.
fn take<S: Store>(alloc: Global, store: &mut S, sample: &Sample) -> Result<Runs<'static>, PutErr>
    requires count { sample.now.count ≤ 1000000 }
    requires terms { 1 ≤ sample.now.terms }
    requires documents { 1 ≤ sample.now.a_document }
    ensures { IfOk result (λ runs. (fed : List (ℕ × ℕ)) × IsFed runs (S.files store.new) fed) }
{
    let mut runs = Runs::start(alloc, store, "set", Pool::new(alloc, 4096)?)?;
    let mut state = 12345u32;
    for k in 0..sample.count {
        state = state.wrapping_mul(1664525).wrapping_add(1013904223);
        let term = (state >> 16) % sample.terms;
        runs.add(store, term, k / sample.a_document + 1)?;
    }
    Ok(runs)
}

/// How many postings a merge has left, and a checksum of them.
fn sum_up<S: Store>(merge: &mut Merge<'_>, store: &mut S) -> Result<(u32, u32), PartErr>
    requires { (left : List TermPosting) × IsMerging merge.old (S.files store.old) left }
{
    let mut sum = 0u32;
    for count in 0..1_000_000u32 {
        match merge.next(store)? {
            None => return Ok((count, sum)),
            Some(next) => sum = added(added(added(sum, next.term), next.doc), next.count),
        }
    }
    Ok((1_000_000, sum))
}

/// A checksum with one number more.
fn added(sum: u32, number: u32) -> u32 {
    sum.wrapping_mul(31).wrapping_add(number)
}

/// A store that tells none of its files. So many reads are sound; those after it give one-bits alone.
#[derive(Drop)]
struct Spoiled {
    sound: u64,
    held: SureStore,
}

#[tactic(auto, unfolding(mg_dev::specs::Files::written))]
impl Store for Spoiled {
    ghost files = { λ _. None };

    ghost faults = { λ _. 0 };

    ghost reads = { λ s. ⟦<SureStore as Store>⟧.reads s.held };

    fn size(&mut self, file: &FileRef<'_>) -> Result<Option<u64>, Failed> {
        self.held.size(file)
    }

    fn read_at(&mut self, file: &FileRef<'_>, at: u64, buf: &mut [u8]) -> Result<usize, Failed> {
        let read = self.held.read_at(file, at, buf);
        if self.sound == 0 {
            buf.fill(255);
        } else {
            self.sound -= 1;
        }
        read
    }

    fn reset(&mut self, file: &FileRef<'_>) -> Result<(), PutErr> {
        match self.held.reset(file) {
            Ok(()) => Ok(()),
            Err(refusal) => Err(refusal),
        }
    }

    fn append(&mut self, file: &FileRef<'_>, piece: &[u8]) -> Result<(), PutErr> {
        match self.held.append(file, piece) {
            Ok(()) => Ok(()),
            Err(refusal) => Err(refusal),
        }
    }
}

/// The damage of a part at its first code.
fn first_code(part: Part) -> Bad {
    Bad {
        part,
        at: 0,
        low: 1,
        high: 1 << 32,
        found: 0,
    }
}

/// What a merge of a sample tells: its runs, the greatest use of the pool, how many postings there are, and a checksum of them.
fn told<S: Store>(alloc: Global, store: &mut S, sample: &Sample) -> Result<[u64; 4], PartErr>
    requires count { sample.now.count ≤ 1000000 }
    requires terms { 1 ≤ sample.now.terms }
    requires documents { 1 ≤ sample.now.a_document }
{
    let runs = match take(alloc, store, sample) {
        Ok(runs) => runs,
        Err(refusal) => return Err(refused(refusal)),
    };
    let mut merge = match runs.merge(store) {
        Ok(merge) => merge,
        Err(refusal) => return Err(refusal),
    };
    let (count, sum) = sum_up(&mut merge, store)?;
    let (runs, peak) = (merge.runs(), merge.peak());
    Ok([u64::from(runs), peak, u64::from(count), u64::from(sum)])
}

/// 25,000 occurrences of one term in one document.
static JOINED: Sample = Sample {
    count: 25_000,
    terms: 1,
    a_document: 25_000,
};

/// The same, and whether these are the bytes of both working files, of which the second was never read.
fn told_of_joined(alloc: Global, joined: &[u8]) -> Result<([u64; 4], bool), PartErr> {
    let mut store = SureStore::new(alloc);
    let told = told(alloc, &mut store, &JOINED)?;
    let same = store.file("set.mergea") == Some(joined) && store.file("set.mergeb") == Some(b"");
    let read = store.reads_of(Part::MergeA) > 0 && store.reads_of(Part::MergeB) == 0;
    Ok((told, same && read))
}

#[test]
fn runs_are_joined_in_rounds(rt: HostRuntime) -> Result<(), Fail> {
    let joined: &[u8] = b"\x1f\xff\x95\x40\x1f\xfd\x1a\x00";
    let told = told_of_joined(rt.alloc(), joined)?;
    assert!(rt; told == ([74, 4096, 1, 25_031], true));
    Ok(())
}

/// Some 40 occurrences of two terms in each of 563 documents.
static SCATTERED: Sample = Sample {
    count: 22_500,
    terms: 2,
    a_document: 40,
};

/// What a merge tells where so many reads are sound, and how often the runs were read.
fn told_spoiled(alloc: Global, sound: u64) -> (Result<[u64; 4], PartErr>, u64) {
    let held = SureStore::new(alloc);
    let mut store = Spoiled { sound, held };
    let told = told(alloc, &mut store, &SCATTERED);
    (told, store.held.reads_of(Part::Run))
}

#[test]
fn the_first_damage_is_told_of_its_part(rt: HostRuntime) -> Result<(), Fail> {
    let alloc = rt.alloc();
    let (told, of_run) = told_spoiled(alloc, u64::MAX);
    assert!(rt; told == Ok([66, 4096, 1126, 2_811_981_349]));
    for (sound, part) in [(0, Part::Run), (of_run, Part::MergeA)] {
        let (told, _) = told_spoiled(alloc, sound);
        assert!(rt; told == Err(PartErr::Bad(first_code(part))));
    }
    Ok(())
}

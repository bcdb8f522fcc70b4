//! A list that is written anew, into any store.
ghost use Rattle.std.specs.Prelude.{◌≡◌, ◌<◌, ◌≤◌, ◌+◌, ◌^◌, ◌∷◌, List, IfErr, OnOk, length};
ghost use Rattle.mg_dev.specs.Bads.{IsNotBad};
ghost use Rattle.mg_dev.specs.Moments.{Between};
ghost use Rattle.mg_defs.specs.Limits.{version_2};
ghost use Rattle.mg_defs.specs.declared.Posting.{Posting};
ghost use Rattle.mg_defs.specs.Lists.{Rises};
ghost use Rattle.mg_post.specs.Writing.{Pushed, PushedMore, Took, TookPosting};
ghost use Rattle.mg_check_index.specs.Anew.{AreBetween, PutsLists, TookPostings};
ghost use Rattle.mg_check_index.specs.PairCalls.{CanWriteList, WritesList};

use crate::packed_postings::Postings;
use mg_defs::Posting;
use mg_dev::{Bad, Part, PartErr, PutErr, Store};
use mg_post::ListWriter;

// A list is not the one that was counted: so much was found where low to high was to be.
pub(crate) fn other_list(found: u64, low: u64, high: u64) -> Bad
    requires { low ≤ found → high < found }
{
    Bad {
        part: Part::Text,
        at: 0,
        low,
        high,
        found,
    }
}

// Why a writer of lists stopped.
pub(crate) fn refusal_of(refusal: PutErr) -> PartErr
    ensures failed { result ≡ PartErr.Device → refusal ≡ PutErr.Failed }
    ensures never_bad { IsNotBad result }
{
    match refusal {
        PutErr::Failed => PartErr::Device,
        PutErr::Memory => PartErr::Memory,
    }
}

// One posting more of the list that was begun, which is to be of a later document than the last one.
fn write_posting<T: Store>(
    writer: &mut ListWriter<'_>,
    store: &mut T,
    posting: Posting,
    last: u32,
    all: u32,
) -> Result<(), PartErr>
    requires took { (done : List (List Posting)) × (ps : List Posting)
        × Took writer.old (T.files store.old) done ps }
    requires last { writer.old.last ≡ last }
    requires few { last ≤ version_2.documents }
    requires all { writer.old.all ≡ all }
    requires more { writer.old.pushed < writer.old.docs }
    requires total { writer.old.total < 2 ^ 32 }
    ensures took { OnOk result (TookPosting writer.old writer.new (T.files store.old)
        (T.files store.new) posting) }
    ensures pushed { OnOk result (Pushed writer.old writer.new posting.doc) }
    ensures within { OnOk result (posting.doc ≤ all) }
    ensures never_bad { (left : List Posting) → Rises all last (posting ∷ left) →
        IfErr result (λ refusal. IsNotBad refusal) }
    ensures step { Between T.files T.reads T.faults store.old store.new
        (PutsLists writer.old writer.new result) }
{
    let doc = u64::from(posting.doc);
    if posting.doc <= last {
        return Err(PartErr::Bad(other_list(doc, u64::from(last) + 1, u64::MAX)));
    }
    if posting.doc > all {
        return Err(PartErr::Bad(other_list(doc, 0, u64::from(all))));
    }
    if posting.freq == 0 {
        return Err(PartErr::Bad(other_list(0, 1, u64::from(u32::MAX))));
    }
    match writer.push(store, posting.doc, posting.freq) {
        Ok(()) => Ok(()),
        Err(refusal) => Err(refusal_of(refusal)),
    }
}

// All postings of the list that was begun.
fn write_postings<T: Store>(
    writer: &mut ListWriter<'_>,
    store: &mut T,
    postings: &Postings<'_>,
    all: u32,
) -> Result<(), PartErr>
    requires between { AreBetween writer.old (T.files store.old) all }
    requires none { writer.old.pushed ≡ 0 }
    requires last { writer.old.last ≡ 0 }
    requires more { length postings.now ≤ writer.old.docs }
    requires total { writer.old.total + length postings.now ≤ 2 ^ 32 }
    ensures took { OnOk result (TookPostings writer.old writer.new (T.files store.old)
        (T.files store.new) postings.now) }
    ensures pushed { OnOk result (PushedMore writer.old writer.new (length postings.now)) }
    ensures never_bad { Rises all 0 postings.now → IfErr result (λ refusal. IsNotBad refusal) }
    ensures step { Between T.files T.reads T.faults store.old store.new
        (PutsLists writer.old writer.new result) }
{
    let mut last = 0;
    for index in 0..postings.count() {
        let posting = postings.at(index);
        match write_posting(writer, store, posting, last, all) {
            Ok(()) => {}
            Err(refusal) => return Err(refusal),
        }
        last = posting.doc;
    }
    Ok(())
}

/// Writes a whole list of so many postings. Answers the byte where it begins and the number of its first skip entry.
pub(crate) fn write_list<T: Store>(
    writer: &mut ListWriter<'_>,
    store: &mut T,
    postings: &Postings<'_>,
    count: u32,
    all: u32,
) -> Result<(u64, u32), PartErr>
    requires can { CanWriteList writer.old (T.files store.old) count all }
    ensures written { WritesList postings.now count all writer.old writer.new
        (T.files store.old) (T.files store.new) result }
    ensures step { Between T.files T.reads T.faults store.old store.new
        (PutsLists writer.old writer.new result) }
{
    let found = postings.count();
    if found != count as usize {
        let wanted = u64::from(count);
        return Err(PartErr::Bad(other_list(found as u64, wanted, wanted)));
    }
    match writer.begin(store, count) {
        Ok(()) => {}
        Err(_) => return Err(PartErr::Memory),
    }
    match write_postings(writer, store, postings, all) {
        Ok(()) => {}
        Err(refusal) => return Err(refusal),
    }
    match writer.end_list(store) {
        Ok(at) => Ok(at),
        Err(refusal) => Err(refusal_of(refusal)),
    }
}

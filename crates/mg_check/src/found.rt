//! Whether a set of files stands for a collection.
ghost use Rattle.std.specs.Prelude.{◌≡◌, ◌≢◌, ◌≤◌, Err, IfErr, IfOk, IsSome};
ghost use Rattle.mg_dev.specs.Causes.{Rose};
ghost use Rattle.mg_dev.specs.Moments.{Between};
ghost use Rattle.mg_dev.specs.declared.fault.Fault.TheVariants as fault;
ghost use Rattle.mg_layout.specs.Stands.{HasNoHead};
ghost use Rattle.mg_check.specs.Found.{CheckStops, StandsWith, TellsOutside, TellsNotBuilt, IfStands};
ghost use Rattle.mg_check.specs.Reads.{ReadsSet};
ghost use Rattle.mg_check.specs.Checks.{ChecksFiles};

use crate::checking::check_set;
use mg_dev::{Fault, Store};
use mg_layout::Head;
use std::alloc::Global;

/// The collection that a set of files stands for.
#[derive(Clone, Copy, Debug, PartialEq, Eq)]
pub struct Found {
    /// How many documents it has.
    pub documents: u32,
    /// How many bytes it has.
    pub bytes: u64,
}

/// Sees whether the set under a base stands for a collection, and answers how large that is.
///
/// Nothing that the files hold is trusted: the text is decoded and coded anew, and every other part is compared with what
/// it is to be for the collection that was found. No file is changed.
///
/// # Errors
///
/// `NotBuilt` where the head is missing or empty, `Damaged` where there is one and the files stand for no collection,
/// `StoreFault` where the store failed, and `Memory`. Which of several damages is told is not promised.
pub fn check<S: Store>(alloc: Global, store: &mut S, base: &str) -> Result<Found, Fault>
    // Yes: the files stand for a collection of so many documents and bytes.
    ensures stands { IsSome (S.files store.old) →
        IfOk result (λ found. StandsWith (S.files store.old) base.now found.documents found.bytes) }
    // No, and every other refusal, has its cause. A damage is told by a number outside its range.
    ensures cause { IfErr result (CheckStops (Rose (S.faults store.old) (S.faults store.new))
        (S.files store.old) base.now) }
    ensures outside { IfErr result TellsOutside }
    // Where there is no head, that is told, unless the store fails; memory is not wanted there.
    ensures not_built { IsSome (S.files store.old) → HasNoHead (S.files store.old) base.now →
        TellsNotBuilt result }
    ensures early { IsSome (S.files store.old) → HasNoHead (S.files store.old) base.now →
        result ≢ Err fault.Memory }
    // Where the files stand and the store does not fail, the answer is yes, or memory is wanting.
    ensures complete { IfStands (S.files store.old) base.now
        (¬ Rose (S.faults store.old) (S.faults store.new) →
        IfErr result (λ refusal. refusal ≡ fault.Memory)) }
    // No file changes.
    ensures files { S.files store.new ≡ S.files store.old }
    // No part is read but those of a set: not those that a merge of runs works with, and not the plain text.
    ensures unread { ReadsSet (S.reads store.old) (S.reads store.new) }
    ensures later { S.faults store.old ≤ S.faults store.new }
{
    check_files(alloc, store, base)
}

// The same, told by the facts from which its promise follows.
fn check_files<S: Store>(alloc: Global, store: &mut S, base: &str) -> Result<Found, Fault>
    ensures found { Between S.files S.reads S.faults store.old store.new
        (ChecksFiles base.now result) }
{
    let loaded = match Head::load(store, base) {
        Ok(loaded) => loaded,
        Err(refusal) => return Err(Fault::from(refusal)),
    };
    let head = match loaded {
        Some(head) => head,
        None => return Err(Fault::NotBuilt),
    };
    match check_set(alloc, store, base, &head) {
        Ok(()) => Ok(Found {
            documents: head.documents,
            bytes: head.collection,
        }),
        Err(refusal) => Err(Fault::from(refusal)),
    }
}

//! The head of a set, and the sizes of parts that follow from it.
ghost use Rattle.std.specs.Prelude.{◌≡◌, ◌≤◌, IfErr, IfOk, IsSome};
ghost use Rattle.mg_dev.specs.Causes.{Rose};
ghost use Rattle.mg_dev.specs.Files.{SameReads};
ghost use Rattle.mg_dev.specs.PartCauses.{HasPartCause};
ghost use Rattle.mg_dev.specs.Runs.{RefusedFor};
ghost use Rattle.mg_dev.specs.declared.fault.Fault.TheVariants as fault;
ghost use Rattle.mg_defs.specs.Heads.{IsWithin};
ghost use Rattle.mg_layout.specs.HeadAnswers.{fields_of};
ghost use Rattle.mg_layout.specs.Stands.{HasNoHead};
ghost use Rattle.mg_text.specs.Places.{place_width};
ghost use Rattle.mg_decode.specs.Outcomes.{DecodeStops};
ghost use Rattle.mg_migrate.specs.Sizes.{AnswersSizesOf, IsSized, sizes_of};

use mg_dev::{Fault, FileRef, Part, PartErr, Store};
use mg_layout::{Head, expect_size};

// How many bytes a skip entry has.
const ENTRY_BYTES: u64 = 16;

// How many bytes a place has in a version of the files.
fn place_bytes(version: u8) -> u64
    ensures { result ≡ place_width version }
{
    if version == 1 { 4 } else { 8 }
}

// Six parts, each with the size that follows from a head.
fn sizes_of(head: &Head) -> [(Part, u64); 6]
    requires { IsWithin (fields_of head.now) }
    ensures { result ≡ sizes_of (fields_of head.now) }
{
    let documents = u64::from(head.documents);
    [
        (Part::Text, head.text_bytes),
        (Part::Places, place_bytes(head.version) * (documents + 1)),
        (Part::LexAt, 4 * u64::from(head.terms.div_ceil(4))),
        (Part::Post, head.post_bytes),
        (Part::Skip, ENTRY_BYTES * head.skip_count),
        (Part::Weights, 4 * documents),
    ]
}

// Compares the sizes of six parts of a base with those that follow from its head, and reads none. Of those that
// differ it tells the first in the order of the parts.
fn expect_sizes<S: Store>(store: &mut S, base: &str, head: &Head) -> Result<(), PartErr>
    requires within { IsWithin (fields_of head.now) }
    ensures answer { IsSome (S.files store.old) →
        AnswersSizesOf (fields_of head.now) (S.files store.old) base.now result }
    ensures files { S.files store.new ≡ S.files store.old }
    ensures reads { SameReads (S.reads store.old) (S.reads store.new) }
    ensures cause { HasPartCause (S.faults store.old) (S.faults store.new) result }
{
    for (part, wanted) in sizes_of(head) {
        match expect_size(store, FileRef { base, part }, wanted) {
            Ok(()) => {}
            Err(refusal) => return Err(refusal),
        }
    }
    Ok(())
}

/// The head of a set, where six other parts have the sizes that follow from it. No part but the head is read.
pub(crate) fn load_sized<S: Store>(store: &mut S, base: &str) -> Result<Head, Fault>
    ensures within { IfOk result (λ head. IsWithin (fields_of head)) }
    ensures sized { IsSome (S.files store.old) →
        IfOk result (λ head. IsSized (fields_of head) (S.files store.old) base.now) }
    ensures cause { IfErr result (DecodeStops (Rose (S.faults store.old) (S.faults store.new)) ⊥
        (S.files store.old) base.now) }
    ensures not_built { IsSome (S.files store.old) → HasNoHead (S.files store.old) base.now →
        RefusedFor result fault.NotBuilt }
    ensures files { S.files store.new ≡ S.files store.old }
    ensures later { S.faults store.old ≤ S.faults store.new }
{
    let loaded = match Head::load(store, base) {
        Ok(loaded) => loaded,
        Err(refusal) => return Err(Fault::from(refusal)),
    };
    let head = match loaded {
        Some(head) => head,
        None => return Err(Fault::NotBuilt),
    };
    match expect_sizes(store, base, &head) {
        Ok(()) => Ok(head),
        Err(refusal) => Err(Fault::from(refusal)),
    }
}

//! The document that was decoded last, and the pages that it is compared with.
//!
//! Most documents are shorter than a page. So a page of Text and one of Places are kept, and the store is asked once a page
//! and not twice a document.
ghost use Rattle.std.specs.Prelude.{◌≡◌, ◌≤◌, ◌<◌, ◌+◌, ◌^◌, Option, IfErr, IfOk, IsSome, OnOk, length, true};
ghost use Rattle.mg_dev.specs.Causes.{HasCause};
ghost use Rattle.mg_dev.specs.Files.{Files, bytes_at, file_bytes};
ghost use Rattle.mg_dev.specs.Moments.{Between};
ghost use Rattle.mg_dev.specs.declared.part.Part.TheVariants as part;
ghost use Rattle.mg_bits.specs.Pages.{Fits, Looked, SameFile};
ghost use Rattle.mg_layout.specs.Contents.{StandAt};
ghost use Rattle.mg_check_parts.specs.Looks.{LooksAtSet, is_of_set};
ghost use Rattle.mg_check_parts.specs.Refusals.{Refutes};
ghost use Rattle.mg_check_text.specs.Reads.{KeepsPage, KeepsPages};

use crate::set::Set;
use mg_bits::PageFeed;
use mg_check_parts::expect_more;
use mg_dev::{Failed, FileRef, Part, PartErr, Store};
use mg_text::HeldDocument;
use std::alloc::{AllocError, Global};

/// So many bytes are compared with a page that is kept; more of them are read from the store at once.
const SHORT: usize = 256;

/// The document that was decoded last, and a page each of Text and of Places.
#[derive(Drop)]
pub(crate) struct Held<'a, S> {
    pub(crate) document: HeldDocument,
    pub(crate) text: PageFeed<'a, S>,
    pub(crate) places: PageFeed<'a, S>,
}

// A page of a part of a set, which is not read yet.
fn page_of<'a, S: Store>(
    alloc: Global,
    set: &Set<'a>,
    part: Part,
) -> Result<PageFeed<'a, S>, AllocError>
    ensures { IfOk result (λ feed. (files : Option Files) →
        KeepsPage set.now.base.now part files feed) }
{
    PageFeed::new(
        alloc,
        FileRef {
            base: set.base,
            part,
        },
    )
}

impl<'a, S: Store> Held<'a, S> {
    /// No document, and no page.
    pub(crate) fn new(alloc: Global, set: &Set<'a>) -> Result<Self, AllocError>
        ensures { IfOk result (λ held. (files : Option Files) →
            KeepsPages set.now.base.now files held.text held.places) }
    {
        Ok(Held {
            document: HeldDocument::new(alloc, set.head.collection),
            text: page_of(alloc, set, Part::Text)?,
            places: page_of(alloc, set, Part::Places)?,
        })
    }
}

// Whether bytes stand from a place on, by a page that is kept. They are read into a buffer of as many bytes.
fn shows_all<S: Store>(
    store: &mut S,
    feed: &mut PageFeed<'_, S>,
    at: u64,
    wanted: &[u8],
    found: &mut [u8],
) -> Result<bool, Failed>
    requires fits { Fits feed.old (S.files store.old) }
    requires place { at + length found.old < 2 ^ 64 }
    ensures fits { Fits feed.new (S.files store.new) }
    ensures file { SameFile feed.old feed.new }
    ensures stand { IsSome (S.files store.old) → IfOk result (λ shown. shown ≡ true →
        StandAt at wanted.now (bytes_at (S.files store.old) feed.old.name)) }
    ensures looked { Between S.files S.reads S.faults store.old store.new
        (Looked feed.old.part) }
    ensures cause { HasCause (S.faults store.old) (S.faults store.new) result }
{
    match feed.fill(store, at, found) {
        Ok(true) => Ok(&*found == wanted),
        Ok(false) => Ok(false),
        Err(failed) => Err(failed),
    }
}

// Whether few bytes stand from a place on, by a page that is kept; false of many.
fn shows<S: Store>(
    store: &mut S,
    feed: &mut PageFeed<'_, S>,
    at: u64,
    wanted: &[u8],
) -> Result<bool, Failed>
    requires fits { Fits feed.old (S.files store.old) }
    requires place { at ≤ 2 ^ 62 }
    ensures fits { Fits feed.new (S.files store.new) }
    ensures file { SameFile feed.old feed.new }
    ensures stand { IsSome (S.files store.old) → IfOk result (λ shown. shown ≡ true →
        StandAt at wanted.now (bytes_at (S.files store.old) feed.old.name)) }
    ensures looked { Between S.files S.reads S.faults store.old store.new
        (Looked feed.old.part) }
    ensures cause { HasCause (S.faults store.old) (S.faults store.new) result }
{
    let count = wanted.len();
    if count > SHORT {
        return Ok(false);
    }
    let mut found = [0u8; SHORT];
    shows_all(store, feed, at, wanted, &mut found[..count])
}

/// Sees that bytes stand in a part from a place on, and answers the place behind them. Few bytes are compared with the page
/// that is kept.
pub(crate) fn expect_kept<S: Store>(
    store: &mut S,
    feed: &mut PageFeed<'_, S>,
    file: FileRef<'_>,
    at: u64,
    wanted: &[u8],
) -> Result<u64, PartErr>
    requires page { KeepsPage file.base.now file.part (S.files store.old) feed.old }
    requires of_set { is_of_set file.part ≡ true }
    requires place { at ≤ 2 ^ 62 }
    ensures page { KeepsPage file.entry.base.now file.entry.part (S.files store.new) feed.new }
    ensures end { IfOk result (λ end. end ≡ at + length wanted.now) }
    ensures stand { IsSome (S.files store.old) →
        OnOk result (StandAt at wanted.now (file_bytes file.entry (S.files store.old))) }
    ensures other { IsSome (S.files store.old) →
        IfErr result (Refutes (StandAt at wanted.now (file_bytes file.entry (S.files store.old)))) }
    ensures looks { Between S.files S.reads S.faults store.old store.new (LooksAtSet result) }
{
    match shows(store, feed, at, wanted) {
        Ok(true) => Ok(at + wanted.len() as u64),
        Ok(false) => expect_more(store, file, at, wanted),
        Err(_) => Err(PartErr::Device),
    }
}

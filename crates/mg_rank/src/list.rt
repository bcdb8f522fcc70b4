//! What the list of a term adds to the sums.
ghost use Rattle.std.specs.Prelude.{◌≡◌, ℕ, ◌*◌, ◌≤◌, ◌<◌, ◌^◌, Ok, IfErr, IfOk, OnOk, OnErr};
ghost use Rattle.mg_dev.specs.Moments.{Between};
ghost use Rattle.mg_defs.specs.Weights.{weight_of_term, weight_in_doc};
ghost use Rattle.mg_post.specs.Cursor.{CursorFits};
ghost use Rattle.mg_rank.specs.Calls.{AddsBehind, AddsList};
ghost use Rattle.mg_rank.specs.Damages.{HasSome, RefusesTerm};
ghost use Rattle.mg_rank.specs.Sums.{sum_of, with_more};

use crate::sums::Sums;
use mg_defs::Posting;
use mg_dev::{Bad, Part, PartErr, Store};
use mg_fixed::{doc_term_weight, term_weight};
use mg_layout::TermInfo;
use mg_post::{Cursor, cursor_pages_are_within, each_page_is_read_once};
use std::alloc::{AllocError, Global};

/// The weight of a term by how many documents have it. Where the lexicon tells none, or more than
/// there are, its entry of the term is damaged.
fn weight_of_list(info: &TermInfo, all: u32) -> Result<u32, PartErr>
    ensures is { 1 ≤ info.now.docs → info.now.docs ≤ all →
        result ≡ Ok (weight_of_term info.now.docs all) }
    ensures told { IfOk result (λ weight. weight ≡ weight_of_term info.now.docs all) }
    ensures high { IfOk result (λ weight. weight < 2 ^ 14) }
    ensures some { OnOk result (HasSome all info.now) }
    ensures lexicon { IfErr result (RefusesTerm all info.now) }
{
    if info.docs == 0 || all < info.docs {
        return Err(PartErr::Bad(Bad {
            part: Part::Lex,
            at: u64::from(info.number),
            low: 1,
            high: u64::from(all),
            found: u64::from(info.docs),
        }));
    }
    Ok(term_weight(info.docs, all))
}

/// The weight of a term that comes so often in a document.
#[inline]
fn weight_of_count(freq: u32) -> u32
    requires { 1 ≤ freq }
    ensures is { result ≡ weight_in_doc freq }
    ensures high { result < 2 ^ 15 }
{
    // Most documents have a term once or twice, and these logarithms need no digits.
    if freq == 1 {
        return 256;
    }
    if freq == 2 {
        return 512;
    }
    doc_term_weight(freq)
}

/// Adds what a posting of a term of this weight adds to its document.
#[inline]
fn add_posting(sums: &mut Sums, weight: u32, posting: Posting) -> Result<(), AllocError>
    requires small { sum_of posting.doc sums.old ≤ 2 ^ 41 }
    requires high { weight < 2 ^ 14 }
    requires some { 1 ≤ posting.freq }
    ensures added { OnOk result (sums.new ≡ with_more posting.doc
        (weight_in_doc posting.freq * weight) sums.old) }
    ensures err { OnErr result (sums.new ≡ sums.old) }
    ensures few { weight_in_doc posting.freq * weight ≤ 2 ^ 29 }
{
    let more = u64::from(weight_of_count(posting.freq)) * u64::from(weight);
    sums.add(posting.doc, more)
}

/// Adds each posting of the list before which a cursor stands to the sum of its document. Whatever the
/// parts have, it is the whole list: one that ends before its last posting is no answer.
fn add_postings<S: Store>(
    cursor: &mut Cursor<'_, S>,
    store: &mut S,
    weight: u32,
    sums: &mut Sums,
) -> Result<(), PartErr>
    requires fits { CursorFits cursor.old (S.files store.old) }
    requires small { (d : ℕ) → sum_of d sums.old ≤ 2 ^ 40 }
    requires high { weight < 2 ^ 14 }
    ensures { Between S.files S.reads S.faults store.old store.new
        (AddsBehind cursor.old weight sums.old sums.new result) }
{
    cursor_pages_are_within();
    each_page_is_read_once();
    let mut last = 0;
    while last < u32::MAX {
        let posting = match cursor.next_behind(store, last) {
            Ok(Some(posting)) => posting,
            Ok(None) => return Ok(()),
            Err(refusal) => return Err(refusal),
        };
        match add_posting(sums, weight, posting) {
            Ok(()) => {}
            Err(_lack) => return Err(PartErr::Memory),
        }
        last = posting.doc;
    }
    // No set has so many documents.
    Err(PartErr::Bad(Bad {
        part: Part::Post,
        at: 0,
        low: 0,
        high: 4294967294,
        found: u64::from(last),
    }))
}

/// Goes over the list of a term, and adds to the sum of each of its documents.
pub(crate) fn add_list<S: Store>(
    alloc: Global,
    store: &mut S,
    base: &str,
    info: &TermInfo,
    all: u32,
    sums: &mut Sums,
) -> Result<(), PartErr>
    requires small { (d : ℕ) → sum_of d sums.old ≤ 2 ^ 40 }
    ensures { Between S.files S.reads S.faults store.old store.new
        (AddsList base.now info.now all sums.old sums.new result) }
{
    let weight = match weight_of_list(info, all) {
        Ok(weight) => weight,
        Err(refusal) => return Err(refusal),
    };
    // No document stands twice in a list, so at least as many sums are to come.
    match sums.make_room(info.docs) {
        Ok(()) => {}
        Err(_lack) => return Err(PartErr::Memory),
    }
    let mut cursor = match Cursor::start(alloc, base, info, all) {
        Ok(cursor) => cursor,
        Err(_lack) => return Err(PartErr::Memory),
    };
    add_postings(&mut cursor, store, weight, sums)
}

//! Lists and their skip entries into two parts.
ghost use Rattle.std.specs.Prelude.{◌≡◌, ◌+◌, ◌*◌, ◌/◌, ◌<◌, ◌≤◌, ◌^◌, [], List, Ok, OnOk, IfOk};
ghost use Rattle.std.specs.Option.{is_some};
ghost use Rattle.mg_dev.specs.Files.{SameReads};
ghost use Rattle.mg_dev.specs.Names.{full_name};
ghost use Rattle.mg_dev.specs.Causes.{HasPutCause};
ghost use Rattle.mg_dev.specs.declared.part.Part.TheVariants as part;
ghost use Rattle.mg_dev.specs.Moments.{Between};
ghost use Rattle.mg_bits.specs.Writer.{Wrote, KeepsOthers};
ghost use Rattle.mg_defs.specs.declared.Posting.{Posting};
ghost use Rattle.mg_post.specs.Writing.{ListStep, WritesTo, posting_of, Took, SameFiles, Pushed, IsBetween, Finished, InBytes, AreSizesOf, TookPosting, ForTook, with_empty_lists, TookList, WhereTaken, WroteEntry};

use crate::parameter::{Parameter, parameter_of};
use crate::put::{put_entry, put_posting};
use mg_bits::{BitWriter, PageWriter};
use mg_defs::Posting;
use mg_dev::{FileRef, Part, PutErr, Store};
use std::alloc::Global;
use std::marker::Model;

/// Writes the lists of a set into Post and their skip entries into Skip, list by list.
///
/// A list is begun with the number of its postings, on which the parameter of its gaps depends;
/// then so many postings are pushed, and the list is ended. It holds back up to a page of each part
/// and keeps nothing of what was pushed but a few numbers.
#[derive(Drop)]
pub struct ListWriter<'a> {
    post: BitWriter<'a>,
    skip: PageWriter<'a>,
    all: u32,
    docs: u32,
    parameter: Parameter,
    pushed: u64,
    last: u32,
    total: u64,
    start: u64,
    first: u64,
    full: u64,
    block_at: u64,
}

impl<'a> Model for ListWriter<'a> {
    ghost use Rattle.std.specs.Prelude.{◌≡◌, ◌≤◌, ◌<◌, ◌^◌};
    ghost use Rattle.mg_post.specs.Writing.{Listing};

    ghost Value = { Listing };

    ghost view = { λ w. record {
      post = w.post;
      skip = w.skip;
      all = w.all;
      docs = w.docs;
      parameter = w.parameter.value;
      pushed = w.pushed;
      last = w.last;
      total = w.total;
      start = w.start;
      first = w.first;
      full = w.full;
      block_at = w.block_at;
    } };
}

/// Writes the entry of the last block, where it isn't full; answers how many blocks there are.
fn put_last<S: Store>(
    w: &mut PageWriter<'_>,
    store: &mut S,
    pushed: u64,
    full: u64,
    last: u32,
    block_at: u64,
) -> Result<u64, PutErr>
    requires full { 64 * full ≤ pushed }
    ensures some { 64 * full < pushed →
        IfOk result (λ blocks. (blocks ≡ full + 1) × WroteEntry w.old w.new (S.files store.old)
        (S.files store.new) last block_at) }
    ensures none { pushed ≤ 64 * full →
        IfOk result (λ blocks. (blocks ≡ full) × Wrote w.old w.new (S.files store.old)
        (S.files store.new) []) }
    ensures step { Between S.files S.reads S.faults store.old store.new
        (WritesTo w.old.name w.new.name result) }
{
    if pushed > 64 * full {
        put_entry(w, store, last, block_at)?;
        return Ok(full + 1);
    }
    Ok(full)
}

impl<'a> ListWriter<'a> {
    /// A writer of the lists of a set with so many documents, at most 2^24. It empties both parts.
    pub fn start<S: Store>(
        alloc: Global,
        store: &mut S,
        base: &'a str,
        all: u32,
    ) -> Result<Self, PutErr>
        requires all { all ≤ 2 ^ 24 }
        ensures took { IfOk result (λ w. Took w (S.files store.new) [] []) }
        ensures post { IfOk result (λ w. w.post.name ≡ full_name base.entry.now part.Post) }
        ensures skip { IfOk result (λ w. w.skip.name ≡ full_name base.entry.now part.Skip) }
        ensures all { IfOk result (λ w. w.all ≡ all) }
        ensures nothing { IfOk result (λ w. w.total ≡ 0) }
        ensures empty { OnOk result (S.files store.new
            ≡ with_empty_lists base.entry.now (S.files store.old)) }
        ensures others { KeepsOthers (full_name base.entry.now part.Post)
            (full_name base.entry.now part.Skip) (S.files store.old) (S.files store.new) }
        ensures told { is_some (S.files store.new) ≡ is_some (S.files store.old) }
        ensures reads { SameReads (S.reads store.old) (S.reads store.new) }
        ensures cause { HasPutCause (S.faults store.old) (S.faults store.new) result }
    {
        let post_file = FileRef {
            base,
            part: Part::Post,
        };
        let skip_file = FileRef {
            base,
            part: Part::Skip,
        };
        let post = match BitWriter::start(alloc, store, post_file) {
            Ok(writer) => writer,
            Err(refusal) => return Err(refusal),
        };
        let skip = match PageWriter::start(alloc, store, skip_file) {
            Ok(writer) => writer,
            Err(refusal) => return Err(refusal),
        };
        Ok(ListWriter {
            post,
            skip,
            all,
            docs: 1,
            parameter: parameter_of(all, 1),
            pushed: 0,
            last: 0,
            total: 0,
            start: 0,
            first: 0,
            full: 0,
            block_at: 0,
        })
    }

    /// Begins a list of so many postings, from 1 to the number of documents. Nothing is written.
    pub fn begin<S: Store>(&mut self, _store: &mut S, docs: u32) -> Result<(), PutErr>
        requires took { (lists : List (List Posting)) × Took self.old (S.files _store.old) lists
            [] }
        requires some { 1 ≤ docs }
        requires within { docs ≤ self.old.all }
        ensures took { (lists : List (List Posting)) → Took self.old (S.files _store.old) lists [] →
            Took self.new (S.files _store.new) lists [] }
        ensures between { IsBetween self.old self.new docs }
        ensures same { SameFiles self.old self.new }
        ensures sure { result ≡ Ok tt }
        ensures store { _store.new ≡ _store.old }
    {
        self.parameter = parameter_of(self.all, docs);
        self.docs = docs;
        self.pushed = 0;
        self.last = 0;
        self.full = 0;
        self.block_at = 0;
        Ok(())
    }

    /// One posting more of the list that was begun. Documents rise, from 1 to the number of them.
    /// At most 2^32 postings are pushed to one writer, so that the bits stay below 2^63.
    pub fn push<S: Store>(&mut self, store: &mut S, doc: u32, freq: u32) -> Result<(), PutErr>
        requires took { (lists : List (List Posting)) × (ps : List Posting)
            × Took self.old (S.files store.old) lists ps }
        requires more { self.old.pushed < self.old.docs }
        requires total { self.old.total < 2 ^ 32 }
        requires after { self.old.last < doc }
        requires within { doc ≤ self.old.all }
        requires some { 1 ≤ freq }
        ensures took { OnOk result (TookPosting self.old self.new (S.files store.old)
            (S.files store.new) (posting_of doc freq)) }
        ensures pushed { OnOk result (Pushed self.old self.new doc) }
        ensures step { Between S.files S.reads S.faults store.old store.new
            (ListStep self.old self.new result) }
    {
        let posting = Posting { doc, freq };
        put_posting(&mut self.post, store, self.parameter, self.last, posting)?;
        self.last = doc;
        self.pushed += 1;
        self.total += 1;
        if self.pushed % 64 == 0 {
            put_entry(&mut self.skip, store, doc, self.block_at)?;
            self.block_at = self.post.place() - self.start;
            self.full += 1;
        }
        Ok(())
    }

    /// Ends the list that was begun, of which all postings were pushed. Answers the byte of Post
    /// where it begins, and the number of its first skip entry.
    pub fn end_list<S: Store>(&mut self, store: &mut S) -> Result<(u64, u32), PutErr>
        requires took { (lists : List (List Posting)) × (ps : List Posting)
            × Took self.old (S.files store.old) lists ps }
        requires whole { self.old.pushed ≡ self.old.docs }
        ensures took { OnOk result (TookList self.old self.new (S.files store.old)
            (S.files store.new)) }
        ensures answer { IfOk result
            (λ at. ForTook self.old (S.files store.old) (λ lists ps.
            AreSizesOf self.old.all lists at)) }
        ensures between { OnOk result (IsBetween self.old self.new self.old.docs) }
        ensures step { Between S.files S.reads S.faults store.old store.new
            (ListStep self.old self.new result) }
    {
        let blocks = put_last(
            &mut self.skip,
            store,
            self.pushed,
            self.full,
            self.last,
            self.block_at,
        )?;
        self.post.align(store)?;
        let begun = (self.start / 8, self.first as u32);
        self.start = self.post.place();
        self.first += blocks;
        self.pushed = 0;
        self.last = 0;
        self.full = 0;
        self.block_at = 0;
        Ok(begun)
    }

    /// Writes what is held. Then the parts hold the lists and their skip entries. Answers the bytes
    /// of Post and the number of skip entries.
    pub fn finish<S: Store>(&mut self, store: &mut S) -> Result<(u64, u64), PutErr>
        requires took { (lists : List (List Posting)) × Took self.old (S.files store.old) lists [] }
        ensures finished { OnOk result
            (WhereTaken self.old (S.files store.old) (Finished self.old (S.files store.new))) }
        ensures bytes { OnOk result (WhereTaken self.old (S.files store.old)
            (InBytes self.old (S.files store.new))) }
        ensures answer { IfOk result (λ sizes. (lists : List (List Posting)) →
            Took self.old (S.files store.old) lists [] →
            AreSizesOf self.old.all lists sizes) }
        ensures step { Between S.files S.reads S.faults store.old store.new
            (ListStep self.old self.new result) }
    {
        let sizes = (self.start / 8, self.first);
        self.post.finish(store)?;
        self.skip.finish(store)?;
        Ok(sizes)
    }
}

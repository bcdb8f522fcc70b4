//! A cursor over a list.
ghost use Rattle.std.specs.Prelude.{◌≡◌, ◌≢◌, ℕ, ◌+◌, ◌-◌, ◌/◌, ◌<◌, ◌≤◌, ◌^◌, List, [], true, false, Option, Some, None, Ok, Err, IfOk, IfErr, IfSome, OnOk};
ghost use Rattle.mg_dev.specs.Files.{Files};
ghost use Rattle.mg_dev.specs.Moments.{Between};
ghost use Rattle.mg_dev.specs.PartCauses.{HasPartCause};
ghost use Rattle.mg_dev.specs.declared.part.Part.TheVariants as part;
ghost use Rattle.mg_defs.specs.declared.Posting.{Posting};
ghost use Rattle.mg_defs.specs.Codes.{golomb_parameter};
ghost use Rattle.mg_defs.specs.Lists.{block_count, from_doc};
ghost use Rattle.mg_post.specs.Damages.{EntriesStand, HasPostCause, HasSkipCause, NamesPart};
ghost use Rattle.mg_post.specs.Finding.{entries_pages};
ghost use Rattle.mg_post.specs.Cursor.{head_of, after, count_behind, next_doc, post_pages, entered_pages, skip_pages, CursorFits, GoesToNext, SameList, SamePlace, SkipRises, StandsAt, IsFrom, NamesItsPart};
ghost use Rattle.mg_post.specs.CursorSteps.{CursorStep};
ghost use Rattle.mg_post.specs.PagesOnce.{PostReads};
ghost use Rattle.mg_post.specs.Shown.{AnswersShown, StandsShown};
ghost use Rattle.mg_post.specs.TermLists.{AnswersForTerm, ReadsLists, CursorForInfo, TermPages, IsOverInfo, ForTerm, TermOnce};
ghost use Rattle.mg_post.specs.WholeLists.{WalkStep};

use crate::block_reader::{BlockReader, part_reader};
use crate::enter::{ListPlace, list_told};
use crate::find::find_block;
use crate::progress::{Progress, search_from};
use crate::refusal::refused_part;
use mg_bits::{BitReader, PageFeed};
use mg_defs::Posting;
use mg_dev::{Part, PartErr, Store};
use mg_layout::TermInfo;
use std::alloc::{AllocError, Global};
use std::marker::Model;

/// Goes over the postings of a list in rising order of their documents, and skips.
///
/// It keeps a page of Post and one of Skip, and the postings of the block that it entered last.
/// Within a block nothing is read. A call that asks for a document beyond the block reads forward
/// in the skip entries to the block whose range holds the document, and decodes that block alone.
///
/// Contracts see three numbers: the pages of Post that were read, the pages of the blocks that were
/// entered, and the pages of Skip that were read. Of a block whose reading was refused, the second
/// number has the pages that were read. After a refusal the cursor stands where it stood.
///
/// A walk from posting to posting passes none over, whatever the parts have: it ends only behind the
/// last posting of the list's last block. A search far ahead passes blocks by their entries alone; where
/// these rise but are not those of the list, it may pass a posting. Each answer is shown by the parts: a
/// posting stands in a block to which the entries lead, and where none is answered they tell that the
/// list ends before the document.
///
/// A damage is told of one part, with the first bit of what is missing. Where the skip entries are those
/// of the list, none is told of Skip.
///
/// | Part | What does not stand | Bit |
/// |---|---|---|
/// | Skip | an entry of a block that is searched | the first of the number in it that doesn't stand |
/// | Skip | an entry that does not rise above those before it, up to those behind it | its first |
/// | Post | a posting of the block that the entries lead to | the first of its gap, or of its count where the gap stands |
/// | Post | a block that ends with the document that its entry tells | the first of the block |
#[derive(Drop)]
pub struct Cursor<'a, S: Store> {
    list: ListPlace,
    post: BlockReader<'a, S>,
    skip: BitReader<PageFeed<'a, S>>,
    progress: Progress,
}

impl<'a, S: Store> Model for Cursor<'a, S> {
    ghost use Rattle.std.specs.Prelude.{◌≡◌, ◌≤◌, ◌<◌, ◌-◌, ◌^◌, min, true, []};
    ghost use Rattle.mg_dev.specs.declared.part.Part.TheVariants as part;
    ghost use Rattle.mg_defs.specs.Lists.{block_count};
    ghost use Rattle.mg_post.specs.Cursor.{Cursoring, HeldNone, HeldRises};

    ghost Value = { Cursoring };

    ghost view = { λ c. record {
      post = c.post.reader.feed;
      skip = c.skip.feed;
      post_at = c.list.post_at;
      skip_at = c.list.skip_at;
      docs = c.list.docs;
      all = c.list.all;
      parameter = c.list.parameter.value;
      reached = c.progress.reached;
      last = c.progress.last;
      held = c.post.block;
      ended = c.progress.ended;
      entered = c.post.entered;
    } };

    ghost invariant = { λ c. (c.progress.last ≤ c.list.all) × (c.progress.reached ≤ block_count c.list.docs) ×
        (c.post.reader.feed.part ≡ part.Post) × (c.skip.feed.part ≡ part.Skip) × (c.post.entered < 2 ^ 64) ×
        (c.progress.ended ≡ true → c.post.block ≡ []) × HeldRises c.list.all c.progress.last c.post.block ×
        (min c.post.reader.feed.count (2 ^ 64 - 1) ≤ c.post.entered) ×
        HeldNone c.list.docs c.progress.reached c.progress.last c.post.block c.progress.ended × (c.list.docs < 2 ^ 32) };
}

/// The number behind a document's, which may be more than a document can have.
fn number_behind(document: u32) -> u64
    ensures { result ≡ document + 1 }
{
    u64::from(document) + 1
}

impl<'a, S: Store> Cursor<'a, S> {
    /// Stands before the first posting of the list that the lexicon tells of, in a set with so many
    /// documents. Nothing is read.
    pub fn start(
        alloc: Global,
        base: &'a str,
        info: &TermInfo,
        all: u32,
    ) -> Result<Self, AllocError>
        ensures over { IfOk result (λ c. IsOverInfo c base.entry.now info.entry.now all) }
        ensures parameter { IfOk result (λ c. 1 ≤ info.entry.now.docs →
            c.parameter ≡ golomb_parameter all info.entry.now.docs) }
        ensures fits { IfOk result (λ c. (files : Option Files) → CursorFits c files) }
        ensures term { IfOk result (CursorForInfo base.entry.now info.entry.now all) }
        ensures at { IfOk result (λ c. (ps : List Posting) → StandsAt c ps ps) }
        ensures before { IfOk result (λ c. c.held ≡ []) }
        ensures shown { IfOk result (λ c. (files : Option Files) (n : ℕ) → StandsShown c files n) }
        ensures whole { IfOk result (λ c. count_behind c ≡ info.entry.now.docs) }
        ensures once { IfOk result (λ c. (ps : List Posting) → PostReads c ps) }
        ensures nothing { IfOk result
            (λ c. (post_pages c ≡ 0) × (entered_pages c ≡ 0) × (skip_pages c ≡ 0)) }
    {
        let post = match BlockReader::start(alloc, base) {
            Ok(post) => post,
            Err(lack) => return Err(lack),
        };
        match part_reader(alloc, base, Part::Skip) {
            Ok(skip) => Ok(Cursor {
                list: list_told(info, all),
                post,
                skip,
                progress: Progress {
                    reached: 0,
                    last: 0,
                    ended: false,
                },
            }),
            Err(lack) => Err(lack),
        }
    }

    /// The posting that it stands on: none before the first one and after the last.
    pub fn current(&self) -> Option<Posting>
        ensures { result ≡ head_of self.now.held }
    {
        self.post.block.current()
    }

    /// Goes to the first posting, not before the current one, whose document is at least `doc`,
    /// which is at least 1. None where there is none; from then on nothing is read.
    #[inline]
    pub fn advance_to(&mut self, store: &mut S, doc: u32) -> Result<Option<Posting>, PartErr>
        requires fits { CursorFits self.old (S.files store.old) }
        requires some { 1 ≤ doc }
        ensures step { Between S.files S.reads S.faults store.old store.new
            (CursorStep self.old self.new doc doc (from_doc doc) result) }
        // Nothing is read from then on.
        ensures ended { self.old.ended ≡ true →
            (result ≡ Ok None) × (self.new ≡ self.old) × (store.new ≡ store.old) }
        // It never goes back.
        ensures stays { (p : Posting) → head_of self.old.held ≡ Some p → doc ≤ p.doc →
            (result ≡ Ok (Some p)) × SamePlace self.old self.new }
    {
        if self.progress.ended {
            return Ok(None);
        }
        if doc <= self.progress.last {
            self.post.block.forward(doc);
            return Ok(self.post.block.current());
        }
        self.enter_next(store, u64::from(doc))
    }

    /// Goes to the first posting beyond the block whose document is at least `doc`. It stands apart so
    /// that `advance_to` is short within a block.
    #[inline(never)]
    fn enter_next(&mut self, store: &mut S, doc: u64) -> Result<Option<Posting>, PartErr>
        requires fits { CursorFits self.old (S.files store.old) }
        requires on { self.old.ended ≡ false }
        requires beyond { self.old.last < doc }
        ensures { Between S.files S.reads S.faults store.old store.new
            (CursorStep self.old self.new doc doc (from_doc doc) result) }
    {
        let search = search_from(&self.list, &self.progress, doc);
        match find_block(&mut self.skip, store, &search) {
            Err(refusal) => Err(refused_part(refusal, Part::Skip)),
            Ok(None) => {
                self.post.block.clear();
                self.progress.reached = search.blocks;
                self.progress.ended = true;
                Ok(None)
            }
            Ok(Some(found)) => match self.post.enter(store, &self.list, found, doc as u32) {
                Err(refusal) => Err(refused_part(refusal, Part::Post)),
                Ok(inside) => {
                    self.progress.reached = found.block + 1;
                    self.progress.last = found.last;
                    Ok(Some(inside.posting))
                }
            },
        }
    }

    /// Goes to the next posting: the first one before any was asked for. None after the last;
    /// from then on nothing is read.
    #[inline]
    pub fn next(&mut self, store: &mut S) -> Result<Option<Posting>, PartErr>
        requires fits { CursorFits self.old (S.files store.old) }
        ensures step { Between S.files S.reads S.faults store.old store.new
            (CursorStep self.old self.new (next_doc self.old.held) (self.old.last + 1)
            (after self.old.held) result) }
        ensures ended { self.old.ended ≡ true →
            (result ≡ Ok None) × (self.new ≡ self.old) × (store.new ≡ store.old) }
    {
        if self.progress.ended {
            return Ok(None);
        }
        match self.post.block.step() {
            Some(posting) => Ok(Some(posting)),
            None => {
                let last = self.progress.last;
                self.enter_next(store, number_behind(last))
            }
        }
    }

    /// As `advance_to`, of the list of a term of a collection. The collection's documents that are
    /// asked over the cursor's life bound what it reads of Post: each block is read at most once, and
    /// only where its range holds one of them.
    #[inline]
    pub fn ask(&mut self, store: &mut S, doc: u32) -> Result<Option<Posting>, PartErr>
        requires fits { CursorFits self.old (S.files store.old) }
        requires some { 1 ≤ doc }
        ensures fits { OnOk result (CursorFits self.new (S.files store.new)) }
        ensures same { SameList self.old self.new }
        ensures answer { ForTerm doc (S.files store.old) self.old
            (AnswersForTerm result doc self.new) }
        ensures pages { ForTerm doc (S.files store.old) self.old
            (TermPages self.old self.new (S.reads store.old) (S.reads store.new)) }
        ensures once { ForTerm doc (S.files store.old) self.old (TermOnce result self.new) }
        ensures third { skip_pages self.new ≤ entries_pages self.new.skip_at
            (block_count self.new.docs) }
        ensures skips { SkipRises self.old self.new (S.reads store.old) (S.reads store.new) }
        ensures reads { ReadsLists (S.reads store.old) (S.reads store.new) }
        ensures sound { IfOk result (λ found. IfSome found (IsFrom doc self.old.all)) }
        ensures next { doc ≡ next_doc self.old.held →
            IfOk result (GoesToNext self.old self.new) }
        ensures shows { (n : ℕ) → n ≤ doc → StandsShown self.old (S.files store.old) n →
            IfOk result (AnswersShown self.old self.new (S.files store.old) (S.files store.new)
            doc) }
        ensures part { IfErr result NamesItsPart }
        ensures post { (ps left : List Posting) → EntriesStand self.old (S.files store.old) ps →
            StandsAt self.old ps left → IfErr result (NamesPart part.Post) }
        ensures block { IfErr result (HasPostCause self.old (S.files store.old) doc) }
        ensures entry { IfErr result (HasSkipCause self.old (S.files store.old)) }
        ensures files { S.files store.new ≡ S.files store.old }
        ensures memory { result ≢ Err PartErr.Memory }
        ensures cause { HasPartCause (S.faults store.old) (S.faults store.new) result }
    {
        self.advance_to(store, doc)
    }

    /// Goes to the first posting behind a document, where the whole list of a term of a collection is
    /// gone over: `last` is 0 at first, and then the document of the posting that was answered.
    #[inline]
    pub fn next_behind(&mut self, store: &mut S, last: u32) -> Result<Option<Posting>, PartErr>
        requires fits { CursorFits self.old (S.files store.old) }
        requires few { last < 2 ^ 32 - 1 }
        ensures { Between S.files S.reads S.faults store.old store.new
            (WalkStep self.old self.new last result) }
    {
        self.ask(store, last + 1)
    }
}

//! The second pass: text, and runs of occurrences.
//!
//! What it takes was counted before, by another pass over what should be the same bytes. It trusts
//! this in nothing: each document, pair and piece is compared with the plan, and a difference is
//! refused with both numbers. So whatever a store does between the passes, no writer below is handed
//! what it can't take.
ghost use Rattle.std.specs.Prelude.{◌≡◌, ◌≤◌, ◌<◌, ◌*◌, ◌+◌, ◌/◌, ◌-◌, ◌∷◌, ℕ, List, [], length, get_or, IfOk, Some, position, slice_get};
ghost use Rattle.std.specs.Str.{bytes_eq};
ghost use Rattle.mg_dev.specs.Moments.{Between};
ghost use Rattle.mg_defs.specs.Marks.{code_of, piece as piece_mark};
ghost use Rattle.mg_count.specs.DocCounting.{AreDocCounts};
ghost use Rattle.mg_count.specs.Plans.{IsPlan};
ghost use Rattle.mg_dev.specs.declared.fault.Fault.TheVariants.{Changed};
ghost use Rattle.mg_dev.specs.declared.what.What.TheVariants as what_is;
ghost use Rattle.mg_make.specs.Changes.{unknown_of};
ghost use Rattle.mg_make.specs.Second.{HasWritten, IsNext, term_at};
ghost use Rattle.mg_index.specs.Steps.{PutStep};
ghost use Rattle.mg_make.specs.Steps.{PassStep};
ghost use Rattle.mg_make.specs.Written.{OfSecond};

use crate::inverter::Inverter;
use crate::mark_writer::MarkWriter;
use crate::plan_pieces::PlanPieces;
use mg_count::{DocCounts, Plan};
use mg_dev::{Fault, PutErr, Store, What};
use mg_model::{Piece, symbol_and_piece, terms_are_the_dictionary, words_have_terms};
use mg_parse::Stream;
use mg_runs::{Pool, runs_stay};
use mg_text_writer::{TextWriter, pieces_make_documents};
use std::alloc::Global;
use std::marker::Model;

/// Writes documents by the plan of the first pass, and the occurrences of their terms as runs.
#[derive(Drop)]
pub(crate) struct SecondPass<'a> {
    base: &'a str,
    pieces: PlanPieces<'a>,
    text: TextWriter<'a>,
    index: Inverter<'a>,
    doc: u32,
    left: u64,
}

impl<'a> Model for SecondPass<'a> {
    ghost use Rattle.mg_make.specs.Second.{Inversion};

    ghost Value = { Inversion };

    ghost view = { λ s. record { base = s.base.now; plan = s.pieces; text = s.text; index = s.index; doc = s.doc; left = s.left } };
}

impl<'a> SecondPass<'a> {
    /// A pass that has written nothing. It empties the parts of the text and of the runs.
    pub(crate) fn start<S: Store>(
        alloc: Global,
        store: &mut S,
        base: &'a str,
        plan: &'a Plan,
        pool: Pool,
        counts: DocCounts,
    ) -> Result<Self, PutErr>
        requires plan { IsPlan plan.now }
        requires pool { pool ≡ record { entries = []; slots = []; peak = 0; limit = pool.limit } }
        requires counts { AreDocCounts counts (length plan.now.terms.terms) [] }
        ensures written { IfOk result (λ pass. HasWritten pass (S.files store.new) []) }
        ensures base { IfOk result (λ pass. pass.base ≡ base.entry.now) }
        ensures plan { IfOk result (λ pass. pass.plan ≡ plan.entry.now) }
        ensures limit { IfOk result (λ pass. pass.index.runs.pool.limit ≡ pool.limit) }
        ensures step { Between S.files S.reads S.faults store.old store.new
            (PutStep OfSecond base.entry.now result) }
    {
        let text = match TextWriter::start(alloc, store, base) {
            Ok(text) => text,
            Err(refusal) => return Err(refusal),
        };
        let index = match Inverter::start(alloc, store, base, pool, counts) {
            Ok(index) => index,
            Err(refusal) => return Err(refusal),
        };
        Ok(SecondPass {
            base,
            pieces: PlanPieces::new(alloc, plan),
            text,
            index,
            doc: 0,
            left: 0,
        })
    }

    // Writes a piece of the open document, which has more pieces by the plan, and the occurrence of its term where it
    // is a word that is not empty. Refused where the stream has no such piece. This, `put_symbol` and `piece_if`
    // are inlined always: what they answer has room for a fault, and out of line each piece would read it back
    // from memory, behind all that it wrote.
    #[inline(always)]
    fn put_piece<S: Store>(
        &mut self,
        store: &mut S,
        stream: Stream,
        piece: &Piece<'_>,
    ) -> Result<(), Fault>
        requires next { IsNext self.old (S.files store.old) (piece_mark stream piece.now ∷ []) }
        requires more { 0 < self.old.left }
        ensures { Between S.files S.reads S.faults store.old store.new
            (PassStep self.old self.new (piece_mark stream piece.now ∷ []) result) }
    {
        let symbol = match self.pieces.symbol(stream, piece) {
            Some(symbol) => symbol,
            None => return Err(unknown(stream)),
        };
        self.put_symbol(store, stream, symbol, piece)
    }

    // The same of a piece whose symbol is found.
    #[inline(always)]
    fn put_symbol<S: Store>(
        &mut self,
        store: &mut S,
        stream: Stream,
        symbol: u32,
        _piece: &Piece<'_>,
    ) -> Result<(), Fault>
        requires next { IsNext self.old (S.files store.old) (piece_mark stream _piece.now ∷ []) }
        requires more { 0 < self.old.left }
        requires symbol { position (bytes_eq _piece.now) (code_of stream self.old.plan.code).pieces
            ≡ Some symbol }
        ensures { Between S.files S.reads S.faults store.old store.new
            (PassStep self.old self.new (piece_mark stream _piece.now ∷ []) result) }
    {
        // Laws: of the stream whose turn it is, of runs while the text is written, of symbols.
        pieces_make_documents();
        runs_stay();
        symbol_and_piece();
        let plan = self.pieces.plan();
        match self.text.put_piece(store, &plan.model, stream, symbol) {
            Ok(()) => {}
            Err(refusal) => return Err(Fault::of_store(refusal)),
        }
        self.left -= 1;
        let term = match term_of(plan, stream, symbol) {
            Some(term) => term,
            None => return Ok(()),
        };
        match self.index.add(store, term, self.doc) {
            Ok(()) => Ok(()),
            Err(refusal) => Err(Fault::of_store(refusal)),
        }
    }

    // The open document has another number of pairs than was counted: one more where none is left,
    // else fewer.
    fn other_pairs(&self) -> Fault
        requires begun { 1 ≤ self.now.doc }
        requires within { self.now.doc ≤ length self.now.plan.pairs }
        requires left { self.now.left ≤ 2 * get_or self.now.plan.pairs (self.now.doc - 1) 0 }
        ensures one_more { self.now.left ≡ 0 →
            result ≡ Changed what_is.Pairs (get_or self.now.plan.pairs (self.now.doc - 1) 0)
            (get_or self.now.plan.pairs (self.now.doc - 1) 0 + 1) }
        ensures fewer { 0 < self.now.left →
            result ≡ Changed what_is.Pairs (get_or self.now.plan.pairs (self.now.doc - 1) 0)
            (get_or self.now.plan.pairs (self.now.doc - 1) 0 - (self.now.left + 1) / 2) }
    {
        let plan = self.pieces.plan();
        let at = (self.doc - 1) as usize;
        let first = u64::from(plan.pairs[at]);
        let second = if self.left == 0 {
            first + 1
        } else {
            first - self.left.div_ceil(2)
        };
        Fault::Changed {
            what: What::Pairs,
            first,
            second,
        }
    }
}

impl<'a, S: Store> MarkWriter<'a, S> for SecondPass<'a> {
    ghost pass = { λ p. p };

    fn begin_if(&mut self, store: &mut S, begins: bool) -> Result<(), Fault> {
        if !begins {
            return Ok(());
        }
        // A law: what the runs took stays while the text is written.
        runs_stay();
        let plan = self.pieces.plan();
        let at = self.doc as usize;
        if at >= plan.pairs.len() {
            return Err(Fault::Changed {
                what: What::Documents,
                first: plan.pairs.len() as u64,
                second: u64::from(self.doc) + 1,
            });
        }
        let pairs = plan.pairs[at];
        match self.text.begin_doc(store, pairs) {
            Ok(()) => {}
            Err(refusal) => return Err(Fault::of_store(refusal)),
        }
        self.doc += 1;
        self.left = 2 * u64::from(pairs);
        Ok(())
    }

    #[inline(always)]
    fn piece_if(
        &mut self,
        store: &mut S,
        is_met: bool,
        stream: Stream,
        piece: &Piece<'_>,
    ) -> Result<(), Fault> {
        if !is_met {
            return Ok(());
        }
        if self.left == 0 {
            return Err(self.other_pairs());
        }
        self.put_piece(store, stream, piece)
    }

    fn end_if(&mut self, store: &mut S, ends: bool) -> Result<(), Fault> {
        if !ends {
            return Ok(());
        }
        // A law: what the runs took stays while the text is written.
        runs_stay();
        if self.left > 0 {
            return Err(self.other_pairs());
        }
        match self.text.end_doc(store) {
            Ok(()) => Ok(()),
            Err(refusal) => Err(Fault::of_store(refusal)),
        }
    }

    fn end_text(&mut self, store: &mut S) -> Result<u64, Fault> {
        let plan = self.pieces.plan();
        if (self.doc as usize) < plan.pairs.len() {
            return Err(Fault::Changed {
                what: What::Documents,
                first: plan.pairs.len() as u64,
                second: u64::from(self.doc),
            });
        }
        match self.text.finish(store) {
            Ok(size) => Ok(size),
            Err(refusal) => Err(Fault::of_store(refusal)),
        }
    }

    fn into_index(self) -> Inverter<'a> {
        let SecondPass { index, .. } = self;
        index
    }
}

/// A piece that was not counted.
fn unknown(stream: Stream) -> Fault
    ensures { result ≡ unknown_of stream }
{
    let what = match stream {
        Stream::Words => What::Words,
        Stream::Others => What::Others,
    };
    Fault::Changed {
        what,
        first: 0,
        second: 1,
    }
}

/// The number of the term of a symbol's piece; None for the empty word, and for every other.
fn term_of(plan: &Plan, stream: Stream, symbol: u32) -> Option<u32>
    requires plan { IsPlan plan.now }
    requires symbol { symbol < length (code_of stream plan.now.code).pieces }
    ensures term { (piece : List ℕ) → slice_get (code_of stream plan.now.code).pieces symbol
        ≡ Some piece →
        result ≡ term_at stream plan.now.terms.terms piece }
    ensures known { (term : ℕ) → result ≡ Some term → term < length plan.now.terms.terms }
{
    // Laws: the empty word alone has no term, and each word's number stands at its symbol.
    terms_are_the_dictionary();
    words_have_terms();
    match stream {
        Stream::Words => plan.table.term_of(symbol),
        Stream::Others => None,
    }
}

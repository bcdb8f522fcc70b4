//! Terms into a lexicon, in order.
ghost use Rattle.std.specs.Prelude.{◌≡◌, ◌≤◌, ◌<◌, ◌^◌, ◌==◌, ◌||◌, List, length, true};
ghost use Rattle.mg_dev.specs.Moments.{Between};
ghost use Rattle.mg_defs.specs.Front.{is_below};
ghost use Rattle.mg_lex.specs.Terms.{Term};
ghost use Rattle.mg_lex.specs.Writing.{FinishesLexicon, PushesTerm, StartsLexicon, TookTerms, told_term};

use mg_dev::{FileRef, Part, PutErr, Store};
use mg_front::FrontWriter;
use mg_layout::TermInfo;
use std::alloc::Global;
use std::marker::Model;

/// Writes the lexicon of terms that come in the order of their bytes.
///
/// It holds back up to a page of each of its two parts, and writes no other file. Behind a refused
/// call it is of no further use, and nothing is promised of the two parts.
#[derive(Drop)]
pub struct LexWriter<'a> {
    base: &'a str,
    front: FrontWriter<'a>,
}

impl<'a> Model for LexWriter<'a> {
    ghost use Rattle.mg_lex.specs.Writing.{LexWriting};

    ghost Value = { LexWriting };

    ghost view = { λ w. record { base = w.base.now; front = w.front } };
}

impl<'a> LexWriter<'a> {
    /// A writer of a lexicon under this base, to which no term was pushed. Both parts are there and
    /// empty then.
    ///
    /// # Errors
    ///
    /// `Failed` where the store failed; `Memory` where the store or a page that is held back wants it.
    pub fn start<S: Store>(alloc: Global, store: &mut S, base: &'a str) -> Result<Self, PutErr>
        ensures { Between S.files S.reads S.faults store.old store.new
            (StartsLexicon base.entry.now result) }
    {
        let strings = FileRef {
            base,
            part: Part::Lex,
        };
        let places = FileRef {
            base,
            part: Part::LexAt,
        };
        match FrontWriter::start(alloc, store, strings, Some(places), 16) {
            Ok(front) => Ok(LexWriter { base, front }),
            Err(refusal) => Err(refusal),
        }
    }

    /// Writes what stands of one term more, of at most 255 bytes and above the last one. Its
    /// number is the count of those before, and there are at most 2^22 terms.
    ///
    /// # Errors
    ///
    /// The store's: `Failed` where it failed, `Memory` where it wants memory.
    pub fn push<S: Store>(
        &mut self,
        store: &mut S,
        term: &[u8],
        info: &TermInfo,
    ) -> Result<(), PutErr>
        requires took { (ts : List Term) × TookTerms self.old (S.files store.old) ts }
        requires few { self.old.front.count < 2 ^ 22 }
        requires short { length term.now ≤ 255 }
        requires above { (self.old.front.count == 0 || is_below self.old.front.last term.now)
            ≡ true }
        ensures { Between S.files S.reads S.faults store.old store.new
            (PushesTerm self.old self.new (told_term term.now info.now) result) }
    {
        self.front.push(store, term, &info.field())
    }

    /// Writes what is held. Then the parts are the lexicon of the terms that were pushed.
    ///
    /// # Errors
    ///
    /// The store's: `Failed` where it failed, `Memory` where it wants memory.
    pub fn finish<S: Store>(&mut self, store: &mut S) -> Result<(), PutErr>
        requires took { (ts : List Term) × TookTerms self.old (S.files store.old) ts }
        ensures { Between S.files S.reads S.faults store.old store.new
            (FinishesLexicon self.old result) }
    {
        self.front.finish(store)
    }
}

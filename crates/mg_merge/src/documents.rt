//! Documents that are read one after the other, with the bytes that close them.
//!
//! Both passes take whatever reads them: they see no more of it than this trait tells.
ghost use Rattle.std.specs.Prelude.{◌≡◌, ◌<◌, ◌≤◌, ◌+◌, ◌^◌, ℕ, List, IfErr, IfOk, OnErr, OnOk, length};
ghost use Rattle.std.specs.Bool.{OnTrue};
ghost use Rattle.mg_dev.specs.Moments.{Between};
ghost use Rattle.mg_dev.specs.Causes.{Rose};
ghost use Rattle.mg_dev.specs.Faults.{ReadStops};
ghost use Rattle.mg_defs.specs.Heads.{IsWithin};
ghost use Rattle.mg_defs.specs.Split.{documents};
ghost use Rattle.mg_layout.specs.HeadAnswers.{fields_of};
ghost use Rattle.mg_make.specs.Outcomes.{Fails};
ghost use Rattle.mg_text.specs.CountedText.{CountsDocuments};
ghost use Rattle.mg_merge.specs.Looks.{LooksAtTexts};
ghost use Rattle.mg_merge.specs.Merging.{joined_size};
ghost use Rattle.mg_merge.specs.Texts.{AreShort, AreSomeSets, AreTextsOf, ForSetsBy, ForShort, SameTexts, TextsFit, TextsStand, TwoTexts, closed_document};

use mg_dev::{Failed, Fault, Store};
use mg_layout::Head;
use mg_text::PieceCounts;
use std::alloc::Global;

/// The documents of one set, and behind them those of another, each with the byte that closes it.
pub(crate) trait Documents<'a, S: Store> {
    /// What contracts see of them.
    ghost texts: { Self → TwoTexts };

    /// The documents of two sets with these heads, of fewer than 2^32 bytes together.
    fn load(
        alloc: Global,
        store: &mut S,
        first: &'a str,
        second: &'a str,
        heads: &(Head, Head),
    ) -> Result<Self, Fault>
        requires first { IsWithin (fields_of heads.now.0) }
        requires second { IsWithin (fields_of heads.now.1) }
        requires few { joined_size (fields_of heads.now.0) (fields_of heads.now.1) < 2 ^ 32 }
        ensures fits { IfOk result (λ d. TextsFit (texts d) (S.files store.new)) }
        ensures of { IfOk result (λ d. AreTextsOf (texts d) first.entry.now second.entry.now) }
        ensures stands { ForSetsBy heads.now.0 heads.now.1
            (S.files store.old) first.entry.now second.entry.now
            (λ collection. IfOk result (λ d. TextsStand (texts d) (S.files store.new) collection)) }
        ensures looks { Between S.files S.reads S.faults store.old store.new LooksAtTexts }
        ensures refused { IfErr result (ReadStops (Fails S.faults store.old store.new)
            (AreSomeSets heads.now (S.files store.old) first.entry.now second.entry.now)) };

    /// How many documents there are.
    fn documents(&self) -> u32
        ensures { result ≡ (texts self.now).all };

    /// How many bytes all documents have with those that close them, by the heads.
    fn size(&self) -> u64
        ensures { result ≡ (texts self.now).size };

    /// Whether no byte closes the last document.
    fn has_open_end(&self) -> bool
        ensures { result ≡ (texts self.now).open_end };

    /// Whether each piece of the models has bytes of its kind alone. Nothing is promised of it.
    fn have_pieces(&self) -> bool;

    /// The document that was read last, with the byte that closes it.
    fn bytes(&self) -> &[u8]
        ensures { result.now ≡ (texts self.now).held };

    /// Reads a document, from 1 to their number, and closes it; but not the last one of an open end. A document of more
    /// than `most` bytes before the one that closes it is refused as damaged, as soon as one more is met.
    fn read(&mut self, store: &mut S, number: u32, most: u64) -> Result<(), Fault>
        requires fits { TextsFit (texts self.old) (S.files store.old) }
        requires some { 1 ≤ number }
        requires within { number ≤ (texts self.old).all }
        ensures fits { TextsFit (texts self.new) (S.files store.new) }
        ensures same { SameTexts (texts self.old) (texts self.new) }
        ensures held { ForShort (texts self.old) (S.files store.old) number most
            (λ collection. OnOk result ((texts self.new).held
            ≡ closed_document number collection)) }
        ensures short { OnOk result (length (texts self.new).held ≤ most + 1) }
        ensures looks { Between S.files S.reads S.faults store.old store.new LooksAtTexts }
        ensures refused { IfErr result (ReadStops (Rose (S.faults store.old) (S.faults store.new))
            (AreShort (texts self.old) (S.files store.old) number most)) };

    /// Counts the pieces of all documents by their symbols, and how many pairs each document has, behind what was counted
    /// before. False where that does not come to its end, for another cause than a failure of the store: then the counts are
    /// of no use.
    fn count(
        &mut self,
        alloc: Global,
        store: &mut S,
        counts: &mut PieceCounts,
    ) -> Result<bool, Failed>
        requires fits { TextsFit (texts self.old) (S.files store.old) }
        ensures fits { TextsFit (texts self.new) (S.files store.new) }
        ensures same { SameTexts (texts self.old) (texts self.new) }
        ensures counted { (collection : List ℕ) → TextsStand (texts self.old) (S.files store.old)
            collection → IfOk result (λ done. OnTrue done (CountsDocuments (documents collection)
            counts.old counts.new)) }
        ensures looks { Between S.files S.reads S.faults store.old store.new LooksAtTexts }
        ensures failed { OnErr result (Rose (S.faults store.old) (S.faults store.new)) };
}

//! The texts of two sets, whose documents are read one after the other.
ghost use Rattle.std.specs.Prelude.{◌≡◌, ◌≤◌, IfErr, IfOk, OnOk, length};
ghost use Rattle.mg_dev.specs.Moments.{Between};
ghost use Rattle.mg_dev.specs.Bads.{IsNotBad};
ghost use Rattle.mg_dev.specs.Causes.{Rose};
ghost use Rattle.mg_dev.specs.Faults.{ReadStops};
ghost use Rattle.mg_dev.specs.PartCauses.{HasPartCause};
ghost use Rattle.mg_defs.specs.Heads.{IsWithin};
ghost use Rattle.mg_defs.specs.Terms.{document};
ghost use Rattle.mg_layout.specs.HeadAnswers.{fields_of};
ghost use Rattle.mg_layout.specs.Stands.{ForSetBy, IsSetBy};
ghost use Rattle.mg_text.specs.Reading.{IsTextReader, TextFits};
ghost use Rattle.mg_merge.specs.Looks.{LooksAtTexts};
ghost use Rattle.mg_merge.specs.Texts.{AreReaders, AreSomeSets, BothTextsStand, ForShort, LoadsText, SameTexts, TextsFit, WhereSetsStand};

use crate::documents::Documents;
use crate::dropping::without;
use crate::heads::joined_size;
use mg_dev::{Failed, Fault, PartErr, Store};
use mg_layout::Head;
use mg_text::{HeldDocument, PieceCounts, TextReader, count_text, is_closed, texts_stand};
use std::alloc::Global;
use std::marker::Model;

/// The documents of one set, and behind them those of another. One of them is held, with the byte that closes it.
#[derive(Drop)]
pub(crate) struct Texts<'a, S: Store> {
    first: TextReader<'a, S>,
    second: TextReader<'a, S>,
    /// How many documents the first set has, and how many both have.
    ahead: u32,
    all: u32,
    open_end: bool,
    size: u64,
    held: HeldDocument,
}

impl<'a, S: Store> Model for Texts<'a, S> {
    ghost use Rattle.mg_merge.specs.Texts.{TwoTexts};

    ghost Value = { TwoTexts };

    ghost view = { λ t. record { first = t.first; second = t.second; ahead = t.ahead; all = t.all; open_end = t.open_end; size = t.size; held = t.held.bytes.items } };
}

// A reader of the text of a set with this head.
fn load_text<'a, S: Store>(
    alloc: Global,
    store: &mut S,
    base: &'a str,
    head: &Head,
) -> Result<TextReader<'a, S>, Fault>
    requires within { IsWithin (fields_of head.now) }
    ensures fits { IfOk result (λ r. TextFits r (S.files store.new)) }
    ensures reader { IfOk result (λ r. IsTextReader r base.entry.now head.now) }
    ensures stands { ForSetBy head.now (S.files store.old) base.entry.now
        (LoadsText (S.files store.new) result) }
    ensures looks { Between S.files S.reads S.faults store.old store.new LooksAtTexts }
    ensures refused { IfErr result (ReadStops (Rose (S.faults store.old) (S.faults store.new))
        (IsSetBy head.now (S.files store.old) base.entry.now)) }
{
    // By these laws the text of a set that stands can be read.
    texts_stand();
    match TextReader::load(alloc, store, base, head) {
        Ok(reader) => Ok(reader),
        Err(refusal) => Err(Fault::from(refusal)),
    }
}

// Readers of the texts of two sets with these heads.
fn load_both<'a, S: Store>(
    alloc: Global,
    store: &mut S,
    first: &'a str,
    second: &'a str,
    heads: &(Head, Head),
) -> Result<(TextReader<'a, S>, TextReader<'a, S>), Fault>
    requires first { IsWithin (fields_of heads.now.0) }
    requires second { IsWithin (fields_of heads.now.1) }
    ensures readers { IfOk result (λ both. AreReaders both.0 both.1 (S.files store.new)
        first.entry.now second.entry.now heads.now) }
    ensures stand { WhereSetsStand heads.now (S.files store.old) first.entry.now second.entry.now
        (λ a b. IfOk result (λ both. BothTextsStand both.0 both.1 (S.files store.new) a b)) }
    ensures looks { Between S.files S.reads S.faults store.old store.new LooksAtTexts }
    ensures refused { IfErr result (ReadStops (Rose (S.faults store.old) (S.faults store.new))
        (AreSomeSets heads.now (S.files store.old) first.entry.now second.entry.now)) }
{
    let before = match load_text(alloc, store, first, &heads.0) {
        Ok(reader) => reader,
        Err(refusal) => return Err(refusal),
    };
    match load_text(alloc, store, second, &heads.1) {
        Ok(behind) => Ok((before, behind)),
        Err(refusal) => Err(without(before, refusal)),
    }
}

impl<'a, S: Store> Texts<'a, S> {
    // Decodes a document of at most so many bytes, as it is.
    fn decode(&mut self, store: &mut S, number: u32, most: u64) -> Result<(), PartErr>
        requires fits { TextsFit self.old (S.files store.old) }
        requires some { 1 ≤ number }
        requires within { number ≤ self.old.all }
        ensures fits { TextsFit self.new (S.files store.new) }
        ensures same { SameTexts self.old self.new }
        ensures held { ForShort self.old (S.files store.old) number most
            (λ collection. OnOk result (self.new.held ≡ document collection number)) }
        ensures short { OnOk result (length self.new.held ≤ most) }
        ensures never_bad { ForShort self.old (S.files store.old) number most
            (λ _. IfErr result IsNotBad) }
        ensures looks { Between S.files S.reads S.faults store.old store.new LooksAtTexts }
        ensures cause { HasPartCause (S.faults store.old) (S.faults store.new) result }
    {
        self.held.set_most(most);
        if number <= self.ahead {
            return self.held.read(store, &mut self.first, number);
        }
        let behind = number - self.ahead;
        self.held.read(store, &mut self.second, behind)
    }
}

impl<'a, S: Store> Documents<'a, S> for Texts<'a, S> {
    ghost texts = { λ t. t };

    fn load(
        alloc: Global,
        store: &mut S,
        first: &'a str,
        second: &'a str,
        heads: &(Head, Head),
    ) -> Result<Self, Fault> {
        let (before, behind) = match load_both(alloc, store, first, second, heads) {
            Ok(both) => both,
            Err(refusal) => return Err(refusal),
        };
        let size = joined_size(&heads.0, &heads.1);
        Ok(Texts {
            first: before,
            second: behind,
            ahead: heads.0.documents,
            all: heads.0.documents + heads.1.documents,
            open_end: heads.1.open_end,
            size,
            held: HeldDocument::new(alloc, 0),
        })
    }

    fn documents(&self) -> u32 {
        self.all
    }

    fn size(&self) -> u64 {
        self.size
    }

    fn has_open_end(&self) -> bool {
        self.open_end
    }

    fn have_pieces(&self) -> bool {
        self.first.has_pieces() && self.second.has_pieces()
    }

    fn bytes(&self) -> &[u8] {
        self.held.bytes()
    }

    fn read(&mut self, store: &mut S, number: u32, most: u64) -> Result<(), Fault> {
        match self.decode(store, number, most) {
            Ok(()) => {}
            Err(refusal) => return Err(Fault::from(refusal)),
        }
        let closed = is_closed(number, self.all, self.open_end);
        if !closed {
            return Ok(());
        }
        match self.held.close() {
            Ok(()) => {}
            Err(_) => return Err(Fault::Memory),
        }
        Ok(())
    }

    fn count(
        &mut self,
        alloc: Global,
        store: &mut S,
        counts: &mut PieceCounts,
    ) -> Result<bool, Failed> {
        let first = match count_text(alloc, &mut self.first, store, counts) {
            Ok(done) => done,
            Err(failed) => return Err(failed),
        };
        if !first {
            return Ok(false);
        }
        count_text(alloc, &mut self.second, store, counts)
    }
}

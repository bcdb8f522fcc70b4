//! What a lexicon tells of a term.
ghost use Rattle.std.specs.Prelude.{◌≡◌, ◌≢◌, Err, IfErr, IfOk, IsSome, List, ℕ, take};
ghost use Rattle.mg_dev.specs.Files.{SameReads};
ghost use Rattle.mg_dev.specs.Moments.{Between};
ghost use Rattle.mg_dev.specs.PartCauses.{HasPartCause};
ghost use Rattle.mg_dev.specs.declared.part.Part.TheVariants as part;
ghost use Rattle.mg_defs.specs.Lexicon.{info_bytes};
ghost use Rattle.mg_front.specs.Looks.{ReadLooks, looks};
ghost use Rattle.mg_front.specs.Reading.{FrontFits, IsNotBad, LookedAt, SameParts};
ghost use Rattle.mg_layout.specs.Infos.{info_of};
ghost use Rattle.mg_lex.specs.Reading.{AnswersInfo, AnswersTerm, AnswersTermCount, ForEachWithinLimits, WhereLexicon, IsLexiconReader, LexStands};
ghost use Rattle.mg_lex.specs.Stood.{TermTold};
ghost use Rattle.mg_lex.specs.Terms.{FitsField};

use mg_dev::{FileRef, Part, PartErr, Store};
use mg_front::{FrontEntry, FrontReader};
use mg_layout::{Head, TermInfo};
use std::alloc::Global;
use std::marker::Model;

/// A reader of a lexicon.
///
/// It keeps a page of each of its two parts, and needs no memory once it is loaded.
#[derive(Drop)]
pub struct Lex<'a, S> {
    front: FrontReader<'a, S>,
}

impl<'a, S> Model for Lex<'a, S> {
    ghost use Rattle.std.specs.Prelude.{◌≡◌};
    ghost use Rattle.mg_dev.specs.declared.part.Part.TheVariants as part;
    ghost use Rattle.mg_front.specs.Reading.{Fronted};

    ghost Value = { Fronted };

    ghost view = { λ lex. lex.front };

    ghost invariant = { λ lex. (lex.front.width ≡ 16) × (lex.front.strings.part ≡ part.Lex) × (lex.front.places.part ≡ part.LexAt) };
}

impl<'a, S: Store> Lex<'a, S> {
    /// A reader of the lexicon under this base, with as many terms as the head says. It compares
    /// the size of the places with that number before anything is reserved, and reads no part.
    ///
    /// # Errors
    ///
    /// `Bad` where LexAt has another size than 4 bytes for each four terms and for the rest of them;
    /// `Device` where the store failed; `Memory` where a page wants it.
    pub fn load(alloc: Global, store: &mut S, base: &'a str, head: &Head) -> Result<Self, PartErr>
        ensures fits { IfOk result (λ lex. FrontFits lex (S.files store.new)) }
        ensures lex { IfOk result (λ lex. IsLexiconReader base.entry.now head.now.terms lex) }
        ensures answer { IsSome (S.files store.old) →
            AnswersTermCount base.entry.now head.now.terms (S.files store.old) result }
        ensures stands { WhereLexicon base.entry.now (S.files store.old) head.now.terms
            (λ collection. IfOk result (λ r. LexStands r (S.files store.new) collection)) }
        ensures never_bad { WhereLexicon base.entry.now (S.files store.old) head.now.terms
            (λ collection. IfErr result (λ refusal. IsNotBad refusal)) }
        ensures files { S.files store.new ≡ S.files store.old }
        ensures reads { SameReads (S.reads store.old) (S.reads store.new) }
        ensures cause { HasPartCause (S.faults store.old) (S.faults store.new) result }
    {
        let strings = FileRef {
            base,
            part: Part::Lex,
        };
        let places = FileRef {
            base,
            part: Part::LexAt,
        };
        match FrontReader::load(alloc, store, strings, places, 16, head.terms) {
            Ok(front) => Ok(Lex { front }),
            Err(refusal) => Err(refusal),
        }
    }

    /// What stands of a term: its number, how many documents have it, and where its list and its first
    /// skip entry stand. None where no document has it; any bytes may be asked for.
    ///
    /// Of n blocks of four terms it looks at log2(n + 1) of them, rounded up, and at one more. Each
    /// takes at most a page of LexAt and two of Lex. The reader stays of use whatever it answers.
    ///
    /// # Errors
    ///
    /// `Bad` where LexAt lacks a place or Lex has no entry where one is to stand, so only where the
    /// parts are damaged; `Device` where the store failed; never `Memory`.
    pub fn find(&mut self, store: &mut S, term: &[u8]) -> Result<Option<TermInfo>, PartErr>
        requires fits { FrontFits self.old (S.files store.old) }
        ensures fits { FrontFits self.new (S.files store.new) }
        ensures same { SameParts self.old self.new }
        ensures looked { Between S.files S.reads S.faults store.old store.new
            (LookedAt part.Lex part.LexAt) }
        ensures found { (collection : List ℕ) → LexStands self.old (S.files store.old) collection →
            AnswersTerm result collection term.now }
        ensures info { ForEachWithinLimits (λ collection.
            LexStands self.old (S.files store.old) collection →
            AnswersInfo result collection term.now) }
        // Whatever the parts hold, the entry of the term stands, or those around it do.
        ensures stood { IsSome (S.files store.old) →
            IfOk result (TermTold self.old (S.files store.old) term.now) }
        ensures reads { ReadLooks part.Lex part.LexAt (S.reads store.old) (S.reads store.new)
            (looks self.old.count) }
        ensures memory { result ≢ Err PartErr.Memory }
        ensures cause { HasPartCause (S.faults store.old) (S.faults store.new) result }
    {
        let mut entry = FrontEntry::new();
        let number = match self.front.find(store, term, &mut entry) {
            Ok(Some(number)) => number,
            Ok(None) => return Ok(None),
            Err(refusal) => return Err(refusal),
        };
        Ok(Some(told_by(number, &entry)))
    }
}

// What an entry of this number tells of its term.
fn told_by(number: u32, entry: &FrontEntry) -> TermInfo
    ensures number { result.number ≡ number }
    ensures field { info_bytes (info_of result) ≡ take 16 entry.now.field }
    ensures fits { FitsField (info_of result) }
{
    let mut field = [0u8; 16];
    field.copy_from_slice(&entry.field[..16]);
    TermInfo::of_field(number, &field)
}

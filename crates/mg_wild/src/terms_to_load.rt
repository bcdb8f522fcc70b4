//! The terms of a lexicon before they are loaded: whether they can be held, and what loads them.
ghost use Rattle.std.specs.Prelude.{◌≡◌, ◌≢◌, ◌≤◌, ◌+◌, ◌^◌, ℕ, List, IfOk, IsSome, Err};
ghost use Rattle.mg_defs.specs.Rotations.{most_rotations};
ghost use Rattle.mg_dev.specs.Files.{SameReads, bytes_at};
ghost use Rattle.mg_dev.specs.Moments.{Between};
ghost use Rattle.mg_dev.specs.Names.{full_name};
ghost use Rattle.mg_dev.specs.declared.bad.Bad.{Bad as AnyBad};
ghost use Rattle.mg_dev.specs.declared.part.Part.TheVariants as part;
ghost use Rattle.mg_dev.specs.declared.part_err.PartErr.TheVariants as part_err;
ghost use Rattle.mg_lex.specs.Reading.{ForEachWithinLimits, IsLexicon};
ghost use Rattle.mg_wild.specs.Loading.{AnswersMost, AnswersTermsWithin, AreWithin, CountsNoneTooMany, HasTermsOf, IsNotDamage, IsOfLexicon, IsToLoad, LexRead, PartRead, TellsOf};

use crate::reading::{read_terms, total_size};
use crate::rotated::Rotated;
use mg_dev::{FileRef, Part, PartErr, Store};
use mg_layout::Head;
use mg_lex::fields_tell;
use std::alloc::Global;
use std::marker::Model;

/// The most rotations that are held.
const MOST_ROTATIONS: u64 = 1 << 27;

/// The most terms that cannot have more rotations: a term of 255 bytes has 256.
const FEW_TERMS: u32 = 1 << 19;

/// Why the terms of a lexicon cannot be held.
#[derive(Clone, Copy, Debug, PartialEq, Eq)]
pub enum RotErr {
    Part(PartErr),
    /// There are more than 2^27 rotations.
    TooMany { count: u64 },
}

/// The terms of a lexicon, which have no more rotations than can be held, before they are loaded.
///
/// Contracts see the base, how many terms there are, and how many bytes they have together at the most.
#[derive(Drop)]
pub struct TermsToLoad<'a> {
    base: &'a str,
    count: u32,
    most: u32,
}

impl<'a> Model for TermsToLoad<'a> {
    ghost use Rattle.std.specs.Prelude.{◌≤◌, ◌+◌};
    ghost use Rattle.mg_defs.specs.Rotations.{most_rotations};
    ghost use Rattle.mg_wild.specs.Loading.{LexToLoad};

    ghost Value = { LexToLoad };

    ghost view = { λ t. record { base = t.base.now; count = t.count; most = t.most } };

    ghost invariant = { λ t. t.most + t.count ≤ most_rotations };
}

/// How many bytes the strings of a lexicon's entries have together at the most. Where so many entries
/// cannot have too many rotations, it is as many as the longest strings have, and nothing is read; else
/// the bytes are counted.
fn most_bytes<S: Store>(
    alloc: Global,
    store: &mut S,
    file: FileRef<'_>,
    count: u32,
) -> Result<u32, RotErr>
    ensures answer { IsSome (S.files store.old) →
        AnswersMost (λ most. most)
        (bytes_at (S.files store.old) (full_name file.entry.base.now file.entry.part)) count result }
    ensures few { IfOk result (λ most. most + count ≤ most_rotations) }
    ensures unread { count ≤ 2 ^ 19 → SameReads (S.reads store.old) (S.reads store.new) }
    ensures read { Between S.files S.reads S.faults store.old store.new
        (LexRead file.entry.part result) }
{
    if count <= FEW_TERMS {
        return Ok(255 * count);
    }
    let size = match total_size(alloc, store, file, count) {
        Ok(size) => size,
        Err(refusal) => return Err(RotErr::Part(refusal)),
    };
    let rotations = size + u64::from(count);
    if rotations > MOST_ROTATIONS {
        return Err(RotErr::TooMany { count: rotations });
    }
    Ok(size as u32)
}

impl<'a> TermsToLoad<'a> {
    /// The terms of the lexicon under a base, as many as the head says, unless they have more rotations
    /// than can be held. Up to 2^19 terms cannot have more, and nothing is read. Where there are more
    /// terms, the lexicon's entries are read once to count the rotations, and none is kept.
    ///
    /// # Errors
    ///
    /// More than 2^27 rotations, which are told before room for anything is taken; where they are
    /// counted, entries that are no front coding of so many terms, and a failing device.
    pub fn of<S: Store>(
        alloc: Global,
        store: &mut S,
        base: &'a str,
        head: &Head,
    ) -> Result<TermsToLoad<'a>, RotErr>
        ensures terms { IfOk result (IsToLoad base.entry.now head.now.terms) }
        ensures answer { IsSome (S.files store.old) →
            AnswersMost (λ t. t.most)
            (bytes_at (S.files store.old) (full_name base.entry.now part.Lex)) head.now.terms result }
        ensures exact { IsSome (S.files store.old) → IfOk result (λ t.
            CountsNoneTooMany (bytes_at (S.files store.old) (full_name base.entry.now part.Lex))
            head.now.terms) }
        ensures never_bad { (collection : List ℕ) (bad : AnyBad) →
            IsLexicon base.entry.now (S.files store.old) head.now.terms collection →
            IsNotDamage result bad }
        ensures unread { head.now.terms ≤ 2 ^ 19 →
            SameReads (S.reads store.old) (S.reads store.new) }
        ensures read { Between S.files S.reads S.faults store.old store.new (LexRead part.Lex result) }
    {
        let file = FileRef {
            base,
            part: Part::Lex,
        };
        match most_bytes(alloc, store, file, head.terms) {
            Ok(most) => Ok(TermsToLoad {
                base,
                count: head.terms,
                most,
            }),
            Err(refusal) => Err(refusal),
        }
    }

    /// Loads the terms. The lexicon's entries are read once.
    ///
    /// # Errors
    ///
    /// Entries that are no front coding of so many terms, or that have more bytes than were told; a
    /// failing device, and want of memory.
    pub fn load<S: Store>(&self, alloc: Global, store: &mut S) -> Result<Rotated, PartErr>
        ensures answer { IsSome (S.files store.old) →
            AnswersTermsWithin (λ r. r)
            (bytes_at (S.files store.old) (full_name self.now.base part.Lex))
            self.now.count self.now.most result }
        ensures terms { (collection : List ℕ) →
            IsOfLexicon self.now (S.files store.old) collection →
            IfOk result (λ r. HasTermsOf r collection) }
        ensures infos { ForEachWithinLimits (λ collection.
            IsOfLexicon self.now (S.files store.old) collection →
            IfOk result (λ r. TellsOf r collection)) }
        ensures never_bad { (collection : List ℕ) (bad : AnyBad) →
            IsOfLexicon self.now (S.files store.old) collection →
            AreWithin (bytes_at (S.files store.old) (full_name self.now.base part.Lex))
            self.now.count self.now.most →
            result ≢ Err (part_err.Bad bad) }
        ensures read { Between S.files S.reads S.faults store.old store.new
            (PartRead part.Lex result) }
    {
        fields_tell();
        let file = FileRef {
            base: self.base,
            part: Part::Lex,
        };
        match read_terms(alloc, store, file, self.count, self.most) {
            Ok(terms) => Ok(Rotated::of(terms)),
            Err(refusal) => Err(refusal),
        }
    }
}

//! What the documents of a text amount to: how many have each term, their weights, and the runs of their occurrences.
ghost use Rattle.std.specs.Prelude.{◌≡◌, ◌+◌, ◌≤◌, ◌<◌, ◌^◌, ℕ, List, [], length, All, IfOk, IsSome, Option, OnOk};
ghost use Rattle.mg_dev.specs.Files.{Files};
ghost use Rattle.mg_dev.specs.Names.{full_name};
ghost use Rattle.mg_dev.specs.Moments.{Between};
ghost use Rattle.mg_dev.specs.declared.part.Part.TheVariants as part;
ghost use Rattle.mg_runs.specs.Fed.{cap_of};
ghost use Rattle.mg_check_index.specs.Counting.{CanAdd, ComparesPart, HasTallied, NoneGoesOn, NotTallied, SameParts, one_more_each, TalliedNext, AreTallied};
ghost use Rattle.mg_check_parts.specs.TermsRead.{IsCounted};
ghost use Rattle.mg_defs.specs.Limits.{least_cap, greatest_cap};

use crate::run_part::RunPart;
use crate::weights::Weights;
use mg_check_parts::{DocTerms, weight_of};
use mg_dev::{Bad, Part, PartErr, Store};
use mg_laws::few_of_each;
use std::alloc::{AllocError, Global};
use std::marker::Model;

/// No collection has more occurrences: it has no more than bytes.
const MOST_OCCURRENCES: u64 = (1 << 32) - 1;

/// What documents amount to, of which the weights and the runs are compared with their parts as they come.
#[derive(Drop)]
pub struct Tally<'a> {
    docs: Vec<u32>,
    weights: Weights<'a>,
    runs: RunPart<'a>,
    occurrences: u64,
}

impl<'a> Model for Tally<'a> {
    ghost use Rattle.mg_check_index.specs.Counting.{Tallying};

    ghost Value = { Tallying };

    ghost view = { λ t. record { docs = t.docs.items; weights = t.weights; runs = t.runs; occurrences = t.occurrences } };
}

// Counts a document more for each of its terms.
fn count_terms(docs: &mut [u32], counted: &[(u32, u32)])
    requires terms { All (IsCounted (length docs.old)) counted.now }
    ensures { docs.new ≡ one_more_each counted.now docs.old }
{
    for term in counted {
        let number = term.0 as usize;
        docs[number] = docs[number].saturating_add(1);
    }
}

// So many occurrences are more than a collection has.
fn too_many(found: u64) -> Bad
    requires { 2 ^ 32 ≤ found }
{
    Bad {
        part: Part::Text,
        at: 0,
        low: 0,
        high: MOST_OCCURRENCES,
        found,
    }
}

impl<'a> Tally<'a> {
    /// No document. There are so many terms, and runs of so many occurrences.
    pub fn new(alloc: Global, base: &'a str, terms: u32, cap: u32) -> Result<Self, AllocError>
        requires least { least_cap ≤ cap }
        requires most { cap ≤ greatest_cap }
        ensures tallied { IfOk result (λ t. (files : Option Files) (words : List (List ℕ)) →
            length words ≡ terms → HasTallied t files words []) }
        ensures weights { IfOk result (λ t. t.weights.part.name
            ≡ full_name base.entry.now part.Weights) }
        ensures run { IfOk result (λ t. t.runs.part.name ≡ full_name base.entry.now part.Run) }
        ensures cap { IfOk result (λ t. cap_of t.runs.pool ≡ cap) }
    {
        let docs = vec![in alloc; 0; terms as usize]?;
        let runs = RunPart::new(alloc, base, cap)?;
        Ok(Tally {
            docs,
            weights: Weights::new(alloc, base),
            runs,
            occurrences: 0,
        })
    }

    /// Takes one document more, of this number, by its terms.
    pub fn add<S: Store>(
        &mut self,
        store: &mut S,
        number: u32,
        terms: &DocTerms,
    ) -> Result<(), PartErr>
        requires can { CanAdd self.old (S.files store.old) number terms.now }
        ensures tallied { Between S.files S.reads S.faults store.old store.new
            (ComparesPart (OnOk result
            (TalliedNext S.files store.old store.new self.old self.new number terms.now))
            (NoneGoesOn self.old (S.files store.old) number terms.now) result) }
        ensures same { SameParts self.old self.new }
    {
        // By this law there are no more occurrences than bytes.
        few_of_each();
        let found = self.occurrences + terms.numbers().len() as u64;
        if found > MOST_OCCURRENCES {
            return Err(PartErr::Bad(too_many(found)));
        }
        match self.weights.push(store, weight_of(terms.counted())) {
            Ok(()) => {}
            Err(refusal) => return Err(refusal),
        }
        match self.runs.push_all(store, terms.numbers(), number) {
            Ok(()) => {}
            Err(refusal) => return Err(refusal),
        }
        count_terms(&mut self.docs, terms.counted());
        self.occurrences = found;
        Ok(())
    }

    /// Compares what is left of both parts, and refuses more bytes.
    pub fn finish<S: Store>(&mut self, store: &mut S) -> Result<(), PartErr>
        requires tallied { (words docs : List (List ℕ)) × (length docs < 2 ^ 32)
            × HasTallied self.old (S.files store.old) words docs }
        ensures ended { Between S.files S.reads S.faults store.old store.new
            (ComparesPart
            (IsSome (S.files store.old) → OnOk result (AreTallied self.old (S.files store.old)))
            (NotTallied self.old (S.files store.old)) result) }
        ensures docs { self.new.docs ≡ self.old.docs }
        ensures occurrences { self.new.occurrences ≡ self.old.occurrences }
    {
        match self.weights.finish(store) {
            Ok(()) => {}
            Err(refusal) => return Err(refusal),
        }
        match self.runs.finish(store) {
            Ok(()) => {}
            Err(refusal) => return Err(refusal),
        }
        Ok(())
    }

    /// How many documents have each term.
    pub fn docs(self) -> Vec<u32>
        ensures { result.items ≡ self.entry.docs }
    {
        self.docs
    }

    /// How many occurrences there were.
    pub fn occurrences(&self) -> u64
        ensures { result ≡ self.now.occurrences }
    {
        self.occurrences
    }
}

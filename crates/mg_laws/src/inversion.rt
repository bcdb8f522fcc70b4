//! Laws of the inverted collection as a whole.
ghost use Rattle.std.specs.Prelude.{◌≡◌, ◌<◌, ◌≤◌, ◌+◌, ◌^◌, ◌++◌, ℕ, List, length, map};
ghost use Rattle.mg_defs.specs.declared.Posting.{Posting};
ghost use Rattle.mg_defs.specs.Fixed.{isqrt};
ghost use Rattle.mg_defs.specs.PostingLists.{by_terms};
ghost use Rattle.mg_defs.specs.Lists.{inverted};
ghost use Rattle.mg_defs.specs.Occurrences.{occurrences};
ghost use Rattle.mg_defs.specs.Postings as runs;
ghost use Rattle.mg_defs.specs.Split.{documents};
ghost use Rattle.mg_defs.specs.Squares.{squares, squares_to};
ghost use Rattle.mg_defs.specs.Weights.{weight};

/// The postings of all occurrences are the lists of the terms in a row, each with its term's number.
pub fn postings_are_lists()
    ensures { (collection : List ℕ) → runs.term_postings (occurrences collection)
        ≡ by_terms 0 (inverted collection) }
{}

/// The root of the sum of a document's squared weights, over all lists, is the document's weight.
pub fn squares_weigh()
    ensures { (collection : List ℕ) →
        map isqrt (squares_to (length (documents collection)) (inverted collection))
        ≡ map weight (documents collection) }
{}

/// A document's squared weights add up list by list, and never to more than 64 bits hold.
pub fn squares_fit()
    ensures most { (collection : List ℕ) (doc : ℕ) → length collection < 2 ^ 32 →
        squares doc (inverted collection) ≤ 2 ^ 61 }
    ensures parts { (doc : ℕ) (a b : List (List Posting)) →
        squares doc (a ++ b) ≡ squares doc a + squares doc b }
{}

//! Laws of how many documents have a term, and of the ranges of terms, lists and occurrences.
ghost use Rattle.std.specs.Prelude.{◌≡◌, ◌≤◌, ◌+◌, ◌==◌, ◌++◌, if◌then◌else◌, ℕ, List, [], ◌∷◌, length, map, get_or, sum, All};
ghost use Rattle.std.specs.List.{AllByRecursion};
ghost use Rattle.mg_defs.specs.DocCounts.{NeverFall, docs_with, last_with};
ghost use Rattle.mg_defs.specs.Lists.{inverted};
ghost use Rattle.mg_defs.specs.Marks.{Mark, starts, terms_from};
ghost use Rattle.mg_defs.specs.Occurrences.{occurrences};
ghost use Rattle.mg_defs.specs.Split.{documents};
ghost use Rattle.mg_defs.specs.Terms.{dictionary};
ghost use Rattle.mg_defs.specs.Vocabulary.{sorted_pieces};
ghost use Rattle.mg_defs.specs.declared.Stream.TheVariants.{Words};
ghost use Rattle.mg_laws.specs.Words.{IsOccurrenceIn, WhereNext, docs_added};

/// By all occurrences a term has as many documents as its list has postings. In reading order one
/// occurrence more adds a document exactly where the term's last document is another.
pub fn documents_are_counted()
    ensures all { (collection : List ℕ) (term : ℕ) →
        docs_with term (occurrences collection) ≡ length (get_or (inverted collection) term []) }
    ensures more { (term : ℕ) (fed : List (ℕ × ℕ)) (o : ℕ × ℕ) →
        WhereNext fed o (docs_with term (fed ++ o ∷ []) ≡ docs_with term fed
        + docs_added term fed o) }
    ensures last { (term doc : ℕ) (fed : List (ℕ × ℕ)) (o : ℕ × ℕ) →
        last_with term doc (fed ++ o ∷ []) ≡ (if o.0 == term then o.1 else last_with term doc fed) }
    ensures low { (term doc : ℕ) (fed : List (ℕ × ℕ)) → NeverFall 0 fed doc →
        last_with term 0 fed ≤ doc }
    ensures order { (terms : List (List ℕ)) (doc : ℕ) (met : List Mark) →
        NeverFall doc (terms_from terms doc met) (doc + starts met) }
{}

/// An occurrence is that of a term of the dictionary, in a document of the collection.
pub fn occurrences_in_range()
    ensures { (collection : List ℕ) →
        AllByRecursion (IsOccurrenceIn collection) (occurrences collection) }
{}

/// Terms have at most 255 bytes and are no more than the distinct words; a list is no longer than there
/// are documents, and all together are no longer than there are occurrences.
pub fn lists_are_short()
    ensures terms { (collection : List ℕ) →
        All (λ (t : List ℕ). length t ≤ 255) (dictionary collection) }
    ensures words { (collection : List ℕ) → length (dictionary collection)
        ≤ length (sorted_pieces Words collection) }
    ensures each { (collection : List ℕ) →
        All (λ (n : ℕ). n ≤ length (documents collection)) (map length (inverted collection)) }
    ensures all { (collection : List ℕ) → sum (map length (inverted collection))
        ≤ length (occurrences collection) }
{}

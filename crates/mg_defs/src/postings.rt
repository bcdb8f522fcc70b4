//! Laws of occurrences and postings.
ghost use Rattle.std.specs.Prelude.{◌≡◌, ◌≤◌, ◌++◌, ℕ, List, map};
ghost use Rattle.mg_defs.specs.Postings.{ArePostings, merged_two, merged, once, term_postings};
ghost use Rattle.mg_defs.specs.Runs.{runs_of};
ghost use Rattle.mg_defs.specs.declared.TermPosting.{TermPosting};

/// The postings of occurrences are the one rising list that says how often each term stands in
/// each document.
pub fn one_list_of_postings()
    ensures is { (s : List (ℕ × ℕ)) → ArePostings (map once s) (term_postings s) }
    ensures only { (s : List (ℕ × ℕ)) (found : List TermPosting) → ArePostings (map once s) found →
        found ≡ term_postings s }
{}

/// The postings of two lists of occurrences, one after the other, are the postings of both merged,
/// with the counts added at the same term and document.
pub fn postings_of_joined()
    ensures { (s u : List (ℕ × ℕ)) → term_postings (s ++ u)
        ≡ merged_two (term_postings s) (term_postings u) }
{}

/// All runs merged are the postings of all occurrences, however many occurrences go to a run.
pub fn merged_runs()
    ensures { (cap : ℕ) (s : List (ℕ × ℕ)) → 1 ≤ cap → merged (runs_of cap s) ≡ term_postings s }
{}

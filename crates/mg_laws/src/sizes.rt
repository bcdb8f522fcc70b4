//! Laws of how large a collection's numbers are.
ghost use Rattle.std.specs.Prelude.{◌≡◌, ◌<◌, ◌≤◌, ◌+◌, ◌-◌, ◌*◌, ◌/◌, ◌^◌, ℕ, List, length, sum, sum_by};
ghost use Rattle.std.specs.Int.{div_ceil};
ghost use Rattle.mg_defs.specs.CodedText.{IsTextCode, TextCode, text_part};
ghost use Rattle.mg_defs.specs.Heads.{run_count};
ghost use Rattle.mg_defs.specs.WithinLimits.{IsWithinLimits};
ghost use Rattle.mg_defs.specs.Lists.{inverted, lists_entries, post_bits};
ghost use Rattle.mg_defs.specs.Marks.{pair_counts};
ghost use Rattle.mg_defs.specs.Occurrences.{occurrences};
ghost use Rattle.mg_defs.specs.Runs.{runs_of};
ghost use Rattle.mg_defs.specs.Split.{documents};
ghost use Rattle.mg_defs.specs.Terms.{all_terms, dictionary};
ghost use Rattle.mg_defs.specs.Weights.{weight};
ghost use Rattle.mg_defs.specs.declared.Posting.{Posting};
ghost use Rattle.mg_laws.specs.Words.{HasShortText, WhereCodedWithin, text_room};

/// There are no more occurrences than bytes, and no more terms, postings or skip entries than
/// occurrences; no more pairs than bytes.
pub fn few_of_each()
    ensures occurrences { (collection : List ℕ) → length (occurrences collection)
        ≤ length collection }
    ensures all { (collection : List ℕ) → length (occurrences collection)
        ≡ length (all_terms collection) }
    ensures terms { (collection : List ℕ) → length (dictionary collection)
        ≤ length (occurrences collection) }
    ensures postings { (collection : List ℕ) →
        sum_by (λ (ps : List Posting). length ps) (inverted collection)
        ≤ length (occurrences collection) }
    ensures entries { (collection : List ℕ) →
        length (lists_entries (length (documents collection)) (inverted collection))
        ≤ length (occurrences collection) }
    ensures pairs { (collection : List ℕ) → sum (pair_counts collection) ≤ length collection }
{}

/// Lists take at most so many bits for each occurrence, and the text at most so many bytes for each
/// byte and each document.
pub fn parts_are_small()
    ensures post { (collection : List ℕ) →
        length (post_bits collection) ≤ length (occurrences collection)
        * (length (documents collection) + 199) }
    ensures text { (code : TextCode) (collection : List ℕ) → IsTextCode collection code →
        length (text_part code collection) ≤ text_room collection }
    ensures post_places { (version : ℕ) (collection : List ℕ) → IsWithinLimits version collection →
        length (post_bits collection) < 2 ^ 57 }
    ensures text_places { (version : ℕ) (code : TextCode) (collection : List ℕ) →
        WhereCodedWithin version code collection (HasShortText code collection) }
{}

/// A document's weight fits in four bytes.
pub fn weights_fit()
    ensures { (doc : List ℕ) → weight doc < 2 ^ 32 }
{}

/// Rounded up by either form, a quotient is the same; and there are so many runs.
pub fn runs_in_one_form()
    ensures count { (cap : ℕ) (s : List (ℕ × ℕ)) → 1 ≤ cap →
        length (runs_of cap s) ≡ run_count (length s) cap }
    ensures form { (n cap : ℕ) → 1 ≤ cap → (n + cap - 1) / cap ≡ div_ceil n cap }
{}

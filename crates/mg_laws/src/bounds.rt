//! What the bounds on the pages of a query line come to.
ghost use Rattle.std.specs.Prelude.{◌≡◌, ◌+◌, ℕ, List, []};
ghost use Rattle.mg_defs.specs.PageBounds.{all_numbers, boolean_bound, leading, list_pages, pages_for};
ghost use Rattle.mg_defs.specs.Sat.{Query, term};
ghost use Rattle.mg_laws.specs.Words.{ForTwoTerms, IsAsRare, IsRarer, IsSmall, bound_of_both, pages_of_each, pages_shared};

/// The leader's own list counts whole, since each block of a list holds a document of it; where
/// nothing leads, every list does. So a single word counts its list; of a conjunction of two words
/// the rarer counts its list, the first where they are as rare, and the other the blocks whose range
/// holds a document of that; and a query that no word leads counts a list for each place of a term.
pub fn bounds_in_words()
    ensures own { (collection t : List ℕ) → IsSmall collection →
        list_pages collection t ≡ pages_shared collection t t }
    ensures any { (collection t : List ℕ) → IsSmall collection →
        list_pages collection t ≡ pages_for collection (all_numbers collection) t }
    ensures word { (collection t : List ℕ) → IsSmall collection →
        boolean_bound collection (term t) ≡ list_pages collection t }
    ensures first { ForTwoTerms (λ collection s t. IsAsRare collection s t →
        bound_of_both collection s t ≡ list_pages collection s + pages_shared collection s t) }
    ensures second { ForTwoTerms (λ collection s t. IsRarer collection t s →
        bound_of_both collection s t ≡ pages_shared collection t s + list_pages collection t) }
    ensures unled { (collection : List ℕ) (q : Query) → IsSmall collection → leading q ≡ [] →
        boolean_bound collection q ≡ pages_of_each collection q }
{}

//! Laws of query lines.
ghost use Rattle.std.specs.Prelude.{◌≡◌, ◌+◌, ◌↔◌, ◌⊎◌, ℕ, false, List, [], ◌∷◌, ◌++◌, Some};
ghost use Rattle.std.specs.List.{IsDistinct};
ghost use Rattle.std.specs.Str.{bytes_eq};
ghost use Rattle.mg_defs.specs.declared.Stream.TheVariants.{Words};
ghost use Rattle.mg_defs.specs.Parse.{is_word_byte, EndsBefore};
ghost use Rattle.mg_defs.specs.Tokens.{Token, PlacedToken, tokens_from, word_and_rest, onto_sign, sign_of};
ghost use Rattle.mg_defs.specs.Grammar.{BeginsQuery, ReadsAs};
ghost use Rattle.mg_defs.specs.Sat.{Query};
ghost use Rattle.mg_defs.specs.Patterns.{AreWordBytes};
ghost use Rattle.mg_defs.specs.Walk.{Spot, walk, start_spot};
ghost use Rattle.mg_defs.specs.Read.{boolean, ranked};
ghost use Rattle.mg_defs.specs.Refusals.{Refusal, reads, refused};
ghost use Rattle.mg_defs.specs.FirstRefusal.{OneCause};
ghost use Rattle.mg_defs.specs.BooleanLines.{AreAllowed, IsRefusedAfter, IsAccepted, IsRefusal};
ghost use Rattle.mg_defs.specs.RankedLines.{IsTermRefusedAfter, IsTermList, IsTermRefusal};

/// The tokens of a line are its longest runs of word bytes and its signs, from the front.
pub fn token_runs()
    ensures none { (at : ℕ) → tokens_from at [] ≡ [] }
    ensures run { (at b : ℕ) (w rest : List ℕ) → AreWordBytes (b ∷ w) → EndsBefore Words rest →
        tokens_from at (b ∷ (w ++ rest)) ≡ word_and_rest at (b ∷ w) rest }
    ensures other { (at b : ℕ) (rest : List ℕ) → is_word_byte b ≡ false →
        tokens_from at (b ∷ rest) ≡ onto_sign at (sign_of b) (tokens_from (at + 1) rest) }
{}

/// Tokens begin a query exactly where the walk over them goes on.
pub fn walk_decides()
    ensures goes_on { (ts : List Token) → BeginsQuery ts →
        (s : Spot) × (walk start_spot ts ≡ Some s) }
    ensures begins { (ts : List Token) (s : Spot) → walk start_spot ts ≡ Some s → BeginsQuery ts }
{}

/// A token list reads as at most one query.
pub fn one_query()
    ensures { (ts : List Token) (p q : Query) → ReadsAs ts p → ReadsAs ts q → p ≡ q }
{}

/// Where none of the tokens before it is refused, a token meets at most one cause.
pub fn one_cause()
    ensures boolean { (before : List PlacedToken) (t : PlacedToken) (why other : Refusal) →
        AreAllowed before → OneCause IsRefusedAfter before t why other }
    ensures ranked { (before : List PlacedToken) (t : PlacedToken) (why other : Refusal) →
        OneCause IsTermRefusedAfter before t why other }
{}

/// A line has one query or one refusal, and not both.
pub fn one_reading()
    ensures some { (line : List ℕ) → ((q : Query) × IsAccepted line q)
        ⊎ ((why : Refusal) × IsRefusal line why) }
    ensures not_both { (line : List ℕ) (q : Query) (why : Refusal) → IsAccepted line q →
        IsRefusal line why → ⊥ }
    ensures query { (line : List ℕ) (p q : Query) → IsAccepted line p → IsAccepted line q → p ≡ q }
    ensures refusal { (line : List ℕ) (why other : Refusal) → IsRefusal line why →
        IsRefusal line other → why ≡ other }
{}

/// The computed reading of a Boolean line is the one that the grammar gives.
pub fn boolean_is()
    ensures accepted { (line : List ℕ) (q : Query) → (boolean line ≡ reads q) ↔ IsAccepted line q }
    ensures refused { (line : List ℕ) (why : Refusal) → (boolean line ≡ refused why)
        ↔ IsRefusal line why }
{}

/// A ranked line has one list of terms or one refusal, and not both. No term of the list stands there twice.
pub fn one_term_list()
    ensures some { (line : List ℕ) → ((terms : List (List ℕ)) × IsTermList line terms)
        ⊎ ((why : Refusal) × IsTermRefusal line why) }
    ensures not_both { (line : List ℕ) (terms : List (List ℕ)) (why : Refusal) →
        IsTermList line terms → IsTermRefusal line why → ⊥ }
    ensures terms { (line : List ℕ) (terms other : List (List ℕ)) → IsTermList line terms →
        IsTermList line other → terms ≡ other }
    ensures refusal { (line : List ℕ) (why other : Refusal) → IsTermRefusal line why →
        IsTermRefusal line other → why ≡ other }
    ensures apart { (line : List ℕ) (terms : List (List ℕ)) → IsTermList line terms →
        IsDistinct bytes_eq terms }
{}

/// The computed reading of a ranked line is that of its tokens.
pub fn ranked_is()
    ensures accepted { (line : List ℕ) (terms : List (List ℕ)) →
        (ranked line ≡ reads terms) ↔ IsTermList line terms }
    ensures refused { (line : List ℕ) (why : Refusal) → (ranked line ≡ refused why)
        ↔ IsTermRefusal line why }
{}

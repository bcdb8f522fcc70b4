//! Laws of the logarithm, the root and the order of a ranked answer.
ghost use Rattle.std.specs.Prelude.{◌≡◌, ℕ, List, length, sum_by, ◌+◌, ◌*◌, ◌^◌, ◌<◌, ◌≤◌};
ghost use Rattle.mg_defs.specs.Fixed.{lg, isqrt, IsRoot};
ghost use Rattle.mg_defs.specs.Weights.{AreHits, Hit, hits, hits_over, score, score_over, sorted_hits, wd, weight};
ghost use Rattle.mg_defs.specs.Terms.{terms, sorted_distinct};
ghost use Rattle.mg_defs.specs.Order.{AreSorted};
ghost use Rattle.std.specs.List.{IsDistinct};
ghost use Rattle.std.specs.Str.{bytes_eq};

/// What the logarithm keeps of one: it rises, and a number twice as large has 256 more.
pub fn logarithm_rises()
    ensures rises { (x y : ℕ) → 1 ≤ x → x ≤ y → y < 2 ^ 64 → lg x ≤ lg y }
    ensures doubles { (x : ℕ) → 1 ≤ x → 2 * x < 2 ^ 64 → lg (2 * x) ≡ lg x + 256 }
{}

/// The computed root is the one root.
pub fn one_root()
    ensures is { (s : ℕ) → s < 2 ^ 64 → IsRoot s (isqrt s) }
    ensures only { (s a b : ℕ) → IsRoot s a → IsRoot s b → a ≡ b }
{}

/// A document's weight is the root of the sum of the squared weights of its distinct terms.
pub fn weight_is_root()
    ensures { (doc : List ℕ) → length doc ≤ 2 ^ 32 →
        IsRoot (sum_by (λ t. wd doc t * wd doc t) (sorted_distinct (terms doc))) (weight doc) }
{}

/// Over distinct terms, a score takes the list of them as it stands.
pub fn terms_count_once()
    ensures score { (collection doc : List ℕ) (ts : List (List ℕ)) → IsDistinct bytes_eq ts →
        score collection ts doc ≡ score_over collection ts doc }
    ensures hits { (collection : List ℕ) (ts : List (List ℕ)) → IsDistinct bytes_eq ts →
        hits collection ts ≡ hits_over collection ts }
{}

/// The documents with a term of a query have one order by falling score and, at a tie, by rising
/// number, and it is the computed one.
pub fn one_ranking()
    ensures sorted { (collection : List ℕ) (query : List (List ℕ)) →
        AreSorted (sorted_hits collection query) }
    ensures permutes { (collection : List ℕ) (query : List (List ℕ)) →
        AreHits collection query (sorted_hits collection query) }
    ensures only { (collection : List ℕ) (query : List (List ℕ)) (hs : List Hit) → AreSorted hs →
        AreHits collection query hs →
        hs ≡ sorted_hits collection query }
{}

//! Laws of what is met in a collection.
ghost use Rattle.std.specs.Prelude.{◌≡◌, ◌<◌, ◌+◌, ℕ, Bool, false, List, [], ◌++◌, length, map};
ghost use Rattle.mg_defs.specs.Bits.{Bits};
ghost use Rattle.mg_defs.specs.CodedText.{TextCode, coded_doc};
ghost use Rattle.mg_defs.specs.Limits.{Limits};
ghost use Rattle.mg_defs.specs.WithinLimits.{IsWithinLimits};
ghost use Rattle.mg_defs.specs.Marks.{AreWithinLimits, Mark, PassesFirst, start, stop, marks, starts, pieces_among, pairs_from, piece_count_from, pair_counts, open_at, is_open_after, coded_from, open_from, terms_from};
ghost use Rattle.mg_defs.specs.Occurrences.{occurrences};
ghost use Rattle.mg_defs.specs.Split.{documents};
ghost use Rattle.mg_defs.specs.Terms.{dictionary};
ghost use Rattle.mg_defs.specs.Vocabulary.{all_pieces};
ghost use Rattle.mg_defs.specs.declared.Stream.{Stream};
ghost use Rattle.mg_laws.specs.Words.{HasFewBytes, HasFewMarks, HasTooMany, WherePiecePasses, coded_both, coded_marks, open_both, terms_of_both};

/// The marks of a collection have its documents, its pieces, the pairs of each document, its text and
/// its occurrences; and no document is left open.
pub fn marks_have_all()
    ensures documents { (collection : List ℕ) → starts (marks collection)
        ≡ length (documents collection) }
    ensures pieces { (kind : Stream) (collection : List ℕ) →
        pieces_among kind (marks collection) ≡ all_pieces kind collection }
    ensures pairs { (collection : List ℕ) → pairs_from 0 (marks collection)
        ≡ pair_counts collection }
    ensures text { (code : TextCode) (collection : List ℕ) →
        coded_marks code collection ≡ map (coded_doc code) (documents collection) }
    ensures occurrences { (collection : List ℕ) →
        terms_from (dictionary collection) 0 (marks collection) ≡ occurrences collection }
    ensures closed { (collection : List ℕ) → is_open_after (marks collection) ≡ false }
    ensures nothing { (code : TextCode) (pairs collection : List ℕ) →
        open_from code pairs [] (marks collection) ≡ [] }
{}

/// What more marks add.
pub fn marks_add_up()
    ensures documents { (a b : List Mark) → starts (a ++ b) ≡ starts a + starts b }
    ensures pieces { (kind : Stream) (a b : List Mark) →
        pieces_among kind (a ++ b) ≡ pieces_among kind a ++ pieces_among kind b }
    ensures pairs { (n : ℕ) (a b : List Mark) →
        pairs_from n (a ++ b) ≡ pairs_from n a ++ pairs_from (piece_count_from n a) b }
    ensures last { (n : ℕ) (a b : List Mark) → piece_count_from n (a ++ b)
        ≡ piece_count_from (piece_count_from n a) b }
    ensures is_open { (now : Bool) (a b : List Mark) → open_at now (a ++ b)
        ≡ open_at (open_at now a) b }
    ensures text { (code : TextCode) (pairs : List ℕ) (bits : Bits) (a b : List Mark) →
        coded_from code pairs bits (a ++ b) ≡ coded_both code pairs bits a b }
    ensures bits { (code : TextCode) (pairs : List ℕ) (bits : Bits) (a b : List Mark) →
        open_from code pairs bits (a ++ b) ≡ open_both code pairs bits a b }
    ensures occurrences { (terms : List (List ℕ)) (doc : ℕ) (a b : List Mark) →
        terms_from terms doc (a ++ b) ≡ terms_of_both terms doc a b }
{}

/// The first mark with which a limit is passed is one, and stands exactly where the whole goes beyond a
/// limit: the start of a document where there are too many, or a piece where its stream has too many.
pub fn one_first_mark()
    ensures front { (most : Limits) (a b : List Mark) → AreWithinLimits most (a ++ b) →
        AreWithinLimits most a }
    ensures only { (most : Limits) (collection : List ℕ) (x y : Mark) →
        PassesFirst most collection x → PassesFirst most collection y → x ≡ y }
    ensures beyond { (most : Limits) (collection : List ℕ) (x : Mark) →
        PassesFirst most collection x → AreWithinLimits most (marks collection) → ⊥ }
    ensures some { (most : Limits) (collection : List ℕ) →
        (AreWithinLimits most (marks collection) → ⊥) →
        (mark : Mark) × PassesFirst most collection mark }
    ensures never { (most : Limits) (collection : List ℕ) → PassesFirst most collection stop → ⊥ }
    ensures documents { (most : Limits) (collection : List ℕ) →
        PassesFirst most collection start → most.documents < length (documents collection) }
    ensures pieces { (most : Limits) (collection : List ℕ) (kind : Stream) →
        WherePiecePasses kind most collection (HasTooMany kind most collection) }
{}

/// All marks are within the limits exactly where the collection is, but for its bytes.
pub fn limits_of_marks()
    ensures within { (version : ℕ) (collection : List ℕ) →
        IsWithinLimits version collection → HasFewMarks version collection }
    ensures back { (version : ℕ) (collection : List ℕ) → HasFewBytes version collection →
        HasFewMarks version collection → IsWithinLimits version collection }
{}

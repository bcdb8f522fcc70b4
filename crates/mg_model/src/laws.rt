//! Laws of symbols, of models of a collection and of its terms.
ghost use Rattle.std.specs.Prelude.{◌≡◌, ◌≢◌, ◌≤◌, Contains, ◌↔◌, ◌^◌, ℕ, List, [], length, None};
ghost use Rattle.mg_defs.specs.CodedText.{IsCodeOf, StreamCode};
ghost use Rattle.mg_defs.specs.Sorted.{number_of, sorted_distinct};
ghost use Rattle.mg_defs.specs.Terms.{dictionary, terms_of_words};
ghost use Rattle.mg_defs.specs.Vocabulary.{sorted_of, sorted_pieces};
ghost use Rattle.mg_defs.specs.declared.Stream.{Stream};
ghost use Rattle.mg_defs.specs.declared.Stream.TheVariants.{Words};
ghost use Rattle.mg_defs.specs.Means.{IsStreamCode};
ghost use Rattle.mg_defs.specs.Marks.{term_in};
ghost use Rattle.mg_model.specs.Terms.{HasNumberAt, HasSymbol, HasTerm, IsPieceAt, terms_and_numbers};
ghost use Rattle.mg_model.specs.Vocabularies.{IsVocabulary};

/// The piece of a symbol has that symbol, and the symbol of a piece has that piece.
pub fn symbol_and_piece()
    ensures symbol { (it : StreamCode) (symbol : ℕ) (piece : List ℕ) → IsStreamCode it →
        IsPieceAt it.pieces symbol piece → HasSymbol it.pieces piece symbol }
    ensures piece { (it : StreamCode) (symbol : ℕ) (piece : List ℕ) →
        HasSymbol it.pieces piece symbol → IsPieceAt it.pieces symbol piece }
    ensures number { (it : StreamCode) (symbol : ℕ) (piece : List ℕ) →
        HasSymbol it.pieces piece symbol → number_of it.pieces piece ≡ symbol }
{}

/// The code of a collection's stream is that of a model where it has at most 2^22 pieces.
pub fn codes_are_models()
    ensures { (kind : Stream) (collection : List ℕ) (it : StreamCode) →
        IsCodeOf kind collection it → length it.pieces ≤ 2 ^ 22 →
        IsStreamCode it }
{}

/// Sorting the pieces of a vocabulary takes none of them away.
pub fn vocabularies_sort()
    ensures { (entries : List (List ℕ × ℕ)) → IsVocabulary entries →
        length (sorted_of entries) ≡ length entries }
{}

/// The terms of a collection's words are its dictionary; only the empty word has no term.
pub fn terms_are_the_dictionary()
    ensures terms { (collection : List ℕ) →
        (terms_and_numbers (sorted_pieces Words collection)).terms ≡ dictionary collection }
    ensures none { (terms : List (List ℕ)) (word : List ℕ) →
        (term_in terms word ≡ None) ↔ (word ≡ []) }
{}

/// A word that is not empty has a term among the terms of words that it is one of: the number of its
/// term is below their count, and the term of that number is the word, folded. Each word's number
/// stands at its symbol.
pub fn words_have_terms()
    ensures word { (words : List (List ℕ)) (word : List ℕ) → Contains words word → word ≢ [] →
        HasTerm (sorted_distinct (terms_of_words words)) word }
    ensures symbol { (words : List (List ℕ)) (symbol : ℕ) (word : List ℕ) →
        IsPieceAt words symbol word → word ≢ [] →
        HasTerm (terms_and_numbers words).terms word }
    ensures number { (words : List (List ℕ)) (symbol : ℕ) (word : List ℕ) →
        IsPieceAt words symbol word → HasNumberAt (terms_and_numbers words) symbol word }
{}

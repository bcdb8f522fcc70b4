//! Laws of collections, documents, pieces and terms.
ghost use Rattle.std.specs.Prelude.{◌≡◌, ◌≢◌, ℕ, ◌+◌, ◌*◌, ◌<◌, ◌≤◌, ◌↔◌, Bool, IsTrue, if◌then◌else◌, List, [], ◌∷◌, ◌++◌, length, get_or, map, Contains, All};
ghost use Rattle.std.specs.List.{IsDistinct};
ghost use Rattle.std.specs.Str.{bytes_eq};
ghost use Rattle.mg_defs.specs.Bits.{Bits, bits_of, filled, to_byte, as_bytes};
ghost use Rattle.mg_defs.specs.CodedText.{IsTextCode, StandsInText, TextCode, coded_bits, place_after, place_at, places, text_part};
ghost use Rattle.mg_defs.specs.Parse.{Pair, IsParse, parse};
ghost use Rattle.mg_defs.specs.Sat.{Query, Sat, satisfies};
ghost use Rattle.mg_defs.specs.Sorted.{IsSortedDistinct, sorted_distinct};
ghost use Rattle.mg_defs.specs.Split.{IsSplit, document_count, documents, has_open_end, closed_count, closed_documents, open_part};
ghost use Rattle.mg_defs.specs.TextBits.{most_text_bytes, text_bits};
ghost use Rattle.mg_defs.specs.Terms.{all_terms, dictionary, term_count, term_number, terms_of_words};
ghost use Rattle.mg_defs.specs.Vocabulary.{all_pieces, count_in, counted, counts_of, entry_count, has_piece};
ghost use Rattle.mg_defs.specs.Vocabulary.{piece_counts, sorted_of, sorted_pieces, total, vocabulary};
ghost use Rattle.mg_defs.specs.declared.Stream.{Stream};
ghost use Rattle.mg_defs.specs.declared.Stream.TheVariants.{Words};

/// A collection has one split, and it is the computed one.
pub fn one_split()
    ensures is { (bytes : List ℕ) → IsSplit bytes (documents bytes) (has_open_end bytes) }
    ensures only { (bytes : List ℕ) (docs : List (List ℕ)) (ending : Bool) →
        IsSplit bytes docs ending →
        (docs ≡ documents bytes) × (ending ≡ has_open_end bytes) }
{}

/// The documents are the closed ones, and where the end is open one more that is not empty.
pub fn closed_and_open()
    ensures whole { (bytes : List ℕ) →
        documents bytes ≡ closed_documents bytes
        ++ (if has_open_end bytes then open_part bytes ∷ [] else []) }
    ensures end { (bytes : List ℕ) → IsTrue (has_open_end bytes) ↔ (0 < length (open_part bytes)) }
    ensures count { (bytes : List ℕ) → length (closed_documents bytes) ≡ closed_count bytes }
{}

/// What one byte more does: a control-B closes the open part, and any other byte joins it.
pub fn one_byte_more()
    ensures closes { (bytes : List ℕ) →
        closed_documents (bytes ++ 2 ∷ []) ≡ closed_documents bytes ++ open_part bytes ∷ [] }
    ensures begins { (bytes : List ℕ) → open_part (bytes ++ 2 ∷ []) ≡ [] }
    ensures stays { (bytes : List ℕ) (b : ℕ) → b ≢ 2 →
        closed_documents (bytes ++ b ∷ []) ≡ closed_documents bytes }
    ensures grows { (bytes : List ℕ) (b : ℕ) → b ≢ 2 →
        open_part (bytes ++ b ∷ []) ≡ open_part bytes ++ b ∷ [] }
{}

/// A document has one list of pairs, and it is the computed one.
pub fn one_parse()
    ensures is { (doc : List ℕ) → IsParse doc (parse doc) }
    ensures only { (doc : List ℕ) (pairs : List Pair) → IsParse doc pairs → pairs ≡ parse doc }
{}

/// Strings have one list in which they rise, each once, and it is the computed one.
pub fn one_order()
    ensures is { (strings : List (List ℕ)) → IsSortedDistinct strings (sorted_distinct strings) }
    ensures only { (strings sorted : List (List ℕ)) → IsSortedDistinct strings sorted →
        sorted ≡ sorted_distinct strings }
{}

/// The dictionary rises strictly and has exactly the terms, and it is that of the distinct words alone.
/// Words have no more distinct terms than there are words.
pub fn one_dictionary()
    ensures is { (collection : List ℕ) →
        IsSortedDistinct (all_terms collection) (dictionary collection) }
    ensures words { (collection : List ℕ) →
        dictionary collection ≡ sorted_distinct (terms_of_words (sorted_pieces Words collection)) }
    ensures no_more { (words : List (List ℕ)) →
        length (sorted_distinct (terms_of_words words)) ≤ length words }
{}

/// A term has the number of its place in the dictionary, and every number is that of one term.
pub fn terms_have_numbers()
    ensures within { (collection t : List ℕ) → Contains (all_terms collection) t →
        term_number collection t < term_count collection }
    ensures place { (collection t : List ℕ) → Contains (all_terms collection) t →
        get_or (dictionary collection) (term_number collection t) t ≡ t }
    ensures back { (collection : List ℕ) (k : ℕ) (d : List ℕ) → k < term_count collection →
        term_number collection (get_or (dictionary collection) k d) ≡ k }
    ensures none { (collection t : List ℕ) → (Contains (all_terms collection) t → ⊥) →
        term_number collection t ≡ term_count collection }
{}

/// The test of a query answers true exactly where the document satisfies it.
pub fn test_decides()
    ensures { (q : Query) (doc : List ℕ) → IsTrue (satisfies q doc) ↔ Sat q doc }
{}

/// A vocabulary grows by one piece at a time, and has as many entries as there are distinct pieces; each
/// count is at least 1, and together they are the number of all pieces.
pub fn vocabulary_grows()
    ensures piece { (pieces : List (List ℕ)) (piece : List ℕ) →
        vocabulary (pieces ++ piece ∷ []) ≡ counted piece (vocabulary pieces) }
    ensures length { (pieces : List (List ℕ)) →
        length (vocabulary pieces) ≡ length (sorted_distinct pieces) }
    ensures total { (pieces : List (List ℕ)) → total (vocabulary pieces) ≡ length pieces }
    ensures counts { (pieces : List (List ℕ)) →
        All (λ (e : List ℕ × ℕ). 1 ≤ e.1) (vocabulary pieces) }
{}

/// A vocabulary has exactly the pieces that came, each in one entry, and the count of a piece in it is how
/// often the piece came. Its pieces sorted are all pieces sorted, each once, and its counts are how often
/// each of these came.
pub fn vocabulary_has_each_once()
    ensures distinct { (pieces : List (List ℕ)) →
        IsDistinct bytes_eq (map (λ (e : List ℕ × ℕ). e.0) (vocabulary pieces)) }
    ensures came { (pieces : List (List ℕ)) (piece : List ℕ) →
        IsTrue (has_piece (vocabulary pieces) piece) ↔ Contains pieces piece }
    ensures count { (pieces : List (List ℕ)) (piece : List ℕ) →
        entry_count (vocabulary pieces) piece ≡ count_in pieces piece }
    ensures sorted { (pieces : List (List ℕ)) → sorted_of (vocabulary pieces)
        ≡ sorted_distinct pieces }
    ensures counts { (pieces : List (List ℕ)) →
        counts_of (vocabulary pieces) ≡ map (count_in pieces) (sorted_distinct pieces) }
{}

/// The vocabulary of a stream has the stream's distinct pieces and their counts, in the order of the
/// pieces' bytes.
pub fn vocabulary_tells()
    ensures pieces { (kind : Stream) (collection : List ℕ) →
        sorted_of (vocabulary (all_pieces kind collection)) ≡ sorted_pieces kind collection }
    ensures counts { (kind : Stream) (collection : List ℕ) →
        counts_of (vocabulary (all_pieces kind collection)) ≡ piece_counts kind collection }
{}

/// A document's bytes are its bits, and zero-bits up to a byte.
pub fn bits_fill_bytes()
    ensures bits { (bits : Bits) → bits_of (as_bytes bits) ≡ filled bits }
    ensures length { (bits : Bits) →
        8 * length (as_bytes bits) ≡ length bits + to_byte (length bits) }
{}

/// There is a place for each document and one for the end of the text, and the bytes of a document
/// stand in the text from its place on.
pub fn documents_have_places()
    ensures count { (code : TextCode) (collection : List ℕ) →
        length (places code collection) ≡ document_count collection + 1 }
    ensures place { (code : TextCode) (collection : List ℕ) (d : ℕ) →
        d ≤ document_count collection →
        place_at code collection d ≡ place_after code collection d }
    ensures size { (code : TextCode) (collection : List ℕ) →
        length (text_part code collection) ≡ place_after code collection
        (document_count collection) }
    ensures bytes { (code : TextCode) (collection : List ℕ) (d : ℕ) →
        d < document_count collection → StandsInText code collection d }
{}

/// All documents have the bits of Huffman's cost of the words and of the others, and of their heads;
/// the text takes at most one byte a document more.
pub fn text_has_its_bits()
    ensures bits { (code : TextCode) (collection : List ℕ) → IsTextCode collection code →
        coded_bits code collection ≡ text_bits collection }
    ensures bytes { (code : TextCode) (collection : List ℕ) → IsTextCode collection code →
        length (text_part code collection) ≤ most_text_bytes collection }
{}

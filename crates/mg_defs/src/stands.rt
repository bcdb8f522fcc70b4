//! Laws of the parts of a set: what they determine.
ghost use Rattle.std.specs.Prelude.{◌≡◌, ℕ, List, [], ◌≤◌, ◌<◌, ◌%◌, ◌+◌, ◌++◌, length, get_or, sum_by};
ghost use Rattle.std.specs.List.{AllByRecursion};
ghost use Rattle.mg_defs.specs.Bits.{Bits, as_bytes};
ghost use Rattle.mg_defs.specs.CodedText.{IsCodeOf, StreamCode, TextCode, coded_bytes, pieces_part, text_part};
ghost use Rattle.mg_defs.specs.Heads.{Head, IsWithin};
ghost use Rattle.mg_defs.specs.Lists.{entries_bytes, lists_bits};
ghost use Rattle.mg_defs.specs.Lists.{postings as postings_of};
ghost use Rattle.mg_defs.specs.Means.{IsCodable, IsModel, IsStreamCode, IsUsedWell, Mean, Next, Tell};
ghost use Rattle.mg_defs.specs.PostingLists.{postings_and_next, postings_upto};
ghost use Rattle.mg_defs.specs.RunBits.{runs_bits};
ghost use Rattle.mg_defs.specs.Split.{IsSplit, document_count, documents, joined};
ghost use Rattle.mg_defs.specs.StandFacts.{AreFirstBefore, AreFirstOf, AreItsParts, ForBeginnings, ForCapped, ForCodes, ForKnownPieces};
ghost use Rattle.mg_defs.specs.StandFacts.{ForMeaning, ForMeanings, ForParts, ForRead, ForStanding, ForTold};
ghost use Rattle.mg_defs.specs.StandFacts.{IsItsHead, WhereAllFit, WhereCodable, later_bytes, text_bound};
ghost use Rattle.mg_defs.specs.Stands.{Parts, Stand, head_of};
ghost use Rattle.mg_defs.specs.Terms.{docs};
ghost use Rattle.mg_defs.specs.Weights.{HasDictionaryTerms};
ghost use Rattle.mg_defs.specs.declared.Posting.{Posting};
ghost use Rattle.mg_defs.specs.declared.Stream.{Stream};
ghost use Rattle.mg_defs.specs.declared.TermPosting.{TermPosting};

/// The bytes of a part of pieces determine the pieces and the lengths.
pub fn one_code()
    ensures { (a b : StreamCode) → IsStreamCode a → IsStreamCode b → pieces_part a ≡ pieces_part b →
        a ≡ b }
{}

/// The code of a collection within the limits is a model's, each document has its codewords in it, and the
/// text and the head's numbers fit in the head. All documents together are no longer than the collection.
pub fn collections_fit()
    ensures bytes { (collection : List ℕ) → sum_by (λ d. length d) (documents collection)
        ≤ length collection }
    ensures model { ForCodes (λ version collection code. IsModel code) }
    ensures each { ForCodes (λ version collection code.
        AllByRecursion (IsCodable code) (documents collection)) }
    ensures text { ForCodes (λ version collection code. length (text_part code collection)
        < text_bound version) }
    ensures head { ForCapped (λ version cap collection code.
        IsWithin (head_of version cap code collection)) }
{}

/// Where bytes begin with a coded document, they do so with no other one, and what follows it is determined;
/// so with documents one after the other, however many are known.
pub fn one_beginning()
    ensures document { (code : TextCode) (d e u v : List ℕ) → WhereCodable code d e
        (coded_bytes code d ++ u ≡ coded_bytes code e ++ v → (d ≡ e) × (u ≡ v)) }
    ensures documents { ForBeginnings (λ code ds es u v.
        AreFirstOf ds es × (u ≡ later_bytes code ds es ++ v)) }
{}

/// Parts that stand for a collection tell its head and code and mean its documents; parts tell at most one
/// head and code, and mean at most one list of documents.
pub fn one_meaning()
    ensures stand { ForParts (λ version cap code parts collection.
        Mean parts (head_of version cap code collection) code (documents collection)) }
    ensures told { (parts : Parts) (h k : Head) (code other : TextCode) → Tell parts h code →
        Tell parts k other → (h ≡ k) × (code ≡ other) }
    ensures meant { ForMeanings (λ h k code other ds es. (h ≡ k) × (code ≡ other) × (ds ≡ es)) }
{}

/// What a reader of the text knows where the parts stand: the head is that of the collection, the documents
/// found so far are its first, one more stands next as long as some are missing, and then nothing is left.
pub fn text_goes_on()
    ensures head { ForTold (λ parts h code collection. IsItsHead h code collection
        × AreItsParts h code parts collection) }
    ensures first { ForRead (λ found all. found ≤ all) (λ code docs rest collection.
        AreFirstBefore code docs rest (documents collection)) }
    ensures next { ForRead (λ found all. found < all) (λ code docs rest collection.
        Next code rest) }
    ensures end { ForRead (λ found all. found ≡ all) (λ code docs rest collection. rest ≡ []) }
{}

/// The parts of a set stand for at most one collection: the one that Head, Words, Nonwords and Text mean. They
/// stand for it exactly where every part is the one that the meaning says.
pub fn one_collection()
    ensures one { (parts : Parts) (c d : List ℕ) → Stand parts c → Stand parts d → c ≡ d }
    ensures meant { ForStanding (λ parts h code docs collection.
        collection ≡ joined docs h.open_end) }
    ensures split { ForStanding (λ parts h code docs collection.
        IsSplit collection docs h.open_end) }
    ensures parts { ForStanding (λ parts h code docs collection.
        AreItsParts h code parts (joined docs h.open_end)) }
    ensures back { ForMeaning (λ parts h code docs collection.
        WhereAllFit parts h code docs collection (AreItsParts h code parts collection)) }
{}

/// A code that knows the pieces of a stream is the stream's exactly where each of its pieces comes there and
/// its lengths have Huffman's cost for how often they come.
pub fn codes_are_used()
    ensures is { ForKnownPieces (λ kind collection code. IsUsedWell kind collection code →
        IsCodeOf kind collection code) }
    ensures back { (kind : Stream) (collection : List ℕ) (code : StreamCode) →
        IsCodeOf kind collection code → IsUsedWell kind collection code }
{}

/// Lists, skip entries and runs are bytes one range after the other.
pub fn ranges_join()
    ensures bits { (a b : Bits) → length a % 8 ≡ 0 → as_bytes (a ++ b) ≡ as_bytes a ++ as_bytes b }
    ensures lists { (all : ℕ) (xs ys : List (List Posting)) →
        as_bytes (lists_bits all (xs ++ ys)) ≡ as_bytes (lists_bits all xs)
        ++ as_bytes (lists_bits all ys) }
    ensures entries { (all : ℕ) (xs ys : List (List Posting)) →
        entries_bytes all (xs ++ ys) ≡ entries_bytes all xs ++ entries_bytes all ys }
    ensures runs { (xs ys : List (List TermPosting)) → as_bytes (runs_bits (xs ++ ys))
        ≡ as_bytes (runs_bits xs) ++ as_bytes (runs_bits ys) }
{}

/// A term's list has a posting for each document that has the term, and grows document by document. The
/// distinct terms of a document, of which its weight is made, are those of the dictionary that it has.
pub fn lists_grow()
    ensures count { (collection t : List ℕ) → length (postings_of collection t)
        ≡ docs collection t }
    ensures grows { (collection t : List ℕ) (n : ℕ) → n < document_count collection →
        postings_upto (n + 1) collection t ≡ postings_and_next n collection t }
    ensures grown { (collection t : List ℕ) → postings_upto (document_count collection) collection t
        ≡ postings_of collection t }
    ensures document { (collection : List ℕ) (n : ℕ) → n < document_count collection →
        HasDictionaryTerms collection (get_or (documents collection) n []) }
{}

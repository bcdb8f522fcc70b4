//! Laws of the coded text.
ghost use Rattle.std.specs.Prelude.{◌≡◌, ◌+◌, ◌*◌, ◌≤◌, ◌++◌, ℕ, List, length};
ghost use Rattle.std.specs.declared.option.Option.{Option};
ghost use Rattle.mg_dev.specs.Files.{Files};
ghost use Rattle.mg_defs.specs.declared.Stream.TheVariants.{Words};
ghost use Rattle.mg_defs.specs.Bits.{Bits};
ghost use Rattle.mg_defs.specs.Codes.{gamma};
ghost use Rattle.mg_defs.specs.CodedText.{TextCode, coded_doc, text_part};
ghost use Rattle.mg_defs.specs.Parse.{parse};
ghost use Rattle.mg_defs.specs.TextBits.{most_text_bytes};
ghost use Rattle.mg_defs.specs.Pieces.{pieces};
ghost use Rattle.mg_text_writer.specs.Documents.{TextHolds, coded_docs, pieces_bits, AddsPiece, ForCoded, ForWrittenDocuments};
ghost use Rattle.mg_text_writer.specs.Writing.{DocumentsStand, IsOnText, TextWriting, text_bytes, turn, WhereSameBase, text_at};

/// The pieces of a document, put in turn behind the number of its pairs, are its bits. The stream
/// of a piece is told by the number of those before it as well as by that of those to come.
pub fn pieces_make_documents()
    ensures document { (code : TextCode) (doc : List ℕ) →
        gamma (length (parse doc) + 1) ++ pieces_bits code Words (pieces doc) ≡ coded_doc code doc }
    ensures next { (code : TextCode) (before : List (List ℕ)) (piece : List ℕ) →
        AddsPiece code before piece }
    ensures turn { (left put pairs : ℕ) → left + put ≡ 2 * pairs → turn left ≡ turn put }
    ensures count { (doc : List ℕ) → length (pieces doc) ≡ 2 * length (parse doc) }
{}

/// Parts to which the documents of a collection were written hold its text and its places, and the
/// text takes at most one byte a document more than its bits. Where documents were written, Text has
/// their bytes and no others.
pub fn text_has_its_documents()
    ensures text { (code : TextCode) (collection : List ℕ) →
        text_bytes (coded_docs code collection) ≡ text_part code collection }
    ensures holds { ForCoded (λ base files code collection.
        DocumentsStand base files (coded_docs code collection) →
        TextHolds base files code collection) }
    ensures size { ForWrittenDocuments (λ base files collection.
        length (text_at base files) ≤ most_text_bytes collection) }
    ensures bytes { (base : List ℕ) (files : Option Files) (docs : List Bits) →
        DocumentsStand base files docs →
        text_at base files ≡ text_bytes docs }
{}

/// What a writer took stays, and it may write on, as long as its Text and Places stay: calls that
/// write other files don't matter.
pub fn text_stays()
    ensures { (w : TextWriting) (f g : Option Files) (docs : List Bits) (bits : Bits) →
        WhereSameBase w.base f g (IsOnText w f docs bits → IsOnText w g docs bits) }
{}

//! Laws of the lexicon.
ghost use Rattle.std.specs.Prelude.{◌≡◌, ℕ, List, Option, length};
ghost use Rattle.mg_dev.specs.Files.{Files};
ghost use Rattle.mg_defs.specs.Lexicon.{TermInfo, info_bytes, lexicon};
ghost use Rattle.mg_defs.specs.Terms.{dictionary};
ghost use Rattle.mg_defs.specs.WithinLimits.{IsWithinLimits};
ghost use Rattle.mg_front.specs.Reading.{FrontFits, Fronted, SameParts};
ghost use Rattle.mg_lex.specs.Reading.{IsLexiconOf, StandsStill, WherePartsStay};
ghost use Rattle.mg_lex.specs.Terms.{FitsField, Term, TermFits, entries_of, terms_of};
ghost use Rattle.mg_lex.specs.Writing.{IsWritten, LexWriting, TookTerms, WhereLexiconStays};

/// The lexicon of a collection has the entries of its terms, as many as it has distinct terms.
/// Parts to which these were written are its lexicon. A reader of it stands, and what it keeps
/// agrees with its parts, as long as these two parts stay as they are: other files may change.
pub fn lexicon_has_its_terms()
    ensures entries { (collection : List ℕ) → entries_of (terms_of collection)
        ≡ lexicon collection }
    ensures count { (collection : List ℕ) → length (terms_of collection)
        ≡ length (dictionary collection) }
    ensures written { (base : List ℕ) (files : Option Files) (collection : List ℕ) →
        IsWritten base files collection → IsLexiconOf base files collection }
    ensures stays { (lex now : Fronted) (collection : List ℕ) → SameParts lex now →
        WherePartsStay lex (StandsStill lex now collection) }
    ensures fits { (lex : Fronted) →
        WherePartsStay lex (λ files files_now. FrontFits lex files → FrontFits lex files_now) }
{}

/// A writer stands for the terms that it took as long as its two parts stay as they are: calls that
/// write other files don't matter.
pub fn terms_stay()
    ensures { (w : LexWriting) (f g : Option Files) (ts : List Term) →
        WhereLexiconStays w.base f g (TookTerms w f ts → TookTerms w g ts) }
{}

/// The bytes of a field tell its numbers, where they fit in it; those of a collection within the limits do.
pub fn fields_tell()
    ensures same { (a b : TermInfo) → FitsField a → FitsField b → info_bytes a ≡ info_bytes b →
        a ≡ b }
    ensures fit { (version : ℕ) (collection : List ℕ) (i : ℕ) (t : List ℕ) →
        IsWithinLimits version collection → TermFits collection i t }
{}

//! Laws of texts that stand.
ghost use Rattle.std.specs.Prelude.{ℕ, List, Option};
ghost use Rattle.mg_dev.specs.Files.{Files};
ghost use Rattle.mg_layout.specs.Stands.{StandsBy};
ghost use Rattle.mg_text.specs.Reading.{IsText, SameText, TextStays, TextFits, TextReading, ForCodedWithin, ForHeads, WhereSameTexts, WhereWritten, WhereTold};
ghost use Rattle.mg_text.specs.Places.{FitsVersion};

/// The places of a collection within the limits of a version fit. What a writer wrote for a
/// collection can be read, with the models of its codes and a head of its numbers, of any version
/// but 1. Where a set stands for a collection, its text can be read by its head and its codes: by a
/// head that was loaded, and by a head and a code that its parts tell. The parts of a reader stand,
/// and what it keeps agrees with them, as long as its Text and Places stay as they are: other files
/// may change.
pub fn texts_stand()
    ensures small { ForCodedWithin FitsVersion }
    ensures written { ForHeads (λ base files head code collection.
        WhereWritten base files head code collection (IsText base files head code collection)) }
    ensures set { ForHeads (λ base files head code collection.
        StandsBy head code files base collection → IsText base files head code collection) }
    ensures told { ForHeads (λ base files head code collection.
        WhereTold base files head code collection (IsText base files head code collection)) }
    ensures stays { (r now : TextReading) (f g : Option Files) (collection : List ℕ) →
        SameText r now →
        WhereSameTexts r f g (TextStays r now f g collection) }
    ensures fits { (r : TextReading) (f g : Option Files) →
        WhereSameTexts r f g (TextFits r f → TextFits r g) }
{}

//! Laws of sets of files that stand.
ghost use Rattle.std.specs.Prelude.{◌≡◌, ℕ, List, Option};
ghost use Rattle.mg_dev.specs.Files.{Files};
ghost use Rattle.mg_defs.specs.CodedText.{TextCode};
ghost use Rattle.mg_layout.specs.Stands.{CodesTellSet, HeadTellsSet, SameSet, Stands, StandsForNone, StandsIn, StaysIn, parts_at};
ghost use Rattle.mg_layout.specs.declared.head.Head.{Head};

/// A set that stands in a version stands. Whether it stands, and in which version, is told by its
/// eleven files alone: other files may change.
pub fn sets_stand()
    ensures built { (version cap : ℕ) (now : Option Files) (base collection : List ℕ) →
        StandsIn version cap now base collection →
        Stands now base collection }
    ensures parts { (before now : Option Files) (base : List ℕ) → SameSet base before now →
        parts_at now base ≡ parts_at before base }
    ensures stays { (before now : Option Files) (base collection : List ℕ) →
        SameSet base before now →
        Stands before base collection → Stands now base collection }
    ensures stays_in { (version cap : ℕ) (before now : Option Files) (base collection : List ℕ) →
        StaysIn version cap before now base collection }
    ensures none { (before now : Option Files) (base : List ℕ) → SameSet base before now →
        StandsForNone before base → StandsForNone now base }
{}

/// The head of a set that stands has the numbers of its collection, and each part is the collection's
/// own under this head and one code. So a head that was loaded, and a code that the parts tell with it, are
/// those of the collection.
pub fn heads_tell_sets()
    ensures loaded { (now : Option Files) (base collection : List ℕ) (head : Head) →
        HeadTellsSet head now base collection }
    ensures told { (now : Option Files) (base collection : List ℕ) (head : Head) (code : TextCode) →
        CodesTellSet head code now base collection }
{}

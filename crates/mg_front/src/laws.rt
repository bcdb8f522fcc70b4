//! Laws of writers, walks and readers while other files change.
ghost use Rattle.std.specs.Prelude.{List, Option};
ghost use Rattle.mg_dev.specs.Files.{Files};
ghost use Rattle.mg_defs.specs.Front.{Entry};
ghost use Rattle.mg_front.specs.Fronting.{Fronting, Took, WhereSameFronts};
ghost use Rattle.mg_front.specs.Reading.{FrontFits, FrontStands, Fronted, WhereSameParts};
ghost use Rattle.mg_bits.specs.Alike.{SameAt, TellAlike};
ghost use Rattle.mg_front.specs.Walk.{Gave, Walking};

/// A writer stands for the entries that it took, a walk for those that it gave, and a reader for those
/// of its parts, as long as their own files stay as they are: calls that write other files don't matter.
pub fn fronts_stay()
    ensures took { (w : Fronting) (f g : Option Files) (es : List Entry) →
        WhereSameFronts w f g (Took w f es → Took w g es) }
    ensures gave { (w : Walking) (f g : Option Files) (es : List Entry) → TellAlike f g →
        SameAt f g w.feed.name → Gave w f es → Gave w g es }
    ensures fits { (r : Fronted) (f g : Option Files) →
        WhereSameParts r f g (FrontFits r f → FrontFits r g) }
    ensures stands { (r : Fronted) (f g : Option Files) (es : List Entry) →
        WhereSameParts r f g (FrontStands r f es → FrontStands r g es) }
{}

//! A law of the names of files.
ghost use Rattle.std.specs.Prelude.{◌≡◌, ◌≢◌, ℕ, List};
ghost use Rattle.mg_dev.specs.Names.{full_name};
ghost use Rattle.mg_dev.specs.declared.part.Part.{Part};
ghost use Rattle.mg_dev.specs.declared.part.Part.TheVariants.{Plain};

/// Different parts of one base have different full names. Parts of whatever bases, none of them
/// Plain, have one full name only where both the base and the part are the same.
pub fn names_apart()
    ensures parts { (base : List ℕ) (p q : Part) → full_name base p ≡ full_name base q → p ≡ q }
    ensures bases { (a b : List ℕ) (p q : Part) → p ≢ Plain → q ≢ Plain →
        full_name a p ≡ full_name b q → (a ≡ b) × (p ≡ q) }
{}

//! The law that each collection within the limits has a set of files.
ghost use Rattle.std.specs.Prelude.{◌≡◌, ◌⊎◌, ◌≤◌, ℕ, List};
ghost use Rattle.mg_defs.specs.CodedText.{TextCode};
ghost use Rattle.mg_defs.specs.Limits.{greatest_cap, least_cap};
ghost use Rattle.mg_defs.specs.Stands.{AreParts, Parts};
ghost use Rattle.mg_defs.specs.WithinLimits.{IsWithinLimits};

use mg_huff::counts_have_codes;

/// A collection within the limits of a version has parts in that version, with each cap.
pub fn collections_have_parts()
    ensures { (version cap : ℕ) (collection : List ℕ) → (version ≡ 1) ⊎ (version ≡ 2) →
        least_cap ≤ cap → cap ≤ greatest_cap → IsWithinLimits version collection →
        (code : TextCode) × (parts : Parts) × AreParts version cap code parts collection }
{
    counts_have_codes();
}

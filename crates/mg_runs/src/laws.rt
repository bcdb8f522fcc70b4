//! The laws of runs and of merges of them.
ghost use Rattle.std.specs.Prelude.{ℕ, List};
ghost use Rattle.std.specs.declared.option.Option.{Option};
ghost use Rattle.mg_dev.specs.Files.{Files};
ghost use Rattle.mg_dev.specs.declared.part.Part.TheVariants.{Run};
ghost use Rattle.mg_defs.specs.declared.TermPosting.{TermPosting};
ghost use Rattle.mg_runs.specs.Fed.{Inverting, IsFed};
ghost use Rattle.mg_runs.specs.Left.{IsMerging, Merging, SameRuns};
ghost use Rattle.mg_runs.specs.Stays.{SamePart, Stays};

/// Runs, and a merge of them, stand as long as their own parts stay as they are: what was taken into
/// runs as long as Run does, and what is left of a merge as long as Run, MergeA and MergeB do. Other
/// parts of the store may change.
pub fn runs_stay()
    ensures fed { (runs : Inverting) (f g : Option Files) (fed : List (ℕ × ℕ)) →
        Stays f g (SamePart runs.base Run) (λ files. IsFed runs files fed) }
    ensures left { (merge : Merging) (f g : Option Files) (left : List TermPosting) →
        Stays f g (SameRuns merge.base) (λ files. IsMerging merge files left) }
{}

//! The working parts of merging.
ghost use Rattle.std.specs.Prelude.{◌≡◌, [], OnOk, IsSome, Some, is_some};
ghost use Rattle.mg_dev.specs.Causes.{HasPutCause};
ghost use Rattle.mg_dev.specs.Files.{SameReads, file_at};
ghost use Rattle.mg_dev.specs.Names.{full_name};
ghost use Rattle.mg_dev.specs.declared.part.Part.TheVariants as part;
ghost use Rattle.mg_index.specs.Listed.{OnlyMergesChange};

use mg_dev::{FileRef, Part, PutErr, Store};

/// Empties both working parts of merging, and makes one that is missing.
#[tactic(auto, using(mg_dev::specs::Laws::file_laws))]
pub(crate) fn reset_merge_parts<S: Store>(store: &mut S, base: &str) -> Result<(), PutErr>
    ensures first { IsSome (S.files store.old) →
        OnOk result (file_at (S.files store.new) (full_name base.now part.MergeA) ≡ Some []) }
    ensures second { IsSome (S.files store.old) →
        OnOk result (file_at (S.files store.new) (full_name base.now part.MergeB) ≡ Some []) }
    ensures others { OnlyMergesChange base.now (S.files store.old) (S.files store.new) }
    ensures told { is_some (S.files store.new) ≡ is_some (S.files store.old) }
    ensures reads { SameReads (S.reads store.old) (S.reads store.new) }
    ensures cause { HasPutCause (S.faults store.old) (S.faults store.new) result }
{
    let first = FileRef {
        base,
        part: Part::MergeA,
    };
    let second = FileRef {
        base,
        part: Part::MergeB,
    };
    match store.reset(&first) {
        Ok(()) => {}
        Err(refusal) => return Err(refusal),
    }
    store.reset(&second)
}

//! The weights of documents, from the sums of their squared weights, and the end of the working parts.
ghost use Rattle.std.specs.Prelude.{◌≡◌, ◌++◌, [], OnOk, IsSome, Some};
ghost use Rattle.mg_dev.specs.Causes.{HasPutCause};
ghost use Rattle.mg_dev.specs.Files.{file_at};
ghost use Rattle.mg_dev.specs.Moments.{Between};
ghost use Rattle.mg_dev.specs.Names.{full_name};
ghost use Rattle.mg_dev.specs.declared.part.Part.TheVariants as part;
ghost use Rattle.mg_bits.specs.Writer.{WroteTo, put_to};
ghost use Rattle.mg_defs.specs.Fixed.{isqrt as root};
ghost use Rattle.mg_defs.specs.Numbers.{four};
ghost use Rattle.mg_index.specs.Roots.{WeightsAreRoots};
ghost use Rattle.mg_index.specs.Steps.{PutStep};
ghost use Rattle.mg_index.specs.Written.{OfWeights};

use crate::merge_parts::reset_merge_parts;
use mg_bits::PageWriter;
use mg_dev::{FileRef, Part, PutErr, Store};
use mg_fields::four_bytes;
use mg_fixed::isqrt;
use std::alloc::Global;

/// Writes the root of one sum.
fn put_root<S: Store>(w: &mut PageWriter<'_>, store: &mut S, sum: u64) -> Result<(), PutErr>
    ensures bytes { IsSome (S.files store.old) →
        OnOk result (put_to w.new (S.files store.new) ≡ put_to w.old (S.files store.old)
        ++ four (root sum)) }
    ensures name { w.new.name ≡ w.old.name }
    ensures wrote { WroteTo w.old.name (S.files store.old) (S.files store.new) (S.reads store.old)
        (S.reads store.new) }
    ensures cause { HasPutCause (S.faults store.old) (S.faults store.new) result }
{
    w.put_all(store, &four_bytes(isqrt(sum)))
}

/// Writes the root of each sum in 4 bytes.
fn write_weights<S: Store>(
    alloc: Global,
    store: &mut S,
    base: &str,
    sums: &[u64],
) -> Result<(), PutErr>
    ensures bytes { IsSome (S.files store.old) →
        OnOk result (WeightsAreRoots (S.files store.new) base.now sums.now) }
    ensures wrote { WroteTo (full_name base.now part.Weights) (S.files store.old)
        (S.files store.new) (S.reads store.old) (S.reads store.new) }
    ensures cause { HasPutCause (S.faults store.old) (S.faults store.new) result }
{
    let file = FileRef {
        base,
        part: Part::Weights,
    };
    let mut writer = match PageWriter::start(alloc, store, file) {
        Ok(writer) => writer,
        Err(refusal) => return Err(refusal),
    };
    for sum in sums {
        match put_root(&mut writer, store, *sum) {
            Ok(()) => {}
            Err(refusal) => return Err(refusal),
        }
    }
    writer.finish(store)
}

/// Writes the root of each sum, which is the weight of a document, and empties the working parts.
pub fn write_weights_part<S: Store>(
    alloc: Global,
    store: &mut S,
    base: &str,
    sums: &[u64],
) -> Result<(), PutErr>
    ensures bytes { IsSome (S.files store.old) →
        OnOk result (WeightsAreRoots (S.files store.new) base.now sums.now) }
    ensures first { IsSome (S.files store.old) →
        OnOk result (file_at (S.files store.new) (full_name base.now part.MergeA) ≡ Some []) }
    ensures second { IsSome (S.files store.old) →
        OnOk result (file_at (S.files store.new) (full_name base.now part.MergeB) ≡ Some []) }
    ensures step { Between S.files S.reads S.faults store.old store.new
        (PutStep OfWeights base.now result) }
{
    write_weights(alloc, store, base, sums)?;
    reset_merge_parts(store, base)
}

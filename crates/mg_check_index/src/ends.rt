//! Where the lists and their skip entries end.
ghost use Rattle.std.specs.Prelude.{IfErr, OnOk};
ghost use Rattle.mg_dev.specs.Moments.{Between};
ghost use Rattle.mg_check_parts.specs.Looks.{LooksAtSet};
ghost use Rattle.mg_check_parts.specs.Refusals.{Refutes};
ghost use Rattle.mg_check_index.specs.Listing.{ForEnds, ListsStand};

use crate::lists::Places;
use mg_dev::{FileRef, Part, PartErr, Store};
use mg_layout::expect_size;

/// Sees that Post and Skip have no bytes behind two places.
pub fn expect_ends<S: Store>(store: &mut S, base: &str, ends: Places) -> Result<(), PartErr>
    ensures stand { ForEnds (S.files store.old) base.now ends
        (λ collection. OnOk result (ListsStand (S.files store.old) base.now collection)) }
    ensures other { ForEnds (S.files store.old) base.now ends
        (λ collection.
        IfErr result (Refutes (ListsStand (S.files store.old) base.now collection))) }
    ensures looks { Between S.files S.reads S.faults store.old store.new (LooksAtSet result) }
{
    let lists = FileRef {
        base,
        part: Part::Post,
    };
    match expect_size(store, lists, ends.post) {
        Ok(()) => {}
        Err(refusal) => return Err(refusal),
    }
    let entries = FileRef {
        base,
        part: Part::Skip,
    };
    expect_size(store, entries, ends.skip)
}

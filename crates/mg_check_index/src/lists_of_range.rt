//! The lists of a range of terms against Post and Skip, some of them at a time.
ghost use Rattle.mg_dev.specs.Moments.{Between};
ghost use Rattle.mg_check_index.specs.Listing.{CanCompareRange, RangeCompared};

use crate::indexed::Indexed;
use crate::lists::Compared;
use crate::new_lists::NewLists;
use crate::range_lists::RangeLists;
use crate::some_lists::SomeLists;
use mg_dev::{PartErr, Store};
use std::alloc::Global;

// Sees that Post and Skip go on with some lists of a range, and pushes what is to stand of their terms.
fn check_some<S: Store>(
    alloc: Global,
    store: &mut S,
    of: &Indexed<'_>,
    lists: &SomeLists<'_>,
    compared: &mut Compared<'_>,
) -> Result<(), PartErr>
    requires range { CanCompareRange (S.files store.old) of.now lists.now compared.old }
    ensures range { Between S.files S.reads S.faults store.old store.new
        (RangeCompared of.now lists.now compared.old compared.new
        result) }
{
    let before = compared.places;
    let mut new_lists = match NewLists::start(alloc, store, of.base, before, of.documents) {
        Ok(new_lists) => new_lists,
        Err(refusal) => return Err(refusal),
    };
    new_lists.check(store, lists, of, compared)
}

/// Sees that Post and Skip go on with the lists of a range, and pushes what is to stand of its terms. They are compared
/// as they are written. Behind another byte no more is held than 2^16 postings and one list take.
pub fn check_lists<S: Store>(
    alloc: Global,
    store: &mut S,
    of: &Indexed<'_>,
    lists: &RangeLists,
    compared: &mut Compared<'_>,
) -> Result<(), PartErr>
    requires range { CanCompareRange (S.files store.old) of.now lists.now compared.old }
    ensures range { Between S.files S.reads S.faults store.old store.new
        (RangeCompared of.now lists.now compared.old compared.new
        result) }
{
    let all = lists.count();
    let mut first = 0;
    while first < all {
        let some = SomeLists::of_range(lists, first);
        match check_some(alloc, store, of, &some, compared) {
            Ok(()) => {}
            Err(refusal) => return Err(refusal),
        }
        first += some.count();
    }
    Ok(())
}

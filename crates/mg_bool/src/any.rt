//! The next document of a query that needs one of its terms, where no list leads.
ghost use Rattle.std.specs.Prelude.{◌≡◌, false, [], None};
ghost use Rattle.mg_dev.specs.Moments.{Between};
ghost use Rattle.mg_query.specs.QueryOf.{query_of};
ghost use Rattle.mg_query.specs.Holds.{holds as holds_spec};
ghost use Rattle.mg_bool.specs.Walked.{IsReady, Walked, spot};

use crate::laws::cursors_are_within;
use crate::places::ask_first;
use crate::walk::{Asks, Walk};
use mg_dev::{PartErr, Store};

/// The next document that satisfies a query which holds in no document without any of its terms:
/// only the documents that some list has are asked, each the first of all lists behind the last.
#[inline(never)]
pub(crate) fn next_of_any<S: Store>(
    asks: &Asks<'_>,
    walk: &mut Walk<'_, S>,
    store: &mut S,
) -> Result<Option<u32>, PartErr>
    requires ready { IsReady (S.files store.old) asks.now.lead asks.now.all (spot walk.old) }
    requires none { asks.now.lead ≡ None }
    requires some { holds_spec (query_of asks.now.query.now) [] ≡ false }
    ensures { Between S.files S.reads S.faults store.old store.new
        (Walked (query_of asks.now.query.now) asks.now.lead asks.now.all (spot walk.old)
        (spot walk.new) result) }
{
    cursors_are_within();
    let all = asks.all;
    while walk.decided < all {
        let doc = match ask_first(&mut walk.places, store, walk.decided + 1, &mut walk.there) {
            Ok(Some(doc)) => doc,
            Ok(None) => {
                walk.decided = all;
                return Ok(None);
            }
            Err(refusal) => return Err(refusal),
        };
        walk.decided = doc;
        if asks.query.holds(&walk.there) {
            return Ok(Some(doc));
        }
    }
    Ok(None)
}

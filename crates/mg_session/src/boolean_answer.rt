//! The answer to a Boolean query.
ghost use Rattle.std.specs.Prelude.{◌≡◌, length};
ghost use Rattle.mg_defs.specs.QueryTerms.{query_terms};
ghost use Rattle.mg_query.specs.QueryOf.{query_of};
ghost use Rattle.mg_session.specs.Answering.{AreUnasked};
ghost use Rattle.mg_session.specs.Calls.{AreShowable};
ghost use Rattle.mg_session.specs.Replying.{ShowsMatches, ShowsQuery};

use crate::documents::Documents;
use crate::hit::show_hit;
use crate::lists::Lists;
use crate::lookup::Sought;
use crate::rows::Rows;
use crate::total::put_total;
use mg_bool::{Matches, skips_are_within};
use mg_defs::Settings;
use mg_dev::{PartErr, ShowErr, Sink, Store};

/// Shows the documents that satisfy a query, of which none was asked for yet: the first of them, and
/// how many there are.
fn show_matches<S: Store, D: Documents<S>, O: Sink>(
    texts: &mut D,
    store: &mut S,
    matches: &mut Matches<'_, S>,
    now: &Settings,
    out: &mut O,
) -> Result<(), ShowErr>
    requires showable { AreShowable (S.files store.old) (D.texts texts.old) matches.old.all }
    requires unasked { AreUnasked (S.files store.old) matches.old }
    ensures { ShowsMatches S.Store O.Sink store.old store.new out.old out.new result
        (D.texts texts.old) (D.texts texts.new) matches.old now.now }
{
    skips_are_within();
    let mut rows = Rows::new();
    'matches: loop {
        let number = match matches.next(store) {
            Ok(Some(number)) => number,
            Ok(None) => return put_total(&mut rows.pending, out, rows.total),
            Err(refusal) => return Err(ShowErr::from(refusal)),
        };
        match show_hit(texts, store, &mut rows, out, now, number) {
            Ok(()) => {}
            Err(refusal) => return Err(refusal),
        }
        rows.total += 1;
    }
}

/// Shows the documents that satisfy a query, rising: the first of them, and how many there are.
pub(crate) fn answer_query<S: Store, D: Documents<S>, O: Sink>(
    lists: &Lists<'_>,
    store: &mut S,
    texts: &mut D,
    sought: &Sought<'_>,
    now: &Settings,
    out: &mut O,
) -> Result<(), ShowErr>
    requires size { length sought.now.infos.now
        ≡ length (query_terms (query_of sought.now.query.now)) }
    requires showable { AreShowable (S.files store.old) (D.texts texts.old) lists.now.all }
    ensures { ShowsQuery S.Store O.Sink store.old store.new out.old out.new result
        lists.now.base.now (D.texts texts.old) (D.texts texts.new) lists.now.all
        (query_of sought.now.query.now) sought.now.infos.now now.now }
{
    let mut matches = match Matches::start(
        lists.alloc,
        lists.base,
        sought.query,
        sought.infos,
        lists.all,
    ) {
        Ok(matches) => matches,
        Err(_) => return Err(ShowErr::Part(PartErr::Memory)),
    };
    show_matches(texts, store, &mut matches, now, out)
}

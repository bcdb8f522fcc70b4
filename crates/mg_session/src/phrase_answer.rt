//! The documents that have a phrase, sought among those that have all its words.
ghost use Rattle.std.specs.Prelude.{◌≡◌, ◌≤◌, ◌<◌, [], OnOk, Some, length};
ghost use Rattle.mg_defs.specs.QueryTerms.{query_terms};
ghost use Rattle.mg_defs.specs.declared.session.Mode.TheVariants as mode;
ghost use Rattle.mg_query.specs.AllOf.{IsAllOf};
ghost use Rattle.mg_query.specs.QueryOf.{query_of};
ghost use Rattle.mg_session.specs.Answering.{AreUnasked};
ghost use Rattle.mg_session.specs.Calls.{AreShowable, IsShowable, StepsText};
ghost use Rattle.mg_session.specs.Decided.{PassesRow};
ghost use Rattle.mg_session.specs.DocStands.{ArePlacesIn};
ghost use Rattle.mg_session.specs.Parts.{ShownIn};
ghost use Rattle.mg_session.specs.PhraseTexts.{AreMarksOf};
ghost use Rattle.mg_session.specs.Replying.{SearchesDocument, ShowsCandidates, ShowsPhrase};

use crate::lists::Lists;
use crate::lookup::Sought;
use crate::rows::Rows;
use crate::searched::Searched;
use crate::total::put_total;
use mg_bool::{Matches, skips_are_within};
use mg_dev::{PartErr, ShowErr, Sink, Store};
use mg_phrase::Marks;
use mg_query::Terms;

/// Seeks the phrase of the marks in a document, and passes on its row if the phrase has places there.
fn search_document<S: Store, T: Searched<S>, O: Sink>(
    texts: &mut T,
    store: &mut S,
    marks: &mut Marks<'_>,
    number: u32,
    rows: &mut Rows,
    out: &mut O,
) -> Result<(), ShowErr>
    requires showable { IsShowable (S.files store.old) (T.texts texts.old) number }
    requires marked { AreMarksOf (T.texts texts.old).reader marks.old }
    requires room { rows.old.total < number }
    ensures most { OnOk result (rows.new.total ≤ number) }
    ensures searched { SearchesDocument S.Store O.Sink store.old store.new out.old out.new result
        (T.texts texts.old) rows.old rows.new marks.old.phrase number }
    ensures marked { AreMarksOf (T.texts texts.new).reader marks.new }
    ensures phrase { marks.new.phrase ≡ marks.old.phrase }
    ensures passed { PassesRow (O.written out.old) (O.written out.new) rows.old rows.new result
        number (ArePlacesIn (T.texts texts.old) (S.files store.old) marks.old.phrase number) }
    ensures stepped { StepsText S.Store O.Sink store.old store.new out.old out.new result
        (T.texts texts.old) (T.texts texts.new) (ShownIn mode.Text) }
{
    let places = match texts.places(store, marks, number) {
        Ok(places) => places,
        Err(refusal) => return Err(ShowErr::from(refusal)),
    };
    match rows.pass_places(out, number, places) {
        Ok(()) => Ok(()),
        Err(refusal) => Err(ShowErr::from(refusal)),
    }
}

/// Shows the documents that have the phrase of the marks among those that satisfy a query, of which none
/// was asked for yet; `query` joins the phrase's words by `&`. No mark is kept yet.
fn search_matches<S: Store, T: Searched<S>, O: Sink>(
    texts: &mut T,
    store: &mut S,
    matches: &mut Matches<'_, S>,
    marks: &mut Marks<'_>,
    out: &mut O,
) -> Result<(), ShowErr>
    requires unmarked { marks.old.marks ≡ [] }
    requires joined { IsAllOf marks.old.phrase (Some matches.old.asks) }
    requires showable { AreShowable (S.files store.old) (T.texts texts.old) matches.old.all }
    requires unasked { AreUnasked (S.files store.old) matches.old }
    ensures { ShowsCandidates S.Store O.Sink store.old store.new out.old out.new result
        (T.texts texts.old) (T.texts texts.new) matches.old marks.old.phrase }
{
    skips_are_within();
    let mut rows = Rows::new();
    'matches: loop {
        let number = match matches.next(store) {
            Ok(Some(number)) => number,
            Ok(None) => return put_total(&mut rows.pending, out, rows.total),
            Err(refusal) => return Err(ShowErr::from(refusal)),
        };
        match search_document(texts, store, marks, number, &mut rows, out) {
            Ok(()) => {}
            Err(refusal) => return Err(refusal),
        }
    }
}

/// Shows the documents that have a phrase, rising, each with how often, and how many they are. Only
/// those that have all its words are decoded, which the query joins by `&`.
pub(crate) fn answer_phrase<S: Store, T: Searched<S>, O: Sink>(
    lists: &Lists<'_>,
    store: &mut S,
    texts: &mut T,
    phrase: &Terms,
    sought: &Sought<'_>,
    out: &mut O,
) -> Result<(), ShowErr>
    requires size { length sought.now.infos.now
        ≡ length (query_terms (query_of sought.now.query.now)) }
    requires few { length phrase.now ≤ 64 }
    requires joined { IsAllOf phrase.now (Some sought.now.query.now) }
    requires showable { AreShowable (S.files store.old) (T.texts texts.old) lists.now.all }
    ensures { ShowsPhrase S.Store O.Sink store.old store.new out.old out.new result
        lists.now.base.now (T.texts texts.old) (T.texts texts.new) lists.now.all
        (query_of sought.now.query.now) sought.now.infos.now phrase.now }
{
    let mut matches = match Matches::start(
        lists.alloc,
        lists.base,
        sought.query,
        sought.infos,
        lists.all,
    ) {
        Ok(matches) => matches,
        Err(_) => return Err(ShowErr::Part(PartErr::Memory)),
    };
    let mut marks = Marks::new(lists.alloc, phrase);
    search_matches(texts, store, &mut matches, &mut marks, out)
}

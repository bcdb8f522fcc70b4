//! The answer to ranked terms.
ghost use Rattle.std.specs.Prelude.{◌≡◌, ◌≤◌, All, length};
ghost use Rattle.mg_defs.specs.Texts.{count as count_text};
ghost use Rattle.mg_rank.specs.Ranked.{IsNumbered};
ghost use Rattle.mg_session.specs.PagesAllowed.{rows_asked};
ghost use Rattle.mg_session.specs.Calls.{AreShowable, ShowsText};
ghost use Rattle.mg_session.specs.Decided.{PutsSome};
ghost use Rattle.mg_session.specs.DocStands.{AreRowsOf, IsDocOf};
ghost use Rattle.mg_session.specs.Replying.{ShowsTerms};
ghost use Rattle.mg_session.specs.Showing.{PutsRanking, ShowsRows, ranked_pages};
ghost use Rattle.mg_session.specs.Texts.{TextsFit};

use crate::documents::Documents;
use crate::hit::show_doc;
use crate::lists::Lists;
use crate::lookup::known_of;
use crate::total::put_total;
use mg_defs::{Mode, Settings};
use mg_dev::{PartErr, ShowErr, Sink, Store};
use mg_layout::TermInfo;
use mg_rank::{RankRows, Ranked, rank};
use mg_reply::{Pending, Shown};

/// Passes on what a reply shows of rows, one after another.
fn show_rows<S: Store, D: Documents<S>, O: Sink>(
    texts: &mut D,
    store: &mut S,
    pending: &mut Pending,
    out: &mut O,
    mode: Mode,
    rows: &RankRows,
) -> Result<(), ShowErr>
    requires fits { TextsFit (S.files store.old) (D.texts texts.old) }
    requires range { All (IsNumbered (D.texts texts.old).head.documents) rows.now }
    ensures { ShowsRows S.Store O.Sink store.old store.new out.old out.new result
        (D.texts texts.old) (D.texts texts.new) pending.old pending.new mode rows.now }
{
    for place in 0..rows.len() {
        let row = rows.row(place);
        let shown = Shown {
            number: row.number,
            score: Some(row.score),
        };
        match show_doc(texts, store, pending, out, mode, shown) {
            Ok(()) => {}
            Err(refusal) => return Err(refusal),
        }
    }
    Ok(())
}

/// Shows a ranking in this mode: its rows, and how many documents there are.
fn show_ranked<S: Store, D: Documents<S>, O: Sink>(
    texts: &mut D,
    store: &mut S,
    ranked: &Ranked,
    mode: Mode,
    out: &mut O,
) -> Result<(), ShowErr>
    requires fits { TextsFit (S.files store.old) (D.texts texts.old) }
    requires range { All (IsNumbered (D.texts texts.old).head.documents) ranked.now.rows }
    ensures shown { ShowsText S.Store O.Sink store.old store.new out.old out.new result
        (D.texts texts.old) (D.texts texts.new) mode
        (PutsRanking O.written out.old out.new result mode ranked.now)
        (ranked_pages mode ranked.now.rows) }
    ensures counted { PutsSome (O.written out.old) (O.written out.new) result
        (AreRowsOf (IsDocOf (D.texts texts.old) (S.files store.old)) mode ranked.now.rows)
        (count_text ranked.now.total) }
{
    let mut pending = Pending::new();
    match show_rows(texts, store, &mut pending, out, mode, ranked.rows()) {
        Ok(()) => put_total(&mut pending, out, ranked.total()),
        Err(refusal) => Err(refusal),
    }
}

/// How many rows are asked for among so many documents: none where only their count is shown.
fn rows_asked(now: &Settings, all: u32) -> u32
    ensures { result ≡ rows_asked now.now all }
{
    match now.mode {
        Mode::Docnums | Mode::Text => now.most.unwrap_or(all),
        Mode::Count => 0,
    }
}

/// Shows the documents with any of these terms, the highest score first: the first of them, and how
/// many there are. `infos` is what the lexicon tells of the terms.
pub(crate) fn answer_terms<S: Store, D: Documents<S>, O: Sink>(
    lists: &Lists<'_>,
    store: &mut S,
    texts: &mut D,
    infos: &[Option<TermInfo>],
    now: &Settings,
    out: &mut O,
) -> Result<(), ShowErr>
    requires few { length infos.now ≤ 64 }
    requires showable { AreShowable (S.files store.old) (D.texts texts.old) lists.now.all }
    ensures { ShowsTerms S.Store O.Sink store.old store.new out.old out.new result
        lists.now.base.now (D.texts texts.old) (D.texts texts.new) lists.now.all infos.now
        now.now }
{
    let known = match known_of(lists.alloc, infos) {
        Ok(known) => known,
        Err(_) => return Err(ShowErr::Part(PartErr::Memory)),
    };
    let most = rows_asked(now, lists.all);
    let ranked = match rank(lists.alloc, store, lists.base, &known, lists.all, most) {
        Ok(ranked) => ranked,
        Err(refusal) => return Err(ShowErr::from(refusal)),
    };
    show_ranked(texts, store, &ranked, now.mode, out)
}

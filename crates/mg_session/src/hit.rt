//! A document of an answer, as it is shown from the coded text.
ghost use Rattle.std.specs.Prelude.{◌≡◌};
ghost use Rattle.mg_defs.specs.declared.session.Mode.TheVariants as mode;
ghost use Rattle.mg_session.specs.Calls.{IsShowable};
ghost use Rattle.mg_session.specs.Showing.{ShowsDoc, ShowsHit};

use crate::documents::Documents;
use crate::rows::Rows;
use mg_defs::{Mode, Settings};
use mg_dev::{ShowErr, Sink, Store};
use mg_reply::{Pending, Shown, shows};

/// Passes on a document's header, its text and what closes it. What waits goes to the sink first, and
/// the text goes there straight. It stands apart so that a document that is only counted or numbered
/// does not pay for the room that texts take.
#[inline(never)]
fn show_text<S: Store, D: Documents<S>, O: Sink>(
    texts: &mut D,
    store: &mut S,
    pending: &mut Pending,
    out: &mut O,
    shown: Shown,
) -> Result<(), ShowErr>
    requires { IsShowable (S.files store.old) (D.texts texts.old) shown.number }
    ensures { ShowsDoc S.Store O.Sink store.old store.new out.old out.new result
        (D.texts texts.old) (D.texts texts.new) pending.old pending.new mode.Text shown }
{
    match pending.header(out, shown.number, shown.score) {
        Ok(()) => {}
        Err(refusal) => return Err(ShowErr::from(refusal)),
    }
    match pending.flush(out) {
        Ok(()) => {}
        Err(refusal) => return Err(ShowErr::from(refusal)),
    }
    match texts.doc(store, shown.number, out) {
        Ok(()) => {}
        Err(refusal) => return Err(refusal),
    }
    match pending.close(out) {
        Ok(()) => Ok(()),
        Err(refusal) => Err(ShowErr::from(refusal)),
    }
}

/// Passes on what a reply shows of a document. Only where its text is shown is the text read.
pub(crate) fn show_doc<S: Store, D: Documents<S>, O: Sink>(
    texts: &mut D,
    store: &mut S,
    pending: &mut Pending,
    out: &mut O,
    mode: Mode,
    shown: Shown,
) -> Result<(), ShowErr>
    requires { IsShowable (S.files store.old) (D.texts texts.old) shown.number }
    ensures { ShowsDoc S.Store O.Sink store.old store.new out.old out.new result
        (D.texts texts.old) (D.texts texts.new) pending.old pending.new mode shown }
{
    match mode {
        Mode::Docnums => match pending.row(out, shown.number, shown.score) {
            Ok(()) => Ok(()),
            Err(refusal) => Err(ShowErr::from(refusal)),
        },
        Mode::Text => show_text(texts, store, pending, out, shown),
        Mode::Count => Ok(()),
    }
}

/// Passes on what a reply shows of a document, if there is room for it after those that were counted.
pub(crate) fn show_hit<S: Store, D: Documents<S>, O: Sink>(
    texts: &mut D,
    store: &mut S,
    rows: &mut Rows,
    out: &mut O,
    now: &Settings,
    number: u32,
) -> Result<(), ShowErr>
    requires { IsShowable (S.files store.old) (D.texts texts.old) number }
    ensures hit { ShowsHit S.Store O.Sink store.old store.new out.old out.new result
        (D.texts texts.old) (D.texts texts.new) rows.old rows.new now.now number }
    ensures total { rows.new.total ≡ rows.old.total }
{
    if !shows(now.most, rows.total) {
        return Ok(());
    }
    let shown = Shown {
        number,
        score: None,
    };
    show_doc(texts, store, &mut rows.pending, out, now.mode, shown)
}

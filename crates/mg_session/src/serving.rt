//! What each session over files does: its head is loaded, and its lines are answered.
ghost use Rattle.std.specs.Prelude.{IfOk};
ghost use Rattle.mg_dev.specs.Moments.{sink_at, source_at, store_at};
ghost use Rattle.mg_session.specs.Opening.{HeadOpened};
ghost use Rattle.mg_session.specs.Served.{LinesServed};
ghost use Rattle.mg_session.specs.Texts.{HasFewPieces};

use mg_defs::Hearing;
use mg_dev::{Fault, Sink, Source, Store};
use mg_layout::Head;
use mg_reply::{Answerer, fault_of, serve_lines};

/// Loads the head of the files under a base.
pub(crate) fn load_head<S: Store>(store: &mut S, base: &str) -> Result<Head, Fault>
    ensures few { IfOk result HasFewPieces }
    ensures opened { HeadOpened base.now
        (store_at S.files S.reads S.faults store.old)
        (store_at S.files S.reads S.faults store.new) result }
{
    let loaded = match Head::load(store, base) {
        Ok(loaded) => loaded,
        Err(refusal) => return Err(Fault::from(refusal)),
    };
    match loaded {
        Some(head) => Ok(head),
        None => Err(Fault::NotBuilt),
    }
}

/// Answers the lines of an input in turn, to its end or to a line `.quit`. The answerer is dropped here,
/// so that who opened it has nothing of its parts to drop.
pub(crate) fn answer_lines<I: Source, O: Sink, A: Answerer + Drop>(
    hearing: Hearing,
    answerer: A,
    dev: &mut A::Dev,
    input: &mut I,
    out: &mut O,
) -> Result<(), Fault>
    requires fits { A.fits (A.state answerer dev.old) }
    ensures served { (after : A) × LinesServed hearing A.answers A.after A.prints A.may_stop
        (A.state answerer dev.old) (A.state after dev.new)
        (source_at I.left I.faults input.old) (source_at I.left I.faults input.new)
        (sink_at O.written O.faults O.lacks out.old) (sink_at O.written O.faults O.lacks out.new)
        result }
{
    let mut answerer = answerer;
    match serve_lines(hearing, &mut answerer, dev, input, out) {
        Ok(()) => Ok(()),
        Err(error) => Err(fault_of(error)),
    }
}

//! The documents of an answer, as they are shown.
ghost use Rattle.std.specs.Prelude.{◌≡◌, ◌++◌, Some, None};
ghost use Rattle.mg_defs.specs.Texts.{close};
ghost use Rattle.mg_defs.specs.ShownAnswers.{shown_as};
ghost use Rattle.mg_defs.specs.Replies.{shows as shows_spec};
ghost use Rattle.mg_reply.specs.Pending.{PassesText};
ghost use Rattle.mg_reply.specs.Printed.{at_score, hit_by};

use crate::Pending;
use mg_defs::{Mode, Settings};
use mg_dev::{PutErr, Sink};

/// A document of an answer, with its score where the answer is ranked.
#[derive(Clone, Copy, Drop)]
pub struct Shown {
    /// Its number, from 1 on.
    pub number: u32,
    /// Its score.
    pub score: Option<u64>,
}

/// Whether one document more is shown after so many of them.
pub fn shows(most: Option<u32>, total: u32) -> bool
    ensures { result ≡ shows_spec most total }
{
    match most {
        None => true,
        Some(most) => total < most,
    }
}

/// Passes on a document's bytes, and what stands after them.
fn pass_closed<O: Sink>(pending: &mut Pending, out: &mut O, doc: &[u8]) -> Result<(), PutErr>
    ensures { PassesText O.Sink out.old out.new pending.old pending.new result (doc.now ++ close) }
{
    match pending.put(out, doc) {
        Ok(()) => pending.close(out),
        Err(error) => Err(error),
    }
}

/// Passes on what a reply shows of a document with these bytes.
pub fn pass_shown<O: Sink>(
    pending: &mut Pending,
    out: &mut O,
    mode: Mode,
    shown: Shown,
    doc: &[u8],
) -> Result<(), PutErr>
    ensures { PassesText O.Sink out.old out.new pending.old pending.new result
        (shown_as doc.now mode (at_score shown.number shown.score)) }
{
    match mode {
        Mode::Docnums => pending.row(out, shown.number, shown.score),
        Mode::Text => match pending.header(out, shown.number, shown.score) {
            Ok(()) => pass_closed(pending, out, doc),
            Err(error) => Err(error),
        },
        Mode::Count => Ok(()),
    }
}

/// Passes on what a reply shows of a document, if there is room for it after so many of them.
#[tactic(auto, using(crate::proofs::PendingLaws::passes_nothing), unfolding(mg_defs::specs::Replies::hit_text))]
pub fn pass_hit<O: Sink>(
    pending: &mut Pending,
    out: &mut O,
    now: &Settings,
    total: u32,
    shown: Shown,
    doc: &[u8],
) -> Result<(), PutErr>
    ensures { PassesText O.Sink out.old out.new pending.old pending.new result
        (hit_by now.now doc.now total (at_score shown.number shown.score)) }
{
    if !shows(now.most, total) {
        return Ok(());
    }
    pass_shown(pending, out, now.mode, shown, doc)
}

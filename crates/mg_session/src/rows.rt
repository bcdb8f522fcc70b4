//! The rows of an answer.
ghost use Rattle.std.specs.Prelude.{◌≡◌, ◌+◌, ◌≤◌, ◌<◌, [], OnOk, length};
ghost use Rattle.mg_reply.specs.Pending.{PassesText};
ghost use Rattle.mg_session.specs.PhraseAnswers.{found_at, rows_of};

use mg_dev::{PutErr, Sink};
use mg_reply::Pending;

/// The rows of an answer that were passed on: what waits of them, and how many documents were counted.
#[derive(Drop)]
pub(crate) struct Rows {
    pub(crate) pending: Pending,
    pub(crate) total: u32,
}

impl Rows {
    /// None yet.
    pub(crate) fn new() -> Self
        ensures waiting { result.pending ≡ [] }
        ensures total { result.total ≡ 0 }
    {
        Rows {
            pending: Pending::new(),
            total: 0,
        }
    }

    /// Passes on the row of a document in which a phrase has so many places, if it has any.
    #[tactic(auto, unfolding(crate::specs::PhraseAnswers::rows_of))]
    pub(crate) fn pass_places<O: Sink>(
        &mut self,
        out: &mut O,
        number: u32,
        places: u64,
    ) -> Result<(), PutErr>
        requires room { self.old.total < number }
        ensures passed { PassesText O.Sink out.old out.new self.old.pending self.new.pending result
            (rows_of (found_at number places)) }
        ensures counted { OnOk result
            (self.new.total ≡ self.old.total + length (found_at number places)) }
        ensures most { OnOk result (self.new.total ≤ number) }
    {
        if places == 0 {
            return Ok(());
        }
        self.total += 1;
        self.pending.row(out, number, Some(places))
    }
}

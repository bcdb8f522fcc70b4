//! The end of an answer.
ghost use Rattle.std.specs.Prelude.{◌++◌};
ghost use Rattle.mg_defs.specs.Texts.{count as count_text};
ghost use Rattle.mg_reply.specs.Printed.{Puts};
ghost use Rattle.mg_session.specs.Calls.{WritesAlone};

use mg_dev::{ShowErr, Sink};
use mg_reply::Pending;

/// Passes on how many documents an answer has, and puts all that waits.
pub(crate) fn put_total<O: Sink>(
    pending: &mut Pending,
    out: &mut O,
    total: u32,
) -> Result<(), ShowErr>
    ensures content { Puts O.written out.old out.new result (pending.old ++ count_text total) }
    ensures alone { WritesAlone O.Sink out.old out.new result }
{
    match pending.count(out, total) {
        Ok(()) => {}
        Err(refusal) => return Err(ShowErr::from(refusal)),
    }
    match pending.flush(out) {
        Ok(()) => Ok(()),
        Err(refusal) => Err(ShowErr::from(refusal)),
    }
}

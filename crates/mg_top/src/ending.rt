//! How a run ends.
ghost use Rattle.std.specs.Prelude.{◌≡◌};
ghost use Rattle.mg_dev.specs.Runs.{status_of};
ghost use Rattle.mg_top.specs.Ends.{ToldWhy};

use mg_dev::{Fault, Sink, Status, put_fault_line};

/// The status of what was answered. Where it was refused, the fault's line is told; a failed write there changes nothing.
pub(crate) fn ended<E: Sink>(answer: Result<(), Fault>, err: &mut E) -> Status
    ensures status { result ≡ status_of answer }
    ensures told { ToldWhy (status_of answer) (E.written err.old) (E.written err.new)
        (E.faults err.old) (E.faults err.new) (E.lacks err.old) (E.lacks err.new) }
{
    match answer {
        Ok(()) => Status::Done,
        Err(fault) => {
            let _ = put_fault_line(err, &fault);
            Status::Stopped(fault)
        }
    }
}

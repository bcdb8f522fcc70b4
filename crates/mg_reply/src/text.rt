//! The texts of replies.
ghost use Rattle.std.specs.Prelude.{◌≡◌, ◌≢◌, ◌≤◌, ◌++◌, ℕ, List, decimal, codes, IfSome, IfErr, IsErrOf};
ghost use Rattle.mg_dev.specs.Causes.{HasPutCause, HasLack, Rose};
ghost use Rattle.mg_dev.specs.Streams.{AfterPut};
ghost use Rattle.mg_defs.specs.Texts.{row as row_text, header as header_text, close as close_text, count as count_text, bad_command, line_too_long};
ghost use Rattle.mg_defs.specs.Replies.{refusal};
ghost use Rattle.mg_query.specs.RefusalOf.{refusal_of};
ghost use Rattle.mg_reply.specs.Pending.{PutsText};
ghost use Rattle.mg_reply.specs.Refusals.{AnswerStops};

use crate::Pending;
use mg_dev::{PartErr, PutErr, ShowErr, Sink};
use mg_query::QueryErr;

/// Writes the row of a document.
pub fn put_row<O: Sink>(out: &mut O, number: u32, score: Option<u64>) -> Result<(), PutErr>
    ensures { PutsText O.Sink out.old out.new result (row_text number score) }
{
    let mut pending = Pending::new();
    match pending.row(out, number, score) {
        Ok(()) => pending.flush(out),
        Err(error) => Err(error),
    }
}

/// Writes what stands before a document that is shown.
pub fn put_shown<O: Sink>(out: &mut O, number: u32, score: Option<u64>) -> Result<(), PutErr>
    ensures { PutsText O.Sink out.old out.new result (header_text number score) }
{
    let mut pending = Pending::new();
    match pending.header(out, number, score) {
        Ok(()) => pending.flush(out),
        Err(error) => Err(error),
    }
}

/// Writes what stands after a document that is shown.
#[tactic(auto, unfolding(mg_defs::specs::Texts::close))]
pub fn put_close<O: Sink>(out: &mut O) -> Result<(), PutErr>
    ensures { PutsText O.Sink out.old out.new result close_text }
{
    out.put(b"\x02\n")
}

/// Writes how many documents an answer has.
pub fn put_count<O: Sink>(out: &mut O, total: u32) -> Result<(), PutErr>
    ensures { PutsText O.Sink out.old out.new result (count_text total) }
{
    let mut pending = Pending::new();
    match pending.count(out, total) {
        Ok(()) => pending.flush(out),
        Err(error) => Err(error),
    }
}

/// Writes why a line is no query; want of memory is no such reason.
#[tactic(auto, unfolding(mg_defs::specs::Replies::refusal))]
pub fn put_refusal<O: Sink>(out: &mut O, why: &QueryErr) -> Result<(), PutErr>
    requires { why.now ≢ QueryErr.Memory }
    ensures content { IfSome (refusal_of why.now) (λ refused.
        AfterPut (O.written out.old) (O.written out.new) (refusal refused) result) }
    ensures cause { HasPutCause (O.faults out.old) (O.faults out.new) result }
    ensures lack { HasLack (O.lacks out.old) (O.lacks out.new) result }
{
    match why {
        QueryErr::Syntax { at } => put_place(out, b"? syntax at ", *at),
        QueryErr::TooDeep { at } => put_place(out, b"? too deep at ", *at),
        QueryErr::TermTooLong { at } => put_place(out, b"? word too long at ", *at),
        QueryErr::TooManyTerms { at } => put_place(out, b"? too many words at ", *at),
        QueryErr::Memory => unreachable!(),
    }
}

/// Writes why a line is no query, or answers that the allocator lacked the memory to read it.
pub fn answer_refused<O: Sink>(out: &mut O, why: QueryErr) -> Result<(), ShowErr>
    ensures content { (text : List ℕ) →
        IfSome (refusal_of why) (λ refused. text ≡ refusal refused) →
        AfterPut (O.written out.old) (O.written out.new) text result }
    ensures later { O.faults out.old ≤ O.faults out.new }
    ensures lacks { O.lacks out.old ≤ O.lacks out.new }
    ensures cause { IfErr result (AnswerStops (Rose (O.faults out.old) (O.faults out.new))
        (Rose (O.lacks out.old) (O.lacks out.new))) }
    ensures silent { IsErrOf result (ShowErr.Part PartErr.Memory) →
        O.written out.new ≡ O.written out.old }
{
    if let QueryErr::Memory = why {
        return Err(ShowErr::Part(PartErr::Memory));
    }
    match put_refusal(out, &why) {
        Ok(()) => Ok(()),
        Err(error) => Err(ShowErr::from(error)),
    }
}

/// Writes a reason and its place.
fn put_place<O: Sink>(out: &mut O, reason: &[u8], at: u32) -> Result<(), PutErr>
    ensures { PutsText O.Sink out.old out.new result (reason.now ++ decimal at ++ codes "\n") }
{
    let mut pending = Pending::new();
    match pending.put(out, reason) {
        Ok(()) => {}
        Err(error) => return Err(error),
    }
    match pending.row(out, at, None) {
        Ok(()) => pending.flush(out),
        Err(error) => Err(error),
    }
}

/// Writes the reply to a line that begins with a full stop and is no command.
#[tactic(auto, unfolding(mg_defs::specs::Texts::bad_command))]
pub fn put_wrong<O: Sink>(out: &mut O) -> Result<(), PutErr>
    ensures { PutsText O.Sink out.old out.new result bad_command }
{
    out.put(b"? bad command\n")
}

/// Writes the reply to a line of more than 1,024 bytes.
#[tactic(auto, unfolding(mg_defs::specs::Texts::line_too_long))]
pub fn put_too_long<O: Sink>(out: &mut O) -> Result<(), PutErr>
    ensures { PutsText O.Sink out.old out.new result line_too_long }
{
    out.put(b"? line too long\n")
}

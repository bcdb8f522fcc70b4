//! A session over a collection, from its name to its last reply.
ghost use Rattle.std.specs.Prelude.{◌≡◌, ◌≢◌, ◌≤◌, ℕ, List, false, None, IsSome, OnOk, IsErrOf, refl};
ghost use Rattle.std.specs.Option.{ForSome};
ghost use Rattle.std.proofs.Common.{◌∙◌, ap, sym};
ghost use Rattle.mg_dev.specs.Files.{file_at, bytes_at};
ghost use Rattle.mg_dev.specs.declared.part.Part.{Part};
ghost use Rattle.mg_dev.specs.declared.part.Part.TheVariants.{Plain};
ghost use Rattle.mg_dev.specs.declared.fault.Fault.TheVariants.{NoCollection, ReadFault, TooLarge};
ghost use Rattle.mg_dev.specs.declared.part_err.PartErr.TheVariants as part;
ghost use Rattle.mg_defs.specs.declared.session.Hearing.TheVariants.{Commands};
ghost use Rattle.mg_defs.specs.Replies.{session, reply as reply_spec};
ghost use Rattle.mg_defs.specs.InputLimit.{is_too_much};
ghost use Rattle.mg_defs.specs.Limits.{input_limit};
ghost use Rattle.mg_dev.specs.Runs.{RefusedFor};
ghost use Rattle.mg_dev.specs.Streams.{appended};
ghost use Rattle.mg_reply.specs.Printed.{PrintsAll, PrintsPrefix, Runs, StopsBy};
ghost use Rattle.mg_reply.specs.PrintedLines.{RepliedBroken};
ghost use Rattle.mg_reply.specs.Served.{LeftEnough, PrintedInTurn};
ghost use Rattle.mg_plain.specs.Scanned.{Scanned};
ghost use Rattle.mg_plain.specs.Stops.{RefusesLarge, ScanStops};

use crate::PlainText;
use mg_defs::Settings;
use mg_dev::{Fault, ShowErr, Sink, Source, Store};
use mg_reply::{Answerer, Hearing, fault_of, serve_lines};
use std::alloc::Global;

/// The device of a scan, which reads none once its text is held.
#[derive(Drop)]
struct NoDev;

/// Answers the query lines of a session from a plain text, which stays as it is.
#[derive(Drop)]
struct Scanner {
    alloc: Global,
    text: PlainText,
}

impl Answerer for Scanner {
    type Dev = NoDev;

    ghost State = { List ℕ };

    ghost state = { λ s _. s.text };

    ghost fits = { λ _. Unit {0} };

    ghost answers = { λ s reply. reply ≡ reply_spec s };

    ghost after = { λ s t _. t ≡ s };

    ghost prints = { λ s question before now. now ≡ appended before (reply_spec s question.now question.line) };

    ghost may_stop = { λ _ _ error. error ≡ part.Memory };

    fn answer_line<O: Sink>(
        &mut self,
        _dev: &mut NoDev,
        line: &[u8],
        now: &Settings,
        out: &mut O,
    ) -> Result<(), ShowErr> {
        self.text.answer(self.alloc, line, now, out)
    }

    ghost after_none = { λ _. refl };

    ghost after_more = { λ _ _ _ _ _ first more. more ∙ first };

    ghost same_reply = { λ _ _ _ _ same answers. answers ∙ sym (ap reply_spec same) };

    ghost same_prints = { λ _ _ _ question before _ same printed. printed ∙ ap (λ t. appended before (reply_spec t question.now question.line)) same };

    ghost stops_later = { λ _ _ _ _ _ _ stops. stops };
}

/// Prints the session that the input asks of the collection of this name, and tells how each device stands then.
fn scan_text<S: Store, I: Source, O: Sink>(
    alloc: Global,
    store: &mut S,
    name: &str,
    input: &mut I,
    out: &mut O,
) -> Result<(), Fault>
    ensures files { S.files store.new ≡ S.files store.old }
    ensures reads { (p : Part) → p ≢ Plain → S.reads store.new p ≡ S.reads store.old p }
    ensures all { IsSome (S.files store.old) →
        PrintsAll I.left O.written input.old out.old out.new result session
        (bytes_at (S.files store.old) name.now) }
    ensures left { ForSome (I.left input.old)
        (λ given. OnOk result (LeftEnough given (I.left input.new))) }
    ensures within { ForSome (I.left input.old) (λ given.
        OnOk result (is_too_much input_limit given ≡ false)) }
    ensures prefix { IsSome (S.files store.old) →
        PrintsPrefix I.left O.written input.old out.old out.new session
        (bytes_at (S.files store.old) name.now) }
    ensures in_turn { IsSome (S.files store.old) →
        PrintedInTurn Commands (reply_spec (bytes_at (S.files store.old) name.now))
        (I.left input.old) (I.left input.new) (O.written out.old) (O.written out.new) }
    ensures broken { IsSome (S.files store.old) → IsErrOf result ReadFault →
        ForSome (I.left input.old)
        (RepliedBroken Commands (reply_spec (bytes_at (S.files store.old) name.now))
        (O.written out.old) (O.written out.new) (I.left input.new)) }
    ensures silent { IsErrOf result NoCollection → O.written out.new ≡ O.written out.old }
    ensures silent_large { (size most : ℕ) → IsErrOf result (TooLarge size most) →
        O.written out.new ≡ O.written out.old }
    ensures cause { StopsBy S.Store I.Source O.Sink store.old store.new input.old input.new out.old
        out.new result (ScanStops name.now) }
    ensures missing { IsSome (S.files store.old) → file_at (S.files store.old) name.now ≡ None →
        RefusedFor result NoCollection }
    ensures large { IsSome (S.files store.old) →
        RefusesLarge result (bytes_at (S.files store.old) name.now) }
    ensures store_later { S.faults store.old ≤ S.faults store.new }
{
    let text = match PlainText::load(alloc, store, name) {
        Ok(text) => text,
        Err(fault) => return Err(fault),
    };
    let mut scanner = Scanner { alloc, text };
    match serve_lines(Hearing::Commands, &mut scanner, &mut NoDev, input, out) {
        Ok(()) => Ok(()),
        Err(error) => Err(fault_of(error)),
    }
}

/// Prints the session that the input asks of the collection of this name.
///
/// The collection is read once, before the first line; nothing is printed where that is refused. No
/// reply is held back: it is printed before more than 4,096 bytes behind its line are taken, and where
/// the input fails, all whole lines that were taken were replied to.
///
/// # Errors
///
/// `NoCollection` where the file is missing, `TooLarge` where it has more than 2^28 bytes,
/// `Changed` where it gave fewer bytes than its size, `InputTooLong` where the input has more than
/// 2^32 bytes and no line `.quit` within them, `StoreFault`, `ReadFault` and `WriteFault` where a
/// device failed, and `Memory`. The replies up to there are printed.
pub fn scan<S: Store, I: Source, O: Sink>(
    alloc: Global,
    store: &mut S,
    name: &str,
    input: &mut I,
    out: &mut O,
) -> Result<(), Fault>
    // What a run does that scans, whatever its error output is.
    ensures scanned { Runs S.Store I.Source O.Sink store.old store.new input.old input.new out.old
        out.new result (Scanned name.now) }
    ensures store_later { S.faults store.old ≤ S.faults store.new }
{
    scan_text(alloc, store, name, input, out)
}

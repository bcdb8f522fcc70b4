//! A session: a reply to each line of an input.
ghost use Rattle.std.specs.Prelude.{◌≡◌, ℕ, ◌≤◌, List, [], ◌∷◌, ◌++◌, length, OnOk, IfOk, IfErr, IsErrOf, false};
ghost use Rattle.std.specs.Option.{ForSome};
ghost use Rattle.std.specs.declared.option.Option.{Option};
ghost use Rattle.mg_dev.specs.Causes.{Rose};
ghost use Rattle.mg_dev.specs.Each.{ForEach};
ghost use Rattle.mg_dev.specs.declared.part_err.PartErr.{PartErr};
ghost use Rattle.mg_dev.specs.declared.show_err.ShowErr.TheVariants.{Write};
ghost use Rattle.mg_defs.specs.declared.session.Settings.{Settings};
ghost use Rattle.mg_defs.specs.Commands.{command, settings_after, stops as stops_spec};
ghost use Rattle.mg_defs.specs.Session.{heard_session, hears, Question, asked_by};
ghost use Rattle.mg_defs.specs.InputLimit.{is_too_much};
ghost use Rattle.mg_defs.specs.Limits.{input_limit};
ghost use Rattle.mg_reply.specs.Served.{AnsweredSome, LeftEnough, PartStops, RepliedInTurn, fault_of_serve};
ghost use Rattle.mg_reply.specs.Printed.{EndsWhere, PrintsAll, PrintsPrefix, Puts, heard_text};
ghost use Rattle.mg_reply.specs.PrintedLines.{AnsweredBroken, CommandPrints, InputPrints, RepliedBroken};
ghost use Rattle.mg_reply.specs.declared.serve.ServeErr.TheVariants as serve;

use crate::{LineErr, LineEvent, LineReader, put_too_long, put_wrong, read_command};
use mg_defs::{Command, Hearing, Settings};
use mg_dev::{Fault, ShowErr, Sink, Source, refused_put};

/// Answers the query lines of a session. Its calls take the device that it reads from.
pub trait Answerer {
    /// What it reads from.
    type Dev;

    /// What contracts see of an answerer and its device.
    ghost State: { Type 0 };

    /// The state that the two are in.
    ghost state: { Self → Self.Dev → State };

    /// What a state keeps from line to line.
    ghost fits: { State → Type 0 };

    /// A state answers by this reply function.
    ghost answers: { State → (Settings → List ℕ → List ℕ) → Type 0 };

    /// What holds between two states where these queries were answered in between.
    ghost after: { State → State → List Question → Type 0 };

    /// What is told of the output before a query line and after it, where a state answered it with
    /// `Ok`, whatever there is to answer from.
    ghost prints: { State → Question → (before now : Option (List ℕ)) → Type 0 };

    /// Why a part may be refused between two states.
    ghost may_stop: { State → State → PartErr → Type 0 };

    /// Writes the reply to a query line.
    fn answer_line<O: Sink>(
        &mut self,
        dev: &mut Self::Dev,
        line: &[u8],
        now: &Settings,
        out: &mut O,
    ) -> Result<(), ShowErr>
        requires short { length line.now ≤ 1024 }
        requires fits { fits (state self.old dev.old) }
        ensures fits { fits (state self.new dev.new) }
        ensures content { ForEach (answers (state self.old dev.old))
            (λ reply. Puts O.written out.old out.new result (reply now.now line.now)) }
        ensures after { after (state self.old dev.old) (state self.new dev.new)
            (record { now = now.now; line = line.now } ∷ []) }
        ensures printed { OnOk result (prints (state self.old dev.old)
            (record { now = now.now; line = line.now }) (O.written out.old) (O.written out.new)) }
        ensures later { O.faults out.old ≤ O.faults out.new }
        ensures write { IsErrOf result Write → Rose (O.faults out.old) (O.faults out.new) }
        ensures part { IfErr result (PartStops
            (may_stop (state self.old dev.old) (state self.new dev.new))) };

    ghost after_none: { (s : State) → after s s [] };

    ghost after_more: { (s t u : State) (xs ys : List Question) → after s t xs → after t u ys → after s u (xs ++ ys) };

    ghost same_reply: { (s t : State) (xs : List Question) (reply : Settings → List ℕ → List ℕ) → after s t xs → answers s reply → answers t reply };

    ghost same_prints: { (s t : State) (xs : List Question) (question : Question) (before now : Option (List ℕ)) → after s t xs → prints t question before now → prints s question before now };

    ghost stops_later: { (s t u : State) (xs : List Question) (error : PartErr) → after s t xs → may_stop t u error → may_stop s u error };
}

/// Why a session stopped.
#[derive(Clone, Copy, Debug, PartialEq, Eq)]
pub enum ServeErr {
    /// The input failed.
    Read,
    /// The input is too long.
    TooMuch,
    /// A reply could not be written.
    Show(ShowErr),
}

/// The fault of a session that stopped.
pub fn fault_of(error: ServeErr) -> Fault
    ensures { result ≡ fault_of_serve error }
{
    match error {
        ServeErr::Read => Fault::ReadFault,
        ServeErr::TooMuch => Fault::InputTooLong,
        ServeErr::Show(error) => Fault::from(error),
    }
}

/// Answers one line, and says whether it ends the session.
fn serve_line<O: Sink, A: Answerer>(
    hearing: Hearing,
    answerer: &mut A,
    dev: &mut A::Dev,
    line: &[u8],
    now: &mut Settings,
    out: &mut O,
) -> Result<bool, ShowErr>
    requires short { length line.now ≤ 1024 }
    requires fits { A.fits (A.state answerer.old dev.old) }
    ensures fits { A.fits (A.state answerer.new dev.new) }
    ensures after { A.after (A.state answerer.old dev.old) (A.state answerer.new dev.new)
        (asked_by now.old line.now (hears hearing (command line.now now.old))) }
    ensures text { ForEach (A.answers (A.state answerer.old dev.old))
        (λ reply. Puts O.written out.old out.new result
        (heard_text hearing now.old line.now reply)) }
    ensures printed { OnOk result (CommandPrints (A.prints (A.state answerer.old dev.old))
        now.old line.now (hears hearing (command line.now now.old))
        (O.written out.old) (O.written out.new)) }
    ensures settings { OnOk result (now.new ≡ settings_after now.old
        (hears hearing (command line.now now.old))) }
    ensures stops { IfOk result (λ stop. stop ≡ stops_spec (command line.now now.old)) }
    ensures later { O.faults out.old ≤ O.faults out.new }
    ensures write { IsErrOf result Write → Rose (O.faults out.old) (O.faults out.new) }
    ensures part { IfErr result (PartStops
        (A.may_stop (A.state answerer.old dev.old) (A.state answerer.new dev.new))) }
{
    match hearing.hear(read_command(line, now)) {
        Command::Skip => Ok(false),
        Command::Quit => Ok(true),
        Command::Set(changed) => {
            *now = changed;
            Ok(false)
        }
        Command::Wrong => match put_wrong(out) {
            Ok(()) => Ok(false),
            Err(error) => Err(refused_put(error)),
        },
        Command::Ask => match answerer.answer_line(dev, line, now, out) {
            Ok(()) => Ok(false),
            Err(error) => Err(error),
        },
    }
}

// The same, where the reader of the lines has read nothing.
fn serve_from<I: Source, O: Sink, A: Answerer>(
    hearing: Hearing,
    answerer: &mut A,
    dev: &mut A::Dev,
    reader: &mut LineReader,
    input: &mut I,
    out: &mut O,
) -> Result<(), ServeErr>
    requires fits { A.fits (A.state answerer.old dev.old) }
    requires unread { reader.old ≡ record { held = []; line = []; used = 0 } }
    ensures all { ForEach (A.answers (A.state answerer.old dev.old))
        (PrintsAll I.left O.written input.old out.old out.new result (heard_session hearing)) }
    ensures prefix { ForEach (A.answers (A.state answerer.old dev.old))
        (PrintsPrefix I.left O.written input.old out.old out.new (heard_session hearing)) }
    // Whatever the state answers by, each line was answered.
    ensures printed { ForSome (I.left input.old) (λ bytes. OnOk result
        (InputPrints hearing (A.prints (A.state answerer.old dev.old))
        (O.written out.old) (O.written out.new) bytes)) }
    ensures left { ForSome (I.left input.old)
        (λ bytes. OnOk result (LeftEnough bytes (I.left input.new))) }
    ensures within { ForSome (I.left input.old) (λ bytes.
        OnOk result (is_too_much input_limit bytes ≡ false)) }
    ensures answered { AnsweredSome hearing A.after (A.state answerer.old dev.old)
        (A.state answerer.new dev.new) (I.left input.old) }
    ensures in_turn { ForEach (A.answers (A.state answerer.old dev.old))
        (λ reply. RepliedInTurn hearing A.after (A.state answerer.old dev.old)
        (A.state answerer.new dev.new)
        reply (I.left input.old) (I.left input.new) (O.written out.old) (O.written out.new)) }
    // Where the input failed, no whole line was left without its reply.
    ensures broken { ForEach (A.answers (A.state answerer.old dev.old)) (λ reply.
        IsErrOf result serve.Read → ForSome (I.left input.old) (RepliedBroken hearing reply
        (O.written out.old) (O.written out.new) (I.left input.new))) }
    ensures answered_broken { IsErrOf result serve.Read → ForSome (I.left input.old)
        (AnsweredBroken hearing (A.prints (A.state answerer.old dev.old))
        (O.written out.old) (O.written out.new) (I.left input.new)) }
    ensures read_later { I.faults input.old ≤ I.faults input.new }
    ensures write_later { O.faults out.old ≤ O.faults out.new }
    ensures cause { EndsWhere I.left I.faults O.faults A.state A.may_stop input.old input.new
        out.old out.new
        answerer.old answerer.new dev.old dev.new result }
{
    let mut now = Settings::start();
    'lines: loop {
        match reader.next(input) {
            Ok(LineEvent::End) => return Ok(()),
            Ok(LineEvent::TooLong) => match put_too_long(out) {
                Ok(()) => {}
                Err(error) => return Err(ServeErr::Show(refused_put(error))),
            },
            Ok(LineEvent::Line) => match serve_line(
                hearing,
                answerer,
                dev,
                reader.line(),
                &mut now,
                out,
            ) {
                Ok(false) => {}
                Ok(true) => return Ok(()),
                Err(error) => return Err(ServeErr::Show(error)),
            },
            Err(LineErr::Read) => return Err(ServeErr::Read),
            Err(LineErr::TooMuch) => return Err(ServeErr::TooMuch),
        }
    }
}

/// Answers the lines of an input in turn, to its end or to a line `.quit`.
///
/// It reads ahead, so bytes of the input behind a line `.quit` may be taken too. Where the input is
/// told, it is too long exactly where it has more than 2^32 bytes and no line `.quit` ends within
/// the first 2^32; the lines up to there are answered. Nothing else ends a session, however its
/// lines are heard. No reply is held back: whatever ends the session, the replies to the lines
/// before the last that was taken up were written whole, and of what stands behind that line at
/// most 4,096 bytes were taken. Where the input failed, all whole lines that were taken were replied
/// to before: a line whose end was read does not wait for what is behind it.
///
/// At `Ok` each line was answered with `Ok`, whatever there is to answer from.
pub fn serve_lines<I: Source, O: Sink, A: Answerer>(
    hearing: Hearing,
    answerer: &mut A,
    dev: &mut A::Dev,
    input: &mut I,
    out: &mut O,
) -> Result<(), ServeErr>
    requires { A.fits (A.state answerer.old dev.old) }
    ensures all { ForEach (A.answers (A.state answerer.old dev.old))
        (PrintsAll I.left O.written input.old out.old out.new result (heard_session hearing)) }
    ensures prefix { ForEach (A.answers (A.state answerer.old dev.old))
        (PrintsPrefix I.left O.written input.old out.old out.new (heard_session hearing)) }
    // Whatever the state answers by, each line was answered.
    ensures printed { ForSome (I.left input.old) (λ bytes. OnOk result
        (InputPrints hearing (A.prints (A.state answerer.old dev.old))
        (O.written out.old) (O.written out.new) bytes)) }
    ensures left { ForSome (I.left input.old)
        (λ bytes. OnOk result (LeftEnough bytes (I.left input.new))) }
    ensures within { ForSome (I.left input.old) (λ bytes.
        OnOk result (is_too_much input_limit bytes ≡ false)) }
    ensures answered { AnsweredSome hearing A.after (A.state answerer.old dev.old)
        (A.state answerer.new dev.new) (I.left input.old) }
    ensures in_turn { ForEach (A.answers (A.state answerer.old dev.old))
        (λ reply. RepliedInTurn hearing A.after (A.state answerer.old dev.old)
        (A.state answerer.new dev.new)
        reply (I.left input.old) (I.left input.new) (O.written out.old) (O.written out.new)) }
    // Where the input failed, no whole line was left without its reply.
    ensures broken { ForEach (A.answers (A.state answerer.old dev.old)) (λ reply.
        IsErrOf result serve.Read → ForSome (I.left input.old) (RepliedBroken hearing reply
        (O.written out.old) (O.written out.new) (I.left input.new))) }
    ensures answered_broken { IsErrOf result serve.Read → ForSome (I.left input.old)
        (AnsweredBroken hearing (A.prints (A.state answerer.old dev.old))
        (O.written out.old) (O.written out.new) (I.left input.new)) }
    ensures read_later { I.faults input.old ≤ I.faults input.new }
    ensures write_later { O.faults out.old ≤ O.faults out.new }
    ensures cause { EndsWhere I.left I.faults O.faults A.state A.may_stop input.old input.new
        out.old out.new
        answerer.old answerer.new dev.old dev.new result }
{
    let mut reader = LineReader::new();
    serve_from(hearing, answerer, dev, &mut reader, input, out)
}

//! Lines, commands, texts and sessions, on whole examples.
ghost use Rattle.std.specs.Prelude.{◌≡◌, ℕ, List, ⊤};
ghost use Rattle.mg_dev.specs.Streams.{appended};
ghost use Rattle.mg_defs.specs.declared.session.Settings.{Settings};

use mg_dev::{ShowErr, Sink, Source};
use mg_mem::{MemSink, MemSource, SureSink, SureSource};
use mg_query::QueryErr;
use mg_reply::{
    Answerer, Command, Hearing, LineErr, LineEvent, LineReader, Mode, ServeErr, Settings,
    put_close, put_count, put_refusal, put_row, put_shown, put_too_long, put_wrong, read_command,
    serve_lines,
};
use std::alloc::{AllocError, Global};
use std::test::Fail;

/// Nothing that is read.
#[derive(Drop)]
struct NoDev;

/// Repeats each query line.
#[derive(Drop)]
struct Echo;

impl Answerer for Echo {
    type Dev = NoDev;

    ghost State = { ⊤ };

    ghost state = { λ _ _. tt };

    ghost fits = { λ _. ⊤ };

    ghost answers = { λ _ reply. (now : Settings) (line : List ℕ) → reply now line ≡ line };

    ghost after = { λ _ _ _. ⊤ };

    ghost prints = { λ _ question before now. now ≡ appended before question.line };

    ghost may_stop = { λ _ _ _. ⊥ };

    fn answer_line<O: Sink>(
        &mut self,
        _dev: &mut NoDev,
        line: &[u8],
        _now: &Settings,
        out: &mut O,
    ) -> Result<(), ShowErr> {
        match out.put(line) {
            Ok(()) => Ok(()),
            Err(error) => Err(ShowErr::from(error)),
        }
    }

    ghost after_none = { λ _. tt };

    ghost after_more = { λ _ _ _ _ _ _ _. tt };

    ghost same_reply = { λ _ _ _ _ _ answers. answers };

    ghost same_prints = { λ _ _ _ _ _ _ _ printed. printed };

    ghost stops_later = { λ _ _ _ _ _ _ stops. stops };
}

#[test]
fn commands_are_read(rt: HostRuntime) -> Result<(), Fail> {
    let now = Settings {
        ranked: true,
        mode: Mode::Text,
        most: Some(3),
    };
    let ranked = Command::Set(now);
    let boolean = Command::Set(Settings {
        ranked: false,
        ..now
    });
    let count = Command::Set(Settings {
        mode: Mode::Count,
        ..now
    });
    let seven = Command::Set(Settings {
        most: Some(7),
        ..now
    });
    let largest = Command::Set(Settings {
        most: Some(1_048_576),
        ..now
    });
    let all = Command::Set(Settings { most: None, ..now });
    let rows: [(&[u8], Command); 16] = [
        (b"", Command::Skip),
        (b" \t", Command::Skip),
        (b"cat", Command::Ask),
        (b" .quit", Command::Ask),
        (b".quit \t", Command::Quit),
        (b".set  query   ranked", ranked),
        (b".set query boolean", boolean),
        (b".set\tmode count ", count),
        (b".set maxdocs 0000007", seven),
        (b".set maxdocs 1048576", largest),
        (b".set maxdocs all", all),
        (b".set maxdocs 0", Command::Wrong),
        (b".set maxdocs 1048577", Command::Wrong),
        (b".set maxdocs 00000007", Command::Wrong),
        (b".cat", Command::Wrong),
        (b".quit now", Command::Wrong),
    ];
    for row in &rows {
        assert!(rt; read_command(row.0, &now) == row.1);
    }
    Ok(())
}

/// Four lines and one of 1,025 bytes among them.
fn long_and_short(alloc: Global) -> Result<Vec<u8>, AllocError> {
    let mut bytes = b"cat\r\n\ndog\r\r\n".to_vec(alloc)?;
    let long = [b'x'; 1025];
    bytes.extend_from_slice(&long)?;
    bytes.extend_from_slice(b"\nlast")?;
    Ok(bytes)
}

/// Whether this line comes next.
fn is_line<I: Source>(reader: &mut LineReader, input: &mut I, line: &[u8]) -> bool {
    reader.next(input) == Ok(LineEvent::Line) && reader.line() == line
}

/// Whether the five lines come in turn, the long one as too long, and then the end.
fn are_lines<I: Source>(input: &mut I) -> bool {
    let mut reader = LineReader::new();
    is_line(&mut reader, input, b"cat")
        && is_line(&mut reader, input, b"")
        && is_line(&mut reader, input, b"dog\r")
        && reader.next(input) == Ok(LineEvent::TooLong)
        && is_line(&mut reader, input, b"last")
        && reader.next(input) == Ok(LineEvent::End)
}

/// Whether a reader tells that its input failed.
fn is_failure_told(alloc: Global) -> Result<bool, AllocError> {
    let mut failing = MemSource::new(alloc, b"cat\n", 2)?;
    failing.fail_at(1)?;
    Ok(LineReader::new().next(&mut failing) == Err(LineErr::Read))
}

#[test]
fn lines_are_cut_however_the_bytes_come(rt: HostRuntime) -> Result<(), Fail> {
    let bytes = long_and_short(rt.alloc())?;
    for step in [1usize, 3, 4096] {
        let mut input = SureSource::new(rt.alloc(), &bytes, step)?;
        assert!(rt; are_lines(&mut input), "{step}");
    }
    assert!(rt; is_failure_told(rt.alloc())?);
    Ok(())
}

#[test]
fn texts_are_written_whole(rt: HostRuntime) -> Result<(), Fail> {
    let mut out = SureSink::new(rt.alloc());
    let written = [
        put_row(&mut out, 3, None),
        put_row(&mut out, 4_294_967_295, Some(77451)),
        put_shown(&mut out, 1, None),
        put_shown(&mut out, 2, Some(50002)),
        put_close(&mut out),
        put_count(&mut out, 0),
        put_refusal(&mut out, &QueryErr::Syntax { at: 10 }),
        put_refusal(&mut out, &QueryErr::TooDeep { at: 32 }),
        put_refusal(&mut out, &QueryErr::TermTooLong { at: 0 }),
        put_refusal(&mut out, &QueryErr::TooManyTerms { at: 192 }),
        put_wrong(&mut out),
        put_too_long(&mut out),
    ];
    for each in &written {
        assert!(rt; each.is_ok());
    }
    let wanted =
        b"3\n4294967295 77451\n-- 1\n-- 2 50002\n\x02\n= 0\n? syntax at 10\n? too deep at 32\n? word too long at 0\n? too many words at 192\n? bad command\n? line too long\n";
    assert!(rt; out.bytes() == wanted.as_slice());
    Ok(())
}

const LINES: &[u8; 33] = b"a\r\n\n.x\nb\n.set mode count\n.quit\nc\n";

/// How a session over these devices ends that repeats each query line.
fn served<I: Source, O: Sink>(
    hearing: Hearing,
    input: &mut I,
    out: &mut O,
) -> Result<(), ServeErr> {
    serve_lines(hearing, &mut Echo, &mut NoDev, input, out)
}

/// Whether a session over this input ends well and prints just this.
fn prints(alloc: Global, hearing: Hearing, input: &mut SureSource, wanted: &[u8]) -> bool {
    let mut out = SureSink::new(alloc);
    served(hearing, input, &mut out) == Ok(()) && out.bytes() == wanted
}

/// What the session prints that ends at `.quit`.
const PRINTED: &[u8] = b"a? bad command\nb";

#[test]
fn a_session_ends_at_quit(rt: HostRuntime) -> Result<(), Fail> {
    for step in [1usize, 5, 4096] {
        let mut input = SureSource::new(rt.alloc(), LINES, step)?;
        assert!(rt; prints(rt.alloc(), Hearing::Commands, &mut input, PRINTED));
    }
    let mut input = SureSource::new(rt.alloc(), LINES, 5)?;
    let wanted = b"a.xb.set mode count";
    assert!(rt; prints(rt.alloc(), Hearing::Questions, &mut input, wanted));
    Ok(())
}

/// Whether a session whose output fails at this call tells it, and printed a prefix.
fn is_cut_by_output(alloc: Global, call: u64) -> Result<bool, AllocError> {
    let mut out = MemSink::new(alloc);
    out.fail_at(call, 1)?;
    let mut input = SureSource::new(alloc, LINES, 4096)?;
    let ended = served(Hearing::Commands, &mut input, &mut out);
    Ok(ended == Err(ServeErr::Show(ShowErr::Write)) && PRINTED.starts_with(out.bytes()))
}

/// Whether a session whose input fails at this call tells it, and printed a prefix.
fn is_cut_by_input(alloc: Global, call: u64) -> Result<bool, AllocError> {
    let mut input = MemSource::new(alloc, LINES, 5)?;
    input.fail_at(call)?;
    let mut out = SureSink::new(alloc);
    let ended = served(Hearing::Commands, &mut input, &mut out);
    Ok(ended == Err(ServeErr::Read) && PRINTED.starts_with(out.bytes()))
}

#[test]
fn a_failure_leaves_a_prefix(rt: HostRuntime) -> Result<(), Fail> {
    for call in 0..3u64 {
        assert!(rt; is_cut_by_output(rt.alloc(), call)?);
        assert!(rt; is_cut_by_input(rt.alloc(), call)?);
    }
    Ok(())
}

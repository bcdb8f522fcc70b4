//! Runs of each tool over devices in memory. Expected answers are rows worked by hand, but that of the trial, which is
//! another implementation's.
use mg_dev::{Fault, Sink, Source, Status, Store};
use mg_mem::{MemSink, MemSource, MemStore, SureSink};
use mg_top::run;
use std::alloc::{AllocError, Global};
use std::test::Fail;

/// Three documents.
const LETTERS: &[u8] = b"the cat sat\n\x02the dog\n\x02Cat, cat & dog!\n\x02";

/// The words of a run, its input, and what it prints.
type Run<'a> = (&'a [&'a str], &'a [u8], &'a [u8]);

/// Each tool, one after the other over one store: no clause refuses a tool that always lacks memory.
static RUNS: [Run<'static>; 12] = [
    (
        &["build", "--budget=4096", "text", "set"],
        b"",
        b"documents 3\nwords 5\nothers 5\nterms 4\noccurrences 8\nruns 1\npool 96 of 4096\n",
    ),
    (&["check", "set"], b"", b"stands 3 documents 39 bytes\n"),
    (&["decode", "set"], b"", LETTERS),
    (
        &["scan", "text"],
        b"cat\n(\n",
        b"1\n3\n= 2\n? syntax at 1\n",
    ),
    (
        &["query", "set"],
        b"cat\n.set mode text\nsat\n.set query ranked\n.set maxdocs 1\ncat dog\n",
        b"1\n3\n= 2\n-- 1\nthe cat sat\n\x02\n= 1\n-- 3 116177\nCat, cat & dog!\n\x02\n= 3\n",
    ),
    (&["phrase", "set"], b"the cat\n", b"1 1\n= 1\n"),
    (&["wild", "set"], b"*at\n", b"+ cat 2\n+ sat 1\n1\n3\n= 2\n"),
    (&["migrate", "set", "new"], b"", b"documents 3\n"),
    (&["decode", "new"], b"", LETTERS),
    (
        &["merge", "set", "set", "new"],
        b"",
        b"documents 6\nwords 5\nothers 5\nterms 4\noccurrences 16\nruns 1\npool 192 of 4096\n",
    ),
    (
        &["decode", "new"],
        b"",
        b"the cat sat\n\x02the dog\n\x02Cat, cat & dog!\n\x02the cat sat\n\x02the dog\n\x02Cat, cat & dog!\n\x02",
    ),
    (
        &["trial", "7", "1"],
        b"",
        b"documents 1\ncollection 186 bytes\nterms 27\noccurrences 27\nreplies 180 bytes\ndecode same\nqueries 40 same\n",
    ),
];

/// The call of a device that fails, and how a run ends then.
struct Case {
    /// The call of the input, and of the output, which keeps one byte of what it is given.
    input: u64,
    output: u64,
    /// How many bytes are printed at most.
    most: usize,
    status: Status,
}

/// No call fails.
const NONE: Case = Case {
    input: u64::MAX,
    output: u64::MAX,
    most: usize::MAX,
    status: Status::Done,
};

/// The input can't be read.
const UNREAD: Case = Case {
    input: 0,
    output: u64::MAX,
    most: 0,
    status: Status::Stopped(Fault::ReadFault),
};

/// The output can't be written.
const UNWRITTEN: Case = Case {
    input: u64::MAX,
    output: 0,
    most: 1,
    status: Status::Stopped(Fault::WriteFault),
};

/// The words of a command line.
fn words_of(alloc: Global, given: &[&str]) -> Result<Vec<String>, AllocError> {
    let mut words = Vec::new(alloc);
    for word in given {
        words.push(String::from_str(alloc, word)?)?;
    }
    Ok(words)
}

/// Carries out the words of a command line.
fn carry_out<S: Store, I: Source, O: Sink, E: Sink>(
    alloc: Global,
    given: &[&str],
    store: &mut S,
    input: &mut I,
    out: &mut O,
    err: &mut E,
) -> Result<Status, AllocError> {
    let words = words_of(alloc, given)?;
    Ok(run(alloc, &words, store, input, out, err))
}

/// The same with an error output that never fails. What goes there is the clause `told`, whatever that is.
fn told<S: Store, I: Source, O: Sink>(
    alloc: Global,
    given: &[&str],
    store: &mut S,
    input: &mut I,
    out: &mut O,
) -> Result<Status, AllocError> {
    let mut err = SureSink::new(alloc);
    carry_out(alloc, given, store, input, out, &mut err)
}

/// How a run ends, and whether just the bytes that were asked for are printed.
#[derive(Clone, Copy)]
struct Left {
    status: Status,
    is_printed: bool,
}

/// How words end over this input and an output of their own, and whether just these bytes are printed.
fn printed<S: Store, I: Source>(
    alloc: Global,
    given: &[&str],
    store: &mut S,
    input: &mut I,
    fails: u64,
    wanted: &[u8],
) -> Result<Left, AllocError> {
    let mut out = MemSink::new(alloc);
    out.fail_at(fails, 1)?;
    let status = told(alloc, given, store, input, &mut out)?;
    let is_printed = out.bytes() == wanted;
    Ok(Left { status, is_printed })
}

/// The same of a row's words over its input, whose bytes come a few at a time.
fn ended<S: Store>(
    alloc: Global,
    store: &mut S,
    row: &Run<'_>,
    case: &Case,
    wanted: &[u8],
) -> Result<Left, AllocError> {
    let mut input = MemSource::new(alloc, row.1, 5)?;
    input.fail_at(case.input)?;
    printed(alloc, row.0, store, &mut input, case.output, wanted)
}

/// Whether a row's words end so, and print as much as they are to. A row with no input reads none, and so does not end so.
fn ends<S: Store>(
    alloc: Global,
    store: &mut S,
    row: &Run<'_>,
    case: &Case,
) -> Result<bool, AllocError> {
    let wanted = row.2.get(..case.most).unwrap_or(row.2);
    let left = ended(alloc, store, row, case, wanted)?;
    let is_unread = case.input == 0 && row.1.is_empty();
    Ok(is_unread || left.status == case.status && left.is_printed)
}

/// Whether each row ends so.
fn all_end<S: Store>(
    alloc: Global,
    store: &mut S,
    rows: &[Run<'_>],
    case: &Case,
) -> Result<bool, AllocError> {
    for row in rows {
        if !ends(alloc, store, row, case)? {
            return Ok(false);
        }
    }
    Ok(true)
}

/// How often a row's words stop for the store, each call of which fails in turn, until they end well. None where
/// they end in another way.
fn failures(alloc: Global, store: &mut MemStore, row: &Run<'_>) -> Result<Option<u64>, AllocError> {
    for call in 0..1000u64 {
        store.fail_at(store.calls().saturating_add(call), 0)?;
        let left = ended(alloc, store, row, &NONE, row.2)?;
        if left.status != Status::Stopped(Fault::StoreFault) {
            let is_done = left.status == Status::Done && left.is_printed;
            return Ok(if is_done { Some(call) } else { None });
        }
    }
    Ok(None)
}

/// Whether each row stops for two calls of the store at least. The last row, a trial, goes on in a store of its own.
fn all_stop(alloc: Global, store: &mut MemStore, rows: &[Run<'_>]) -> Result<bool, AllocError> {
    for number in 0..rows.len() {
        let least = if number + 1 < rows.len() { 2 } else { 0 };
        match failures(alloc, store, &rows[number])? {
            Some(calls) if calls >= least => {}
            _ => return Ok(false),
        }
    }
    Ok(true)
}

/// What is asked of all rows.
#[derive(Clone, Copy)]
enum Asked {
    /// That they end well.
    Answers,
    /// That a failing input or output is told.
    Streams,
    /// That each failing call of the store is told.
    Store,
}

/// Whether it is so over this store.
fn are_so_over(alloc: Global, store: &mut MemStore, asked: Asked) -> Result<bool, AllocError> {
    match asked {
        Asked::Answers => all_end(alloc, store, &RUNS, &NONE),
        Asked::Streams => Ok(
            all_end(alloc, store, &RUNS, &UNWRITTEN)? && all_end(alloc, store, &RUNS, &UNREAD)?,
        ),
        Asked::Store => all_stop(alloc, store, &RUNS),
    }
}

/// The same over a store with the three documents.
fn are_so(alloc: Global, asked: Asked) -> Result<bool, AllocError> {
    let mut store = MemStore::new(alloc);
    store.put_file("text", LETTERS)?;
    are_so_over(alloc, &mut store, asked)
}

#[test]
fn each_tool_answers(rt: HostRuntime) -> Result<(), Fail> {
    assert!(rt; are_so(rt.alloc(), Asked::Answers)?);
    Ok(())
}

#[test]
fn each_failing_call_is_told(rt: HostRuntime) -> Result<(), Fail> {
    let streams = are_so(rt.alloc(), Asked::Streams)?;
    assert!(rt; streams && are_so(rt.alloc(), Asked::Store)?);
    Ok(())
}

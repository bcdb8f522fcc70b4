//! The words of a command line are carried out.
ghost use Rattle.std.specs.Prelude.{Some};
ghost use Rattle.mg_args.specs.Tasks.{as_task, task_at, IsWithin};
ghost use Rattle.mg_reply.specs.Printed.{Runs};
ghost use Rattle.mg_top.specs.Running.{RunsBy};
ghost use Rattle.mg_top.specs.Does.{Does, RanFor, RanOnceTold};

use crate::ending::ended;
use crate::tool_build::run_build;
use crate::tool_check::run_check;
use crate::tool_decode::run_decode;
use crate::tool_merge::run_merge;
use crate::tool_migrate::run_migrate;
use crate::tool_phrase::run_phrase;
use crate::tool_query::run_query;
use crate::tool_scan::run_scan;
use crate::tool_trial::run_trial;
use crate::tool_wild::run_wild;
use mg_args::{NameTool, Task, read_words};
use mg_dev::{Fault, Sink, Source, Status, Store};
use std::alloc::{AllocError, Global};

/// Carries out the words after the program's name, and answers the status.
///
/// What a run does is a record a tool. `Queried`, `Decoded`, `Scanned`, `Phrased` and `Matched` are what
/// the tool's call promises; the others stand in `specs/`, and four of them hold what the call promises.
///
/// | Words | Record | What is printed |
/// |---|---|---|
/// | `build COLLECTION NAME [--budget BYTES]` | `Built` | the numbers of the set that it makes of the collection |
/// | `query NAME` | `Queried` | the session that the input asks of the set |
/// | `decode NAME` | `Decoded` | the collection of the set |
/// | `scan COLLECTION` | `Scanned` | the session that the input asks of the collection's documents |
/// | `migrate NAME NEW` | `Migrated` | how many documents the set has that it makes anew in version 2 |
/// | `check NAME` | `Checked` | how many documents and bytes the collection has for which the files stand |
/// | `phrase NAME` | `Phrased` | the session of phrases that the input asks of the set |
/// | `wild NAME` | `Matched` | the session of patterns that the input asks of the set |
/// | `merge A B NEW` | `Merged` | the numbers of the set that it makes of two sets |
/// | `trial SEED DOCS` | `Tried` | what a trial found of a collection that it makes, in a store of its own |
///
/// Words that ask nothing are not understood. At every status but 0 the fault's line
/// goes to `err`; a failed write there changes nothing.
pub fn run<S: Store, I: Source, O: Sink, E: Sink>(
    alloc: Global,
    words: &[String],
    store: &mut S,
    input: &mut I,
    out: &mut O,
    err: &mut E,
) -> Status
    ensures { RunsBy S.Store I.Source O.Sink E.Sink store.old store.new input.old input.new out.old
        out.new err.old err.new result (RanFor words.now) }
{
    let answer = run_words(alloc, words, store, input, out);
    ended(answer, err)
}

// Reads the words and carries them out, whatever the error output is.
fn run_words<S: Store, I: Source, O: Sink>(
    alloc: Global,
    words: &[String],
    store: &mut S,
    input: &mut I,
    out: &mut O,
) -> Result<(), Fault>
    ensures { Runs S.Store I.Source O.Sink store.old store.new input.old input.new out.old out.new
        result (RanOnceTold words.now) }
{
    match read_words(alloc, words) {
        Ok(Some(task)) => run_task(alloc, task, store, input, out),
        Ok(None) => Err(Fault::Usage),
        Err(AllocError) => Err(Fault::Memory),
    }
}

// Carries out a task.
fn run_task<S: Store, I: Source, O: Sink>(
    alloc: Global,
    task: Task<'_>,
    store: &mut S,
    input: &mut I,
    out: &mut O,
) -> Result<(), Fault>
    requires { IsWithin (as_task task) }
    ensures { Runs S.Store I.Source O.Sink store.old store.new input.old input.new out.old out.new
        result (Does (Some (as_task task.entry))) }
{
    match task {
        Task::Named { tool, name } => run_named(alloc, tool, name, store, input, out),
        Task::Build {
            collection,
            name,
            budget,
        } => run_build(alloc, collection, name, budget, store, out),
        Task::Migrate { name, new } => run_migrate(alloc, name, new, store, out),
        Task::Merge { first, second, new } => run_merge(alloc, first, second, new, store, out),
        Task::Trial { seed, docs } => run_trial(alloc, seed, docs, out),
    }
}

// Carries out what a tool does with its one name.
fn run_named<S: Store, I: Source, O: Sink>(
    alloc: Global,
    tool: NameTool,
    name: &str,
    store: &mut S,
    input: &mut I,
    out: &mut O,
) -> Result<(), Fault>
    ensures { Runs S.Store I.Source O.Sink store.old store.new input.old input.new out.old out.new
        result (Does (Some (task_at tool name.now))) }
{
    match tool {
        NameTool::Query => run_query(alloc, name, store, input, out),
        NameTool::Decode => run_decode(alloc, name, store, out),
        NameTool::Scan => run_scan(alloc, name, store, input, out),
        NameTool::Check => run_check(alloc, name, store, out),
        NameTool::Wild => run_wild(alloc, name, store, input, out),
        NameTool::Phrase => run_phrase(alloc, name, store, input, out),
    }
}

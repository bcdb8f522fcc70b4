//! What words ask, in rows.
use mg_args::{NameTool, Task, read_words};
use std::alloc::{AllocError, Global};
use std::test::Fail;

const LEAST: Task<'static> = Task::Build {
    collection: "k",
    name: "n",
    budget: 4096,
};

const DEFAULT: Task<'static> = Task::Build {
    collection: "k",
    name: "n",
    budget: 16_777_216,
};

const MERGED: Task<'static> = Task::Merge {
    first: "a",
    second: "b",
    new: "c",
};

/// Words and what they ask.
type Row = (&'static [&'static str], Task<'static>);

static ASKED: [Row; 29] = [
    // A budget stands anywhere.
    (&["build", "k", "n"], DEFAULT),
    (&["build", "--", "k", "n"], DEFAULT),
    (&["build", "--budget", "4096", "k", "n"], LEAST),
    (&["build", "k", "--budget", "4096", "n"], LEAST),
    (&["build", "k", "n", "--budget", "4096"], LEAST),
    (&["build", "--budget=4096", "k", "n"], LEAST),
    (&["build", "k", "--budget=4096", "n"], LEAST),
    (&["build", "k", "n", "--budget=4096"], LEAST),
    (&["build", "k", "n", "--budget", "04096"], LEAST),
    (&["build", "k", "n", "--budget", "+4096"], LEAST),
    (&["build", "k", "n", "--budget=+04096"], LEAST),
    (&["build", "--budget=4096", "--", "k", "n"], LEAST),
    // Each tool has its words.
    (
        &["query", "n"],
        Task::Named {
            tool: NameTool::Query,
            name: "n",
        },
    ),
    (
        &["decode", "n"],
        Task::Named {
            tool: NameTool::Decode,
            name: "n",
        },
    ),
    (
        &["scan", "k"],
        Task::Named {
            tool: NameTool::Scan,
            name: "k",
        },
    ),
    (
        &["check", "n"],
        Task::Named {
            tool: NameTool::Check,
            name: "n",
        },
    ),
    (
        &["wild", "n"],
        Task::Named {
            tool: NameTool::Wild,
            name: "n",
        },
    ),
    (
        &["phrase", "n"],
        Task::Named {
            tool: NameTool::Phrase,
            name: "n",
        },
    ),
    (
        &["migrate", "n", "m"],
        Task::Migrate {
            name: "n",
            new: "m",
        },
    ),
    (&["merge", "a", "b", "c"], MERGED),
    (&["merge", "a", "--", "b", "c"], MERGED),
    (&["trial", "0", "1"], Task::Trial { seed: 0, docs: 1 }),
    (&["trial", "+7", "01"], Task::Trial { seed: 7, docs: 1 }),
    (
        &["trial", "18446744073709551615", "20000"],
        Task::Trial {
            seed: u64::MAX,
            docs: 20_000,
        },
    ),
    // Names that begin with a dash stand behind two.
    (
        &["scan", "--", "-x"],
        Task::Named {
            tool: NameTool::Scan,
            name: "-x",
        },
    ),
    (
        &["query", "--", "--"],
        Task::Named {
            tool: NameTool::Query,
            name: "--",
        },
    ),
    (
        &["check", "--", "-h"],
        Task::Named {
            tool: NameTool::Check,
            name: "-h",
        },
    ),
    (
        &["wild", "help"],
        Task::Named {
            tool: NameTool::Wild,
            name: "help",
        },
    ),
    (
        &["migrate", "n", "--", "--budget"],
        Task::Migrate {
            name: "n",
            new: "--budget",
        },
    ),
];

/// Words that ask nothing.
static REFUSED: [&[&str]; 37] = [
    &[],
    &["index"],
    &["Scan", "k"],
    &["scan"],
    &["scan", ""],
    &["scan", "--"],
    &["scan", "--", ""],
    &["scan", "-x"],
    &["scan", "-h"],
    &["scan", "--help"],
    &["scan", "k", "n"],
    &["build", "k"],
    &["build", "k", ""],
    &["build", "", "n", "--budget=4096"],
    &["build", "k", "n", "o"],
    &["build", "k", "n", "--budget"],
    &["build", "k", "n", "--budget="],
    &["build", "k", "n", "--budget", "4095"],
    &["build", "k", "n", "--budget=1073741825"],
    &["build", "k", "n", "--budget", "-1"],
    &["build", "k", "n", "--budget", "4096", "--budget", "4096"],
    &["build", "--budget", "4096", "k", "n", "--budget=4097"],
    &["build", "k", "n", "--bud", "4096"],
    &["trial", "0"],
    &["trial", "0", "0"],
    &["trial", "0", "20001"],
    &["trial", "0", "1", "2"],
    &["trial", "18446744073709551616", "1"],
    &["trial", "-1", "1"],
    &["migrate", "n"],
    &["migrate", "n", ""],
    &["migrate", "n", "m", "o"],
    &["phrase", "n", "--budget", "4096"],
    &["merge", "a", "b"],
    &["merge", "a", "", "c"],
    &["merge", "a", "b", "c", "d"],
    &["merge", "a", "b", "-c"],
];

fn words(alloc: Global, given: &[&str]) -> Result<Vec<String>, AllocError> {
    let mut words = Vec::new(alloc);
    for word in given {
        words.push(String::from_str(alloc, word)?)?;
    }
    Ok(words)
}

/// Whether words ask this.
fn ask(alloc: Global, given: &[&str], wanted: Option<Task<'static>>) -> Result<bool, AllocError> {
    let words = words(alloc, given)?;
    Ok(read_words(alloc, &words)? == wanted)
}

/// The number of the first row that asks another task, if there is one.
fn other(alloc: Global, rows: &[Row]) -> Result<Option<usize>, AllocError> {
    for number in 0..rows.len() {
        if !ask(alloc, rows[number].0, Some(rows[number].1))? {
            return Ok(Some(number));
        }
    }
    Ok(None)
}

/// The number of the first row that asks something, if there is one.
fn asking(alloc: Global, rows: &[&[&str]]) -> Result<Option<usize>, AllocError> {
    for number in 0..rows.len() {
        if !ask(alloc, rows[number], None)? {
            return Ok(Some(number));
        }
    }
    Ok(None)
}

#[test]
fn each_tool_has_its_words(rt: HostRuntime) -> Result<(), Fail> {
    assert!(rt; other(rt.alloc(), &ASKED)?.is_none());
    Ok(())
}

#[test]
fn others_are_refused(rt: HostRuntime) -> Result<(), Fail> {
    assert!(rt; asking(rt.alloc(), &REFUSED)?.is_none());
    Ok(())
}

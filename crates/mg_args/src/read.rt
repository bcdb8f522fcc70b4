//! The words of a command line: plain ones by their rule, others by the tool's command.
ghost use Rattle.std.specs.Prelude.{◌≡◌, ◌∷◌, [], IfOk, IfSome, None, map, option_map, string_bytes};
ghost use Rattle.std.specs.Option.{option_copied};
ghost use Rattle.mg_args.specs.Commands.{name_app, IsOwnId, IsRefusedBy};
ghost use Rattle.mg_args.specs.Tasks.{as_task, task_of, name_asked, build_asked, trial_asked, migrate_asked, merge_asked, named_asked, words_at, build_words, trial_words, migrate_words, merge_words, plain_name as plain_name_spec, AsksOf, IsWithin, IsRefused};

use crate::NameTool;
use crate::plain_words::{plain_build, plain_merge, plain_migrate, plain_name, plain_trial};
use crate::taken::{build_taken, merge_taken, migrate_taken, name_taken, trial_taken};
use crate::task::Task;
use std::alloc::{AllocError, Global};

/// The one name of a tool.
fn read_name<'a>(
    alloc: Global,
    tool: &'a str,
    id: &'a str,
    rest: &'a [String],
    words: &'a [String],
) -> Result<Option<&'a str>, AllocError>
    requires own { IsOwnId id.now }
    requires split { map string_bytes words.now ≡ tool.now ∷ map string_bytes rest.now }
    ensures unplain { result ≡ Ok None → plain_name_spec (map string_bytes rest.entry.now) ≡ None }
    ensures refused { result ≡ Ok None →
        IsRefusedBy (name_app tool.entry.now id.entry.now) (id.entry.now ∷ [])
        (map string_bytes words.entry.now) }
    ensures is { IfOk result (λ r. option_copied r ≡ name_asked id.entry.now tool.entry.now
        (map string_bytes rest.entry.now)) }
{
    if let Some(name) = plain_name(rest) {
        return Ok(Some(name));
    }
    name_taken(alloc, tool, id, words)
}

fn read_build<'a>(
    alloc: Global,
    rest: &'a [String],
    words: &'a [String],
) -> Result<Option<Task<'a>>, AllocError>
    ensures { AsksOf build_words (map string_bytes rest.entry.now) (map string_bytes words.entry.now)
        (build_asked (map string_bytes rest.entry.now) (map string_bytes words.entry.now)) result }
{
    if let Some(task) = plain_build(rest) {
        return Ok(Some(task));
    }
    build_taken(alloc, words)
}

/// A tool of one name.
fn read_named<'a>(
    alloc: Global,
    named: NameTool,
    tool: &'a str,
    rest: &'a [String],
    words: &'a [String],
) -> Result<Option<Task<'a>>, AllocError>
    requires { map string_bytes words.now ≡ tool.now ∷ map string_bytes rest.now }
    ensures { AsksOf (words_at named tool.entry.now) (map string_bytes rest.entry.now)
        (map string_bytes words.entry.now)
        (named_asked named tool.entry.now (map string_bytes rest.entry.now)) result }
{
    match read_name(alloc, tool, named.id(), rest, words)? {
        Some(name) => Ok(Some(Task::Named { tool: named, name })),
        None => Ok(None),
    }
}

fn read_trial<'a>(
    alloc: Global,
    rest: &'a [String],
    words: &'a [String],
) -> Result<Option<Task<'a>>, AllocError>
    ensures { AsksOf trial_words (map string_bytes rest.entry.now) (map string_bytes words.entry.now)
        (trial_asked (map string_bytes rest.entry.now) (map string_bytes words.entry.now)) result }
{
    if let Some(task) = plain_trial(rest) {
        return Ok(Some(task));
    }
    trial_taken(alloc, words)
}

fn read_migrate<'a>(
    alloc: Global,
    rest: &'a [String],
    words: &'a [String],
) -> Result<Option<Task<'a>>, AllocError>
    ensures { AsksOf migrate_words (map string_bytes rest.entry.now) (map string_bytes words.entry.now)
        (migrate_asked (map string_bytes rest.entry.now) (map string_bytes words.entry.now)) result }
{
    if let Some(task) = plain_migrate(rest) {
        return Ok(Some(task));
    }
    migrate_taken(alloc, words)
}

fn read_merge<'a>(
    alloc: Global,
    rest: &'a [String],
    words: &'a [String],
) -> Result<Option<Task<'a>>, AllocError>
    ensures { AsksOf merge_words (map string_bytes rest.entry.now) (map string_bytes words.entry.now)
        (merge_asked (map string_bytes rest.entry.now) (map string_bytes words.entry.now)) result }
{
    if let Some(task) = plain_merge(rest) {
        return Ok(Some(task));
    }
    merge_taken(alloc, words)
}

/// What the words after the program's name ask for, `None` where they are not understood: where the
/// first word is no tool, a name is empty, or the words are not plain and the tool's command refuses
/// them, also with a request for help.
///
/// | Tool | Words |
/// |---|---|
/// | build | `build COLLECTION NAME [--budget BYTES]`, 4,096 to 2^30 bytes, 2^24 where none are given |
/// | query, decode, check, wild, phrase | `TOOL NAME` |
/// | scan | `scan COLLECTION` |
/// | trial | `trial SEED DOCS`, a seed below 2^64, 1 to 20,000 documents |
/// | migrate | `migrate NAME NEW` |
/// | merge | `merge A B NEW` |
///
/// The option stands before, between or after the names, also as `--budget=BYTES`, at most once.
///
/// # Errors
///
/// `AllocError` where there was no memory.
pub fn read_words<'a>(alloc: Global, words: &'a [String]) -> Result<Option<Task<'a>>, AllocError>
    ensures refused { result ≡ Ok None → IsRefused (map string_bytes words.entry.now) }
    ensures is { IfOk result (λ r. option_map as_task r ≡
        task_of (map string_bytes words.entry.now)) }
    ensures within { IfOk result (λ r. IfSome r (λ q. IsWithin (as_task q))) }
{
    let [tool, rest @ ..] = words else {
        return Ok(None);
    };
    let tool = tool.as_str();
    match tool {
        "build" => read_build(alloc, rest, words),
        "query" => read_named(alloc, NameTool::Query, tool, rest, words),
        "decode" => read_named(alloc, NameTool::Decode, tool, rest, words),
        "scan" => read_named(alloc, NameTool::Scan, tool, rest, words),
        "trial" => read_trial(alloc, rest, words),
        "migrate" => read_migrate(alloc, rest, words),
        "check" => read_named(alloc, NameTool::Check, tool, rest, words),
        "wild" => read_named(alloc, NameTool::Wild, tool, rest, words),
        "phrase" => read_named(alloc, NameTool::Phrase, tool, rest, words),
        "merge" => read_merge(alloc, rest, words),
        _ => Ok(None),
    }
}

//! What the tools' commands take, read from their matches.
ghost use Rattle.std.specs.Prelude.{◌≡◌, ℕ, List, ◌∷◌, [], ◌≢◌, IfOk, Some, None, codes, map, string_bytes};
ghost use Rattle.std.specs.Option.{option_copied};
ghost use Rattle.clap.specs.Words.{first_of, one_of, IsUnsignedIn};
ghost use Rattle.mg_defs.specs.Limits.{least_budget, greatest_budget, trial_documents};
ghost use Rattle.mg_args.specs.Commands.{name_app, build_app, build_names, trial_app, migrate_app, migrate_names, merge_app, merge_names, if_taken, name_in, number_in, rows_in, IsGiven, IsOwnId, IsRefusedBy, WritesNumber};
ghost use Rattle.mg_args.specs.Tasks.{build_in, trial_in, migrate_in, merge_in, Asks, AsksBy, AsksIn};

use crate::command::{
    NotTaken, build_command, matches_by, merge_command, migrate_command, name_command,
    trial_command,
};
use crate::task::Task;
use clap::ArgMatches;
use mg_defs::DEFAULT_BUDGET;
use std::alloc::{AllocError, Global};

/// The name of this id; an empty one is no name.
fn name_of<'a>(matches: &ArgMatches<'a>, id: &str) -> Option<&'a str>
    ensures is { option_copied result ≡ name_in id.now (rows_in matches.now) }
    ensures empty { result ≡ None → IsGiven matches.now id.now →
        first_of id.now (rows_in matches.now) ≡ Some [] }
{
    let Some(name) = matches.get_str(id) else {
        return None;
    };
    if name.is_empty() {
        return None;
    }
    Some(name)
}

/// The number of this id, where its text writes one.
fn number_of(matches: &ArgMatches<'_>, id: &str) -> Option<u64>
    requires { (text : List ℕ) → one_of id.now (rows_in matches.now) ≡ Some text →
        WritesNumber text }
    ensures is { result ≡ number_in id.now (rows_in matches.now) }
    ensures there { IsGiven matches.now id.now → result ≢ None }
{
    matches.get_one::<u64>(id)
}

/// The one name that a tool's command takes.
pub fn name_taken<'a>(
    alloc: Global,
    tool: &'a str,
    id: &'a str,
    words: &'a [String],
) -> Result<Option<&'a str>, AllocError>
    requires { IsOwnId id.now }
    ensures is { IfOk result (λ r. option_copied r
        ≡ if_taken (name_app tool.entry.now id.entry.now) (map string_bytes words.entry.now)
        (name_in id.entry.now)) }
    ensures refused { result ≡ Ok None →
        IsRefusedBy (name_app tool.entry.now id.entry.now) (id.entry.now ∷ [])
        (map string_bytes words.entry.now) }
{
    let command = name_command(alloc, tool, id)?;
    match matches_by(command, words) {
        Ok(matches) => Ok(name_of(&matches, id)),
        Err(NotTaken::Refused) => Ok(None),
        Err(NotTaken::Memory) => Err(AllocError),
    }
}

/// What the command of `build` takes.
pub fn build_taken<'a>(alloc: Global, words: &'a [String]) -> Result<Option<Task<'a>>, AllocError>
    ensures { AsksBy build_app build_names (map string_bytes words.entry.now)
        (if_taken build_app (map string_bytes words.entry.now) build_in) result }
{
    let command = build_command(alloc)?;
    match matches_by(command, words) {
        Ok(matches) => Ok(build_of(&matches)),
        Err(NotTaken::Refused) => Ok(None),
        Err(NotTaken::Memory) => Err(AllocError),
    }
}

fn build_of<'a>(matches: &ArgMatches<'a>) -> Option<Task<'a>>
    requires { (text : List ℕ) → one_of (codes "budget") (rows_in matches.now) ≡ Some text →
        IsUnsignedIn least_budget greatest_budget text }
    ensures { AsksIn matches.now build_names (build_in (rows_in matches.now)) result }
{
    let Some(collection) = name_of(matches, "collection") else {
        return None;
    };
    let Some(name) = name_of(matches, "name") else {
        return None;
    };
    let budget = match number_of(matches, "budget") {
        Some(budget) => budget,
        None => DEFAULT_BUDGET,
    };
    Some(Task::Build {
        collection,
        name,
        budget,
    })
}

/// What the command of `trial` takes.
pub fn trial_taken<'a>(alloc: Global, words: &'a [String]) -> Result<Option<Task<'a>>, AllocError>
    ensures { AsksBy trial_app [] (map string_bytes words.entry.now)
        (if_taken trial_app (map string_bytes words.entry.now) trial_in) result }
{
    let command = trial_command(alloc)?;
    match matches_by(command, words) {
        Ok(matches) => Ok(trial_of(&matches)),
        Err(NotTaken::Refused) => Ok(None),
        Err(NotTaken::Memory) => Err(AllocError),
    }
}

fn trial_of<'a>(matches: &ArgMatches<'a>) -> Option<Task<'a>>
    requires seed { (text : List ℕ) → one_of (codes "seed") (rows_in matches.now) ≡ Some text →
        IsUnsignedIn 0 18446744073709551615 text }
    requires docs { (text : List ℕ) → one_of (codes "docs") (rows_in matches.now) ≡ Some text →
        IsUnsignedIn 1 trial_documents text }
    ensures there { IsGiven matches.now (codes "seed") → IsGiven matches.now (codes "docs") →
        result ≢ None }
    ensures asks { Asks result (trial_in (rows_in matches.now)) }
{
    let Some(seed) = number_of(matches, "seed") else {
        return None;
    };
    let Some(docs) = number_of(matches, "docs") else {
        return None;
    };
    Some(Task::Trial {
        seed,
        docs: docs as u32,
    })
}

/// What the command of `migrate` takes.
pub fn migrate_taken<'a>(alloc: Global, words: &'a [String]) -> Result<Option<Task<'a>>, AllocError>
    ensures { AsksBy migrate_app migrate_names (map string_bytes words.entry.now)
        (if_taken migrate_app (map string_bytes words.entry.now) migrate_in) result }
{
    let command = migrate_command(alloc)?;
    match matches_by(command, words) {
        Ok(matches) => Ok(migrate_of(&matches)),
        Err(NotTaken::Refused) => Ok(None),
        Err(NotTaken::Memory) => Err(AllocError),
    }
}

fn migrate_of<'a>(matches: &ArgMatches<'a>) -> Option<Task<'a>>
    ensures { AsksIn matches.now migrate_names (migrate_in (rows_in matches.now)) result }
{
    let Some(name) = name_of(matches, "name") else {
        return None;
    };
    let Some(new) = name_of(matches, "new") else {
        return None;
    };
    Some(Task::Migrate { name, new })
}

/// What the command of `merge` takes.
pub fn merge_taken<'a>(alloc: Global, words: &'a [String]) -> Result<Option<Task<'a>>, AllocError>
    ensures { AsksBy merge_app merge_names (map string_bytes words.entry.now)
        (if_taken merge_app (map string_bytes words.entry.now) merge_in) result }
{
    let command = merge_command(alloc)?;
    match matches_by(command, words) {
        Ok(matches) => Ok(merge_of(&matches)),
        Err(NotTaken::Refused) => Ok(None),
        Err(NotTaken::Memory) => Err(AllocError),
    }
}

fn merge_of<'a>(matches: &ArgMatches<'a>) -> Option<Task<'a>>
    ensures { AsksIn matches.now merge_names (merge_in (rows_in matches.now)) result }
{
    let Some(first) = name_of(matches, "first") else {
        return None;
    };
    let Some(second) = name_of(matches, "second") else {
        return None;
    };
    let Some(new) = name_of(matches, "new") else {
        return None;
    };
    Some(Task::Merge { first, second, new })
}

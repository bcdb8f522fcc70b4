//! Plain words: each tool's names and numbers in order.
ghost use Rattle.std.specs.Prelude.{◌≡◌, ◌∷◌, [], IfSome, map, string_bytes};
ghost use Rattle.std.specs.Option.{option_copied};
ghost use Rattle.mg_args.specs.Plain.{budget_in_one as budget_in_one_spec, budget_in_two as budget_in_two_spec, plain_budget as plain_budget_spec, IsBudget};
ghost use Rattle.mg_args.specs.Tasks.{Asks, plain_name as plain_name_spec, plain_names as plain_names_spec, plain_build as plain_build_spec, plain_trial as plain_trial_spec, plain_migrate as plain_migrate_spec, plain_merge as plain_merge_spec};

use crate::plain::{is_plain_name, plain_number};
use crate::task::Task;
use mg_defs::{DEFAULT_BUDGET, GREATEST_BUDGET, LEAST_BUDGET, TRIAL_DOCUMENTS};

fn plain_budget(bytes: &str) -> Option<u64>
    ensures is { result ≡ plain_budget_spec bytes.now }
    ensures within { IfSome result IsBudget }
{
    plain_number(bytes, LEAST_BUDGET, GREATEST_BUDGET)
}

/// The budget of the one word `--budget=BYTES`.
fn budget_in_one(word: &str) -> Option<u64>
    ensures is { result ≡ budget_in_one_spec word.now }
    ensures within { IfSome result IsBudget }
{
    match word.strip_prefix("--budget=") {
        Some(bytes) => plain_budget(bytes),
        None => None,
    }
}

/// The budget of the two words `--budget BYTES`.
fn budget_in_two(option: &str, bytes: &str) -> Option<u64>
    ensures is { result ≡ budget_in_two_spec option.now bytes.now }
    ensures within { IfSome result IsBudget }
{
    if option == "--budget" {
        plain_budget(bytes)
    } else {
        None
    }
}

/// The one name of a tool.
pub fn plain_name(words: &[String]) -> Option<&str>
    ensures { option_copied result ≡ plain_name_spec (map string_bytes words.now) }
{
    match words {
        [name] if is_plain_name(name.as_str()) => Some(name.as_str()),
        _ => None,
    }
}

/// A build of two plain names, where the budget is there.
fn plain_names<'a>(collection: &'a str, name: &'a str, budget: Option<u64>) -> Option<Task<'a>>
    requires { IfSome budget IsBudget }
    ensures { Asks result (plain_names_spec collection.entry.now name.entry.now budget) }
{
    let Some(budget) = budget else {
        return None;
    };
    if !is_plain_name(collection) || !is_plain_name(name) {
        return None;
    }
    Some(Task::Build {
        collection,
        name,
        budget,
    })
}

/// The names in order, and the budget before, between or after them, or nowhere.
pub fn plain_build(words: &[String]) -> Option<Task<'_>>
    ensures { Asks result (plain_build_spec (map string_bytes words.now)) }
{
    if words.len() < 2 || words.len() > 4 {
        return None;
    }
    match words {
        [a, b] => plain_names(a.as_str(), b.as_str(), Some(DEFAULT_BUDGET)),
        [a, b, c] => build_with_one(a.as_str(), b.as_str(), c.as_str()),
        [a, b, c, d] => build_with_two(a.as_str(), b.as_str(), c.as_str(), d.as_str()),
        _ => None,
    }
}

fn build_with_one<'a>(a: &'a str, b: &'a str, c: &'a str) -> Option<Task<'a>>
    ensures { Asks result (plain_build_spec (a.entry.now ∷ b.entry.now ∷ c.entry.now ∷ [])) }
{
    if let Some(task) = plain_names(b, c, budget_in_one(a)) {
        return Some(task);
    }
    if let Some(task) = plain_names(a, c, budget_in_one(b)) {
        return Some(task);
    }
    plain_names(a, b, budget_in_one(c))
}

fn build_with_two<'a>(a: &'a str, b: &'a str, c: &'a str, d: &'a str) -> Option<Task<'a>>
    ensures { Asks result (plain_build_spec
        (a.entry.now ∷ b.entry.now ∷ c.entry.now ∷ d.entry.now ∷ [])) }
{
    if let Some(task) = plain_names(c, d, budget_in_two(a, b)) {
        return Some(task);
    }
    if let Some(task) = plain_names(a, d, budget_in_two(b, c)) {
        return Some(task);
    }
    plain_names(a, b, budget_in_two(c, d))
}

/// A seed and a number of documents.
pub fn plain_trial(words: &[String]) -> Option<Task<'_>>
    ensures { Asks result (plain_trial_spec (map string_bytes words.now)) }
{
    let [seed, docs] = words else {
        return None;
    };
    let Some(seed) = plain_number(seed.as_str(), 0, u64::MAX) else {
        return None;
    };
    let Some(docs) = plain_number(docs.as_str(), 1, TRIAL_DOCUMENTS) else {
        return None;
    };
    Some(Task::Trial {
        seed,
        docs: docs as u32,
    })
}

/// The names of a migration.
pub fn plain_migrate(words: &[String]) -> Option<Task<'_>>
    ensures { Asks result (plain_migrate_spec (map string_bytes words.now)) }
{
    let [name, new] = words else {
        return None;
    };
    if !is_plain_name(name.as_str()) || !is_plain_name(new.as_str()) {
        return None;
    }
    Some(Task::Migrate {
        name: name.as_str(),
        new: new.as_str(),
    })
}

/// The names of a merge.
pub fn plain_merge(words: &[String]) -> Option<Task<'_>>
    ensures { Asks result (plain_merge_spec (map string_bytes words.now)) }
{
    let [first, second, new] = words else {
        return None;
    };
    if !is_plain_name(first.as_str()) || !is_plain_name(second.as_str()) {
        return None;
    }
    if !is_plain_name(new.as_str()) {
        return None;
    }
    Some(Task::Merge {
        first: first.as_str(),
        second: second.as_str(),
        new: new.as_str(),
    })
}

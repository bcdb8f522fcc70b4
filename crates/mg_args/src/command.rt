//! The tools' commands: arguments, ranges and the default, as `clap` reads them.
ghost use Rattle.std.specs.Prelude.{◌≡◌, ◌≢◌, IfOk, OnOk, IsErrOf, [], codes, map, string_bytes, true};
ghost use Rattle.clap.specs.Words.{app_of, is_simple, is_simple_and_free, rows_of, found_of, kind_of, IsParsedFrom};
ghost use Rattle.mg_defs.specs.Limits.{least_budget, greatest_budget, trial_documents};
ghost use Rattle.mg_args.specs.declared.command.NotTaken.TheVariants.{Memory};
ghost use Rattle.mg_args.specs.Commands.{faults, rows, name_rule, number_rule, budget_rule, name_app, build_app, trial_app, migrate_app, merge_app, IsArg, TakesNumbers, IsPlainCommand, Gives, IsOwnId};

use clap::builder::ValueParser;
use clap::error::ErrorKind;
use clap::{Arg, ArgAction, ArgMatches, Command, Error};
use mg_defs::{GREATEST_BUDGET, LEAST_BUDGET, TRIAL_DOCUMENTS};
use std::alloc::{AllocError, Global};

/// Why a command did not take the words.
#[derive(Clone, Copy, Debug, PartialEq, Eq)]
pub enum NotTaken {
    Refused,
    Memory,
}

impl From<AllocError> for NotTaken {
    ghost from_gives = { λ _ e. e ≡ Memory };

    fn from(_cause: AllocError) -> NotTaken {
        NotTaken::Memory
    }
}

fn cause_of(error: Error) -> NotTaken
    ensures refused { result ≡ NotTaken.Refused → kind_of error ≢ ErrorKind.OutOfMemory }
    ensures memory { result ≡ NotTaken.Memory → kind_of error ≡ ErrorKind.OutOfMemory }
{
    if error.kind() == ErrorKind::OutOfMemory {
        NotTaken::Memory
    } else {
        NotTaken::Refused
    }
}

/// What a command makes of the words.
pub fn matches_by<'a>(command: Command<'a>, words: &'a [String]) -> Result<ArgMatches<'a>, NotTaken>
    requires simple { is_simple_and_free (app_of command) ≡ true }
    requires alone { is_simple (app_of command) ≡ true }
    ensures taken { OnOk result (faults (app_of command.entry) (map string_bytes words.entry.now)
        ≡ []) }
    ensures refused { IsErrOf result NotTaken.Refused →
        faults (app_of command.entry) (map string_bytes words.entry.now) ≢ [] }
    ensures values { IfOk result (λ m. rows_of (found_of m)
        ≡ rows (app_of command.entry) (map string_bytes words.entry.now)) }
    ensures parsed { IfOk result (IsParsedFrom command.entry) }
{
    match command.try_get_matches_from(words) {
        Ok(matches) => Ok(matches),
        Err(error) => Err(cause_of(error)),
    }
}

/// A required name.
fn name_arg<'a>(alloc: Global, id: &'a str) -> Arg<'a>
    ensures { IsArg result (name_rule id.entry.now) }
{
    Arg::new(alloc, id).required(true).action(ArgAction::Set)
}

/// A required number in its range.
fn number_arg<'a>(alloc: Global, id: &'a str, low: u64, high: u64) -> Arg<'a>
    ensures { IsArg result (number_rule id.entry.now low high) }
{
    Arg::new(alloc, id)
        .required(true)
        .action(ArgAction::Set)
        .value_parser(ValueParser::unsigned(low, high))
}

/// The budget, an option with a default.
fn budget_arg(alloc: Global) -> Arg<'static>
    ensures { IsArg result budget_rule }
{
    Arg::new(alloc, "budget")
        .long("budget")
        .action(ArgAction::Set)
        .value_parser(ValueParser::unsigned(LEAST_BUDGET, GREATEST_BUDGET))
        .default_value("16777216")
}

/// The command of `TOOL NAME`.
pub fn name_command<'a>(
    alloc: Global,
    tool: &'a str,
    id: &'a str,
) -> Result<Command<'a>, AllocError>
    requires { IsOwnId id.now }
    ensures app { IfOk result (λ c. app_of c ≡ name_app tool.entry.now id.entry.now) }
    ensures given { IfOk result (λ c. Gives c id.entry.now) }
{
    Command::new(alloc, tool).arg(name_arg(alloc, id))
}

/// The command of `build COLLECTION NAME [--budget BYTES]`.
pub fn build_command<'a>(alloc: Global) -> Result<Command<'a>, AllocError>
    ensures app { IfOk result (λ c. app_of c ≡ build_app) }
    ensures plain { IfOk result IsPlainCommand }
    ensures given { IfOk result (λ c. Gives c (codes "collection") × Gives c (codes "name")) }
    ensures budget { IfOk result (λ c. TakesNumbers c (codes "budget") least_budget greatest_budget) }
{
    Command::new(alloc, "build")
        .arg(name_arg(alloc, "collection"))?
        .arg(name_arg(alloc, "name"))?
        .arg(budget_arg(alloc))
}

/// The command of `trial SEED DOCS`.
pub fn trial_command<'a>(alloc: Global) -> Result<Command<'a>, AllocError>
    ensures app { IfOk result (λ c. app_of c ≡ trial_app) }
    ensures plain { IfOk result IsPlainCommand }
    ensures given { IfOk result (λ c. Gives c (codes "seed") × Gives c (codes "docs")) }
    ensures seed { IfOk result (λ c. TakesNumbers c (codes "seed") 0 18446744073709551615) }
    ensures docs { IfOk result (λ c. TakesNumbers c (codes "docs") 1 trial_documents) }
{
    Command::new(alloc, "trial")
        .arg(number_arg(alloc, "seed", 0, 18_446_744_073_709_551_615))?
        .arg(number_arg(alloc, "docs", 1, TRIAL_DOCUMENTS))
}

/// The command of `migrate NAME NEW`.
pub fn migrate_command<'a>(alloc: Global) -> Result<Command<'a>, AllocError>
    ensures app { IfOk result (λ c. app_of c ≡ migrate_app) }
    ensures given { IfOk result (λ c. Gives c (codes "name") × Gives c (codes "new")) }
{
    Command::new(alloc, "migrate")
        .arg(name_arg(alloc, "name"))?
        .arg(name_arg(alloc, "new"))
}

/// The command of `merge A B NEW`.
pub fn merge_command<'a>(alloc: Global) -> Result<Command<'a>, AllocError>
    ensures app { IfOk result (λ c. app_of c ≡ merge_app) }
    ensures given { IfOk result (λ c. Gives c (codes "first") × Gives c (codes "second")
        × Gives c (codes "new")) }
{
    Command::new(alloc, "merge")
        .arg(name_arg(alloc, "first"))?
        .arg(name_arg(alloc, "second"))?
        .arg(name_arg(alloc, "new"))
}

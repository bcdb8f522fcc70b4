//! What the words of a command line ask for.
//!
//! Words are read in two ways, and [`read_words`] alone is called from outside. *Plain* words, a
//! tool's names and numbers in order, are read by a rule of their own, so that no name or number that
//! is written plainly is ever refused. All other words go to the tool's command of `clap`, which has
//! exactly the tool's arguments: it takes names behind `--`, and numbers with a plus or leading zeros.
//! Of the workspace the crate stands on mg_defs alone, so an edit of a tool does not prove it again.
#![tactic(auto)]

mod command;
mod laws;
mod name_tool;
mod plain;
mod plain_words;
mod read;
mod taken;
mod task;

pub use laws::refused_words_ask_nothing;
pub use name_tool::NameTool;
pub use read::read_words;
pub use task::Task;

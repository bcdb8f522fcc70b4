//! The top call of the program: what the words of a command line ask for, done over any devices.
//!
//! [`run`] is all that the program does besides making its devices, so what holds of the program is
//! what its one clause says. That clause is a table: for what the words ask, a record a tool, over what
//! the devices told and counted before the run and after it, and the status. It is generic over the
//! store, the input and the outputs; tests run it over devices in memory, the program over files and
//! standard streams. [`trial`] is the work of the tool of this name, over any store. Two laws speak of the
//! whole table: [`usage_asks_nothing`] and [`lacking_runs_do_all`]. One speaks of the tools that make one
//! call and then print, of which the table has the call's own promise: [`runs_end_by_their_call`].
#![tactic(auto)]

mod comparing;
mod ending;
mod laws;
mod lines;
mod tool_build;
mod tool_check;
mod tool_decode;
mod tool_merge;
mod tool_migrate;
mod tool_phrase;
mod tool_query;
mod tool_scan;
mod tool_trial;
mod tool_wild;
mod top;
mod trial_summary;
mod trials;

pub use laws::{lacking_runs_do_all, runs_end_by_their_call, usage_asks_nothing};
pub use top::run;
pub use trials::trial;

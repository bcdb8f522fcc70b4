//! Times what no run of the program shows alone: bits and numbers read and written over memory.
//!
//! `mg_bench bits` prints a table, a row each work: the best and the median of seven turns.
#![tactic(auto)]

mod bits;
mod random;
mod table;

use anyhow::{Result, bail};
use std::alloc::Global;
use std::env;
use std::rt::Clock;

/// Prints the words that it takes, and what each times.
fn print_words(rt: &impl Print) -> Result<()> {
    println!(rt;
        "bits  bits and numbers of 13 bits, read from memory and through pages, and written"
    )?;
    Ok(())
}

/// Does what the words ask for; without words it prints those that it takes.
fn run(rt: &(impl Clock + Print), alloc: Global, words: &[String]) -> Result<()> {
    match words {
        [] => print_words(rt),
        [word] if word.as_str() == "bits" => bits::time(rt, alloc),
        [word, ..] => {
            print_words(rt)?;
            bail!("no word is {word}")
        }
    }
}

fn main(rt: HostRuntime) -> Result<()> {
    let alloc = rt.alloc();
    let words: Vec<String> = env::args(&rt)?.skip(1).collect(alloc)?;
    run(&rt, alloc, &words)
}

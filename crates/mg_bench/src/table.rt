//! The times of several turns, and the table that tells them.
ghost use Rattle.std.specs.Prelude.{◌<◌};

use anyhow::{Result, bail, ensure};
use std::fmt::Debug;
use std::rt::Clock;
use std::time::Instant;

/// How many turns of each work are timed.
const TURNS: usize = 7;

/// The turns of a work.
#[derive(Clone, Copy)]
struct Turns {
    nanoseconds: [u64; TURNS],
    sum: Option<u64>,
}

impl Turns {
    /// No turn yet.
    fn new() -> Self {
        Turns {
            nanoseconds: [0; TURNS],
            sum: None,
        }
    }

    /// Puts the nanoseconds of a turn in its place. Its sum has to be that of the others: so each turn
    /// is seen to have done the work, and no compiler leaves one out.
    fn put(&mut self, place: usize, nanoseconds: u64, sum: u64) -> Result<()>
        requires { place < 7 }
    {
        let first = self.sum.unwrap_or(sum);
        ensure!(sum == first, "a turn gave {sum}, and the first one {first}");
        self.sum = Some(first);
        self.nanoseconds[place] = nanoseconds;
        Ok(())
    }

    /// Prints the row of a work on so many things: the best and the median turn, in nanoseconds a
    /// thing, and the best one as a whole, in microseconds.
    fn print(&self, rt: &impl Print, work: &str, count: u64) -> Result<()> {
        let mut sorted = self.nanoseconds;
        sorted.sort_unstable();
        let count = count.max(1);
        let best = thousandths(sorted[0], count);
        let median = thousandths(sorted[TURNS / 2], count);
        println!(rt;
            "{work:<42} {count:>9} {:>10}.{:03} {:>10}.{:03} {:>10}",
            best / 1000,
            best % 1000,
            median / 1000,
            median % 1000,
            sorted[0] / 1000
        )?;
        Ok(())
    }
}

/// The nanoseconds of one of so many things, in thousandths.
fn thousandths(nanoseconds: u64, count: u64) -> u128
    requires { 0 < count }
{
    u128::from(nanoseconds) * 1000 / u128::from(count)
}

/// Prints the names of the columns.
pub fn print_head(rt: &impl Print) -> Result<()> {
    println!(rt;
        "{:<42} {:>9} {:>14} {:>14} {:>10}",
        "one of", "count", "best, ns", "median, ns", "whole, us"
    )?;
    Ok(())
}

/// Times the turns of a work on so many things, a call each, which answers a sum that is the same in
/// each turn, and prints its row.
pub fn print_times<W: FnMut() -> Result<u64>>(
    rt: &(impl Clock + Print),
    work: &str,
    count: u64,
    mut call: W,
) -> Result<()>
    requires { W.IsAlwaysCallable call }
{
    let mut turns = Turns::new();
    for place in 0..TURNS {
        let begun = Instant::now(rt)?;
        let sum = call()?;
        let time = begun.elapsed(rt)?;
        let nanoseconds = time.as_nanos().min(u128::from(u64::MAX)) as u64;
        turns.put(place, nanoseconds, sum)?;
    }
    turns.print(rt, work, count)
}

/// A refusal of a part of mg as the program's error.
pub fn or_refusal<T, E: Debug + Drop>(outcome: Result<T, E>) -> Result<T> {
    match outcome {
        Ok(value) => Ok(value),
        Err(refusal) => bail!("refused: {refusal:?}"),
    }
}

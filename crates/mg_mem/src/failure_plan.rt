//! Which calls of a device in memory fail.
ghost use Rattle.std.specs.Prelude.{◌≡◌, ℕ, None, OnOk, OnErr, filter, fold, nat_lt};
ghost use Rattle.mg_mem.specs.Plans.{calls_of, keep_at, keep_from, keep_of, lesser, next_keep, AfterCall, FailsAt, FailsFrom, SamePlan};

use std::alloc::{AllocError, Global};

/// Which calls of a device in memory are to fail, and how many calls there were. Calls are
/// numbered from 0. Where two plans speak of one call, the later one counts.
#[derive(Drop)]
pub struct FailurePlan {
    calls: u64,
    planned: Vec<PlannedFailure>,
    fails_from: Option<u64>,
}

/// The call of this number fails, and keeps so many bytes of its piece.
#[derive(Clone, Copy, Drop)]
pub struct PlannedFailure {
    call: u64,
    keep: u64,
}

impl FailurePlan {
    /// No call is to fail.
    pub fn new(alloc: Global) -> Self
        ensures calls { calls_of result ≡ 0 }
        ensures none { (n : ℕ) → keep_at result n ≡ None }
    {
        FailurePlan {
            calls: 0,
            planned: Vec::new(alloc),
            fails_from: None,
        }
    }

    /// How many calls there were, up to 2^64 - 1.
    pub fn calls(&self) -> u64
        ensures { result ≡ calls_of self.now }
    {
        self.calls
    }

    /// Makes the call of this number fail, and keep so many bytes.
    pub fn fail_at(&mut self, call: u64, keep: u64) -> Result<(), AllocError>
        ensures ok { OnOk result (FailsAt self.old self.new call keep) }
        ensures err { OnErr result (SamePlan self.old self.new) }
    {
        self.planned.push(PlannedFailure { call, keep })?;
        Ok(())
    }

    /// Makes each call from this number on fail, and keep nothing.
    pub fn fail_from(&mut self, call: u64)
        ensures { FailsFrom self.old self.new call }
    {
        drop_from(&mut self.planned, call);
        self.fails_from = Some(lesser(self.fails_from, call));
    }

    /// Begins a call. Where it is to fail, the answer says how many bytes it keeps.
    pub fn begin(&mut self) -> Option<u64>
        ensures keep { result ≡ next_keep self.old }
        ensures counted { AfterCall self.old self.new }
    {
        let call = self.calls;
        self.calls = call.saturating_add(1);
        last_keep(&self.planned, self.fails_from, call)
    }
}

// Drops what was planned for the calls from this number on.
fn drop_from(planned: &mut Vec<PlannedFailure>, call: u64)
    ensures { planned.new.items ≡ filter (λ p. nat_lt p.call call) planned.old.items }
{
    planned.retain(|failure| failure.call < call);
}

fn lesser(from: Option<u64>, call: u64) -> u64
    ensures { result ≡ lesser from call }
{
    match from {
        Some(from) => from.min(call),
        None => call,
    }
}

// What the call of this number keeps, if it is to fail.
fn last_keep(planned: &[PlannedFailure], from: Option<u64>, call: u64) -> Option<u64>
    ensures { result ≡ fold (keep_of call) (keep_from from call) planned.now }
{
    let mut keep = match from {
        Some(from) if from <= call => Some(0),
        _ => None,
    };
    for failure in planned {
        if failure.call == call {
            keep = Some(failure.keep);
        }
    }
    keep
}

//! A sink in memory whose puts fail where it is told to.
ghost use Rattle.std.specs.Prelude.{◌≡◌, ◌≢◌, ℕ, [], None, Some, IsSome, IsErr, IsErrOf, OnOk, OnErr};
ghost use Rattle.mg_dev.specs.Causes.{HasPutCause, HasLack};
ghost use Rattle.mg_dev.specs.Streams.{AfterPut};
ghost use Rattle.mg_mem.specs.Plans.{calls_of, keep_at, next_keep, AfterCall, FailsAt, SamePlan};
ghost use Rattle.mg_mem.specs.Mem.{sink_plan, PutKept};

use crate::SureSink;
use crate::failure_plan::FailurePlan;
use mg_dev::{PutErr, Sink};
use std::alloc::{AllocError, Global};

/// Bytes that are kept in memory, which the sink tells, and puts that fail where a test planned
/// it. Puts are numbered from 0.
#[derive(Drop)]
pub struct MemSink {
    inner: SureSink,
    plan: FailurePlan,
    faults: u64,
}

impl MemSink {
    /// An empty sink, of which no put is to fail.
    pub fn new(alloc: Global) -> Self
        ensures written { ⟦<MemSink as Sink>⟧.written result ≡ Some [] }
        ensures faults { ⟦<MemSink as Sink>⟧.faults result ≡ 0 }
        ensures lacks { ⟦<MemSink as Sink>⟧.lacks result ≡ 0 }
        ensures calls { calls_of (sink_plan result) ≡ 0 }
        ensures plan { (n : ℕ) → keep_at (sink_plan result) n ≡ None }
    {
        MemSink {
            inner: SureSink::new(alloc),
            plan: FailurePlan::new(alloc),
            faults: 0,
        }
    }

    /// What was written.
    pub fn bytes(&self) -> &[u8]
        ensures { ⟦<MemSink as Sink>⟧.written self.now ≡ Some result.now }
    {
        self.inner.bytes()
    }

    /// Makes the put of this number fail. It keeps the first `keep` bytes of its piece, or all of
    /// a shorter one. After want of memory nothing changed.
    pub fn fail_at(&mut self, call: u64, keep: u64) -> Result<(), AllocError>
        ensures ok { OnOk result (FailsAt (sink_plan self.old) (sink_plan self.new) call keep) }
        ensures err { OnErr result (SamePlan (sink_plan self.old) (sink_plan self.new)) }
        ensures written { ⟦<MemSink as Sink>⟧.written self.new
            ≡ ⟦<MemSink as Sink>⟧.written self.old }
        ensures faults { ⟦<MemSink as Sink>⟧.faults self.new ≡ ⟦<MemSink as Sink>⟧.faults self.old }
        ensures lacks { ⟦<MemSink as Sink>⟧.lacks self.new ≡ ⟦<MemSink as Sink>⟧.lacks self.old }
    {
        self.plan.fail_at(call, keep)
    }
}

#[tactic(auto, using(mg_dev::specs::StreamLaws::stream_laws))]
impl Sink for MemSink {
    ghost written = { λ s. ⟦<SureSink as Sink>⟧.written s.inner };

    ghost faults = { λ s. s.faults };

    ghost lacks = { λ s. ⟦<SureSink as Sink>⟧.lacks s.inner };

    /// Where the put is to fail and there is no memory for the bytes that it keeps, it answers
    /// `Memory` and keeps none.
    fn put(&mut self, piece: &[u8]) -> Result<(), PutErr>
        ensures content { AfterPut (⟦<MemSink as Sink>⟧.written self.old)
            (⟦<MemSink as Sink>⟧.written self.new) piece.now result }
        ensures cause { HasPutCause (⟦<MemSink as Sink>⟧.faults self.old)
            (⟦<MemSink as Sink>⟧.faults self.new) result }
        ensures lack { HasLack (⟦<MemSink as Sink>⟧.lacks self.old)
            (⟦<MemSink as Sink>⟧.lacks self.new) result }
        ensures refused { IsSome (next_keep (sink_plan self.old)) → IsErr result }
        ensures failed { IsErrOf result PutErr.Failed → IsSome (next_keep (sink_plan self.old)) }
        ensures kept { IsErrOf result PutErr.Failed →
            PutKept ⟦<MemSink as Sink>⟧.written self.old self.new piece.now }
        ensures memory { IsErrOf result PutErr.Memory → ⟦<MemSink as Sink>⟧.written self.new
            ≡ ⟦<MemSink as Sink>⟧.written self.old }
        ensures counted { AfterCall (sink_plan self.old) (sink_plan self.new) }
        ensures calm { result ≢ Err PutErr.Failed → ⟦<MemSink as Sink>⟧.faults self.new
            ≡ ⟦<MemSink as Sink>⟧.faults self.old }
        ensures ample { result ≢ Err PutErr.Memory → ⟦<MemSink as Sink>⟧.lacks self.new
            ≡ ⟦<MemSink as Sink>⟧.lacks self.old }
    {
        match self.plan.begin() {
            None => self.inner.put(piece),
            Some(keep) => {
                let count = piece.len().min(keep as usize);
                self.inner.put(&piece[..count])?;
                self.faults = self.faults.saturating_add(1);
                Err(PutErr::Failed)
            }
        }
    }
}

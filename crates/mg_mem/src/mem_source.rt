//! A source in memory whose reads fail where it is told to.
ghost use Rattle.std.specs.Prelude.{◌≡◌, ◌≤◌, ◌↔◌, ℕ, None, Some, IsSome, IsErr, IfOk, OnOk, OnErr};
ghost use Rattle.std.specs.Io.{ReadsAtMost};
ghost use Rattle.mg_dev.specs.Causes.{HasCause};
ghost use Rattle.mg_dev.specs.Streams.{AfterRead};
ghost use Rattle.mg_mem.specs.Plans.{calls_of, keep_at, next_keep, AfterCall, FailsAt, SamePlan};
ghost use Rattle.mg_mem.specs.Mem.{source_plan, mem_step, GivesStep};

use crate::SureSource;
use crate::failure_plan::FailurePlan;
use mg_dev::{Failed, Source};
use std::alloc::{AllocError, Global};

/// Bytes in memory, which the source tells, and reads that fail where a test planned it. Reads
/// are numbered from 0.
#[derive(Drop)]
pub struct MemSource {
    inner: SureSource,
    plan: FailurePlan,
    faults: u64,
}

impl MemSource {
    /// A source of these bytes, of which each read gives at most `step` and none is to fail.
    pub fn new(alloc: Global, bytes: &[u8], step: usize) -> Result<Self, AllocError>
        requires { 1 ≤ step }
        ensures left { IfOk result (λ source. ⟦<MemSource as Source>⟧.left source
            ≡ Some bytes.now) }
        ensures faults { IfOk result (λ source. ⟦<MemSource as Source>⟧.faults source ≡ 0) }
        ensures step { IfOk result (λ source. mem_step source ≡ step) }
        ensures calls { IfOk result (λ source. calls_of (source_plan source) ≡ 0) }
        ensures plan { IfOk result (λ source. (n : ℕ) → keep_at (source_plan source) n ≡ None) }
    {
        Ok(MemSource {
            inner: SureSource::new(alloc, bytes, step)?,
            plan: FailurePlan::new(alloc),
            faults: 0,
        })
    }

    /// Makes the read of this number fail. After want of memory nothing changed.
    pub fn fail_at(&mut self, call: u64) -> Result<(), AllocError>
        ensures ok { OnOk result (FailsAt (source_plan self.old) (source_plan self.new) call 0) }
        ensures err { OnErr result (SamePlan (source_plan self.old) (source_plan self.new)) }
        ensures left { ⟦<MemSource as Source>⟧.left self.new
            ≡ ⟦<MemSource as Source>⟧.left self.old }
        ensures faults { ⟦<MemSource as Source>⟧.faults self.new
            ≡ ⟦<MemSource as Source>⟧.faults self.old }
        ensures step { mem_step self.new ≡ mem_step self.old }
    {
        self.plan.fail_at(call, 0)
    }
}

impl Source for MemSource {
    ghost left = { λ s. ⟦<SureSource as Source>⟧.left s.inner };

    ghost faults = { λ s. s.faults };

    fn read(&mut self, buf: &mut [u8]) -> Result<usize, Failed>
        ensures bound { ReadsAtMost result buf.new }
        ensures bytes { AfterRead (⟦<MemSource as Source>⟧.left self.old)
            (⟦<MemSource as Source>⟧.left self.new) buf.new result }
        ensures cause { HasCause (⟦<MemSource as Source>⟧.faults self.old)
            (⟦<MemSource as Source>⟧.faults self.new) result }
        ensures planned { IsErr result ↔ IsSome (next_keep (source_plan self.old)) }
        ensures counted { AfterCall (source_plan self.old) (source_plan self.new) }
        ensures calm { OnOk result (⟦<MemSource as Source>⟧.faults self.new
            ≡ ⟦<MemSource as Source>⟧.faults self.old) }
        ensures count { GivesStep (mem_step self.old) (⟦<MemSource as Source>⟧.left self.old)
            buf.new result }
        ensures step { mem_step self.new ≡ mem_step self.old }
    {
        if self.plan.begin().is_some() {
            self.faults = self.faults.saturating_add(1);
            return Err(Failed);
        }
        self.inner.read(buf)
    }
}

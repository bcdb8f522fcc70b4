//! A source in memory that never fails.
ghost use Rattle.std.specs.Prelude.{◌≡◌, ◌≤◌, drop, Some, IfOk, IsOk};
ghost use Rattle.std.specs.Io.{ReadsAtMost};
ghost use Rattle.mg_dev.specs.Causes.{HasCause};
ghost use Rattle.mg_mem.specs.Mem.{sure_step, GivesStep};
ghost use Rattle.mg_dev.specs.Streams.{AfterRead};

use mg_dev::{Failed, Source};
use std::alloc::{AllocError, Global};

/// Bytes in memory, of which each read gives at most `step`. It tells them and never fails.
#[derive(Drop)]
pub struct SureSource {
    bytes: Vec<u8>,
    at: usize,
    step: usize,
}

impl SureSource {
    /// A source of these bytes.
    pub fn new(alloc: Global, bytes: &[u8], step: usize) -> Result<Self, AllocError>
        requires { 1 ≤ step }
        ensures left { IfOk result (λ source. ⟦<SureSource as Source>⟧.left source
            ≡ Some bytes.now) }
        ensures step { IfOk result (λ source. sure_step source ≡ step) }
    {
        let bytes = bytes.to_vec(alloc)?;
        Ok(SureSource { bytes, at: 0, step })
    }

    // The bytes that are left.
    fn rest(&self) -> &[u8]
        ensures { result.now ≡ drop self.now.at self.now.bytes.items }
    {
        self.bytes.get(self.at..).unwrap_or(&[])
    }
}

#[tactic(auto, unfolding(mg_dev::specs::Streams::prepended))]
impl Source for SureSource {
    ghost left = { λ s. Some (drop s.at s.bytes.items) };

    ghost faults = { λ _. 0 };

    fn read(&mut self, buf: &mut [u8]) -> Result<usize, Failed>
        ensures bound { ReadsAtMost result buf.new }
        ensures bytes { AfterRead (⟦<SureSource as Source>⟧.left self.old)
            (⟦<SureSource as Source>⟧.left self.new) buf.new result }
        ensures cause { HasCause (⟦<SureSource as Source>⟧.faults self.old)
            (⟦<SureSource as Source>⟧.faults self.new) result }
        ensures sure { IsOk result }
        ensures count { GivesStep (sure_step self.old) (⟦<SureSource as Source>⟧.left self.old)
            buf.new result }
        ensures step { sure_step self.new ≡ sure_step self.old }
    {
        let rest = self.rest();
        let count = rest.len().min(buf.len()).min(self.step.max(1));
        buf[..count].copy_from_slice(&rest[..count]);
        self.at += count;
        Ok(count)
    }
}

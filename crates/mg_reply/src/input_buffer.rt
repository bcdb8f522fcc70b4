//! The buffer of an input: filled at once, given byte by byte.
ghost use Rattle.std.specs.Prelude.{◌≡◌, ℕ, ◌+◌, ◌-◌, ◌<◌, ◌≤◌, List, [], ◌∷◌, length, take, drop, IsTrue, OnErr, ◌↔◌};
ghost use Rattle.mg_dev.specs.Causes.{HasCause};
ghost use Rattle.mg_dev.specs.Streams.{prepended};
ghost use Rattle.mg_reply.specs.Reading.{AfterByte, AfterFill, buffer_bytes};

use mg_dev::{Failed, Source};
use std::marker::Model;

/// Bytes that were taken from a source and not used yet, at most 4,096.
#[derive(Drop)]
pub struct InputBuffer {
    buffer: [u8; 4096],
    at: usize,
    end: usize,
}

impl Model for InputBuffer {
    ghost use Rattle.std.specs.Prelude.{List, ℕ, take, drop, ◌-◌, ◌≤◌};

    ghost Value = { List ℕ };

    ghost view = { λ h. drop h.at (take h.end h.buffer) };

    ghost invariant = { λ h. (h.at ≤ h.end) × (h.end ≤ 4096) };
}

impl InputBuffer {
    pub fn new() -> InputBuffer
        ensures { result ≡ [] }
    {
        InputBuffer {
            buffer: [0; 4096],
            at: 0,
            end: 0,
        }
    }

    /// Fills the buffer, which has to be empty, by one read of the input.
    fn fill<I: Source>(&mut self, input: &mut I) -> Result<usize, Failed>
        requires { self.old ≡ [] }
        ensures filled { AfterFill self.new (I.left input.old) (I.left input.new) result }
        ensures few { length self.new ≤ buffer_bytes }
        ensures cause { HasCause (I.faults input.old) (I.faults input.new) result }
    {
        self.at = 0;
        self.end = 0;
        let count = input.read(&mut self.buffer)?;
        self.end = count;
        Ok(count)
    }

    fn first(&mut self) -> u8
        requires { 0 < length self.old }
        ensures is { self.old ≡ result ∷ self.new }
        ensures few { length self.old ≤ buffer_bytes }
    {
        let byte = self.buffer[self.at];
        self.at += 1;
        byte
    }

    fn is_empty(&self) -> bool
        ensures { IsTrue result ↔ (self.now ≡ []) }
    {
        self.at == self.end
    }

    /// Takes the next byte: one from the buffer, which is filled first where it is empty.
    pub fn byte<I: Source>(&mut self, input: &mut I) -> Result<Option<u8>, Failed>
        ensures took { AfterByte (prepended self.old (I.left input.old))
            (prepended self.new (I.left input.new)) result }
        ensures broken { OnErr result (self.new ≡ []) }
        ensures few { length self.new ≤ buffer_bytes }
        ensures cause { HasCause (I.faults input.old) (I.faults input.new) result }
    {
        if !self.is_empty() {
            return Ok(Some(self.first()));
        }
        let count = self.fill(input)?;
        if count == 0 {
            return Ok(None);
        }
        Ok(Some(self.first()))
    }
}

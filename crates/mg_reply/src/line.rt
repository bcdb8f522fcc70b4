//! The first bytes of a line.
ghost use Rattle.std.specs.Prelude.{◌≡◌, ℕ, ◌+◌, ◌-◌, ◌<◌, ◌≤◌, List, [], ◌∷◌, ◌++◌, length, take};
ghost use Rattle.mg_defs.specs.Lines.{without_return};

use std::marker::Model;

/// Up to 1,024 bytes.
#[derive(Drop)]
pub struct LineBuf {
    buffer: [u8; 1024],
    len: usize,
}

impl Model for LineBuf {
    ghost use Rattle.std.specs.Prelude.{List, ℕ, take, ◌≤◌};

    ghost Value = { List ℕ };

    ghost view = { λ l. take l.len l.buffer };

    ghost invariant = { λ l. l.len ≤ 1024 };
}

impl LineBuf {
    pub fn new() -> LineBuf
        ensures { result ≡ [] }
    {
        LineBuf {
            buffer: [0; 1024],
            len: 0,
        }
    }

    pub fn clear(&mut self)
        ensures { self.new ≡ [] }
    {
        self.len = 0;
    }

    /// Keeps the byte while there is room.
    pub fn keep(&mut self, byte: u8)
        ensures { self.new ≡ take 1024 (self.old ++ byte ∷ []) }
    {
        if self.len < 1024 {
            self.buffer[self.len] = byte;
            self.len += 1;
        }
    }

    pub fn bytes(&self) -> &[u8]
        ensures bytes { result.now ≡ self.now }
        ensures short { length self.now ≤ 1024 }
    {
        &self.buffer[..self.len]
    }
}

/// The bytes without one last carriage return.
pub fn cut_return(line: &[u8]) -> &[u8]
    ensures { result.now ≡ without_return line.now }
{
    let Some((last, front)) = line.split_last() else {
        return line;
    };
    if *last == b'\r' { front } else { line }
}

//! A text that is being made.
ghost use Rattle.std.specs.Prelude.{◌≡◌, ◌+◌, ◌≤◌, [], length};
ghost use Rattle.mg_defs.specs.Generator.{made_bytes as text_of, pick as pick_of, capital_pick as capital_pick_of, separator as separator_of};
ghost use Rattle.mg_gen.specs.Grew.{Grew};

use crate::generator::Generator;
use arrayvec::ArrayVec;

/// How many bytes are made before they go to the sink.
pub(crate) const ROOM: usize = 8192;

/// A generator, and the text made with it that was not yet handed on.
///
/// Each method adds one part of a text and says how many bytes it adds at most, so a whole letter
/// is made without a test for room.
#[derive(Drop)]
pub(crate) struct Writer {
    pub(crate) generator: Generator,
    pub(crate) text: ArrayVec<u8, ROOM>,
}

impl Writer {
    pub(crate) fn new(seed: u64) -> Writer
        ensures state { result.generator.state ≡ seed }
        ensures empty { result.text.items ≡ [] }
    {
        Writer {
            generator: Generator { state: seed },
            text: ArrayVec::new(),
        }
    }

    pub(crate) fn put(&mut self, bytes: &[u8])
        requires { length self.old.text.items + length bytes.now ≤ 8192 }
        ensures made { Grew self.old self.new (text_of bytes.now) }
        ensures room { length self.new.text.items ≡ length self.old.text.items + length bytes.now }
    {
        let _ = self.text.try_extend_from_slice(bytes);
    }

    /// Adds a word.
    pub(crate) fn pick(&mut self)
        requires { length self.old.text.items + 9 ≤ 8192 }
        ensures made { Grew self.old self.new pick_of }
        ensures room { length self.new.text.items ≤ length self.old.text.items + 9 }
    {
        let word = self.generator.pick();
        self.put(word.as_slice());
    }

    /// Adds a word with a capital.
    pub(crate) fn capital_pick(&mut self)
        requires { length self.old.text.items + 9 ≤ 8192 }
        ensures made { Grew self.old self.new capital_pick_of }
        ensures room { length self.new.text.items ≤ length self.old.text.items + 9 }
    {
        let word = self.generator.pick();
        if let [first, rest @ ..] = word.as_slice() {
            self.text.push(first.to_ascii_uppercase());
            self.put(rest);
        }
    }

    /// Adds a blank, and one time in eight a comma before it.
    pub(crate) fn separator(&mut self)
        requires { length self.old.text.items + 2 ≤ 8192 }
        ensures made { Grew self.old self.new separator_of }
        ensures room { length self.new.text.items ≤ length self.old.text.items + 2 }
    {
        if self.generator.draw(8) == 0 {
            self.put(b", ");
        } else {
            self.put(b" ");
        }
    }
}

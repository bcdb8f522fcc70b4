//! The two calls.
ghost use Rattle.std.specs.Prelude.{◌≤◌, ◌+◌, ℕ, List, Option, length, OnOk};
ghost use Rattle.mg_defs.specs.Generator.{Made, made_collection, made_session};
ghost use Rattle.mg_dev.specs.Streams.{AfterPut};
ghost use Rattle.mg_dev.specs.Causes.{HasPutCause, HasLack};
ghost use Rattle.mg_gen.specs.Grew.{StaysHanded};

use crate::letter::LONGEST;
use crate::writer::{ROOM, Writer};
use mg_dev::{PutErr, Sink};

impl Writer {
    /// Hands the text on where there is no room for another document.
    fn make_room<O: Sink>(&mut self, out: &mut O) -> Result<(), PutErr>
        ensures handed { (old : Option (List ℕ)) (made : Made) →
            StaysHanded O.written out.old out.new self.old self.new result old made }
        ensures room { OnOk result (length self.new.text.items + 867 ≤ 8192) }
        ensures cause { HasPutCause (O.faults out.old) (O.faults out.new) result }
        ensures lack { HasLack (O.lacks out.old) (O.lacks out.new) result }
    {
        if self.text.len() <= ROOM - LONGEST {
            return Ok(());
        }
        out.put(self.text.as_slice())?;
        self.text.clear();
        Ok(())
    }
}

/// Writes so many documents, which follow from the seed.
///
/// After a refusal a prefix of them was written; it comes from the sink alone.
pub fn make_collection<O: Sink>(seed: u64, docs: u32, out: &mut O) -> Result<(), PutErr>
    ensures text { AfterPut (O.written out.old) (O.written out.new) (made_collection seed docs)
        result }
    ensures cause { HasPutCause (O.faults out.old) (O.faults out.new) result }
    ensures lack { HasLack (O.lacks out.old) (O.lacks out.new) result }
{
    let mut writer = Writer::new(seed);
    for _ in 0..docs {
        writer.mail();
        writer.make_room(out)?;
    }
    out.put(writer.text.as_slice())
}

/// Writes a session of forty queries, every fourth of them ranked, which follows from the seed.
///
/// The queries are drawn by a generator that begins one above the seed, so that they are not the
/// first words of the collection with that seed. After a refusal a prefix was written; it comes
/// from the sink alone.
pub fn make_session<O: Sink>(seed: u64, out: &mut O) -> Result<(), PutErr>
    ensures text { AfterPut (O.written out.old) (O.written out.new) (made_session seed) result }
    ensures short { length (made_session seed) ≤ 1670 }
    ensures cause { HasPutCause (O.faults out.old) (O.faults out.new) result }
    ensures lack { HasLack (O.lacks out.old) (O.lacks out.new) result }
{
    let mut writer = Writer::new(seed.wrapping_add(1));
    for _ in 0..10u32 {
        writer.four_queries();
    }
    out.put(writer.text.as_slice())
}

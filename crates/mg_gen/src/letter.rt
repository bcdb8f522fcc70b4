//! Documents.
ghost use Rattle.std.specs.Prelude.{◌+◌, ◌≤◌, length};
ghost use Rattle.mg_defs.specs.Generator.{heading as heading_of, sentence as sentence_of, sentences as sentences_of, mail as mail_of};
ghost use Rattle.mg_gen.specs.Grew.{Grew};

use crate::writer::Writer;

/// The longest document: a heading, six sentences of twelve words, and the byte that closes it.
pub(crate) const LONGEST: usize = 867;

impl Writer {
    /// Adds a document, closed by its byte 2.
    pub(crate) fn mail(&mut self)
        requires { length self.old.text.items + 867 ≤ 8192 }
        ensures made { Grew self.old self.new mail_of }
        ensures room { length self.new.text.items ≤ length self.old.text.items + 867 }
    {
        self.heading();
        self.sentences();
        self.put(b"\x02");
    }

    fn heading(&mut self)
        requires { length self.old.text.items + 74 ≤ 8192 }
        ensures made { Grew self.old self.new heading_of }
        ensures room { length self.new.text.items ≤ length self.old.text.items + 74 }
    {
        self.put(b"From: ");
        self.pick();
        self.put(b"@");
        self.pick();
        self.put(b".example\n");
        self.put(b"Subject: ");
        self.pick();
        self.put(b" ");
        self.pick();
        self.put(b" ");
        self.pick();
        self.put(b"\n\n");
    }

    fn sentences(&mut self)
        requires { length self.old.text.items + 792 ≤ 8192 }
        ensures made { Grew self.old self.new sentences_of }
        ensures room { length self.new.text.items ≤ length self.old.text.items + 792 }
    {
        let count = 1 + self.generator.draw(6);
        for _ in 0..count {
            self.sentence();
        }
    }

    /// Adds four to twelve words, the first with a capital, and a full stop.
    fn sentence(&mut self)
        requires { length self.old.text.items + 132 ≤ 8192 }
        ensures made { Grew self.old self.new sentence_of }
        ensures room { length self.new.text.items ≤ length self.old.text.items + 132 }
    {
        let more = 3 + self.generator.draw(9);
        self.capital_pick();
        for _ in 0..more {
            self.separator();
            self.pick();
        }
        self.put(b".\n");
    }
}

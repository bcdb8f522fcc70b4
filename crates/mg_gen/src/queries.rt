//! Queries.
ghost use Rattle.std.specs.Prelude.{◌+◌, ◌≤◌, length};
ghost use Rattle.mg_defs.specs.Generator.{one_word as one_word_of, one_without as one_without_of, either_and as either_and_of, made_ranked as ranked_of, four_queries as four_queries_of};
ghost use Rattle.mg_gen.specs.Grew.{Grew};

use crate::writer::Writer;

impl Writer {
    /// Adds a query of each kind.
    pub(crate) fn four_queries(&mut self)
        requires { length self.old.text.items + 167 ≤ 8192 }
        ensures made { Grew self.old self.new four_queries_of }
        ensures room { length self.new.text.items ≤ length self.old.text.items + 167 }
    {
        self.one_word();
        self.one_without();
        self.either_and();
        self.ranked();
    }

    fn one_word(&mut self)
        requires { length self.old.text.items + 10 ≤ 8192 }
        ensures made { Grew self.old self.new one_word_of }
        ensures room { length self.new.text.items ≤ length self.old.text.items + 10 }
    {
        self.pick();
        self.put(b"\n");
    }

    fn one_without(&mut self)
        requires { length self.old.text.items + 23 ≤ 8192 }
        ensures made { Grew self.old self.new one_without_of }
        ensures room { length self.new.text.items ≤ length self.old.text.items + 23 }
    {
        self.pick();
        self.put(b" & !");
        self.pick();
        self.put(b"\n");
    }

    fn either_and(&mut self)
        requires { length self.old.text.items + 34 ≤ 8192 }
        ensures made { Grew self.old self.new either_and_of }
        ensures room { length self.new.text.items ≤ length self.old.text.items + 34 }
    {
        self.put(b"(");
        self.pick();
        self.put(b" | ");
        self.pick();
        self.put(b") ");
        self.pick();
        self.put(b"\n");
    }

    /// Adds a ranked query between the commands that ask for ten rows by rank and that undo it.
    fn ranked(&mut self)
        requires { length self.old.text.items + 100 ≤ 8192 }
        ensures made { Grew self.old self.new ranked_of }
        ensures room { length self.new.text.items ≤ length self.old.text.items + 100 }
    {
        self.put(b".set query ranked\n");
        self.put(b".set maxdocs 10\n");
        self.pick();
        self.put(b" ");
        self.pick();
        self.put(b" ");
        self.pick();
        self.put(b"\n");
        self.put(b".set query boolean\n");
        self.put(b".set maxdocs all\n");
    }
}

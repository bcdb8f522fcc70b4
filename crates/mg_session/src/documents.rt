//! The documents of a set, whose text is shown.
//!
//! What shows an answer takes whatever shows documents: it sees no more of it than this trait tells.
ghost use Rattle.std.specs.Prelude.{None};
ghost use Rattle.mg_defs.specs.Terms.{document};
ghost use Rattle.mg_defs.specs.declared.session.Mode.TheVariants as mode;
ghost use Rattle.mg_reply.specs.Printed.{Puts};
ghost use Rattle.mg_text.specs.Decoding.{AddsOf};
ghost use Rattle.mg_session.specs.Calls.{IsShowable, ShowsText};
ghost use Rattle.mg_session.specs.Decided.{PutsDoc};
ghost use Rattle.mg_session.specs.DocStands.{IsDocOf};
ghost use Rattle.mg_session.specs.Showing.{shown_pages};
ghost use Rattle.mg_session.specs.Texts.{Texting};

use mg_dev::{ShowErr, Sink, Store};

/// The documents of a set, of which any can be shown.
pub(crate) trait Documents<S: Store> {
    /// What contracts see of them.
    ghost texts: { Self → Texting };

    /// Writes the bytes of a document, from 1 to the number of documents, to a sink. After a refusal
    /// a prefix of them was written, where the parts stand; where loading was refused, none, and it is
    /// tried again at the next document. Whatever the parts hold, no more is written than the head
    /// tells of the collection.
    fn doc<O: Sink>(&mut self, store: &mut S, number: u32, out: &mut O) -> Result<(), ShowErr>
        requires { IsShowable (S.files store.old) (texts self.old) number }
        ensures shown { ShowsText S.Store O.Sink store.old store.new out.old out.new result
            (texts self.old) (texts self.new) mode.Text
            (λ collection. Puts O.written out.old out.new result (document collection number))
            (shown_pages mode.Text number None) }
        // Whatever the parts hold, these are the bytes that they tell of it.
        ensures told { PutsDoc (O.written out.old) (O.written out.new) result
            (IsDocOf (texts self.old) (S.files store.old) number) }
        ensures added { AddsOf O.written O.faults O.lacks out.old out.new
            (texts self.old).head.collection 0 };
}

//! The text of a set, opened at the first document that is shown from it.
//!
//! A reader of the text keeps both models whole, and loading them takes longer than a line that
//! names documents is worth. So a session that decodes no text, to show it or to seek a phrase in it,
//! never loads them; one that does loads them once.
ghost use Rattle.std.specs.Prelude.{◌≡◌, None, Some};
ghost use Rattle.mg_defs.specs.Terms.{document};
ghost use Rattle.mg_defs.specs.declared.session.Mode.TheVariants as mode;
ghost use Rattle.mg_reply.specs.Printed.{Puts};
ghost use Rattle.mg_text.specs.Decoding.{AddsOf};
ghost use Rattle.mg_session.specs.Calls.{IsShowable, ShowsText};
ghost use Rattle.mg_session.specs.Decided.{PutsDoc};
ghost use Rattle.mg_session.specs.DocStands.{IsDocOf};
ghost use Rattle.mg_session.specs.Showing.{shown_pages};

use crate::documents::Documents;
use mg_dev::{ShowErr, Sink, Store};
use mg_layout::Head;
use mg_text::TextReader;
use std::alloc::Global;
use std::marker::Model;

/// Shows the documents of a set, and loads what that takes when the first is asked for.
#[derive(Drop)]
pub(crate) struct Texts<'a, S: Store> {
    alloc: Global,
    base: &'a str,
    head: Head,
    reader: Option<TextReader<'a, S>>,
}

impl<'a, S: Store> Model for Texts<'a, S> {
    ghost use Rattle.mg_session.specs.Texts.{Texting};

    ghost Value = { Texting };

    ghost view = { λ t. record { base = t.base.now; head = t.head; reader = t.reader } };
}

// Keeps a value in place of what was there. Who calls it sees nothing of what is dropped.
pub(crate) fn keep<T: Drop>(place: &mut Option<T>, value: T)
    ensures { place.new ≡ Some value }
{
    *place = Some(value);
}

impl<'a, S: Store> Texts<'a, S> {
    /// The text under this base, which the head tells of. Nothing is read yet.
    pub(crate) fn new(alloc: Global, base: &'a str, head: &Head) -> Self
        ensures { result ≡ record { base = base.entry.now; head = head.now; reader = None } }
    {
        Texts {
            alloc,
            base,
            head: *head,
            reader: None,
        }
    }

    // Loads what shows the documents, shows one by it, and keeps it for the next.
    fn load_doc<O: Sink>(&mut self, store: &mut S, number: u32, out: &mut O) -> Result<(), ShowErr>
        requires { IsShowable (S.files store.old) self.old number }
        ensures shown { ShowsText S.Store O.Sink store.old store.new out.old out.new result
            self.old self.new mode.Text
            (λ collection. Puts O.written out.old out.new result (document collection number))
            (shown_pages mode.Text number None) }
        ensures told { PutsDoc (O.written out.old) (O.written out.new) result
            (IsDocOf self.old (S.files store.old) number) }
        ensures added { AddsOf O.written O.faults O.lacks out.old out.new self.old.head.collection 0 }
    {
        let mut reader = match TextReader::load(self.alloc, store, self.base, &self.head) {
            Ok(reader) => reader,
            Err(refusal) => return Err(ShowErr::Part(refusal)),
        };
        let shown = reader.doc_within(store, number, self.head.collection, out);
        keep(&mut self.reader, reader);
        shown
    }
}

impl<'a, S: Store> Documents<S> for Texts<'a, S> {
    ghost texts = { λ t. t };

    fn doc<O: Sink>(&mut self, store: &mut S, number: u32, out: &mut O) -> Result<(), ShowErr> {
        let most = self.head.collection;
        match &mut self.reader {
            Some(reader) => reader.doc_within(store, number, most, out),
            None => self.load_doc(store, number, out),
        }
    }
}

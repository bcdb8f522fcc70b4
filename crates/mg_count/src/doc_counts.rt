//! How many documents have each term.
//!
//! A list is begun with the number of its documents, so they are counted while the occurrences go by:
//! eight bytes a term, and no posting is held outside the pool.
ghost use Rattle.std.specs.Prelude.{◌≡◌, ◌≢◌, ◌≤◌, ◌<◌, ◌+◌, ℕ, List, [], length, IfOk};
ghost use Rattle.mg_defs.specs.DocCounts.{last_with};
ghost use Rattle.mg_count.specs.DocCounting.{AreDocCounts, CountsOneMore};

use mg_laws::documents_are_counted;
use std::alloc::{AllocError, Global};
use std::marker::Model;

/// Of each term, how many documents have it so far, and the last of these.
#[derive(Drop)]
pub struct DocCounts {
    docs: Vec<u32>,
    last: Vec<u32>,
}

impl Model for DocCounts {
    ghost use Rattle.mg_count.specs.DocCounting.{DocCounting};

    ghost Value = { DocCounting };

    ghost view = { λ c. record { docs = c.docs.items; last = c.last.items } };
}

/// How many documents have a term of which one occurrence more is in a document, where `docs` had it, and `last`
/// was the last of them. Nothing branches on it: each branch would wait for the last document to be read.
#[inline]
fn with_document(docs: u32, last: u32, doc: u32) -> u32
    requires few { docs ≤ last }
    requires later { last ≤ doc }
    ensures other { last ≢ doc → result ≡ docs + 1 }
    ensures same { last ≡ doc → result ≡ docs }
{
    if last == doc { docs } else { docs + 1 }
}

impl DocCounts {
    /// No document, for each of so many terms.
    pub(crate) fn new(alloc: Global, terms: u32) -> Result<Self, AllocError>
        ensures counts { IfOk result (λ c. AreDocCounts c terms []) }
    {
        let docs = vec![in alloc; 0; terms as usize]?;
        let last = vec![in alloc; 0; terms as usize]?;
        Ok(DocCounts { docs, last })
    }

    /// One occurrence more of a term, in a document that is not before those of the other ones.
    pub fn count(&mut self, term: u32, doc: u32)
        requires term { term < length self.old.docs }
        requires counts { (fed : List (ℕ × ℕ)) × AreDocCounts self.old (length self.old.docs) fed
            × (last_with term 0 fed ≤ doc) }
        requires some { 1 ≤ doc }
        ensures counts { CountsOneMore self.old self.new term doc }
        ensures size { length self.new.docs ≡ length self.old.docs }
    {
        documents_are_counted();
        let at = term as usize;
        let last = self.last[at];
        let docs = self.docs[at];
        self.last[at] = doc;
        self.docs[at] = with_document(docs, last, doc);
    }

    /// How many documents have each term.
    pub fn docs(&self) -> &[u32]
        ensures { result.now ≡ self.now.docs }
    {
        &self.docs
    }
}

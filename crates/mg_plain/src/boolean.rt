//! Boolean lines.
ghost use Rattle.std.specs.Prelude.{◌≡◌, ◌≤◌, length, vec_len, IfOk};
ghost use Rattle.mg_defs.specs.Limits.{held_bytes, line_bytes};
ghost use Rattle.mg_defs.specs.Sat.{satisfies};
ghost use Rattle.mg_defs.specs.QueryTerms.{query_terms};
ghost use Rattle.mg_defs.specs.ShownAnswers.{satisfying, answer_text};
ghost use Rattle.mg_defs.specs.Replies.{boolean_reply};
ghost use Rattle.mg_defs.specs.Read.{boolean};
ghost use Rattle.mg_query.specs.QueryOf.{query_of};
ghost use Rattle.mg_reply.specs.Pending.{PutsText};
ghost use Rattle.mg_plain.specs.Printing.{WritesReply};

use crate::counts::{count_terms, mark_counted};
use crate::docs::Docs;
use mg_defs::Settings;
use mg_dev::{PutErr, ShowErr, Sink};
use mg_query::{Query, Terms, parse_boolean};
use mg_reply::{Pending, Shown, answer_refused, pass_hit};
use std::alloc::{AllocError, Global};

/// What is counted of a document: how often it has each term of a query, and which it has.
#[derive(Drop)]
struct Counted {
    counts: Vec<u32>,
    there: Vec<bool>,
}

impl Counted {
    /// Room for so many terms.
    fn new(alloc: Global, terms: usize) -> Result<Self, AllocError>
        ensures counts { IfOk result (λ counted. vec_len counted.counts ≡ terms) }
        ensures there { IfOk result (λ counted. vec_len counted.there ≡ terms) }
    {
        let counts = vec![in alloc; 0; terms]?;
        let there = vec![in alloc; false; terms]?;
        Ok(Counted { counts, there })
    }
}

/// Whether a document satisfies a query with these terms. What is counted is left from the last one.
fn is_satisfied(query: &Query, doc: &[u8], terms: &Terms, counted: &mut Counted) -> bool
    requires terms { terms.now ≡ query_terms (query_of query.now) }
    requires counts { vec_len counted.old.counts ≡ length (query_terms (query_of query.now)) }
    requires there { vec_len counted.old.there ≡ length (query_terms (query_of query.now)) }
    requires small { length doc.now ≤ held_bytes }
    ensures value { result ≡ satisfies (query_of query.now) doc.now }
    ensures counts { vec_len counted.new.counts ≡ length (query_terms (query_of query.now)) }
    ensures there { vec_len counted.new.there ≡ length (query_terms (query_of query.now)) }
{
    count_terms(doc, terms.as_slice(), &mut counted.counts);
    mark_counted(&counted.counts, &mut counted.there);
    query.holds(&counted.there)
}

/// Writes the documents that satisfy a query with these terms, rising, and how many they are.
fn put_found<O: Sink>(
    bytes: &[u8],
    query: &Query,
    terms: &Terms,
    counted: &mut Counted,
    now: &Settings,
    out: &mut O,
) -> Result<(), PutErr>
    requires small { length bytes.now ≤ held_bytes }
    requires terms { terms.now ≡ query_terms (query_of query.now) }
    requires counts { vec_len counted.old.counts ≡ length (query_terms (query_of query.now)) }
    requires there { vec_len counted.old.there ≡ length (query_terms (query_of query.now)) }
    ensures puts { PutsText O.Sink out.old out.new result
        (answer_text bytes.now now.now (satisfying bytes.now (query_of query.now))) }
{
    let mut pending = Pending::new();
    let mut docs = Docs::new(bytes);
    let mut number = 0u32;
    let mut total = 0u32;
    'docs: while let Some(doc) = docs.next_doc() {
        number += 1;
        if !is_satisfied(query, doc, terms, counted) {
            continue;
        }
        let shown = Shown {
            number,
            score: None,
        };
        match pass_hit(&mut pending, out, now, total, shown, doc) {
            Ok(()) => {}
            Err(error) => return Err(error),
        }
        total += 1;
    }
    match pending.count(out, total) {
        Ok(()) => pending.flush(out),
        Err(error) => Err(error),
    }
}

/// Writes the reply to a query with these terms. It reserves what is counted of a document.
#[tactic(auto, using(mg_dev::specs::StreamLaws::stream_laws))]
fn answer_terms<O: Sink>(
    alloc: Global,
    bytes: &[u8],
    query: &Query,
    terms: &Terms,
    now: &Settings,
    out: &mut O,
) -> Result<(), ShowErr>
    requires small { length bytes.now ≤ held_bytes }
    requires terms { terms.now ≡ query_terms (query_of query.now) }
    ensures replies { WritesReply
        (answer_text bytes.now now.now (satisfying bytes.now (query_of query.now))) result O.Sink
        out.old out.new }
{
    let mut counted = Counted::new(alloc, terms.len())?;
    match put_found(bytes, query, terms, &mut counted, now, out) {
        Ok(()) => Ok(()),
        Err(error) => Err(ShowErr::from(error)),
    }
}

/// Writes the reply to a query: the documents that satisfy it, rising, and how many they are.
#[tactic(auto, using(mg_dev::specs::StreamLaws::stream_laws))]
fn answer_query<O: Sink>(
    alloc: Global,
    bytes: &[u8],
    query: &Query,
    now: &Settings,
    out: &mut O,
) -> Result<(), ShowErr>
    requires { length bytes.now ≤ held_bytes }
    ensures replies { WritesReply
        (answer_text bytes.now now.now (satisfying bytes.now (query_of query.now))) result O.Sink
        out.old out.new }
{
    let terms = query.terms(alloc)?;
    answer_terms(alloc, bytes, query, &terms, now, out)
}

/// Writes the reply to a Boolean line.
pub(crate) fn answer_boolean<O: Sink>(
    alloc: Global,
    bytes: &[u8],
    line: &[u8],
    now: &Settings,
    out: &mut O,
) -> Result<(), ShowErr>
    requires small { length bytes.now ≤ held_bytes }
    requires short { length line.now ≤ line_bytes }
    ensures replies { WritesReply (boolean_reply bytes.now now.now (boolean line.now)) result
        O.Sink out.old out.new }
{
    match parse_boolean(alloc, line) {
        Ok(query) => answer_query(alloc, bytes, &query, now, out),
        Err(why) => answer_refused(out, why),
    }
}

//! The answer to a pattern: the terms that match it, and the documents that have one of them.
ghost use Rattle.std.specs.Prelude.{◌≡◌, ◌++◌, ℕ, [], ◌∷◌};
ghost use Rattle.mg_dev.specs.Each.{ForEach};
ghost use Rattle.mg_defs.specs.WildSession.{numbers_text, term_row};
ghost use Rattle.mg_bits.specs.Pages.{Fits};
ghost use Rattle.mg_post.specs.ListReading.{ForReader, SameSource, current_doc};
ghost use Rattle.mg_post.specs.PagesOnce.{span_pages};
ghost use Rattle.mg_rank.specs.Ranked.{ForTerm, PostWithin};
ghost use Rattle.mg_reply.specs.Pending.{PassesText};
ghost use Rattle.mg_reply.specs.Printed.{Passes, Puts};
ghost use Rattle.mg_wild.specs.Patterns.{sides_of};
ghost use Rattle.mg_session.specs.Calls.{StepsPut, WritesAlone};
ghost use Rattle.mg_session.specs.DocumentSets.{marked_to};
ghost use Rattle.mg_session.specs.Replying.{AnswersPattern};
ghost use Rattle.mg_session.specs.WildAnswers.{ForLexTerms, ReadsNoOther, StepsPattern, WildSources, pattern_pages};
ghost use Rattle.mg_session.specs.WildMarks.{AreNumbersOf, MarksLists, MarksNumbers, ReadsBase, StepsMarks, rows_at};

use crate::document_set::DocumentSet;
use crate::lists::Lists;
use mg_dev::{PartErr, PutErr, ShowErr, Sink, Store};
use mg_layout::TermInfo;
use mg_post::ListReader;
use mg_reply::Pending;
use mg_wild::{Pattern, Rotated};

/// Marks the documents of the list that a reader stands before.
fn mark_postings<S: Store>(
    reader: &mut ListReader<'_, S>,
    store: &mut S,
    all: u32,
    marked: &mut DocumentSet,
) -> Result<(), PartErr>
    requires all { reader.old.all ≡ all }
    requires first { current_doc reader.old ≡ 0 }
    requires room { marked.old.all ≡ all }
    requires fits { Fits reader.old.post (S.files store.old) }
    ensures fits { Fits reader.new.post (S.files store.new) }
    ensures same { SameSource reader.old reader.new }
    ensures answer { ForReader (S.files store.old) 0 reader.old
        (λ base collection t. MarksLists (t ∷ []) marked.old marked.new result collection) }
    ensures pages { ForReader (S.files store.old) 0 reader.old
        (λ base collection t. PostWithin S.reads store.old store.new (span_pages collection t)) }
    ensures stepped { StepsMarks S.Store store.old store.new result all marked.new }
{
    let mut last = 0;
    while last < all {
        let posting = match reader.next(store) {
            Ok(Some(posting)) => posting,
            Ok(None) => return Ok(()),
            Err(refusal) => return Err(refusal),
        };
        marked.mark(posting.doc);
        last = posting.doc;
    }
    Ok(())
}

/// Marks the documents of a term's list.
fn mark_list<S: Store>(
    lists: &Lists<'_>,
    reader: &mut ListReader<'_, S>,
    store: &mut S,
    info: &TermInfo,
    marked: &mut DocumentSet,
) -> Result<(), PartErr>
    requires over { ReadsBase lists.now.base.now lists.now.all reader.old }
    requires room { marked.old.all ≡ lists.now.all }
    requires fits { Fits reader.old.post (S.files store.old) }
    ensures over { ReadsBase lists.now.base.now lists.now.all reader.new }
    ensures fits { Fits reader.new.post (S.files store.new) }
    ensures answer { ForTerm lists.now.base.now (S.files store.old) info.now lists.now.all
        (λ collection t. MarksLists (t ∷ []) marked.old marked.new result collection) }
    ensures pages { ForTerm lists.now.base.now (S.files store.old) info.now lists.now.all
        (λ collection t. PostWithin S.reads store.old store.new (span_pages collection t)) }
    ensures stepped { StepsMarks S.Store store.old store.new result lists.now.all marked.new }
{
    reader.open(info);
    mark_postings(reader, store, lists.all, marked)
}

/// Marks the documents that have one of the terms with these numbers. One reader goes over all their
/// lists, so that lists on one page are read at once.
fn mark_lists<S: Store>(
    lists: &Lists<'_>,
    reader: &mut ListReader<'_, S>,
    store: &mut S,
    terms: &Rotated,
    numbers: &[u32],
    marked: &mut DocumentSet,
) -> Result<(), PartErr>
    requires over { ReadsBase lists.now.base.now lists.now.all reader.old }
    requires fits { Fits reader.old.post (S.files store.old) }
    requires numbers { AreNumbersOf terms.now numbers.now }
    requires room { marked.old.all ≡ lists.now.all }
    ensures { MarksNumbers S.Store store.old store.new result lists.now.base.now terms.now
        lists.now.all numbers.now marked.old marked.new }
{
    for number in numbers {
        let info = terms.info(*number);
        match mark_list(lists, reader, store, &info, marked) {
            Ok(()) => {}
            Err(refusal) => return Err(refusal),
        }
    }
    Ok(())
}

/// Starts a reader of the lists, and marks the documents that have one of the terms with these numbers.
fn mark_all<S: Store>(
    lists: &Lists<'_>,
    store: &mut S,
    terms: &Rotated,
    numbers: &[u32],
    marked: &mut DocumentSet,
) -> Result<(), PartErr>
    requires numbers { AreNumbersOf terms.now numbers.now }
    requires room { marked.old.all ≡ lists.now.all }
    ensures { MarksNumbers S.Store store.old store.new result lists.now.base.now terms.now
        lists.now.all numbers.now marked.old marked.new }
{
    match ListReader::start(lists.alloc, lists.base, lists.all) {
        Ok(mut reader) => mark_lists(lists, &mut reader, store, terms, numbers, marked),
        Err(_lack) => Err(PartErr::Memory),
    }
}

/// Passes on a term that matches, and how many documents have it.
fn pass_term<O: Sink>(
    pending: &mut Pending,
    out: &mut O,
    term: &[u8],
    docs: u32,
) -> Result<(), PutErr>
    ensures { PassesText O.Sink out.old out.new pending.old pending.new result
        (term_row term.now docs) }
{
    match pending.put(out, b"+ ") {
        Ok(()) => {}
        Err(refusal) => return Err(refusal),
    }
    match pending.put(out, term) {
        Ok(()) => {}
        Err(refusal) => return Err(refusal),
    }
    match pending.put(out, b" ") {
        Ok(()) => pending.row(out, docs, None),
        Err(refusal) => Err(refusal),
    }
}

/// Passes on the terms with these numbers, each with how many documents have it.
fn pass_terms<O: Sink>(
    pending: &mut Pending,
    out: &mut O,
    terms: &Rotated,
    numbers: &[u32],
) -> Result<(), PutErr>
    requires numbers { AreNumbersOf terms.now numbers.now }
    ensures content { ForLexTerms terms.now
        (λ collection. Passes O.written out.old out.new pending.old pending.new result
        (rows_at numbers.now collection)) }
    ensures stepped { StepsPut O.Sink out.old out.new result }
{
    for number in numbers {
        let info = terms.info(*number);
        match pass_term(pending, out, terms.term(*number), info.docs) {
            Ok(()) => {}
            Err(refusal) => return Err(refusal),
        }
    }
    Ok(())
}

/// Passes on the rows of the marked documents, and how many they are.
fn pass_marked<O: Sink>(
    pending: &mut Pending,
    out: &mut O,
    marked: &DocumentSet,
) -> Result<(), PutErr>
    ensures { PassesText O.Sink out.old out.new pending.old pending.new result
        (numbers_text (marked_to marked.now marked.now.all)) }
{
    let mut last = 0;
    let mut total = 0u32;
    'rows: while let Some(number) = marked.next_behind(last) {
        match pending.row(out, number, None) {
            Ok(()) => {}
            Err(refusal) => return Err(refusal),
        }
        total += 1;
        last = number;
    }
    pending.count(out, total)
}

/// Shows the terms with these numbers, each with how many documents have it, and then the marked
/// documents, rising, and how many they are.
fn show_matching<O: Sink>(
    terms: &Rotated,
    numbers: &[u32],
    marked: &DocumentSet,
    out: &mut O,
) -> Result<(), ShowErr>
    requires numbers { AreNumbersOf terms.now numbers.now }
    ensures content { ForLexTerms terms.now
        (λ collection. Puts O.written out.old out.new result
        (rows_at numbers.now collection ++ numbers_text (marked_to marked.now marked.now.all))) }
    ensures alone { WritesAlone O.Sink out.old out.new result }
{
    let mut pending = Pending::new();
    match pass_terms(&mut pending, out, terms, numbers) {
        Ok(()) => {}
        Err(refusal) => return Err(ShowErr::from(refusal)),
    }
    match pass_marked(&mut pending, out, marked) {
        Ok(()) => {}
        Err(refusal) => return Err(ShowErr::from(refusal)),
    }
    match pending.flush(out) {
        Ok(()) => Ok(()),
        Err(refusal) => Err(ShowErr::from(refusal)),
    }
}

/// Shows the terms that match a pattern, each with how many documents have it, and then the documents
/// that have one of them, rising, and how many they are. All lists are read before anything is shown.
///
/// `marked` has room for all documents, and is cleared first.
pub(crate) fn answer_pattern<S: Store, O: Sink>(
    lists: &Lists<'_>,
    store: &mut S,
    terms: &mut Rotated,
    marked: &mut DocumentSet,
    pattern: &Pattern,
    out: &mut O,
) -> Result<(), ShowErr>
    requires room { marked.old.all ≡ lists.now.all }
    ensures same { terms.new ≡ terms.old }
    ensures room { marked.new.all ≡ lists.now.all }
    ensures answer { ForEach
        (WildSources lists.now.base.now (S.files store.old) terms.old lists.now.all)
        (AnswersPattern O.written out.old out.new result (sides_of pattern.now)) }
    ensures pages { ForEach
        (WildSources lists.now.base.now (S.files store.old) terms.old lists.now.all)
        (λ collection. PostWithin S.reads store.old store.new
        (pattern_pages collection (sides_of pattern.now))) }
    ensures stepped { StepsPattern S.Store O.Sink store.old store.new out.old out.new result
        ReadsNoOther }
{
    // For the proof: something is told of each term.
    let _ = terms.len();
    let matching = match terms.matching(lists.alloc, pattern) {
        Ok(matching) => matching,
        Err(_) => return Err(ShowErr::Part(PartErr::Memory)),
    };
    let numbers = matching.as_slice();
    marked.clear();
    match mark_all(lists, store, terms, numbers, marked) {
        Ok(()) => show_matching(terms, numbers, marked, out),
        Err(refusal) => Err(ShowErr::from(refusal)),
    }
}

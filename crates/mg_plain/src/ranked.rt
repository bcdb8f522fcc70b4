//! Ranked lines.
ghost use Rattle.std.specs.Prelude.{◌≡◌, ◌≤◌, length, take, drop};
ghost use Rattle.std.specs.List.{All, prefix_len};
ghost use Rattle.mg_defs.specs.Limits.{held_bytes, line_bytes, ranked_terms};
ghost use Rattle.mg_defs.specs.Weights.{hits_over, limited_to};
ghost use Rattle.mg_defs.specs.Read.{ranked};
ghost use Rattle.mg_defs.specs.ShownAnswers.{ranked_as, answer_text, shown};
ghost use Rattle.mg_defs.specs.Replies.{ranked_reply};
ghost use Rattle.mg_plain.specs.Inside.{is_inside};
ghost use Rattle.mg_reply.specs.Pending.{PassesText, PutsText};
ghost use Rattle.mg_plain.specs.Printing.{WritesReply};
ghost use Rattle.mg_plain.specs.RankedRows.{IsPlaced, shown_of, shown_rows, rows_text};

use crate::docs::doc_len;
use crate::order::{Row, sort_rows};
use crate::rows::rows_of;
use mg_defs::{Mode, Settings};
use mg_dev::{PutErr, ShowErr, Sink};
use mg_query::{Terms, parse_ranked};
use mg_reply::{Pending, Shown, answer_refused, pass_shown};
use std::alloc::Global;

/// The document that begins at a place.
fn document_at(bytes: &[u8], place: u32) -> &[u8]
    requires { place ≤ length bytes.now }
    ensures { result.now ≡ take (prefix_len is_inside (drop place bytes.now))
        (drop place bytes.now) }
{
    let rest = &bytes[place as usize..];
    &rest[..doc_len(rest)]
}

/// Passes on what a reply shows of a row. Only where its text is shown is the document looked for.
fn put_row<O: Sink>(
    pending: &mut Pending,
    out: &mut O,
    bytes: &[u8],
    mode: Mode,
    row: Row,
) -> Result<(), PutErr>
    requires { IsPlaced bytes.now row }
    ensures passes { PassesText O.Sink out.old out.new pending.old pending.new result
        (shown bytes.now mode (shown_of row)) }
{
    let doc = match mode {
        Mode::Text => document_at(bytes, row.place),
        Mode::Docnums => &[],
        Mode::Count => &[],
    };
    let shown = Shown {
        number: row.number,
        score: Some(row.score),
    };
    pass_shown(pending, out, mode, shown, doc)
}

/// Passes on what a reply shows of rows, one after another.
fn put_rows<O: Sink>(
    pending: &mut Pending,
    out: &mut O,
    bytes: &[u8],
    mode: Mode,
    rows: &[Row],
) -> Result<(), PutErr>
    requires { All (IsPlaced bytes.now) rows.now }
    ensures passes { PassesText O.Sink out.old out.new pending.old pending.new result
        (rows_text bytes.now mode rows.now) }
{
    for row in rows {
        match put_row(pending, out, bytes, mode, *row) {
            Ok(()) => {}
            Err(error) => return Err(error),
        }
    }
    Ok(())
}

/// The rows that are shown.
fn first_rows(rows: &[Row], most: Option<u32>) -> &[Row]
    ensures { result.now ≡ limited_to most rows.now }
{
    match most {
        None => rows,
        Some(most) => &rows[..rows.len().min(most as usize)],
    }
}

/// Writes the reply of rows in their order: the first of them, and how many there are.
fn put_answer<O: Sink>(
    bytes: &[u8],
    rows: &[Row],
    now: &Settings,
    out: &mut O,
) -> Result<(), PutErr>
    requires few { length rows.now ≤ held_bytes }
    requires placed { All (IsPlaced bytes.now) rows.now }
    ensures puts { PutsText O.Sink out.old out.new result
        (answer_text bytes.now now.now (shown_rows rows.now)) }
{
    let mut pending = Pending::new();
    let shown = first_rows(rows, now.most);
    match put_rows(&mut pending, out, bytes, now.mode, shown) {
        Ok(()) => {}
        Err(error) => return Err(error),
    }
    match pending.count(out, rows.len() as u32) {
        Ok(()) => pending.flush(out),
        Err(error) => Err(error),
    }
}

/// Writes the reply to terms: the documents with any of them, the highest score first.
#[tactic(auto, using(mg_dev::specs::StreamLaws::stream_laws))]
fn answer_terms<O: Sink>(
    alloc: Global,
    bytes: &[u8],
    terms: &Terms,
    now: &Settings,
    out: &mut O,
) -> Result<(), ShowErr>
    requires small { length bytes.now ≤ held_bytes }
    requires few { length terms.now ≤ ranked_terms }
    ensures replies { WritesReply
        (answer_text bytes.now now.now (ranked_as (hits_over bytes.now terms.now))) result O.Sink
        out.old out.new }
{
    let mut rows = rows_of(alloc, bytes, terms)?;
    sort_rows(&mut rows);
    match put_answer(bytes, &rows, now, out) {
        Ok(()) => Ok(()),
        Err(error) => Err(ShowErr::from(error)),
    }
}

/// Writes the reply to a ranked line.
pub(crate) fn answer_ranked<O: Sink>(
    alloc: Global,
    bytes: &[u8],
    line: &[u8],
    now: &Settings,
    out: &mut O,
) -> Result<(), ShowErr>
    requires small { length bytes.now ≤ held_bytes }
    requires short { length line.now ≤ line_bytes }
    ensures replies { WritesReply (ranked_reply bytes.now now.now (ranked line.now)) result O.Sink
        out.old out.new }
{
    match parse_ranked(alloc, line) {
        Ok(terms) => answer_terms(alloc, bytes, &terms, now, out),
        Err(why) => answer_refused(out, why),
    }
}

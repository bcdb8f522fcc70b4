//! The lines that a tool prints of its own.
//!
//! A line goes out piece by piece, so that none takes memory: what was made is told also where a
//! budget left none.
ghost use Rattle.std.specs.Prelude.{[], codes};
ghost use Rattle.std.specs.List.{flat_map};
ghost use Rattle.mg_defs.specs.Summaries.{number_line};
ghost use Rattle.mg_plain.specs.Printing.{PutsText};
ghost use Rattle.mg_top.specs.Lines.{line_text, bytes_line, compared_line, summary_lines, pool_line, stands_line, trial_summary_lines};

use crate::trial_summary::TrialSummary;
use mg_dev::{Piece, PutErr, Sink, put_pieces};
use mg_make::Summary;

/// A line with its line feed.
#[derive(Clone, Copy)]
pub(crate) enum Line<'a> {
    /// A name and a number.
    Number { name: &'a str, number: u64 },
    /// A name and a number of bytes.
    Bytes { name: &'a str, number: u64 },
    /// What was compared, and whether it was the same.
    Compared { name: &'a str, same: bool },
    /// The most bytes of a pool at one time, and its size.
    Pool { peak: u64, budget: u64 },
}

#[tactic(auto, unfolding(crate::specs::Lines::pool_line))]
fn put_pool<O: Sink>(out: &mut O, peak: u64, budget: u64) -> Result<(), PutErr>
    ensures { PutsText (pool_line peak budget) result O.Sink out.old out.new }
{
    let pieces = [
        Piece::Text("pool "),
        Piece::Number(peak),
        Piece::Text(" of "),
        Piece::Number(budget),
        Piece::Text("\n"),
    ];
    put_pieces(out, &pieces)
}

fn put_number<O: Sink>(out: &mut O, name: &str, number: u64) -> Result<(), PutErr>
    ensures { PutsText (number_line name.now number) result O.Sink out.old out.new }
{
    let pieces = [
        Piece::Text(name),
        Piece::Text(" "),
        Piece::Number(number),
        Piece::Text("\n"),
    ];
    put_pieces(out, &pieces)
}

#[tactic(auto, unfolding(crate::specs::Lines::bytes_line))]
fn put_bytes<O: Sink>(out: &mut O, name: &str, number: u64) -> Result<(), PutErr>
    ensures { PutsText (bytes_line name.now number) result O.Sink out.old out.new }
{
    let pieces = [
        Piece::Text(name),
        Piece::Text(" "),
        Piece::Number(number),
        Piece::Text(" bytes\n"),
    ];
    put_pieces(out, &pieces)
}

#[tactic(auto, unfolding(crate::specs::Lines::compared_line))]
fn put_compared<O: Sink>(out: &mut O, name: &str, same: bool) -> Result<(), PutErr>
    ensures { PutsText (compared_line name.now same) result O.Sink out.old out.new }
{
    let how = if same { "same" } else { "different" };
    let pieces = [
        Piece::Text(name),
        Piece::Text(" "),
        Piece::Text(how),
        Piece::Text("\n"),
    ];
    put_pieces(out, &pieces)
}

fn put_line<O: Sink>(out: &mut O, line: Line<'_>) -> Result<(), PutErr>
    ensures { PutsText (line_text line.entry) result O.Sink out.old out.new }
{
    match line {
        Line::Number { name, number } => put_number(out, name, number),
        Line::Bytes { name, number } => put_bytes(out, name, number),
        Line::Compared { name, same } => put_compared(out, name, same),
        Line::Pool { peak, budget } => put_pool(out, peak, budget),
    }
}

#[tactic(auto, using(mg_dev::specs::StreamLaws::stream_laws))]
fn put_lines<O: Sink>(out: &mut O, lines: &[Line<'_>]) -> Result<(), PutErr>
    ensures { PutsText (flat_map line_text lines.now) result O.Sink out.old out.new }
{
    match lines {
        [] => Ok(()),
        [first, rest @ ..] => {
            put_line(out, *first)?;
            put_lines(out, rest)
        }
    }
}

/// Writes that a set stands: how many documents and bytes its collection has.
#[tactic(auto, unfolding(crate::specs::Lines::stands_line))]
pub(crate) fn put_standing<O: Sink>(out: &mut O, documents: u32, bytes: u64) -> Result<(), PutErr>
    ensures { PutsText (stands_line documents bytes) result O.Sink out.old out.new }
{
    let pieces = [
        Piece::Text("stands "),
        Piece::Number(u64::from(documents)),
        Piece::Text(" documents "),
        Piece::Number(bytes),
        Piece::Text(" bytes\n"),
    ];
    put_pieces(out, &pieces)
}

/// Writes how many documents a set has.
pub(crate) fn put_documents<O: Sink>(out: &mut O, documents: u32) -> Result<(), PutErr>
    ensures { PutsText (number_line (codes "documents") documents) result O.Sink out.old out.new }
{
    put_number(out, "documents", u64::from(documents))
}

/// Writes the seven lines of a build's summary.
#[tactic(auto, unfolding(crate::specs::Lines::summary_lines))]
pub(crate) fn put_summary<O: Sink>(out: &mut O, summary: &Summary) -> Result<(), PutErr>
    ensures { PutsText (summary_lines summary.now) result O.Sink out.old out.new }
{
    let lines = [
        Line::Number {
            name: "documents",
            number: u64::from(summary.documents),
        },
        Line::Number {
            name: "words",
            number: u64::from(summary.words),
        },
        Line::Number {
            name: "others",
            number: u64::from(summary.others),
        },
        Line::Number {
            name: "terms",
            number: u64::from(summary.terms),
        },
        Line::Number {
            name: "occurrences",
            number: summary.occurrences,
        },
        Line::Number {
            name: "runs",
            number: u64::from(summary.runs),
        },
        Line::Pool {
            peak: summary.peak,
            budget: summary.budget,
        },
    ];
    put_lines(out, &lines)
}

/// Writes the seven lines of a trial's summary.
#[tactic(auto, unfolding(crate::specs::Lines::trial_summary_lines))]
pub(crate) fn put_trial_summary<O: Sink>(out: &mut O, summary: &TrialSummary) -> Result<(), PutErr>
    ensures { PutsText (trial_summary_lines summary.now) result O.Sink out.old out.new }
{
    let lines = [
        Line::Number {
            name: "documents",
            number: u64::from(summary.documents),
        },
        Line::Bytes {
            name: "collection",
            number: summary.bytes,
        },
        Line::Number {
            name: "terms",
            number: u64::from(summary.terms),
        },
        Line::Number {
            name: "occurrences",
            number: summary.occurrences,
        },
        Line::Bytes {
            name: "replies",
            number: summary.replies,
        },
        Line::Compared {
            name: "decode",
            same: summary.is_decoded,
        },
        Line::Compared {
            name: "queries 40",
            same: summary.is_answered,
        },
    ];
    put_lines(out, &lines)
}

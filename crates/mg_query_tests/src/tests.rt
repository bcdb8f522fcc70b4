//! Worked lines.
ghost use Rattle.std.specs.Prelude.{◌≤◌, length};

use mg_query::{LINE_LIMIT, Query, QueryErr, Terms, parse_boolean, parse_phrase, parse_ranked};
use std::alloc::{AllocError, Global};
use std::test::Fail;

/// What is shown of a line.
#[derive(Clone, Copy)]
enum Kind {
    /// The query of a boolean line.
    Boolean,
    /// The terms of a ranked line.
    Ranked,
    /// The words of a phrase, a colon, and the query that joins them.
    Phrase,
}

/// Appends each byte as the character of its number.
fn push_bytes(text: &mut String, bytes: &[u8]) -> Result<(), AllocError> {
    for byte in bytes {
        text.push(*byte as char)?;
    }
    Ok(())
}

/// Appends a query with its signs before what they join: `(| (& cat dog) sat)`.
fn show(text: &mut String, query: &Query) -> Result<(), AllocError> {
    match query {
        Query::Term(term) => return push_bytes(text, term.as_bytes()),
        Query::Not(inner) => {
            text.push_str("(! ")?;
            show(text, inner)?;
        }
        Query::And(left, right) | Query::Or(left, right) => {
            let is_and = matches!(query, Query::And(..));
            text.push_str(if is_and { "(& " } else { "(| " })?;
            show(text, left)?;
            text.push(' ')?;
            show(text, right)?;
        }
    }
    text.push(')')
}

/// Appends the terms of a list, with a blank after each.
fn list(text: &mut String, terms: &Terms) -> Result<(), AllocError> {
    for term in terms.as_slice() {
        push_bytes(text, term.as_bytes())?;
        text.push(' ')?;
    }
    Ok(())
}

/// Appends the words of a phrase, a colon, and the query that joins them.
fn show_phrase(alloc: Global, text: &mut String, phrase: &Terms) -> Result<(), AllocError> {
    list(text, phrase)?;
    text.push_str(": ")?;
    match Query::all_of(alloc, phrase)? {
        Some(query) => show(text, &query),
        None => text.push_str("none"),
    }
}

/// Appends the query of a boolean line.
fn show_boolean(alloc: Global, text: &mut String, line: &[u8]) -> Result<(), QueryErr>
    requires { length line.now ≤ 1024 }
{
    let query = parse_boolean(alloc, line)?;
    Ok(show(text, &query)?)
}

/// Appends the terms of a ranked line.
fn list_ranked(alloc: Global, text: &mut String, line: &[u8]) -> Result<(), QueryErr>
    requires { length line.now ≤ 1024 }
{
    let terms = parse_ranked(alloc, line)?;
    Ok(list(text, &terms)?)
}

/// Appends what is read of a phrase.
fn show_words(alloc: Global, text: &mut String, line: &[u8]) -> Result<(), QueryErr>
    requires { length line.now ≤ 1024 }
{
    let phrase = parse_phrase(alloc, line)?;
    Ok(show_phrase(alloc, text, &phrase)?)
}

/// Appends what is read of a line.
fn show_line(alloc: Global, text: &mut String, kind: Kind, line: &[u8]) -> Result<(), QueryErr> {
    if line.len() > LINE_LIMIT {
        return Err(QueryErr::Memory);
    }
    match kind {
        Kind::Boolean => show_boolean(alloc, text, line),
        Kind::Ranked => list_ranked(alloc, text, line),
        Kind::Phrase => show_words(alloc, text, line),
    }
}

/// What is read of a line, or why nothing is, in words.
fn shown(alloc: Global, kind: Kind, line: &[u8]) -> Result<String, AllocError> {
    let mut text = String::new(alloc);
    match show_line(alloc, &mut text, kind, line) {
        Ok(()) => Ok(text),
        Err(QueryErr::Memory) => Err(AllocError),
        Err(error) => format!(in alloc; "{error}"),
    }
}

/// How a line is read, a piece of it, how often that comes, what follows, and what is shown of it.
type Row = (Kind, &'static str, usize, &'static str, &'static str);

static ROWS: [Row; 31] = [
    (Kind::Boolean, "", 0, "cat & (dog", "syntax at 10"),
    (Kind::Boolean, "", 0, "cat ) dog", "syntax at 4"),
    (Kind::Boolean, "", 0, "cat & | dog", "syntax at 6"),
    (Kind::Boolean, "", 0, ", ,", "syntax at 3"),
    (Kind::Boolean, "", 0, "()", "syntax at 1"),
    (Kind::Boolean, "", 0, "", "syntax at 0"),
    (Kind::Boolean, "", 0, "cat dog | sat", "(| (& cat dog) sat)"),
    (
        Kind::Boolean,
        "",
        0,
        "Sat | cat dog & THE",
        "(| sat (& (& cat dog) the))",
    ),
    (Kind::Boolean, "", 0, "a | b | c", "(| (| a b) c)"),
    (Kind::Boolean, "", 0, "!!x", "(! (! x))"),
    (Kind::Boolean, "", 0, "!(a|b)c", "(& (! (| a b)) c)"),
    (Kind::Boolean, "", 0, "a!b", "(& a (! b))"),
    (Kind::Boolean, "", 0, "((cat))", "cat"),
    (Kind::Boolean, "", 0, "cat &", "syntax at 5"),
    (Kind::Boolean, "(", 33, "cat", "too deep at 32"),
    (Kind::Boolean, "(", 32, "cat", "syntax at 35"),
    (Kind::Boolean, "a", 256, "", "word too long at 0"),
    (Kind::Boolean, "!", 1024, "", "syntax at 1024"),
    (Kind::Ranked, "", 0, ", ,", ""),
    (Kind::Ranked, "", 0, "cat CAT cat", "cat "),
    (Kind::Ranked, "", 0, "the) Cat & (dog the", "the cat dog "),
    (Kind::Ranked, "a", 256, "", "word too long at 0"),
    // 65 words, and 64 of them.
    (
        Kind::Ranked,
        "",
        0,
        "aa ab ac ad ae af ag ah ai aj ak al am \
         ba bb bc bd be bf bg bh bi bj bk bl bm \
         ca cb cc cd ce cf cg ch ci cj ck cl cm \
         da db dc dd de df dg dh di dj dk dl dm \
         ea eb ec ed ee ef eg eh ei ej ek el em",
        "too many words at 192",
    ),
    (
        Kind::Ranked,
        "",
        0,
        "aa ab ac ad ae af ag ah ai aj ak al am \
         ba bb bc bd be bf bg bh bi bj bk bl bm \
         ca cb cc cd ce cf cg ch ci cj ck cl cm \
         da db dc dd de df dg dh di dj dk dl dm \
         ea eb ec ed ee ef eg eh ei ej ek el",
        "aa ab ac ad ae af ag ah ai aj ak al am \
         ba bb bc bd be bf bg bh bi bj bk bl bm \
         ca cb cc cd ce cf cg ch ci cj ck cl cm \
         da db dc dd de df dg dh di dj dk dl dm \
         ea eb ec ed ee ef eg eh ei ej ek el ",
    ),
    (Kind::Phrase, "", 0, ", ,", ": none"),
    (Kind::Phrase, "", 0, "the cat", "the cat : (& the cat)"),
    (Kind::Phrase, "", 0, "Cat, CAT", "cat cat : (& cat cat)"),
    (Kind::Phrase, "", 0, "(((a) !b | c", "a b c : (& a (& b c))"),
    (Kind::Phrase, "a", 256, "", "word too long at 0"),
    (Kind::Phrase, "a ", 64, "a", "too many words at 128"),
    (
        Kind::Phrase,
        "a ",
        64,
        "aaaaaaaaaaaaaaaaaaaaaaaaaaaaaaaaaaaaaaaaaaaaaaaaaaaaaaaaaaaaaaaaaaaaaaaaaaaaaaaaaaaaaa\
         aaaaaaaaaaaaaaaaaaaaaaaaaaaaaaaaaaaaaaaaaaaaaaaaaaaaaaaaaaaaaaaaaaaaaaaaaaaaaaaaaaaaaa\
         aaaaaaaaaaaaaaaaaaaaaaaaaaaaaaaaaaaaaaaaaaaaaaaaaaaaaaaaaaaaaaaaaaaaaaaaaaaaaaaaaaaaa",
        "word too long at 128",
    ),
];

/// So many times this piece, and then another.
fn line_of(alloc: Global, piece: &str, count: usize, then: &str) -> Result<String, AllocError> {
    let mut line = String::new(alloc);
    for _time in 0..count {
        line.push_str(piece)?;
    }
    line.push_str(then)?;
    Ok(line)
}

/// Whether a row's line is shown as the row says.
fn is_shown(alloc: Global, row: &Row) -> Result<bool, AllocError> {
    let line = line_of(alloc, row.1, row.2, row.3)?;
    let text = shown(alloc, row.0, line.as_bytes())?;
    Ok(text.as_str() == row.4)
}

/// The number of the first row that is shown otherwise, if there is one.
fn other(alloc: Global, rows: &[Row]) -> Result<Option<usize>, AllocError> {
    for number in 0..rows.len() {
        if !is_shown(alloc, &rows[number])? {
            return Ok(Some(number));
        }
    }
    Ok(None)
}

#[test]
fn worked_lines(rt: HostRuntime) -> Result<(), Fail> {
    assert!(rt; other(rt.alloc(), &ROWS)?.is_none());
    Ok(())
}

/// How many bytes are shown of a boolean line.
fn shown_bytes(alloc: Global, piece: &str, count: usize, then: &str) -> Result<usize, AllocError> {
    let line = line_of(alloc, piece, count, then)?;
    Ok(shown(alloc, Kind::Boolean, line.as_bytes())?.len())
}

#[test]
fn the_longest_word_and_line(rt: HostRuntime) -> Result<(), Fail> {
    assert!(rt; shown_bytes(rt.alloc(), "a", 255, "")? == 255);
    assert!(rt; shown_bytes(rt.alloc(), "!", 1023, "x")? == 1023 * 4 + 1);
    Ok(())
}

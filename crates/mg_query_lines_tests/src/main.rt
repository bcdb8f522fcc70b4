//! Prints how each line of its input is read: as a Boolean query, then as a ranked line.
//!
//! `tests/query_lines.py` writes the input and what must be printed.
#![tactic(auto)]

ghost use Rattle.std.specs.Prelude.{◌≤◌, length};

use mg_query::{LINE_LIMIT, Query, QueryErr, Terms, parse_boolean, parse_ranked};
use std::alloc::{AllocError, Global};
use std::io::{self, BufRead, BufReader, BufWriter, Write};

fn main(rt: HostRuntime) -> io::Result<()> {
    let alloc = rt.alloc();
    let input = BufReader::new(alloc, rt.reader())?;
    let mut out = BufWriter::new(alloc, io::writer(&rt))?;
    for line in input.lines(alloc) {
        let line = line?;
        print_reading(alloc, line.as_bytes(), &mut out)?;
    }
    out.flush()
}

fn print_reading<W: Write>(alloc: Global, line: &[u8], out: &mut W) -> io::Result<()> {
    let shown = reading(alloc, line)?;
    out.write_all(shown.as_slice())
}

/// What is printed of a line.
fn reading(alloc: Global, line: &[u8]) -> Result<Vec<u8>, AllocError> {
    let mut out = Vec::new(alloc);
    if line.len() > LINE_LIMIT {
        out.extend_from_slice(b"? line too long\n")?;
        return Ok(out);
    }
    add_boolean(alloc, line, &mut out)?;
    out.push(b'\t')?;
    add_ranked(alloc, line, &mut out)?;
    out.push(b'\n')?;
    Ok(out)
}

fn add_boolean(alloc: Global, line: &[u8], out: &mut Vec<u8>) -> Result<(), AllocError>
    requires { length line.now ≤ 1024 }
{
    match parse_boolean(alloc, line) {
        Ok(query) => show(&query, out),
        Err(error) => show_refusal(alloc, &error, out),
    }
}

fn add_ranked(alloc: Global, line: &[u8], out: &mut Vec<u8>) -> Result<(), AllocError>
    requires { length line.now ≤ 1024 }
{
    match parse_ranked(alloc, line) {
        Ok(terms) => show_terms(&terms, out),
        Err(error) => show_refusal(alloc, &error, out),
    }
}

/// Terms with a blank between each two.
fn show_terms(terms: &Terms, out: &mut Vec<u8>) -> Result<(), AllocError> {
    let mut is_first = true;
    for term in terms.as_slice() {
        if !is_first {
            out.push(b' ')?;
        }
        is_first = false;
        out.extend_from_slice(term.as_bytes())?;
    }
    Ok(())
}

fn show_refusal(alloc: Global, error: &QueryErr, out: &mut Vec<u8>) -> Result<(), AllocError> {
    let text = format!(in alloc; "? {error}")?;
    out.extend_from_slice(text.as_bytes())
}

/// A query with its signs before what they join.
fn show(query: &Query, out: &mut Vec<u8>) -> Result<(), AllocError> {
    match query {
        Query::Term(term) => out.extend_from_slice(term.as_bytes()),
        Query::And(left, right) | Query::Or(left, right) => {
            out.extend_from_slice(sign_of(query))?;
            show(left, out)?;
            out.push(b' ')?;
            show(right, out)?;
            out.push(b')')?;
            Ok(())
        }
        Query::Not(inner) => {
            out.extend_from_slice(sign_of(query))?;
            show(inner, out)?;
            out.push(b')')?;
            Ok(())
        }
    }
}

fn sign_of(query: &Query) -> &'static [u8] {
    match query {
        Query::Term(_) => b"",
        Query::And(_, _) => b"(& ",
        Query::Or(_, _) => b"(| ",
        Query::Not(_) => b"(! ",
    }
}

//! What no clause says: that calls succeed, on the documents "the cat sat", "the dog" and
//! "Cat, cat & dog!", and which part is told as damaged.
use mg_dev::{FileRef, Part, PartErr, PutErr, Store};
use mg_layout::Head;
use mg_mem::SureStore;
use mg_query::LINE_LIMIT;
use mg_wild::{RotErr, Rotated, TermsToLoad, read_pattern};
use std::alloc::Global;
use std::test::Fail;

static LEX: &[u8] = b"\x03cat\0\0\0\x02\0\0\0\0\0\0\0\0\0\0\0\0\
    \0\x03dog\0\0\0\x02\0\0\0\0\0\0\0\x01\0\0\0\x01\
    \0\x03sat\0\0\0\x01\0\0\0\0\0\0\0\x02\0\0\0\x02\
    \0\x03the\0\0\0\x02\0\0\0\0\0\0\0\x03\0\0\0\x03";

// Lines, and the numbers of the terms that match their patterns.
static FOUND: [(&[u8], &[u32]); 10] = [
    (b"*at", &[0, 2]),
    (b"d*g", &[1]),
    (b"C*", &[0]),
    (b"*", &[0, 1, 2, 3]),
    (b"c*cat", &[]),
    (b"zz*", &[]),
    (b"*t", &[0, 2]),
    (b"the*", &[3]),
    (b"t*he", &[3]),
    (b"th*he", &[]),
];

fn head_of(terms: u32) -> Head {
    Head {
        version: 1,
        documents: 3,
        words: 5,
        others: 5,
        terms,
        cap: 1_398_101,
        open_end: false,
        collection: 39,
        occurrences: 8,
        runs: 1,
        text_bytes: 9,
        post_bytes: 4,
        skip_count: 4,
    }
}

// Whether the terms with these numbers match a line's pattern, and no others.
fn finds(alloc: Global, lexicon: &mut Rotated, line: &[u8], numbers: &[u32]) -> bool {
    if line.len() > LINE_LIMIT {
        return false;
    }
    let Ok(pattern) = read_pattern(alloc, line) else {
        return false;
    };
    match lexicon.matching(alloc, &pattern) {
        Ok(found) => found.as_slice() == numbers,
        Err(_) => false,
    }
}

// Whether they are found for each line.
fn finds_all(alloc: Global, lexicon: &mut Rotated, rows: &[(&[u8], &[u32])]) -> bool {
    for (line, numbers) in rows {
        if !finds(alloc, lexicon, line, numbers) {
            return false;
        }
    }
    true
}

// The terms of the lexicon of a store, so many.
fn load<S: Store>(alloc: Global, store: &mut S, terms: u32) -> Result<Rotated, RotErr> {
    let expected = TermsToLoad::of(alloc, store, "set", &head_of(terms))?;
    match expected.load(alloc, store) {
        Ok(lexicon) => Ok(lexicon),
        Err(refusal) => Err(RotErr::Part(refusal)),
    }
}

// The same by the lexicon of a store, of so many terms, each line asked so often in turn.
fn loads<S: Store>(
    alloc: Global,
    store: &mut S,
    terms: u32,
    rows: &[(&[u8], &[u32])],
    turns: u32,
) -> Result<bool, RotErr> {
    let mut lexicon = load(alloc, store, terms)?;
    let mut found = true;
    for _ in 0..turns {
        found = finds_all(alloc, &mut lexicon, rows) && found;
    }
    Ok(found)
}

// The same of the three documents' lexicon.
fn loads_three(
    alloc: Global,
    terms: u32,
    rows: &[(&[u8], &[u32])],
    turns: u32,
) -> Result<Result<bool, RotErr>, PutErr> {
    let mut store = SureStore::new(alloc);
    let file = FileRef {
        base: "set",
        part: Part::Lex,
    };
    store.append(&file, LEX)?;
    Ok(loads(alloc, &mut store, terms, rows, turns))
}

#[test]
fn terms_that_match_are_found(rt: HostRuntime) -> Result<(), Fail> {
    assert!(rt; loads_three(rt.alloc(), 4, &FOUND, 1)? == Ok(true));
    Ok(())
}

// The four terms have sixteen rotations. These are sorted in the midst of so many patterns, so that some
// are answered before and most behind.
#[test]
fn many_patterns_of_a_session_find_what_each_finds_alone(rt: HostRuntime) -> Result<(), Fail> {
    assert!(rt; loads_three(rt.alloc(), 4, &FOUND, 200)? == Ok(true));
    Ok(())
}

#[test]
fn entries_of_another_number_of_terms_are_damage(rt: HostRuntime) -> Result<(), Fail> {
    let told = loads_three(rt.alloc(), 3, &[], 0)?;
    assert!(rt; matches!(told, Err(RotErr::Part(PartErr::Bad(bad))) if bad.part == Part::Lex));
    Ok(())
}

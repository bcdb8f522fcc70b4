//! What no clause says: what a store that lies is told. Sets of both versions that are made anew stand in the black-box suite.
use crate::other_store::OtherStore;
use mg_dev::{Bad, Fault, Part};
use mg_mem::SureStore;
use mg_migrate::migrate;
use std::alloc::{AllocError, Global};
use std::test::Fail;

// The set of the eight bytes `a a a a ` in version 1, a part each, without its head and its places.
static COPIED: [(&str, &[u8]); 9] = [
    ("old.words", b"\x01a\x01"),
    ("old.nonwords", b"\x01 \x01"),
    ("old.text", b"\xc8\0"),
    ("old.lex", b"\x01a\0\0\0\x01\0\0\0\0\0\0\0\0\0\0\0\0"),
    ("old.lexat", b"\0\0\0\0"),
    ("old.post", b"`"),
    ("old.skip", b"\0\0\0\0\0\0\0\x01\0\0\0\0\0\0\0\0"),
    ("old.weights", b"\0\0\x03\0"),
    ("old.run", b"\x18"),
];

const HEAD: &[u8] =
    b"MGROWv1\n\0\0\0\x01\0\0\0\x01\0\0\0\x01\0\0\0\x01\0\x15UU\0\0\0\x01\0\0\0\x08\0\0\0\x04\0\0\0\x01\0\0\0\x02\0\0\0\0\0\0\0\x01\0\0\0\0\0\0\0\x01";

const PLACES: &[u8] = b"\0\0\0\0\0\0\0\x02";

// Head and places in version 2.
const WIDE_HEAD: &[u8] =
    b"MGROWv2\n\0\0\0\x01\0\0\0\x01\0\0\0\x01\0\0\0\x01\0\x15UU\0\0\0\x01\0\0\0\0\0\0\0\x08\0\0\0\0\0\0\0\x04\0\0\0\x01\0\0\0\0\0\0\0\0\0\0\0\x02\0\0\0\0\0\0\0\x01\0\0\0\0\0\0\0\x01";

const WIDE_PLACES: &[u8] = b"\0\0\0\0\0\0\0\0\0\0\0\0\0\0\0\x02";

// A store with the set under `old` that gives, of the file of one part, the bytes of another file.
fn giving_less(
    alloc: Global,
    head: &[u8],
    places: &[u8],
    part: Part,
    other: &str,
    given: &[u8],
) -> Result<OtherStore, AllocError> {
    let mut held = SureStore::new(alloc);
    for (name, bytes) in &COPIED {
        held.put_file(name, bytes)?;
    }
    for (name, bytes) in [("old.head", head), ("old.places", places), (other, given)] {
        held.put_file(name, bytes)?;
    }
    let mut store = OtherStore::new(held);
    store.changes = part;
    store.from = 0;
    Ok(store)
}

// Whether a damage is told, with the new head emptied.
fn is_told(alloc: Global, store: &mut OtherStore, bad: Bad) -> bool {
    let told = migrate(alloc, store, "old", "new");
    told == Err(Fault::Damaged(bad)) && store.held.file("new.head") == Some(b"".as_slice())
}

// A part, the file that it gives in place of its own, the bytes of that file, and the size that is told.
type Short = (Part, &'static str, &'static [u8], u64);

static SHORT: [Short; 10] = [
    (Part::Words, "other.words", b"\x01a", 3),
    (Part::Nonwords, "other.nonwords", b"\x01 ", 3),
    (Part::Text, "other.text", b"\xc8", 2),
    (
        Part::Places,
        "other.places",
        b"\0\0\0\0\0\0\0\0\0\0\0\0\0\0\0",
        16,
    ),
    (
        Part::Lex,
        "other.lex",
        b"\x01a\0\0\0\x01\0\0\0\0\0\0\0\0\0\0\0",
        18,
    ),
    (Part::LexAt, "other.lexat", b"\0", 4),
    (Part::Post, "other.post", b"", 1),
    (Part::Skip, "other.skip", b"\0\0\0\0\0\0\0\x01", 16),
    (Part::Weights, "other.weights", b"\0\0\x03", 4),
    (Part::Run, "other.run", b"", 1),
];

// Whether a part that gives fewer bytes than its size is told.
fn is_told_short(alloc: Global, row: &Short) -> Result<bool, AllocError> {
    let (part, other, given, size) = *row;
    let mut store = giving_less(alloc, WIDE_HEAD, WIDE_PLACES, part, other, given)?;
    let found = given.len() as u64;
    if found >= size {
        return Ok(false);
    }
    let bad = Bad {
        part,
        at: 0,
        low: size,
        high: size,
        found,
    };
    Ok(is_told(alloc, &mut store, bad))
}

// Whether places of four bytes, which are read a number at a time, are told where the second one is not there.
fn is_second_place_told(alloc: Global) -> Result<bool, AllocError> {
    let part = Part::Places;
    let mut store = giving_less(alloc, HEAD, PLACES, part, "other.places", b"\0\0\0\0")?;
    let bad = Bad {
        part,
        at: 4,
        low: 1,
        high: 1,
        found: 0,
    };
    Ok(is_told(alloc, &mut store, bad))
}

// Whether each of these is told.
fn are_told_short(alloc: Global, rows: &[Short]) -> Result<bool, AllocError> {
    for row in rows {
        if !is_told_short(alloc, row)? {
            return Ok(false);
        }
    }
    Ok(true)
}

#[test]
fn a_part_that_gives_fewer_bytes_than_its_size_is_told(rt: HostRuntime) -> Result<(), Fail> {
    let are_told = are_told_short(rt.alloc(), &SHORT)?;
    assert!(rt; are_told && is_second_place_told(rt.alloc())?);
    Ok(())
}

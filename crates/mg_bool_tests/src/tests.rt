//! What no clause says: answers over real parts, that calls succeed, how much is read, and that each failing call is told.
ghost use Rattle.std.specs.Prelude.{◌≡◌, IfOk, codes, length};
ghost use Rattle.std.specs.Bool.{OnTrue};
ghost use Rattle.mg_defs.specs.QueryTerms.{query_terms};
ghost use Rattle.mg_query.specs.QueryOf.{query_of};
ghost use Rattle.mg_bool.specs.Matches.{MatchesFit};

use mg_bool::Matches;
use mg_dev::{Part, PartErr, Store};
use mg_layout::TermInfo;
use mg_mem::MemStore;
use mg_query::{Query, parse_boolean};
use std::alloc::{AllocError, Global};
use std::test::Fail;

// Post and Skip of 300 documents with words from `a` to `e`: `d` stands in document 290 alone,
// and `e` in each document from 201 on.
#[rattlefmt::skip]
static POST: [u8; 191] = [
    0x44, 0x3c, 0x54, 0xcd, 0x35, 0x11, 0x50, 0xe9, 0x3d, 0x14, 0x48, 0x0b, 0x58, 0x2a, 0x22, 0xfe,
    0xb1, 0x41, 0x04, 0x81, 0xaa, 0x01, 0x20, 0x28, 0xa2, 0xa9, 0x15, 0x15, 0x52, 0x25, 0x3a, 0xaa,
    0xf5, 0x5a, 0x05, 0x6b, 0xc5, 0xf5, 0x54, 0xac, 0xa7, 0xe9, 0x41, 0x57, 0x22, 0x21, 0x33, 0xd5,
    0x3a, 0x8a, 0x94, 0x5e, 0xb1, 0x3e, 0x15, 0xd1, 0x34, 0x41, 0x16, 0xb0, 0xa2, 0x80, 0x45, 0xe8,
    0x0a, 0xb1, 0x15, 0x20, 0xba, 0x15, 0xaa, 0x26, 0x82, 0x41, 0x11, 0x53, 0x89, 0x3a, 0x09, 0xea,
    0x27, 0x41, 0x65, 0x0d, 0x10, 0x55, 0x5c, 0x50, 0x08, 0x63, 0x09, 0x61, 0x61, 0x68, 0x08, 0xe0,
    0x60, 0x2a, 0xe3, 0x50, 0x82, 0x01, 0x56, 0x14, 0x44, 0x0c, 0x0f, 0x8f, 0xd6, 0x30, 0x16, 0x20,
    0x00, 0x82, 0x03, 0xa8, 0xe3, 0xa5, 0x08, 0x04, 0x02, 0xaa, 0x49, 0x01, 0x4b, 0xa8, 0xa1, 0xa0,
    0xb4, 0x90, 0x41, 0x08, 0xd0, 0xe9, 0x93, 0x1a, 0xe3, 0x17, 0x0a, 0xa0, 0xc0, 0xff, 0xff, 0xff,
    0xff, 0xff, 0xff, 0xff, 0xff, 0xff, 0xff, 0xff, 0xff, 0xf0, 0x00, 0x00, 0x00, 0x00, 0x00, 0x00,
    0x00, 0x00, 0x00, 0x00, 0x00, 0x00, 0x00, 0x00, 0x00, 0x00, 0x00, 0x00, 0x00, 0x00, 0x00, 0x00,
    0x00, 0x00, 0x00, 0x00, 0x00, 0x00, 0x00, 0x00, 0x00, 0x00, 0x00, 0x00, 0x00, 0x00, 0x00,
];

// 98 0, 222 230, 300 500; 213 0, 299 255; 295 0; 290 0; 264 0, 300 292.
static SKIP: &[u8] =
    b"\0\0\0\0\0\0\0\x62\0\0\0\0\0\0\0\0\0\0\0\0\0\0\0\xde\0\0\0\0\0\0\0\xe6\0\0\0\0\0\0\x01\x2c\0\0\0\0\0\0\x01\xf4\
    \0\0\0\0\0\0\0\xd5\0\0\0\0\0\0\0\0\0\0\0\0\0\0\x01\x2b\0\0\0\0\0\0\0\xff\0\0\0\0\0\0\x01\x27\0\0\0\0\0\0\0\0\
    \0\0\0\0\0\0\x01\x22\0\0\0\0\0\0\0\0\0\0\0\0\0\0\x01\x08\0\0\0\0\0\0\0\0\0\0\0\0\0\0\x01\x2c\0\0\0\0\0\0\x01\x24";

const A: Option<TermInfo> = Some(TermInfo {
    number: 0,
    docs: 176,
    post_at: 0,
    skip_at: 0,
});

const B: Option<TermInfo> = Some(TermInfo {
    number: 1,
    docs: 98,
    post_at: 86,
    skip_at: 3,
});

const C: Option<TermInfo> = Some(TermInfo {
    number: 2,
    docs: 6,
    post_at: 133,
    skip_at: 5,
});

const D: Option<TermInfo> = Some(TermInfo {
    number: 3,
    docs: 1,
    post_at: 139,
    skip_at: 6,
});

const E: Option<TermInfo> = Some(TermInfo {
    number: 4,
    docs: 100,
    post_at: 141,
    skip_at: 7,
});

// A line with what the lexicon tells of its words, how many documents there are, how many of them satisfy it, and the sum of
// their numbers.
struct Row {
    line: &'static [u8],
    infos: &'static [Option<TermInfo>],
    all: u32,
    found: (u32, u64),
}

// How many documents a walk has left, and the sum of their numbers.
fn count_left<S: Store>(
    matches: &mut Matches<'_, S>,
    store: &mut S,
    all: u32,
) -> Result<(u32, u64), PartErr>
    requires { MatchesFit (codes "set") (S.files store.old) matches.old }
{
    let mut count = 0u32;
    let mut sum = 0u64;
    for _call in 0..=all {
        match matches.next(store)? {
            Some(doc) => {
                count = count.saturating_add(1);
                sum = sum.saturating_add(u64::from(doc));
            }
            None => break,
        }
    }
    Ok((count, sum))
}

// The same of all documents that satisfy a query, of whose terms the lexicon tells this.
fn count_all<S: Store>(
    alloc: Global,
    store: &mut S,
    query: &Query,
    row: &Row,
) -> Result<(u32, u64), PartErr>
    requires { length row.now.infos.now ≡ length (query_terms (query_of query.now)) }
{
    let mut matches = Matches::start(alloc, "set", query, row.infos, row.all)?;
    count_left(&mut matches, store, row.all)
}

// Whether a query has so many terms.
fn has_terms(alloc: Global, query: &Query, count: usize) -> Result<bool, AllocError>
    ensures { IfOk result (λ has. OnTrue has (count ≡ length (query_terms (query_of query.now)))) }
{
    let words = query.terms(alloc)?;
    Ok(count == words.len())
}

// The same of the query of a row's line; None where it has other words.
fn counted_of<S: Store>(
    alloc: Global,
    store: &mut S,
    query: &Query,
    row: &Row,
) -> Result<Option<(u32, u64)>, PartErr> {
    if !has_terms(alloc, query, row.infos.len())? {
        return Ok(None);
    }
    Ok(Some(count_all(alloc, store, query, row)?))
}

// The same of a row's line; None where it is no query either.
fn counted<S: Store>(
    alloc: Global,
    store: &mut S,
    row: &Row,
) -> Result<Option<(u32, u64)>, PartErr> {
    if row.line.len() > 1024 {
        return Ok(None);
    }
    match parse_boolean(alloc, row.line) {
        Ok(query) => counted_of(alloc, store, &query, row),
        Err(_) => Ok(None),
    }
}

// A store with these parts.
fn store_of(alloc: Global, post: &[u8], skip: &[u8]) -> Result<MemStore, AllocError> {
    let mut store = MemStore::new(alloc);
    store.put_file("set.post", post)?;
    store.put_file("set.skip", skip)?;
    Ok(store)
}

// Lines over the 300 documents, and one of a word that none of two documents has.
static ROWS: [Row; 9] = [
    Row {
        line: b"a & b",
        infos: &[A, B],
        all: 300,
        found: (55, 8735),
    },
    Row {
        line: b"c & b & !a",
        infos: &[C, B, A],
        all: 300,
        found: (1, 289),
    },
    Row {
        line: b"a & (b | c) & e",
        infos: &[A, B, C, E],
        all: 300,
        found: (22, 5471),
    },
    Row {
        line: b"d & a",
        infos: &[D, A],
        all: 300,
        found: (1, 290),
    },
    Row {
        line: b"c | z & a",
        infos: &[C, None, A],
        all: 300,
        found: (6, 1269),
    },
    Row {
        line: b"!(a | b | e)",
        infos: &[A, B, E],
        all: 300,
        found: (60, 6657),
    },
    Row {
        line: b"a | b | c",
        infos: &[A, B, C],
        all: 300,
        found: (223, 34015),
    },
    Row {
        line: b"a | !b",
        infos: &[A, B],
        all: 300,
        found: (257, 38552),
    },
    Row {
        line: b"!x",
        infos: &[None],
        all: 2,
        found: (2, 3),
    },
];

// Whether each line is answered so.
fn are_counted(alloc: Global, rows: &[Row]) -> Result<bool, PartErr> {
    let mut store = store_of(alloc, &POST, SKIP)?;
    for row in rows {
        if counted(alloc, &mut store, row)? != Some(row.found) {
            return Ok(false);
        }
    }
    Ok(true)
}

#[test]
fn lists_of_several_blocks_are_joined(rt: HostRuntime) -> Result<(), Fail> {
    assert!(rt; are_counted(rt.alloc(), &ROWS)?);
    Ok(())
}

// Skip of `y x` and then 199,999 times `x`: every posting is of zeros, two bits each in the list of `x`.
fn rare_skip(alloc: Global) -> Result<Vec<u8>, AllocError> {
    let mut skip = Vec::new(alloc);
    for block in 0..3_125u64 {
        skip.extend_from_slice(&(64 * block + 64).to_be_bytes())?;
        skip.extend_from_slice(&(128 * block).to_be_bytes())?;
    }
    skip.extend_from_slice(b"\0\0\0\0\0\0\0\x01\0\0\0\0\0\0\0\0")?;
    Ok(skip)
}

// A store with the parts of these documents.
fn rare_store(alloc: Global) -> Result<MemStore, AllocError> {
    let post = vec![in alloc; 0u8; 50_003]?;
    let skip = rare_skip(alloc)?;
    store_of(alloc, post.as_slice(), skip.as_slice())
}

const X: Option<TermInfo> = Some(TermInfo {
    number: 0,
    docs: 200_000,
    post_at: 0,
    skip_at: 0,
});

const Y: Option<TermInfo> = Some(TermInfo {
    number: 1,
    docs: 1,
    post_at: 50_000,
    skip_at: 3_125,
});

static RARE: [Row; 2] = [
    Row {
        line: b"y & !x",
        infos: &[Y, X],
        all: 200_000,
        found: (0, 0),
    },
    Row {
        line: b"y & (x | z)",
        infos: &[Y, X, None],
        all: 200_000,
        found: (1, 1),
    },
];

// Whether this line is answered so of the 200,000 documents, and how many pages of Post that reads.
fn rare_counted(alloc: Global, row: &Row) -> Result<(bool, u64), PartErr> {
    let mut store = rare_store(alloc)?;
    let found = counted(alloc, &mut store, row)?;
    Ok((found == Some(row.found), store.reads_of(Part::Post)))
}

#[test]
fn a_rare_word_reads_two_pages(rt: HostRuntime) -> Result<(), Fail> {
    for row in &RARE {
        let (given, pages) = rare_counted(rt.alloc(), row)?;
        assert!(rt; given && pages <= 2);
    }
    Ok(())
}

static COMMON: Row = Row {
    line: b"x",
    infos: &[X],
    all: 200_000,
    found: (200_000, 20_000_100_000),
};

#[test]
fn a_common_word_reads_each_page_once(rt: HostRuntime) -> Result<(), Fail> {
    // The list has 3,125 blocks, of 400,000 bits.
    let (given, pages) = rare_counted(rt.alloc(), &COMMON)?;
    assert!(rt; given && pages == 13);
    Ok(())
}

static FOUR_PLACES: Row = Row {
    line: b"(a | b) & !e | c",
    infos: &[A, B, E, C],
    all: 300,
    found: (145, 0),
};

// How many documents satisfy a query of four places where a call fails, and how many calls of the store there were.
fn despite(alloc: Global, call: u64) -> Result<(Result<u32, PartErr>, u64), AllocError> {
    let mut store = store_of(alloc, &POST, SKIP)?;
    store.fail_at(call, 0)?;
    let told = match counted(alloc, &mut store, &FOUR_PLACES) {
        Ok(found) => Ok(found.map_or(0, |(count, _)| count)),
        Err(refusal) => Err(refusal),
    };
    Ok((told, store.calls()))
}

#[test]
fn a_failing_store_is_told_at_each_call(rt: HostRuntime) -> Result<(), Fail> {
    // Each of the four places reads a page of Skip and a page of Post; nothing else is called, and nothing after a refusal.
    for call in 0..8u64 {
        let told = despite(rt.alloc(), call)?;
        assert!(rt; told == (Err(PartErr::Device), call + 1), "{call}");
    }
    let told = despite(rt.alloc(), 8)?;
    assert!(rt; told == (Ok(145), 8));
    Ok(())
}

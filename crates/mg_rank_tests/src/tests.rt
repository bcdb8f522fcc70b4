//! What no clause says: that calls succeed, rows over parts that another implementation made, that a term of no documents or of
//! too many is refused as damage, and that each failing call is told.
ghost use Rattle.std.specs.Prelude.{◌≤◌, length};

use mg_dev::{Part, PartErr, Store};
use mg_layout::TermInfo;
use mg_mem::MemStore;
use mg_rank::{Ranked, Row, rank};
use std::alloc::{AllocError, Global};
use std::test::Fail;

// Lists, skip entries and weights of twelve documents.
static PARTS: [(&str, &[u8]); 3] = [
    (
        "set.post",
        &[
            110, 65, 104, 64, 10, 69, 34, 160, 134, 204, 32, 14, 210, 64, 97, 0,
        ],
    ),
    // 12 0, 5 0, 12 0, 10 0, 9 0, 5 0.
    (
        "set.skip",
        b"\0\0\0\0\0\0\0\x0c\0\0\0\0\0\0\0\0\0\0\0\0\0\0\0\x05\0\0\0\0\0\0\0\0\
        \0\0\0\0\0\0\0\x0c\0\0\0\0\0\0\0\0\0\0\0\0\0\0\0\x0a\0\0\0\0\0\0\0\0\
        \0\0\0\0\0\0\0\x09\0\0\0\0\0\0\0\0\0\0\0\0\0\0\0\x05\0\0\0\0\0\0\0\0",
    ),
    // 362 753 256 572 874 952 980 849 256 362 661 836.
    (
        "set.weights",
        b"\0\0\x01\x6a\0\0\x02\xf1\0\0\x01\0\0\0\x02\x3c\0\0\x03\x6a\0\0\x03\xb8\
        \0\0\x03\xd4\0\0\x03\x51\0\0\x01\0\0\0\x01\x6a\0\0\x02\x95\0\0\x03\x44",
    ),
];

// Six trees of the twelve documents: two of them, and all.
static OAK_ELM: [TermInfo; 2] = [
    TermInfo {
        number: 4,
        docs: 5,
        post_at: 11,
        skip_at: 4,
    },
    TermInfo {
        number: 2,
        docs: 9,
        post_at: 4,
        skip_at: 2,
    },
];

static SIX: [TermInfo; 6] = [
    TermInfo {
        number: 4,
        docs: 5,
        post_at: 11,
        skip_at: 4,
    },
    TermInfo {
        number: 2,
        docs: 9,
        post_at: 4,
        skip_at: 2,
    },
    TermInfo {
        number: 0,
        docs: 4,
        post_at: 0,
        skip_at: 0,
    },
    TermInfo {
        number: 3,
        docs: 4,
        post_at: 8,
        skip_at: 3,
    },
    TermInfo {
        number: 5,
        docs: 2,
        post_at: 14,
        skip_at: 5,
    },
    TermInfo {
        number: 1,
        docs: 1,
        post_at: 3,
        skip_at: 1,
    },
];

// The best rows of two terms.
static TWO_BEST: [(u32, u64); 3] = [(1, 138132), (6, 132689), (9, 115456)];

// The best rows of all six.
static ALL: [(u32, u64); 12] = [
    (5, 277815),
    (7, 182671),
    (8, 182173),
    (2, 181464),
    (4, 153757),
    (12, 152551),
    (10, 149175),
    (1, 138132),
    (6, 132689),
    (3, 131072),
    (9, 115456),
    (11, 79872),
];

fn rows_are(ranked: &Ranked, wanted: &[(u32, u64)], total: u32) -> bool {
    let rows = ranked.rows();
    if rows.len() != wanted.len() || ranked.total() != total {
        return false;
    }
    for i in 0..rows.len() {
        let (number, score) = wanted[i];
        if rows.row(i) != (Row { number, score }) {
            return false;
        }
    }
    true
}

// Whether so many rows of the best are these, of so many documents.
fn ranks<S: Store>(
    alloc: Global,
    store: &mut S,
    terms: &[TermInfo],
    wanted: &[(u32, u64)],
    counts: (u32, u32),
) -> Result<bool, PartErr>
    requires { length terms.now ≤ 64 }
{
    let ranked = rank(alloc, store, "set", terms, 12, counts.0)?;
    Ok(rows_are(&ranked, wanted, counts.1))
}

// A store with the parts of the twelve documents.
fn twelve(alloc: Global) -> Result<MemStore, AllocError> {
    let mut store = MemStore::new(alloc);
    for (name, bytes) in &PARTS {
        store.put_file(name, bytes)?;
    }
    Ok(store)
}

// The same over the twelve documents.
fn ranks_twelve(
    alloc: Global,
    terms: &[TermInfo],
    wanted: &[(u32, u64)],
    counts: (u32, u32),
) -> Result<bool, PartErr>
    requires { length terms.now ≤ 64 }
{
    let mut store = twelve(alloc)?;
    ranks(alloc, &mut store, terms, wanted, counts)
}

#[test]
fn twelve_documents_are_ranked(rt: HostRuntime) -> Result<(), Fail> {
    let two = ranks_twelve(rt.alloc(), &OAK_ELM, &TWO_BEST, (3, 10))?;
    assert!(rt; two && ranks_twelve(rt.alloc(), &SIX, &ALL, (1000, 12))?);
    Ok(())
}

// A term of four documents, and one that no document has.
static OF_FOUR: TermInfo = TermInfo {
    number: 0,
    docs: 4,
    post_at: 0,
    skip_at: 0,
};

static OF_NONE: TermInfo = TermInfo {
    number: 7,
    docs: 0,
    post_at: 0,
    skip_at: 0,
};

// One that more documents have than there are.
static OF_THIRTEEN: TermInfo = TermInfo {
    number: 3000,
    docs: 13,
    post_at: 0,
    skip_at: 0,
};

// Why the twelve documents are not ranked by a term, if they are not, and how many calls of the store that took.
fn refusal(
    alloc: Global,
    term: &TermInfo,
    call: u64,
) -> Result<(Option<PartErr>, u64), AllocError> {
    let mut store = twelve(alloc)?;
    store.fail_at(call, 0)?;
    let told = ranks(alloc, &mut store, &[*term], &[], (3, 0)).err();
    Ok((told, store.calls()))
}

// Whether a term is refused at its number, by how many documents have it.
fn is_told(alloc: Global, term: &TermInfo) -> Result<bool, AllocError> {
    let (told, _) = refusal(alloc, term, 1000)?;
    let (number, docs) = (u64::from(term.number), u64::from(term.docs));
    Ok(matches!(told, Some(PartErr::Bad(bad))
        if bad.part == Part::Lex && bad.at == number && bad.found == docs))
}

#[test]
fn a_term_of_no_documents_or_of_too_many_is_told_by_its_number(
    rt: HostRuntime,
) -> Result<(), Fail> {
    let alloc = rt.alloc();
    assert!(rt; is_told(alloc, &OF_NONE)? && is_told(alloc, &OF_THIRTEEN)?);
    Ok(())
}

// Whether each of the calls that there are is told where it fails, and no other comes behind it.
fn are_calls_told(alloc: Global) -> Result<bool, AllocError> {
    let (whole, calls) = refusal(alloc, &OF_FOUR, 1000)?;
    for call in 0..calls {
        let told = refusal(alloc, &OF_FOUR, call)?;
        if told != (Some(PartErr::Device), call.saturating_add(1)) {
            return Ok(false);
        }
    }
    Ok(calls > 0 && whole.is_none())
}

#[test]
fn failing_calls_are_told(rt: HostRuntime) -> Result<(), Fail> {
    assert!(rt; are_calls_told(rt.alloc())?);
    Ok(())
}

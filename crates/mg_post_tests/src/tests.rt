//! What no clause says: that calls succeed, and how much is read. The bytes of lists stand with the builds, and failing
//! devices with the tools.
ghost use Rattle.std.specs.Prelude.{OnOk};
ghost use Rattle.mg_post.specs.Cursor.{CursorFits};

use mg_dev::{Part, PartErr, Store};
use mg_layout::TermInfo;
use mg_mem::SureStore;
use mg_post::{Cursor, ListReader, Posting};
use std::alloc::{AllocError, Global};
use std::test::Fail;

#[derive(Clone, Copy)]
enum Step {
    Next,
    To(u32),
}

fn one_step<S: Store>(
    cursor: &mut Cursor<'_, S>,
    store: &mut S,
    step: Step,
) -> Result<Option<Posting>, PartErr>
    requires { CursorFits cursor.old (S.files store.old) }
    ensures { OnOk result (CursorFits cursor.new (S.files store.new)) }
{
    match step {
        Step::Next => cursor.next(store),
        Step::To(doc) => cursor.advance_to(store, doc.max(1)),
    }
}

// Whether a cursor gives these answers to steps, and stands at each.
fn answers_all<S: Store>(
    cursor: &mut Cursor<'_, S>,
    store: &mut S,
    steps: &[(Step, Option<Posting>)],
) -> Result<bool, PartErr>
    requires { CursorFits cursor.old (S.files store.old) }
{
    let mut are_given = true;
    for (step, given) in steps {
        let answer = one_step(cursor, store, *step)?;
        are_given &= answer == *given;
        are_given &= cursor.current() == answer;
    }
    Ok(are_given)
}

// Whether a fresh cursor does.
fn answers<S: Store>(
    alloc: Global,
    store: &mut S,
    info: &TermInfo,
    all: u32,
    steps: &[(Step, Option<Posting>)],
) -> Result<bool, PartErr> {
    let mut cursor = Cursor::start(alloc, "set", info, all)?;
    answers_all(&mut cursor, store, steps)
}

// What the lexicon tells of a term that stands once in each of 200,000 documents.
static EACH: TermInfo = TermInfo {
    number: 0,
    docs: 200_000,
    post_at: 0,
    skip_at: 0,
};

// Its skip entries, of 64 postings each: the last document, and the first bit. A posting has two zero-bits.
fn skip_of_each(alloc: Global) -> Result<Vec<u8>, AllocError> {
    let mut bytes = Vec::new(alloc);
    for block in 0..3_125u64 {
        bytes.extend_from_slice(&(64 * block + 64).to_be_bytes())?;
        bytes.extend_from_slice(&(128 * block).to_be_bytes())?;
    }
    Ok(bytes)
}

// A store with its list.
fn store_of_each(alloc: Global) -> Result<SureStore, AllocError> {
    let post = vec![in alloc; 0u8; 50_000]?;
    let skip = skip_of_each(alloc)?;
    let mut store = SureStore::new(alloc);
    store.put_file("set.post", &post)?;
    store.put_file("set.skip", &skip)?;
    Ok(store)
}

static MIDDLE: [(Step, Option<Posting>); 1] = [(
    Step::To(150_000),
    Some(Posting {
        doc: 150_000,
        freq: 1,
    }),
)];

static PAST: [(Step, Option<Posting>); 4] = [
    (Step::To(200_001), None),
    (Step::Next, None),
    (Step::To(1), None),
    (Step::Next, None),
];

// Whether a cursor gives a document in the middle, and none past the last, and how many pages of Post
// and of Skip were read after each.
fn skips_each(alloc: Global) -> Result<(bool, [u64; 4]), PartErr> {
    let mut store = store_of_each(alloc)?;
    let middle = answers(alloc, &mut store, &EACH, 200_000, &MIDDLE)?;
    let (post, skip) = (store.reads_of(Part::Post), store.reads_of(Part::Skip));
    let past = answers(alloc, &mut store, &EACH, 200_000, &PAST)?;
    let more = [
        post,
        skip,
        store.reads_of(Part::Post),
        store.reads_of(Part::Skip),
    ];
    Ok((middle && past, more))
}

#[test]
fn a_long_list_is_skipped(rt: HostRuntime) -> Result<(), Fail> {
    // A block in the middle costs one page of Post. Entry 2,343 is the one; a page has 256.
    assert!(rt; skips_each(rt.alloc())? == (true, [1, 10, 1, 23]));
    Ok(())
}

// What the lexicon tells of a term that stands once in each of two documents.
static FIRST: TermInfo = TermInfo {
    number: 0,
    docs: 2,
    post_at: 0,
    skip_at: 0,
};

// And of a second one, whose list stands behind.
static SECOND: TermInfo = TermInfo {
    number: 1,
    docs: 2,
    post_at: 1,
    skip_at: 1,
};

// What a reader tells of both lists, and how many pages of Post and of Skip it read.
fn reads_both(alloc: Global) -> Result<([Option<Posting>; 4], [u64; 2]), PartErr> {
    let post = vec![in alloc; 0u8; 2]?;
    let mut store = SureStore::new(alloc);
    store.put_file("set.post", &post)?;
    let mut reader = ListReader::start(alloc, "set", 2)?;
    reader.open(&FIRST);
    let first = reader.next(&mut store)?;
    let last = reader.next(&mut store)?;
    let none = reader.next(&mut store)?;
    reader.open(&SECOND);
    let again = reader.next(&mut store)?;
    let reads = [store.reads_of(Part::Post), store.reads_of(Part::Skip)];
    Ok(([first, last, none, again], reads))
}

#[test]
fn lists_on_one_page_are_read_at_once(rt: HostRuntime) -> Result<(), Fail> {
    let one = Some(Posting { doc: 1, freq: 1 });
    let two = Some(Posting { doc: 2, freq: 1 });
    assert!(rt; reads_both(rt.alloc())? == ([one, two, None, one], [1, 0]));
    Ok(())
}

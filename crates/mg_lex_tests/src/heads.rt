//! What no clause says: the bytes of real heads, each written in one append. How heads are read, and the line of each kind of
//! damage, stand in the black-box suite.
use mg_dev::{PutErr, Store};
use mg_layout::Head;
use mg_mem::SureStore;
use std::alloc::Global;

// The head of the eight bytes "a a a a ", which end in no control-B.
const SMALL: Head = Head {
    version: 1,
    documents: 1,
    words: 1,
    others: 1,
    terms: 1,
    cap: 1_398_101,
    open_end: true,
    collection: 8,
    occurrences: 4,
    runs: 1,
    text_bytes: 2,
    post_bytes: 1,
    skip_count: 1,
};

static FIRST: [u8; 64] = [
    0x4d, 0x47, 0x52, 0x4f, 0x57, 0x76, 0x31, 0x0a, 0, 0, 0, 1, 0, 0, 0, 1, 0, 0, 0, 1, 0, 0, 0, 1,
    0, 0x15, 0x55, 0x55, 0, 0, 0, 1, 0, 0, 0, 8, 0, 0, 0, 4, 0, 0, 0, 1, 0, 0, 0, 2, 0, 0, 0, 0, 0,
    0, 0, 1, 0, 0, 0, 0, 0, 0, 0, 1,
];

const WIDE: Head = Head {
    version: 2,
    documents: 1,
    words: 1,
    others: 1,
    terms: 1,
    cap: 1_398_101,
    open_end: true,
    collection: 8,
    occurrences: 4,
    runs: 1,
    text_bytes: 2,
    post_bytes: 1,
    skip_count: 1,
};

static SECOND: [u8; 80] = [
    0x4d, 0x47, 0x52, 0x4f, 0x57, 0x76, 0x32, 0x0a, 0, 0, 0, 1, 0, 0, 0, 1, 0, 0, 0, 1, 0, 0, 0, 1,
    0, 0x15, 0x55, 0x55, 0, 0, 0, 1, 0, 0, 0, 0, 0, 0, 0, 8, 0, 0, 0, 0, 0, 0, 0, 4, 0, 0, 0, 1, 0,
    0, 0, 0, 0, 0, 0, 0, 0, 0, 0, 2, 0, 0, 0, 0, 0, 0, 0, 1, 0, 0, 0, 0, 0, 0, 0, 1,
];

// Writes both heads.
fn write_both<S: Store>(store: &mut S) -> Result<(), PutErr> {
    SMALL.write(store, "one")?;
    WIDE.write(store, "two")
}

// Whether both are written, each in one append.
fn are_written(alloc: Global) -> bool {
    let mut store = SureStore::new(alloc);
    let written = write_both(&mut store).is_ok();
    let one = store.file("one.head") == Some(FIRST.as_slice());
    let two = store.file("two.head") == Some(SECOND.as_slice());
    written && store.calls() == 2 && one && two
}

#[test]
fn heads_of_both_versions_are_written(rt: HostRuntime) {
    assert!(rt; are_written(rt.alloc()));
}

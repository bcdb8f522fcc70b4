//! What no clause says: that documents are read, how seldom, and what is told of one that is longer than its bound. The
//! bytes of texts that are written or shown, damages and failing devices stand with the builds and in the black-box suite.
ghost use Rattle.std.specs.Prelude.{◌≡◌};
ghost use Rattle.mg_text.specs.Reading.{TextFits};

use mg_dev::{Bad, FileRef, Part, PartErr, PutErr, ShowErr, Store};
use mg_layout::Head;
use mg_mem::MemStore;
use mg_text::{HeldDocument, PieceCounts, TextReader, WordList, count_text};
use std::alloc::Global;
use std::test::Fail;

/// The models of one word and one other, and where three texts of 2,052 bytes begin and end.
const PARTS: [(Part, &[u8]); 3] = [
    (Part::Words, b"\x01a\x01"),
    (Part::Nonwords, b"\x01 \x01"),
    (
        Part::Places,
        b"\0\0\0\0\0\0\0\0\0\0\0\0\0\0\x08\x04\0\0\0\0\0\0\x10\x08\0\0\0\0\0\0\x18\x0c",
    ),
];

/// The second document has one byte more than it may have.
const TOO_LONG: Bad = Bad {
    part: Part::Text,
    at: 0,
    low: 0,
    high: 16_381,
    found: 16_382,
};

/// What is told of the second document where its bytes are shown or counted, of which one more comes than may.
const BEYOND: Bad = Bad {
    part: Part::Text,
    at: 16_416,
    low: 0,
    high: 16_381,
    found: 16_382,
};

// The head of the three documents.
fn head() -> Head
    ensures words { result.words ≡ 1 }
    ensures others { result.others ≡ 1 }
    ensures documents { result.documents ≡ 3 }
{
    Head {
        version: 2,
        documents: 3,
        words: 1,
        others: 1,
        terms: 0,
        cap: 1_398_101,
        open_end: false,
        collection: 0,
        occurrences: 0,
        runs: 0,
        text_bytes: 6156,
        post_bytes: 0,
        skip_count: 0,
    }
}

// Writes three documents of 8,191 pairs each: the code of their number has 27 bits, and 16,382 zero-bits follow.
fn write_three<S: Store>(store: &mut S) -> Result<(), PutErr> {
    for (part, bytes) in PARTS {
        store.append(&FileRef { base: "set", part }, bytes)?;
    }
    let mut text = [0u8; 2052];
    text[0] = 0xff;
    text[1] = 0xf8;
    let part = Part::Text;
    for _ in 0..3 {
        store.append(&FileRef { base: "set", part }, &text)?;
    }
    Ok(())
}

// Holds documents of the three, one after the other, and answers how many bytes they have together.
fn hold_all<S: Store>(
    reader: &mut TextReader<'_, S>,
    store: &mut S,
    numbers: &[u32],
    held: &mut HeldDocument,
) -> Result<usize, PartErr>
    requires fits { TextFits reader.old (S.files store.old) }
    requires documents { reader.old.documents ≡ 3 }
{
    let mut bytes = 0usize;
    for number in numbers {
        if *number >= 1 && *number <= 3 {
            held.read(store, reader, *number)?;
            bytes = bytes.saturating_add(held.bytes().len());
        }
    }
    Ok(bytes)
}

// The same by a reader of its own.
fn hold<S: Store>(
    alloc: Global,
    store: &mut S,
    numbers: &[u32],
    held: &mut HeldDocument,
) -> Result<usize, PartErr> {
    let mut reader = TextReader::load(alloc, store, "set", &head())?;
    hold_all(&mut reader, store, numbers, held)
}

// Whether these of the documents are held, and Text is read so often and Places once.
fn reads_so_often(alloc: Global, numbers: &[u32], reads: u64) -> Result<bool, Fail> {
    let mut store = MemStore::new(alloc);
    write_three(&mut store)?;
    let mut held = HeldDocument::new(alloc, 16_382);
    let bytes = hold(alloc, &mut store, numbers, &mut held)?;
    let is_read_so = store.reads_of(Part::Text) == reads && store.reads_of(Part::Places) == 1;
    Ok(bytes == 3 * 16_382 && is_read_so)
}

#[test]
fn pages_are_read_once(rt: HostRuntime) -> Result<(), Fail> {
    for (numbers, reads) in [
        ([1u32, 1, 1], 1u64),
        ([2, 2, 2], 6),
        ([3, 3, 3], 1),
        ([1, 2, 3], 2),
    ] {
        assert!(rt; reads_so_often(rt.alloc(), &numbers, reads)?, "{reads}");
    }
    Ok(())
}

#[test]
fn a_document_is_held_up_to_its_bound(rt: HostRuntime) -> Result<(), Fail> {
    let alloc = rt.alloc();
    let mut store = MemStore::new(alloc);
    write_three(&mut store)?;
    let mut held = HeldDocument::new(alloc, 16_381);
    let refused = hold(alloc, &mut store, &[2], &mut held);
    assert!(rt; refused == Err(PartErr::Bad(TOO_LONG)) && held.is_over());
    held.set_most(16_382);
    assert!(rt; hold(alloc, &mut store, &[2], &mut held) == Ok(16_382) && !held.is_over());
    held.close()?;
    assert!(rt; held.bytes().len() == 16_383 && held.bytes().ends_with(&[b' ', 2]));
    Ok(())
}

// Lists the words of documents of the three, one after the other, and answers how many symbols they have together.
fn list_all<S: Store>(
    reader: &mut TextReader<'_, S>,
    store: &mut S,
    numbers: &[u32],
    most: u64,
    list: &mut WordList,
) -> Result<usize, PartErr>
    requires fits { TextFits reader.old (S.files store.old) }
    requires documents { reader.old.documents ≡ 3 }
{
    let mut words = 0usize;
    for number in numbers {
        if *number >= 1 && *number <= 3 {
            reader.words(store, *number, most, list)?;
            words = words.saturating_add(list.symbols().len());
        }
    }
    Ok(words)
}

// The same by a reader of its own.
fn list<S: Store>(
    alloc: Global,
    store: &mut S,
    numbers: &[u32],
    most: u64,
) -> Result<usize, PartErr> {
    let mut reader = TextReader::load(alloc, store, "set", &head())?;
    let mut list = WordList::new(alloc);
    list_all(&mut reader, store, numbers, most, &mut list)
}

// Shows the second document, of so many bytes at most.
fn show_second<S: Store>(alloc: Global, store: &mut S, most: u64) -> Result<(), ShowErr> {
    let mut held = HeldDocument::new(alloc, 20_000);
    match TextReader::load(alloc, store, "set", &head()) {
        Ok(mut reader) => reader.doc_within(store, 2, most, &mut held),
        Err(refusal) => Err(ShowErr::Part(refusal)),
    }
}

#[test]
fn words_are_listed_and_pages_are_read_once(rt: HostRuntime) -> Result<(), Fail> {
    let alloc = rt.alloc();
    let mut store = MemStore::new(alloc);
    write_three(&mut store)?;
    assert!(rt; list(alloc, &mut store, &[1, 2, 3], 16_382) == Ok(3 * 8_191));
    assert!(rt; store.reads_of(Part::Text) == 2 && store.reads_of(Part::Places) == 1);
    Ok(())
}

#[test]
fn words_beyond_the_bound_are_refused_as_shown_bytes_are(rt: HostRuntime) -> Result<(), Fail> {
    let alloc = rt.alloc();
    let mut store = MemStore::new(alloc);
    write_three(&mut store)?;
    assert!(rt; list(alloc, &mut store, &[2], 16_381) == Err(PartErr::Bad(BEYOND)));
    let shown = show_second(alloc, &mut store, 16_381);
    assert!(rt; shown == Err(ShowErr::Part(PartErr::Bad(BEYOND))));
    Ok(())
}

// Counts the pieces of the three documents by a reader of their own.
fn count<S: Store>(
    alloc: Global,
    store: &mut S,
    counts: &mut PieceCounts,
) -> Result<bool, PartErr> {
    let mut reader = TextReader::load(alloc, store, "set", &head())?;
    Ok(count_text(alloc, &mut reader, store, counts)?)
}

#[test]
fn pieces_are_counted_and_pages_are_read_once(rt: HostRuntime) -> Result<(), Fail> {
    let alloc = rt.alloc();
    let mut store = MemStore::new(alloc);
    write_three(&mut store)?;
    let mut counts = PieceCounts::new(alloc);
    assert!(rt; count(alloc, &mut store, &mut counts) == Ok(true));
    assert!(rt; counts.bytes() == 3 * 16_382 && counts.last_pairs() == 8_191);
    assert!(rt; store.reads_of(Part::Text) == 2 && store.reads_of(Part::Places) == 1);
    let ((words, others), pairs) = counts.into_parts();
    assert!(rt; words.len() == 1 && others.len() == 1);
    assert!(rt; &*pairs == [8_191, 8_191, 8_191].as_slice());
    Ok(())
}

#[test]
fn a_device_that_fails_is_told_of_a_count(rt: HostRuntime) -> Result<(), Fail> {
    let alloc = rt.alloc();
    let mut store = MemStore::new(alloc);
    write_three(&mut store)?;
    let mut counts = PieceCounts::new(alloc);
    assert!(rt; count(alloc, &mut store, &mut counts).is_ok());
    let last = store.calls().saturating_sub(1);
    let mut other = MemStore::new(alloc);
    write_three(&mut other)?;
    other.fail_at(last, 0)?;
    assert!(rt; count(alloc, &mut other, &mut counts) == Err(PartErr::Device));
    Ok(())
}

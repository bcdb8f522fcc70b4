//! Codes written and read back, over a slice, a page and a slot.
ghost use Rattle.std.specs.Prelude.{OnOk};
ghost use Rattle.mg_bits.specs.BitWriting.{Holds};

use mg_bits::{BitReader, BitWriter, CodeErr, Feed, NoDev, PageFeed, SliceFeed, SmallFeed};
use mg_codes::{get_gamma, get_golomb, get_unary, put_gamma, put_golomb, put_unary};
use mg_dev::{FileRef, Part, PutErr, Store};
use mg_mem::SureStore;
use std::alloc::{AllocError, Global};
use std::test::Fail;

const TEXT: FileRef<'static> = FileRef {
    base: "x",
    part: Part::Text,
};

/// The codes of a test.
#[derive(Clone, Copy)]
enum Kind {
    Unary,
    Gamma,
    Golomb(u64),
}

/// Writes the code of a number, if it has one.
fn put_one<S: Store>(w: &mut BitWriter, store: &mut S, kind: Kind, x: u64) -> Result<(), PutErr>
    requires holds { Holds w.old (S.files store.old) }
    ensures { OnOk result (Holds w.new (S.files store.new)) }
{
    if x < 1 || x >= 1 << 48 || w.place() > 1 << 60 {
        return Err(PutErr::Failed);
    }
    match kind {
        Kind::Unary => put_unary(w, store, x),
        Kind::Gamma => put_gamma(w, store, x),
        Kind::Golomb(b) if b >= 1 && b < 1 << 48 => put_golomb(w, store, b, x),
        Kind::Golomb(_) => Err(PutErr::Failed),
    }
}

/// Writes the codes of the numbers.
fn put_all<S: Store>(
    w: &mut BitWriter,
    store: &mut S,
    kind: Kind,
    numbers: &[u64],
) -> Result<(), PutErr>
    requires holds { Holds w.old (S.files store.old) }
    ensures { OnOk result (Holds w.new (S.files store.new)) }
{
    for number in numbers {
        put_one(w, store, kind, *number)?;
    }
    Ok(())
}

/// Writes the codes of the numbers into a file.
fn write_all<S: Store>(
    alloc: Global,
    store: &mut S,
    kind: Kind,
    numbers: &[u64],
) -> Result<(), PutErr> {
    let mut w = BitWriter::start(alloc, store, TEXT)?;
    put_all(&mut w, store, kind, numbers)?;
    if w.place() > 1 << 60 {
        return Err(PutErr::Failed);
    }
    w.finish(store)
}

/// Whether the codes of the numbers stand at the reader's place.
fn reads_all<F: Feed>(r: &mut BitReader<F>, dev: &mut F::Dev, kind: Kind, numbers: &[u64]) -> bool
    requires fits { F.fits r.old.feed (F.device dev.old).files }
{
    let most = (1 << 48) - 1;
    for number in numbers {
        if r.place() > 1 << 60 {
            return false;
        }
        let same = match kind {
            Kind::Unary => get_unary(r, dev, most) == Ok(*number),
            Kind::Gamma => get_gamma(r, dev, most) == Ok(*number),
            Kind::Golomb(b) if b >= 1 && b < 1 << 48 => {
                get_golomb(r, dev, b, most) == Ok(*number)
            }
            _ => false,
        };
        if !same {
            return false;
        }
    }
    true
}

/// Whether the codes of the numbers are read from a slice.
fn slice_reads(bytes: &[u8], kind: Kind, numbers: &[u64]) -> bool {
    let mut slice = BitReader::new(SliceFeed::new(bytes), 0);
    reads_all(&mut slice, &mut NoDev, kind, numbers)
}

/// Whether the codes of the numbers are read from the pages of the text.
fn pages_read(
    alloc: Global,
    store: &mut SureStore,
    kind: Kind,
    numbers: &[u64],
) -> Result<bool, AllocError> {
    let mut paged = BitReader::new(PageFeed::new(alloc, TEXT)?, 0);
    Ok(reads_all(&mut paged, store, kind, numbers))
}

/// Whether the codes of the numbers are read from slots of the text.
fn slots_read(store: &mut SureStore, kind: Kind, numbers: &[u64]) -> bool {
    let mut slot = [0; 64];
    let mut small = BitReader::new(SmallFeed::new(TEXT, &mut slot), 0);
    reads_all(&mut small, store, kind, numbers)
}

/// Whether these bytes are written for the numbers, and read through each feed.
fn is_coded(
    alloc: Global,
    store: &mut SureStore,
    kind: Kind,
    numbers: &[u64],
    bytes: &[u8],
) -> Result<bool, PutErr> {
    write_all(alloc, store, kind, numbers)?;
    let written = store.file("x.text") == Some(bytes);
    let paged = pages_read(alloc, store, kind, numbers)?;
    Ok(written && paged && slots_read(store, kind, numbers) && slice_reads(bytes, kind, numbers))
}

/// Whether this is so of each row.
fn are_coded(alloc: Global, rows: &[(Kind, &[u64], &[u8])]) -> Result<bool, PutErr> {
    let mut store = SureStore::new(alloc);
    for (kind, numbers, bytes) in rows {
        if !is_coded(alloc, &mut store, *kind, numbers, bytes)? {
            return Ok(false);
        }
    }
    Ok(true)
}

static BOOK: [(Kind, &[u64], &[u8]); 5] = [
    (
        Kind::Unary,
        &[1, 2, 3, 4, 5, 6, 7, 8, 9, 10],
        b"\x5b\xbd\xf7\xef\xef\xf7\xfc",
    ),
    (
        Kind::Golomb(1),
        &[1, 2, 3, 4, 5, 6, 7, 8, 9, 10],
        b"\x5b\xbd\xf7\xef\xef\xf7\xfc",
    ),
    (
        Kind::Golomb(3),
        &[1, 2, 3, 4, 5, 6, 7, 8, 9, 10],
        b"\x13\x95\x79\xad\xf0",
    ),
    (
        Kind::Golomb(6),
        &[1, 2, 3, 4, 5, 6, 7, 8, 9, 10],
        b"\x05\x15\x9e\x26\x95",
    ),
    (Kind::Gamma, &[1, 2, 3, 4, 5, 10], b"\x4b\x8c\xf2"),
];

#[test]
fn codes_are_those_of_the_book(rt: HostRuntime) -> Result<(), Fail> {
    assert!(rt; are_coded(rt.alloc(), &BOOK)?);
    Ok(())
}

/// The gamma code at a place of a byte that is the whole file, of a number of at most ten.
fn gamma_of_byte(byte: u8, place: u64) -> Result<u64, CodeErr> {
    let bytes = [byte];
    let mut reader = BitReader::new(SliceFeed::new(&bytes), place.min(8));
    get_gamma(&mut reader, &mut NoDev, 10)
}

#[test]
fn a_limit_tells_an_end_from_a_number_too_large(rt: HostRuntime) {
    assert!(rt; gamma_of_byte(0b0111_0010, 1) == Ok(10));
    assert!(rt; gamma_of_byte(0b0111_0011, 1) == Err(CodeErr::Over { at: 1, limit: 10 }));
    assert!(rt; gamma_of_byte(0b0001_1110, 3) == Err(CodeErr::Over { at: 3, limit: 10 }));
    assert!(rt; gamma_of_byte(0b0011_1001, 2) == Err(CodeErr::End { at: 2 }));
}

/// Ten thousand numbers from 1 to 4,096.
fn noise(alloc: Global) -> Result<Vec<u64>, AllocError> {
    let mut numbers = Vec::new(alloc);
    let mut state = 12345u64;
    for _ in 0..10_000 {
        state = state
            .wrapping_mul(6364136223846793005)
            .wrapping_add(1442695040888963407);
        numbers.push((state >> 52) + 1)?;
    }
    Ok(numbers)
}

fn checksum(bytes: &[u8]) -> u64 {
    let mut sum = 0u64;
    for byte in bytes {
        sum = sum.wrapping_mul(31).wrapping_add(u64::from(*byte));
    }
    sum
}

/// The checksum of the codes of ten thousand numbers, if they are written and read back.
fn sum_of_codes(alloc: Global, kind: Kind, numbers: &[u64]) -> Result<Option<u64>, PutErr> {
    let mut store = SureStore::new(alloc);
    write_all(alloc, &mut store, kind, numbers)?;
    if !slots_read(&mut store, kind, numbers) {
        return Ok(None);
    }
    match store.file("x.text") {
        Some(bytes) => Ok(Some(checksum(bytes))),
        None => Ok(None),
    }
}

static SUMS: [(Kind, u64); 4] = [
    (Kind::Gamma, 10344095689174709969),
    (Kind::Golomb(100), 10475281718320723322),
    (Kind::Golomb(128), 7683416317338617407),
    (Kind::Golomb(1000), 3300435713251683687),
];

/// Whether the codes of ten thousand numbers have these checksums.
fn have_sums(alloc: Global, rows: &[(Kind, u64)]) -> Result<bool, PutErr> {
    let numbers = noise(alloc)?;
    for (kind, sum) in rows {
        if sum_of_codes(alloc, *kind, &numbers)? != Some(*sum) {
            return Ok(false);
        }
    }
    Ok(true)
}

#[test]
fn ten_thousand_numbers_have_the_codes_of_the_reference(rt: HostRuntime) -> Result<(), Fail> {
    assert!(rt; have_sums(rt.alloc(), &SUMS)?);
    Ok(())
}

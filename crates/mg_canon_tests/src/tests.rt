//! Codewords that are written and read back, and what is refused, through public calls.
ghost use Rattle.std.specs.Prelude.{◌≡◌, ◌<◌, ◌≤◌, length, IfOk, IfSome, OnOk};
ghost use Rattle.mg_bits.specs.BitWriting.{Holds};

use mg_bits::{BitReader, BitWriter, CodeErr, Feed, NoDev, PageFeed, SliceFeed};
use mg_canon::*;
use mg_dev::{FileRef, Part, PutErr, Store};
use mg_mem::SureStore;
use std::alloc::{AllocError, Global};
use std::test::Fail;

const TEXT: FileRef<'static> = FileRef {
    base: "x",
    part: Part::Text,
};

/// The code of these lengths, if they have one.
fn code_of(alloc: Global, lengths: &[u8]) -> Option<Canon> {
    if lengths.len() > 1 << 22 {
        return None;
    }
    Canon::new(alloc, lengths).ok()
}

/// The same for writing.
fn code_for_writing(alloc: Global, lengths: &[u8]) -> Option<Canon> {
    if lengths.len() > 1 << 22 {
        return None;
    }
    match Canon::new(alloc, lengths) {
        Ok(_) => Canon::for_writing(alloc, lengths).ok(),
        Err(_) => None,
    }
}

/// Symbols from one on and before another, and their codewords as a file: how many bits and which bytes.
struct Coded {
    from: u32,
    to: u32,
    bits: u64,
    bytes: &'static [u8],
}

/// Writes the symbols from one on and before another, and tells whether all were written.
fn put_each<S: Store>(
    code: &Canon,
    writer: &mut BitWriter,
    store: &mut S,
    from: u32,
    to: u32,
) -> Result<bool, PutErr>
    requires symbols { to ≤ length code.now }
    requires holds { Holds writer.old (S.files store.old) }
    ensures { OnOk result (Holds writer.new (S.files store.new)) }
{
    for symbol in from..to {
        if writer.place() > 1 << 40 {
            return Ok(false);
        }
        code.put(writer, store, symbol)?;
    }
    Ok(true)
}

/// Whether the symbols are written as the text, and end behind their bits.
fn writes(
    alloc: Global,
    code: &Canon,
    store: &mut SureStore,
    coded: &Coded,
) -> Result<bool, PutErr> {
    if coded.to > code.count() {
        return Ok(false);
    }
    let mut writer = BitWriter::start(alloc, store, TEXT)?;
    let whole = put_each(code, &mut writer, store, coded.from, coded.to)?;
    let end = writer.place();
    if end > 1 << 40 {
        return Ok(false);
    }
    writer.finish(store)?;
    Ok(whole && end == coded.bits)
}

/// Whether the symbols from one on and before another stand from the reader's place on.
fn reads_each<F: Feed>(
    code: &Canon,
    reader: &mut BitReader<F>,
    dev: &mut F::Dev,
    from: u32,
    to: u32,
) -> bool
    requires some { 0 < length code.now }
    requires fits { F.fits reader.old.feed (F.device dev.old).files }
{
    for symbol in from..to {
        if reader.place() > 1 << 40 || code.get(reader, dev) != Ok(symbol) {
            return false;
        }
    }
    true
}

/// Whether the symbols stand at the start of the text, and end behind their bits.
fn reads(
    alloc: Global,
    code: &Canon,
    store: &mut SureStore,
    coded: &Coded,
) -> Result<bool, AllocError> {
    if code.count() == 0 {
        return Ok(false);
    }
    let mut reader = BitReader::new(PageFeed::new(alloc, TEXT)?, 0);
    let are_read = reads_each(code, &mut reader, store, coded.from, coded.to);
    Ok(are_read && reader.place() == coded.bits)
}

/// Whether the text has the symbols' bytes once they are written, and they are read with one read.
fn is_coded_in(
    alloc: Global,
    code: &Canon,
    store: &mut SureStore,
    coded: &Coded,
) -> Result<bool, PutErr> {
    let written = writes(alloc, code, store, coded)?;
    let same = store.file("x.text") == Some(coded.bytes);
    let read = reads(alloc, code, store, coded)?;
    Ok(written && same && read && store.reads_of(Part::Text) == 1)
}

/// The same of a store that has no file yet.
fn is_coded_by(alloc: Global, code: &Canon, coded: &Coded) -> Result<bool, PutErr> {
    let mut store = SureStore::new(alloc);
    is_coded_in(alloc, code, &mut store, coded)
}

/// The same by the code of these lengths.
fn is_coded(alloc: Global, lengths: &[u8], coded: &Coded) -> Result<bool, PutErr> {
    let Some(code) = code_of(alloc, lengths) else {
        return Ok(false);
    };
    is_coded_by(alloc, &code, coded)
}

/// The same by the code of these lengths for writing, which reads too.
fn is_coded_for_writing(alloc: Global, lengths: &[u8], coded: &Coded) -> Result<bool, PutErr> {
    let Some(code) = code_for_writing(alloc, lengths) else {
        return Ok(false);
    };
    is_coded_by(alloc, &code, coded)
}

static FIVE: [u8; 5] = [3, 2, 2, 3, 2];

/// 000 01 10 001 11
static ALL_FIVE: Coded = Coded {
    from: 0,
    to: 5,
    bits: 12,
    bytes: b"\x0c\x70",
};

static TWELVE: [u8; 12] = [1, 2, 3, 4, 5, 6, 7, 8, 9, 10, 11, 11];

/// 1, 01, 001 and so on up to 0000000001, then 00000000000 and 00000000001
static ALL_TWELVE: Coded = Coded {
    from: 0,
    to: 12,
    bits: 77,
    bytes: b"\xa4\x42\x08\x10\x10\x08\x02\x00\x00\x08",
};

#[test]
fn codewords_are_written_and_read(rt: HostRuntime) -> Result<(), Fail> {
    assert!(rt; is_coded(rt.alloc(), &FIVE, &ALL_FIVE)?);
    assert!(rt; is_coded(rt.alloc(), &TWELVE, &ALL_TWELVE)?);
    Ok(())
}

#[test]
fn a_code_for_writing_is_the_same(rt: HostRuntime) -> Result<(), Fail> {
    assert!(rt; is_coded_for_writing(rt.alloc(), &FIVE, &ALL_FIVE)?);
    assert!(rt; is_coded_for_writing(rt.alloc(), &TWELVE, &ALL_TWELVE)?);
    Ok(())
}

static LAST_OF_FOUR_MILLION: Coded = Coded {
    from: 4_194_303,
    to: 4_194_304,
    bits: 22,
    bytes: b"\xff\xff\xfc",
};

/// Whether the last of so many symbols of 22 bits is coded so.
fn is_last_coded(alloc: Global, many: usize, coded: &Coded) -> Result<bool, PutErr> {
    let lengths = vec![in alloc; 22u8; many]?;
    is_coded(alloc, &lengths, coded)
}

#[test]
fn four_million_symbols_have_a_code(rt: HostRuntime) -> Result<(), Fail> {
    assert!(rt; is_last_coded(rt.alloc(), 4_194_304, &LAST_OF_FOUR_MILLION)?);
    Ok(())
}

/// How many bits, the last of a byte, stand before the end of the file, what is read of them, and the
/// place afterwards.
type Last = (u8, u64, Result<u32, CodeErr>, u64);

/// Of the code of five symbols.
static LAST_OF_FIVE: [Last; 10] = [
    (0b000, 3, Ok(0), 8),
    (0b01, 2, Ok(1), 8),
    (0b10, 2, Ok(2), 8),
    (0b001, 3, Ok(3), 8),
    (0b11, 2, Ok(4), 8),
    (0b0111_1111, 8, Ok(1), 2),
    (0, 0, Err(CodeErr::End { at: 8 }), 8),
    (0b0, 1, Err(CodeErr::End { at: 7 }), 7),
    (0b1, 1, Err(CodeErr::End { at: 7 }), 7),
    (0b00, 2, Err(CodeErr::End { at: 6 }), 6),
];

/// Of the code of a single symbol, which is a zero-bit.
static LAST_OF_ONE: [Last; 3] = [
    (0b01, 2, Ok(0), 7),
    (0b01, 1, Err(CodeErr::Over { at: 7, limit: 1 }), 7),
    (0b01, 0, Err(CodeErr::End { at: 8 }), 8),
];

/// Whether this is read of the last bits of a byte.
fn reads_last(code: &Canon, last: &Last) -> bool {
    if code.count() == 0 {
        return false;
    }
    let bytes = [last.0];
    let mut reader = BitReader::new(SliceFeed::new(&bytes), 8 - last.1.min(8));
    code.get(&mut reader, &mut NoDev) == last.2 && reader.place() == last.3
}

/// Whether each of these is read by the code of these lengths.
fn reads_all_last(alloc: Global, lengths: &[u8], rows: &[Last]) -> bool {
    let Some(code) = code_of(alloc, lengths) else {
        return false;
    };
    for last in rows {
        if !reads_last(&code, last) {
            return false;
        }
    }
    true
}

#[test]
fn a_codeword_cut_at_any_bit_ends(rt: HostRuntime) {
    assert!(rt; reads_all_last(rt.alloc(), &FIVE, &LAST_OF_FIVE));
    assert!(rt; reads_all_last(rt.alloc(), &[1], &LAST_OF_ONE));
}

/// Pairs of symbols of two codes as bytes: how many bits, and the bytes with zero-bits behind them.
struct Paired {
    pairs: [(u32, u32); 4],
    bits: u64,
    bytes: &'static [u8],
}

/// 001 00000000000, 11 1, 000 00000000001, 10 001
static FOUR_PAIRS: Paired = Paired {
    pairs: [(3, 10), (4, 0), (0, 11), (2, 2)],
    bits: 36,
    bytes: b"\x20\x03\x80\x03\x10\x00\x00\x00\x00\x00\x00",
};

/// Whether the pairs are read one behind the other, and end behind their bits.
fn reads_pairs(first: &Canon, second: &Canon, paired: &Paired) -> bool {
    if first.count() == 0 || second.count() == 0 {
        return false;
    }
    let reader = BitReader::new(SliceFeed::new(paired.bytes), 0);
    let mut place = 0;
    for pair in &paired.pairs {
        if place > 1 << 40 {
            return false;
        }
        match pair_at(first, second, &reader, place) {
            Some((one, two, behind)) if (one, two) == *pair => place = behind,
            _ => return false,
        }
    }
    place == paired.bits
}

/// The same by the codes of these lengths.
fn are_paired(alloc: Global, first: &[u8], second: &[u8], paired: &Paired) -> bool {
    match (code_of(alloc, first), code_of(alloc, second)) {
        (Some(first), Some(second)) => reads_pairs(&first, &second, paired),
        _ => false,
    }
}

#[test]
fn codewords_of_two_codes_are_read_in_turn(rt: HostRuntime) {
    assert!(rt; are_paired(rt.alloc(), &FIVE, &TWELVE, &FOUR_PAIRS));
}

const HALF: u128 = 1 << 47;

/// Lengths that have no code, and why.
static REFUSED: [(&[u8], CanonErr); 8] = [
    (
        &[0],
        CanonErr::BadLength {
            symbol: 0,
            length: 0,
        },
    ),
    (
        &[2],
        CanonErr::BadLength {
            symbol: 0,
            length: 2,
        },
    ),
    (
        &[1, 49],
        CanonErr::BadLength {
            symbol: 1,
            length: 49,
        },
    ),
    (
        &[1, 0, 49],
        CanonErr::BadLength {
            symbol: 1,
            length: 0,
        },
    ),
    (
        &[255, 1, 1, 0],
        CanonErr::BadLength {
            symbol: 0,
            length: 255,
        },
    ),
    (&[2, 2], CanonErr::Kraft { sum: HALF }),
    (&[1, 1, 1], CanonErr::Kraft { sum: 3 * HALF }),
    (&[1, 48], CanonErr::Kraft { sum: HALF + 1 }),
];

/// Why these lengths have no code, if they have none.
fn refusal(alloc: Global, lengths: &[u8]) -> Option<CanonErr> {
    if lengths.len() > 100 {
        return None;
    }
    Canon::new(alloc, lengths).err()
}

/// Whether each of these is refused so.
fn are_refused(alloc: Global, rows: &[(&[u8], CanonErr)]) -> bool {
    for row in rows {
        if refusal(alloc, row.0) != Some(row.1) {
            return false;
        }
    }
    true
}

#[test]
fn lengths_of_no_code_are_refused(rt: HostRuntime) {
    assert!(rt; refusal(rt.alloc(), &[]).is_none());
    assert!(rt; are_refused(rt.alloc(), &REFUSED));
}

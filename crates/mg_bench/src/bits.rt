//! Bits and numbers of 13 bits: read from a slice and through pages, and written.
ghost use Rattle.std.specs.Prelude.{◌+◌, ◌*◌, ◌<◌, ◌^◌};

use crate::random::Random;
use crate::table::{or_refusal, print_head, print_times};
use anyhow::Result;
use mg_bits::{BitErr, BitReader, BitWriter, Feed, NoDev, PageFeed, SliceFeed};
use mg_dev::{FileRef, Part, PutErr, Store};
use mg_mem::SureStore;
use std::alloc::{AllocError, Global};
use std::rt::Clock;

/// The bytes that are read.
const BYTES: u64 = 8_000_000;

const BITS: u64 = 8 * BYTES;

/// The bits of a number.
const WIDTH: u32 = 13;

/// How many numbers these bits are.
const NUMBERS: u64 = BITS / 13;

const READ: FileRef<'static> = FileRef {
    base: "read",
    part: Part::Text,
};

const WRITTEN: FileRef<'static> = FileRef {
    base: "written",
    part: Part::Text,
};

/// So many random bytes.
fn random_bytes(alloc: Global, count: u64) -> Result<Vec<u8>, AllocError> {
    let mut bytes = Vec::new(alloc);
    let mut random = Random::new(12345);
    for _byte in 0..count {
        bytes.push((random.next() >> 56) as u8)?;
    }
    Ok(bytes)
}

/// How many of the next bits are one-bits.
fn ones<F: Feed>(reader: &mut BitReader<F>, dev: &mut F::Dev, bits: u64) -> Result<u64, BitErr>
    requires fits { F.fits reader.old.feed (F.device dev.old).files }
    requires place { reader.old.place + bits < 2 ^ 64 }
{
    let mut total = 0u64;
    for done in 0..bits {
        match reader.bit(dev) {
            Ok(bit) => total = total.wrapping_add(u64::from(bit)),
            Err(refusal) => return Err(refusal),
        }
    }
    Ok(total)
}

/// The sum of the next numbers.
fn sum<F: Feed>(reader: &mut BitReader<F>, dev: &mut F::Dev, numbers: u64) -> Result<u64, BitErr>
    requires fits { F.fits reader.old.feed (F.device dev.old).files }
    requires place { reader.old.place + 13 * numbers < 2 ^ 64 }
{
    let mut total = 0u64;
    for done in 0..numbers {
        let number = reader.bits(dev, WIDTH)?;
        total = total.wrapping_add(number);
    }
    Ok(total)
}

/// How many bits of a slice are one-bits.
fn slice_ones(bytes: &[u8]) -> Result<u64, BitErr> {
    let mut none = NoDev;
    let mut reader = BitReader::new(SliceFeed::new(bytes), 0);
    ones(&mut reader, &mut none, BITS)
}

/// How many bits of the file that is read are one-bits.
fn page_ones(alloc: Global, store: &mut SureStore) -> Result<u64> {
    let mut reader = BitReader::new(PageFeed::new(alloc, READ)?, 0);
    or_refusal(ones(&mut reader, store, BITS))
}

/// The sum of the numbers of the file that is read.
fn page_sum(alloc: Global, store: &mut SureStore) -> Result<u64> {
    let mut reader = BitReader::new(PageFeed::new(alloc, READ)?, 0);
    or_refusal(sum(&mut reader, store, NUMBERS))
}

/// Writes numbers, and answers how many bits they have.
fn write<S: Store>(alloc: Global, store: &mut S) -> Result<u64, PutErr> {
    let mut writer = BitWriter::start(alloc, store, WRITTEN)?;
    for number in 0..NUMBERS {
        writer.put(store, number, WIDTH)?;
    }
    writer.finish(store)?;
    Ok(writer.place())
}

/// Times these bytes, which stand in the store too.
fn time_bytes(
    rt: &(impl Clock + Print),
    alloc: Global,
    store: &mut SureStore,
    bytes: &[u8],
) -> Result<()> {
    print_head(rt)?;
    print_times(rt, "bit of a slice", BITS, || or_refusal(slice_ones(bytes)))?;
    print_times(rt, "bit through pages", BITS, || page_ones(alloc, store))?;
    print_times(rt, "bit in a number, through pages", BITS, || {
        page_sum(alloc, store)
    })?;
    print_times(rt, "bit in a number, written", BITS, || {
        or_refusal(write(alloc, store))
    })
}

pub fn time(rt: &(impl Clock + Print), alloc: Global) -> Result<()> {
    let bytes = random_bytes(alloc, BYTES)?;
    let mut store = SureStore::new(alloc);
    store.put_file("read.text", bytes.as_slice())?;
    time_bytes(rt, alloc, &mut store, bytes.as_slice())
}

//! What no clause says: that builds succeed, that a set is printed by one put, how a collection is read, and what a store that
//! lies leaves. The parts of collections and failing stores stand in the black-box suite and with the tools.
use crate::other_store::OtherStore;
use mg_build::build;
use mg_decode::decode;
use mg_dev::{Fault, Part, Store, What};
use mg_make::Summary;
use mg_mem::{MemSink, SureSink, SureStore};
use std::alloc::{AllocError, Global};
use std::test::Fail;

static LETTERS: &[u8] = b"the cat sat\n\x02the dog\n\x02Cat, cat & dog!\n\x02";

/// Builds the collection with the smallest pool.
fn built_of<S: Store>(alloc: Global, store: &mut S) -> Result<Summary, Fault> {
    build(alloc, store, "text", "set", 4096)
}

/// Whether the set is printed as its collection, and no second put comes.
fn is_printed_in_one_put<S: Store>(alloc: Global, store: &mut S) -> Result<bool, AllocError> {
    let mut out = MemSink::new(alloc);
    out.fail_at(1, 0)?;
    let status = decode(alloc, store, "set", &mut out);
    Ok(status.is_ok() && out.bytes() == LETTERS)
}

/// Whether a set of the three documents is.
fn is_built_and_printed(alloc: Global) -> Result<bool, AllocError> {
    let mut store = SureStore::new(alloc);
    store.put_file("text", LETTERS)?;
    let made = built_of(alloc, &mut store).is_ok();
    Ok(made && is_printed_in_one_put(alloc, &mut store)?)
}

#[test]
fn a_set_is_printed_in_one_put(rt: HostRuntime) -> Result<(), Fail> {
    assert!(rt; is_built_and_printed(rt.alloc())?);
    Ok(())
}

/// A store with these bytes in two files, which does not lie.
fn holding(
    alloc: Global,
    (one, first): (&str, &[u8]),
    (other, second): (&str, &[u8]),
) -> Result<OtherStore, AllocError> {
    let mut held = SureStore::new(alloc);
    held.put_file(one, first)?;
    held.put_file(other, second)?;
    Ok(OtherStore::new(held))
}

/// The letters so many times.
fn repeated(alloc: Global, count: usize) -> Result<Vec<u8>, AllocError> {
    let mut bytes = Vec::new(alloc);
    for _ in 0..count {
        bytes.extend_from_slice(LETTERS)?;
    }
    Ok(bytes)
}

/// A store with a collection of 39 pages, which takes two rounds of merging.
fn long_store(alloc: Global) -> Result<OtherStore, AllocError> {
    let collection = repeated(alloc, 4096)?;
    holding(alloc, ("text", &collection), ("other", b""))
}

/// Whether its build takes so many runs, reads the collection at most twice and a page at a time, and writes the first byte of
/// a run twenty reads before the last one.
fn is_read_so(alloc: Global, runs: u32) -> Result<bool, AllocError> {
    let mut store = long_store(alloc)?;
    let made = built_of(alloc, &mut store);
    let is_made = matches!(made, Ok(summary) if summary.runs == runs);
    let reads = store.held.reads_of(Part::Plain);
    let before = store.before_runs.unwrap_or(u64::MAX);
    let is_twice = reads <= 2 * 39 && store.longest <= 4096;
    Ok(is_made && is_twice && before <= reads.saturating_sub(20))
}

#[test]
fn a_collection_is_read_twice_and_runs_are_written_as_it_is_read(
    rt: HostRuntime,
) -> Result<(), Fail> {
    assert!(rt; is_read_so(rt.alloc(), 97)?);
    Ok(())
}

/// Whether a build of a store that changes what it gives ends so, and no set is left.
fn stops(alloc: Global, store: &mut OtherStore, fault: Fault) -> bool {
    let told = built_of(alloc, store);
    told == Err(fault) && store.held.file("set.head").unwrap_or(b"").is_empty()
}

/// Bytes behind those of the first page.
fn behind_a_page(alloc: Global, end: &[u8]) -> Result<Vec<u8>, AllocError> {
    let mut bytes = vec![in alloc; 2u8; 5000]?;
    bytes.extend_from_slice(end)?;
    Ok(bytes)
}

/// A store with a collection that ends so at its first reading and so at its second one: what ends lies behind the first
/// page, which both readings share.
fn changing(alloc: Global, first: &[u8], second: &[u8]) -> Result<OtherStore, AllocError> {
    let one = behind_a_page(alloc, first)?;
    let other = behind_a_page(alloc, second)?;
    let mut store = holding(alloc, ("text", &one), ("other", &other))?;
    store.from = 2;
    Ok(store)
}

/// Whether it is told what a collection has of one thing at its first reading and at its second one.
fn is_told(
    alloc: Global,
    (before, after): (&[u8], &[u8]),
    what: What,
    (first, second): (u64, u64),
) -> Result<bool, AllocError> {
    let mut store = changing(alloc, before, after)?;
    let fault = Fault::Changed {
        what,
        first,
        second,
    };
    Ok(stops(alloc, &mut store, fault))
}

/// How a collection ends at its first reading and at its second one, and what is told of it.
type Ends<'a> = (&'a [u8], &'a [u8], What, u64, u64);

static ENDS: [Ends<'static>; 9] = [
    (b"a b\x02", b"a b", What::Size, 5004, 5003),
    (
        b"aa\x02a\x02",
        b"a\x02a\x02\x02",
        What::Documents,
        5002,
        5003,
    ),
    (
        b"aa\x02a\x02\x02",
        b"aa\x02aa\x02",
        What::Documents,
        5003,
        5002,
    ),
    (b"aaa\x02a a\x02", b"a a\x02aaa\x02", What::Pairs, 1, 2),
    (b"a a\x02aaa\x02", b"aaa\x02a a\x02", What::Pairs, 2, 1),
    (b"a b", b"a c", What::Words, 0, 1),
    (b"a b", b"a-b", What::Others, 0, 1),
    (b"a b ", b"a a ", What::Words, 1, 0),
    (b"a\x02", b"\x02\x02", What::Pairs, 1, 0),
];

/// Whether each of these is told.
fn are_told(alloc: Global, rows: &[Ends<'_>]) -> Result<bool, AllocError> {
    for (before, after, what, first, second) in rows {
        if !is_told(alloc, (before, after), *what, (*first, *second))? {
            return Ok(false);
        }
    }
    Ok(true)
}

#[test]
fn a_collection_that_changes_is_told(rt: HostRuntime) -> Result<(), Fail> {
    assert!(rt; are_told(rt.alloc(), &ENDS)?);
    Ok(())
}

/// Whether the set is printed, and ends so.
fn is_printed_to<S: Store>(alloc: Global, store: &mut S, end: &[u8]) -> bool {
    let mut out = SureSink::new(alloc);
    let shown = decode(alloc, store, "set", &mut out).is_ok();
    shown && out.bytes().ends_with(end)
}

/// Whether the set is that of what was read last, where each number is the same at both readings.
fn is_of_the_second(alloc: Global) -> Result<bool, AllocError> {
    let mut store = changing(alloc, b"a b\x02b c\x02", b"c b\x02b a\x02")?;
    let made = built_of(alloc, &mut store).is_ok();
    Ok(made && is_printed_to(alloc, &mut store, b"\x02c b\x02b a\x02"))
}

#[test]
fn what_was_read_last_is_built(rt: HostRuntime) -> Result<(), Fail> {
    assert!(rt; is_of_the_second(rt.alloc())?);
    Ok(())
}

/// Whether a build is damaged whose run of one posting is read back as these bytes.
fn is_damaged_by(alloc: Global, runs: &[u8]) -> Result<bool, AllocError> {
    let mut store = holding(alloc, ("text", b"a\x02"), ("other.run", runs))?;
    store.changes = Part::Run;
    store.from = 0;
    let told = built_of(alloc, &mut store);
    let unbuilt = store.held.file("set.head") == Some(b"".as_slice());
    Ok(matches!(told, Err(Fault::Damaged(_))) && unbuilt)
}

/// No run; an end within a code; another term; another document; a posting more.
static OTHER_RUNS: [&[u8]; 5] = [b"", b"\xff", b"\x40", b"\x20", b"\x80\0"];

/// Whether a build is by each of these.
fn is_damaged_by_each(alloc: Global, rows: &[&[u8]]) -> Result<bool, AllocError> {
    for runs in rows {
        if !is_damaged_by(alloc, runs)? {
            return Ok(false);
        }
    }
    Ok(true)
}

#[test]
fn runs_that_change_are_damaged(rt: HostRuntime) -> Result<(), Fail> {
    assert!(rt; is_damaged_by_each(rt.alloc(), &OTHER_RUNS)?);
    Ok(())
}

/// Whether the first fault is told of a store that claims this size of its collection, before anything is written.
fn is_told_of_size(alloc: Global, claimed: u64, fault: Fault) -> Result<bool, AllocError> {
    let mut store = holding(alloc, ("text", LETTERS), ("other", b""))?;
    store.claimed = Some(claimed);
    let told = built_of(alloc, &mut store);
    Ok(told == Err(fault) && store.puts == 0)
}

#[test]
fn the_greatest_size_is_not_too_large(rt: HostRuntime) -> Result<(), Fail> {
    let most = (1 << 32) - 1;
    let fault = Fault::Changed {
        what: What::Size,
        first: most,
        second: 39,
    };
    assert!(rt; is_told_of_size(rt.alloc(), most, fault)?);
    Ok(())
}
